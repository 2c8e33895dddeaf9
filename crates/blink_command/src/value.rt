//! The meaning of the values of options.
ghost use Rattle.std.specs.Prelude.{◌≡◌, ◌≢◌, ◌≤◌, List, ℕ, Some, map, IfOk, IfSome, MatchOption};
ghost use Rattle.blink_batch.specs.{MayWork};
ghost use Rattle.clap.specs.Walk.{texts};
ghost use Rattle.blink_command.specs.Value.{IsSchedule, cut_of, driver_of, fan_of, number_between, parts_of, worker_of, workers_of};

use blink_batch::{WORKER_LIMIT, read_number};
use blink_page::{MAX_FAN, MIN_FAN};
use blink_settings::{CutKind, Driver};
use std::alloc::{AllocError, Global};

/// Returns the number of workers that a text spells, if a run may have that many.
pub fn workers_of(text: &str) -> Option<u8>
    ensures spelled { result ≡ workers_of text.now }
    ensures allowed { IfSome result MayWork }
{
    number_between(1, WORKER_LIMIT, text)
}

/// Returns the greatest number of entries in a page that a text spells, if a page may have that many.
pub fn fan_of(text: &str) -> Option<u8>
    ensures spelled { result ≡ fan_of text.now }
    ensures allowed { IfSome result (λ fan. (MIN_FAN ≤ fan) × (fan ≤ MAX_FAN)) }
{
    number_between(MIN_FAN, MAX_FAN as u8, text)
}

/// Returns the kind of cut of this name.
pub fn cut_of(text: &str) -> Option<CutKind>
    ensures { result ≡ cut_of text.now }
{
    match text {
        "residue" => Some(CutKind::Residue),
        "ranges" => Some(CutKind::Ranges),
        _ => None,
    }
}

/// Returns the driver of this name.
pub fn driver_of(text: &str) -> Option<Driver>
    ensures { result ≡ driver_of text.now }
{
    match text {
        "locked" => Some(Driver::Locked),
        "live" => Some(Driver::Live),
        _ => None,
    }
}

/// Returns the schedule that a text spells: nothing, or workers from 0 to 63 with a single comma between each two. An error is a
/// refusal of memory alone.
pub fn schedule_of(alloc: Global, text: &str) -> Result<Option<Vec<u8>>, AllocError>
    ensures { IfOk result (λ found. MatchOption found
        ((schedule : List ℕ) → ¬ IsSchedule text.now schedule)
        (λ schedule. IsSchedule text.now schedule.items)) }
{
    if text.is_empty() {
        return Ok(Some(Vec::new(alloc)));
    }
    workers_at(alloc, parts_of(alloc, text)?.as_slice())
}

// The texts between the commas.
fn parts_of(alloc: Global, text: &str) -> Result<Vec<&str>, AllocError>
    ensures { IfOk result (λ parts. texts parts.items ≡ parts_of text.now) }
{
    text.split(',').collect(alloc)
}

// The workers that the parts spell, one for each part.
fn workers_at(alloc: Global, parts: &[&str]) -> Result<Option<Vec<u8>>, AllocError>
    ensures { IfOk result (λ found. MatchOption found
        ((workers : List ℕ) → map (λ part. worker_of part.now) parts.now ≢ map Some workers)
        (λ workers. map (λ part. worker_of part.now) parts.now ≡ map Some workers.items)) }
{
    let mut workers = Vec::new(alloc);
    for part in parts {
        match worker_of(part) {
            Some(worker) => workers.push(worker)?,
            None => return Ok(None),
        }
    }
    Ok(Some(workers))
}

// The number of a worker, from 0.
fn worker_of(text: &str) -> Option<u8>
    ensures { result ≡ worker_of text.now }
{
    number_between(0, WORKER_LIMIT - 1, text)
}

// The number that a text spells as scripts spell numbers, if it lies between the limits.
fn number_between(least: u8, most: u8, text: &str) -> Option<u8>
    ensures spelled { result ≡ number_between least most text.now }
    ensures between { IfSome result (λ number. (least ≤ number) × (number ≤ most)) }
{
    match read_number(text.as_bytes()) {
        Some(number) if u64::from(least) <= number && number <= u64::from(most) => {
            Some(number as u8)
        }
        _ => None,
    }
}
