//! Reading an index: what the exports of an index and those of a reader do alike.
ghost use Rattle.std.specs.Prelude.{◌≡◌, ◌≢◌, ◌↔◌, ◌<◌, ◌≤◌, ◌^◌, ◌++◌, IsSome, List, IsTrue, filter, length, map, reverse};
ghost use Rattle.blink_batch.specs.declared.Entry.{Entry};
ghost use Rattle.blink_batch.specs.{pointer_of};
ghost use Rattle.blink_index.specs.{is_within, map_of, text_of_store};
ghost use Rattle.blink_rest.specs.{entries_from};
ghost use Rattle.blink_handles.specs.declared.raw.RawEntry.{RawEntry};
ghost use Rattle.blink_handles.specs.Codes.{code_of};
ghost use Rattle.blink_handles.specs.Edits.{entry_or};
ghost use Rattle.blink_handles.specs.Filled.{overlaid, put_if_fits, told_of};
ghost use Rattle.blink_handles.specs.Found.{found_answer, pointer_or};

use crate::raw::{RawAnswer, RawEntry, RawScanned};
use crate::refusal::{Code, DONE, Refusal};
use blink_batch::Entry;
use blink_index::{Index, Scan, ScanBack};
use std::alloc::Global;

/// Looks a key up. It gives the key's record pointer, or leaves `pointer` as it was.
pub fn find(index: &Index, key: u64, pointer: &mut u64) -> bool
    ensures found { IsTrue result ↔ IsSome (pointer_of (map_of index.now) key) }
    ensures pointer { pointer.new ≡ pointer_or (pointer_of (map_of index.now) key) pointer.old }
{
    let found = index.find(key);
    *pointer = found.unwrap_or(*pointer);
    found.is_some()
}

/// Looks keys up, and gives the answer of each at its place.
pub fn find_many(index: &Index, keys: &[u64], answers: &mut [RawAnswer]) -> Code
    ensures found { result ≡ 0 → answers.new ≡ map (found_answer (map_of index.now)) keys.now }
    ensures wrong_length { result ≡ code_of Refusal.WrongLength ↔ length answers.old ≢ length keys.now }
    ensures refused { result ≢ 0 → result ≡ code_of Refusal.WrongLength }
    ensures unchanged { result ≢ 0 → answers.new ≡ answers.old }
{
    if answers.len() != keys.len() {
        return Refusal::WrongLength.code();
    }
    find_each(index, keys, answers);
    DONE
}

// Looks keys up, and gives the answer of each at its place.
fn find_each(index: &Index, keys: &[u64], answers: &mut [RawAnswer])
    requires { length answers.old ≡ length keys.now }
    ensures { answers.new ≡ map (found_answer (map_of index.now)) keys.now }
{
    for place in 0..keys.len() {
        answers[place] = found_at(index, keys[place]);
    }
}

// The answer of a find.
fn found_at(index: &Index, key: u64) -> RawAnswer
    ensures { result ≡ found_answer (map_of index.now) key }
{
    RawAnswer::shown(index.find(key))
}

/// Gives an entry, if there is one, or leaves `entry` as it was.
pub fn give_entry(found: Option<Entry>, entry: &mut RawEntry) -> bool
    ensures found { IsTrue result ↔ IsSome found }
    ensures entry { entry.new ≡ entry_or found entry.old }
{
    match found {
        Some(found) => {
            *entry = RawEntry::of(found);
            true
        }
        None => false,
    }
}

/// Gives the entries whose keys are from `lo` to `hi`, as many as there are places, and tells how far it came. Behind the first entry
/// for which there is no place it reads no leaf.
pub fn scan(index: &Index, lo: u64, hi: u64, entries: &mut [RawEntry], scanned: &mut RawScanned)
    ensures entries { entries.new
        ≡ overlaid (filter (is_within lo hi) (map_of index.now)) entries.old }
    ensures scanned { scanned.new
        ≡ told_of (filter (is_within lo hi) (map_of index.now)) (length entries.old) }
{
    *scanned = fill_entries(index.scan(lo, hi), entries);
}

/// The same, the greatest first.
pub fn scan_back(
    index: &Index,
    lo: u64,
    hi: u64,
    entries: &mut [RawEntry],
    scanned: &mut RawScanned,
)
    ensures entries { entries.new
        ≡ overlaid (reverse (filter (is_within lo hi) (map_of index.now))) entries.old }
    ensures scanned { scanned.new
        ≡ told_of (reverse (filter (is_within lo hi) (map_of index.now))) (length entries.old) }
{
    *scanned = fill_back(index.scan_back(lo, hi), entries);
}

/// Counts the entries whose keys are from `lo` to `hi`. It walks their leaves.
pub fn count(index: &Index, lo: u64, hi: u64) -> usize
    ensures { result ≡ length (filter (is_within lo hi) (map_of index.now)) }
{
    few_entries(index);
    count_entries(index.scan(lo, hi))
}

// Counts the entries that a scan gives.
fn count_entries(mut scan: Scan<'_>) -> usize
    requires { length scan < 2 ^ 63 }
    ensures { result ≡ length scan.entry }
{
    let mut there = 0usize;
    'runs: while let Some(part) = scan.next_run() {
        there += part.len();
    }
    there
}

// Gives entries, as many as there are places, and tells how far the scan came.
fn fill_entries(mut scan: Scan<'_>, entries: &mut [RawEntry]) -> RawScanned
    ensures entries { entries.new ≡ overlaid scan.entry entries.old }
    ensures scanned { result ≡ told_of scan.entry (length entries.old) }
{
    let mut filled = 0usize;
    'runs: while let Some(part) = scan.next_run() {
        set_run(entries, filled, part);
        let room = entries.len() - filled;
        if room < part.len() {
            return RawScanned::told(entries.len(), Some(part[room].0));
        }
        filled += part.len();
    }
    RawScanned::told(filled, None)
}

// Sets the places of the array from this one on to a run of entries, as far as the array has them.
fn set_run(entries: &mut [RawEntry], first: usize, run: &[(u64, u64)])
    ensures { (shown : List Entry) (places : List RawEntry) → entries.old ≡ overlaid shown places
        → first ≡ length shown → entries.new ≡ overlaid (shown ++ entries_from run.now) places }
{
    if first >= entries.len() {
        return;
    }
    let count = run.len().min(entries.len() - first);
    for place in 0..count {
        let (key, pointer) = run[place];
        entries[first + place] = RawEntry { key, pointer };
    }
}

// Gives the entries of a backward scan, as many as there are places, and tells how far it came.
fn fill_back(mut scan: ScanBack<'_>, entries: &mut [RawEntry]) -> RawScanned
    ensures entries { entries.new ≡ overlaid scan.entry entries.old }
    ensures scanned { result ≡ told_of scan.entry (length entries.old) }
{
    let mut filled = 0usize;
    'runs: while let Some(part) = scan.next_run() {
        set_run_back(entries, filled, part);
        let room = entries.len() - filled;
        if room < part.len() {
            return RawScanned::told(entries.len(), Some(part[part.len() - 1 - room].0));
        }
        filled += part.len();
    }
    RawScanned::told(filled, None)
}

// Sets the places of the array from this one on to a run of entries, the last first, as far as the array has them.
fn set_run_back(entries: &mut [RawEntry], first: usize, run: &[(u64, u64)])
    ensures { (shown : List Entry) (places : List RawEntry) → entries.old ≡ overlaid shown places
        → first ≡ length shown
        → entries.new ≡ overlaid (shown ++ reverse (entries_from run.now)) places }
{
    if first >= entries.len() {
        return;
    }
    let count = run.len().min(entries.len() - first);
    for place in 0..count {
        let (key, pointer) = run[run.len() - 1 - place];
        entries[first + place] = RawEntry { key, pointer };
    }
}

// Called for the proof: an index has few pages, so the number of its entries fits a word.
fn few_entries(index: &Index)
    ensures { length (map_of index.now) < 2 ^ 63 }
{
    let _store = index.rest().store();
}

/// Returns the greatest number of entries in a page.
pub fn fan(index: &Index) -> u8
    ensures { result ≡ index.now.fan }
{
    index.rest().store().fan()
}

/// Gives the tree as text, if all of it fits, and stores how many bytes it has.
pub fn dump(alloc: Global, index: &Index, text: &mut [u8], bytes: &mut usize) -> Code
    ensures bytes { result ≡ 0 → bytes.new ≡ length (text_of_store index.now) }
    ensures text { result ≡ 0 → text.new ≡ put_if_fits (text_of_store index.now) text.old }
    ensures refused { result ≢ 0 → result ≡ code_of Refusal.OutOfMemory }
    ensures unchanged { result ≢ 0 → (text.new ≡ text.old) × (bytes.new ≡ bytes.old) }
{
    match index.dump(alloc) {
        Ok(dump) => {
            *bytes = dump.len();
            put(dump.as_bytes(), text);
            DONE
        }
        Err(_) => Refusal::OutOfMemory.code(),
    }
}

// Puts a text into the places, if all of it fits.
fn put(text: &[u8], places: &mut [u8])
    ensures { places.new ≡ put_if_fits text.now places.old }
{
    if text.len() <= places.len() {
        places[..text.len()].copy_from_slice(text);
    }
}
