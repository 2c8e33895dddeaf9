//! A script's replay, written to be looked at.
ghost use Rattle.std.specs.Prelude.{◌≡◌, ◌++◌, ◌↔◌, Err, IfErr, IfOk, OnOk, MatchOption, count_by, string_bytes};
ghost use Rattle.blink_replay.specs.{WritesText, is_batch, IsPartsFault, TellsReplayFault, TellsWorkersFault};
ghost use Rattle.blink_store.specs.{new_store};
ghost use Rattle.blink_steps.specs.{IsFirstNoWorker};
ghost use Rattle.blink_show.specs.Show.{AddsParts, IsLastBatch, IsSeedText, IsShowText, IsTextOf, LeavesShow, sizes_text};
ghost use Rattle.blink_show.specs.AskedTurns.{AreOfWorkers, ShowsAsked};

use crate::batch::show_batch;
use crate::frame::Film;
use crate::turns::{Asked, Turns};
use blink_batch::{Batch, Part, read_script};
use blink_index::Index;
use blink_replay::{first_of_no_worker, new_index, run_parts, write_replay};
use blink_settings::{ServeError, Settings};
use blink_steps::StepError;
use std::alloc::{AllocError, Global};
use std::fmt::Write as _;
use std::io::{Read, Write};

/// The constant text around a replay: `head` stands before it, and `tail` behind it.
#[derive(Clone, Copy, Debug)]
pub struct Template<'a> {
    pub head: &'a str,
    pub tail: &'a str,
}

/// Reads a whole script and replays it, as [`blink_replay::serve_replay`] does. Each batch is cut by the remainders of the keys. The
/// last batch takes a turn for each number of the schedule, and is then finished. The batches before it are finished at once.
///
/// When all turns are taken, the call writes the template's head, and then the workers and the fan. If the script has a batch, it
/// writes the last batch's operations, a frame for its first tree state, and one for each turn of the schedule and of the finish.
/// It ends with the template's tail. The first frame has a line for the prime block, for each worker and for each page. Each
/// other frame has the lines that have changed, and the operations that have decided since. A schedule with a number that isn't
/// below the number of workers is refused before anything is read. After every error but `Output` nothing was written.
pub fn serve_show<R: Read, W: Write>(
    alloc: Global,
    reader: &mut R,
    writer: &mut W,
    settings: &Settings,
    schedule: &[u8],
    template: Template<'_>,
) -> Result<(), ServeError>
    ensures shown { OnOk result (WritesText
        (IsShowText template.entry.head.now template.entry.tail.now
        settings.now.workers settings.now.fan schedule.now)
        (R.remaining reader.old) (W.contents writer.old) (W.contents writer.new)) }
    ensures fault { IfErr result
        (TellsReplayFault settings.now.workers schedule.now (R.remaining reader.old)) }
    ensures no_worker { (worker : _) → (result ≡ Err (ServeError.Step (StepError.NoWorker worker)))
        ↔ IsFirstNoWorker settings.now.workers schedule.now worker }
    ensures unread { (worker : _) → IsFirstNoWorker settings.now.workers schedule.now worker
        → reader.new ≡ reader.old }
    ensures left { IfErr result (λ error. LeavesShow
        (IsShowText template.entry.head.now template.entry.tail.now
        settings.now.workers settings.now.fan schedule.now)
        (R.remaining reader.old) error (W.contents writer.old) (W.contents writer.new)) }
{
    match first_of_no_worker(schedule, settings.workers()) {
        Some(worker) => Err(ServeError::Step(StepError::NoWorker(worker))),
        None => {
            let turns = Turns::Schedule(schedule);
            show_script(alloc, reader, writer, Asked { settings, turns }, template)
        }
    }
}

/// Reads a whole script and replays it, as [`serve_show`] does, by another order of turns. The words of SplitMix64 from this
/// seed draw the worker of each turn of the last batch, until all operations have ended. They draw among the workers whose next
/// turn neither waits nor is idle. The call writes the text of [`serve_show`] for that schedule.
pub fn serve_seed<R: Read, W: Write>(
    alloc: Global,
    reader: &mut R,
    writer: &mut W,
    settings: &Settings,
    seed: u64,
    template: Template<'_>,
) -> Result<(), ServeError>
    ensures shown { OnOk result (WritesText
        (IsSeedText template.entry.head.now template.entry.tail.now
        settings.now.workers settings.now.fan seed)
        (R.remaining reader.old) (W.contents writer.old) (W.contents writer.new)) }
    ensures fault { IfErr result (TellsWorkersFault (R.remaining reader.old)) }
    ensures left { IfErr result (λ error. LeavesShow
        (IsSeedText template.entry.head.now template.entry.tail.now
        settings.now.workers settings.now.fan seed)
        (R.remaining reader.old) error (W.contents writer.old) (W.contents writer.new)) }
{
    let turns = Turns::Seed(seed);
    show_script(alloc, reader, writer, Asked { settings, turns }, template)
}

// Shows the script as asked for, if each number of a schedule is a worker.
fn show_script<R: Read, W: Write>(
    alloc: Global,
    reader: &mut R,
    writer: &mut W,
    asked: Asked<'_>,
    template: Template<'_>,
) -> Result<(), ServeError>
    requires { AreOfWorkers asked.settings.now.workers asked.turns }
    ensures shown { OnOk result (WritesText
        (IsTextOf template.entry.head.now template.entry.tail.now asked.entry.settings.now.workers
        asked.entry.settings.now.fan (ShowsAsked asked.entry.turns))
        (R.remaining reader.old) (W.contents writer.old) (W.contents writer.new)) }
    ensures fault { IfErr result (TellsWorkersFault (R.remaining reader.old)) }
    ensures left { IfErr result (λ error. LeavesShow
        (IsTextOf template.entry.head.now template.entry.tail.now asked.entry.settings.now.workers
        asked.entry.settings.now.fan (ShowsAsked asked.entry.turns))
        (R.remaining reader.old) error (W.contents writer.old) (W.contents writer.new)) }
{
    let script = read_script(alloc, reader)?;
    let film = film_of(alloc, script.parts, asked)?;
    write_replay(writer, template.head, &film.text, template.tail)
}

// A film of the script's parts, with the sizes before it.
fn film_of(alloc: Global, parts: Vec<Part>, asked: Asked<'_>) -> Result<Film, ServeError>
    requires { AreOfWorkers asked.settings.now.workers asked.turns }
    ensures shown { IfOk result (λ film. AddsParts asked.entry.settings.now.workers
        (ShowsAsked asked.entry.turns) (new_store asked.entry.settings.now.fan) parts.items
        (sizes_text asked.entry.settings.now.workers asked.entry.settings.now.fan)
        (string_bytes film.text)) }
    ensures refused { IfErr result IsPartsFault }
{
    let index = new_index(alloc, asked.settings)?;
    let mut film = Film::new(alloc);
    push_sizes(&mut film.text, asked.settings)?;
    show_parts(&mut film, index, parts, asked)?;
    Ok(film)
}

// Adds the lines of the sizes.
fn push_sizes(text: &mut String, settings: &Settings) -> Result<(), AllocError>
    ensures { OnOk result (string_bytes text.new
        ≡ string_bytes text.old ++ sizes_text settings.now.workers settings.now.fan) }
{
    let workers = settings.workers();
    let fan = settings.fan();
    write!(text, "workers {workers}\nfan {fan}\n")
}

// Adds the text of the last batch, over the tree that the parts before it leave.
fn show_parts(
    film: &mut Film,
    index: Index,
    parts: Vec<Part>,
    asked: Asked<'_>,
) -> Result<(), ServeError>
    requires { AreOfWorkers asked.settings.now.workers asked.turns }
    ensures shown { OnOk result
        (AddsParts asked.entry.settings.now.workers (ShowsAsked asked.entry.turns) index parts.items
        (string_bytes film.old.text) (string_bytes film.new.text)) }
    ensures refused { IfErr result IsPartsFault }
{
    let mut prefix = parts;
    match take_last_batch(&mut prefix) {
        Some(batch) => {
            let workers = asked.settings.workers();
            let index = run_parts(film.alloc, index, prefix, workers)?;
            show_batch(film, index, batch, asked)
        }
        None => Ok(()),
    }
}

// Takes the last batch away, with what comes after it.
fn take_last_batch(parts: &mut Vec<Part>) -> Option<Batch>
    ensures { MatchOption result (count_by is_batch parts.old.items ≡ 0)
        (IsLastBatch parts.old.items parts.new.items) }
{
    while let Some(part) = parts.pop() {
        if let Part::Batch(batch) = part {
            return Some(batch);
        }
    }
    None
}
