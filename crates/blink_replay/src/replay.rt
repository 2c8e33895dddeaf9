//! Serving a script by a replay, without threads.
ghost use Rattle.std.specs.Prelude.{◌≡◌, ◌<◌, ◌++◌, ◌↔◌, [], All, Err, IfOk, IfErr, IsErrOf, OnOk, MatchOption, count_by, string_bytes};
ghost use Rattle.blink_batch.specs.{IsLawfulCut, MayWork, answers, map_after_all, text_of};
ghost use Rattle.blink_index.specs.{map_of, text_of_store};
ghost use Rattle.blink_steps.specs.{IsFirstNoWorker, IsStart};
ghost use Rattle.blink_replay.specs.TrackedWriter.{OutputFails, Writes, WritesAll, replay_text};
ghost use Rattle.blink_replay.specs.Replay.{IsRefusedMemory, IsReplayFault, TellsBatch, TellsRun, by_residue};
ghost use Rattle.blink_replay.specs.Served.{is_batch, part_after, part_text, script_text};
ghost use Rattle.blink_settings.specs.{lanes_by_residue};
ghost use Rattle.blink_replay.specs.ServedReplay.{AreToWrite, HaveRunParts, IsPartRefusal, IsPartsFault, LeavesReplay, Replays, TellsPart, TellsParts, TellsReplayFault, TellsReplayOf, TellsTooLarge, TellsWorkersFault, TextsOutputAfterError, scheduled_turns};

use crate::parts::{batches_with, new_index};
use crate::text::{push_answers, push_scan};
use crate::trace::trace_steps;
use crate::tracked_writer::{TrackedWriter, flush_out, write_out};
use blink_batch::{Answer, Batch, Cut, Lanes, Part, read_script};
use blink_index::Index;
use blink_index::laws::{no_other_map_is_kept, the_map_is_kept};
use blink_settings::{ServeError, Settings, all_of};
use blink_steps::{StepError, World};
use std::alloc::{AllocError, Global};
use std::io::{Read, Write};

/// Reads a whole script and runs its parts one after another on one new index, without threads. Each batch is cut by the
/// remainders of the keys, whatever the settings say, and no driver is used. The script's last batch takes a turn for each
/// number of the schedule, and is then finished as by [`World::finish`]. The batches before it are finished at once.
///
/// When all turns are taken, the call writes three texts: the trace, with a line for each number of the schedule; the text that
/// `serve` of `blink_run` writes; and the pages of the index at the end, as `Index::dump` returns them. A schedule with a
/// number that isn't below the number of workers is refused before anything is read. After every error but `Output` nothing was
/// written.
pub fn serve_replay<R: Read, W: Write>(
    alloc: Global,
    reader: &mut R,
    writer: &mut W,
    settings: &Settings,
    schedule: &[u8],
) -> Result<(), ServeError>
    ensures replayed { OnOk result (Replays settings.now.workers settings.now.fan schedule.now
        (R.remaining reader.old) (W.contents writer.old) (W.contents writer.new)) }
    ensures fault { IfErr result
        (TellsReplayFault settings.now.workers schedule.now (R.remaining reader.old)) }
    ensures too_large { IfErr result
        (TellsReplayOf settings.now.workers settings.now.fan (R.remaining reader.old)) }
    ensures no_worker { (worker : _) → (result ≡ Err (ServeError.Step (StepError.NoWorker worker)))
        ↔ IsFirstNoWorker settings.now.workers schedule.now worker }
    ensures unread { (worker : _) → IsFirstNoWorker settings.now.workers schedule.now worker
        → reader.new ≡ reader.old }
    ensures left { IfErr result (λ error.
        LeavesReplay settings.now.workers settings.now.fan schedule.now (R.remaining reader.old)
        error (W.contents writer.old) (W.contents writer.new)) }
{
    match first_of_no_worker(schedule, settings.workers()) {
        Some(worker) => Err(ServeError::Step(StepError::NoWorker(worker))),
        None => Replay::of_script(alloc, reader, settings, schedule)?.write(writer),
    }
}

/// Writes the three texts of a replay one after another, and flushes. The first call that fails, or takes nothing, is the last.
pub fn write_replay<O: TrackedWriter>(
    tracked_writer: &mut O,
    trace: &str,
    text: &str,
    pages: &str,
) -> Result<(), ServeError>
    ensures written { OnOk result (Writes O.offered O.settled tracked_writer.old
        (replay_text trace.now text.now pages.now) tracked_writer.new) }
    ensures broken_off { IfErr result (λ error. OutputFails O.offered O.settled tracked_writer.old
        (replay_text trace.now text.now pages.now) error tracked_writer.new) }
{
    write_out(tracked_writer, trace)?;
    write_out(tracked_writer, text)?;
    write_out(tracked_writer, pages)?;
    flush_out(tracked_writer)
}

/// Returns the first number of a schedule that isn't below the number of workers.
pub fn first_of_no_worker(schedule: &[u8], workers: u8) -> Option<u8>
    ensures { MatchOption result (All (λ worker. worker < workers) schedule.now)
        (IsFirstNoWorker workers schedule.now) }
{
    for &worker in schedule {
        if worker >= workers {
            return Some(worker);
        }
    }
    None
}

/// Runs parts one after another on an index, as a replay runs those before a script's last batch. Each batch is cut by the
/// remainders of the keys and finished at once, without threads. A refusal gives up the index.
pub fn run_parts(
    alloc: Global,
    index: Index,
    parts: Vec<Part>,
    workers: u8,
) -> Result<Index, ServeError>
    requires { MayWork workers }
    ensures run { IfOk result (λ after. HaveRunParts workers index parts.items after) }
    ensures too_large { IfErr result (TellsTooLarge workers index parts.items) }
    ensures refused { IfErr result IsPartsFault }
{
    let replay = Replay::new(alloc, index, workers).run_parts(parts, &[])?;
    Ok(replay.index)
}

// A replay of parts by so many workers, as far as it has come: the index that the parts so far leave, the trace of their
// scheduled turns, and their text.
#[derive(Drop)]
struct Replay {
    alloc: Global,
    workers: u8,
    index: Index,
    trace: String,
    text: String,
}

impl Replay {
    // A replay over an index, before its first part.
    fn new(alloc: Global, index: Index, workers: u8) -> Replay
        ensures workers { result.workers ≡ workers }
        ensures index { result.index ≡ index }
        ensures trace { string_bytes result.trace ≡ [] }
        ensures text { string_bytes result.text ≡ [] }
    {
        Replay {
            alloc,
            workers,
            index,
            trace: String::new(alloc),
            text: String::new(alloc),
        }
    }

    // Reads a script, and runs its parts on a new index.
    fn of_script<R: Read>(
        alloc: Global,
        reader: &mut R,
        settings: &Settings,
        schedule: &[u8],
    ) -> Result<Replay, ServeError>
        requires { All (λ worker. worker < settings.now.workers) schedule.now }
        ensures texts { IfOk result (λ replay.
            AreToWrite settings.now.workers settings.now.fan schedule.now (R.remaining reader.old)
            (replay_text (string_bytes replay.trace) (string_bytes replay.text)
            (text_of_store replay.index))) }
        ensures fault { IfErr result (TellsWorkersFault (R.remaining reader.old)) }
        ensures too_large { IfErr result
            (TellsReplayOf settings.now.workers settings.now.fan (R.remaining reader.old)) }
        ensures no_writer { ¬ IsErrOf result ServeError.Output }
    {
        let script = read_script(alloc, reader)?;
        let index = new_index(alloc, settings)?;
        let replay = Replay::new(alloc, index, settings.workers());
        replay.run_parts(script.parts, schedule)
    }

    // Runs parts one after another. The last batch among them takes the schedule.
    fn run_parts(self, parts: Vec<Part>, schedule: &[u8]) -> Result<Replay, ServeError>
        requires allowed { MayWork self.workers }
        requires workers { All (λ worker. worker < self.workers) schedule.now }
        ensures told { IfOk result
            (λ after. TellsParts self.workers schedule.now self.index parts.items
            (string_bytes self.trace) (string_bytes after.trace) after.index) }
        ensures text { IfOk result (λ after. string_bytes after.text
            ≡ string_bytes self.text ++ script_text (map_of self.index) parts.items) }
        ensures too_large { IfErr result (TellsTooLarge self.workers self.index parts.items) }
        ensures refused { IfErr result IsPartsFault }
    {
        let mut replay = self;
        let mut batches_left = batches_among(&parts);
        for part in parts {
            batches_left -= batches_with(&part, 0);
            let turns = scheduled_turns(batches_left, schedule);
            replay = replay.run_part(part, turns)?;
        }
        Ok(replay)
    }

    // Runs a part. A batch takes the schedule.
    fn run_part(mut self, part: Part, schedule: &[u8]) -> Result<Replay, ServeError>
        requires allowed { MayWork self.workers }
        requires workers { All (λ worker. worker < self.workers) schedule.now }
        ensures workers { IfOk result (λ after. after.workers ≡ self.workers) }
        ensures told { IfOk result (λ after. TellsPart self.workers schedule.now self.index part
            (string_bytes self.trace) (string_bytes after.trace) after.index) }
        ensures text { IfOk result (λ after. string_bytes after.text
            ≡ string_bytes self.text ++ part_text (map_of self.index) part) }
        ensures map { IfOk result
            (λ after. map_of after.index ≡ part_after (map_of self.index) part) }
        ensures refused { IfErr result (IsPartRefusal self.index part) }
    {
        match part {
            Part::Batch(batch) => self.run_batch(batch, schedule),
            Part::Scan(lo, hi) => {
                push_scan(&mut self.text, self.index.scan(lo, hi))?;
                Ok(self)
            }
            Part::Page(lo, n) => {
                push_scan(&mut self.text, self.index.page(lo, n))?;
                Ok(self)
            }
        }
    }

    // Runs a batch, cut by residue: a turn for each number of the schedule, and then picked turns to the end. Each scheduled
    // turn adds a line to the trace, and each answer a line to the text.
    fn run_batch(mut self, batch: Batch, schedule: &[u8]) -> Result<Replay, ServeError>
        requires allowed { MayWork self.workers }
        requires workers { All (λ worker. worker < self.workers) schedule.now }
        ensures workers { IfOk result (λ after. after.workers ≡ self.workers) }
        ensures told { IfOk result (λ after. TellsBatch self.workers schedule.now self.index batch
            (string_bytes self.trace) (string_bytes after.trace) after.index) }
        ensures text { IfOk result (λ after. string_bytes after.text
            ≡ string_bytes self.text ++ text_of (answers (map_of self.index) batch)) }
        ensures map { IfOk result
            (λ after. map_of after.index ≡ map_after_all (map_of self.index) batch) }
        ensures refused { IfErr result (IsReplayFault self.index batch) }
    {
        let mut world = first_world(self.alloc, self.index, batch, self.workers)?;
        tell_run(
            self.alloc,
            &mut world,
            schedule,
            &mut self.trace,
            &mut self.text,
        )?;
        the_map_is_kept();
        no_other_map_is_kept();
        self.index = Index::from_rest(world.into_rest());
        Ok(self)
    }

    // Writes the trace, the text, and the pages of the index. They are made before the first call of the writer.
    fn write<O: TrackedWriter>(&self, tracked_writer: &mut O) -> Result<(), ServeError>
        ensures written { OnOk result (Writes O.offered O.settled tracked_writer.old
            (replay_text (string_bytes self.now.trace) (string_bytes self.now.text)
            (text_of_store self.now.index)) tracked_writer.new) }
        ensures left { IfErr result (λ error. TextsOutputAfterError O.offered O.settled
            (replay_text (string_bytes self.now.trace) (string_bytes self.now.text)
            (text_of_store self.now.index)) error tracked_writer.old tracked_writer.new) }
    {
        let pages = self.index.dump(self.alloc)?;
        write_replay(tracked_writer, &self.trace, &self.text, &pages)
    }
}

// The number of batches among the parts.
fn batches_among(parts: &[Part]) -> u64
    ensures { result ≡ count_by is_batch parts.now }
{
    let mut batches = 0u64;
    for part in parts {
        batches = batches_with(part, batches);
    }
    batches
}

// The turns of a part that `batches_left` batches follow: the whole schedule, if it is the last batch.
fn scheduled_turns(batches_left: u64, schedule: &[u8]) -> &[u8]
    ensures { result.now ≡ scheduled_turns batches_left schedule.now }
{
    if batches_left == 0 { schedule } else { &[] }
}

// The world of a batch's replay over an index before its first turn.
fn first_world(alloc: Global, index: Index, batch: Batch, workers: u8) -> Result<World, ServeError>
    requires { MayWork workers }
    ensures begins { IfOk result (λ world. IsStart index batch (by_residue workers batch) world) }
    ensures lawful { IfOk result
        (λ _. IsLawfulCut batch workers (lanes_by_residue workers batch)) }
    ensures refused { IfErr result (IsReplayFault index batch) }
{
    let assignment = lanes_by_residue(alloc, &batch, workers)?;
    Ok(World::start(alloc, index.into_rest(), batch, assignment)?)
}

// Runs a batch to its end. Each scheduled turn adds a line to the trace, and each answer a line to the text.
fn tell_run(
    alloc: Global,
    world: &mut World,
    schedule: &[u8],
    trace: &mut String,
    text: &mut String,
) -> Result<(), ServeError>
    requires { All (λ worker. worker < world.old.run.assignment.workers) schedule.now }
    ensures told { OnOk result ((given : _)
        × TellsRun world.old schedule.now world.new
        (string_bytes trace.old) (string_bytes trace.new) given
        × (string_bytes text.new ≡ string_bytes text.old ++ text_of given)) }
    ensures refused { IfErr result IsRefusedMemory }
{
    let answers = run_to_end(alloc, world, schedule, trace)?;
    push_answers(text, &answers)?;
    Ok(())
}

// Takes the turns of the schedule, and then picked turns to the end, and returns the answers. Each scheduled turn adds a line
// to the trace.
fn run_to_end(
    alloc: Global,
    world: &mut World,
    schedule: &[u8],
    trace: &mut String,
) -> Result<Vec<Answer>, ServeError>
    requires { All (λ worker. worker < world.old.run.assignment.workers) schedule.now }
    ensures ran { IfOk result (λ given. TellsRun world.old schedule.now world.new
        (string_bytes trace.old) (string_bytes trace.new) given.items) }
    ensures refused { IfErr result IsRefusedMemory }
{
    trace_steps(world, schedule, trace)?;
    world.finish()?;
    let _of_its_schedule = world.schedule();
    Ok(all_of(alloc, world.answers())?)
}

/// Returns the lane of each operation, by the remainder of its key: the lanes of a replay. An error is a refusal of memory
/// alone.
pub fn lanes_by_residue(alloc: Global, batch: &Batch, workers: u8) -> Result<Lanes, AllocError>
    requires { MayWork workers }
    ensures lanes { IfOk result (λ lanes. lanes ≡ by_residue workers batch.now) }
    ensures lawful { IfOk result (λ lanes. IsLawfulCut batch.now lanes.workers lanes.lanes) }
{
    match Cut::by_residue(alloc, batch, workers) {
        Ok(cut) => Ok(cut.into_lanes()),
        Err(_) => Err(AllocError),
    }
}
