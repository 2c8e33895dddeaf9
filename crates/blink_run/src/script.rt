//! Serving a script: from its text to its output.
ghost use Rattle.std.specs.Prelude.{◌≡◌, IfErr, IfOk, IsErrOf, OnOk, string_bytes};
ghost use Rattle.blink_batch.specs.{answers, map_after_all, text_of};
ghost use Rattle.blink_batch.specs.declared.Part.TheVariants.{Batch as PartBatch};
ghost use Rattle.blink_index.specs.{map_of};
ghost use Rattle.blink_run.specs.BySettings.{RefusesPart, RunsBatchBy, RunsPartBy, RunsPartsBy, IsServedBy, ServesBy, TellsRun, TellsRunOf};
ghost use Rattle.blink_replay.specs.{IsBatchFault, IsPartFault, FlushedOutputAfterError, PrefixOutputAfterError, OutputAfterError, PartOutputAfterError, Serves, TellsFault, Writes, WritesAll, part_after, part_text, scan_text, script_text};

use crate::run::run_batch;
use blink_batch::{Answer, Batch, Part, read_script};
use blink_index::{Index, Scan};
use blink_locked::Gate;
use blink_replay::{
    TrackedWriter, batches_with, flush_out, new_index, push_answers, push_scan, write_out,
};
use blink_settings::{ServeError, Settings};
use std::alloc::{AllocError, Global};
use std::io::{Read, Write};
use std::sync::Wait;
use std::thread::Threads;

/// Reads a whole script, runs its parts one after another on one new index, and writes their answers. It writes a line for each
/// operation, in the order of its batch. For a scan or a page it writes a line for each entry, in ascending order, and then
/// their number. The workers of the settings run each batch, in threads of their own.
///
/// The writer gets each part's lines before the next part begins. The call flushes the writer at the end. It does so after a
/// batch that isn't run and after refused memory too, once the script is read. If a write or a flush fails, for whatever reason,
/// or a write takes nothing, the call refuses with `Output` at once, and calls the writer no more.
pub fn serve<T: Threads + Wait + Sync, R: Read, W: Write, G: Gate + Sync>(
    rt: &T,
    alloc: Global,
    reader: &mut R,
    writer: &mut W,
    settings: &Settings,
    gate: &G,
) -> Result<(), ServeError>
    ensures served { OnOk result
        (Serves (R.remaining reader.old) (W.contents writer.old) (W.contents writer.new)) }
    ensures by_settings { OnOk result (IsServedBy settings.now (R.remaining reader.old)) }
    ensures fault { IfErr result (TellsFault (R.remaining reader.old)) }
    ensures not_run { IfErr result (TellsRunOf settings.now (R.remaining reader.old)) }
    ensures left { IfErr result (λ error.
        OutputAfterError (R.remaining reader.old) error (W.contents writer.old) (W.contents writer.new)) }
{
    match serve_index(rt, alloc, reader, writer, settings, gate) {
        Ok(_index) => Ok(()),
        Err(error) => Err(error),
    }
}

/// Does what [`serve`] does, and returns the index that the parts of the script leave. Its entries are those of one thread, and
/// its pages show by which settings the batches were run: by the driver `Locked` they are those of a replay of the lanes, and by
/// `Live` they are numbered anew.
pub fn serve_index<T: Threads + Wait + Sync, R: Read, W: Write, G: Gate + Sync>(
    rt: &T,
    alloc: Global,
    reader: &mut R,
    writer: &mut W,
    settings: &Settings,
    gate: &G,
) -> Result<Index, ServeError>
    ensures served { OnOk result
        (Serves (R.remaining reader.old) (W.contents writer.old) (W.contents writer.new)) }
    ensures by_settings { IfOk result (ServesBy settings.now (R.remaining reader.old)) }
    ensures fault { IfErr result (TellsFault (R.remaining reader.old)) }
    ensures not_run { IfErr result (TellsRunOf settings.now (R.remaining reader.old)) }
    ensures left { IfErr result (λ error.
        OutputAfterError (R.remaining reader.old) error (W.contents writer.old) (W.contents writer.new)) }
{
    let script = read_script(alloc, reader)?;
    let mut index = new_index(alloc, settings)?;
    let service = Service {
        rt,
        alloc,
        settings,
        gate,
    };
    match service.serve_script(&script.parts, &mut index, writer) {
        Ok(()) => Ok(index),
        Err(error) => Err(error),
    }
}

// What each part of a script is served with.
#[derive(Drop)]
struct Service<'a, T, G> {
    rt: &'a T,
    alloc: Global,
    settings: &'a Settings,
    gate: &'a G,
}

impl<'a, T: Threads + Wait + Sync, G: Gate + Sync> Service<'a, T, G> {
    // Serves the parts of a script, and flushes unless the writer failed.
    fn serve_script<O: TrackedWriter>(
        &self,
        parts: &[Part],
        index: &mut Index,
        tracked_writer: &mut O,
    ) -> Result<(), ServeError>
        ensures served { OnOk result
            (Writes O.offered O.settled tracked_writer.old
            (script_text (map_of index.old) parts.now) tracked_writer.new) }
        ensures by_settings { OnOk result
            (RunsPartsBy self.now.settings.now index.old parts.now index.new) }
        ensures not_run { IfErr result (TellsRun self.now.settings.now index.old parts.now) }
        ensures left { IfErr result (λ error.
            FlushedOutputAfterError O.offered O.settled (map_of index.old) parts.now error
            tracked_writer.old tracked_writer.new) }
    {
        let outcome = self.serve_parts(parts, index, tracked_writer);
        if outcome == Err(ServeError::Output) {
            return outcome;
        }
        flush_out(tracked_writer)?;
        outcome
    }

    // Serves the parts of a script, one after another.
    fn serve_parts<O: TrackedWriter>(
        &self,
        parts: &[Part],
        index: &mut Index,
        tracked_writer: &mut O,
    ) -> Result<(), ServeError>
        ensures served { OnOk result
            (WritesAll O.offered tracked_writer.old
            (script_text (map_of index.old) parts.now) tracked_writer.new) }
        ensures by_settings { OnOk result
            (RunsPartsBy self.now.settings.now index.old parts.now index.new) }
        ensures not_run { IfErr result (TellsRun self.now.settings.now index.old parts.now) }
        ensures left { IfErr result (λ error.
            PrefixOutputAfterError O.offered O.settled (map_of index.old) parts.now error
            tracked_writer.old tracked_writer.new) }
    {
        let mut batches = 0u64;
        for part in parts {
            batches = batches_with(part, batches);
            self.serve_part(part, batches, index, tracked_writer)?;
        }
        Ok(())
    }

    // Serves one part. `number` is the part's number if it is a batch.
    fn serve_part<O: TrackedWriter>(
        &self,
        part: &Part,
        number: u64,
        index: &mut Index,
        tracked_writer: &mut O,
    ) -> Result<(), ServeError>
        ensures served { OnOk result (WritesAll O.offered tracked_writer.old
            (part_text (map_of index.old) part.now) tracked_writer.new) }
        ensures map { OnOk result (map_of index.new ≡ part_after (map_of index.old) part.now) }
        ensures by_settings { OnOk result
            (RunsPartBy self.now.settings.now index.old part.now index.new) }
        ensures fault { IfErr result (IsPartFault part.now number) }
        ensures not_run { IfErr result (RefusesPart self.now.settings.now index.old part.now) }
        ensures left { IfErr result (λ error. PartOutputAfterError O.offered O.settled
            (part_text (map_of index.old) part.now) error tracked_writer.old tracked_writer.new) }
    {
        let text = self.text_of_part(part, number, index)?;
        write_out(tracked_writer, &text)
    }

    // Runs one part, and returns its lines. `number` is the part's number if it is a batch.
    fn text_of_part(
        &self,
        part: &Part,
        number: u64,
        index: &mut Index,
    ) -> Result<String, ServeError>
        ensures text { IfOk result
            (λ text. string_bytes text ≡ part_text (map_of index.old) part.now) }
        ensures map { IfOk result
            (λ _. map_of index.new ≡ part_after (map_of index.old) part.now) }
        ensures by_settings { IfOk result
            (λ _. RunsPartBy self.now.settings.now index.old part.now index.new) }
        ensures fault { IfErr result (IsPartFault part.now number) }
        ensures not_run { IfErr result (RefusesPart self.now.settings.now index.old part.now) }
        ensures no_writer { ¬ IsErrOf result ServeError.Output }
    {
        match part {
            Part::Batch(batch) => self.batch_text(batch, number, index),
            Part::Scan(lo, hi) => scan_text(self.alloc, index.scan(*lo, *hi)),
            Part::Page(lo, n) => scan_text(self.alloc, index.page(*lo, *n)),
        }
    }

    // Runs the batch of this number, and returns the lines of its answers.
    fn batch_text(
        &self,
        batch: &Batch,
        number: u64,
        index: &mut Index,
    ) -> Result<String, ServeError>
        ensures text { IfOk result
            (λ text. string_bytes text ≡ text_of (answers (map_of index.old) batch.now)) }
        ensures map { IfOk result
            (λ _. map_of index.new ≡ map_after_all (map_of index.old) batch.now) }
        ensures by_settings { IfOk result
            (λ _. RunsBatchBy self.now.settings.now index.old batch.now index.new) }
        ensures fault { IfErr result (IsBatchFault number) }
        ensures not_run { IfErr result
            (RefusesPart self.now.settings.now index.old (PartBatch batch.now)) }
    {
        let answers = self.batch_answers(batch, number, index)?;
        Ok(answers_text(self.alloc, &answers)?)
    }

    // Runs the batch of this number, and returns its answers.
    fn batch_answers(
        &self,
        batch: &Batch,
        number: u64,
        index: &mut Index,
    ) -> Result<Vec<Answer>, ServeError>
        ensures answers { IfOk result
            (λ given. given.items ≡ answers (map_of index.old) batch.now) }
        ensures map { IfOk result
            (λ _. map_of index.new ≡ map_after_all (map_of index.old) batch.now) }
        ensures by_settings { IfOk result
            (λ _. RunsBatchBy self.now.settings.now index.old batch.now index.new) }
        ensures fault { IfErr result (IsBatchFault number) }
        ensures not_run { IfErr result
            (RefusesPart self.now.settings.now index.old (PartBatch batch.now)) }
    {
        let settings = self.settings;
        let cut = settings.cut_batch(self.alloc, batch)?;
        let driver = settings.driver();
        match run_batch(self.rt, self.alloc, index, batch, &cut, driver, self.gate) {
            Ok(answers) => Ok(answers),
            Err(error) => Err(ServeError::Run(number, error)),
        }
    }
}

// A line for each answer.
fn answers_text(alloc: Global, answers: &[Answer]) -> Result<String, AllocError>
    ensures { IfOk result (λ text. string_bytes text ≡ text_of answers.now) }
{
    let mut text = String::new(alloc);
    push_answers(&mut text, answers)?;
    Ok(text)
}

// The lines of a scan or a page.
fn scan_text(alloc: Global, scan: Scan<'_>) -> Result<String, ServeError>
    ensures text { IfOk result (λ text. string_bytes text ≡ scan_text scan.entry) }
    ensures refused { IfErr result (λ error. error ≡ ServeError.OutOfMemory) }
{
    let mut text = String::new(alloc);
    push_scan(&mut text, scan)?;
    Ok(text)
}
