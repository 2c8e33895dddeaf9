//! The program's work for a command line.
ghost use Rattle.std.specs.Prelude.{◌≡◌, ◌↔◌, [], IfErr, IfOk, IsErrOf, IsTrue, OnOk};
ghost use Rattle.std.specs.Io.Buffered.{writer_buffer, writer_inner};
ghost use Rattle.index_main.specs.Program.{HasLeft, IsFault, IsLineFault, Leaves, LetsOut, RunsBy, Writes};

use crate::appending::{Appending, Before};
use blink_command::Line;
use blink_index::Index;
use blink_run::{Open, ServeError, serve_index, serve_replay};
use std::alloc::Global;
use std::io::{BufWriter, Read, Write};
use std::sync::Wait;
use std::thread::Threads;

/// Does what a command line asks for: reads the script and writes its answers, or the texts of its replay. It returns the index
/// that a run leaves, whose pages show by which settings the batches were run, and `None` after a replay, which writes its pages.
///
/// After the call the buffer is empty, unless the writer failed. Then the call refuses with `Output`, and nothing more is
/// written.
pub fn carry_out<B: Before, T: Threads + Wait + Sync, R: Read, W: Write + Drop>(
    rt: &T,
    alloc: Global,
    line: &Line,
    reader: &mut R,
    output: &mut BufWriter<Appending<B, W>>,
) -> Result<Option<Index>, ServeError>
    requires empty { writer_buffer output.old ≡ [] }
    requires picked { B.before ≡ W.contents (writer_inner output.old).inner }
    ensures written { OnOk result (Writes line.now (R.remaining reader.old)
        (W.contents (writer_inner output.old).inner) (W.contents (writer_inner output.new).inner)) }
    ensures by_settings { IfOk result (RunsBy line.now (R.remaining reader.old)) }
    ensures fault { IfErr result (IsFault line.now (R.remaining reader.old)) }
    ensures left { IfErr result (λ error. LetsOut line.now (R.remaining reader.old) error
        (W.contents (writer_inner output.old).inner) (W.contents (writer_inner output.new).inner)) }
    ensures emptied { HasLeft result (writer_buffer output.new) }
{
    let outcome = served(rt, alloc, line, reader, output);
    if has_failed(&outcome) {
        return outcome;
    }
    match output.flush() {
        Ok(()) => outcome,
        Err(_) => Err(ServeError::Output),
    }
}

// Whether the writer failed.
fn has_failed(outcome: &Result<Option<Index>, ServeError>) -> bool
    ensures { IsTrue result ↔ IsErrOf outcome.now ServeError.Output }
{
    matches!(outcome, Err(ServeError::Output))
}

// Serves the script as the command line asks.
fn served<T: Threads + Wait + Sync, R: Read, W: Write>(
    rt: &T,
    alloc: Global,
    line: &Line,
    reader: &mut R,
    writer: &mut W,
) -> Result<Option<Index>, ServeError>
    ensures written { OnOk result (Writes line.now (R.remaining reader.old)
        (W.contents writer.old) (W.contents writer.new)) }
    ensures by_settings { IfOk result (RunsBy line.now (R.remaining reader.old)) }
    ensures fault { IfErr result (IsLineFault line.now (R.remaining reader.old)) }
    ensures left { IfErr result (λ error. Leaves line.now (R.remaining reader.old) error
        (W.contents writer.old) (W.contents writer.new)) }
{
    match line {
        Line::Run(settings) => match serve_index(rt, alloc, reader, writer, settings, &Open) {
            Ok(index) => Ok(Some(index)),
            Err(error) => Err(error),
        },
        Line::Replay(settings, schedule) => {
            match serve_replay(alloc, reader, writer, settings, schedule) {
                Ok(()) => Ok(None),
                Err(error) => Err(error),
            }
        }
    }
}
