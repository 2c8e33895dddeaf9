//! What texts are written to, call by call.
ghost use Rattle.std.specs.Prelude.{◌≡◌, ℕ, ◌≤◌, Bool, true, false, List, Option, length, IfErr, IfSome, OnOk};
ghost use Rattle.blink_replay.specs.TrackedWriter.{OutputFails, WritesAll};

use blink_settings::ServeError;
use std::io::Write;

/// A writer, without the kinds of its errors. Its contracts tell one call from another, so the functions that use it can say
/// which calls they made.
pub trait TrackedWriter {
    // A call that is offered these bytes takes this many of them, or fails, and leaves this writer.
    ghost offered: { Self → List ℕ → Option ℕ → Self → Type 0 };

    // A flush succeeds or fails, and leaves this writer.
    ghost settled: { Self → Bool → Self → Type 0 };

    /// Offers bytes to the writer. It returns how many of them the writer takes, or `None` if it fails.
    fn offer(&mut self, bytes: &[u8]) -> Option<usize>
        ensures taken { IfSome result (λ taken. taken ≤ length bytes.now) }
        ensures offered { offered self.old bytes.now result self.new };

    /// Flushes what the writer has taken, and returns whether that succeeds.
    fn settle(&mut self) -> bool
        ensures { settled self.old result self.new };
}

impl<W: Write> TrackedWriter for W {
    ghost use Rattle.blink_replay.specs.TrackedWriter.{KeepsFlushed, TakesOffered};

    ghost offered = { TakesOffered W.contents };

    ghost settled = { KeepsFlushed W.contents };

    fn offer(&mut self, bytes: &[u8]) -> Option<usize> {
        self.write(bytes).ok()
    }

    fn settle(&mut self) -> bool {
        self.flush().is_ok()
    }
}

/// Writes the whole text. The first call of the writer that fails, or takes nothing, is the last.
pub fn write_out<O: TrackedWriter>(tracked_writer: &mut O, text: &str) -> Result<(), ServeError>
    ensures written { OnOk result (WritesAll O.offered tracked_writer.old text.now tracked_writer.new) }
    ensures broken_off { IfErr result (λ error.
        OutputFails O.offered O.settled tracked_writer.old text.now error tracked_writer.new) }
{
    let mut rest = text.as_bytes();
    while !rest.is_empty() {
        match tracked_writer.offer(rest) {
            None | Some(0) => return Err(ServeError::Output),
            Some(taken) => rest = &rest[taken..],
        }
    }
    Ok(())
}

/// Flushes what was written.
pub fn flush_out<O: TrackedWriter>(tracked_writer: &mut O) -> Result<(), ServeError>
    ensures flushed { OnOk result (O.settled tracked_writer.old true tracked_writer.new) }
    ensures unflushed { IfErr result (λ error. (error ≡ ServeError.Output)
        × O.settled tracked_writer.old false tracked_writer.new) }
{
    if tracked_writer.settle() {
        Ok(())
    } else {
        Err(ServeError::Output)
    }
}
