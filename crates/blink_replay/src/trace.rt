//! The trace of a schedule's turns.
ghost use Rattle.std.specs.Prelude.{◌≡◌, ◌<◌, ◌++◌, All, Some, OnOk, IfErr, MatchOption, string_bytes};
ghost use Rattle.std.specs.Fmt.{decimal};
ghost use Rattle.blink_replay.specs.Replay.{IsRefusedMemory, TellsSteps};
ghost use Rattle.blink_replay.specs.Trace.{turn_line, words_of_step};

use blink_settings::ServeError;
use blink_steps::{Kind, Step, World};
use std::alloc::AllocError;
use std::fmt;
use std::fmt::Write as _;

// The words of a step in a trace.
#[derive(Clone, Copy)]
struct Words(Step);

impl fmt::Display for Words {
    ghost output = { λ words. Some (words_of_step words.0) };

    fn fmt<W: fmt::Write>(&self, f: &mut fmt::Formatter<W>) -> fmt::Result {
        match word_of(self.0) {
            (word, Some(page)) => write!(f, "{word}{page}"),
            (word, None) => write!(f, "{word}"),
        }
    }
}

// The word of a step, and the page whose number follows it.
fn word_of(step: Step) -> (&'static str, Option<u32>)
    ensures { MatchOption result.1 (result.0.now ≡ words_of_step step)
        (λ page. result.0.now ++ decimal page ≡ words_of_step step) }
{
    match step {
        Step::Moved(Kind::ReadPrime) => ("P", None),
        Step::Moved(Kind::WritePrime) => ("Q", None),
        Step::Moved(Kind::ReadPage(page)) => ("R", Some(page)),
        Step::Moved(Kind::WritePage(page)) => ("W", Some(page)),
        Step::Moved(Kind::Latch(page)) => ("L", Some(page)),
        Step::Moved(Kind::Unlatch(page)) => ("U", Some(page)),
        Step::Waited => ("wait", None),
        Step::Idle => ("idle", None),
    }
}

/// Takes a turn for each number of the schedule, and adds a line for each to the trace. If a step is refused memory, the call
/// refuses with the step's refusal; if the trace is, with `OutOfMemory`.
pub(crate) fn trace_steps(
    world: &mut World,
    schedule: &[u8],
    trace: &mut String,
) -> Result<(), ServeError>
    requires { All (λ worker. worker < world.old.run.assignment.workers) schedule.now }
    ensures traced { OnOk result
        (TellsSteps world.old schedule.now world.new (string_bytes trace.old) (string_bytes trace.new)) }
    ensures refused { IfErr result IsRefusedMemory }
{
    for &worker in schedule {
        let step = world.step(worker)?;
        push_turn(trace, worker, step)?;
    }
    Ok(())
}

/// Adds the line of a turn to a trace: its worker, and the words of the turn's result.
pub fn push_turn(trace: &mut String, worker: u8, step: Step) -> Result<(), AllocError>
    ensures { OnOk result (string_bytes trace.new ≡ string_bytes trace.old ++ turn_line worker step) }
{
    writeln!(trace, "{worker} {}", Words(step))
}
