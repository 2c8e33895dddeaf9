//! The exit status and the lines of each end of a program.
use crate::fixtures::{ends_with, given, same_for};
use blink_batch::{RecordError, ScriptError};
use blink_run::{RunError, ServeError};
use blink_steps::StepError;
use show_command::{LineError, ProgramError, end_of, fault};
use std::process::ExitCode;

#[test]
fn all_was_written(rt: HostRuntime) {
    let end = end_of(Ok(()));
    assert!(rt; end.status == 0);
    assert!(rt; end.failure.is_none());
    assert!(rt; end.tell(&rt) == ExitCode::SUCCESS);
}

#[test]
fn each_failure_has_its_status_and_lines(rt: HostRuntime) {
    let alloc = rt.alloc();
    let text = given(&rt, String::from_str(alloc, "error: one\n\nUsage: blink\n"));
    let usage = ProgramError::Line(LineError::Usage(text));
    ends_with(
        &rt,
        alloc,
        &end_of(Err(usage)),
        2,
        "error: one\n\nUsage: blink",
    );
    let memory = ProgramError::Line(LineError::OutOfMemory);
    ends_with(&rt, alloc, &end_of(Err(memory)), 4, "run: out of memory");
    let memory = ProgramError::Memory;
    ends_with(&rt, alloc, &end_of(Err(memory)), 4, "run: out of memory");
}

// Why scripts aren't served, with the status and the line that tell it.
const FAULTS: [(ServeError, u8, &str); 16] = [
    (
        ServeError::Script(ScriptError::Row(1, RecordError::BadShape)),
        3,
        "script: row 1: bad shape",
    ),
    (
        ServeError::Script(ScriptError::Row(10, RecordError::UnknownOperation)),
        3,
        "script: row 10: unknown operation",
    ),
    (
        ServeError::Script(ScriptError::Row(12, RecordError::BadNumber)),
        3,
        "script: row 12: bad number",
    ),
    (
        ServeError::Script(ScriptError::Csv(11)),
        3,
        "script: row 11: unreadable record",
    ),
    (
        ServeError::Script(ScriptError::TooMany(8193)),
        3,
        "script: row 8193: too many operations",
    ),
    (
        ServeError::Script(ScriptError::Read),
        3,
        "script: read failed",
    ),
    (
        ServeError::Script(ScriptError::OutOfMemory),
        3,
        "script: out of memory",
    ),
    (
        ServeError::Run(12, RunError::TooLarge),
        4,
        "run: batch 12: too large",
    ),
    (
        ServeError::Run(1, RunError::OutOfMemory),
        4,
        "run: batch 1: out of memory",
    ),
    (
        ServeError::Run(10, RunError::Worker(63)),
        4,
        "run: batch 10: worker 63 not started",
    ),
    (
        ServeError::Run(2, RunError::Foreign),
        4,
        "run: batch 2: foreign book",
    ),
    (
        ServeError::Step(StepError::OutOfMemory),
        4,
        "run: out of memory",
    ),
    (
        ServeError::Step(StepError::NoWorker(63)),
        4,
        "run: no worker 63",
    ),
    (ServeError::Step(StepError::TooLarge), 4, "run: too large"),
    (ServeError::Output, 5, "output: write failed"),
    (ServeError::OutOfMemory, 4, "run: out of memory"),
];

// Why a script wasn't served is told so, in a text of its own and at the program's end.
#[test]
fn faults(rt: HostRuntime) {
    let alloc = rt.alloc();
    for &(error, status, line) in &FAULTS {
        let (told, text) = given(&rt, fault(alloc, &error));
        same_for(&rt, &(told, text.as_str()), &(status, line), &line);
        let end = end_of(Err(ProgramError::Serve(error)));
        ends_with(&rt, alloc, &end, status, line);
    }
}
