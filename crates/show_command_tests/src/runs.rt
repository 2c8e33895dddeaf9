//! Scripts run as the program `blink` runs them: by the words of a command line, and with the end that is told.
use crate::fixtures::{ends_with, given, same_for, settings};
use blink_run::{CutKind, Driver, Open, serve, serve_replay};
use show_command::{End, Line, ProgramError, end_of, read_line};
use std::alloc::Global;
use std::process::Abort;
use std::sync::Wait;
use std::thread::Threads;

// What is written, and how the program ends.
#[derive(Drop)]
struct Run {
    output: Vec<u8>,
    end: End,
}

// Does what a command line asks for.
fn carried_out<R: Threads + Wait + Sync>(rt: &R, alloc: Global, line: &Line, script: &str) -> Run {
    let reader = &mut script.as_bytes();
    let mut output = Vec::new(alloc);
    let outcome = match line {
        Line::Run(settings) => serve(rt, alloc, reader, &mut output, settings, &Open),
        Line::Replay(settings, schedule) => {
            serve_replay(alloc, reader, &mut output, settings, schedule)
        }
    };
    let end = end_of(outcome.map_err(ProgramError::Serve));
    Run { output, end }
}

// What the command line asks for that names so many workers and this driver, and pages of four entries.
fn line_of(rt: &impl Abort, alloc: Global, workers: &str, driver: &str) -> Line {
    let words = [
        "blink",
        "run",
        "--workers",
        workers,
        "--fan",
        "4",
        "--driver",
        driver,
    ];
    given(rt, read_line(alloc, &words))
}

// All was done, and this was written.
fn writes<R: Threads + Wait + Abort + Sync>(
    rt: &R,
    alloc: Global,
    line: &Line,
    script: &str,
    expected: &str,
) {
    let run = carried_out(rt, alloc, line, script);
    same_for(rt, &run.end.status, &0, &script);
    same_for(rt, &run.output.as_slice(), &expected.as_bytes(), &script);
}

// Scripts, and what is written of them.
const SCRIPTS: [(&str, &str); 6] = [
    ("insert,5,50\nfind,5,\n", "inserted\nfound 50\n"),
    ("", ""),
    (
        "insert,0,1\ninsert,18446744073709551615,2\nscan,0,18446744073709551615\n",
        "inserted\ninserted\n0 1\n18446744073709551615 2\nend 2\n",
    ),
    (
        "insert,7,1\ndelete,7,\ndelete,7,\ninsert,7,3\nfind,7,\n",
        "inserted\nremoved 1\nabsent\ninserted\nfound 3\n",
    ),
    (
        "insert,7,1\nreplace,7,2\nfind,7,\nreplace,8,1\n",
        "inserted\nreplaced 1\nfound 2\nabsent\n",
    ),
    // A leaf of four entries splits, and the next batch finds what each half has.
    (
        "insert,1,10\ninsert,2,20\ninsert,3,30\ninsert,4,40\ninsert,5,50\nscan,2,4\ndelete,3,\nfind,5,\n",
        "inserted\ninserted\ninserted\ninserted\ninserted\n2 20\n3 30\n4 40\nend 3\nremoved 30\nfound 50\n",
    ),
];

#[test]
fn each_driver_writes_the_answers(rt: HostRuntime) {
    for driver in ["locked", "live"] {
        for workers in ["1", "2", "64"] {
            let line = line_of(&rt, rt.alloc(), workers, driver);
            for &(script, expected) in &SCRIPTS {
                writes(&rt, rt.alloc(), &line, script, expected);
            }
        }
    }
}

// Settings name a driver, but a replay takes its own steps.
#[test]
fn replays_write_the_same_by_each_driver(rt: HostRuntime) {
    let script = "insert,5,50\nscan,9,1\nfind,5,\n";
    let expected = "1 P\n0 idle\ninserted\nend 0\nfound 50\n0 1 - 18446744073709551615 - 5:50\n";
    for driver in [Driver::Locked, Driver::Live] {
        let settings = settings(&rt, (2, 4), CutKind::Residue, driver);
        let schedule = given(&rt, [1, 0].as_slice().to_vec(rt.alloc()));
        let line = Line::Replay(settings, schedule);
        writes(&rt, rt.alloc(), &line, script, expected);
    }
}

// Texts that are no scripts, and the lines that tell it.
const NO_SCRIPTS: [(&str, &str); 6] = [
    ("insert,05,1\n", "script: row 1: bad number"),
    (
        "insert,18446744073709551616,1\n",
        "script: row 1: bad number",
    ),
    ("find,5,1\n", "script: row 1: bad shape"),
    ("replace,7,\n", "script: row 1: bad number"),
    ("replace,7\n", "script: row 1: bad shape"),
    ("put,1,1\n", "script: row 1: unknown operation"),
];

// The text was no script, as this line tells, and nothing was written.
fn refuses<R: Threads + Wait + Abort + Sync + Eprint>(
    rt: &R,
    alloc: Global,
    line: &Line,
    script: &str,
    told: &str,
) {
    let run = carried_out(rt, alloc, line, script);
    same_for(rt, &run.output.len(), &0, &told);
    ends_with(rt, alloc, &run.end, 3, told);
}

#[test]
fn each_driver_refuses_what_is_no_script(rt: HostRuntime) {
    for driver in ["locked", "live"] {
        let line = line_of(&rt, rt.alloc(), "4", driver);
        for &(script, told) in &NO_SCRIPTS {
            refuses(&rt, rt.alloc(), &line, script, told);
        }
    }
}
