//! Writers that fail once, and would go on.
use crate::calls::{locked, replay_from, serve_from};
use crate::fixtures::{are_bytes, prefix_of, same, same_for};
use crate::row::Row;
use blink_batch::{RecordError, ScriptError};
use blink_run::{CutKind, Open, ServeError, Settings};
use std::alloc::Global;
use std::io;
use std::io::{ErrorKind, Write};
use std::process::Abort;
use std::sync::Wait;
use std::thread::Threads;

// How a writer fails.
#[derive(Clone, Copy)]
enum Failure {
    // A write is refused.
    Refuses(ErrorKind),
    // A write takes nothing.
    TakesNothing,
    // A flush goes wrong.
    IsNotFlushed(ErrorKind),
}

// A failure, and its name in the messages of assertions.
type NamedFailure = (&'static str, Failure);

// Each way in which a write fails. Others try again after the first of them.
const FAILED_WRITES: [NamedFailure; 5] = [
    ("interrupted", Failure::Refuses(ErrorKind::Interrupted)),
    ("would block", Failure::Refuses(ErrorKind::WouldBlock)),
    ("broken pipe", Failure::Refuses(ErrorKind::BrokenPipe)),
    ("other", Failure::Refuses(ErrorKind::Other)),
    ("takes nothing", Failure::TakesNothing),
];

const TAKES_NOTHING: [NamedFailure; 1] = [("takes nothing", Failure::TakesNothing)];

const FAILED_FLUSHES: [NamedFailure; 2] = [
    ("interrupted", Failure::IsNotFlushed(ErrorKind::Interrupted)),
    ("other", Failure::IsNotFlushed(ErrorKind::Other)),
];

// Takes a byte at each call, so many before it fails. It fails once, and counts the calls that come after that.
#[derive(Drop)]
struct FailingWriter {
    taken: Vec<u8>,
    room: usize,
    failure: Failure,
    has_failed: bool,
    later_calls: u64,
    flushes: u64,
}

impl FailingWriter {
    fn new(alloc: Global, room: usize, failure: Failure) -> FailingWriter {
        FailingWriter {
            taken: Vec::new(alloc),
            room,
            failure,
            has_failed: false,
            later_calls: 0,
            flushes: 0,
        }
    }

    // Whether a call fails now. From then on calls are counted.
    fn fails(&mut self, is_due: bool) -> bool {
        if self.has_failed {
            self.later_calls = self.later_calls.wrapping_add(1);
            return false;
        }
        self.has_failed = is_due;
        is_due
    }
}

impl Write for FailingWriter {
    fn write(&mut self, bytes: &[u8]) -> io::Result<usize> {
        let failure = self.failure;
        let is_full = self.taken.len() == self.room;
        if self.fails(is_full && !matches!(failure, Failure::IsNotFlushed(_))) {
            return match failure {
                Failure::Refuses(kind) => Err(io::Error::from(kind)),
                _ => Ok(0),
            };
        }
        match bytes.first() {
            Some(byte) => {
                self.taken.push(*byte)?;
                Ok(1)
            }
            None => Ok(0),
        }
    }

    fn flush(&mut self) -> io::Result<()> {
        self.flushes = self.flushes.wrapping_add(1);
        let failure = self.failure;
        match failure {
            Failure::IsNotFlushed(kind) if self.fails(true) => Err(io::Error::from(kind)),
            _ => Ok(()),
        }
    }
}

// The call that writes.
#[derive(Clone, Copy)]
enum Call {
    Serve,
    // By a schedule of two turns.
    Replay,
}

// A script, and what each call writes of it.
const SCRIPT: &str = "insert,5,50\nscan,0,9\nfind,5,\n";

const SERVED: &[u8] = b"inserted\n5 50\nend 1\nfound 50\n";

const REPLAYED: &[u8] =
    b"1 P\n0 idle\ninserted\n5 50\nend 1\nfound 50\n0 1 - 18446744073709551615 - 5:50\n";

const TWO_TURNS: [u8; 2] = [1, 0];

// What is no script, and its refusal.
const NO_SCRIPT: &str = "insert,5,50\nput,5,5\n";

const REFUSAL: ServeError = ServeError::Script(ScriptError::Row(2, RecordError::UnknownOperation));

// A call that writes this text, or a part of it. It ends so, and has flushed the writer so often.
#[derive(Clone, Copy)]
struct Writing<'a> {
    call: Call,
    script: &'a str,
    text: &'a [u8],
    end: Result<(), ServeError>,
    flushes: u64,
}

// The call with a writer that has room for so many bytes and fails in this way, and is called no more then.
fn expect_writing<R: Threads + Wait + Abort + Sync>(
    rt: &R,
    alloc: Global,
    writing: &Writing<'_>,
    failure: &NamedFailure,
    room: usize,
) {
    let (name, failure) = *failure;
    let mut writer = FailingWriter::new(alloc, room, failure);
    let end = write_to(rt, alloc, writing, &mut writer);
    same_for(rt, &end, &writing.end, &(name, room));
    are_bytes(rt, &writer.taken, prefix_of(rt, writing.text, room), name);
    same_for(rt, &writer.later_calls, &0, &(name, room));
    same_for(rt, &writer.flushes, &writing.flushes, &(name, room));
}

fn write_to<R: Threads + Wait + Abort + Sync>(
    rt: &R,
    alloc: Global,
    writing: &Writing<'_>,
    writer: &mut FailingWriter,
) -> Result<(), ServeError> {
    let settings = locked(rt, 2, 4, CutKind::Residue);
    let script = writing.script.as_bytes();
    match writing.call {
        Call::Serve => serve_to(rt, alloc, script, writer, &settings),
        Call::Replay => replay_to(alloc, script, writer, &settings),
    }
}

fn serve_to<R: Threads + Wait + Sync>(
    rt: &R,
    alloc: Global,
    mut script: &[u8],
    writer: &mut FailingWriter,
    settings: &Settings,
) -> Result<(), ServeError> {
    serve_from(rt, alloc, &mut script, writer, settings, &Open)
}

fn replay_to(
    alloc: Global,
    mut script: &[u8],
    writer: &mut FailingWriter,
    settings: &Settings,
) -> Result<(), ServeError> {
    replay_from(alloc, &mut script, writer, settings, &TWO_TURNS)
}

// Calls that end alike with each of these failures.
struct Group<'a> {
    name: &'a str,
    // With room for each number of bytes below the whole text, or for the whole text.
    broken_off: bool,
    writings: &'a [Writing<'a>],
    failures: &'a [NamedFailure],
}

fn expect_group<R: Threads + Wait + Abort + Sync>(rt: &R, alloc: Global, group: &Group<'_>) {
    for writing in group.writings {
        for failure in group.failures {
            expect_rooms(rt, alloc, writing, failure, group.broken_off);
        }
    }
}

fn expect_rooms<R: Threads + Wait + Abort + Sync>(
    rt: &R,
    alloc: Global,
    writing: &Writing<'_>,
    failure: &NamedFailure,
    broken_off: bool,
) {
    let length = writing.text.len();
    if !broken_off {
        expect_writing(rt, alloc, writing, failure, length);
        return;
    }
    for room in 0..length {
        expect_writing(rt, alloc, writing, failure, room);
    }
}

const GROUPS: [Group<'static>; 4] = [
    Group {
        name: "a failed write is the last call",
        broken_off: true,
        writings: &[
            Writing {
                call: Call::Serve,
                script: SCRIPT,
                text: SERVED,
                end: Err(ServeError::Output),
                flushes: 0,
            },
            Writing {
                call: Call::Replay,
                script: SCRIPT,
                text: REPLAYED,
                end: Err(ServeError::Output),
                flushes: 0,
            },
        ],
        failures: &FAILED_WRITES,
    },
    // All is written, and then the flush goes wrong.
    Group {
        name: "a failed flush is reported",
        broken_off: false,
        writings: &[
            Writing {
                call: Call::Serve,
                script: SCRIPT,
                text: SERVED,
                end: Err(ServeError::Output),
                flushes: 1,
            },
            Writing {
                call: Call::Replay,
                script: SCRIPT,
                text: REPLAYED,
                end: Err(ServeError::Output),
                flushes: 1,
            },
        ],
        failures: &FAILED_FLUSHES,
    },
    // A writer with just enough room.
    Group {
        name: "a writer of single bytes is given all and flushed",
        broken_off: false,
        writings: &[
            Writing {
                call: Call::Serve,
                script: SCRIPT,
                text: SERVED,
                end: Ok(()),
                flushes: 1,
            },
            Writing {
                call: Call::Replay,
                script: SCRIPT,
                text: REPLAYED,
                end: Ok(()),
                flushes: 1,
            },
        ],
        failures: &TAKES_NOTHING,
    },
    // What is no script isn't even flushed.
    Group {
        name: "a refused script leaves the writer alone",
        broken_off: false,
        writings: &[
            Writing {
                call: Call::Serve,
                script: NO_SCRIPT,
                text: b"",
                end: Err(REFUSAL),
                flushes: 0,
            },
            Writing {
                call: Call::Replay,
                script: NO_SCRIPT,
                text: b"",
                end: Err(REFUSAL),
                flushes: 0,
            },
        ],
        failures: &FAILED_FLUSHES,
    },
];

#[test]
fn writers_that_fail_once(rt: HostRuntime) {
    for group in &GROUPS {
        let name = group.name;
        expect_group(&Row { rt: &rt, name }, rt.alloc(), group);
    }
    same(&rt, &ServeError::Output.code(), &70);
}
