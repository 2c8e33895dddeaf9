//! Which bytes are which records, and readers that give single bytes, fail, or are read too far.
use crate::calls::{Outcome, locked, replay_from, replayed, serve_from, served};
use crate::fixtures::{are_bytes, bytes_of, is_shown, same};
use crate::row::Row;
use blink_batch::{RecordError, ScriptError};
use blink_run::{CutKind, Open, ServeError};
use std::alloc::Global;
use std::io;
use std::io::Read;
use std::process::Abort;
use std::sync::Wait;
use std::thread::Threads;

// A script, and what is told of it: what is written of it, or the line of its refusal, when it is served whole.
#[derive(Clone, Copy)]
struct Told<'a> {
    case: &'a str,
    script: &'a [u8],
    text: &'a str,
}

fn expect_told<R: Threads + Wait + Abort + Sync>(rt: &R, alloc: Global, told: &Told<'_>) {
    let settings = locked(rt, 2, 16, CutKind::Residue);
    is_told(rt, alloc, &served(rt, alloc, told.script, &settings), told)
}

fn is_told(rt: &impl Abort, alloc: Global, outcome: &Outcome, told: &Told<'_>) {
    match outcome.end {
        Ok(()) => are_bytes(rt, &outcome.output, told.text.as_bytes(), told.case),
        Err(error) => {
            outcome.expect_refusal(rt, error);
            is_shown(rt, alloc, &error, told.text)
        }
    }
}

const BAD_NUMBER: &str = "row 1: bad number";

const BAD_SHAPE: &str = "row 1: bad shape";

const UNKNOWN: &str = "row 1: unknown operation";

// What two records are told, which insert a key and find it.
const BOTH: &str = "inserted\nfound 10\n";

// What is told of scripts.
const TOLD: [Told<'static>; 36] = [
    // Bytes that are no text belong to their field.
    Told {
        case: "a number of no text",
        script: b"find,\xff,",
        text: BAD_NUMBER,
    },
    Told {
        case: "a word of no text",
        script: b"find\xc3,1,",
        text: UNKNOWN,
    },
    Told {
        case: "a third field of no text",
        script: b"find,1,\x80",
        text: BAD_SHAPE,
    },
    // Quotes stand round a field, and in them commas, quotes and line feeds.
    Told {
        case: "all quoted",
        script: b"\"find\",\"5\",\"\"",
        text: "absent\n",
    },
    Told {
        case: "some quoted",
        script: b"\"insert\",\"1\",\"10\"\n\"find\",1,\n",
        text: BOTH,
    },
    Told {
        case: "a comma in a word",
        script: b"\"fi,nd\",1,",
        text: UNKNOWN,
    },
    Told {
        case: "a comma in a number",
        script: b"find,\"1,2\",",
        text: BAD_NUMBER,
    },
    Told {
        case: "a comma alone",
        script: b"find,1,\",\"",
        text: BAD_SHAPE,
    },
    Told {
        case: "a line feed in a number",
        script: b"find,\"1\n\",",
        text: BAD_NUMBER,
    },
    Told {
        case: "quotes in a word",
        script: b"\"fi\"\"nd\",1,",
        text: UNKNOWN,
    },
    Told {
        case: "line feeds in a number",
        script: b"insert,1,\"1\n\n0\"\nfind,1,",
        text: BAD_NUMBER,
    },
    Told {
        case: "a line feed in a word",
        script: b"find,5,\n\"pu\nt\",1,1\n",
        text: "row 2: unknown operation",
    },
    Told {
        case: "an open quote",
        script: b"insert,1,\"10",
        text: "inserted\n",
    },
    // A byte order mark stands before the first record alone.
    Told {
        case: "a mark",
        script: b"\xef\xbb\xbfinsert,1,10\nfind,1,\n",
        text: BOTH,
    },
    Told {
        case: "a mark in the second record",
        script: b"find,5,\n\xef\xbb\xbffind,5,\n",
        text: "row 2: unknown operation",
    },
    Told {
        case: "a mark alone",
        script: b"\xef\xbb\xbf",
        text: "",
    },
    Told {
        case: "a part of a mark",
        script: b"\xef\xbb",
        text: BAD_SHAPE,
    },
    // Records end at a line feed, a carriage return or both, or with the text. Empty lines are no records, and a space is a field.
    Told {
        case: "both ends",
        script: b"insert,1,10\r\nfind,1,\r\n",
        text: BOTH,
    },
    Told {
        case: "carriage returns",
        script: b"insert,1,10\rfind,1,\r",
        text: BOTH,
    },
    Told {
        case: "the text's end",
        script: b"insert,1,10\nfind,1,",
        text: BOTH,
    },
    Told {
        case: "empty lines",
        script: b"\n\r\n\ninsert,1,10\n\n\r\rfind,1,\n\n",
        text: BOTH,
    },
    Told {
        case: "empty lines first",
        script: b"\n\nput,1,1\n",
        text: UNKNOWN,
    },
    Told {
        case: "a space",
        script: b"\n \n",
        text: BAD_SHAPE,
    },
    // A script may end anywhere.
    Told {
        case: "a script may end anywhere: after 0 bytes",
        script: b"",
        text: "",
    },
    Told {
        case: "a script may end anywhere: after 1 bytes",
        script: b"i",
        text: BAD_SHAPE,
    },
    Told {
        case: "a script may end anywhere: after 2 bytes",
        script: b"in",
        text: BAD_SHAPE,
    },
    Told {
        case: "a script may end anywhere: after 3 bytes",
        script: b"ins",
        text: BAD_SHAPE,
    },
    Told {
        case: "a script may end anywhere: after 4 bytes",
        script: b"inse",
        text: BAD_SHAPE,
    },
    Told {
        case: "a script may end anywhere: after 5 bytes",
        script: b"inser",
        text: BAD_SHAPE,
    },
    Told {
        case: "a script may end anywhere: after 6 bytes",
        script: b"insert",
        text: BAD_SHAPE,
    },
    Told {
        case: "a script may end anywhere: after 7 bytes",
        script: b"insert,",
        text: BAD_SHAPE,
    },
    Told {
        case: "a script may end anywhere: after 8 bytes",
        script: b"insert,1",
        text: BAD_SHAPE,
    },
    Told {
        case: "a script may end anywhere: after 9 bytes",
        script: b"insert,1,",
        text: BAD_NUMBER,
    },
    Told {
        case: "a script may end anywhere: after 10 bytes",
        script: b"insert,1,1",
        text: "inserted\n",
    },
    Told {
        case: "a script may end anywhere: after 11 bytes",
        script: b"insert,1,10",
        text: "inserted\n",
    },
    Told {
        case: "a script may end anywhere: after 12 bytes",
        script: b"insert,1,10\n",
        text: "inserted\n",
    },
];

#[test]
fn bytes_are_told_as_their_records(rt: HostRuntime) {
    for told in &TOLD {
        let name = told.case;
        expect_told(&Row { rt: &rt, name }, rt.alloc(), told);
    }
}

// That is told of a script with a field of a mebibyte, of one byte, which stands between two parts.
const WIDE: [(&str, &str, &str, &str); 9] = [
    ("", "x", ",1,1\nfind,1,\n", UNKNOWN),
    ("find,", "1", ",\n", BAD_NUMBER),
    ("find,1,", " ", "\n", BAD_SHAPE),
    ("insert,1,", "0", "\n", BAD_NUMBER),
    ("\"", "x", "\",1,1\nfind,1,\n", UNKNOWN),
    ("find,\"", "1", "\",\n", BAD_NUMBER),
    ("find,1,\"", " ", "\"\n", BAD_SHAPE),
    ("insert,1,\"", "0", "\"\n", BAD_NUMBER),
    ("find,\"", "\n", "\",\n", BAD_NUMBER),
];

// The width of the field.
const WIDTH: usize = 1 << 20;

fn expect_wide_told<R: Threads + Wait + Abort + Sync>(
    rt: &R,
    alloc: Global,
    (before, byte, after, text): (&str, &str, &str, &str),
) {
    let script = bytes_of(rt, alloc, &[(before, 1), (byte, WIDTH), (after, 1)]);
    let told = Told {
        case: before,
        script: &script,
        text,
    };
    expect_told(rt, alloc, &told)
}

#[test]
fn fields_may_be_wide(rt: HostRuntime) {
    for &case in &WIDE {
        expect_wide_told(&rt, rt.alloc(), case);
    }
}

// Gives a byte at each call, and fails at the call after so many.
#[derive(Drop)]
struct ByteReader<'a> {
    text: &'a [u8],
    calls: usize,
}

impl<'a> Read for ByteReader<'a> {
    fn read(&mut self, buffer: &mut [u8]) -> io::Result<usize> {
        if self.calls == 0 {
            return Err(io::Error::from(io::ErrorKind::Other));
        }
        self.calls -= 1;
        match (self.text.split_first(), buffer.first_mut()) {
            (Some((byte, rest)), Some(place)) => {
                *place = *byte;
                self.text = rest;
                Ok(1)
            }
            _ => Ok(0),
        }
    }
}

// A script that a reader of single bytes gives, or fails to.
const SCRIPT: &[u8] = b"\xef\xbb\xbfinsert,5,50\nscan,0,9\nfind,5,\n";

// Serves the script where its reader fails after so many calls.
fn served_bytewise<R: Threads + Wait + Abort + Sync>(
    rt: &R,
    alloc: Global,
    calls: usize,
) -> Outcome {
    let settings = locked(rt, 2, 16, CutKind::Residue);
    let mut script = ByteReader {
        text: SCRIPT,
        calls,
    };
    let mut output = Vec::new(alloc);
    let end = serve_from(rt, alloc, &mut script, &mut output, &settings, &Open);
    Outcome {
        output,
        end,
        unread: script.text.len(),
    }
}

// Replays it.
fn replayed_bytewise(rt: &impl Abort, alloc: Global, calls: usize) -> Outcome {
    let settings = locked(rt, 2, 16, CutKind::Residue);
    let mut script = ByteReader {
        text: SCRIPT,
        calls,
    };
    let mut output = Vec::new(alloc);
    let end = replay_from(alloc, &mut script, &mut output, &settings, &[0]);
    Outcome {
        output,
        end,
        unread: script.text.len(),
    }
}

#[test]
fn a_reader_of_single_bytes_may_fail_at_any_call(rt: HostRuntime) {
    let refusal = ServeError::Script(ScriptError::Read);
    // A call for each byte, and one that tells the end.
    for calls in 0..=SCRIPT.len() {
        served_bytewise(&rt, rt.alloc(), calls).expect_refusal(&rt, refusal);
        replayed_bytewise(&rt, rt.alloc(), calls).expect_refusal(&rt, refusal);
    }
    same(&rt, &refusal.code(), &15);
    // It may give all in single bytes.
    let outcome = served_bytewise(&rt, rt.alloc(), 1000);
    outcome.expect_text(&rt, "inserted\n5 50\nend 1\nfound 50\n");
}

// No more is read of a script than csv's reader takes at a time: 8,192 bytes, behind those of the beginning that it looks at for a
// byte order mark.
const READ_AT_MOST: usize = 3 + 8192;

// The first record of these is refused.
fn expect_first_refused(rt: &impl Abort, length: usize, outcome: &Outcome) {
    let row = ScriptError::Row(1, RecordError::BadShape);
    outcome.expect_refusal(rt, ServeError::Script(row));
    assert!(rt; length.saturating_sub(outcome.unread) <= READ_AT_MOST);
}

// By both calls.
fn expect_first_refused_by_both<R: Threads + Wait + Abort + Sync>(
    rt: &R,
    alloc: Global,
    script: &[u8],
) {
    let settings = locked(rt, 2, 16, CutKind::Residue);
    let length = script.len();
    expect_first_refused(rt, length, &served(rt, alloc, script, &settings));
    expect_first_refused(rt, length, &replayed(alloc, script, &settings, &[]))
}

#[test]
fn garbage_is_refused_at_its_first_record(rt: HostRuntime) {
    let script = bytes_of(&rt, rt.alloc(), &[("garbage\n", 1_000_000)]);
    expect_first_refused_by_both(&rt, rt.alloc(), &script)
}
