//! Examples of scripts and their output, worked by hand.
mod prefixes;
mod reading;

use crate::calls::{DRIVERS, Outcome, locked, served};
use crate::fixtures::{bytes_of, given, same};
use blink_batch::{RecordError, ScriptError};
use blink_run::{CutKind, ServeError, Settings};
use std::alloc::Global;
use std::process::Abort;
use std::sync::Wait;
use std::thread::Threads;

// From one worker to all.
const WORKERS: [u8; 3] = [1, 2, 64];

// Pages of so many entries, a script, and what is written of it.
const SERVED: [(u8, &str, &str); 11] = [
    (16, "insert,5,50\nfind,5,\n", "inserted\nfound 50\n"),
    (16, "", ""),
    (
        16,
        "insert,0,1\ninsert,18446744073709551615,2\nscan,0,18446744073709551615\n",
        "inserted\ninserted\n0 1\n18446744073709551615 2\nend 2\n",
    ),
    (
        16,
        "insert,7,1\ninsert,7,2\nfind,7,\n",
        "inserted\nexists 1\nfound 1\n",
    ),
    (
        16,
        "insert,7,1\ndelete,7,\ndelete,7,\ninsert,7,3\nfind,7,\n",
        "inserted\nremoved 1\nabsent\ninserted\nfound 3\n",
    ),
    (
        16,
        "insert,5,50\nscan,9,1\nscan,0,9\ninsert,6,60\n",
        "inserted\nend 0\n5 50\nend 1\ninserted\n",
    ),
    (
        16,
        "insert,7,1\nreplace,7,2\nfind,7,\nreplace,8,1\n",
        "inserted\nreplaced 1\nfound 2\nabsent\n",
    ),
    (16, "scan,0,9\ninsert,1,10\n", "end 0\ninserted\n"),
    (
        16,
        "insert,1,10\ninsert,2,20\ninsert,3,30\ninsert,4,40\ninsert,5,50\npage,2,2\npage,0,0\npage,9,3\n",
        "inserted\ninserted\ninserted\ninserted\ninserted\n2 20\n3 30\nend 2\nend 0\nend 0\n",
    ),
    (
        16,
        "insert,18446744073709551615,2\npage,18446744073709551615,18446744073709551615\n",
        "inserted\n18446744073709551615 2\nend 1\n",
    ),
    // Seven keys in pages of four: a leaf splits, and a batch that follows finds the keys of the one before.
    (
        4,
        "insert,1,10\ninsert,2,20\ninsert,3,30\ninsert,4,40\ninsert,5,50\ninsert,6,60\nscan,2,5\ndelete,3,\ninsert,7,70\nfind,6,\nscan,2,7\n",
        "inserted\ninserted\ninserted\ninserted\ninserted\ninserted\n2 20\n3 30\n4 40\n5 50\nend 4\nremoved 30\ninserted\nfound 60\n2 20\n4 40\n5 50\n6 60\n7 70\nend 5\n",
    ),
];

// With the driver `Locked` by both cuts, and from one worker to all.
fn expect_text_by_all<R: Threads + Wait + Abort + Sync>(
    rt: &R,
    alloc: Global,
    fan: u8,
    script: &str,
    expected: &str,
) {
    for workers in WORKERS {
        for cut in [CutKind::Residue, CutKind::Ranges] {
            let settings = locked(rt, workers, fan, cut);
            served(rt, alloc, script.as_bytes(), &settings).expect_text(rt, expected);
        }
    }
}

#[test]
fn scripts_are_served(rt: HostRuntime) {
    for &(fan, script, expected) in &SERVED {
        expect_text_by_all(&rt, rt.alloc(), fan, script, expected);
    }
}

// The first leaf of two is emptied by deletions, and a page that begins there goes on over it.
const OVER_A_LEAF: &str =
    "insert,1,10\ninsert,2,20\ninsert,3,30\ninsert,4,40\ninsert,5,50\npage,3,2\ndelete,1,\ndelete,2,\ndelete,3,\npage,0,1\npage,0,9\npage,5,1\npage,6,1\n";

const OVER_A_LEAF_TEXT: &str =
    "inserted\ninserted\ninserted\ninserted\ninserted\n3 30\n4 40\nend 2\nremoved 10\nremoved 20\nremoved 30\n4 40\nend 1\n4 40\n5 50\nend 2\n5 50\nend 1\nend 0\n";

#[test]
fn pages_cross_an_empty_leaf(rt: HostRuntime) {
    let script = OVER_A_LEAF.as_bytes();
    for driver in DRIVERS {
        for workers in WORKERS {
            let settings = given(&rt, Settings::new(workers, 4, CutKind::Residue, driver));
            served(&rt, rt.alloc(), script, &settings).expect_text(&rt, OVER_A_LEAF_TEXT);
        }
    }
}

// Scripts, the row and the error for which they are refused, and its code.
const REFUSED: [(&str, u64, RecordError, u8); 6] = [
    ("insert,05,1", 1, RecordError::BadNumber, 12),
    (
        "insert,18446744073709551616,1",
        1,
        RecordError::BadNumber,
        12,
    ),
    ("find,5,1", 1, RecordError::BadShape, 10),
    ("put,1,1", 1, RecordError::UnknownOperation, 11),
    (
        "insert,5,50\nscan,0,9\nfind,5,1",
        3,
        RecordError::BadShape,
        10,
    ),
    ("page,1,01", 1, RecordError::BadNumber, 12),
];

// Two workers refuse a script.
fn expect_refusal<R: Threads + Wait + Abort + Sync>(
    rt: &R,
    alloc: Global,
    script: &str,
    refusal: ServeError,
) {
    let settings = locked(rt, 2, 16, CutKind::Residue);
    served(rt, alloc, script.as_bytes(), &settings).expect_refusal(rt, refusal)
}

#[test]
fn refused_scripts_write_nothing(rt: HostRuntime) {
    for &(script, row, error, code) in &REFUSED {
        let refusal = ServeError::Script(ScriptError::Row(row, error));
        expect_refusal(&rt, rt.alloc(), script, refusal);
        same(&rt, &refusal.code(), &code);
    }
}

const FIND: &str = "find,5,\n";

// Serves two batches of 8,192 finds with a scan between them, and so many finds more behind them.
fn served_two_batches<R: Threads + Wait + Abort + Sync>(
    rt: &R,
    alloc: Global,
    more: usize,
) -> Outcome {
    let parts = [(FIND, 8192), ("scan,0,9\n", 1), (FIND, 8192), (FIND, more)];
    let script = bytes_of(rt, alloc, &parts);
    let settings = locked(rt, 4, 16, CutKind::Residue);
    served(rt, alloc, &script, &settings)
}

#[test]
fn a_scan_makes_room_for_one_batch_more(rt: HostRuntime) {
    let outcome = served_two_batches(&rt, rt.alloc(), 0);
    same(&rt, &outcome.end, &Ok(()));
    // Each find is answered by `absent`, and the scan by `end 0`.
    same(&rt, &outcome.output.len(), &(2 * 8192 * 7 + 6));
    // A batch of one operation too many is refused.
    let outcome = served_two_batches(&rt, rt.alloc(), 1);
    outcome.expect_refusal(&rt, ServeError::Script(ScriptError::TooMany(16386)));
}
