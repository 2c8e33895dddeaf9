//! Examples of replays, worked by hand from the machine's table of states.
use crate::calls::{Outcome, batch_of, locked, replayed};
use crate::fixtures::{are_bytes, bytes_of, given, is_text, same, same_for};
use blink_batch::{Answer, Entry, Op, Part, RecordError, ScriptError, read_script};
use blink_index::Index;
use blink_replay::{batches_with, push_answers, push_scan};
use blink_run::{
    CutKind, ServeError, first_of_no_worker, lanes_by_residue, new_index, push_turn, run_parts,
    write_replay,
};
use blink_steps::{Step, StepError};
use std::alloc::Global;
use std::process::Abort;

// A script over pages of four entries, how it is replayed, and what is written of it.
#[derive(Clone, Copy)]
struct Example<'a> {
    script: &'a str,
    workers: u8,
    cut: CutKind,
    schedule: &'a [u8],
    trace: &'a str,
    text: &'a str,
    pages: &'a str,
}

const EXAMPLES: [Example<'static>; 6] = [
    // A worker finds a key that a split, half finished by the other, has moved to a new page.
    Example {
        script: "insert,1,10\ninsert,2,20\ninsert,3,30\ninsert,5,50\nscan,1,0\ninsert,6,60\nfind,5,\n",
        workers: 2,
        cut: CutKind::Residue,
        schedule: &[1, 0, 0, 0, 0, 0, 0, 1, 1],
        trace: "1 P\n0 P\n0 R1\n0 L1\n0 R1\n0 W2\n0 W1\n1 R1\n1 R2\n",
        text: "inserted\ninserted\ninserted\ninserted\nend 0\ninserted\nfound 50\n",
        pages: "1 3 - 18446744073709551615 - 3:1 18446744073709551615:2
0 1 - 3 2 1:10 2:20 3:30
0 2 3 18446744073709551615 - 5:50 6:60
",
    },
    // The growth of a root, step by step, with its latch let go at the end; the cut is by residue though ranges are asked for.
    Example {
        script: "insert,1,10\ninsert,2,20\ninsert,3,30\ninsert,4,40\nscan,1,0\ninsert,5,50\nscan,5,5\n",
        workers: 2,
        cut: CutKind::Ranges,
        schedule: &[1; 10],
        trace: "1 P\n1 R1\n1 L1\n1 R1\n1 W2\n1 W1\n1 P\n1 W3\n1 Q\n1 U1\n",
        text: "inserted\ninserted\ninserted\ninserted\nend 0\ninserted\n5 50\nend 1\n",
        pages: "1 3 - 18446744073709551615 - 3:1 18446744073709551615:2
0 1 - 3 2 1:10 2:20 3:30
0 2 3 18446744073709551615 - 4:40 5:50
",
    },
    // Worker 1 holds the latch of the leaf when worker 0 asks for it; a worker without an operation is idle.
    Example {
        script: "insert,1,1\ninsert,3,3\n",
        workers: 3,
        cut: CutKind::Residue,
        schedule: &[1, 1, 1, 0, 0, 0, 2],
        trace: "1 P\n1 R1\n1 L1\n0 P\n0 R1\n0 wait\n2 idle\n",
        text: "inserted\ninserted\n",
        pages: "0 1 - 18446744073709551615 - 1:1 3:3\n",
    },
    // Scripts without operations have no trace.
    Example {
        script: "",
        workers: 2,
        cut: CutKind::Residue,
        schedule: &[0, 1, 0],
        trace: "",
        text: "",
        pages: "0 1 - 18446744073709551615 -\n",
    },
    Example {
        script: "scan,0,9\n",
        workers: 2,
        cut: CutKind::Residue,
        schedule: &[0, 1, 0],
        trace: "",
        text: "end 0\n",
        pages: "0 1 - 18446744073709551615 -\n",
    },
    Example {
        script: "page,0,9\n",
        workers: 2,
        cut: CutKind::Residue,
        schedule: &[0, 1, 0],
        trace: "",
        text: "end 0\n",
        pages: "0 1 - 18446744073709551615 -\n",
    },
];

fn expect_example(rt: &impl Abort, alloc: Global, example: &Example<'_>) {
    let settings = locked(rt, example.workers, 4, example.cut);
    let script = example.script.as_bytes();
    let outcome = replayed(alloc, script, &settings, example.schedule);
    let parts = [(example.trace, 1), (example.text, 1), (example.pages, 1)];
    is_as_in(rt, &outcome, example, &bytes_of(rt, alloc, &parts))
}

// The whole script is read, and this is written.
fn is_as_in(rt: &impl Abort, outcome: &Outcome, example: &Example<'_>, expected: &[u8]) {
    outcome.expect_bytes(rt, expected, example.script);
    same_for(rt, &outcome.unread, &0, &example.script)
}

#[test]
fn replays_write_trace_answers_and_pages(rt: HostRuntime) {
    for example in &EXAMPLES {
        expect_example(&rt, rt.alloc(), example);
    }
}

// How many bytes two workers leave unread of a script that isn't replayed by this schedule.
fn unread_after(rt: &impl Abort, alloc: Global, schedule: &[u8], error: ServeError) -> usize {
    let settings = locked(rt, 2, 4, CutKind::Residue);
    let outcome = replayed(alloc, REFUSED.as_bytes(), &settings, schedule);
    outcome.expect_refusal(rt, error);
    outcome.unread
}

// A script with a word that is no operation.
const REFUSED: &str = "insert,1,1\nput,1,1\n";

// A number that is no worker is refused before reading, and a script that is none isn't replayed.
#[test]
fn replays_that_are_refused(rt: HostRuntime) {
    for (schedule, worker) in [([2, 0, 0], 2), ([0, 63, 2], 63), ([0, 1, 2], 2)] {
        let refusal = ServeError::Step(StepError::NoWorker(worker));
        let unread = unread_after(&rt, rt.alloc(), &schedule, refusal);
        same_for(&rt, &unread, &REFUSED.len(), &schedule);
    }
    let refusal = ServeError::Step(StepError::NoWorker(2));
    same(&rt, &refusal.code(), &31);
    same(&rt, &first_of_no_worker(&[0, 2, 1, 3], 2), &Some(2));
    same(&rt, &first_of_no_worker(&[1, 0], 2), &None);
    let row = ScriptError::Row(2, RecordError::UnknownOperation);
    unread_after(&rt, rt.alloc(), &[0], ServeError::Script(row));
}

#[test]
fn lanes_are_remainders_of_keys_and_batches_are_counted(rt: HostRuntime) {
    let ops = [Op::Insert(4, 40), Op::Find(5), Op::Delete(6)];
    let batch = batch_of(&rt, rt.alloc(), &ops);
    let lanes = given(&rt, lanes_by_residue(rt.alloc(), &batch, 3));
    same(&rt, &lanes.lanes(), &[1, 2, 0].as_slice());
    same(&rt, &batches_with(&Part::Scan(0, 9), 3), &3);
    same(&rt, &batches_with(&Part::Batch(batch), 3), &4);
}

// The index after the parts of a script, which two workers run on a new one.
fn index_after(rt: &impl Abort, alloc: Global, mut script: &[u8]) -> Index {
    let script = given(rt, read_script(alloc, &mut script));
    let settings = locked(rt, 2, 4, CutKind::Residue);
    let index = given(rt, new_index(alloc, &settings));
    given(rt, run_parts(alloc, index, script.parts, 2))
}

// The index has the one entry.
fn has_entry(rt: &impl Abort, alloc: Global, index: &Index) {
    let entries = given(rt, index.entries(alloc));
    let entry = Entry {
        key: 2,
        pointer: 20,
    };
    same(rt, &entries.as_slice(), &[entry].as_slice());
}

fn has_scan(rt: &impl Abort, alloc: Global, index: &Index) {
    let mut lines = String::new(alloc);
    given(rt, push_scan(&mut lines, index.scan(0, 9)));
    is_text(rt, &lines, "2 20\nend 1\n")
}

#[test]
fn parts_run_on_one_index(rt: HostRuntime) {
    let script = b"insert,1,10\nscan,0,9\ndelete,1,\ninsert,2,20\n";
    let index = index_after(&rt, rt.alloc(), script);
    has_entry(&rt, rt.alloc(), &index);
    has_scan(&rt, rt.alloc(), &index)
}

#[test]
fn texts_have_their_lines(rt: HostRuntime) {
    let mut lines = String::new(rt.alloc());
    given(
        &rt,
        push_answers(&mut lines, &[Answer::Inserted, Answer::Found(50)]),
    );
    is_text(&rt, &lines, "inserted\nfound 50\n");
    let mut trace = String::new(rt.alloc());
    given(&rt, push_turn(&mut trace, 7, Step::Waited));
    is_text(&rt, &trace, "7 wait\n");
}

#[test]
fn three_texts_are_written_in_order(rt: HostRuntime) {
    let mut output = Vec::new(rt.alloc());
    given(
        &rt,
        write_replay(&mut output, "7 wait\n", "found 1\n", "pages\n"),
    );
    let expected = b"7 wait\nfound 1\npages\n";
    are_bytes(&rt, &output, expected, "three texts");
}
