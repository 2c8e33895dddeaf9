//! Batches run on an index, worked by hand. Their trees have at most 4 entries a page.
pub(crate) mod gates;

use crate::calls::{CutBatch, DRIVERS};
use crate::fixtures::{given, is_shown, same, same_for};
use crate::row::Row;
use blink_batch::{Answer, Op};
use blink_index::Index;
use blink_run::{Driver, Gate, Open, RunError, run_batch};
use std::alloc::Global;
use std::process::Abort;
use std::sync::Wait;
use std::thread::Threads;

// The index after a batch, and the answers of the batch.
#[derive(Drop)]
struct Ran {
    index: Index,
    answers: Vec<Answer>,
}

// Runs a batch on the index.
fn run_on<R: Threads + Wait + Abort + Sync, G: Gate + Sync>(
    rt: &R,
    alloc: Global,
    driver: Driver,
    mut index: Index,
    work: &CutBatch,
    gate: &G,
) -> Ran {
    let answers = run_batch(rt, alloc, &mut index, &work.batch, &work.cut, driver, gate);
    let answers = given(rt, answers);
    Ran { index, answers }
}

// Runs the operations on a new index by so many workers, each with the keys of one remainder.
fn run_on_new<R: Threads + Wait + Abort + Sync, G: Gate + Sync>(
    rt: &R,
    alloc: Global,
    driver: Driver,
    ops: &[Op],
    workers: u8,
    gate: &G,
) -> Ran {
    let index = given(rt, Index::new(alloc, 4));
    let work = CutBatch::new(rt, alloc, ops, workers);
    run_on(rt, alloc, driver, index, &work, gate)
}

// The insertions of the keys from 1 to this one, each with ten times the key.
fn insertions(rt: &impl Abort, alloc: Global, last: u64) -> Vec<Op> {
    let mut ops = Vec::new(alloc);
    for key in 1..=last {
        given(rt, ops.push(Op::Insert(key, key.wrapping_mul(10))));
    }
    ops
}

// The index of the keys 1 to this one, inserted in order as one batch by one worker.
fn index_to<R: Threads + Wait + Abort + Sync>(
    rt: &R,
    alloc: Global,
    driver: Driver,
    last: u64,
) -> Index {
    let ops = insertions(rt, alloc, last);
    run_on_new(rt, alloc, driver, &ops, 1, &Open).index
}

/// The pages of the index are these.
pub(crate) fn expect_pages(
    rt: &impl Abort,
    alloc: Global,
    driver: Driver,
    index: &Index,
    pages: &str,
) {
    let text = given(rt, index.dump(alloc));
    same_for(rt, &text.as_str(), &pages, &driver)
}

// How the operations of a batch fall to workers.
#[derive(Clone, Copy)]
enum Lanes<'a> {
    // To so many workers, by the remainders of the keys.
    ByRemainder(u8),
    // To two workers, each operation to this one.
    OfTwo(&'a [u8]),
}

// A batch that workers run on the index of the keys 1 to `last`, its answers, and the text of the pages after it.
#[derive(Clone, Copy)]
struct Example<'a> {
    name: &'a str,
    last: u64,
    ops: &'a [Op],
    lanes: Lanes<'a>,
    answers: &'a [Answer],
    pages: &'a str,
}

// The batch of an example.
fn work_of(rt: &impl Abort, alloc: Global, example: &Example<'_>) -> CutBatch {
    match example.lanes {
        Lanes::ByRemainder(workers) => CutBatch::new(rt, alloc, example.ops, workers),
        Lanes::OfTwo(lanes) => CutBatch::by_lanes(rt, alloc, example.ops, 2, lanes),
    }
}

// The index of each example has two leaves and a root.
fn expect_example<R: Threads + Wait + Abort + Sync>(
    rt: &R,
    alloc: Global,
    driver: Driver,
    example: &Example<'_>,
) {
    let work = work_of(rt, alloc, example);
    let index = index_to(rt, alloc, driver, example.last);
    let ran = run_on(rt, alloc, driver, index, &work, &Open);
    let case = (driver, example.ops);
    same_for(rt, &ran.answers.as_slice(), &example.answers, &case);
    same_for(rt, &ran.index.page_count(), &3, &case);
    expect_pages(rt, alloc, driver, &ran.index, example.pages);
}

// The same by both drivers.
fn expect_by_both<R: Threads + Wait + Abort + Sync>(rt: &R, alloc: Global, example: &Example<'_>) {
    expect_example(rt, alloc, Driver::Locked, example);
    expect_example(rt, alloc, Driver::Live, example);
}

// Three replacements and no deletion: at a table they use the allowance of deletions.
const REPLACEMENTS: [Op; 4] = [
    Op::Replace(4, 41),
    Op::Replace(6, 61),
    Op::Replace(4, 41),
    Op::Find(4),
];

const AFTER_REPLACEMENTS: [Answer; 4] = [
    Answer::Replaced(40),
    Answer::Absent,
    Answer::Replaced(41),
    Answer::Found(41),
];

// Exchanges use the allowance of deletions too, also those that change nothing.
const EXCHANGES: [Op; 4] = [
    Op::Exchange(4, 40, 41),
    Op::Exchange(6, 60, 61),
    Op::Exchange(4, 40, 42),
    Op::Find(4),
];

const AFTER_EXCHANGES: [Answer; 4] = [
    Answer::Replaced(40),
    Answer::Absent,
    Answer::Exists(41),
    Answer::Found(41),
];

// So do deletions of expected pointers.
const EXACT_DELETIONS: [Op; 4] = [
    Op::DeleteExact(4, 41),
    Op::DeleteExact(6, 60),
    Op::DeleteExact(4, 40),
    Op::Find(4),
];

const AFTER_EXACT_DELETIONS: [Answer; 4] = [
    Answer::Exists(40),
    Answer::Absent,
    Answer::Removed(40),
    Answer::Absent,
];

const REPLACED_PAGES: &str = "1 3 - 18446744073709551615 - 3:1 18446744073709551615:2
0 1 - 3 2 1:10 2:20 3:30
0 2 3 18446744073709551615 - 4:41 5:50
";

const FOUR_REMOVED_PAGES: &str = "1 3 - 18446744073709551615 - 3:1 18446744073709551615:2
0 1 - 3 2 1:10 2:20 3:30
0 2 3 18446744073709551615 - 5:50
";

const FIVE_PAGES: &str = "1 3 - 18446744073709551615 - 3:1 18446744073709551615:2
0 1 - 3 2 1:10 2:20 3:30
0 2 3 18446744073709551615 - 4:40 5:50
";

const EXAMPLES: [Example<'static>; 8] = [
    Example {
        name: "a batch runs by two workers",
        last: 4,
        ops: &[Op::Insert(5, 50), Op::Find(4)],
        lanes: Lanes::ByRemainder(2),
        answers: &[Answer::Inserted, Answer::Found(40)],
        pages: FIVE_PAGES,
    },
    Example {
        name: "two workers meet in one leaf, which splits, whoever comes first",
        last: 4,
        ops: &[
            Op::Insert(5, 50),
            Op::Insert(6, 60),
            Op::Find(5),
            Op::Delete(4),
        ],
        lanes: Lanes::OfTwo(&[0, 1, 0, 1]),
        answers: &[
            Answer::Inserted,
            Answer::Inserted,
            Answer::Found(50),
            Answer::Removed(40),
        ],
        pages: "1 3 - 18446744073709551615 - 3:1 18446744073709551615:2
0 1 - 3 2 1:10 2:20 3:30
0 2 3 18446744073709551615 - 5:50 6:60
",
    },
    Example {
        name: "replacements keep their leaf: one worker",
        last: 5,
        ops: &REPLACEMENTS,
        lanes: Lanes::ByRemainder(1),
        answers: &AFTER_REPLACEMENTS,
        pages: REPLACED_PAGES,
    },
    Example {
        name: "replacements keep their leaf: four workers",
        last: 5,
        ops: &REPLACEMENTS,
        lanes: Lanes::ByRemainder(4),
        answers: &AFTER_REPLACEMENTS,
        pages: REPLACED_PAGES,
    },
    Example {
        name: "exchanges keep their leaf",
        last: 5,
        ops: &EXCHANGES,
        lanes: Lanes::ByRemainder(4),
        answers: &AFTER_EXCHANGES,
        pages: REPLACED_PAGES,
    },
    Example {
        name: "exact deletions keep their leaf",
        last: 5,
        ops: &EXACT_DELETIONS,
        lanes: Lanes::ByRemainder(4),
        answers: &AFTER_EXACT_DELETIONS,
        pages: FOUR_REMOVED_PAGES,
    },
    Example {
        name: "an empty batch changes nothing",
        last: 5,
        ops: &[],
        lanes: Lanes::ByRemainder(3),
        answers: &[],
        pages: FIVE_PAGES,
    },
    Example {
        name: "a leaf emptied by deletions stays",
        last: 5,
        ops: &[Op::Delete(1), Op::Delete(2), Op::Delete(3), Op::Find(3)],
        lanes: Lanes::ByRemainder(1),
        answers: &[
            Answer::Removed(10),
            Answer::Removed(20),
            Answer::Removed(30),
            Answer::Absent,
        ],
        pages: "1 3 - 18446744073709551615 - 3:1 18446744073709551615:2
0 1 - 3 2
0 2 3 18446744073709551615 - 4:40 5:50
",
    },
];

#[test]
fn batches_leave_answers_and_pages(rt: HostRuntime) {
    for example in &EXAMPLES {
        let name = example.name;
        expect_by_both(&Row { rt: &rt, name }, rt.alloc(), example);
    }
}

/// The pages of 14 keys, inserted in order by one worker. The numbers are in the order in which pages come to be.
pub(crate) const OF_STEPS: &str = "2 8 - 18446744073709551615 - 9:3 18446744073709551615:7
1 3 - 9 7 3:1 6:2 9:4
1 7 9 18446744073709551615 - 12:5 18446744073709551615:6
0 1 - 3 2 1:10 2:20 3:30
0 2 3 6 4 4:40 5:50 6:60
0 4 6 9 5 7:70 8:80 9:90
0 5 9 12 6 10:100 11:110 12:120
0 6 12 18446744073709551615 - 13:130 14:140
";

/// The same pages of a table, which numbers them as it closes, level by level, the leaves first.
pub(crate) const OF_A_TABLE: &str = "2 8 - 18446744073709551615 - 9:6 18446744073709551615:7
1 6 - 9 7 3:1 6:2 9:3
1 7 9 18446744073709551615 - 12:4 18446744073709551615:5
0 1 - 3 2 1:10 2:20 3:30
0 2 3 6 3 4:40 5:50 6:60
0 3 6 9 4 7:70 8:80 9:90
0 4 9 12 5 10:100 11:110 12:120
0 5 12 18446744073709551615 - 13:130 14:140
";

// All pages, where 14 keys are inserted in order by one worker.
fn expect_pages_of_14<R: Threads + Wait + Abort + Sync>(
    rt: &R,
    alloc: Global,
    driver: Driver,
    pages: &str,
) {
    let index = index_to(rt, alloc, driver, 14);
    expect_pages(rt, alloc, driver, &index, pages)
}

// A run that built a new tree from the plain map would fill its pages in another way. The numbers tell the drivers apart.
#[test]
fn the_pages_are_those_of_the_steps(rt: HostRuntime) {
    expect_pages_of_14(&rt, rt.alloc(), Driver::Locked, OF_STEPS);
    expect_pages_of_14(&rt, rt.alloc(), Driver::Live, OF_A_TABLE)
}

/// So many operations were insertions of new keys.
pub(crate) fn are_inserted(rt: &impl Abort, driver: Driver, answers: &[Answer], count: usize) {
    same_for(rt, &answers.len(), &count, &driver);
    for answer in answers {
        same_for(rt, answer, &Answer::Inserted, &driver);
    }
}

// What is inserted into a new index is found.
fn expect_all_inserted<R: Threads + Wait + Abort + Sync>(
    rt: &R,
    alloc: Global,
    driver: Driver,
    ops: &[Op],
    workers: u8,
) {
    let ran = run_on_new(rt, alloc, driver, ops, workers, &Open);
    are_inserted(rt, driver, &ran.answers, ops.len());
    are_found(rt, driver, &ran.index, ops)
}

/// The keys of the insertions are found.
pub(crate) fn are_found(rt: &impl Abort, driver: Driver, index: &Index, ops: &[Op]) {
    for op in ops {
        if let Op::Insert(key, pointer) = *op {
            same_for(rt, &index.find(key), &Some(pointer), &driver);
        }
    }
}

// Eight workers insert into a tree that splits and grows meanwhile, and wait for each other's latches. Of 64 workers with one
// insertion all but one have nothing to do.
#[test]
fn many_workers_lose_no_key(rt: HostRuntime) {
    let ops = insertions(&rt, rt.alloc(), 400);
    for driver in DRIVERS {
        expect_all_inserted(&rt, rt.alloc(), driver, &ops, 8);
        expect_all_inserted(&rt, rt.alloc(), driver, &[Op::Insert(7, 70)], 64);
    }
}

#[test]
fn each_refusal_has_its_words(rt: HostRuntime) {
    for (refusal, words) in [
        (RunError::TooLarge, "too large"),
        (RunError::OutOfMemory, "out of memory"),
        (RunError::Worker(12), "worker 12 not started"),
        (RunError::Foreign, "foreign book"),
    ] {
        is_shown(&rt, rt.alloc(), &refusal, words);
    }
    same(&rt, &RunError::TooLarge.code(), &60);
}
