//! Examples in which pages split and roots grow.
use crate::fixtures::row::Row;
use crate::fixtures::same_for;
use crate::fixtures::stores::{Sight, is_seen, page_at};
use crate::fixtures::worlds::{Work, keys_to};
use crate::world::examples::{Act, Example, Sight as Seen, Tree, go};
use blink_batch::{Answer, Op};
use blink_page::GREATEST_KEY;
use blink_steps::Kind::{Latch, ReadPage, ReadPrime, Unlatch, WritePage, WritePrime};
use blink_steps::{Kind, Step};
use blink_store::Store;
use std::alloc::Global;
use std::process::Abort;

const ONE_INSERTION: Example = Example {
    name: "a full leaf splits and the root grows",
    tree: Tree::FullLeaf,
    work: Work {
        ops: &[Op::Insert(5, 50)],
        workers: 1,
        lanes: &[0],
    },
    schedule: &[],
    acts: &[
        Act::Store(&[Sight::Pages(1)]),
        Act::Take(
            0,
            &[
                ReadPrime,
                ReadPage(1),
                Latch(1),
                ReadPage(1),
                WritePage(2),
                WritePage(1),
                ReadPrime,
                WritePage(3),
                WritePrime,
                Unlatch(1),
            ],
        ),
    ],
    leaves: Some(&HALVES),
};

// The full leaf with 5 inserted: its halves are pages 1 and 2, and their root is page 3.
const HALVES: [Sight; 7] = [
    Sight::Pages(3),
    Sight::Leftmost(&[1, 3]),
    Sight::Entries(1, &[(1, 10), (2, 20), (3, 30)]),
    Sight::Bounds(1, 0, (None, 3, Some(2))),
    Sight::Entries(2, &[(4, 40), (5, 50)]),
    Sight::Bounds(2, 0, (Some(3), GREATEST_KEY, None)),
    Sight::Entries(3, &[(3, 1), (GREATEST_KEY, 2)]),
];

// Worker 0 has an insertion that splits the full leaf, and worker 1 a find.
const PASSING: Work = Work {
    ops: &[Op::Insert(5, 50), Op::Find(4)],
    workers: 2,
    lanes: &[0, 1],
};

// Worker 0 splits the full leaf, and writes both halves.
const SPLIT_OF_LEAF: [Kind; 6] = [
    ReadPrime,
    ReadPage(1),
    Latch(1),
    ReadPage(1),
    WritePage(2),
    WritePage(1),
];

// The turns up to the find's answer.
const HALF_SPLIT: [u8; 9] = [1, 0, 0, 0, 0, 0, 0, 1, 1];

// The find of 4 has answered by page 2, and the insertion of 5 has decided and not ended.
const ANSWERS: [Option<Answer>; 2] = [Some(Answer::Inserted), Some(Answer::Found(40))];

const PASSED_STEP_BY_STEP: Example = Example {
    name: "a find passes a half finished split",
    tree: Tree::FullLeaf,
    work: PASSING,
    schedule: &[],
    acts: &[
        Act::Take(1, &[ReadPrime]),
        Act::Take(0, &SPLIT_OF_LEAF),
        Act::Store(&[Sight::High(1, 3)]),
        Act::Take(1, &[ReadPage(1), ReadPage(2)]),
        Act::See(Seen::Schedule(&HALF_SPLIT)),
        Act::See(Seen::Answers(&ANSWERS)),
        Act::See(Seen::Order(&[0, 1])),
        Act::See(Seen::Read(1, 2)),
        Act::See(Seen::Workers(2)),
        Act::See(Seen::Worker(0, false, false)),
        Act::See(Seen::Worker(1, false, true)),
        Act::See(Seen::Ended(false)),
    ],
    leaves: None,
};

const PASSED_BY_SCHEDULE: Example = Example {
    name: "a schedule passes a half finished split",
    tree: Tree::FullLeaf,
    work: PASSING,
    schedule: &HALF_SPLIT,
    acts: &[
        Act::See(Seen::Schedule(&HALF_SPLIT)),
        Act::See(Seen::Answers(&ANSWERS)),
        Act::See(Seen::Order(&[0, 1])),
        Act::See(Seen::Read(1, 2)),
        Act::See(Seen::Workers(2)),
        Act::See(Seen::Worker(0, false, false)),
        Act::See(Seen::Worker(1, false, true)),
        Act::See(Seen::Ended(false)),
    ],
    leaves: None,
};

// Worker 1 inserts into the right half.
const INTO_SECOND: [Kind; 7] = [
    ReadPrime,
    ReadPage(1),
    ReadPage(2),
    Latch(2),
    ReadPage(2),
    WritePage(2),
    Unlatch(2),
];

// Worker 1 splits the right half.
const SPLIT_OF_SECOND: [Kind; 9] = [
    ReadPrime,
    ReadPage(1),
    ReadPage(2),
    Latch(2),
    ReadPage(2),
    WritePage(3),
    WritePage(2),
    ReadPrime,
    Unlatch(2),
];

// Worker 0 splits the full leaf; worker 1 splits its right half, and is ready to post it before there is a root.
const OVERTAKING: Example = Example {
    name: "postings overtake each other",
    tree: Tree::FullLeaf,
    work: Work {
        ops: &[
            Op::Insert(5, 50),
            Op::Insert(6, 60),
            Op::Insert(7, 70),
            Op::Insert(8, 80),
        ],
        workers: 2,
        lanes: &[0, 1, 1, 1],
    },
    schedule: &[],
    acts: &[
        Act::Take(0, &SPLIT_OF_LEAF),
        Act::Take(1, &INTO_SECOND),
        Act::Take(1, &INTO_SECOND),
        Act::Take(1, &SPLIT_OF_SECOND),
        Act::Store(&[
            Sight::Entries(2, &[(4, 40), (5, 50), (6, 60)]),
            Sight::Entries(3, &[(7, 70), (8, 80)]),
        ]),
        Act::Turn(1, Ok(Step::Waited)),
        Act::See(Seen::Picked(Some(0))),
        // Worker 0 makes a root over the halves of its split. The later split isn't posted to it yet.
        Act::Take(0, &[ReadPrime, WritePage(4), WritePrime, Unlatch(1)]),
        Act::Store(&[Sight::Entries(4, &[(3, 1), (GREATEST_KEY, 2)])]),
        Act::Take(
            1,
            &[ReadPrime, Latch(4), ReadPage(4), WritePage(4), Unlatch(4)],
        ),
        Act::See(Seen::Schedule(&[
            0, 0, 0, 0, 0, 0, 1, 1, 1, 1, 1, 1, 1, 1, 1, 1, 1, 1, 1, 1, 1, 1, 1, 1, 1, 1, 1, 1, 1,
            1, 0, 0, 0, 0, 1, 1, 1, 1, 1,
        ])),
        Act::See(Seen::Picked(None)),
        Act::See(Seen::Order(&[0, 1, 2, 3])),
        Act::See(Seen::MovedAt(3, 14)),
    ],
    leaves: Some(&BOTH_POSTED),
};

// The tree in which both splits are posted.
const BOTH_POSTED: [Sight; 4] = [
    Sight::Pages(4),
    Sight::Entries(2, &[(4, 40), (5, 50), (6, 60)]),
    Sight::Entries(3, &[(7, 70), (8, 80)]),
    Sight::Entries(4, &[(3, 1), (6, 2), (GREATEST_KEY, 3)]),
];

// The root of the tree, page 3, is full, and splits.
const SPLIT_OF_ROOT: Example = Example {
    name: "an inner page splits",
    tree: Tree::KeysTo(13),
    work: Work {
        ops: &[Op::Insert(14, 14)],
        workers: 1,
        lanes: &[0],
    },
    schedule: &[],
    acts: &[
        Act::Store(&[
            Sight::Pages(5),
            Sight::Entries(3, &[(3, 1), (6, 2), (9, 4), (GREATEST_KEY, 5)]),
        ]),
        Act::Take(
            0,
            &[
                ReadPrime,
                ReadPage(3),
                ReadPage(5),
                Latch(5),
                ReadPage(5),
                WritePage(6),
                WritePage(5),
                ReadPrime,
                Unlatch(5),
                Latch(3),
                ReadPage(3),
                WritePage(7),
                WritePage(3),
                ReadPrime,
                WritePage(8),
                WritePrime,
                Unlatch(3),
            ],
        ),
    ],
    leaves: Some(&ROOT_IN_HALVES),
};

const ROOT_IN_HALVES: [Sight; 6] = [
    Sight::Pages(8),
    Sight::Entries(3, &[(3, 1), (6, 2), (9, 4)]),
    Sight::Bounds(3, 1, (None, 9, Some(7))),
    Sight::Entries(7, &[(12, 5), (GREATEST_KEY, 6)]),
    Sight::Entries(8, &[(9, 3), (GREATEST_KEY, 7)]),
    Sight::Leftmost(&[1, 3, 8]),
];

// Page `number` has the keys from `first` to `last`.
fn has_keys(rt: &impl Abort, store: &Store, number: u32, (first, last): (u64, u64)) {
    let mut key = first;
    for &(found, _) in &page_at(rt, store, number).items {
        same_for(rt, &found, &key, &number);
        key = key.saturating_add(1);
    }
    same_for(rt, &key, &last.saturating_add(1), &number);
}

// A fan, the keys of a tree with one key more than fit a leaf, and what is to be seen of its pages.
struct Parts<'a> {
    name: &'a str,
    fan: u8,
    greatest: u64,
    separator: u64,
    sights: &'a [Sight<'a>],
}

// The keys up to the separator are in the left leaf, and the others in the right one.
fn splits_at(rt: &impl Abort, alloc: Global, parts: &Parts) {
    let rest = keys_to(rt, alloc, parts.fan, parts.greatest);
    is_seen(rt, rest.store(), parts.sights);
    has_keys(rt, rest.store(), 1, (1, parts.separator));
    let second = (parts.separator.saturating_add(1), parts.greatest);
    has_keys(rt, rest.store(), 2, second);
}

const OF_GREATEST_FAN: Parts = Parts {
    name: "the greatest fan splits into seventeen and sixteen",
    fan: 32,
    greatest: 33,
    separator: 17,
    sights: &[
        Sight::Pages(3),
        Sight::Leftmost(&[1, 3]),
        Sight::High(1, 17),
        Sight::Floor(2, Some(17)),
        Sight::Entries(3, &[(17, 1), (GREATEST_KEY, 2)]),
    ],
};

const OF_SIXTEEN: Parts = Parts {
    name: "a fan of sixteen splits into nine and eight",
    fan: 16,
    greatest: 17,
    separator: 9,
    sights: &[
        Sight::Pages(3),
        Sight::Leftmost(&[1, 3]),
        Sight::High(1, 9),
        Sight::Floor(2, Some(9)),
        Sight::Entries(3, &[(9, 1), (GREATEST_KEY, 2)]),
    ],
};

#[test]
fn leaves_of_fans_split(rt: HostRuntime) {
    for &parts in &[&OF_GREATEST_FAN, &OF_SIXTEEN] {
        let name = parts.name;
        splits_at(&Row { rt: &rt, name }, rt.alloc(), parts);
    }
}

const EXAMPLES: [&Example; 5] = [
    &ONE_INSERTION,
    &PASSED_STEP_BY_STEP,
    &PASSED_BY_SCHEDULE,
    &OVERTAKING,
    &SPLIT_OF_ROOT,
];

#[test]
fn worlds_that_split(rt: HostRuntime) {
    go(&rt, rt.alloc(), &EXAMPLES);
}
