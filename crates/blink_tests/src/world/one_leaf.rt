//! Examples in which no page splits.
use crate::fixtures::stores;
use crate::fixtures::worlds::Work;
use crate::world::examples::{Act, Example, Sight, Tree, go};
use blink_batch::{Answer, Op};
use blink_steps::Kind::{Latch, ReadPage, ReadPrime, Unlatch, WritePage};
use blink_steps::{Step, StepError};

const ONE_INSERTION: Example = Example {
    name: "an insertion takes six steps",
    tree: Tree::Empty,
    work: Work {
        ops: &[Op::Insert(1, 1)],
        workers: 1,
        lanes: &[0],
    },
    schedule: &[],
    acts: &[
        Act::Take(
            0,
            &[
                ReadPrime,
                ReadPage(1),
                Latch(1),
                ReadPage(1),
                WritePage(1),
                Unlatch(1),
            ],
        ),
        Act::Turn(0, Ok(Step::Idle)),
        Act::See(Sight::Answers(&[Some(Answer::Inserted)])),
        Act::See(Sight::Schedule(&[0; 7])),
        Act::See(Sight::Order(&[0])),
    ],
    leaves: None,
};

const WAIT_FOR_LATCH: Example = Example {
    name: "a second worker waits for the latch",
    tree: Tree::Empty,
    work: Work {
        ops: &[Op::Insert(1, 1), Op::Insert(2, 2)],
        workers: 2,
        lanes: &[0, 1],
    },
    schedule: &[],
    acts: &[
        Act::Take(0, &[ReadPrime, ReadPage(1), Latch(1)]),
        Act::Take(1, &[ReadPrime, ReadPage(1)]),
        Act::Turn(1, Ok(Step::Waited)),
        Act::See(Sight::Schedule(&[0, 0, 0, 1, 1, 1])),
        Act::See(Sight::Answers(&[None, None])),
        Act::See(Sight::Order(&[])),
        Act::See(Sight::Ended(false)),
        Act::Take(0, &[ReadPage(1), WritePage(1), Unlatch(1)]),
        Act::Take(1, &[Latch(1), ReadPage(1), WritePage(1), Unlatch(1)]),
    ],
    leaves: Some(&BOTH_INSERTED),
};

const BOTH_INSERTED: [stores::Sight; 2] = [
    stores::Sight::Pages(1),
    stores::Sight::Entries(1, &[(1, 1), (2, 2)]),
];

const THREE_DELETIONS: Example = Example {
    name: "an empty leaf stays",
    tree: Tree::TwoLeaves,
    work: Work {
        ops: &[Op::Delete(1), Op::Delete(2), Op::Delete(3), Op::Find(3)],
        workers: 1,
        lanes: &[0; 4],
    },
    schedule: &[],
    acts: &[
        Act::Finish,
        Act::See(Sight::Answers(&[
            Some(Answer::Removed(10)),
            Some(Answer::Removed(20)),
            Some(Answer::Removed(30)),
            Some(Answer::Absent),
        ])),
    ],
    leaves: Some(&EMPTY_LEAF),
};

const EMPTY_LEAF: [stores::Sight; 3] = [
    stores::Sight::Pages(3),
    stores::Sight::Entries(1, &[]),
    stores::Sight::High(1, 3),
];

const KEY_INTO_EMPTY_LEAF: Example = Example {
    name: "an empty leaf takes a key",
    tree: Tree::TwoLeaves,
    work: Work {
        ops: &[
            Op::Delete(1),
            Op::Delete(2),
            Op::Delete(3),
            Op::Insert(2, 21),
        ],
        workers: 1,
        lanes: &[0; 4],
    },
    schedule: &[0; 21],
    acts: &[Act::Take(
        0,
        &[
            ReadPrime,
            ReadPage(3),
            ReadPage(1),
            Latch(1),
            ReadPage(1),
            WritePage(1),
            Unlatch(1),
        ],
    )],
    leaves: Some(&LEAF_WITH_KEY),
};

const LEAF_WITH_KEY: [stores::Sight; 2] = [
    stores::Sight::Pages(3),
    stores::Sight::Entries(1, &[(2, 21)]),
];

// The worker comes to page 2 of the two leaves, latches it and reads it again.
const TO_SECOND_LEAF: [blink_steps::Kind; 5] = [
    ReadPrime,
    ReadPage(3),
    ReadPage(2),
    Latch(2),
    ReadPage(2),
];

// One worker replaces the pointer of 4 twice by the same one, and then that of 6, which isn't there. The second writes too, though
// the pointers are the same; the third finds nothing to replace.
const REPLACEMENTS: Example = Example {
    name: "a replacement writes its leaf once",
    tree: Tree::TwoLeaves,
    work: Work {
        ops: &[Op::Replace(4, 41), Op::Replace(4, 41), Op::Replace(6, 60)],
        workers: 1,
        lanes: &[0; 3],
    },
    schedule: &[],
    acts: &[
        Act::Take(0, &TO_SECOND_LEAF),
        Act::Take(0, &[WritePage(2), Unlatch(2)]),
        Act::Take(0, &TO_SECOND_LEAF),
        Act::Take(0, &[WritePage(2), Unlatch(2)]),
        Act::Take(0, &TO_SECOND_LEAF),
        Act::Take(0, &[Unlatch(2)]),
        Act::See(Sight::Answers(&[
            Some(Answer::Replaced(40)),
            Some(Answer::Replaced(41)),
            Some(Answer::Absent),
        ])),
    ],
    leaves: Some(&FOUR_REPLACED),
};

const FOUR_REPLACED: [stores::Sight; 2] = [
    stores::Sight::Pages(3),
    stores::Sight::Entries(2, &[(4, 41), (5, 50)]),
];

// One worker exchanges the pointer of 4, then finds that it is no longer the expected one, and then that 6 isn't there. Only the first
// writes.
const EXCHANGES: Example = Example {
    name: "an exchange writes only over the expected pointer",
    tree: Tree::TwoLeaves,
    work: Work {
        ops: &[
            Op::Exchange(4, 40, 41),
            Op::Exchange(4, 40, 42),
            Op::Exchange(6, 60, 61),
        ],
        workers: 1,
        lanes: &[0; 3],
    },
    schedule: &[],
    acts: &[
        Act::Take(0, &TO_SECOND_LEAF),
        Act::Take(0, &[WritePage(2), Unlatch(2)]),
        Act::Take(0, &TO_SECOND_LEAF),
        Act::Take(0, &[Unlatch(2)]),
        Act::Take(0, &TO_SECOND_LEAF),
        Act::Take(0, &[Unlatch(2)]),
        Act::See(Sight::Answers(&[
            Some(Answer::Replaced(40)),
            Some(Answer::Exists(41)),
            Some(Answer::Absent),
        ])),
    ],
    leaves: Some(&FOUR_REPLACED),
};

// One worker expects another pointer of 4 than its own, then its own, and then one of 6, which isn't there. Only the second
// writes.
const EXACT_DELETIONS: Example = Example {
    name: "an exact deletion writes only where the expected pointer is",
    tree: Tree::TwoLeaves,
    work: Work {
        ops: &[
            Op::DeleteExact(4, 41),
            Op::DeleteExact(4, 40),
            Op::DeleteExact(6, 60),
        ],
        workers: 1,
        lanes: &[0; 3],
    },
    schedule: &[],
    acts: &[
        Act::Take(0, &TO_SECOND_LEAF),
        Act::Take(0, &[Unlatch(2)]),
        Act::Take(0, &TO_SECOND_LEAF),
        Act::Take(0, &[WritePage(2), Unlatch(2)]),
        Act::Take(0, &TO_SECOND_LEAF),
        Act::Take(0, &[Unlatch(2)]),
        Act::See(Sight::Answers(&[
            Some(Answer::Exists(40)),
            Some(Answer::Removed(40)),
            Some(Answer::Absent),
        ])),
    ],
    leaves: Some(&FOUR_REMOVED),
};

const FOUR_REMOVED: [stores::Sight; 2] = [
    stores::Sight::Pages(3),
    stores::Sight::Entries(2, &[(5, 50)]),
];

const NO_WORKERS_NUMBER: Example = Example {
    name: "a number that is no workers takes no turn",
    tree: Tree::Empty,
    work: Work {
        ops: &[Op::Find(7)],
        workers: 1,
        lanes: &[0],
    },
    schedule: &[],
    acts: &[
        Act::Turn(1, Err(StepError::NoWorker(1))),
        Act::See(Sight::Schedule(&[])),
        Act::Take(0, &[ReadPrime, ReadPage(1)]),
        Act::See(Sight::Answers(&[Some(Answer::Absent)])),
        Act::See(Sight::Ended(true)),
    ],
    leaves: None,
};

const EXAMPLES: [&Example; 8] = [
    &ONE_INSERTION,
    &WAIT_FOR_LATCH,
    &THREE_DELETIONS,
    &KEY_INTO_EMPTY_LEAF,
    &REPLACEMENTS,
    &EXCHANGES,
    &EXACT_DELETIONS,
    &NO_WORKERS_NUMBER,
];

#[test]
fn worlds_of_one_leaf(rt: HostRuntime) {
    go(&rt, rt.alloc(), &EXAMPLES);
}
