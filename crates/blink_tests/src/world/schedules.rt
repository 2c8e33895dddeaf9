//! Examples of one batch under several schedules.
use crate::fixtures::same;
use crate::fixtures::stores::empty_tree;
use crate::fixtures::worlds::{Work, batch_of, lanes_of};
use crate::world::examples::{Act, Example, Sight, Tree, go};
use blink_batch::{Answer, Op};
use blink_steps::{StepError, replay};

// Finds and deletions of two workers.
const FINDS_AND_DELETIONS: Work = Work {
    ops: &[
        Op::Find(2),
        Op::Delete(5),
        Op::Find(5),
        Op::Delete(1),
        Op::Find(9),
    ],
    workers: 2,
    lanes: &[0, 1, 1, 0, 0],
};

// What they are answered over the two leaves, whatever the schedule.
const TO_THEIR_END: [Act; 2] = [
    Act::Finish,
    Act::See(Sight::Answers(&[
        Some(Answer::Found(20)),
        Some(Answer::Removed(50)),
        Some(Answer::Absent),
        Some(Answer::Removed(10)),
        Some(Answer::Absent),
    ])),
];

const ONE_AFTER_THE_OTHER: Example = Example {
    name: "finds and deletions over two leaves, one after the other",
    tree: Tree::TwoLeaves,
    work: FINDS_AND_DELETIONS,
    schedule: &[0, 0, 0, 1, 1, 1],
    acts: &TO_THEIR_END,
    leaves: None,
};

const IN_TURN: Example = Example {
    name: "finds and deletions over two leaves, in turn",
    tree: Tree::TwoLeaves,
    work: FINDS_AND_DELETIONS,
    schedule: &[1, 0, 1, 0, 1, 0, 1, 0, 1],
    acts: &TO_THEIR_END,
    leaves: None,
};

const BETWEEN: Example = Example {
    name: "finds and deletions over two leaves, one between the other's turns",
    tree: Tree::TwoLeaves,
    work: FINDS_AND_DELETIONS,
    schedule: &[0, 1, 1, 1, 1, 1, 1, 1, 1, 1, 0],
    acts: &TO_THEIR_END,
    leaves: None,
};

// An insertion of 5 by worker 0 and a deletion of it by worker 1, which are answered in the order of deciding.
const ONE_KEY: Work = Work {
    ops: &[Op::Insert(5, 50), Op::Delete(5)],
    workers: 2,
    lanes: &[0, 1],
};

const REMOVED: [Act; 3] = [
    Act::Finish,
    Act::See(Sight::Order(&[0, 1])),
    Act::See(Sight::Answers(&[Some(Answer::Inserted), Some(Answer::Removed(50))])),
];

const ABSENT: [Act; 3] = [
    Act::Finish,
    Act::See(Sight::Order(&[1, 0])),
    Act::See(Sight::Answers(&[Some(Answer::Inserted), Some(Answer::Absent)])),
];

const INSERTION_FIRST: Example = Example {
    name: "a key of two workers is answered in the order of deciding: no schedule",
    tree: Tree::FullLeaf,
    work: ONE_KEY,
    schedule: &[],
    acts: &REMOVED,
    leaves: None,
};

const DELETION_BEGINS: Example = Example {
    name: "a key of two workers is answered in the order of deciding: the deletion begins",
    tree: Tree::FullLeaf,
    work: ONE_KEY,
    schedule: &[1, 0, 0, 0, 0, 0, 0],
    acts: &REMOVED,
    leaves: None,
};

const DELETION_FIRST: Example = Example {
    name: "a key of two workers is answered in the order of deciding: the deletion comes first",
    tree: Tree::FullLeaf,
    work: ONE_KEY,
    schedule: &[1, 1, 1, 1, 0, 0],
    acts: &ABSENT,
    leaves: None,
};

const INSERTION_BEGINS: Example = Example {
    name: "a key of two workers is answered in the order of deciding: the insertion begins",
    tree: Tree::FullLeaf,
    work: ONE_KEY,
    schedule: &[0, 0, 1, 1, 1, 1],
    acts: &ABSENT,
    leaves: None,
};

const EXAMPLES: [&Example; 7] = [
    &ONE_AFTER_THE_OTHER,
    &IN_TURN,
    &BETWEEN,
    &INSERTION_FIRST,
    &DELETION_BEGINS,
    &DELETION_FIRST,
    &INSERTION_BEGINS,
];

#[test]
fn worlds_by_schedules(rt: HostRuntime) {
    go(&rt, rt.alloc(), &EXAMPLES);
}

#[test]
fn a_schedule_names_no_worker(rt: HostRuntime) {
    let rest = empty_tree(&rt, rt.alloc(), 4);
    let batch = batch_of(&rt, rt.alloc(), &[Op::Find(7)]);
    let lanes = lanes_of(&rt, rt.alloc(), &batch, 1, &[0]);
    let refused = replay(rt.alloc(), rest, batch, lanes, &[0, 3, 5]).err();
    same(&rt, &refused, &Some(StepError::NoWorker(3)));
}
