//! Batches of two workers under each schedule of their first twelve turns.
use crate::fixtures::row::Row;
use crate::fixtures::worlds::{
    Work, finish, full_leaf, has_answers, has_order, tree_after, world_of,
};
use crate::fixtures::{given, same_for};
use blink_batch::{Answer, Op};
use blink_index::Index;
use blink_steps::World;
use std::alloc::Global;
use std::process::Abort;

// How many schedules there are.
const SCHEDULES: u64 = 4_096;

// The schedule of this number: worker 1 has the turns whose bits are set.
fn schedule_of(number: u64) -> [u8; 12] {
    let mut schedule = [0; 12];
    let mut bits = number;
    for turn in &mut schedule {
        *turn = (bits % 2) as u8;
        bits /= 2;
    }
    schedule
}

// The index of the keys 1 to 4, each with ten times the key, in one leaf, which is full.
fn four(rt: &impl Abort, alloc: Global) -> Index {
    Index::from_rest(full_leaf(rt, alloc))
}

// The world of the schedule of this number over a copy of the index, and then to the end.
fn ended(rt: &impl Abort, alloc: Global, index: &Index, work: &Work, number: u64) -> World {
    let tree = given(rt, index.copy(alloc)).into_rest();
    let mut world = world_of(rt, alloc, tree, work, &schedule_of(number));
    finish(rt, &mut world);
    world
}

// The index that the world leaves.
fn index_after(rt: &impl Abort, world: World) -> Index {
    Index::from_rest(tree_after(rt, world))
}

// Two workers with operations on keys of their own.
const APART: Work = Work {
    ops: &[
        Op::Insert(5, 50),
        Op::Insert(6, 60),
        Op::Find(5),
        Op::Delete(4),
    ],
    workers: 2,
    lanes: &[0, 1, 0, 1],
};

// Their answers and pages, whatever the schedule.
const ANSWERS: [Option<Answer>; 4] = [
    Some(Answer::Inserted),
    Some(Answer::Inserted),
    Some(Answer::Found(50)),
    Some(Answer::Removed(40)),
];

const DUMP: &str = "\
1 3 - 18446744073709551615 - 3:1 18446744073709551615:2
0 1 - 3 2 1:10 2:20 3:30
0 2 3 18446744073709551615 - 5:50 6:60
";

fn gives_the_same_pages(rt: &impl Abort, alloc: Global, index: &Index, number: u64) {
    let world = ended(rt, alloc, index, &APART, number);
    has_answers(rt, &world, &ANSWERS);
    let after = index_after(rt, world);
    same_for(rt, &given(rt, after.dump(alloc)).as_str(), &DUMP, &number);
}

#[test]
fn each_schedule_gives_the_same_pages(rt: HostRuntime) {
    let index = four(&rt, rt.alloc());
    for number in 0..SCHEDULES {
        gives_the_same_pages(&rt, rt.alloc(), &index, number);
    }
}

// The answers to two operations, and the pointer that stays under their key.
struct Outcome {
    answers: [Option<Answer>; 2],
    pointer: Option<u64>,
}

// An insertion of 5 and another operation on it, each by a worker of its own. The lanes are no lawful cut: whichever decides first
// is answered first.
struct Pair<'a> {
    name: &'a str,
    work: Work<'a>,
    in_order: Outcome,
    turned: Outcome,
}

// Whether the first operation has decided before the second.
fn is_in_order(rt: &impl Abort, world: &World) -> bool {
    let in_order = world.order() == [0, 1].as_slice();
    if !in_order {
        has_order(rt, world, &[1, 0]);
    }
    in_order
}

// The two are answered in the order of deciding. It tells whether the insertion was first.
fn is_answered(rt: &impl Abort, alloc: Global, index: &Index, pair: &Pair, number: u64) -> bool {
    let world = ended(rt, alloc, index, &pair.work, number);
    let in_order = is_in_order(rt, &world);
    let outcome = if in_order {
        &pair.in_order
    } else {
        &pair.turned
    };
    has_answers(rt, &world, &outcome.answers);
    let after = index_after(rt, world);
    same_for(rt, &after.find(5), &outcome.pointer, &number);
    in_order
}

// Under each schedule they are, and there are schedules of both orders.
fn are_answered(rt: &impl Abort, alloc: Global, pair: &Pair) {
    let index = four(rt, alloc);
    let (mut first, mut second) = (false, false);
    for number in 0..SCHEDULES {
        let in_order = is_answered(rt, alloc, &index, pair, number);
        first |= in_order;
        second |= !in_order;
    }
    assert!(rt; first && second);
}

const DELETED: Pair = Pair {
    name: "each schedule answers in the order of deciding",
    work: Work {
        ops: &[Op::Insert(5, 50), Op::Delete(5)],
        workers: 2,
        lanes: &[0, 1],
    },
    in_order: Outcome {
        answers: [Some(Answer::Inserted), Some(Answer::Removed(50))],
        pointer: None,
    },
    turned: Outcome {
        answers: [Some(Answer::Inserted), Some(Answer::Absent)],
        pointer: Some(50),
    },
};

const REPLACED: Pair = Pair {
    name: "each schedule replaces what is there",
    work: Work {
        ops: &[Op::Insert(5, 50), Op::Replace(5, 51)],
        workers: 2,
        lanes: &[0, 1],
    },
    in_order: Outcome {
        answers: [Some(Answer::Inserted), Some(Answer::Replaced(50))],
        pointer: Some(51),
    },
    turned: Outcome {
        answers: [Some(Answer::Inserted), Some(Answer::Absent)],
        pointer: Some(50),
    },
};

#[test]
fn each_schedule_answers_two_on_one_key(rt: HostRuntime) {
    for &pair in &[&DELETED, &REPLACED] {
        let name = pair.name;
        are_answered(&Row { rt: &rt, name }, rt.alloc(), pair);
    }
}
