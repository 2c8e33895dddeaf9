//! Examples of picked turns and of waits.
use crate::fixtures::worlds::Work;
use crate::fixtures::{same, stores};
use crate::world::examples::{Act, Example, Sight, Tree, go, work_of, world_after};
use blink_batch::{Answer, Op};
use blink_page::GREATEST_KEY;
use blink_steps::{Working, World};
use std::process::Abort;

// Two workers with an insertion each.
const TWO_INSERTIONS: Work = Work {
    ops: &[Op::Insert(1, 1), Op::Insert(2, 2)],
    workers: 2,
    lanes: &[0, 1],
};

const START: Example = Example {
    name: "nobody waits at the start",
    tree: Tree::Empty,
    work: TWO_INSERTIONS,
    schedule: &[],
    acts: &[
        Act::See(Sight::Picked(Some(0))),
        Act::See(Sight::Worker(0, false, true)),
        Act::See(Sight::Worker(1, false, true)),
    ],
    leaves: None,
};

const WAIT: Example = Example {
    name: "a worker waits for a latch",
    tree: Tree::Empty,
    work: TWO_INSERTIONS,
    schedule: &[0, 0, 0, 1, 1, 1],
    acts: &[
        Act::See(Sight::Picked(Some(0))),
        Act::See(Sight::Worker(0, false, false)),
        Act::See(Sight::Worker(1, true, false)),
        Act::See(Sight::Moved(&[3, 2])),
        Act::Finish,
        Act::See(Sight::Picked(None)),
        Act::See(Sight::Worker(0, false, true)),
        Act::See(Sight::Worker(1, false, true)),
        Act::See(Sight::Answers(&[Some(Answer::Inserted); 2])),
    ],
    leaves: None,
};

// The two are at the same place, and need the same.
fn is_same_work(rt: &impl Abort, working: &Working, other: &Working) {
    same(rt, &working.place, &other.place);
    same(rt, &working.machine.need(), &other.machine.need());
}

// Whether the worker is idle, and whether its next turn would be a wait.
fn turn_of(rt: &impl Abort, world: &World, worker: u8) -> (bool, bool) {
    assert!(rt; worker < world.workers());
    (world.is_idle(worker), world.waits(worker))
}

// What the worlds show of a worker, which has an operation under way in both.
fn shows_the_same_worker(rt: &impl Abort, world: &World, other: &World, worker: u8) {
    is_same_work(rt, work_of(rt, world, worker), work_of(rt, other, worker));
    same(rt, &turn_of(rt, world, worker), &turn_of(rt, other, worker));
}

// What the worlds show of the operation at this place.
fn shows_the_same_counts(rt: &impl Abort, world: &World, other: &World, place: u32) {
    assert!(rt; (place as usize) < world.answers().len());
    assert!(rt; (place as usize) < other.answers().len());
    same(rt, &world.reads_of(place), &other.reads_of(place));
    same(rt, &world.moves_of(place), &other.moves_of(place));
}

// The worlds of two workers with an operation each differ in nothing but their schedules.
fn shows_the_same(rt: &impl Abort, world: &World, other: &World) {
    same(rt, &world.answers(), &other.answers());
    same(rt, &world.order(), &other.order());
    assert!(rt; world.store().is_same(other.store()));
    same(rt, &world.latches().holder(1), &other.latches().holder(1));
    same(rt, &world.ended(), &other.ended());
    same(rt, &world.pick(), &other.pick());
    for of in 0..2 {
        shows_the_same_worker(rt, world, other, of);
        shows_the_same_counts(rt, world, other, u32::from(of));
    }
}

const FIVE_TURNS: Example = Example {
    name: "five turns",
    tree: Tree::Empty,
    work: TWO_INSERTIONS,
    schedule: &[0, 0, 0, 1, 1],
    acts: &[Act::See(Sight::Schedule(&[0, 0, 0, 1, 1]))],
    leaves: None,
};

// The same turns, and then a wait.
const SIX_TURNS: Example = Example {
    name: "six turns",
    tree: Tree::Empty,
    work: TWO_INSERTIONS,
    schedule: &[0, 0, 0, 1, 1, 1],
    acts: &[
        Act::See(Sight::Schedule(&[0, 0, 0, 1, 1, 1])),
        Act::See(Sight::Picked(Some(0))),
    ],
    leaves: None,
};

#[test]
fn a_wait_changes_the_schedule_alone(rt: HostRuntime) {
    let five = world_after(&rt, rt.alloc(), &FIVE_TURNS);
    let six = world_after(&rt, rt.alloc(), &SIX_TURNS);
    shows_the_same(&rt, &five, &six);
}

// Worker 0 has split the full leaf; worker 1 has split its right half, and asks for the level above, which isn't there yet.
const OVERTAKING: Example = Example {
    name: "a worker waits for a level",
    tree: Tree::FullLeaf,
    work: Work {
        ops: &[
            Op::Insert(5, 50),
            Op::Insert(6, 60),
            Op::Insert(7, 70),
            Op::Insert(8, 80),
        ],
        workers: 2,
        lanes: &[0, 1, 1, 1],
    },
    schedule: &[
        0, 0, 0, 0, 0, 0, 1, 1, 1, 1, 1, 1, 1, 1, 1, 1, 1, 1, 1, 1, 1, 1, 1, 1, 1, 1, 1, 1, 1, 1,
    ],
    acts: &[
        Act::See(Sight::Worker(0, false, false)),
        Act::See(Sight::Worker(1, true, false)),
        Act::See(Sight::Picked(Some(0))),
        Act::See(Sight::Moved(&[6, 7, 7, 9])),
        Act::Finish,
        Act::See(Sight::Picked(None)),
        Act::See(Sight::Moved(&[10, 7, 7, 14])),
        // The turns above, and then those that were picked.
        Act::See(Sight::Schedule(&[
            0, 0, 0, 0, 0, 0, 1, 1, 1, 1, 1, 1, 1, 1, 1, 1, 1, 1, 1, 1, 1, 1, 1, 1, 1, 1, 1, 1, 1,
            1, 0, 0, 0, 0, 1, 1, 1, 1, 1,
        ])),
    ],
    leaves: Some(&BOTH_POSTED),
};

const BOTH_POSTED: [stores::Sight; 3] = [
    stores::Sight::Pages(4),
    stores::Sight::Leftmost(&[1, 4]),
    stores::Sight::Entries(4, &[(3, 1), (6, 2), (GREATEST_KEY, 3)]),
];

const EXAMPLES: [&Example; 3] = [&START, &WAIT, &OVERTAKING];

#[test]
fn worlds_with_picked_turns(rt: HostRuntime) {
    go(&rt, rt.alloc(), &EXAMPLES);
}
