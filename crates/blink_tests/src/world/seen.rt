//! What is to be seen of a world between two turns.
use crate::fixtures::stores;
use crate::fixtures::worlds::Work;
use crate::world::examples::{Act, Example, Sight, Tree, go};
use blink_batch::Op;
use blink_steps::{Debt, Kind, Step};

// Of three workers worker 0 splits page 1: the keys 1 to 3 are to stay, and 4 and 5 go.
const SPLITTING: Work = Work {
    ops: &[Op::Insert(5, 50), Op::Find(1)],
    workers: 3,
    lanes: &[0, 1],
};

// The turns in which it writes the new page, page 2.
const NEW_PAGE_WRITTEN: &[u8] = &[0, 0, 0, 0, 0];

const LATCHED: Example = Example {
    name: "the latch of a split page is seen",
    tree: Tree::FullLeaf,
    work: SPLITTING,
    schedule: NEW_PAGE_WRITTEN,
    acts: &[
        Act::See(Sight::Workers(3)),
        Act::Store(&[stores::Sight::Pages(2)]),
        Act::See(Sight::Holder(1, Some(0))),
        Act::See(Sight::Holder(2, None)),
    ],
    leaves: None,
};

// What the split owes: page 2 is to be posted.
const OWED: Debt = Debt {
    level: 0,
    separator: 3,
    page: 2,
};

const HALF_FINISHED: Example = Example {
    name: "a split is seen half finished",
    tree: Tree::FullLeaf,
    work: SPLITTING,
    schedule: NEW_PAGE_WRITTEN,
    acts: &[
        Act::See(Sight::NoWork(1)),
        Act::See(Sight::HalfSplit(0, OWED)),
    ],
    leaves: None,
};

const GOING_ON: Example = Example {
    name: "a split goes on",
    tree: Tree::FullLeaf,
    work: SPLITTING,
    schedule: NEW_PAGE_WRITTEN,
    acts: &[Act::Advance(0, Step::Moved(Kind::WritePage(1)))],
    leaves: None,
};

const EXAMPLES: [&Example; 3] = [&LATCHED, &HALF_FINISHED, &GOING_ON];

#[test]
fn worlds_between_turns(rt: HostRuntime) {
    go(&rt, rt.alloc(), &EXAMPLES);
}
