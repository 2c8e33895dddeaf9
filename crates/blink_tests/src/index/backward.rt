//! An index that is read from the greatest key down, and the entries on each side of a key.
use super::story::{Act, Look, Start, Story, go};
use blink_batch::{Answer, Op};

const STORIES: [Story; 8] = [
    Story {
        name: "a backward scan gives the run of each leaf",
        start: Start::Five,
        acts: &[
            Act::See(Look::RunsBack(2, 4, (&[(4, 40)], &[(2, 20), (3, 30)]))),
            Act::See(Look::RunsBack(2, 3, (&[(2, 20), (3, 30)], &[]))),
            Act::See(Look::RunsBack(6, 9, (&[], &[]))),
            Act::See(Look::PageRunsBack(4, 3, (&[(4, 40)], &[(2, 20), (3, 30)]))),
            Act::See(Look::PageRunsBack(3, 2, (&[(2, 20), (3, 30)], &[]))),
        ],
    },
    // Of keys 1 to 3 in one leaf, and 4 and 5 in the next.
    Story {
        name: "backward scans cross leaves",
        start: Start::Five,
        acts: &[Act::See(Look::ScansBack(&[
            (0, u64::MAX, &[(5, 50), (4, 40), (3, 30), (2, 20), (1, 10)]),
            (2, 4, &[(4, 40), (3, 30), (2, 20)]),
            (0, 3, &[(3, 30), (2, 20), (1, 10)]),
            (4, 4, &[(4, 40)]),
            (4, 3, &[]),
            (6, 9, &[]),
            (0, 0, &[]),
        ]))],
    },
    // The left leaf is empty.
    Story {
        name: "backward scans end behind an empty leaf",
        start: Start::Two,
        acts: &[Act::See(Look::ScansBack(&[
            (0, u64::MAX, &[(5, 50), (4, 40)]),
            (2, 4, &[(4, 40)]),
            (0, 3, &[]),
        ]))],
    },
    // The right leaf is empty.
    Story {
        name: "backward scans begin before an empty leaf",
        start: Start::Five,
        acts: &[
            Act::Call(Op::Delete(4), Answer::Removed(40)),
            Act::Call(Op::Delete(5), Answer::Removed(50)),
            Act::See(Look::ScansBack(&[
                (0, u64::MAX, &[(3, 30), (2, 20), (1, 10)]),
                (2, 9, &[(3, 30), (2, 20)]),
                (4, u64::MAX, &[]),
            ])),
        ],
    },
    // The last entries up to a key, of five, and at most so many.
    Story {
        name: "backward pages give the last entries",
        start: Start::Five,
        acts: &[Act::See(Look::PagesBack(&[
            (u64::MAX, 2, &[(5, 50), (4, 40)]),
            (4, 3, &[(4, 40), (3, 30), (2, 20)]),
            (3, 1, &[(3, 30)]),
            (2, u64::MAX, &[(2, 20), (1, 10)]),
            (9, 0, &[]),
            (0, 1, &[]),
        ]))],
    },
    Story {
        name: "each key has its sides",
        start: Start::Five,
        acts: &[Act::See(Look::Sides(&[
            (0, None, Some(1), None),
            (1, None, Some(1), Some(1)),
            (3, Some(2), Some(3), Some(3)),
            (4, Some(3), Some(4), Some(4)),
            (5, Some(4), Some(5), Some(5)),
            (6, Some(5), None, Some(5)),
            (u64::MAX, Some(5), None, Some(5)),
        ]))],
    },
    Story {
        name: "no side is an empty leaf",
        start: Start::Two,
        acts: &[Act::See(Look::Sides(&[
            (2, None, Some(4), None),
            (4, None, Some(4), Some(4)),
            (5, Some(4), Some(5), Some(5)),
            (9, Some(5), None, Some(5)),
        ]))],
    },
    Story {
        name: "an empty index has no sides",
        start: Start::New(4),
        acts: &[Act::See(Look::Sides(&[
            (0, None, None, None),
            (5, None, None, None),
            (u64::MAX, None, None, None),
        ]))],
    },
];

#[test]
fn indexes_are_read_downwards(rt: HostRuntime) {
    go(&rt, rt.alloc(), &STORIES);
}
