//! The index at rest.
mod backward;
mod changes;
mod looks;
mod packing;
mod schedules;
mod story;

use crate::fixtures::{given, same, same_for};
use blink_index::{Index, IndexError, OrDash, push_entries};
use std::alloc::Global;
use std::process::Abort;
use story::{Act, Look, Start, Story, go};

const EMPTY: &str = "0 1 - 18446744073709551615 -\n";

const FIVE: &str =
    "1 3 - 18446744073709551615 - 3:1 18446744073709551615:2\n0 1 - 3 2 1:10 2:20 3:30\n0 2 3 18446744073709551615 - 4:40 5:50\n";

const TWO: &str =
    "1 3 - 18446744073709551615 - 3:1 18446744073709551615:2\n0 1 - 3 2\n0 2 3 18446744073709551615 - 4:40 5:50\n";

const THREE: &str =
    "1 3 - 18446744073709551615 - 3:1 18446744073709551615:2\n0 1 - 3 2 2:21\n0 2 3 18446744073709551615 - 4:40 5:50\n";

const STORIES: [Story; 12] = [
    Story {
        name: "a new index is an empty leaf",
        start: Start::New(4),
        acts: &[Act::See(Look::Text(EMPTY))],
    },
    Story {
        name: "four entries fit one page",
        start: Start::Four,
        acts: &[Act::See(Look::PageCount(1))],
    },
    Story {
        name: "five entries take three pages",
        start: Start::Five,
        acts: &[Act::See(Look::PageCount(3)), Act::See(Look::Text(FIVE))],
    },
    Story {
        name: "an index of a tree has the entries of its leaves: five",
        start: Start::Five,
        acts: &[Act::See(Look::Len(5)), Act::See(Look::Copies(FIVE))],
    },
    Story {
        name: "an index of a tree has the entries of its leaves: two",
        start: Start::Two,
        acts: &[Act::See(Look::Len(2)), Act::See(Look::Copies(TWO))],
    },
    Story {
        name: "a scan gives the run of each leaf",
        start: Start::Five,
        acts: &[
            Act::See(Look::Runs(2, 4, (&[(2, 20), (3, 30)], &[(4, 40)]))),
            Act::See(Look::Runs(2, 3, (&[(2, 20), (3, 30)], &[]))),
            Act::See(Look::Runs(6, 9, (&[], &[]))),
            Act::See(Look::PageRuns(1, 4, (&[(1, 10), (2, 20), (3, 30)], &[(4, 40)]))),
            Act::See(Look::PageRuns(1, 2, (&[(1, 10), (2, 20)], &[]))),
        ],
    },
    Story {
        name: "an empty leaf has its line",
        start: Start::Two,
        acts: &[Act::See(Look::Text(TWO))],
    },
    Story {
        name: "an empty leaf has its line, and takes an entry",
        start: Start::Three,
        acts: &[Act::See(Look::Text(THREE))],
    },
    Story {
        name: "keys are found, all entries are given, and pages are the first ones",
        start: Start::Five,
        acts: &[
            Act::See(Look::Finds(&[
                (1, Some(10)),
                (3, Some(30)),
                (5, Some(50)),
                (0, None),
                (6, None),
            ])),
            Act::See(Look::Entries(5)),
            Act::See(Look::FirstEntries(&[
                (2, 2, 2),
                (3, 2, 2),
                (1, 5, 5),
                (1, 4, 4),
                (5, 3, 1),
                (1, 0, 0),
                (9, 3, 0),
            ])),
        ],
    },
    Story {
        name: "scans cross empty leaves",
        start: Start::Two,
        acts: &[Act::See(Look::Scans(&[
            (0, u64::MAX, &[(4, 40), (5, 50)]),
            (2, 4, &[(4, 40)]),
            (4, 4, &[(4, 40)]),
            (9, 1, &[]),
            (6, 9, &[]),
        ]))],
    },
    Story {
        name: "pages cross empty leaves",
        start: Start::Two,
        acts: &[Act::See(Look::Pages(&[
            (0, 1, &[(4, 40)]),
            (0, 2, &[(4, 40), (5, 50)]),
            (2, 3, &[(4, 40), (5, 50)]),
            (4, 1, &[(4, 40)]),
            (4, u64::MAX, &[(4, 40), (5, 50)]),
            (0, 0, &[]),
            (6, 1, &[]),
        ]))],
    },
    Story {
        name: "a page has the greatest key",
        start: Start::Greatest,
        acts: &[Act::See(Look::Pages(&[
            (0, u64::MAX, &[(u64::MAX, 2)]),
            (u64::MAX, u64::MAX, &[(u64::MAX, 2)]),
        ]))],
    },
];

#[test]
fn indexes_are_read(rt: HostRuntime) {
    go(&rt, rt.alloc(), &STORIES);
}

// Fans, and whether an index may have them.
const FANS: [(u8, bool); 6] = [
    (0, false),
    (3, false),
    (33, false),
    (255, false),
    (4, true),
    (32, true),
];

fn takes_fan(rt: &impl Abort, alloc: Global, fan: u8, expected: bool) {
    match Index::new(alloc, fan) {
        Ok(index) => same_for(
            rt,
            &(true, index.rest().store().fan()),
            &(expected, fan),
            &fan,
        ),
        Err(refusal) => same_for(rt, &(false, refusal), &(expected, IndexError::BadFan), &fan),
    }
}

#[test]
fn a_fan_is_from_4_to_32(rt: HostRuntime) {
    for &(fan, expected) in &FANS {
        takes_fan(&rt, rt.alloc(), fan, expected);
    }
}

#[test]
fn words_of_a_line(rt: HostRuntime) {
    let mut text = given(
        &rt,
        format!(in rt.alloc(); "{} {}", OrDash(Some(5)), OrDash(None)),
    );
    given(&rt, push_entries(&mut text, &[(3, 1), (9, 2)]));
    same(&rt, &text.as_str(), &"5 - 3:1 9:2");
}
