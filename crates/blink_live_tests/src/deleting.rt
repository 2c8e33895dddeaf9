//! Deletions with passes.
use crate::indexes::Look::{Dump, PageCount, Scan};
use crate::same::{given, same};
use crate::steps::Step::{Call, Glance};
use crate::story::Act::{Deal, Run, Take};
use crate::story::{End, Story, play_all};
use crate::works::Work;
use blink_batch::{Answer, Op};
use blink_live::{HandError, PassError};
use std::alloc::Global;
use std::process::Abort;

const TWO_DELETIONS: Story = Story {
    name: "each accepted call uses a deletion",
    over: (0, 4),
    room: (0, 2),
    acts: &[
        Deal(&[1, 2], 0, 2),
        Take(
            0,
            &[
                Call(Op::Delete(3), Err(PassError::NotYours)),
                Call(Op::Delete(1), Ok(Answer::Removed(10))),
                Call(Op::Delete(1), Ok(Answer::Absent)),
                Call(Op::Delete(2), Err(PassError::Spent)),
                Call(Op::Delete(3), Err(PassError::NotYours)),
                Call(Op::Find(2), Ok(Answer::Found(20))),
            ],
        ),
    ],
    end: End::StaysOpen,
};

// Each deletion of an expected pointer that is accepted uses a deletion of the pass, whatever it answers.
const FOUR_EXACT_DELETIONS: Story = Story {
    name: "an exact deletion answers by what it finds",
    over: (4, 6),
    room: (0, 4),
    acts: &[
        Deal(&[5, 6, 7], 0, 4),
        Take(
            0,
            &[
                Call(Op::DeleteExact(8, 80), Err(PassError::NotYours)),
                Call(Op::DeleteExact(5, 51), Ok(Answer::Exists(50))),
                Glance(5, Some(50)),
                Call(Op::DeleteExact(5, 50), Ok(Answer::Removed(50))),
                Call(Op::DeleteExact(5, 50), Ok(Answer::Absent)),
                Call(Op::DeleteExact(7, 70), Ok(Answer::Absent)),
                Call(Op::DeleteExact(6, 60), Err(PassError::Spent)),
                Call(Op::DeleteExact(8, 80), Err(PassError::NotYours)),
                Glance(5, None),
            ],
        ),
    ],
    end: End::Closes(&[Dump("0 1 - 18446744073709551615 - 6:60\n")]),
};

// The tree of four keys without its entries.
const NONE: &str = "0 1 - 18446744073709551615 -\n";

const ONE_LEAF: Story = Story {
    name: "two threads empty a leaf",
    over: (0, 4),
    room: (0, 4),
    acts: &[
        Deal(&[1, 3], 0, 2),
        Deal(&[2, 4], 0, 2),
        Run(Work::Steps(&[
            &[
                Call(Op::Delete(1), Ok(Answer::Removed(10))),
                Call(Op::Delete(3), Ok(Answer::Removed(30))),
            ],
            &[
                Call(Op::Delete(2), Ok(Answer::Removed(20))),
                Call(Op::Delete(4), Ok(Answer::Removed(40))),
            ],
        ])),
    ],
    end: End::Closes(&[PageCount(1), Dump(NONE)]),
};

// The tree of fourteen keys without the entries of three of its leaves, its pages numbered level by level.
const SIX: &str = "\
2 8 - 18446744073709551615 - 9:6 18446744073709551615:7
1 6 - 9 7 3:1 6:2 9:3
1 7 9 18446744073709551615 - 12:4 18446744073709551615:5
0 1 - 3 2 1:10 2:20 3:30
0 2 3 6 3
0 3 6 9 4 7:70 8:80 9:90
0 4 9 12 5
0 5 12 18446744073709551615 -
";

// Three leaves lose all their entries, two of them to three threads at once, and stay where they are.
const THREE_LEAVES: Story = Story {
    name: "four threads empty leaves",
    over: (0, 14),
    room: (0, 8),
    acts: &[
        Deal(&[4, 10], 0, 2),
        Deal(&[5, 11], 0, 2),
        Deal(&[6, 12], 0, 2),
        Deal(&[13, 14], 0, 2),
        Run(Work::Steps(&[
            &[
                Call(Op::Delete(4), Ok(Answer::Removed(40))),
                Call(Op::Delete(10), Ok(Answer::Removed(100))),
            ],
            &[
                Call(Op::Delete(11), Ok(Answer::Removed(110))),
                Call(Op::Delete(5), Ok(Answer::Removed(50))),
            ],
            &[
                Call(Op::Delete(6), Ok(Answer::Removed(60))),
                Call(Op::Delete(12), Ok(Answer::Removed(120))),
            ],
            &[
                Call(Op::Delete(13), Ok(Answer::Removed(130))),
                Call(Op::Delete(14), Ok(Answer::Removed(140))),
            ],
        ])),
    ],
    end: End::Closes(&[Dump(SIX), Scan(3, 7, &[3, 7])]),
};

fn assert_refusal(rt: &impl Abort, alloc: Global, error: PassError, code: u8, text: &str) {
    same(rt, &error.code(), &code);
    let shown = given(rt, format!(in alloc; "{error}"));
    same(rt, &shown.as_str(), &text);
}

#[test]
fn refusals_have_numbers_and_texts(rt: HostRuntime) {
    let alloc = rt.alloc();
    assert_refusal(&rt, alloc, PassError::NotYours, 54, "not yours");
    assert_refusal(&rt, alloc, PassError::Spent, 55, "spent");
    same(&rt, &HandError::NotYours(7).code(), &58);
    same(&rt, &HandError::OutOfMemory.code(), &41);
}

const STORIES: [&Story; 4] = [
    &TWO_DELETIONS,
    &FOUR_EXACT_DELETIONS,
    &ONE_LEAF,
    &THREE_LEAVES,
];

#[test]
fn passes_that_delete(rt: HostRuntime) {
    play_all(&rt, rt.alloc(), &STORIES);
}
