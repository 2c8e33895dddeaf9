//! Replacements and exchanges with passes.
use crate::indexes::Look::Dump;
use crate::shared::Meeting::Tells;
use crate::steps::Step::{Call, Change, Glance};
use crate::story::Act::{Deal, Meet, Run, Take};
use crate::story::{End, Story, play_all};
use crate::works::Work;
use blink_batch::{Answer, Op};
use blink_live::PassError;

const ONE_REPLACEMENT: Story = Story {
    name: "a replacement uses a deletion",
    over: (0, 0),
    room: (1, 1),
    acts: &[
        Deal(&[5], 1, 1),
        Deal(&[], 0, 0),
        Take(
            0,
            &[
                Call(Op::Insert(5, 50), Ok(Answer::Inserted)),
                Call(Op::Replace(5, 51), Ok(Answer::Replaced(50))),
                Call(Op::Delete(5), Err(PassError::Spent)),
                Glance(5, Some(51)),
            ],
        ),
        Meet(0, Tells),
        Take(1, &[Glance(5, Some(51))]),
    ],
    end: End::StaysOpen,
};

const THREE_REPLACEMENTS: Story = Story {
    name: "each accepted call uses a deletion",
    over: (4, 5),
    room: (0, 3),
    acts: &[
        Deal(&[5, 6], 0, 3),
        Take(
            0,
            &[
                Call(Op::Replace(7, 70), Err(PassError::NotYours)),
                Call(Op::Replace(5, 50), Ok(Answer::Replaced(50))),
                Call(Op::Replace(6, 60), Ok(Answer::Absent)),
                Call(Op::Replace(5, 51), Ok(Answer::Replaced(50))),
                Call(Op::Replace(5, 52), Err(PassError::Spent)),
                Call(Op::Replace(7, 70), Err(PassError::NotYours)),
            ],
        ),
    ],
    end: End::Closes(&[Dump("0 1 - 18446744073709551615 - 5:51\n")]),
};

// Each exchange that is accepted uses a deletion of the pass, whatever it answers.
const FOUR_EXCHANGES: Story = Story {
    name: "an exchange answers by what it finds",
    over: (4, 5),
    room: (0, 4),
    acts: &[
        Deal(&[5, 6], 0, 4),
        Take(
            0,
            &[
                Call(Op::Exchange(7, 70, 71), Err(PassError::NotYours)),
                Call(Op::Exchange(5, 50, 51), Ok(Answer::Replaced(50))),
                Call(Op::Exchange(5, 50, 52), Ok(Answer::Exists(51))),
                Change(6, 60, 61, Ok(Answer::Absent)),
                Change(5, 51, 51, Ok(Answer::Replaced(51))),
                Call(Op::Exchange(5, 51, 52), Err(PassError::Spent)),
                Change(7, 70, 71, Err(PassError::NotYours)),
                Glance(5, Some(51)),
            ],
        ),
    ],
    end: End::Closes(&[Dump("0 1 - 18446744073709551615 - 5:51\n")]),
};

// The tree of four keys, each with eleven times the key.
const OTHERS: &str = "0 1 - 18446744073709551615 - 1:11 2:22 3:33 4:44\n";

const ONE_LEAF: Story = Story {
    name: "two threads replace in a leaf",
    over: (0, 4),
    room: (0, 4),
    acts: &[
        Deal(&[1, 3], 0, 2),
        Deal(&[2, 4], 0, 2),
        Run(Work::Steps(&[
            &[
                Call(Op::Replace(1, 11), Ok(Answer::Replaced(10))),
                Call(Op::Replace(3, 33), Ok(Answer::Replaced(30))),
            ],
            &[
                Call(Op::Replace(4, 44), Ok(Answer::Replaced(40))),
                Call(Op::Replace(2, 22), Ok(Answer::Replaced(20))),
            ],
        ])),
    ],
    end: End::Closes(&[Dump(OTHERS)]),
};

const STORIES: [&Story; 4] = [
    &ONE_REPLACEMENT,
    &THREE_REPLACEMENTS,
    &FOUR_EXCHANGES,
    &ONE_LEAF,
];

#[test]
fn passes_that_replace(rt: HostRuntime) {
    play_all(&rt, rt.alloc(), &STORIES);
}
