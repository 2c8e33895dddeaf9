//! Finds with passes.
use crate::indexes::Look::Finds;
use crate::steps::Step::Call;
use crate::story::Act::{Deal, LoseFirst, Run, Take};
use crate::story::{End, Story, play_all};
use crate::works::Work;
use blink_batch::{Answer, Op};
use blink_live::{LiveError, PassError};

const OWN_KEYS_ALONE: Story = Story {
    name: "a pass finds its own keys alone",
    over: (0, 14),
    room: (0, 0),
    acts: &[
        Deal(&[14, 1, 20, 9], 0, 0),
        Take(
            0,
            &[
                Call(Op::Find(1), Ok(Answer::Found(10))),
                Call(Op::Find(9), Ok(Answer::Found(90))),
                Call(Op::Find(14), Ok(Answer::Found(140))),
                Call(Op::Find(20), Ok(Answer::Absent)),
                Call(Op::Find(2), Err(PassError::NotYours)),
            ],
        ),
    ],
    end: End::Closes(&[Finds(&[(9, Some(90)), (2, Some(20))])]),
};

const WITHOUT_ITS_PASS: Story = Story {
    name: "a table without its pass stays unclosed",
    over: (0, 0),
    room: (2, 0),
    acts: &[
        Deal(&[5], 1, 0),
        Take(
            0,
            &[
                Call(Op::Find(6), Err(PassError::NotYours)),
                Call(Op::Find(5), Ok(Answer::Absent)),
            ],
        ),
        LoseFirst,
    ],
    end: End::Refused(LiveError::Missing),
};

const TWO_FIND: Story = Story {
    name: "two threads find at once",
    over: (0, 14),
    room: (0, 0),
    acts: &[
        Deal(&[1, 2, 3], 0, 0),
        Deal(&[12, 13, 15], 0, 0),
        Run(Work::Steps(&[
            &[Call(Op::Find(3), Ok(Answer::Found(30)))],
            &[Call(Op::Find(15), Ok(Answer::Absent))],
        ])),
    ],
    end: End::StaysOpen,
};

const STORIES: [&Story; 3] = [&OWN_KEYS_ALONE, &WITHOUT_ITS_PASS, &TWO_FIND];

#[test]
fn passes_that_find(rt: HostRuntime) {
    play_all(&rt, rt.alloc(), &STORIES);
}
