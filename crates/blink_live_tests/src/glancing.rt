//! Looks at any key, and what passes tell each other.
ghost use Rattle.blink_live.specs.{IsPassOf};

use crate::same::same_for;
use crate::shared::Meeting::{Hears, Tells};
use crate::steps::Step::{self, Call, Glance};
use crate::steps::look;
use crate::story::Act::{Deal, DealWalks, LoseFirst, Meet, RefuseDeal, Run, Take};
use crate::story::{End, Story, play_all};
use crate::walks::Walks;
use crate::works::Work;
use blink_batch::{Answer, Op};
use blink_live::{Live, LiveError, Pass, PassError};
use std::process::Abort;

const TOLD: Story = Story {
    name: "tell hands over what was seen",
    over: (0, 0),
    room: (2, 0),
    acts: &[
        Deal(&[5], 1, 0),
        Deal(&[6], 1, 0),
        RefuseDeal(&[7, 5], 0, 0, LiveError::Taken(5)),
        Take(1, &[Call(Op::Find(5), Err(PassError::NotYours))]),
        Take(0, &[Call(Op::Insert(5, 50), Ok(Answer::Inserted))]),
        Meet(0, Tells),
        Take(1, &[Glance(5, Some(50))]),
        LoseFirst,
    ],
    end: End::Refused(LiveError::Missing),
};

// Nobody has the keys 7 and 8.
const WHAT_IS_KEPT: [Step; 3] = [Glance(5, Some(51)), Glance(7, Some(70)), Glance(8, None)];

const TOLD_ON: Story = Story {
    name: "tell is transitive",
    over: (6, 7),
    room: (2, 1),
    acts: &[
        // Of the passes the second is told last, and tells the third.
        Deal(&[5], 2, 1),
        Deal(&[], 0, 0),
        Deal(&[6], 0, 0),
        // Key 5 is inserted, deleted, and inserted with another pointer.
        Take(
            0,
            &[
                Call(Op::Insert(5, 50), Ok(Answer::Inserted)),
                Call(Op::Delete(5), Ok(Answer::Removed(50))),
                Glance(5, None),
                Call(Op::Insert(5, 51), Ok(Answer::Inserted)),
            ],
        ),
        Meet(0, Tells),
        Take(2, &WHAT_IS_KEPT),
        Meet(1, Hears),
        Take(1, &WHAT_IS_KEPT),
        Take(0, &WHAT_IS_KEPT),
    ],
    end: End::StaysOpen,
};

const NOT_TOLD: Story = Story {
    name: "a glance sees without being told",
    over: (0, 0),
    room: (1, 0),
    acts: &[
        Deal(&[5], 1, 0),
        Deal(&[], 0, 0),
        Take(1, &[Glance(5, None)]),
        Take(0, &[Call(Op::Insert(5, 50), Ok(Answer::Inserted))]),
        Take(1, &[Glance(5, Some(50))]),
    ],
    end: End::StaysOpen,
};

// Glances the keys 255 to 0 downwards, four times: once a key was there, all below it are, and so each time.
pub(crate) fn glance_downwards(rt: &impl Abort, live: &Live, pass: &mut Pass)
    requires { IsPassOf live.now pass.old }
    ensures { IsPassOf live.now pass.new }
{
    // The keys below this one are there.
    let mut there = 0;
    for _ in 0..4 {
        for key in (0..256).rev() {
            let seen = look(live, pass, key);
            if seen.is_some() && there <= key {
                there = key.wrapping_add(1);
            }
            let expected = if key < there { Some(key) } else { None };
            same_for(rt, &seen, &expected, &key);
        }
    }
}

const NEVER_UNSEEN: Story = Story {
    name: "a reader never unsees",
    over: (0, 0),
    room: (256, 0),
    acts: &[
        DealWalks(Walks::Ascending),
        Deal(&[], 0, 0),
        Run(Work::InsertOrGlance),
    ],
    end: End::StaysOpen,
};

const STORIES: [&Story; 4] = [&TOLD, &TOLD_ON, &NOT_TOLD, &NEVER_UNSEEN];

#[test]
fn passes_that_glance(rt: HostRuntime) {
    play_all(&rt, rt.alloc(), &STORIES);
}
