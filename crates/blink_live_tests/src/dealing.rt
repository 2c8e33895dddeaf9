//! Passes that a keeper deals.
use crate::story::Act::{Deal, RefuseDeal};
use crate::story::{End, Story, play_all};
use blink_live::LiveError;

const TAKEN: Story = Story {
    name: "a key is dealt once",
    over: (0, 0),
    room: (2, 0),
    acts: &[
        RefuseDeal(&[5, 5], 0, 0, LiveError::Taken(5)),
        Deal(&[5], 1, 0),
        RefuseDeal(&[7, 5], 1, 0, LiveError::Taken(5)),
        RefuseDeal(&[3, 4, 4, 3], 1, 0, LiveError::Taken(4)),
        // The keys of refused deals are free.
        Deal(&[7, 3], 1, 0),
    ],
    end: End::StaysOpen,
};

const TOO_MANY: Story = Story {
    name: "no more is dealt than was allowed",
    over: (0, 0),
    room: (2, 0),
    acts: &[
        RefuseDeal(&[5], 3, 0, LiveError::NoAllowance),
        RefuseDeal(&[5], 0, 1, LiveError::NoAllowance),
        Deal(&[5], 1, 0),
    ],
    end: End::StaysOpen,
};

const STORIES: [&Story; 2] = [&TAKEN, &TOO_MANY];

#[test]
fn passes_that_are_dealt(rt: HostRuntime) {
    play_all(&rt, rt.alloc(), &STORIES);
}
