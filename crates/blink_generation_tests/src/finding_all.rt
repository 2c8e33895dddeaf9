//! Finds of several keys by one call.
use crate::same::same;
use crate::shared::Two;
use crate::shared::Who::One;
use crate::story::Act::{self, Call, FindAll, InsertEach, Tell, Turn};
use crate::story::{Story, play_all};
use blink_batch::{Answer, Op};
use std::process::Abort;

// The number of keys that one call looks up at most.
const MOST: usize = 16;

impl Two {
    // The first session looks up these keys by one call, which gives these answers.
    pub(crate) fn find_all(&mut self, rt: &impl Abort, keys: &[u64], expected: &[Option<u64>]) {
        assert!(rt; keys.len() <= MOST, "too many keys");
        let Two { map, one, other: _ } = self;
        let mut answers = [None; MOST];
        let answers = &mut answers[..keys.len()];
        map.find_all(one, keys, answers);
        same(rt, &&*answers, &expected);
    }
}

// The keys 1 to 14, each with ten times the key, without 2.
const FOURTEEN: &[Act] = &[
    InsertEach(1, 15, 10),
    Call(One, Op::Delete(2), Ok(Answer::Removed(20))),
];

// More keys than the descents of one group, some of them twice, and two of them absent.
const IN_ORDER: Story = Story {
    name: "answers come in the order of the keys",
    room: (2000, 4000),
    scenes: &[
        FOURTEEN,
        &[FindAll(
            &[9, 20, 1, 14, 3, 4, 9, 2, 7, 20, 14],
            &[
                Some(90),
                None,
                Some(10),
                Some(140),
                Some(30),
                Some(40),
                Some(90),
                None,
                Some(70),
                None,
                Some(140),
            ],
        )],
    ],
};

const NO_KEY: Story = Story {
    name: "no key has no answer",
    room: (2000, 4000),
    scenes: &[FOURTEEN, &[FindAll(&[], &[])]],
};

// What the first session has changed it tells the second, which looks the keys up in its place.
const TOLD: Story = Story {
    name: "the session finds what it was told",
    room: (2000, 4000),
    scenes: &[
        FOURTEEN,
        &[
            Call(One, Op::Delete(9), Ok(Answer::Removed(90))),
            Call(One, Op::Insert(20, 200), Ok(Answer::Inserted)),
            Call(One, Op::Replace(1, 11), Ok(Answer::Replaced(10))),
            Tell,
            Turn,
            FindAll(&[1, 9, 20, 8], &[Some(11), None, Some(200), Some(80)]),
        ],
    ],
};

const STORIES: [&Story; 3] = [&IN_ORDER, &NO_KEY, &TOLD];

#[test]
fn finds_of_several_keys(rt: HostRuntime) {
    play_all(&rt, rt.alloc(), &STORIES);
}
