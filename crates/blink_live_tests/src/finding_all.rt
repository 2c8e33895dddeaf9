//! Finds of several keys by one call.
use crate::same::{given, same};
use crate::shared::Shared;
use crate::steps::Step::{self, Call};
use crate::story::Act::{Deal, FindsAll, Take};
use crate::story::{End, Story, play_all};
use blink_batch::{Answer, Op};
use blink_live::PassError;
use std::process::Abort;

const TEN: [u64; 10] = [14, 1, 20, 9, 3, 4, 5, 6, 7, 8];

// A call, what stands in the list of its answers before, what it gives, and what stands there then.
#[derive(Clone, Copy)]
pub(crate) struct FindAll {
    keys: &'static [u64],
    before: &'static [Option<u64>],
    given: Result<(), PassError>,
    answers: &'static [Option<u64>],
}

impl Shared {
    // The first pass finds so.
    pub(crate) fn find_all(&mut self, rt: &impl Abort, case: &FindAll) {
        assert!(rt; !self.passes.is_empty(), "no pass");
        let mut answers = given(rt, case.before.to_vec(self.alloc));
        assert!(rt;
            answers.len() == case.keys.len(),
            "not an answer for each key"
        );
        let found = self
            .live
            .find_all(&mut self.passes[0], case.keys, &mut answers);
        same(rt, &found, &case.given);
        same(rt, &answers.as_slice(), &case.answers);
    }
}

// More keys than a scout goes down for at once, some of them twice, and one of them absent.
const IN_ORDER: FindAll = FindAll {
    keys: &[9, 20, 1, 14, 3, 4, 9, 8, 7, 20, 14],
    before: &[None; 11],
    given: Ok(()),
    answers: &[
        Some(90),
        None,
        Some(10),
        Some(140),
        Some(30),
        Some(40),
        Some(90),
        Some(80),
        Some(70),
        None,
        Some(140),
    ],
};

const ITS_ORDER: Story = Story {
    name: "find all answers in the order of the keys",
    over: (0, 14),
    room: (1, 1),
    acts: &[Deal(&TEN, 1, 1), FindsAll(IN_ORDER)],
    end: End::StaysOpen,
};

const CHANGES: [Step; 2] = [
    Call(Op::Insert(20, 200), Ok(Answer::Inserted)),
    Call(Op::Delete(9), Ok(Answer::Removed(90))),
];

const CHANGED: FindAll = FindAll {
    keys: &[9, 20, 8],
    before: &[None; 3],
    given: Ok(()),
    answers: &[None, Some(200), Some(80)],
};

const OWN_CHANGES: Story = Story {
    name: "find all shows the changes of its pass",
    over: (0, 14),
    room: (1, 1),
    acts: &[Deal(&TEN, 1, 1), Take(0, &CHANGES), FindsAll(CHANGED)],
    end: End::StaysOpen,
};

const ANOTHERS: FindAll = FindAll {
    keys: &[9, 20, 2],
    before: &[Some(1), Some(2), Some(3)],
    given: Err(PassError::NotYours),
    answers: &[Some(1), Some(2), Some(3)],
};

const NOT_ITS_OWN: Story = Story {
    name: "find all of anothers key answers none",
    over: (0, 14),
    room: (1, 1),
    acts: &[Deal(&TEN, 1, 1), FindsAll(ANOTHERS)],
    end: End::StaysOpen,
};

const STORIES: [&Story; 3] = [&ITS_ORDER, &OWN_CHANGES, &NOT_ITS_OWN];

#[test]
fn passes_that_find_all(rt: HostRuntime) {
    play_all(&rt, rt.alloc(), &STORIES);
}
