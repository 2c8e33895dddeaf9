//! Snapshots of ranges of keys.

use crate::same::same_for;
use crate::shared::Shared;
use crate::steps::Step::{self, Call};
use crate::story::Act::{Deal, NoSnapshot, Snapshots, Take};
use crate::story::{End, Story, play_all};
use blink_batch::{Answer, Entry, Op};
use std::process::Abort;

// A range and its entries.
pub(crate) struct Taken {
    pub range: (u64, u64),
    pub entries: &'static [(u64, u64)],
}

impl Shared {
    pub(crate) fn snapshot_each(&mut self, rt: &impl Abort, cases: &[Taken]) {
        for case in cases {
            self.snapshot(rt, case);
        }
    }

    // The first pass takes a snapshot at the first try, since nobody else changes the tree.
    fn snapshot(&mut self, rt: &impl Abort, case: &Taken) {
        assert!(rt; !self.passes.is_empty(), "no pass");
        let (lo, hi) = case.range;
        let Ok(Some(entries)) = self
            .live
            .snapshot(self.alloc, &mut self.passes[0], lo, hi, 1)
        else {
            panic!(rt; "no snapshot of {:?}", case.range)
        };
        same_for(rt, &entries.len(), &case.entries.len(), &case.range);
        for (place, entry) in entries.iter().enumerate() {
            let (key, pointer) = *case.entries.get(place).unwrap_or(&(0, 0));
            same_for(rt, entry, &Entry { key, pointer }, &case.range);
        }
    }

    // The first pass takes no snapshot without a try.
    pub(crate) fn has_no_snapshot(&mut self, rt: &impl Abort) {
        assert!(rt; !self.passes.is_empty(), "no pass");
        let Ok(None) = self.live.snapshot(self.alloc, &mut self.passes[0], 0, 9, 0) else {
            panic!(rt; "a snapshot without a try")
        };
    }
}

// Of the keys 1 to 14, each with ten times the key, in leaves of at most 4 entries.
const OF_FOURTEEN: [Taken; 6] = [
    Taken {
        range: (0, u64::MAX),
        entries: &[
            (1, 10),
            (2, 20),
            (3, 30),
            (4, 40),
            (5, 50),
            (6, 60),
            (7, 70),
            (8, 80),
            (9, 90),
            (10, 100),
            (11, 110),
            (12, 120),
            (13, 130),
            (14, 140),
        ],
    },
    Taken {
        range: (4, 6),
        entries: &[(4, 40), (5, 50), (6, 60)],
    },
    Taken {
        range: (14, 14),
        entries: &[(14, 140)],
    },
    Taken {
        range: (15, u64::MAX),
        entries: &[],
    },
    Taken {
        range: (u64::MAX, u64::MAX),
        entries: &[],
    },
    Taken {
        range: (9, 8),
        entries: &[],
    },
];

const ITS_RANGE: Story = Story {
    name: "a snapshot has its range",
    over: (0, 14),
    room: (0, 0),
    acts: &[Deal(&[], 0, 0), Snapshots(&OF_FOURTEEN)],
    end: End::StaysOpen,
};

const NO_TRY: Story = Story {
    name: "no try takes no snapshot",
    over: (0, 14),
    room: (0, 0),
    acts: &[Deal(&[], 0, 0), NoSnapshot],
    end: End::StaysOpen,
};

const CHANGES: [Step; 8] = [
    Call(Op::Delete(4), Ok(Answer::Removed(40))),
    Call(Op::Delete(5), Ok(Answer::Removed(50))),
    Call(Op::Delete(6), Ok(Answer::Removed(60))),
    Call(Op::Delete(7), Ok(Answer::Removed(70))),
    Call(Op::Delete(8), Ok(Answer::Removed(80))),
    Call(Op::Delete(9), Ok(Answer::Removed(90))),
    Call(Op::Replace(2, 22), Ok(Answer::Replaced(20))),
    Call(Op::Insert(u64::MAX, 1), Ok(Answer::Inserted)),
];

// Of the keys 1 to 3, 10 to 14 and the greatest. At least one leaf between has no entry.
const OF_CHANGED: [Taken; 4] = [
    Taken {
        range: (2, 11),
        entries: &[(2, 22), (3, 30), (10, 100), (11, 110)],
    },
    Taken {
        range: (6, 10),
        entries: &[(10, 100)],
    },
    Taken {
        range: (5, 9),
        entries: &[],
    },
    Taken {
        range: (14, u64::MAX),
        entries: &[(14, 140), (u64::MAX, 1)],
    },
];

const EMPTY_LEAVES: Story = Story {
    name: "a snapshot passes empty leaves",
    over: (0, 14),
    room: (1, 7),
    acts: &[
        Deal(&[2, 4, 5, 6, 7, 8, 9, u64::MAX], 1, 7),
        Take(0, &CHANGES),
        Snapshots(&OF_CHANGED),
    ],
    end: End::StaysOpen,
};

const STORIES: [&Story; 3] = [&ITS_RANGE, &NO_TRY, &EMPTY_LEAVES];

#[test]
fn passes_that_take_snapshots(rt: HostRuntime) {
    play_all(&rt, rt.alloc(), &STORIES);
}
