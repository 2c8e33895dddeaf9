//! Scans of ranges of keys.
ghost use Rattle.blink_live.specs.{IsPassOf};

use crate::indexes::Look::Every;
use crate::same::{same, same_for};
use crate::shared::Shared;
use crate::steps::Step::{self, Call};
use crate::story::Act::{Deal, DealWalks, Run, Scans, Take};
use crate::story::{End, Story, play_all};
use crate::walks::{Walks, every};
use crate::works::{Change, Work, change_each};
use blink_batch::{Answer, Entry, Op};
use blink_live::{Live, Pass, Scanned};
use std::process::Abort;
use std::sync::Wait;

// What a place of the slice has before a scan.
pub(crate) const BEFORE: Entry = Entry {
    key: 77,
    pointer: 7,
};

// A scan into so many places, the entries that it fills in, and the key from which it is to go on.
pub(crate) struct Scan {
    pub range: (u64, u64),
    pub places: usize,
    pub entries: &'static [(u64, u64)],
    pub next: Option<u64>,
}

impl Shared {
    pub(crate) fn scan_each(&mut self, rt: &impl Abort, cases: &[Scan]) {
        for case in cases {
            self.scan(rt, case);
        }
    }

    // The first pass scans so.
    fn scan(&mut self, rt: &impl Abort, case: &Scan) {
        assert!(rt;
            !self.passes.is_empty() && case.places <= 20,
            "no pass, or too many places"
        );
        let mut into = [BEFORE; 20];
        let (lo, hi) = case.range;
        let scanned = self
            .live
            .scan(&mut self.passes[0], lo, hi, &mut into[..case.places]);
        are_as_expected(rt, &scanned, &into, case);
    }
}

// The scan came as far as the case says, with its entries, and behind them stands what was there before.
pub(crate) fn are_as_expected(rt: &impl Abort, scanned: &Scanned, into: &[Entry], case: &Scan) {
    let expected = Scanned {
        filled: case.entries.len(),
        next: case.next,
    };
    same_for(rt, scanned, &expected, &case.range);
    for (place, entry) in into.iter().enumerate() {
        let (key, pointer) = *case.entries.get(place).unwrap_or(&(77, 7));
        same_for(rt, entry, &Entry { key, pointer }, &case.range);
    }
}

const FOURTEEN: &[(u64, u64)] = &[
    (1, 10),
    (2, 20),
    (3, 30),
    (4, 40),
    (5, 50),
    (6, 60),
    (7, 70),
    (8, 80),
    (9, 90),
    (10, 100),
    (11, 110),
    (12, 120),
    (13, 130),
    (14, 140),
];

// Of the keys 1 to 14, each with ten times the key, in leaves of at most 4 entries.
const OF_FOURTEEN: [Scan; 9] = [
    Scan {
        range: (0, u64::MAX),
        places: 20,
        entries: FOURTEEN,
        next: None,
    },
    Scan {
        range: (4, 6),
        places: 20,
        entries: &[(4, 40), (5, 50), (6, 60)],
        next: None,
    },
    Scan {
        range: (14, 14),
        places: 1,
        entries: &[(14, 140)],
        next: None,
    },
    Scan {
        range: (15, u64::MAX),
        places: 20,
        entries: &[],
        next: None,
    },
    Scan {
        range: (u64::MAX, u64::MAX),
        places: 1,
        entries: &[],
        next: None,
    },
    Scan {
        range: (9, 8),
        places: 0,
        entries: &[],
        next: None,
    },
    Scan {
        range: (2, 14),
        places: 5,
        entries: &[(2, 20), (3, 30), (4, 40), (5, 50), (6, 60)],
        next: Some(7),
    },
    Scan {
        range: (2, 6),
        places: 5,
        entries: &[(2, 20), (3, 30), (4, 40), (5, 50), (6, 60)],
        next: None,
    },
    Scan {
        range: (3, 9),
        places: 0,
        entries: &[],
        next: Some(3),
    },
];

const ITS_RANGE: Story = Story {
    name: "a scan reports its range",
    over: (0, 14),
    room: (0, 0),
    acts: &[Deal(&[], 0, 0), Scans(&OF_FOURTEEN)],
    end: End::StaysOpen,
};

pub(crate) const CHANGES: [Step; 8] = [
    Call(Op::Delete(4), Ok(Answer::Removed(40))),
    Call(Op::Delete(5), Ok(Answer::Removed(50))),
    Call(Op::Delete(6), Ok(Answer::Removed(60))),
    Call(Op::Delete(7), Ok(Answer::Removed(70))),
    Call(Op::Delete(8), Ok(Answer::Removed(80))),
    Call(Op::Delete(9), Ok(Answer::Removed(90))),
    Call(Op::Replace(2, 22), Ok(Answer::Replaced(20))),
    Call(Op::Insert(u64::MAX, 1), Ok(Answer::Inserted)),
];

// Of the keys 1 to 3, 10 to 14 and the greatest. At least one leaf between has no entry.
const OF_CHANGED: [Scan; 4] = [
    Scan {
        range: (2, 11),
        places: 20,
        entries: &[(2, 22), (3, 30), (10, 100), (11, 110)],
        next: None,
    },
    Scan {
        range: (6, 10),
        places: 20,
        entries: &[(10, 100)],
        next: None,
    },
    Scan {
        range: (5, 9),
        places: 20,
        entries: &[],
        next: None,
    },
    Scan {
        range: (14, u64::MAX),
        places: 2,
        entries: &[(14, 140), (u64::MAX, 1)],
        next: None,
    },
];

const EMPTY_LEAVES: Story = Story {
    name: "a scan passes empty leaves",
    over: (0, 14),
    room: (1, 7),
    acts: &[
        Deal(&[2, 4, 5, 6, 7, 8, 9, u64::MAX], 1, 7),
        Take(0, &CHANGES),
        Scans(&OF_CHANGED),
    ],
    end: End::StaysOpen,
};

// In one leaf a key gets another pointer, one is removed and one is added.
pub(crate) const EDITS: [Step; 3] = [
    Call(Op::Replace(2, 22), Ok(Answer::Replaced(20))),
    Call(Op::Delete(3), Ok(Answer::Removed(30))),
    Call(Op::Insert(0, 5), Ok(Answer::Inserted)),
];

// Of the keys 0 to 2 and 4 to 14. A slice may be shorter than the leaf, and a range may begin or end within it.
const OF_EDITED: [Scan; 5] = [
    Scan {
        range: (0, 5),
        places: 20,
        entries: &[(0, 5), (1, 10), (2, 22), (4, 40), (5, 50)],
        next: None,
    },
    Scan {
        range: (0, 5),
        places: 3,
        entries: &[(0, 5), (1, 10), (2, 22)],
        next: Some(4),
    },
    Scan {
        range: (0, 2),
        places: 3,
        entries: &[(0, 5), (1, 10), (2, 22)],
        next: None,
    },
    Scan {
        range: (1, 3),
        places: 20,
        entries: &[(1, 10), (2, 22)],
        next: None,
    },
    Scan {
        range: (3, 3),
        places: 20,
        entries: &[],
        next: None,
    },
];

const RECORDS: Story = Story {
    name: "a scan reports what records say",
    over: (0, 14),
    room: (1, 2),
    acts: &[Deal(&[0, 2, 3], 1, 2), Take(0, &EDITS), Scans(&OF_EDITED)],
    end: End::StaysOpen,
};

// ---- scans while others change the tree

// Inserts the thread's keys, each with ten times the key. Then an odd thread deletes its keys, and an even one scans meanwhile.
pub(crate) fn change_or_scan<R: Wait + Abort>(rt: &R, live: &Live, pass: &mut Pass, thread: usize)
    requires { IsPassOf live.now pass.old }
    ensures { IsPassOf live.now pass.new }
{
    let walk = every(8, thread as u64, 64);
    change_each(rt, live, pass, &walk, Change::Insert);
    if thread % 2 == 1 {
        change_each(rt, live, pass, &walk, Change::Delete);
    } else {
        for _ in 0..200 {
            scan_all(rt, live, pass, thread as u64);
        }
    }
}

// Scans all keys, a hundred places at a time: the thread's own are all there, and each key comes once, with ten times the key.
fn scan_all(rt: &impl Abort, live: &Live, pass: &mut Pass, thread: u64)
    requires { IsPassOf live.now pass.old }
    ensures { IsPassOf live.now pass.new }
{
    let mut into = [BEFORE; 100];
    let mut from = 0;
    let mut own: u64 = 0;
    for _ in 0..6 {
        let scanned = live.scan(pass, from, u64::MAX, &mut into);
        own = own.wrapping_add(own_among(rt, &into[..scanned.filled], from, thread));
        match scanned.next {
            Some(next) => from = next,
            None => break,
        }
    }
    same(rt, &own, &64);
}

// How many of these are the thread's own. They ascend from this key on.
fn own_among(rt: &impl Abort, entries: &[Entry], from: u64, thread: u64) -> u64 {
    let mut least = from;
    let mut own: u64 = 0;
    for entry in entries {
        assert!(rt;
            least <= entry.key && entry.key < 512,
            "{entry:?} after {least}"
        );
        same(rt, &entry.pointer, &entry.key.wrapping_mul(10));
        own = own.wrapping_add(u64::from(entry.key % 8 == thread));
        least = entry.key.wrapping_add(1);
    }
    own
}

const MEANWHILE: Story = Story {
    name: "four threads scan while four change",
    over: (0, 0),
    room: (512, 256),
    acts: &[DealWalks(Walks::AscendingEighths), Run(Work::ChangeOrScan)],
    end: End::Closes(&[Every(2, 0, 256)]),
};

const STORIES: [&Story; 4] = [&ITS_RANGE, &EMPTY_LEAVES, &RECORDS, &MEANWHILE];

#[test]
fn passes_that_scan(rt: HostRuntime) {
    play_all(&rt, rt.alloc(), &STORIES);
}
