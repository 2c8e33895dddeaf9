//! Backward scans of ranges of keys.
ghost use Rattle.blink_live.specs.{IsPassOf};

use crate::indexes::Look::Every;
use crate::same::same;
use crate::scanning::{BEFORE, CHANGES, EDITS, Scan, are_as_expected};
use crate::shared::Shared;
use crate::story::Act::{Deal, DealWalks, Run, ScansBack, Take};
use crate::story::{End, Story, play_all};
use crate::walks::{Walks, every};
use crate::works::{Change, Work, change_each};
use blink_batch::Entry;
use blink_live::{Live, Pass};
use std::process::Abort;
use std::sync::Wait;

impl Shared {
    pub(crate) fn scan_each_back(&mut self, rt: &impl Abort, cases: &[Scan]) {
        for case in cases {
            self.scan_back(rt, case);
        }
    }

    // The first pass scans so.
    fn scan_back(&mut self, rt: &impl Abort, case: &Scan) {
        assert!(rt;
            !self.passes.is_empty() && case.places <= 20,
            "no pass, or too many places"
        );
        let mut into = [BEFORE; 20];
        let (lo, hi) = case.range;
        let scanned = self
            .live
            .scan_back(&mut self.passes[0], lo, hi, &mut into[..case.places]);
        are_as_expected(rt, &scanned, &into, case);
    }
}

const FOURTEEN_DOWN: &[(u64, u64)] = &[
    (14, 140),
    (13, 130),
    (12, 120),
    (11, 110),
    (10, 100),
    (9, 90),
    (8, 80),
    (7, 70),
    (6, 60),
    (5, 50),
    (4, 40),
    (3, 30),
    (2, 20),
    (1, 10),
];

// Of the keys 1 to 14, each with ten times the key, in leaves of at most 4 entries.
const OF_FOURTEEN: [Scan; 10] = [
    Scan {
        range: (0, u64::MAX),
        places: 20,
        entries: FOURTEEN_DOWN,
        next: None,
    },
    Scan {
        range: (4, 6),
        places: 20,
        entries: &[(6, 60), (5, 50), (4, 40)],
        next: None,
    },
    Scan {
        range: (14, 14),
        places: 1,
        entries: &[(14, 140)],
        next: None,
    },
    Scan {
        range: (15, u64::MAX),
        places: 20,
        entries: &[],
        next: None,
    },
    Scan {
        range: (0, 0),
        places: 1,
        entries: &[],
        next: None,
    },
    Scan {
        range: (9, 8),
        places: 0,
        entries: &[],
        next: None,
    },
    Scan {
        range: (2, 14),
        places: 5,
        entries: &[(14, 140), (13, 130), (12, 120), (11, 110), (10, 100)],
        next: Some(9),
    },
    Scan {
        range: (10, 14),
        places: 5,
        entries: &[(14, 140), (13, 130), (12, 120), (11, 110), (10, 100)],
        next: None,
    },
    Scan {
        range: (3, 9),
        places: 0,
        entries: &[],
        next: Some(9),
    },
    // The entry before a key.
    Scan {
        range: (0, 8),
        places: 1,
        entries: &[(8, 80)],
        next: Some(7),
    },
];

const ITS_RANGE: Story = Story {
    name: "a backward scan reports its range",
    over: (0, 14),
    room: (0, 0),
    acts: &[Deal(&[], 0, 0), ScansBack(&OF_FOURTEEN)],
    end: End::StaysOpen,
};

// Of the keys 1 to 3, 10 to 14 and the greatest. At least one leaf between has no entry.
const OF_CHANGED: [Scan; 6] = [
    Scan {
        range: (2, 11),
        places: 20,
        entries: &[(11, 110), (10, 100), (3, 30), (2, 22)],
        next: None,
    },
    Scan {
        range: (6, 10),
        places: 20,
        entries: &[(10, 100)],
        next: None,
    },
    Scan {
        range: (5, 9),
        places: 20,
        entries: &[],
        next: None,
    },
    Scan {
        range: (0, 9),
        places: 1,
        entries: &[(3, 30)],
        next: Some(2),
    },
    Scan {
        range: (14, u64::MAX),
        places: 2,
        entries: &[(u64::MAX, 1), (14, 140)],
        next: None,
    },
    Scan {
        range: (u64::MAX, u64::MAX),
        places: 1,
        entries: &[(u64::MAX, 1)],
        next: None,
    },
];

const EMPTY_LEAVES: Story = Story {
    name: "a backward scan passes empty leaves",
    over: (0, 14),
    room: (1, 7),
    acts: &[
        Deal(&[2, 4, 5, 6, 7, 8, 9, u64::MAX], 1, 7),
        Take(0, &CHANGES),
        ScansBack(&OF_CHANGED),
    ],
    end: End::StaysOpen,
};

// Of the keys 0 to 2 and 4 to 14. A slice may be shorter than the leaf, and a range may begin or end within it.
const OF_EDITED: [Scan; 5] = [
    Scan {
        range: (0, 5),
        places: 20,
        entries: &[(5, 50), (4, 40), (2, 22), (1, 10), (0, 5)],
        next: None,
    },
    Scan {
        range: (0, 4),
        places: 2,
        entries: &[(4, 40), (2, 22)],
        next: Some(1),
    },
    Scan {
        range: (1, 4),
        places: 3,
        entries: &[(4, 40), (2, 22), (1, 10)],
        next: None,
    },
    Scan {
        range: (0, 1),
        places: 20,
        entries: &[(1, 10), (0, 5)],
        next: None,
    },
    Scan {
        range: (3, 3),
        places: 20,
        entries: &[],
        next: None,
    },
];

const RECORDS: Story = Story {
    name: "a backward scan reports what records say",
    over: (0, 14),
    room: (1, 2),
    acts: &[
        Deal(&[0, 2, 3], 1, 2),
        Take(0, &EDITS),
        ScansBack(&OF_EDITED),
    ],
    end: End::StaysOpen,
};

// ---- backward scans while others change the tree

// Inserts the thread's keys, each with ten times the key. Then an odd thread deletes its keys, and an even one scans meanwhile.
pub(crate) fn change_or_scan_back<R: Wait + Abort>(
    rt: &R,
    live: &Live,
    pass: &mut Pass,
    thread: usize,
)
    requires { IsPassOf live.now pass.old }
    ensures { IsPassOf live.now pass.new }
{
    let walk = every(8, thread as u64, 64);
    change_each(rt, live, pass, &walk, Change::Insert);
    if thread % 2 == 1 {
        change_each(rt, live, pass, &walk, Change::Delete);
    } else {
        for _ in 0..200 {
            scan_all_back(rt, live, pass, thread as u64);
        }
    }
}

// Scans all keys, a hundred places at a time: the thread's own are all there, and each key comes once, with ten times the key.
fn scan_all_back(rt: &impl Abort, live: &Live, pass: &mut Pass, thread: u64)
    requires { IsPassOf live.now pass.old }
    ensures { IsPassOf live.now pass.new }
{
    let mut into = [BEFORE; 100];
    let mut from = u64::MAX;
    let mut own: u64 = 0;
    for _ in 0..6 {
        let scanned = live.scan_back(pass, 0, from, &mut into);
        own = own.wrapping_add(own_among(rt, &into[..scanned.filled], from, thread));
        match scanned.next {
            Some(next) => from = next,
            None => break,
        }
    }
    same(rt, &own, &64);
}

// How many of these are the thread's own. They descend from this key on.
fn own_among(rt: &impl Abort, entries: &[Entry], from: u64, thread: u64) -> u64 {
    let mut greatest = Some(from);
    let mut own: u64 = 0;
    for entry in entries {
        assert!(rt;
            entry.key < 512 && Some(entry.key) <= greatest,
            "{entry:?} after {greatest:?}"
        );
        same(rt, &entry.pointer, &entry.key.wrapping_mul(10));
        own = own.wrapping_add(u64::from(entry.key % 8 == thread));
        greatest = entry.key.checked_sub(1);
    }
    own
}

const MEANWHILE: Story = Story {
    name: "four threads scan back while four change",
    over: (0, 0),
    room: (512, 256),
    acts: &[
        DealWalks(Walks::AscendingEighths),
        Run(Work::ChangeOrScanBack),
    ],
    end: End::Closes(&[Every(2, 0, 256)]),
};

const STORIES: [&Story; 4] = [&ITS_RANGE, &EMPTY_LEAVES, &RECORDS, &MEANWHILE];

#[test]
fn passes_that_scan_back(rt: HostRuntime) {
    play_all(&rt, rt.alloc(), &STORIES);
}
