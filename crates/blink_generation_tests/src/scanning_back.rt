//! Backward scans of ranges of keys.
ghost use Rattle.blink_generation.specs.{IsSessionOf};

use crate::beside::{Told, Work, in_two_threads};
use crate::same::same;
use crate::scanning::{BEFORE, Scan, WITH_EMPTY_LEAVES, are_as_expected};
use crate::shared::Two;
use crate::shared::Who::One;
use crate::story::Act::{Call, ScanBack, Tell, Turn};
use crate::story::{Story, play_all};
use blink_batch::{Answer, Entry, Op};
use blink_generation::{Map, Session};
use std::process::Abort;

impl Two {
    // The first session scans these ranges backwards.
    pub(crate) fn scan_all_back(&mut self, rt: &impl Abort, cases: &[Scan]) {
        for case in cases {
            self.scan_back(rt, case);
        }
    }

    fn scan_back(&mut self, rt: &impl Abort, case: &Scan) {
        assert!(rt; case.places <= 20, "too many places");
        let Two { map, one, other: _ } = self;
        let mut into = [BEFORE; 20];
        let (lo, hi) = case.range;
        let scanned = map.scan_back(one, lo, hi, &mut into[..case.places]);
        are_as_expected(rt, &scanned, &into, case);
    }
}

const SCANS: &[Scan] = &[
    Scan {
        range: (0, u64::MAX),
        places: 20,
        entries: &[
            (u64::MAX, 1),
            (14, 140),
            (13, 130),
            (12, 120),
            (11, 110),
            (10, 100),
            (3, 30),
            (2, 20),
            (1, 10),
        ],
        next: None,
    },
    Scan {
        range: (2, 11),
        places: 20,
        entries: &[(11, 110), (10, 100), (3, 30), (2, 20)],
        next: None,
    },
    Scan {
        range: (6, 10),
        places: 20,
        entries: &[(10, 100)],
        next: None,
    },
    Scan {
        range: (5, 9),
        places: 20,
        entries: &[],
        next: None,
    },
    Scan {
        range: (9, 8),
        places: 20,
        entries: &[],
        next: None,
    },
    Scan {
        range: (0, 9),
        places: 1,
        entries: &[(3, 30)],
        next: Some(2),
    },
    Scan {
        range: (10, 14),
        places: 3,
        entries: &[(14, 140), (13, 130), (12, 120)],
        next: Some(11),
    },
    Scan {
        range: (0, 13),
        places: 0,
        entries: &[],
        next: Some(13),
    },
    Scan {
        range: (u64::MAX, u64::MAX),
        places: 1,
        entries: &[(u64::MAX, 1)],
        next: None,
    },
    Scan {
        range: (0, 0),
        places: 1,
        entries: &[],
        next: None,
    },
];

const RANGES: Story = Story {
    name: "a backward scan reports its range",
    room: (2000, 4000),
    scenes: &[WITH_EMPTY_LEAVES, &[ScanBack(SCANS)]],
};

const TOLD: &[Scan] = &[Scan {
    range: (2, 12),
    places: 20,
    entries: &[(12, 120), (10, 100), (5, 55), (2, 22)],
    next: None,
}];

// What the first session has changed it tells the second, which scans in its place.
const TOLD_RANGE: Story = Story {
    name: "a backward scan shows what the session was told",
    room: (2000, 4000),
    scenes: &[
        WITH_EMPTY_LEAVES,
        &[
            Call(One, Op::Replace(2, 22), Ok(Answer::Replaced(20))),
            Call(One, Op::Delete(3), Ok(Answer::Removed(30))),
            Call(One, Op::Insert(5, 55), Ok(Answer::Inserted)),
            Call(One, Op::Delete(11), Ok(Answer::Removed(110))),
            Tell,
            Turn,
            ScanBack(TOLD),
        ],
    ],
};

const STORIES: [&Story; 2] = [&RANGES, &TOLD_RANGE];

#[test]
fn backward_scans_of_ranges(rt: HostRuntime) {
    play_all(&rt, rt.alloc(), &STORIES);
}

// ---- a backward scan while another session changes the map

// Scans all keys, again and again, until the other thread has ended.
pub(crate) fn scan_back_meanwhile(
    rt: &impl Abort,
    map: &Map,
    mut session: Session,
    told: &Told,
) -> bool
    requires { IsSessionOf map.now session }
{
    for _ in 0..1_000_000u64 {
        scan_even_back(rt, map, &mut session);
        if told.has_ended() {
            return true;
        }
    }
    true
}

// Scans all keys, sixty places at a time: the even ones are all there, and each key comes once, with ten times the key.
fn scan_even_back(rt: &impl Abort, map: &Map, session: &mut Session)
    requires { IsSessionOf map.now session.old }
    ensures { IsSessionOf map.now session.new }
{
    let mut into = [BEFORE; 60];
    let mut from = u64::MAX;
    let mut even: u64 = 0;
    for _ in 0..35 {
        let scanned = map.scan_back(session, 0, from, &mut into);
        even = even.wrapping_add(even_among(rt, &into[..scanned.filled], from));
        match scanned.next {
            Some(next) => from = next,
            None => break,
        }
    }
    same(rt, &even, &1000);
}

// How many of these have an even key. They descend from this key on.
fn even_among(rt: &impl Abort, entries: &[Entry], from: u64) -> u64 {
    let mut greatest = Some(from);
    let mut even: u64 = 0;
    for entry in entries {
        assert!(rt;
            entry.key < 2000 && Some(entry.key) <= greatest,
            "{entry:?} after {greatest:?}"
        );
        same(rt, &entry.pointer, &entry.key.wrapping_mul(10));
        even = even.wrapping_add(u64::from(entry.key % 2 == 0));
        greatest = entry.key.checked_sub(1);
    }
    even
}

#[test]
fn one_session_scans_back_while_another_changes(rt: HostRuntime) {
    let two = Two::open(&rt, rt.alloc(), (30_000, 100_000)).insert_every(&rt, 2, 1000);
    let works = (Work::ChangeOdd, Work::ScanEvenBack);
    in_two_threads(&rt, rt.alloc(), two, works, &Told::nothing());
}
