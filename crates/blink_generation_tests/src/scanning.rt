//! Scans of ranges of keys.
ghost use Rattle.blink_generation.specs.{IsSessionOf};

use crate::beside::{Told, Work, in_two_threads};
use crate::same::{same, same_for};
use crate::shared::Who::One;
use crate::shared::{Two, call};
use crate::story::Act::{self, Call, DeleteEach, InsertEach, Scan as Scans, Tell, Turn};
use crate::story::{Story, play_all};
use blink_batch::{Answer, Entry, Op};
use blink_generation::{Map, Scanned, Session};
use std::process::Abort;
use std::sync::Wait;

// What a place of the slice has before a scan.
pub(crate) const BEFORE: Entry = Entry {
    key: 77,
    pointer: 7,
};

// A scan into so many places, the entries that it fills in, and the key from which it is to go on.
pub(crate) struct Scan {
    pub range: (u64, u64),
    pub places: usize,
    pub entries: &'static [(u64, u64)],
    pub next: Option<u64>,
}

impl Two {
    // The first session scans these ranges.
    pub(crate) fn scan_all(&mut self, rt: &impl Abort, cases: &[Scan]) {
        for case in cases {
            self.scan(rt, case);
        }
    }

    fn scan(&mut self, rt: &impl Abort, case: &Scan) {
        assert!(rt; case.places <= 20, "too many places");
        let Two { map, one, other: _ } = self;
        let mut into = [BEFORE; 20];
        let (lo, hi) = case.range;
        let scanned = map.scan(one, lo, hi, &mut into[..case.places]);
        are_as_expected(rt, &scanned, &into, case);
    }
}

// The scan came as far as the case says, with its entries, and behind them stands what was there before.
pub(crate) fn are_as_expected(rt: &impl Abort, scanned: &Scanned, into: &[Entry], case: &Scan) {
    let expected = Scanned {
        filled: case.entries.len(),
        next: case.next,
    };
    same_for(rt, scanned, &expected, &case.range);
    for (place, entry) in into.iter().enumerate() {
        let (key, pointer) = *case.entries.get(place).unwrap_or(&(77, 7));
        same_for(rt, entry, &Entry { key, pointer }, &case.range);
    }
}

// The keys 1 to 3, 10 to 14 and the greatest, each of the first ones with ten times the key, in leaves of at most 4
// entries. At least one leaf between has no entry.
pub(crate) const WITH_EMPTY_LEAVES: &[Act] = &[
    InsertEach(1, 15, 10),
    DeleteEach(4, 10, 10),
    Call(One, Op::Insert(u64::MAX, 1), Ok(Answer::Inserted)),
];

const SCANS: &[Scan] = &[
    Scan {
        range: (0, u64::MAX),
        places: 20,
        entries: &[
            (1, 10),
            (2, 20),
            (3, 30),
            (10, 100),
            (11, 110),
            (12, 120),
            (13, 130),
            (14, 140),
            (u64::MAX, 1),
        ],
        next: None,
    },
    Scan {
        range: (2, 11),
        places: 20,
        entries: &[(2, 20), (3, 30), (10, 100), (11, 110)],
        next: None,
    },
    Scan {
        range: (6, 10),
        places: 20,
        entries: &[(10, 100)],
        next: None,
    },
    Scan {
        range: (5, 9),
        places: 20,
        entries: &[],
        next: None,
    },
    Scan {
        range: (9, 8),
        places: 20,
        entries: &[],
        next: None,
    },
    Scan {
        range: (14, u64::MAX),
        places: 2,
        entries: &[(14, 140), (u64::MAX, 1)],
        next: None,
    },
    Scan {
        range: (10, u64::MAX),
        places: 3,
        entries: &[(10, 100), (11, 110), (12, 120)],
        next: Some(13),
    },
    Scan {
        range: (13, u64::MAX),
        places: 0,
        entries: &[],
        next: Some(13),
    },
    Scan {
        range: (u64::MAX, u64::MAX),
        places: 1,
        entries: &[(u64::MAX, 1)],
        next: None,
    },
];

const RANGES: Story = Story {
    name: "a scan reports its range",
    room: (2000, 4000),
    scenes: &[WITH_EMPTY_LEAVES, &[Scans(SCANS)]],
};

const TOLD: &[Scan] = &[Scan {
    range: (2, 12),
    places: 20,
    entries: &[(2, 22), (5, 55), (10, 100), (12, 120)],
    next: None,
}];

// What the first session has changed it tells the second, which scans in its place.
const TOLD_RANGE: Story = Story {
    name: "a scan shows what the session was told",
    room: (2000, 4000),
    scenes: &[
        WITH_EMPTY_LEAVES,
        &[
            Call(One, Op::Replace(2, 22), Ok(Answer::Replaced(20))),
            Call(One, Op::Delete(3), Ok(Answer::Removed(30))),
            Call(One, Op::Insert(5, 55), Ok(Answer::Inserted)),
            Call(One, Op::Delete(11), Ok(Answer::Removed(110))),
            Tell,
            Turn,
            Scans(TOLD),
        ],
    ],
};

const STORIES: [&Story; 2] = [&RANGES, &TOLD_RANGE];

#[test]
fn scans_of_ranges(rt: HostRuntime) {
    play_all(&rt, rt.alloc(), &STORIES);
}

// ---- a scan while another session changes the map

// Inserts the odd keys below 2,000, each with ten times the key.
fn insert_odd<R: Abort + Wait>(rt: &R, map: &Map, mut session: Session) -> Session
    requires { IsSessionOf map.now session }
    ensures { IsSessionOf map.now result }
{
    for place in 0..1000u64 {
        let key = place.wrapping_mul(2).wrapping_add(1);
        let op = Op::Insert(key, key.wrapping_mul(10));
        session = call(rt, map, session, op, Ok(Answer::Inserted));
    }
    session
}

// Deletes them again.
fn delete_odd<R: Abort + Wait>(rt: &R, map: &Map, mut session: Session) -> Session
    requires { IsSessionOf map.now session }
    ensures { IsSessionOf map.now result }
{
    for place in 0..1000u64 {
        let key = place.wrapping_mul(2).wrapping_add(1);
        let removed = Answer::Removed(key.wrapping_mul(10));
        session = call(rt, map, session, Op::Delete(key), Ok(removed));
    }
    session
}

pub(crate) fn change_odd<R: Abort + Wait>(rt: &R, map: &Map, session: Session, told: &Told) -> bool
    requires { IsSessionOf map.now session }
{
    let session = insert_odd(rt, map, session);
    let _session = delete_odd(rt, map, session);
    told.end();
    true
}

// Scans all keys, again and again, until the other thread has ended.
pub(crate) fn scan_meanwhile(rt: &impl Abort, map: &Map, mut session: Session, told: &Told) -> bool
    requires { IsSessionOf map.now session }
{
    for _ in 0..1_000_000u64 {
        scan_even(rt, map, &mut session);
        if told.has_ended() {
            return true;
        }
    }
    true
}

// Scans all keys, sixty places at a time: the even ones are all there, and each key comes once, with ten times the key.
fn scan_even(rt: &impl Abort, map: &Map, session: &mut Session)
    requires { IsSessionOf map.now session.old }
    ensures { IsSessionOf map.now session.new }
{
    let mut into = [BEFORE; 60];
    let mut from = 0;
    let mut even: u64 = 0;
    for _ in 0..35 {
        let scanned = map.scan(session, from, u64::MAX, &mut into);
        even = even.wrapping_add(even_among(rt, &into[..scanned.filled], from));
        match scanned.next {
            Some(next) => from = next,
            None => break,
        }
    }
    same(rt, &even, &1000);
}

// How many of these have an even key. They ascend from this key on.
fn even_among(rt: &impl Abort, entries: &[Entry], from: u64) -> u64 {
    let mut least = from;
    let mut even: u64 = 0;
    for entry in entries {
        assert!(rt;
            least <= entry.key && entry.key < 2000,
            "{entry:?} after {least}"
        );
        same(rt, &entry.pointer, &entry.key.wrapping_mul(10));
        even = even.wrapping_add(u64::from(entry.key % 2 == 0));
        least = entry.key.wrapping_add(1);
    }
    even
}

impl Two {
    // The first session inserts every so-manyeth key, so many of them, each with ten times the key.
    pub(crate) fn insert_every(self, rt: &impl Abort, step: u64, count: u64) -> Two {
        let mut two = self;
        for place in 0..count {
            let key = place.wrapping_mul(step);
            let op = Op::Insert(key, key.wrapping_mul(10));
            two = two.call(rt, One, op, Ok(Answer::Inserted));
        }
        two
    }
}

#[test]
fn one_session_scans_while_another_changes(rt: HostRuntime) {
    let two = Two::open(&rt, rt.alloc(), (30_000, 100_000)).insert_every(&rt, 2, 1000);
    let works = (Work::ChangeOdd, Work::ScanEven);
    in_two_threads(&rt, rt.alloc(), two, works, &Told::nothing());
}
