//! Snapshots of ranges of keys, also while another session changes the map.
ghost use Rattle.blink_generation.specs.{IsSessionOf};

use crate::beside::{Told, Work, in_two_threads};
use crate::same::{given, same, same_for};
use crate::scanning::WITH_EMPTY_LEAVES;
use crate::shared::{Two, call};
use crate::story::Act::Snapshot;
use crate::story::{Story, play_all};
use blink_batch::{Answer, Entry, Op};
use blink_generation::{Map, Session};
use std::alloc::Global;
use std::process::Abort;
use std::sync::Wait;

// A range and its entries.
pub(crate) struct Taken {
    range: (u64, u64),
    entries: &'static [(u64, u64)],
}

impl Two {
    // The first session takes a snapshot of each range at the first try, since nobody else changes the map.
    pub(crate) fn snapshot_all(&mut self, rt: &impl Abort, alloc: Global, cases: &[Taken]) {
        for case in cases {
            self.snapshot(rt, alloc, case);
        }
    }

    fn snapshot(&mut self, rt: &impl Abort, alloc: Global, case: &Taken) {
        let (lo, hi) = case.range;
        are_entries(rt, &self.entries(rt, alloc, lo, hi), case);
    }

    // The entries of a range, in a snapshot by the first session.
    pub(crate) fn entries(
        &mut self,
        rt: &impl Abort,
        alloc: Global,
        lo: u64,
        hi: u64,
    ) -> Vec<Entry> {
        let Two { map, one, other: _ } = self;
        let found = given(rt, map.snapshot(alloc, one, lo, hi, 1));
        found.expect(rt, "no snapshot")
    }
}

// These are the entries of the case.
fn are_entries(rt: &impl Abort, entries: &[Entry], case: &Taken) {
    same_for(rt, &entries.len(), &case.entries.len(), &case.range);
    for (entry, &(key, pointer)) in entries.iter().zip(case.entries) {
        same_for(rt, entry, &Entry { key, pointer }, &case.range);
    }
}

const TAKEN: &[Taken] = &[
    Taken {
        range: (0, u64::MAX),
        entries: &[
            (1, 10),
            (2, 20),
            (3, 30),
            (10, 100),
            (11, 110),
            (12, 120),
            (13, 130),
            (14, 140),
            (u64::MAX, 1),
        ],
    },
    Taken {
        range: (2, 11),
        entries: &[(2, 20), (3, 30), (10, 100), (11, 110)],
    },
    Taken {
        range: (6, 10),
        entries: &[(10, 100)],
    },
    Taken {
        range: (5, 9),
        entries: &[],
    },
    Taken {
        range: (9, 8),
        entries: &[],
    },
    Taken {
        range: (u64::MAX, u64::MAX),
        entries: &[(u64::MAX, 1)],
    },
];

const RANGES: Story = Story {
    name: "a snapshot has its range",
    room: (2000, 4000),
    scenes: &[WITH_EMPTY_LEAVES, &[Snapshot(TAKEN)]],
};

#[test]
fn snapshots_of_ranges(rt: HostRuntime) {
    play_all(&rt, rt.alloc(), &[&RANGES]);
}

// ---- snapshots while another session changes the map

// Inserts the keys below 2,000 in ascending order, so that the map has a key only if it has each lesser one.
pub(crate) fn insert_ascending<R: Abort + Wait>(
    rt: &R,
    map: &Map,
    mut session: Session,
    told: &Told,
) -> bool
    requires { IsSessionOf map.now session }
{
    for key in 0..2000u64 {
        let op = Op::Insert(key, key.wrapping_mul(10));
        session = call(rt, map, session, op, Ok(Answer::Inserted));
    }
    told.end();
    true
}

// Takes snapshots of all keys until the other thread has ended, and counts them. Each has the keys from 0 to some key.
pub(crate) fn take_meanwhile(
    rt: &impl Abort,
    alloc: Global,
    map: &Map,
    mut session: Session,
    told: &Told,
) -> bool
    requires { IsSessionOf map.now session }
{
    for _ in 0..1_000_000u64 {
        let last = told.has_ended();
        take_one(rt, alloc, map, &mut session, told);
        if last {
            return true;
        }
    }
    true
}

// Takes a snapshot of all keys, if one succeeds.
fn take_one(rt: &impl Abort, alloc: Global, map: &Map, session: &mut Session, told: &Told)
    requires { IsSessionOf map.now session.old }
    ensures { IsSessionOf map.now session.new }
{
    let found = given(rt, map.snapshot(alloc, session, 0, u64::MAX, 100));
    if let Some(entries) = found {
        told.count_snapshot();
        ascend(rt, &entries);
    }
}

// The keys ascend from 0 on, each with ten times the key.
fn ascend(rt: &impl Abort, entries: &[Entry]) {
    for (place, entry) in entries.iter().enumerate() {
        let key = place as u64;
        let pointer = key.wrapping_mul(10);
        same(rt, entry, &Entry { key, pointer });
    }
}

#[test]
fn snapshots_show_no_key_without_the_lesser_ones(rt: HostRuntime) {
    let two = Two::open(&rt, rt.alloc(), (30_000, 100_000));
    let told = Told::nothing();
    let works = (Work::InsertAscending, Work::TakeSnapshots);
    in_two_threads(&rt, rt.alloc(), two, works, &told);
    assert!(&rt; told.snapshots() > 0);
}
