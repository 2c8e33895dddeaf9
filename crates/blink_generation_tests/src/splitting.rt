//! Reads around leaves that are being split. An operation is given back only where it waits, and between two writes of a
//! split it waits for nobody, so this takes two threads. One inserts keys from the greatest down, which splits leaf by
//! leaf; the other reads. What it reads is known but for one number, the least of the new keys that it meets: all
//! greater ones are there.
ghost use Rattle.blink_generation.specs.{IsSessionOf};

use crate::beside::{Told, Work, in_two_threads};
use crate::same::{given, same, same_for};
use crate::shared::{Two, call};
use blink_batch::{Answer, Entry, Op};
use blink_generation::{Map, Session};
use std::alloc::Global;
use std::process::Abort;
use std::sync::Wait;

// Each eighth key below 2,000 is there at first, and no other.
const END: u64 = 2000;

const BEFORE: Entry = Entry {
    key: 77,
    pointer: 7,
};

// How far a reader has come: the least key that may come next, and the first new key that it has met.
#[derive(Clone, Copy)]
struct Met {
    least: u64,
    first: Option<u64>,
}

impl Met {
    fn nothing() -> Met {
        Met {
            least: 0,
            first: None,
        }
    }

    // The next entry is that of the next eighth key, or of a new key before it; behind a new key that of the next key.
    fn meets(&mut self, rt: &impl Abort, entry: &Entry) {
        let key = entry.key;
        same(rt, &entry.pointer, &key.wrapping_mul(10));
        match self.first {
            Some(first) => same_for(rt, &key, &self.least, &first),
            None => {
                let eighth = self.least.div_ceil(8).wrapping_mul(8);
                assert!(rt; self.least <= key && key <= eighth, "{key}, not {eighth}");
                if key < eighth {
                    self.first = Some(key);
                }
            }
        }
        self.least = key.wrapping_add(1);
    }

    fn meets_all(&mut self, rt: &impl Abort, entries: &[Entry]) {
        for entry in entries {
            self.meets(rt, entry);
        }
    }

    // All keys have come. Returns the first new key, or the end.
    fn at_end(self, rt: &impl Abort) -> u64 {
        match self.first {
            Some(first) => {
                same(rt, &self.least, &END);
                first
            }
            None => {
                same(rt, &self.least, &END.wrapping_sub(7));
                END
            }
        }
    }
}

// Inserts the new keys from the greatest down, each with ten times the key.
pub(crate) fn insert_downwards<R: Abort + Wait>(
    rt: &R,
    map: &Map,
    mut session: Session,
    told: &Told,
) -> bool
    requires { IsSessionOf map.now session }
{
    for place in 0..END {
        let key = END.wrapping_sub(1).wrapping_sub(place);
        if key % 8 != 0 {
            let op = Op::Insert(key, key.wrapping_mul(10));
            session = call(rt, map, session, op, Ok(Answer::Inserted));
        }
    }
    told.end();
    true
}

// Scans all keys, sixty places at a time, and returns the first new key, or the end.
fn scan_all(rt: &impl Abort, map: &Map, session: &mut Session) -> u64
    requires { IsSessionOf map.now session.old }
    ensures { IsSessionOf map.now session.new }
{
    let mut into = [BEFORE; 60];
    let mut met = Met::nothing();
    for _ in 0..40 {
        let scanned = map.scan(session, met.least, u64::MAX, &mut into);
        met.meets_all(rt, &into[..scanned.filled]);
        if scanned.next.is_none() {
            break;
        }
    }
    met.at_end(rt)
}

// Reads the seven entries from the new key on. It is there, and so is each greater key.
fn page_from(rt: &impl Abort, map: &Map, session: &mut Session, first: u64)
    requires { IsSessionOf map.now session.old }
    ensures { IsSessionOf map.now session.new }
{
    let found = map.find(session, first);
    same(rt, &found, &Some(first.wrapping_mul(10)));
    let mut into = [BEFORE; 7];
    let scanned = map.scan(session, first, u64::MAX, &mut into);
    let expected = END.wrapping_sub(first).min(7);
    same(rt, &(scanned.filled as u64), &expected);
    ascend_from(rt, &into[..scanned.filled], first);
}

// The keys ascend one by one from this one on, each with ten times the key.
fn ascend_from(rt: &impl Abort, entries: &[Entry], first: u64) {
    for (place, entry) in entries.iter().enumerate() {
        let key = first.wrapping_add(place as u64);
        let pointer = key.wrapping_mul(10);
        same(rt, entry, &Entry { key, pointer });
    }
}

// Takes a snapshot of all keys, if one succeeds, and returns the first new key, or the end.
fn snapshot_all(rt: &impl Abort, alloc: Global, map: &Map, session: &mut Session) -> Option<u64>
    requires { IsSessionOf map.now session.old }
    ensures { IsSessionOf map.now session.new }
{
    let entries = given(rt, map.snapshot(alloc, session, 0, u64::MAX, 20))?;
    let mut met = Met::nothing();
    met.meets_all(rt, &entries);
    Some(met.at_end(rt))
}

// Reads by scans, by pages and finds, and by snapshots, until the other thread has ended. What has been seen is seen
// again.
pub(crate) fn read_meanwhile(
    rt: &impl Abort,
    alloc: Global,
    map: &Map,
    mut session: Session,
    told: &Told,
) -> bool
    requires { IsSessionOf map.now session }
{
    let mut seen = END;
    for _ in 0..1_000_000u64 {
        let last = told.has_ended();
        let scanned = scan_all(rt, map, &mut session);
        assert!(rt; scanned <= seen, "{scanned} after {seen}");
        if scanned < END {
            page_from(rt, map, &mut session, scanned);
        }
        seen = scanned;
        if let Some(taken) = snapshot_all(rt, alloc, map, &mut session) {
            assert!(rt; taken <= seen, "{taken} after {seen}");
            seen = taken;
        }
        if last {
            same(rt, &seen, &1);
            return true;
        }
    }
    true
}

#[test]
fn reads_around_a_split_show_every_key_but_those_to_come(rt: HostRuntime) {
    for _ in 0..4 {
        let two = Two::open(&rt, rt.alloc(), (30_000, 100_000)).insert_every(&rt, 8, 250);
        let works = (Work::InsertDownwards, Work::ReadAround);
        in_two_threads(&rt, rt.alloc(), two, works, &Told::nothing());
    }
}
