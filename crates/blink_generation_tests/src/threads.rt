//! Threads, each with a session of one map.
ghost use Rattle.blink_generation.specs.{IsSessionOf};

use crate::beside::{Told, Work, run_two};
use crate::same::{given, same};
use crate::shared::{apply, try_apply};
use blink_batch::{Answer, Op};
use blink_generation::{Full, Map, Room, Session};
use blink_index::Index;
use std::alloc::Global;
use std::process::Abort;
use std::sync::Wait;
use std::sync::atomic::{AtomicU64, Ordering};

// The keys that all threads change, and how many operations each thread does.
const KEYS: u64 = 61;

const TURNS: u64 = 30_000;

// How many operations were answered so, of all threads.
#[derive(Drop)]
pub(crate) struct Counts {
    inserted: AtomicU64,
    removed: AtomicU64,
    full: AtomicU64,
}

impl Counts {
    pub(crate) fn new() -> Counts {
        Counts {
            inserted: AtomicU64::new(0),
            removed: AtomicU64::new(0),
            full: AtomicU64::new(0),
        }
    }

    fn count(&self, answer: Result<Answer, Full>) {
        match answer {
            Ok(Answer::Inserted) => {
                self.inserted.fetch_add(1, Ordering::SeqCst);
            }
            Ok(Answer::Removed(_)) => {
                self.removed.fetch_add(1, Ordering::SeqCst);
            }
            Ok(_) => {}
            Err(Full) => {
                self.full.fetch_add(1, Ordering::SeqCst);
            }
        }
    }
}

// Each key was inserted once more than it was removed, if the map has it, and else as often.
fn balance(rt: &impl Abort, counts: &Counts, entries: u64) {
    let inserted = counts.inserted.load(Ordering::SeqCst);
    let removed = counts.removed.load(Ordering::SeqCst);
    same(rt, &counts.full.load(Ordering::SeqCst), &0);
    assert!(rt; removed > 1_000);
    same(rt, &removed.wrapping_add(entries), &inserted);
}

const ROOM: Room = Room {
    pages: 400_000,
    rows: 800_000,
    sessions: 3,
};

// A map over an empty index, and its three sessions.
fn three(rt: &impl Abort, alloc: Global) -> (Map, Session, Session, Session)
    ensures ones { IsSessionOf result.0 result.1 }
    ensures others { IsSessionOf result.0 result.2 }
    ensures thirds { IsSessionOf result.0 result.3 }
{
    let empty = given(rt, Index::new(alloc, 4));
    let (map, mut sessions) = Map::open(alloc, &empty, ROOM).expect(rt, "no map");
    let third = sessions.pop().expect(rt, "no third session");
    let other = sessions.pop().expect(rt, "no second session");
    let one = sessions.pop().expect(rt, "no session");
    (map, one, other, third)
}

#[test]
fn each_entry_is_inserted_once_more_than_removed(rt: HostRuntime) {
    let alloc = rt.alloc();
    let (map, one, other, mut third) = three(&rt, alloc);
    let told = Told::nothing();
    let works = (Work::ChangeDrawn(7), Work::ChangeDrawn(11));
    assert!(&rt;
        run_two(&rt, alloc, &map, one, other, works, &told),
        "a thread couldn't be started"
    );
    let found = given(&rt, map.snapshot(alloc, &mut third, 0, u64::MAX, 1));
    let entries = found.expect(&rt, "no snapshot");
    balance(&rt, &told.counts, entries.len() as u64);
}

// Tries each second operation where the session lies.
pub(crate) fn change_drawn<R: Wait>(
    rt: &R,
    map: &Map,
    mut session: Session,
    told: &Told,
    step: u64,
) -> bool
    requires its { IsSessionOf map.now session }
{
    for turn in 0..TURNS {
        let drawn = turn.wrapping_mul(step);
        let key = drawn % KEYS;
        let op = match drawn / KEYS % 3 {
            0 => Op::Insert(key, turn),
            1 => Op::Replace(key, turn),
            _ => Op::Delete(key),
        };
        let (then, answer) = run(rt, map, session, op, turn % 2 == 0);
        session = then;
        told.counts.count(answer);
    }
    told.end();
    true
}

// What is given up, or finds too few rows at hand, begins again.
fn run<R: Wait>(
    rt: &R,
    map: &Map,
    mut session: Session,
    op: Op,
    tries: bool,
) -> (Session, Result<Answer, Full>)
    requires { IsSessionOf map.now session }
    ensures { IsSessionOf map.now result.0 }
{
    if tries {
        if let Ok(Some(answer)) = try_apply(map, &mut session, op) {
            return (session, Ok(answer));
        }
    }
    apply(rt, map, session, op)
}
