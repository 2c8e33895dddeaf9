//! Four threads, each with a session of one map, which is renewed meanwhile.
ghost use Rattle.blink_map.specs.{IsSessionOf};

use crate::same::same;
use crate::shared::{apply, apply_held, close, last};
use blink_batch::{Answer, Op};
use blink_map::{GrowingMap, Session};
use std::alloc::Global;
use std::process::Abort;
use std::sync::Wait;
use std::sync::atomic::{AtomicU64, Ordering};
use std::thread::{self, Threads};

const THREADS: u64 = 4;

// How many keys each thread inserts. Of each four it deletes three, some time later.
const KEYS: u64 = 12_000;

const LATER: u64 = 500;

// A map with four sessions.
#[derive(Drop)]
struct Four {
    map: GrowingMap,
    first: Session,
    second: Session,
    third: Session,
    fourth: Session,
    ghost firsts: { IsSessionOf map first },
    ghost seconds: { IsSessionOf map second },
    ghost thirds: { IsSessionOf map third },
    ghost fourths: { IsSessionOf map fourth },
}

impl Four {
    fn new(rt: &impl Abort, alloc: Global) -> Four {
        let (map, mut sessions) = GrowingMap::new(alloc, 4).expect(rt, "no map");
        let fourth = last(rt, &map, &mut sessions);
        let third = last(rt, &map, &mut sessions);
        let second = last(rt, &map, &mut sessions);
        let first = last(rt, &map, &mut sessions);
        Four {
            map,
            first,
            second,
            third,
            fourth,
        }
    }
}

// The thread's operation gives this; counted, if it doesn't. Half of the threads try it where their session lies, and half hold their
// session for each operation.
fn check<R: Wait>(
    rt: &R,
    alloc: Global,
    map: &GrowingMap,
    session: Session,
    thread: u64,
    work: (Op, Answer),
    wrong: &AtomicU64,
) -> Session
    requires { IsSessionOf map.now session }
    ensures { IsSessionOf map.now result }
{
    let (op, expected) = work;
    let (session, answer) = if thread % 2 == 0 {
        apply(rt, alloc, map, session, op)
    } else {
        apply_held(rt, alloc, map, session, op)
    };
    if answer != Ok(expected) {
        wrong.fetch_add(1, Ordering::SeqCst);
    }
    session
}

// Inserts the thread's keys, which are those with this remainder, in an order in which neighbours come far apart.
fn change_own<R: Wait>(
    rt: &R,
    alloc: Global,
    map: &GrowingMap,
    mut session: Session,
    thread: u64,
    wrong: &AtomicU64,
) -> bool
    requires { IsSessionOf map.now session }
{
    for turn in 0..KEYS + LATER {
        if turn < KEYS {
            let key = key_of(turn, thread);
            let inserted = (Op::Insert(key, turn), Answer::Inserted);
            session = check(rt, alloc, map, session, thread, inserted, wrong);
        }
        if turn >= LATER && turn % 4 != 0 {
            let key = key_of(turn - LATER, thread);
            let removed = (Op::Delete(key), Answer::Removed(turn - LATER));
            session = check(rt, alloc, map, session, thread, removed, wrong);
        }
    }
    true
}

// 7,919 and 12,000 have no common divisor, so each turn has a key of its own.
fn key_of(turn: u64, thread: u64) -> u64 {
    (turn.wrapping_mul(7_919) % KEYS)
        .wrapping_mul(THREADS)
        .wrapping_add(thread)
}

// Starts the threads, one for each session; `false`, if one couldn't be started.
fn run<R: Threads + Wait + Sync>(
    rt: &R,
    alloc: Global,
    map: &GrowingMap,
    sessions: (Session, Session, Session, Session),
    wrong: &AtomicU64,
) -> bool
    requires first { IsSessionOf map.now sessions.0 }
    requires second { IsSessionOf map.now sessions.1 }
    requires third { IsSessionOf map.now sessions.2 }
    requires fourth { IsSessionOf map.now sessions.3 }
{
    let (first, second, third, fourth) = sessions;
    thread::scope(
        thread::scope_env(),
        rt,
        move |scope| -> bool
            requires first { IsSessionOf map.now first }
            requires second { IsSessionOf map.now second }
            requires third { IsSessionOf map.now third }
            requires fourth { IsSessionOf map.now fourth }
        {
            let one = scope
                .spawn(
                    move || -> bool
                        requires first { IsSessionOf map.now first }
                    { change_own(rt, alloc, map, first, 0, wrong) },
                )
                .is_ok();
            let two = scope
                .spawn(
                    move || -> bool
                        requires second { IsSessionOf map.now second }
                    { change_own(rt, alloc, map, second, 1, wrong) },
                )
                .is_ok();
            let three = scope
                .spawn(
                    move || -> bool
                        requires third { IsSessionOf map.now third }
                    { change_own(rt, alloc, map, third, 2, wrong) },
                )
                .is_ok();
            let four = scope
                .spawn(
                    move || -> bool
                        requires fourth { IsSessionOf map.now fourth }
                    { change_own(rt, alloc, map, fourth, 3, wrong) },
                )
                .is_ok();
            one && two && three && four
        },
    )
}

// Of each four keys that a thread inserted the first is left, since 500 turns later is a turn that four divides too.
fn is_left(turn: u64) -> bool {
    turn % 4 == 0
}

#[test]
fn four_threads_grow_a_map(rt: HostRuntime) {
    let alloc = rt.alloc();
    let Four {
        map,
        first,
        second,
        third,
        fourth,
    } = Four::new(&rt, alloc);
    let wrong = AtomicU64::new(0);
    let sessions = (first, second, third, fourth);
    assert!(&rt;
        run(&rt, alloc, &map, sessions, &wrong),
        "a thread couldn't be started"
    );
    same(&rt, &wrong.load(Ordering::SeqCst), &0);
    let index = close(&rt, alloc, map, Vec::new(alloc));
    for turn in 0..KEYS {
        for thread in 0..THREADS {
            let left = if is_left(turn) { Some(turn) } else { None };
            same(&rt, &index.find(key_of(turn, thread)), &left);
        }
    }
}
