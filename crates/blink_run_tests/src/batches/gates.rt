//! Gates that count the operations which pass them, or keep some waiting for others.
use crate::batches::{are_inserted, expect_pages, insertions, run_on_new};
use crate::calls::DRIVERS;
use crate::fixtures::same_for;
use blink_batch::Op;
use blink_run::{Driver, Gate};
use std::alloc::Global;
use std::fmt::Debug;
use std::process::Abort;
use std::rt::Clock;
use std::sync::Wait;
use std::sync::atomic::{AtomicU64, Ordering};
use std::thread::{self, Threads};
use std::time::Duration;

/// How often a gate looks for other operations before it gives up.
pub(crate) const LOOKS: u32 = 100_000;

/// How often the gate was passed before and after an operation.
#[derive(Drop)]
pub(crate) struct CountingGate {
    pub(crate) before: AtomicU64,
    pub(crate) after: AtomicU64,
}

impl CountingGate {
    pub(crate) fn new() -> CountingGate {
        CountingGate {
            before: AtomicU64::new(0),
            after: AtomicU64::new(0),
        }
    }

    /// So many operations were begun, and so many have ended.
    pub(crate) fn expect<C: Debug>(&self, rt: &impl Abort, before: u64, after: u64, case: &C) {
        has_counted(rt, &self.before, before, case);
        has_counted(rt, &self.after, after, case);
    }
}

impl Gate for CountingGate {
    fn before(&self, _worker: u8, _op: u32) {
        self.before.fetch_add(1, Ordering::SeqCst);
    }

    fn after(&self, _worker: u8, _op: u32) {
        self.after.fetch_add(1, Ordering::SeqCst);
    }
}

// What a gate has counted.
fn has_counted<C: Debug>(rt: &impl Abort, counter: &AtomicU64, expected: u64, case: &C) {
    same_for(rt, &counter.load(Ordering::SeqCst), &expected, case);
}

// So many workers insert new keys, and pass the gate.
fn insert_through<R: Threads + Wait + Abort + Sync, G: Gate + Sync>(
    rt: &R,
    alloc: Global,
    driver: Driver,
    ops: &[Op],
    workers: u8,
    gate: &G,
) {
    let ran = run_on_new(rt, alloc, driver, ops, workers, gate);
    are_inserted(rt, driver, &ran.answers, ops.len())
}

// Three workers insert ten keys.
fn expect_passed_twice<R: Threads + Wait + Abort + Sync>(
    rt: &R,
    alloc: Global,
    driver: Driver,
    ops: &[Op],
    gate: &CountingGate,
) {
    insert_through(rt, alloc, driver, ops, 3, gate);
    has_counted(rt, &gate.before, 10, &driver);
    has_counted(rt, &gate.after, 10, &driver)
}

#[test]
fn each_operation_passes_the_gate_twice(rt: HostRuntime) {
    let ops = insertions(&rt, rt.alloc(), 10);
    for driver in DRIVERS {
        expect_passed_twice(&rt, rt.alloc(), driver, &ops, &CountingGate::new());
    }
}

// Each operation waits, before its first step, until the other has come to its own. One thread can't pass, in either order.
#[derive(Drop)]
struct MeetingGate<'a, R: Clock> {
    clock: &'a R,
    first: AtomicU64,
    second: AtomicU64,
    alone: AtomicU64,
}

impl<R: Clock> Gate for MeetingGate<'_, R> {
    fn before(&self, _worker: u8, op: u32) {
        let (own, other) = if op == 0 {
            (&self.first, &self.second)
        } else {
            (&self.second, &self.first)
        };
        own.store(1, Ordering::SeqCst);
        for _ in 0..LOOKS {
            if other.load(Ordering::SeqCst) == 1 {
                return;
            }
            thread::sleep(self.clock, Duration::from_micros(10));
        }
        self.alone.store(1, Ordering::SeqCst);
    }

    fn after(&self, _worker: u8, _op: u32) {}
}

// Two insertions into an empty index, one by each worker.
const TWO: [Op; 2] = [Op::Insert(1, 10), Op::Insert(2, 20)];

fn expect_meeting<R: Threads + Wait + Clock + Abort + Sync>(rt: &R, alloc: Global, driver: Driver) {
    let gate = MeetingGate {
        clock: rt,
        first: AtomicU64::new(0),
        second: AtomicU64::new(0),
        alone: AtomicU64::new(0),
    };
    insert_through(rt, alloc, driver, &TWO, 2, &gate);
    has_counted(rt, &gate.alone, 0, &driver)
}

#[test]
fn two_workers_run_at_once(rt: HostRuntime) {
    for driver in DRIVERS {
        expect_meeting(&rt, rt.alloc(), driver);
    }
}

// The operation of one of three workers waits, before its first step, until those of the two others have ended. If either of
// them needed it to begin, it would give up.
#[derive(Drop)]
struct LastInGate<'a, R: Clock> {
    clock: &'a R,
    last: u8,
    ended: AtomicU64,
    given_up: AtomicU64,
}

impl<R: Clock> Gate for LastInGate<'_, R> {
    fn before(&self, worker: u8, _op: u32) {
        if worker != self.last {
            return;
        }
        for _ in 0..LOOKS {
            if self.ended.load(Ordering::SeqCst) == 2 {
                return;
            }
            thread::sleep(self.clock, Duration::from_micros(10));
        }
        self.given_up.store(1, Ordering::SeqCst);
    }

    fn after(&self, _worker: u8, _op: u32) {
        self.ended.fetch_add(1, Ordering::SeqCst);
    }
}

// Three insertions into an empty index, one by each worker.
const THREE: [Op; 3] = [Op::Insert(0, 1), Op::Insert(1, 1), Op::Insert(2, 1)];

// This worker is the last to begin.
fn expect_nobody_waits<R: Threads + Wait + Clock + Abort + Sync>(
    rt: &R,
    alloc: Global,
    driver: Driver,
    last: u8,
) {
    let gate = LastInGate {
        clock: rt,
        last,
        ended: AtomicU64::new(0),
        given_up: AtomicU64::new(0),
    };
    insert_through(rt, alloc, driver, &THREE, 3, &gate);
    has_counted(rt, &gate.given_up, 0, &(driver, last));
    has_counted(rt, &gate.ended, 3, &(driver, last))
}

#[test]
fn a_worker_that_begins_late_blocks_nobody(rt: HostRuntime) {
    for driver in DRIVERS {
        for last in 0..3 {
            expect_nobody_waits(&rt, rt.alloc(), driver, last);
        }
    }
}

// Lets eight operations run one after another, those of the least keys first or last. Each waits, before its first step, until
// those before it in that order have ended.
#[derive(Drop)]
struct InOrderGate<'a, R: Clock> {
    clock: &'a R,
    descending: bool,
    ended: AtomicU64,
    given_up: AtomicU64,
}

impl<R: Clock> Gate for InOrderGate<'_, R> {
    fn before(&self, _worker: u8, op: u32) {
        let place = u64::from(op);
        let others = if self.descending {
            7u64.saturating_sub(place)
        } else {
            place
        };
        for _ in 0..LOOKS {
            if self.ended.load(Ordering::SeqCst) == others {
                return;
            }
            thread::sleep(self.clock, Duration::from_micros(10));
        }
        self.given_up.store(1, Ordering::SeqCst);
    }

    fn after(&self, _worker: u8, _op: u32) {
        self.ended.fetch_add(1, Ordering::SeqCst);
    }
}

// Keys 1 to 8, each inserted by a worker of its own, in an order of the gate's, leave these pages.
#[derive(Clone, Copy)]
struct Ordered<'a> {
    driver: Driver,
    descending: bool,
    pages: &'a str,
}

// By hand, for pages of at most 4 entries, which split with the lower 3 of 5 in the old page. Ascending keys split 1 to 5, and
// then 4 to 8. Descending ones split 4 to 8, and then 2 to 6.
const ORDERED: [Ordered<'static>; 4] = [
    Ordered {
        driver: Driver::Locked,
        descending: false,
        pages: "1 3 - 18446744073709551615 - 3:1 6:2 18446744073709551615:4
0 1 - 3 2 1:10 2:20 3:30
0 2 3 6 4 4:40 5:50 6:60
0 4 6 18446744073709551615 - 7:70 8:80
",
    },
    Ordered {
        driver: Driver::Locked,
        descending: true,
        pages: "1 3 - 18446744073709551615 - 4:1 6:4 18446744073709551615:2
0 1 - 4 4 1:10 2:20 3:30 4:40
0 4 4 6 2 5:50 6:60
0 2 6 18446744073709551615 - 7:70 8:80
",
    },
    Ordered {
        driver: Driver::Live,
        descending: false,
        pages: "1 4 - 18446744073709551615 - 3:1 6:2 18446744073709551615:3
0 1 - 3 2 1:10 2:20 3:30
0 2 3 6 3 4:40 5:50 6:60
0 3 6 18446744073709551615 - 7:70 8:80
",
    },
    Ordered {
        driver: Driver::Live,
        descending: true,
        pages: "1 4 - 18446744073709551615 - 4:1 6:2 18446744073709551615:3
0 1 - 4 2 1:10 2:20 3:30 4:40
0 2 4 6 3 5:50 6:60
0 3 6 18446744073709551615 - 7:70 8:80
",
    },
];

fn expect_ordered<R: Threads + Wait + Clock + Abort + Sync>(
    rt: &R,
    alloc: Global,
    case: Ordered<'_>,
) {
    let gate = InOrderGate {
        clock: rt,
        descending: case.descending,
        ended: AtomicU64::new(0),
        given_up: AtomicU64::new(0),
    };
    let ops = insertions(rt, alloc, 8);
    let ran = run_on_new(rt, alloc, case.driver, &ops, 8, &gate);
    has_counted(rt, &gate.given_up, 0, &case.driver);
    are_inserted(rt, case.driver, &ran.answers, 8);
    expect_pages(rt, alloc, case.driver, &ran.index, case.pages)
}

// The pages tell whose turn it was. A run whose threads pass the gate and take no turn, while the caller's thread runs the batch,
// leaves the same pages for both orders.
#[test]
fn each_thread_runs_its_operation_where_the_gate_lets_it(rt: HostRuntime) {
    for case in ORDERED {
        expect_ordered(&rt, rt.alloc(), case);
    }
}
