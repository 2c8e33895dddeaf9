//! Two sessions that work at one time, each in a thread of its own.
ghost use Rattle.blink_generation.specs.{IsSessionOf};

use crate::shared::Two;
use crate::threads::{Counts, change_drawn};
use crate::{scanning, scanning_back, snapshots, splitting};
use blink_generation::{Map, Session};
use std::alloc::Global;
use std::process::Abort;
use std::sync::Wait;
use std::sync::atomic::{AtomicBool, AtomicU64, Ordering};
use std::thread::{self, Threads};

// What a thread does with its session.
#[derive(Clone, Copy)]
pub(crate) enum Work {
    // It inserts the odd keys, and deletes them again, while the other scans.
    ChangeOdd,
    ScanEven,
    ScanEvenBack,
    // It inserts keys in ascending order, while the other takes snapshots.
    InsertAscending,
    TakeSnapshots,
    // It inserts keys from the greatest down, while the other reads.
    InsertDownwards,
    ReadAround,
    // It makes changes that look like chance, each of the keys by such a step from the one before.
    ChangeDrawn(u64),
}

// What the threads tell each other and the test.
#[derive(Drop)]
pub(crate) struct Told {
    ended: AtomicBool,
    snapshots: AtomicU64,
    pub(crate) counts: Counts,
}

impl Told {
    pub(crate) fn nothing() -> Told {
        Told {
            ended: AtomicBool::new(false),
            snapshots: AtomicU64::new(0),
            counts: Counts::new(),
        }
    }

    // The thread that makes the changes has made them.
    pub(crate) fn end(&self) {
        self.ended.store(true, Ordering::SeqCst);
    }

    pub(crate) fn has_ended(&self) -> bool {
        self.ended.load(Ordering::SeqCst)
    }

    // One snapshot more was taken.
    pub(crate) fn count_snapshot(&self) {
        self.snapshots.fetch_add(1, Ordering::SeqCst);
    }

    pub(crate) fn snapshots(&self) -> u64 {
        self.snapshots.load(Ordering::SeqCst)
    }
}

fn do_part<R: Wait + Abort>(
    rt: &R,
    alloc: Global,
    map: &Map,
    session: Session,
    work: Work,
    told: &Told,
) -> bool
    requires { IsSessionOf map.now session }
{
    match work {
        Work::ChangeOdd => scanning::change_odd(rt, map, session, told),
        Work::ScanEven => scanning::scan_meanwhile(rt, map, session, told),
        Work::ScanEvenBack => scanning_back::scan_back_meanwhile(rt, map, session, told),
        Work::InsertAscending => snapshots::insert_ascending(rt, map, session, told),
        Work::TakeSnapshots => snapshots::take_meanwhile(rt, alloc, map, session, told),
        Work::InsertDownwards => splitting::insert_downwards(rt, map, session, told),
        Work::ReadAround => splitting::read_meanwhile(rt, alloc, map, session, told),
        Work::ChangeDrawn(step) => change_drawn(rt, map, session, told, step),
    }
}

// Each of the two sessions does its part; `false`, if a thread couldn't be started.
pub(crate) fn run_two<R: Threads + Abort + Wait + Sync>(
    rt: &R,
    alloc: Global,
    map: &Map,
    one: Session,
    other: Session,
    works: (Work, Work),
    told: &Told,
) -> bool
    requires one { IsSessionOf map.now one }
    requires other { IsSessionOf map.now other }
{
    let (work, other_work) = works;
    thread::scope(
        thread::scope_env(),
        rt,
        move |scope| -> bool
            requires one { IsSessionOf map.now one }
            requires other { IsSessionOf map.now other }
        {
            let first = scope
                .spawn(
                    move || -> bool
                        requires one { IsSessionOf map.now one }
                    { do_part(rt, alloc, map, one, work, told) },
                )
                .is_ok();
            let second = scope
                .spawn(
                    move || -> bool
                        requires other { IsSessionOf map.now other }
                    { do_part(rt, alloc, map, other, other_work, told) },
                )
                .is_ok();
            first && second
        },
    )
}

// The first session does the first work, and the second the second.
pub(crate) fn in_two_threads<R: Threads + Abort + Wait + Sync>(
    rt: &R,
    alloc: Global,
    two: Two,
    works: (Work, Work),
    told: &Told,
) {
    let Two { map, one, other } = two;
    assert!(rt;
        run_two(rt, alloc, &map, one, other, works, told),
        "a thread couldn't be started"
    );
    assert!(rt; told.has_ended(), "no thread has ended its changes");
}
