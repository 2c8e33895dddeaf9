//! What each pass does in a thread of its own.
ghost use Rattle.blink_live.specs.{IsPassOf};

use crate::glancing::glance_downwards;
use crate::same::same;
use crate::scanning::change_or_scan;
use crate::scanning_back::change_or_scan_back;
use crate::steps::{Step, take, take_all};
use crate::walks::{Walk, eighth, every, fourth, key_after};
use crate::watching::watch_eighth;
use crate::{handing, retiring};
use blink_batch::{Answer, Op};
use blink_live::{Live, Pass};
use std::process::Abort;
use std::sync::Wait;

#[derive(Clone, Copy)]
pub(crate) enum Work {
    // The pass takes the steps at its place.
    Steps(&'static [&'static [Step]]),
    // One of four passes inserts its keys.
    InsertFourth,
    // One of eight passes inserts its keys, and the odd ones delete them again, while others still insert.
    ChangeEighth,
    // The same, and each pass looks at the others' keys.
    WatchEighth,
    // Each pass inserts its keys. Then the odd ones delete them again, and the even ones scan meanwhile.
    ChangeOrScan,
    // The same with backward scans.
    ChangeOrScanBack,
    // The first pass inserts the keys 0 to 255 upwards, and each other one glances at them downwards.
    InsertOrGlance,
    // This round of keys that are handed round, and of keys that are dealt anew.
    HandRound(u64),
    DealRound(u64),
}

impl Work {
    // Each of so many threads has a list of steps, if they are to take steps.
    pub(crate) fn suits(self, rt: &impl Abort, threads: usize) {
        if let Work::Steps(lists) = self {
            same(rt, &lists.len(), &threads);
        }
    }
}

pub(crate) fn do_part<R: Wait + Abort>(
    rt: &R,
    live: &Live,
    pass: &mut Pass,
    thread: usize,
    part: Work,
)
    requires { IsPassOf live.now pass.old }
    ensures { IsPassOf live.now pass.new }
{
    match part {
        Work::Steps(lists) => {
            let steps = *lists.get(thread).expect(rt, "no steps");
            take_all(rt, live, pass, steps);
        }
        Work::InsertFourth => change_each(rt, live, pass, &fourth(thread), Change::Insert),
        Work::ChangeEighth => change_eighth(rt, live, pass, thread),
        Work::WatchEighth => watch_eighth(rt, live, pass, thread),
        Work::ChangeOrScan => change_or_scan(rt, live, pass, thread),
        Work::ChangeOrScanBack => change_or_scan_back(rt, live, pass, thread),
        Work::InsertOrGlance if thread == 0 => {
            change_each(rt, live, pass, &every(1, 0, 256), Change::InsertItself);
        }
        Work::InsertOrGlance => glance_downwards(rt, live, pass),
        Work::HandRound(round) => handing::turn(rt, live, pass, thread, round),
        Work::DealRound(round) => retiring::turn(rt, live, pass, thread, round),
    }
}

// ---- a change of each key of a walk

#[derive(Clone, Copy)]
pub(crate) enum Change {
    // With ten times the key.
    Insert,
    // With the key itself.
    InsertItself,
    // With ten times the key, which is looked up before and after.
    InsertAndFind,
    // Of the key that has ten times the key.
    Delete,
    // Of the key that has ten times the key, which is looked up after.
    DeleteAndFind,
}

pub(crate) fn change_each<R: Wait + Abort>(
    rt: &R,
    live: &Live,
    pass: &mut Pass,
    walk: &Walk,
    change: Change,
)
    requires { IsPassOf live.now pass.old }
    ensures { IsPassOf live.now pass.new }
{
    for others in 0..walk.count {
        change_one(rt, live, pass, key_after(walk, others), change);
    }
}

pub(crate) fn change_one<R: Wait + Abort>(
    rt: &R,
    live: &Live,
    pass: &mut Pass,
    key: u64,
    change: Change,
)
    requires { IsPassOf live.now pass.old }
    ensures { IsPassOf live.now pass.new }
{
    let pointer = key.wrapping_mul(10);
    match change {
        Change::Insert => call(rt, live, pass, Op::Insert(key, pointer), Answer::Inserted),
        Change::InsertItself => call(rt, live, pass, Op::Insert(key, key), Answer::Inserted),
        Change::InsertAndFind => {
            call(rt, live, pass, Op::Find(key), Answer::Absent);
            call(rt, live, pass, Op::Insert(key, pointer), Answer::Inserted);
            call(rt, live, pass, Op::Find(key), Answer::Found(pointer));
        }
        Change::Delete => call(rt, live, pass, Op::Delete(key), Answer::Removed(pointer)),
        Change::DeleteAndFind => {
            call(rt, live, pass, Op::Delete(key), Answer::Removed(pointer));
            call(rt, live, pass, Op::Find(key), Answer::Absent);
        }
    }
}

// The call gives this.
pub(crate) fn call<R: Wait + Abort>(rt: &R, live: &Live, pass: &mut Pass, op: Op, answer: Answer)
    requires { IsPassOf live.now pass.old }
    ensures { IsPassOf live.now pass.new }
{
    take(rt, live, pass, Step::Call(op, Ok(answer)));
}

fn change_eighth<R: Wait + Abort>(rt: &R, live: &Live, pass: &mut Pass, thread: usize)
    requires { IsPassOf live.now pass.old }
    ensures { IsPassOf live.now pass.new }
{
    let walk = eighth(thread);
    change_each(rt, live, pass, &walk, Change::InsertAndFind);
    if thread % 2 == 1 {
        change_each(rt, live, pass, &walk, Change::DeleteAndFind);
    }
}
