//! Threads that insert, delete, and look at each other's keys meanwhile.
ghost use Rattle.blink_live.specs.{IsPassOf};

use crate::indexes::Look::Every;
use crate::steps::look;
use crate::story::Act::{DealWalks, Run};
use crate::story::{End, Story, play_all};
use crate::walks::{Walk, Walks, every, key_after};
use crate::works::{Change, Work, change_one};
use blink_live::{Live, Pass};
use std::process::Abort;
use std::sync::Wait;

// Which keys a thread has seen.
type Seen = [bool; 512];

// The keys of one of eight threads: each eighth key below 512.
fn watched(thread: usize) -> Walk {
    every(8, thread as u64, 64)
}

// Glances at a key: it has ten times the key, or isn't there. An even key, which nobody deletes, stays once it was seen.
fn watch(rt: &impl Abort, live: &Live, pass: &mut Pass, key: u64, seen: &mut bool)
    requires { IsPassOf live.now pass.old }
    ensures { IsPassOf live.now pass.new }
{
    match look(live, pass, key) {
        Some(pointer) => {
            assert!(rt; pointer == key.wrapping_mul(10), "key {key}");
            *seen = true;
        }
        None => assert!(rt; key % 2 == 1 || !*seen, "key {key} was there"),
    }
}

// Changes the thread's keys, and glances at the next key after each.
fn change_and_watch<R: Wait + Abort>(
    rt: &R,
    live: &Live,
    pass: &mut Pass,
    thread: usize,
    change: Change,
    seen: &mut Seen,
)
    requires { IsPassOf live.now pass.old }
    ensures { IsPassOf live.now pass.new }
{
    let walk = watched(thread);
    for others in 0..walk.count {
        let key = key_after(&walk, others);
        change_one(rt, live, pass, key, change);
        let next = key.wrapping_add(1) % 512;
        watch(rt, live, pass, next, &mut seen[next as usize]);
    }
}

// Inserts the thread's keys, each with ten times the key, and deletes those of an odd thread again.
pub(crate) fn watch_eighth<R: Wait + Abort>(rt: &R, live: &Live, pass: &mut Pass, thread: usize)
    requires { IsPassOf live.now pass.old }
    ensures { IsPassOf live.now pass.new }
{
    let mut seen = [false; 512];
    change_and_watch(rt, live, pass, thread, Change::Insert, &mut seen);
    if thread % 2 == 1 {
        change_and_watch(rt, live, pass, thread, Change::Delete, &mut seen);
    }
}

const WATCHED: Story = Story {
    name: "eight threads look at each others keys",
    over: (0, 0),
    room: (512, 256),
    acts: &[DealWalks(Walks::AscendingEighths), Run(Work::WatchEighth)],
    end: End::Closes(&[Every(2, 0, 256)]),
};

const STORIES: [&Story; 1] = [&WATCHED];

#[test]
fn passes_that_watch(rt: HostRuntime) {
    play_all(&rt, rt.alloc(), &STORIES);
}
