//! Lists of keys that follow a rule.
use crate::same::push;
use crate::shared::Shared;
use std::alloc::Global;
use std::process::Abort;

// So many keys, each by `step` above the last one, from `first` on. They come in the order in which a walk round them by `stride`
// places meets them, from the place `start` on.
#[derive(Clone, Copy)]
pub(crate) struct Walk {
    first: u64,
    step: u64,
    pub(crate) count: u64,
    stride: u64,
    start: u64,
}

// The keys of several threads.
#[derive(Clone, Copy)]
pub(crate) enum Walks {
    // The keys 0 to 255, by one thread.
    Ascending,
    // Each fourth key below 1,024, or below 256.
    Fourths,
    ShortFourths,
    // Each eighth key below 512, in the orders of `eighth`, or all in ascending order. The odd threads may delete theirs.
    Eighths,
    AscendingEighths,
}

impl Walks {
    fn threads(self) -> usize {
        match self {
            Walks::Ascending => 1,
            Walks::Fourths | Walks::ShortFourths => 4,
            Walks::Eighths | Walks::AscendingEighths => 8,
        }
    }

    // The thread's keys, and how many insertions and deletions it may make.
    fn of(self, thread: usize) -> (Walk, u32, u32) {
        let deletes = if thread % 2 == 1 { 64 } else { 0 };
        match self {
            Walks::Ascending => (every(1, 0, 256), 256, 0),
            Walks::Fourths => (fourth(thread), 256, 0),
            Walks::ShortFourths => (every(4, thread as u64, 64), 64, 0),
            Walks::Eighths => (eighth(thread), 64, deletes),
            Walks::AscendingEighths => (every(8, thread as u64, 64), 64, deletes),
        }
    }
}

// The keys in ascending order.
pub(crate) fn every(step: u64, first: u64, count: u64) -> Walk {
    Walk {
        first,
        step,
        count,
        stride: 1,
        start: 0,
    }
}

// The keys of one of four threads: each fourth key below 1,024.
pub(crate) fn fourth(thread: usize) -> Walk {
    every(4, thread as u64, 256)
}

// The keys of one of eight threads: each eighth key below 512. Two threads each go up, go down, and go in either of two mixed
// orders. A walk by 63 places of 64 goes down, and one by 27 is the one by 37 backwards.
pub(crate) fn eighth(thread: usize) -> Walk {
    let (stride, start) = match thread / 2 {
        0 => (1, 0),
        1 => (63, 63),
        2 => (37, 0),
        _ => (27, 27),
    };
    Walk {
        first: thread as u64,
        step: 8,
        count: 64,
        stride,
        start,
    }
}

// The key that comes after so many others.
pub(crate) fn key_after(walk: &Walk, others: u64) -> u64 {
    let round = others.wrapping_mul(walk.stride).wrapping_add(walk.start);
    let place = round.checked_rem(walk.count).unwrap_or(0);
    place.wrapping_mul(walk.step).wrapping_add(walk.first)
}

// All keys, in the walk's order.
pub(crate) fn keys_of(rt: &impl Abort, alloc: Global, walk: &Walk) -> Vec<u64> {
    let mut keys = Vec::new(alloc);
    for others in 0..walk.count {
        push(rt, &mut keys, key_after(walk, others));
    }
    keys
}

// The key of one of eight threads whose keys, 1 to 8, go round: in each round the next one.
pub(crate) fn key_at(thread: usize, round: u64) -> u64 {
    (thread as u64).wrapping_add(round) % 8 + 1
}

impl Shared {
    // A pass with the keys of each thread is dealt.
    pub(crate) fn deal_walks(&mut self, rt: &impl Abort, walks: Walks) {
        for thread in 0..walks.threads() {
            let (walk, inserts, deletes) = walks.of(thread);
            let keys = keys_of(rt, self.alloc, &walk);
            self.deal(rt, &keys, inserts, deletes, Ok(()));
        }
    }
}
