//! A table that threads share, whose calls have no condition: what is so of it is in its type.
ghost use Rattle.std.specs.Prelude.{◌≡◌, [], All, ◌<◌, vec_len};
ghost use Rattle.blink_index.specs.{map_of};
ghost use Rattle.blink_live.specs.{IsKeeperOf, IsPassOf, opening_of, seen_by};

use crate::indexes::filled;
use crate::same::{given, push, same};
use crate::steps::{Step, take_all};
use crate::works::{Work, do_part};
use blink_index::Index;
use blink_live::{HandError, Keeper, Live, LiveError, Pass};
use blink_rows::Allowance;
use std::alloc::Global;
use std::process::Abort;
use std::sync::Wait;
use std::thread::{self, Threads};

// A table with its keeper and the passes that were dealt, in the order of the deals.
#[derive(Drop)]
pub(crate) struct Shared {
    pub(crate) alloc: Global,
    pub(crate) live: Live,
    pub(crate) keeper: Keeper,
    pub(crate) passes: Vec<Pass>,
    ghost its_keeper: { IsKeeperOf live keeper },
    ghost its_passes: { All (IsPassOf live) passes.items },
}

// What two passes do, of which one is the last.
#[derive(Clone, Copy)]
pub(crate) enum Meeting<'a> {
    // The pass tells the last one what it has seen.
    Tells,
    // The last one tells it.
    Hears,
    // The pass hands these keys to the last one, which gives this.
    Hands(&'a [u64], Result<(), HandError>),
    // The last one hands these keys to it.
    Gets(&'a [u64], Result<(), HandError>),
}

// A table over the index, and its keeper.
pub(crate) fn opened(
    rt: &impl Abort,
    alloc: Global,
    index: &Index,
    room: (u32, u32),
) -> (Live, Keeper)
    ensures its_own { IsKeeperOf result.0 result.1 }
    ensures opening { opening_of result.0 ≡ map_of index.now }
    ensures none_back { seen_by result.1 ≡ [] }
{
    let (inserts, deletes) = room;
    Live::open(alloc, index, Allowance { inserts, deletes }).expect(rt, "not opened")
}

impl Shared {
    // Over the index of the keys after the first number up to the second, with room for so many insertions and deletions.
    pub(crate) fn open(
        rt: &impl Abort,
        alloc: Global,
        over: (usize, usize),
        room: (u32, u32),
    ) -> Shared {
        let (live, keeper) = opened(rt, alloc, &filled(rt, alloc, over.0, over.1), room);
        Shared {
            alloc,
            live,
            keeper,
            passes: Vec::new(alloc),
        }
    }

    // The deal gives this.
    pub(crate) fn deal(
        &mut self,
        rt: &impl Abort,
        keys: &[u64],
        inserts: u32,
        deletes: u32,
        expected: Result<(), LiveError>,
    ) {
        let keys = given(rt, keys.to_vec(self.alloc));
        match self.live.deal(&mut self.keeper, keys, inserts, deletes) {
            Ok(pass) => {
                with_last(rt, &self.live, &mut self.passes, pass);
                same(rt, &Ok(()), &expected);
            }
            Err(refusal) => same(rt, &Err(refusal), &expected),
        }
    }

    // The pass at this place takes these steps.
    pub(crate) fn take<R: Wait + Abort>(&mut self, rt: &R, place: usize, steps: &[Step]) {
        assert!(rt; place < self.passes.len(), "no pass {place}");
        take_all(rt, &self.live, &mut self.passes[place], steps);
    }

    // Each pass does its part, in a thread of its own.
    pub(crate) fn run<R: Threads + Wait + Abort + Sync>(&mut self, rt: &R, part: Work) {
        let threads = self.passes.len();
        part.suits(rt, threads);
        let live = &self.live;
        let one = |place: usize, pass: &mut Pass|
            requires { IsPassOf live.now pass.now }
            ensures { IsPassOf live.entry.now pass.exit.now }
        { do_part(rt, live, pass, place, part) };
        thread::for_each_mut(rt, &mut self.passes, threads.max(1), &one);
    }

    // The pass at this place and the last one meet.
    pub(crate) fn meet(&mut self, rt: &impl Abort, place: usize, meeting: Meeting<'_>) {
        let (live, passes) = (&self.live, &mut self.passes);
        let mut last = without_last(rt, live, passes);
        assert!(rt; place < passes.len(), "no pass {place} before the last");
        meet_at(rt, live, passes, place, &mut last, meeting);
        with_last(rt, live, passes, last);
    }

    // The last pass comes back.
    pub(crate) fn retire_last(&mut self, rt: &impl Abort) {
        let (live, keeper, passes) = (&self.live, &mut self.keeper, &mut self.passes);
        let last = without_last(rt, live, passes);
        live.retire(keeper, last);
    }

    // The first pass is dropped.
    pub(crate) fn lose_first(&mut self, rt: &impl Abort) {
        assert!(rt; !self.passes.is_empty(), "no pass");
        let _lost = self.passes.remove(0);
    }

    pub(crate) fn close(self) -> Result<Index, LiveError> {
        let Shared {
            alloc,
            live,
            keeper,
            passes,
        } = self;
        live.close(alloc, keeper, passes)
    }
}

// ---- passes that meet, a step a function: the facts of all passes are then carried by its clauses

pub(crate) fn without_last(rt: &impl Abort, live: &Live, passes: &mut Vec<Pass>) -> Pass
    requires { All (IsPassOf live.now) passes.old.items }
    ensures last { IsPassOf live.now result }
    ensures others { All (IsPassOf live.now) passes.new.items }
{
    passes.pop().expect(rt, "no pass")
}

pub(crate) fn with_last(rt: &impl Abort, live: &Live, passes: &mut Vec<Pass>, last: Pass)
    requires last { IsPassOf live.now last }
    requires others { All (IsPassOf live.now) passes.old.items }
    ensures { All (IsPassOf live.now) passes.new.items }
{
    push(rt, passes, last);
}

fn meet_at(
    rt: &impl Abort,
    live: &Live,
    passes: &mut Vec<Pass>,
    place: usize,
    last: &mut Pass,
    meeting: Meeting<'_>,
)
    requires place { place < vec_len passes.old }
    requires all { All (IsPassOf live.now) passes.old.items }
    requires last { IsPassOf live.now last.old }
    ensures all { All (IsPassOf live.now) passes.new.items }
    ensures last { IsPassOf live.now last.new }
{
    meet_both(rt, live, &mut passes[place], last, meeting);
}

fn meet_both(rt: &impl Abort, live: &Live, pass: &mut Pass, last: &mut Pass, meeting: Meeting<'_>)
    requires pass { IsPassOf live.now pass.old }
    requires last { IsPassOf live.now last.old }
    ensures pass { IsPassOf live.now pass.new }
    ensures last { IsPassOf live.now last.new }
{
    match meeting {
        Meeting::Tells => live.tell(pass, last),
        Meeting::Hears => live.tell(last, pass),
        Meeting::Hands(keys, expected) => hand(rt, live, pass, last, keys, expected),
        Meeting::Gets(keys, expected) => hand(rt, live, last, pass, keys, expected),
    }
}

fn hand(
    rt: &impl Abort,
    live: &Live,
    from: &mut Pass,
    to: &mut Pass,
    keys: &[u64],
    expected: Result<(), HandError>,
)
    requires from { IsPassOf live.now from.old }
    requires to { IsPassOf live.now to.old }
    ensures from { IsPassOf live.now from.new }
    ensures to { IsPassOf live.now to.new }
{
    let given = live.hand(from, to, keys);
    same(rt, &given, &expected);
}
