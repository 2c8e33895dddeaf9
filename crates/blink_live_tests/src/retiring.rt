//! Passes that come back while the table lives, and whose keys are dealt again.
ghost use Rattle.blink_live.specs.{IsPassOf};

use crate::indexes::Look::Finds;
use crate::shared::Meeting::Tells;
use crate::shared::Shared;
use crate::sights::OfKeeper;
use crate::steps::Step::{self, Call, Glance, GlanceBetween};
use crate::steps::take;
use crate::story::Act::{Deal, DealRounds, Keeper, LoseFirst, Meet, RefuseDeal, RetireLast, Take};
use crate::story::{End, Story, play_all};
use crate::walks::key_at;
use crate::works::{Work, call};
use blink_batch::{Answer, Op};
use blink_live::{Live, LiveError, Pass, PassError};
use std::process::Abort;
use std::sync::Wait;
use std::thread::Threads;

// The table begins with the keys 1 to 3, each with ten times the key.
const FIRST: [Step; 3] = [
    Call(Op::Insert(4, 44), Ok(Answer::Inserted)),
    Call(Op::Delete(2), Ok(Answer::Removed(20))),
    Call(Op::Replace(3, 33), Ok(Answer::Replaced(30))),
];

const DEALT_AGAIN: Story = Story {
    name: "keys that came back are dealt as they were left",
    over: (0, 3),
    room: (2, 2),
    acts: &[
        Deal(&[4, 2, 3], 1, 2),
        Take(0, &FIRST),
        RefuseDeal(&[1, 3], 0, 0, LiveError::Taken(3)),
        RetireLast,
        Keeper(OfKeeper::Dealt(1, 0)),
        Deal(&[1, 2, 3, 4], 1, 0),
        Keeper(OfKeeper::Dealt(2, 1)),
        Take(
            0,
            &[
                Call(Op::Find(1), Ok(Answer::Found(10))),
                Call(Op::Find(2), Ok(Answer::Absent)),
                Call(Op::Find(3), Ok(Answer::Found(33))),
                Call(Op::Find(4), Ok(Answer::Found(44))),
                Call(Op::Insert(2, 22), Ok(Answer::Inserted)),
            ],
        ),
    ],
    end: End::Closes(&[Finds(&[(1, Some(10)), (2, Some(22)), (3, Some(33)), (4, Some(44))])]),
};

const CLOSED_WITHOUT: Story = Story {
    name: "a table closes with what passes left that came back",
    over: (0, 3),
    room: (1, 2),
    acts: &[Deal(&[2, 3, 4], 1, 2), Take(0, &FIRST), RetireLast],
    end: End::Closes(&[Finds(&[(1, Some(10)), (2, None), (3, Some(33)), (4, Some(44))])]),
};

const ONE_IS_OUT: Story = Story {
    name: "a close misses the passes that are out",
    over: (0, 0),
    room: (0, 0),
    acts: &[Deal(&[1], 0, 0), Deal(&[2], 0, 0), RetireLast, LoseFirst],
    end: End::Refused(LiveError::Missing),
};

const STAY_TAKEN: Story = Story {
    name: "other keys stay taken",
    over: (0, 0),
    room: (0, 0),
    acts: &[
        Deal(&[1, 3, 5], 0, 0),
        Deal(&[2, 4, 6], 0, 0),
        RetireLast,
        RefuseDeal(&[2, 6, 3], 0, 0, LiveError::Taken(3)),
        Deal(&[6, 4, 2, 0, 7], 0, 0),
        RefuseDeal(&[8, 4], 0, 0, LiveError::Taken(4)),
    ],
    end: End::StaysOpen,
};

// The second pass has seen the entry of key 5, which it was told; so has whoever gets its key then.
const SEEN_BEFORE: Story = Story {
    name: "the next owner has seen what the last one had",
    over: (0, 0),
    room: (1, 0),
    acts: &[
        Deal(&[5], 1, 0),
        Deal(&[6], 0, 0),
        Take(0, &[Call(Op::Insert(5, 50), Ok(Answer::Inserted))]),
        Meet(0, Tells),
        RetireLast,
        Deal(&[6], 0, 0),
        Take(
            1,
            &[
                Glance(5, Some(50)),
                Call(Op::Find(5), Err(PassError::NotYours)),
                Call(Op::Find(6), Ok(Answer::Absent)),
            ],
        ),
    ],
    end: End::StaysOpen,
};

// ---- threads that pass keys round

const THREADS: usize = 8;

// In this round the thread replaces the pointer of its key, which is that of the round before. Its key in each round is the next
// one, so each key goes round. All glance at key 9, which nobody changes, and at the key above, whose pointer another thread may
// have replaced meanwhile.
pub(crate) fn turn<R: Wait + Abort>(rt: &R, live: &Live, pass: &mut Pass, thread: usize, round: u64)
    requires { IsPassOf live.now pass.old }
    ensures { IsPassOf live.now pass.new }
{
    let key = key_at(thread, round);
    let before = key.wrapping_mul(10).wrapping_add(round);
    let now = before.wrapping_add(1);
    let above = key % 8 + 1;
    let left = above.wrapping_mul(10).wrapping_add(round);
    take(
        rt,
        live,
        pass,
        GlanceBetween(above, left, left.wrapping_add(1)),
    );
    call(rt, live, pass, Op::Find(key), Answer::Found(before));
    call(
        rt,
        live,
        pass,
        Op::Replace(key, now),
        Answer::Replaced(before),
    );
    take(rt, live, pass, Glance(9, Some(90)));
    take(rt, live, pass, Glance(key, Some(now)));
}

// In each of so many rounds each thread is dealt its key, does its turn and comes back.
pub(crate) fn deal_rounds<R: Threads + Wait + Abort + Sync>(
    rt: &R,
    table: &mut Shared,
    rounds: u64,
) {
    for round in 0..rounds {
        play_round(rt, table, round);
    }
}

fn play_round<R: Threads + Wait + Abort + Sync>(rt: &R, table: &mut Shared, round: u64) {
    for place in 0..THREADS {
        table.deal(rt, &[key_at(place, round)], 0, 1, Ok(()));
    }
    table.run(rt, Work::DealRound(round));
    for _ in 0..THREADS {
        table.retire_last(rt);
    }
}

const GO_ROUND: Story = Story {
    name: "keys go round in a ring of threads",
    over: (0, 9),
    room: (0, 128),
    acts: &[DealRounds(16), Keeper(OfKeeper::Dealt(128, 0))],
    end: End::Closes(&[Finds(&[(1, Some(26)), (8, Some(96)), (9, Some(90))])]),
};

const STORIES: [&Story; 6] = [
    &DEALT_AGAIN,
    &CLOSED_WITHOUT,
    &ONE_IS_OUT,
    &STAY_TAKEN,
    &SEEN_BEFORE,
    &GO_ROUND,
];

#[test]
fn passes_that_come_back(rt: HostRuntime) {
    play_all(&rt, rt.alloc(), &STORIES);
}
