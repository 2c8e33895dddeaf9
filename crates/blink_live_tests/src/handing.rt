//! Keys that change hands between passes.
ghost use Rattle.blink_live.specs.{IsPassOf};

use crate::indexes::Look::Finds;
use crate::shared::Meeting::{Gets, Hands};
use crate::shared::Shared;
use crate::steps::Step::{self, Call, Glance, GlanceBetween};
use crate::steps::take;
use crate::story::Act::{Deal, HandRounds, Meet, Take};
use crate::story::{End, Story, play_all};
use crate::walks::key_at;
use crate::works::{Work, call};
use blink_batch::{Answer, Op};
use blink_live::{HandError, Live, Pass, PassError};
use std::process::Abort;
use std::sync::Wait;
use std::thread::Threads;

// The table begins with the keys 1 to 3, each with ten times the key.
const HANDED: Story = Story {
    name: "keys change hands with what they map to",
    over: (0, 3),
    room: (2, 3),
    acts: &[
        Deal(&[4, 2, 3], 1, 1),
        Deal(&[1], 0, 1),
        Take(
            0,
            &[
                Call(Op::Insert(4, 44), Ok(Answer::Inserted)),
                Call(Op::Delete(2), Ok(Answer::Removed(20))),
            ],
        ),
        Meet(0, Hands(&[4, 2], Ok(()))),
        Take(
            0,
            &[
                Call(Op::Replace(4, 45), Err(PassError::NotYours)),
                Call(Op::Find(3), Ok(Answer::Found(30))),
                Glance(4, Some(44)),
            ],
        ),
        Take(
            1,
            &[
                Call(Op::Find(2), Ok(Answer::Absent)),
                Call(Op::Replace(4, 46), Ok(Answer::Replaced(44))),
                Call(Op::Find(1), Ok(Answer::Found(10))),
                Call(Op::Find(3), Err(PassError::NotYours)),
            ],
        ),
    ],
    end: End::Closes(&[Finds(&[(1, Some(10)), (2, None), (3, Some(30)), (4, Some(46))])]),
};

const STILL_ITS_OWN: [Step; 2] = [
    Call(Op::Find(1), Ok(Answer::Found(10))),
    Call(Op::Find(2), Ok(Answer::Found(20))),
];

const REFUSED: Story = Story {
    name: "a refused list moves no key",
    over: (0, 3),
    room: (0, 0),
    acts: &[
        Deal(&[1, 2], 0, 0),
        Deal(&[3], 0, 0),
        Meet(0, Hands(&[1, 3, 9], Err(HandError::NotYours(3)))),
        Meet(0, Hands(&[2, 1, 2], Err(HandError::NotYours(2)))),
        Take(0, &STILL_ITS_OWN),
        Meet(0, Hands(&[], Ok(()))),
        Take(0, &STILL_ITS_OWN),
    ],
    end: End::StaysOpen,
};

// ---- threads that hand keys round

const THREADS: usize = 8;

// In this round the thread replaces the pointer of its key, which is that of the round before, and glances at the key below, which
// was its own then. The next thread may have replaced that one's pointer meanwhile.
pub(crate) fn turn<R: Wait + Abort>(rt: &R, live: &Live, pass: &mut Pass, thread: usize, round: u64)
    requires { IsPassOf live.now pass.old }
    ensures { IsPassOf live.now pass.new }
{
    let key = key_at(thread, round);
    let before = key.wrapping_mul(10).wrapping_add(round);
    let now = before.wrapping_add(1);
    let below = if key == 1 { 8 } else { key.wrapping_sub(1) };
    let left = below.wrapping_mul(10).wrapping_add(round);
    call(rt, live, pass, Op::Find(key), Answer::Found(before));
    call(
        rt,
        live,
        pass,
        Op::Replace(key, now),
        Answer::Replaced(before),
    );
    take(
        rt,
        live,
        pass,
        GlanceBetween(below, left, left.wrapping_add(1)),
    );
    take(rt, live, pass, Glance(9, Some(90)));
}

// Each pass hands its key to the one before it, through the last pass.
fn pass_round(rt: &impl Abort, table: &mut Shared, round: u64) {
    table.meet(rt, 0, Hands(&[key_at(0, round)], Ok(())));
    for place in 1..THREADS - 1 {
        let key = key_at(place, round);
        table.meet(rt, place, Hands(&[key], Ok(())));
        table.meet(rt, place - 1, Gets(&[key], Ok(())));
    }
    table.meet(rt, THREADS - 2, Gets(&[key_at(THREADS - 1, round)], Ok(())));
}

// Each thread is dealt its key and does its turn, and in each later one of so many rounds it has the next key.
pub(crate) fn hand_rounds<R: Threads + Wait + Abort + Sync>(
    rt: &R,
    table: &mut Shared,
    rounds: u64,
) {
    for place in 0..THREADS {
        table.deal(rt, &[key_at(place, 0)], 0, 16, Ok(()));
    }
    table.run(rt, Work::HandRound(0));
    for round in 1..rounds {
        pass_round(rt, table, round - 1);
        table.run(rt, Work::HandRound(round));
    }
}

const HANDED_ROUND: Story = Story {
    name: "keys are handed round a ring of threads",
    over: (0, 9),
    room: (0, 128),
    acts: &[HandRounds(16)],
    end: End::Closes(&[Finds(&[(1, Some(26)), (8, Some(96)), (9, Some(90))])]),
};

const STORIES: [&Story; 3] = [&HANDED, &REFUSED, &HANDED_ROUND];

#[test]
fn keys_that_change_hands(rt: HostRuntime) {
    play_all(&rt, rt.alloc(), &STORIES);
}
