//! Operations that wait for nobody: each begins as a `Pending`, and takes its steps in calls of `advance`.
ghost use Rattle.std.specs.Prelude.{All, IfErr, IfOk};
ghost use Rattle.blink_live.specs.{IsPassOf, IsPendingOf};

use crate::indexes::Look::{Dump, Every, Finds, Scan};
use crate::inserting::SPLIT;
use crate::same::{push, same, same_for};
use crate::shared::{Shared, with_last, without_last};
use crate::steps::Step::{self, Call, Glance};
use crate::steps::take_all;
use crate::story::Act::{
    Deal, DealWalks, InSteps, InsertAllInSteps, LoseLast, LoseLastUnderWay, Take,
};
use crate::story::{End, Story, play_all};
use crate::walks::Walks;
use blink_batch::{Answer, Op};
use blink_live::{Live, LiveError, Pass, PassError, Pending};
use std::process::Abort;
use std::sync::Wait;
use std::thread::{self, Threads};

// Begins the operation. A find has no steps, and isn't begun.
fn begin(live: &Live, pass: Pass, op: Op) -> Result<Pending, (Pass, Option<PassError>)>
    requires { IsPassOf live.now pass }
    ensures begun { IfOk result (IsPendingOf live.now) }
    ensures refused { IfErr result (λ refused. IsPassOf live.now refused.0) }
{
    let begun = match op {
        Op::Find(_) => return Err((pass, None)),
        Op::Insert(key, pointer) => live.begin_insert(pass, key, pointer),
        Op::Delete(key) => live.begin_delete(pass, key),
        Op::Replace(key, pointer) => live.begin_replace(pass, key, pointer),
        Op::Exchange(key, expected, pointer) => live.begin_exchange(pass, key, expected, pointer),
        Op::DeleteExact(key, expected) => live.begin_delete_exact(pass, key, expected),
    };
    match begun {
        Ok(pending) => Ok(pending),
        Err((pass, refusal)) => Err((pass, Some(refusal))),
    }
}

// Takes the operation's steps to its end.
fn end<R: Wait>(rt: &R, live: &Live, begun: Pending) -> (Pass, Answer)
    requires { IsPendingOf live.now begun }
    ensures { IsPassOf live.now result.0 }
{
    let mut pending = begun;
    for _ in rt.forever() {
        match live.advance(pending, 3) {
            Ok(ended) => return ended,
            Err(later) => pending = later,
        }
        thread::yield_now();
    }
    unreachable!()
}

// Takes the operation's steps to its end, and it gives this.
fn end_with<R: Wait + Abort>(rt: &R, live: &Live, begun: Pending, answer: Answer) -> Pass
    requires { IsPendingOf live.now begun }
    ensures { IsPassOf live.now result }
{
    let (pass, given) = end(rt, live, begun);
    same(rt, &given, &answer);
    pass
}

fn first_takes<R: Wait + Abort>(rt: &R, live: &Live, passes: &mut Vec<Pass>, steps: &[Step])
    requires { All (IsPassOf live.now) passes.old.items }
    ensures { All (IsPassOf live.now) passes.new.items }
{
    assert!(rt; !passes.is_empty(), "no pass");
    take_all(rt, live, &mut passes[0], steps);
}

impl Shared {
    // The last pass makes this call in steps; once it has begun, the first pass takes its own, if it has some.
    pub(crate) fn call_in_steps<R: Wait + Abort>(
        &mut self,
        rt: &R,
        op: Op,
        steps: &[Step],
        expected: Result<Answer, PassError>,
    ) {
        let (live, passes) = (&self.live, &mut self.passes);
        let last = without_last(rt, live, passes);
        let last = match begin(live, last, op) {
            Ok(pending) => {
                let answer = expected.expect(rt, "begun");
                if !steps.is_empty() {
                    first_takes(rt, live, passes, steps);
                }
                end_with(rt, live, pending, answer)
            }
            Err((pass, refusal)) => {
                same_for(rt, &refusal, &expected.err(), &op);
                pass
            }
        };
        with_last(rt, live, passes, last);
    }

    // The last pass begins the operation, and is dropped with it.
    pub(crate) fn lose_last(&mut self, rt: &impl Abort, op: Op) {
        let (live, passes) = (&self.live, &mut self.passes);
        let last = without_last(rt, live, passes);
        let _lost = begin(live, last, op).ok().expect(rt, "refused");
    }

    // The last pass begins the operation and goes on with it once. Then it is dropped, whether the operation has ended or not.
    pub(crate) fn lose_last_under_way(&mut self, rt: &impl Abort, op: Op) {
        let (live, passes) = (&self.live, &mut self.passes);
        let last = without_last(rt, live, passes);
        let begun = begin(live, last, op).ok().expect(rt, "refused");
        let _lost = live.advance(begun, 1);
    }
}

// ---- one thread

const FIVE_INSERTED: Story = Story {
    name: "an insertion ends in steps",
    over: (0, 4),
    room: (1, 0),
    acts: &[
        Deal(&[5], 1, 0),
        InSteps(Op::Insert(5, 50), &[], Ok(Answer::Inserted)),
        Take(0, &[Call(Op::Find(5), Ok(Answer::Found(50)))]),
    ],
    end: End::Closes(&[Dump(SPLIT)]),
};

const CHANGES: Story = Story {
    name: "steps answer and refuse as calls do",
    over: (0, 4),
    room: (1, 3),
    acts: &[
        Deal(&[3], 1, 3),
        InSteps(Op::Insert(3, 1), &[], Ok(Answer::Exists(30))),
        InSteps(Op::Replace(3, 33), &[], Ok(Answer::Replaced(30))),
        InSteps(Op::Delete(3), &[], Ok(Answer::Removed(33))),
        InSteps(Op::Delete(4), &[], Err(PassError::NotYours)),
        InSteps(Op::Replace(3, 34), &[], Ok(Answer::Absent)),
        InSteps(Op::Delete(3), &[], Err(PassError::Spent)),
        InSteps(Op::Insert(3, 35), &[], Err(PassError::Spent)),
        InSteps(Op::Insert(4, 1), &[], Err(PassError::NotYours)),
    ],
    end: End::Closes(&[Finds(&[(3, None), (4, Some(40))])]),
};

const SIX_AND_SEVEN: [Step; 3] = [
    Call(Op::Insert(6, 60), Ok(Answer::Inserted)),
    Call(Op::Insert(7, 70), Ok(Answer::Inserted)),
    Glance(5, None),
];

// The first insertion splits the leaf that the pending one has come to.
const SPLIT_MEANWHILE: Story = Story {
    name: "a pending insertion lets another pass split its leaf",
    over: (0, 4),
    room: (3, 0),
    acts: &[
        Deal(&[6, 7], 2, 0),
        Deal(&[5], 1, 0),
        InSteps(Op::Insert(5, 50), &SIX_AND_SEVEN, Ok(Answer::Inserted)),
    ],
    end: End::Closes(&[Scan(0, u64::MAX, &[1, 2, 3, 4, 5, 6, 7])]),
};

const LOST: Story = Story {
    name: "a lost insertion costs its pass alone",
    over: (0, 4),
    room: (3, 0),
    acts: &[
        Deal(&[6, 7], 2, 0),
        Deal(&[5], 1, 0),
        LoseLast(Op::Insert(5, 50)),
        Take(0, &SIX_AND_SEVEN),
    ],
    end: End::Refused(LiveError::Missing),
};

// An operation that gave up in the middle of its leaf would leave the leaf latched, and the other pass would wait for ever.
const LOST_UNDER_WAY: Story = Story {
    name: "a pass lost under way leaves no latch",
    over: (0, 4),
    room: (3, 0),
    acts: &[
        Deal(&[6, 7], 2, 0),
        Deal(&[5], 1, 0),
        LoseLastUnderWay(Op::Insert(5, 50)),
        Take(0, &SIX_AND_SEVEN_ALONE),
    ],
    end: End::Refused(LiveError::Missing),
};

const SIX_AND_SEVEN_ALONE: [Step; 2] = [
    Call(Op::Insert(6, 60), Ok(Answer::Inserted)),
    Call(Op::Insert(7, 70), Ok(Answer::Inserted)),
];

// ---- several threads

// Begins the insertion of the key, with ten times the key, by the call that takes the operation.
fn begin_insertion(rt: &impl Abort, live: &Live, pass: Pass, key: u64) -> Pending
    requires { IsPassOf live.now pass }
    ensures { IsPendingOf live.now result }
{
    live.begin(pass, Op::Insert(key, key.wrapping_mul(10)))
        .ok()
        .expect(rt, "refused")
}

// The pass's key at this place.
fn key_of(rt: &impl Abort, pass: &Pass, place: usize) -> u64 {
    *pass.keys().get(place).expect(rt, "no key")
}

// Goes on to the end, and inserts the pass's other keys.
fn insert_others<R: Wait + Abort>(rt: &R, live: &Live, begun: Pending) -> Pass
    requires { IsPendingOf live.now begun }
    ensures { IsPassOf live.now result }
{
    let mut pass = end_with(rt, live, begun, Answer::Inserted);
    for place in 1..pass.keys().len() {
        let key = key_of(rt, &pass, place);
        let pending = begin_insertion(rt, live, pass, key);
        pass = end_with(rt, live, pending, Answer::Inserted);
    }
    pass
}

fn with_one_more(rt: &impl Abort, live: &Live, begun: &mut Vec<Pending>, pending: Pending)
    requires one { IsPendingOf live.now pending }
    requires others { All (IsPendingOf live.now) begun.old.items }
    ensures { All (IsPendingOf live.now) begun.new.items }
{
    push(rt, begun, pending);
}

// Each pass begins the insertion of its first key.
fn begin_all(rt: &impl Abort, live: &Live, passes: &mut Vec<Pass>, begun: &mut Vec<Pending>)
    requires passes { All (IsPassOf live.now) passes.old.items }
    requires begun { All (IsPendingOf live.now) begun.old.items }
    ensures passes { All (IsPassOf live.now) passes.new.items }
    ensures begun { All (IsPendingOf live.now) begun.new.items }
{
    for _ in 0..passes.len() {
        let pass = without_last(rt, live, passes);
        let first = key_of(rt, &pass, 0);
        let pending = begin_insertion(rt, live, pass, first);
        with_one_more(rt, live, begun, pending);
    }
}

impl Shared {
    // Each pass begins here, and goes on in a thread of its own.
    pub(crate) fn insert_all<R: Threads + Wait + Abort + Sync>(&mut self, rt: &R) {
        let (live, passes) = (&self.live, &mut self.passes);
        let mut begun = Vec::new(self.alloc);
        begin_all(rt, live, passes, &mut begun);
        let one = |pending: Pending| -> Pass
            requires { IsPendingOf live.now pending }
            ensures { IsPassOf live.entry.now result }
        { insert_others(rt, live, pending) };
        *passes = thread::map_vec(rt, begun, &one).expect(rt, "no memory");
    }
}

const GO_ON: Story = Story {
    name: "four threads go on with insertions",
    over: (0, 0),
    room: (256, 0),
    acts: &[DealWalks(Walks::ShortFourths), InsertAllInSteps],
    end: End::Closes(&[Every(1, 0, 256)]),
};

const STORIES: [&Story; 6] = [
    &FIVE_INSERTED,
    &CHANGES,
    &SPLIT_MEANWHILE,
    &LOST,
    &LOST_UNDER_WAY,
    &GO_ON,
];

#[test]
fn operations_in_steps(rt: HostRuntime) {
    play_all(&rt, rt.alloc(), &STORIES);
}
