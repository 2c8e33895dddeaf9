//! A worker's lane at a table of words.
ghost use Rattle.std.specs.Prelude.{◌≡◌, ◌≤◌, ◌<◌, [], ◌∷◌, ◌++◌, length, count_by, Contains, vec_len, vec_capacity, IsOk, Ok};
ghost use Rattle.blink_batch.specs.{is_insert, answer_of, key_of};
ghost use Rattle.blink_live.specs.{inserts_left, deletes_left, IsPassOf, keys_of, share_of};
ghost use Rattle.blink_run.specs.Lanes.{CanRun, HasRun, IsPassAfter, MayRun, uses_deletion, lane_ops};

use crate::live::LiveRun;
use blink_batch::{Answer, Op};
use blink_live::{Live, Pass, PassError};
use blink_locked::Gate;
use std::sync::Wait;

/// A lane under way: its pass, and the answers to its operations so far.
#[derive(Drop)]
pub(crate) struct LaneRun {
    pub pass: Pass,
    pub answers: Vec<Answer>,
}

impl LaneRun {
    /// Runs the worker's lane to its end. It calls the gate between operations, when the pass has no latch.
    pub(crate) fn to_end<R: Wait, G: Gate>(
        mut self,
        rt: &R,
        live_run: LiveRun<'_>,
        gate: &G,
        worker: u8,
    ) -> LaneRun
        requires a_lane_each { length live_run.cut.now.lanes ≡ length live_run.batch.now }
        requires may { MayRun live_run.live.now
            (lane_ops live_run.batch.now live_run.cut.now.lanes worker) self }
        ensures { HasRun live_run.entry.live.now
            (lane_ops live_run.entry.batch.now live_run.entry.cut.now.lanes worker) result }
    {
        let ops = live_run.batch.ops();
        let lanes = live_run.cut.lanes();
        for place in 0..lanes.len() {
            if lanes[place] == worker {
                gate.before(worker, place as u32);
                self.run(rt, live_run.live, ops[place]);
                gate.after(worker, place as u32);
            }
        }
        self
    }

    // Runs one operation, on one of the lane's keys.
    fn run<R: Wait>(&mut self, rt: &R, live: &Live, op: Op)
        requires can { CanRun live.now op self.old }
        ensures pass { IsPassAfter live.now op self.old.pass self.new.pass }
        ensures answers { self.new.answers.items
            ≡ self.old.answers.items ++ answer_of (share_of self.old.pass) op ∷ [] }
        ensures capacity { vec_capacity self.new.answers ≡ vec_capacity self.old.answers }
    {
        let answer = answer_at(rt, live, &mut self.pass, op);
        self.answers.push_reserved(answer);
    }
}

// The answer of an operation at the table. The table doesn't refuse it, since the pass has its key, and an insertion or deletion
// for it.
fn answer_at<R: Wait>(rt: &R, live: &Live, pass: &mut Pass, op: Op) -> Answer
    requires its_own { IsPassOf live.now pass.old }
    requires key { Contains (keys_of pass.old) (key_of op) }
    requires inserts { count_by is_insert (op ∷ []) ≤ inserts_left pass.old.pages }
    requires deletes { count_by uses_deletion (op ∷ []) ≤ deletes_left pass.old.pages pass.old.rows }
    ensures answer { result ≡ answer_of (share_of pass.old) op }
    ensures after { IsPassAfter live.now op pass.old pass.new }
{
    match op {
        Op::Find(key) => answer_of(live.find(pass, key)),
        Op::Insert(key, pointer) => answer_of(live.insert(rt, pass, key, pointer)),
        Op::Delete(key) => answer_of(live.delete(rt, pass, key)),
        Op::Replace(key, pointer) => answer_of(live.replace(rt, pass, key, pointer)),
        Op::Exchange(key, expected, pointer) => {
            answer_of(live.exchange(rt, pass, key, expected, pointer))
        }
        Op::DeleteExact(key, expected) => answer_of(live.delete_exact(rt, pass, key, expected)),
    }
}

// The answer of a call that isn't refused.
fn answer_of(given: Result<Answer, PassError>) -> Answer
    requires { IsOk given }
    ensures { given ≡ Ok result }
{
    match given {
        Ok(answer) => answer,
        Err(_) => unreachable!(),
    }
}
