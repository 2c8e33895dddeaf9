//! The state of a worker: its operation under way, and the next one of its lane.
ghost use Rattle.std.specs.Prelude.{◌≡◌, ◌↔◌, None, IsTrue, IsOkUnless};
ghost use Rattle.blink_page.specs.{IsFan};
ghost use Rattle.blink_machine.specs.{fresh};
ghost use Rattle.blink_steps.specs.Run.{busy_seat, idle_seat};
ghost use Rattle.blink_steps.specs.Seats.{left_in_seat, answer_in_seat, IsAbleInSeat, ActsInSeat};

use crate::shared::Shared;
use blink_batch::{Answer, Op, StepError};
use blink_machine::{Machine, Step};

/// An operation under way, and its place in the batch.
#[derive(Debug, Drop)]
pub struct Working {
    /// The operation's place in the batch, from 0.
    pub place: u32,
    /// The operation.
    pub machine: Machine,
}

/// A worker's state: its operation under way, unless it is idle, and the place of its next operation, unless its lane is at its
/// end.
#[derive(Drop)]
pub(crate) struct WorkerState {
    pub working: Option<Working>,
    pub next: Option<u32>,
}

impl WorkerState {
    /// Begins an operation. Its machine is made in its seat, since it is large.
    pub(crate) fn begin(&mut self, place: u32, op: Op, fan: u8, next: Option<u32>)
        requires { IsFan fan }
        ensures { self.new ≡ busy_seat place (fresh fan op) next }
    {
        self.working = Some(Working {
            place,
            machine: Machine::new(op, fan),
        });
        self.next = next;
    }

    /// Takes a step of the operation. The operation stays in place meanwhile, since it is large.
    pub(crate) fn act(&mut self, shared: &mut Shared, worker: u8) -> Result<Step, StepError>
        requires { IsAbleInSeat shared.old worker self.old }
        ensures acted { ActsInSeat shared.old worker self.old result self.new shared.new }
        ensures refused { IsOkUnless result StepError.OutOfMemory }
    {
        match &mut self.working {
            Some(working) => shared.act(worker, &mut working.machine),
            None => unreachable!(),
        }
    }

    /// The operation's answer, from its deciding step on.
    pub(crate) fn answer(&self) -> Option<Answer>
        ensures { result ≡ answer_in_seat self.now }
    {
        match &self.working {
            Some(working) => working.machine.answer(),
            None => None,
        }
    }

    /// Whether the worker is idle, and its lane is at its end.
    pub(crate) fn is_at_end(&self) -> bool
        ensures { IsTrue result ↔ (self.now ≡ idle_seat None) }
    {
        self.working.is_none() && self.next.is_none()
    }

    /// Drops the operation if it has ended.
    pub(crate) fn forget_ended(&mut self)
        ensures { self.new ≡ left_in_seat self.old }
    {
        let ended = match &self.working {
            Some(working) => working.machine.ended(),
            None => false,
        };
        if ended {
            self.working = None;
        }
    }
}
