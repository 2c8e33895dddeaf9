//! A batch's run over a tree, turn by turn.
ghost use Rattle.std.specs.Prelude.{◌≡◌, ◌↔◌, ◌+◌, ◌<◌, ◌≤◌, ℕ, Some, length, option_map, slice_get, IsTrue, IsNone, IfOk, IfSome, OnErr, IsOkUnless};
ghost use Rattle.blink_store.specs.declared.latches.TheConstants.{WORKERS};
ghost use Rattle.blink_steps.specs.Pick.{IsFirstMover, IsIdleWorker, WouldMove, WouldWait};
ghost use Rattle.blink_steps.specs.Run.{AppliesSomeEvent, IsOpeningRun, idle_seat, working_of};
ghost use Rattle.blink_steps.specs.Seats.{HasOperation, SeatsNext, with_seat};
ghost use Rattle.blink_steps.specs.RunInvariant.{CanTakeTurn};
ghost use Rattle.blink_steps.specs.World.{HasEnded};

use crate::lane_queues::lane_queues;
use crate::outcome::Outcome;
use crate::seat::{WorkerState, Working};
use crate::shared::Shared;
use blink_batch::{Answer, Batch, Lanes, StepError};
use blink_machine::Step;
use blink_store::{Latches, Store, WORKERS};
use std::alloc::{AllocError, Global};
use std::marker::Model;

/// The tree, the workers, and the outcome so far.
#[derive(Drop)]
pub(crate) struct Run {
    shared: Shared,
    batch: Batch,
    lanes: Lanes,
    // For each operation the place of the next one in its lane.
    following: Vec<Option<u32>>,
    // The state of each worker.
    seats: Vec<WorkerState>,
    outcome: Outcome,
}

impl Model for Run {
    ghost use Rattle.blink_steps.specs.Run.{PlainRun};

    ghost Value = { PlainRun };

    ghost use Rattle.blink_steps.specs.RunView.{plain, IsLinked};

    ghost view = { plain };

    ghost invariant = { IsLinked };
}

impl Run {
    /// Makes the run of a batch over a tree before its first turn: every worker is idle.
    pub(crate) fn new(
        alloc: Global,
        store: Store,
        batch: Batch,
        lanes: Lanes,
    ) -> Result<Run, AllocError>
        requires { length lanes.lanes ≡ length batch }
        ensures { IfOk result (λ run. IsOpeningRun store batch lanes run) }
    {
        let places = batch.ops().len();
        let (following, firsts) = lane_queues(alloc, lanes.lanes())?;
        let seats = idle_seats(alloc, lanes.workers(), &firsts)?;
        let outcome = Outcome::new(alloc, places)?;
        Ok(Run {
            shared: Shared {
                store,
                latches: Latches::new(),
            },
            batch,
            lanes,
            following,
            seats,
            outcome,
        })
    }

    /// Gives a worker a turn. The worker takes a step of its operation, or, if it is idle, of the next operation in its lane. Or
    /// it waits. Or, at the lane's end, it does nothing. A refusal of memory changes nothing.
    pub(crate) fn turn(&mut self, worker: u8) -> Result<Step, StepError>
        requires { CanTakeTurn self.old worker }
        ensures turn { IfOk result (λ step. AppliesSomeEvent self.old worker step self.new) }
        ensures refused { IsOkUnless result StepError.OutOfMemory }
        ensures unchanged { OnErr result (self.new ≡ self.old) }
    {
        let seat = &self.seats[usize::from(worker)];
        if seat.working.is_some() {
            return self.go_on(worker);
        }
        match seat.next {
            Some(place) => self.begin(worker, place),
            None => Ok(Step::Idle),
        }
    }

    // Takes a step of the operation that the worker has under way. The operation stays in place meanwhile, since it is large.
    fn go_on(&mut self, worker: u8) -> Result<Step, StepError>
        requires ready { CanTakeTurn self.old worker }
        requires busy { HasOperation self.old worker }
        ensures turn { IfOk result (λ step. AppliesSomeEvent self.old worker step self.new) }
        ensures refused { IsOkUnless result StepError.OutOfMemory }
        ensures unchanged { OnErr result (self.new ≡ self.old) }
    {
        let seat = &mut self.seats[usize::from(worker)];
        let Some(working) = &seat.working else {
            unreachable!()
        };
        let place = working.place;
        let before = seat.answer();
        let acted = seat.act(&mut self.shared, worker);
        let after = seat.answer();
        seat.forget_ended();
        let step = acted?;
        if let Step::Moved(kind) = step {
            self.outcome.note(place, kind, before, after);
        }
        Ok(step)
    }

    // Begins the next operation of the worker's lane, and takes its first step.
    fn begin(&mut self, worker: u8, place: u32) -> Result<Step, StepError>
        requires ready { CanTakeTurn self.old worker }
        requires idle { slice_get self.old.seats worker ≡ Some (idle_seat (Some place)) }
        ensures turn { IfOk result (λ step. AppliesSomeEvent self.old worker step self.new) }
        ensures refused { IsOkUnless result StepError.OutOfMemory }
        ensures unchanged { OnErr result (self.new ≡ self.old) }
    {
        self.seat_next(worker, place);
        match self.go_on(worker) {
            Ok(step) => Ok(step),
            Err(refusal) => {
                self.unseat(worker, place);
                Err(refusal)
            }
        }
    }

    // Seats the next operation of the worker's lane before its first step.
    fn seat_next(&mut self, worker: u8, place: u32)
        requires ready { CanTakeTurn self.old worker }
        requires idle { slice_get self.old.seats worker ≡ Some (idle_seat (Some place)) }
        ensures { SeatsNext self.old worker place self.new }
    {
        let op = self.batch.ops()[place as usize];
        let next = self.following[place as usize];
        let fan = self.shared.fan();
        self.seats[usize::from(worker)].begin(place, op, fan, next);
    }

    // Makes the worker idle again, with the place of its next operation.
    fn unseat(&mut self, worker: u8, place: u32)
        requires worker { worker < length self.old.seats }
        requires of_lane { slice_get self.old.assignment.lanes place ≡ Some worker }
        ensures { self.new ≡ with_seat self.old worker (idle_seat (Some place)) }
    {
        let seat = &mut self.seats[usize::from(worker)];
        seat.working = None;
        seat.next = Some(place);
    }

    /// Whether every operation has ended: each worker is idle, and its lane is at its end.
    pub(crate) fn ended(&self) -> bool
        requires { length self.now.seats ≡ self.now.assignment.workers }
        ensures { IsTrue result ↔ HasEnded self.now }
    {
        for seat in &self.seats {
            if !seat.is_at_end() {
                return false;
            }
        }
        true
    }

    /// Whether the worker has no operation under way.
    pub(crate) fn is_idle(&self, worker: u8) -> bool
        requires { worker < length self.now.seats }
        ensures { IsTrue result ↔ IsIdleWorker self.now worker }
    {
        self.seats[usize::from(worker)].working.is_none()
    }

    /// Whether the worker's next step would be a wait. An operation that has taken no step yet doesn't wait.
    pub(crate) fn waits(&self, worker: u8) -> bool
        requires { worker < length self.now.seats }
        ensures { IsTrue result ↔ WouldWait self.now worker }
    {
        match &self.seats[usize::from(worker)].working {
            Some(working) => self.shared.waits(&working.machine),
            None => false,
        }
    }

    // Whether the worker's next turn would be a step.
    fn would_move(&self, worker: u8) -> bool
        requires { worker < length self.now.seats }
        ensures { IsTrue result ↔ WouldMove self.now worker }
    {
        let seat = &self.seats[usize::from(worker)];
        !seat.is_at_end() && !self.waits(worker)
    }

    /// The smallest worker whose next turn would be a step.
    pub(crate) fn pick(&self) -> Option<u8>
        requires { length self.now.seats ≡ self.now.assignment.workers }
        ensures none { IsNone result
            → (worker : ℕ) → worker < self.now.assignment.workers → ¬ WouldMove self.now worker }
        ensures first { IfSome result (λ worker. IsFirstMover self.now worker) }
    {
        for worker in 0..self.workers() {
            if self.would_move(worker) {
                return Some(worker);
            }
        }
        None
    }

    /// The tree as it is between two turns.
    pub(crate) fn store(&self) -> &Store
        ensures { result.now ≡ self.now.shared.store }
    {
        &self.shared.store
    }

    /// The latches: for each latched page the worker that holds its latch.
    pub(crate) fn latches(&self) -> &Latches
        ensures { result.now ≡ self.now.shared.latches }
    {
        &self.shared.latches
    }

    /// The operation that the worker has under way, or `None` if the worker is idle.
    pub(crate) fn working(&self, worker: u8) -> Option<&Working>
        requires { worker < length self.now.seats }
        ensures { option_map (λ working. working.now) result
            ≡ working_of (slice_get self.now.seats worker) }
    {
        self.seats[usize::from(worker)].working.as_ref()
    }

    /// The number of workers, those without an operation included.
    pub(crate) fn workers(&self) -> u8
        ensures { result ≡ self.now.assignment.workers }
    {
        self.lanes.workers()
    }

    /// The answers so far.
    pub(crate) fn answers(&self) -> &[Option<Answer>]
        ensures { result.now ≡ self.now.outcome.answers }
    {
        &self.outcome.answers
    }

    /// The places of the operations that have decided, in the order of their deciding steps.
    pub(crate) fn order(&self) -> &[u32]
        ensures { result.now ≡ self.now.outcome.order }
    {
        &self.outcome.order
    }

    /// The number of pages that each operation has read.
    pub(crate) fn reads(&self) -> &[u64]
        ensures { result.now ≡ self.now.outcome.reads }
    {
        &self.outcome.reads
    }

    /// The number of steps that each operation has taken.
    pub(crate) fn moves(&self) -> &[u64]
        ensures { result.now ≡ self.now.outcome.moves }
    {
        &self.outcome.moves
    }

    /// The tree at the run's end.
    pub(crate) fn into_store(self) -> Store
        ensures { result ≡ self.shared.store }
    {
        self.shared.store
    }
}

// Makes a seat for each worker, which is idle, with the first place of its lane next.
fn idle_seats(
    alloc: Global,
    workers: u8,
    firsts: &[Option<u32>; WORKERS],
) -> Result<Vec<WorkerState>, AllocError>
    requires { workers ≤ WORKERS }
    ensures a_seat_each { IfOk result (λ seats. length seats.items ≡ workers) }
    ensures all_idle { IfOk result (λ seats. (worker : ℕ) → worker < workers
        → slice_get seats.items worker ≡ option_map idle_seat (slice_get firsts.now worker)) }
{
    let workers = usize::from(workers);
    let mut seats = Vec::with_capacity(alloc, workers)?;
    for worker in 0..workers {
        seats.push_reserved(WorkerState {
            working: None,
            next: firsts[worker],
        });
    }
    Ok(seats)
}
