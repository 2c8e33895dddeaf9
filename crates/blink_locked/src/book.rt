//! The book of a run. Its workers take turns to write it.
ghost use Rattle.std.specs.Prelude.{◌≡◌, ◌↔◌, IfOk, IfErr, IsTrue, IsErrOf, IsOk, Some, map, slice_get};
ghost use Rattle.blink_batch.specs.{IsLawfulCut};
ghost use Rattle.std.specs.Bool.{OnFalse};
ghost use Rattle.blink_steps.specs.{WouldMove, HasEnded, IsAtLanesEnd, IsStart, IsTooLarge};
ghost use Rattle.blink_locked.specs.Book.{HasEndedOp, IsBookRefusal, IsLeftEarly, IsNewBook, IsSettleRefusal, MayTurn, BookStepsPage, Turns, book_stopped};
ghost use Rattle.blink_locked.specs.Run.{IsSettled};

use crate::origin::Origin;
use blink_batch::{Answer, Batch, Cut, Lanes};
use blink_page::exceeds_page_limit;
use blink_rest::Rest;
use blink_settings::{RunError, all_of};
use blink_steps::{Kind, Step, StepError, World};
use std::alloc::{AllocError, Global};
use std::marker::{Model, PhantomData};

/// The result of a worker's turn at the book.
#[derive(Clone, Copy, Debug, PartialEq, Eq)]
pub enum Turn {
    /// The worker took this step of its operation. The second part is whether the operation has ended by it.
    Took(Kind, bool),
    /// The operation had ended before.
    Over,
    /// The step would have been a wait, and the worker took none.
    Waits,
    /// The run is stopped.
    Stopped,
}

/// The world of a run so far, and the lanes of its workers.
///
/// The type guarantees that a schedule leads to this world from the tree, the batch and the lanes of the run's origin, and that
/// each turn of it moved. So waiting takes no memory, and the schedule is no longer than a run's steps.
#[derive(Drop)]
pub struct Book<B: Origin> {
    lanes: Vec<u8>,
    world: World,
    stopped: bool,
    of: PhantomData<B>,
}

impl<B: Origin> Model for Book<B> {
    ghost use Rattle.std.specs.Prelude.{◌≡◌};
    ghost use Rattle.blink_locked.specs.Book.{PlainBook, IsBook};

    ghost Value = { PlainBook };

    ghost view = { λ book. record { world = book.world; stopped = book.stopped } };

    ghost invariant = { λ book. IsBook B.start B.ops B.assignment book.world
        × (book.lanes.items ≡ B.assignment.lanes) };
}

impl<B: Origin> Book<B> {
    /// Makes the book of a run of a batch over a tree, before its first step. It copies the tree and the batch, and the lanes
    /// twice.
    ///
    /// The call refuses with `TooLarge` before it asks for memory, and with `OutOfMemory`, if memory was refused.
    pub fn new(alloc: Global, start: &Rest, batch: &Batch, cut: &Cut) -> Result<Book<B>, RunError>
        requires cut { IsLawfulCut batch.now cut.now.workers cut.now.lanes }
        requires picked { (B.start ≡ start.now) × (B.ops ≡ batch.now) × (B.assignment ≡ cut.now) }
        ensures new { IfOk result (IsNewBook start.now batch.now cut.now) }
        ensures too_large { IsErrOf result RunError.TooLarge ↔ IsTooLarge start.now batch.now }
        ensures refused { IfErr result IsBookRefusal }
    {
        let _few = batch.ops();
        if exceeds_page_limit(start.store().pages(), batch.inserts() as u32) {
            return Err(RunError::TooLarge);
        }
        match Book::copied(alloc, start, batch, cut) {
            Ok(book) => Ok(book),
            Err(_) => Err(RunError::OutOfMemory),
        }
    }

    // Makes the book of copies of what is given.
    fn copied(alloc: Global, start: &Rest, batch: &Batch, cut: &Cut) -> Result<Book<B>, StepError>
        requires cut { IsLawfulCut batch.now cut.now.workers cut.now.lanes }
        requires picked { (B.start ≡ start.now) × (B.ops ≡ batch.now) × (B.assignment ≡ cut.now) }
        ensures { IfOk result (IsNewBook start.now batch.now cut.now) }
    {
        let Ok(lanes) = cut.lanes().to_vec(alloc) else {
            return Err(StepError::OutOfMemory);
        };
        match first_world(alloc, start, batch, cut) {
            Ok(world) => Ok(Book {
                lanes,
                world,
                stopped: false,
                of: PhantomData,
            }),
            Err(refusal) => Err(refusal),
        }
    }

    /// Gives a worker a turn for the operation at this place of its lane: one step, unless that would be a wait, or the
    /// operation has ended. If memory is refused, the run is stopped. The call returns `Stopped` and changes nothing, if the run
    /// is stopped, or the operation isn't one of the worker's.
    pub fn turn(&mut self, worker: u8, op: u32) -> Turn
        ensures turns { MayTurn self.old worker op → Turns self.old worker op result self.new }
        ensures stops { ¬ MayTurn self.old worker op
            → (result ≡ Turn.Stopped) × (self.new ≡ self.old) }
    {
        if self.stopped || !self.is_of(worker, op) {
            return Turn::Stopped;
        }
        self.turn_of_own(worker, op)
    }

    // The turn of a run that isn't stopped, for an operation of the worker's.
    fn turn_of_own(&mut self, worker: u8, op: u32) -> Turn
        requires own { slice_get self.old.world.run.assignment.lanes op ≡ Some worker }
        ensures { Turns self.old worker op result self.new }
    {
        if self.has_ended(worker, op) {
            return Turn::Over;
        }
        if self.world.waits(worker) {
            return Turn::Waits;
        }
        self.step(worker)
    }

    // The step of a worker that would move. If memory is refused, the run is stopped.
    fn step(&mut self, worker: u8) -> Turn
        requires { WouldMove self.old.world.run worker }
        ensures { BookStepsPage self.old worker result self.new }
    {
        match self.world.step(worker) {
            Ok(Step::Moved(kind)) => Turn::Took(kind, self.world.is_idle(worker)),
            Ok(Step::Waited | Step::Idle) => unreachable!(),
            Err(_) => {
                self.stopped = true;
                Turn::Stopped
            }
        }
    }

    // Whether the operation is one of the worker's.
    fn is_of(&self, worker: u8, op: u32) -> bool
        ensures { IsTrue result ↔ slice_get self.now.world.run.assignment.lanes op ≡ Some worker }
    {
        is_lane_of(&self.lanes, worker, op)
    }

    // Whether the worker's operation has ended: it has its answer, and the worker has no operation under way.
    fn has_ended(&self, worker: u8, op: u32) -> bool
        requires { slice_get self.now.world.run.assignment.lanes op ≡ Some worker }
        ensures ended { IsTrue result ↔ HasEndedOp self.now.world.run worker op }
        ensures has_more { OnFalse result (¬ IsAtLanesEnd self.now.world.run worker) }
    {
        self.world.answers()[op as usize].is_some() && self.world.is_idle(worker)
    }

    /// Stops the run: each worker stops at its next turn.
    pub fn stop(&mut self)
        ensures { self.new ≡ book_stopped self.old }
    {
        self.stopped = true;
    }

    /// Returns the result of the run: its tree and its answers, place by place.
    ///
    /// The call refuses with `OutOfMemory`, if the run is stopped, or memory was refused. It refuses with `Foreign`, if the run
    /// isn't stopped, and operations are left: then some worker's thread hasn't run its lane to the end. The book takes no step
    /// by itself, so each step of a result is one that a worker took at its turn.
    pub fn settle(self, alloc: Global) -> Result<(Rest, Vec<Answer>), RunError>
        requires { IsLawfulCut B.ops B.assignment.workers B.assignment.lanes }
        ensures settled { IfOk result
            (λ done. IsSettled B.start B.ops B.assignment done.0 done.1.items) }
        ensures foreign { IsErrOf result RunError.Foreign ↔ IsLeftEarly self }
        ensures refused { IfErr result IsSettleRefusal }
    {
        match self.given_at_end(alloc) {
            Ok(given) => Ok(self.into_result(given)),
            Err(refusal) => Err(refusal),
        }
    }

    // The answers of a run that isn't stopped and has no operation left.
    fn given_at_end(&self, alloc: Global) -> Result<Vec<Answer>, RunError>
        ensures ended { IsOk result → HasEnded self.now.world.run }
        ensures given { IfOk result
            (λ given. self.now.world.run.outcome.answers ≡ map Some given.items) }
        ensures foreign { IsErrOf result RunError.Foreign ↔ IsLeftEarly self.now }
        ensures refused { IfErr result IsSettleRefusal }
    {
        if self.stopped {
            return Err(RunError::OutOfMemory);
        }
        if !self.world.ended() {
            return Err(RunError::Foreign);
        }
        match self.all_answers(alloc) {
            Ok(given) => Ok(given),
            Err(_) => Err(RunError::OutOfMemory),
        }
    }

    // The result of a book at its end, whose answers are given.
    fn into_result(self, given: Vec<Answer>) -> (Rest, Vec<Answer>)
        requires lawful { IsLawfulCut B.ops B.assignment.workers B.assignment.lanes }
        requires ended { HasEnded self.world.run }
        requires all_given { self.world.run.outcome.answers ≡ map Some given.items }
        ensures { IsSettled B.start B.ops B.assignment result.0 result.1.items }
    {
        (self.world.into_rest(), given)
    }

    // The answers of a book at its end.
    fn all_answers(&self, alloc: Global) -> Result<Vec<Answer>, AllocError>
        requires { HasEnded self.now.world.run }
        ensures { IfOk result
            (λ answers. self.now.world.run.outcome.answers ≡ map Some answers.items) }
    {
        all_of(alloc, self.world.answers())
    }
}

// Whether the operation at this place is in the worker's lane.
fn is_lane_of(lanes: &[u8], worker: u8, op: u32) -> bool
    ensures { IsTrue result ↔ slice_get lanes.now op ≡ Some worker }
{
    lanes.get(op as usize) == Some(&worker)
}

// The world of the run before its first step.
fn first_world(alloc: Global, start: &Rest, batch: &Batch, cut: &Cut) -> Result<World, StepError>
    requires { IsLawfulCut batch.now cut.now.workers cut.now.lanes }
    ensures { IfOk result (λ world. IsStart start.now batch.now cut.now world) }
{
    let (tree, ops, lanes) = copies(alloc, start, batch, cut)?;
    World::start(alloc, tree, ops, lanes)
}

// Copies of the tree, the batch and the lanes.
fn copies(
    alloc: Global,
    start: &Rest,
    batch: &Batch,
    cut: &Cut,
) -> Result<(Rest, Batch, Lanes), StepError>
    requires { IsLawfulCut batch.now cut.now.workers cut.now.lanes }
    ensures { IfOk result
        (λ all. (all.0 ≡ start.now) × (all.1 ≡ batch.now) × (all.2 ≡ cut.now)) }
{
    let (Ok(tree), Ok(ops), Ok(lanes)) = (
        start.copy(alloc),
        copy_of(alloc, batch),
        lanes_of(alloc, batch, cut),
    ) else {
        return Err(StepError::OutOfMemory);
    };
    Ok((tree, ops, lanes))
}

// A copy of the batch.
fn copy_of(alloc: Global, batch: &Batch) -> Result<Batch, AllocError>
    ensures { IfOk result (λ copy. copy ≡ batch.now) }
{
    Ok(Batch::new(batch.ops().to_vec(alloc)?).unwrap())
}

// The lanes of a cut, for a run that takes any lanes.
fn lanes_of(alloc: Global, batch: &Batch, cut: &Cut) -> Result<Lanes, AllocError>
    requires { IsLawfulCut batch.now cut.now.workers cut.now.lanes }
    ensures { IfOk result (λ lanes. lanes ≡ cut.now) }
{
    let lanes = cut.lanes().to_vec(alloc)?;
    Ok(Lanes::new(batch, cut.workers(), lanes).unwrap())
}
