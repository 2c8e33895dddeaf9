//! The world of a schedule: a run over a tree, and the worker of each turn so far.
ghost use Rattle.std.specs.Prelude.{◌≡◌, ℕ, ◌≤◌, ◌<◌, ◌↔◌, ◌⊎◌, length, option_map, slice_get, Some, Ok, IfOk, IfErr, IfSome, IsNone, OnErr, OnOk, IsErrOf, IsOk, IsOkUnless, All, IsTrue};
ghost use Rattle.blink_steps.specs.Counts.{HasMoved, HasWaited, moves_in, page_reads_in};
ghost use Rattle.blink_batch.specs.declared.Op.TheVariants.{Find};
ghost use Rattle.blink_steps.specs.Headline.{NoKeyIsLost};
ghost use Rattle.blink_steps.specs.Pick.{GoesOnPicked, IsFirstMover, IsIdleWorker, WouldMove, WouldWait, steps_left};
ghost use Rattle.blink_steps.specs.Promises.{IsPromised};
ghost use Rattle.blink_steps.specs.Run.{working_of};
ghost use Rattle.blink_steps.specs.StepBounds.{steps_at_most_with};
ghost use Rattle.blink_steps.specs.World.{FollowsSchedule, GoesOnBy, HasEnded, InItsHistory, IsReplay, IsReplayRefusal, IsScheduleRefusal, IsStart, IsStepRefusal, IsTooLarge, IsWorld, KeepsItsStart, SameBatch, TakesStep, with_turn};

use crate::run::Run;
use crate::seat::Working;
use blink_batch::{Answer, Batch, Lanes, StepError};
use blink_machine::Step;
use blink_page::exceeds_page_limit;
use blink_rest::Rest;
use blink_store::{Latches, Store};
use std::alloc::Global;
use std::fmt;
use std::marker::Model;

/// A batch's run over a tree at rest, up to some tree state. The run has taken one turn for each number of its schedule.
///
/// The type guarantees that a world is the world of its own schedule, over the tree, the batch and the lanes that it began with.
/// So what is promised of every schedule holds for any `World`.
#[derive(Drop)]
pub struct World {
    run: Run,
    schedule: Vec<u8>,
}

impl Model for World {
    ghost use Rattle.blink_steps.specs.World.{PlainWorld, IsWorld};

    ghost Value = { PlainWorld };

    ghost view = { λ world. record { run = world.run; schedule = world.schedule.items } };

    ghost invariant = { λ world. IsWorld (record { run = world.run; schedule = world.schedule.items }) };
}

/// Writes how many turns the run has taken. Its tree would fill a screen.
impl fmt::Debug for World {
    fn fmt<W: fmt::Write>(&self, f: &mut fmt::Formatter<W>) -> fmt::Result {
        write!(f, "a world after {} turns", self.schedule.len())
    }
}

impl World {
    /// Starts a run: no page is latched, every worker is idle, and no operation is decided. The lanes need not be a lawful cut.
    ///
    /// The call refuses with `TooLarge` before it asks for memory; so no later step runs out of page numbers. It refuses with
    /// `OutOfMemory`, if memory was refused. A refusal gives up what was handed in.
    pub fn start(alloc: Global, rest: Rest, batch: Batch, lanes: Lanes) -> Result<World, StepError>
        requires a_lane_each { length lanes.lanes ≡ length batch }
        ensures start { IfOk result (λ world. IsStart rest batch lanes world) }
        ensures promised { IfOk result IsPromised }
        ensures too_large { IsErrOf result StepError.TooLarge ↔ IsTooLarge rest batch }
        ensures refused { IfErr result
            (λ refusal. (refusal ≡ StepError.TooLarge) ⊎ (refusal ≡ StepError.OutOfMemory)) }
    {
        let tree = rest.store();
        let _words = batch.ops();
        let _allowed = lanes.lanes();
        if exceeds_page_limit(tree.pages(), batch.inserts() as u32) {
            return Err(StepError::TooLarge);
        }
        match Run::new(alloc, rest.into_store(), batch, lanes) {
            Ok(run) => Ok(World {
                run,
                schedule: Vec::new(alloc),
            }),
            Err(_) => Err(StepError::OutOfMemory),
        }
    }

    /// Gives a worker one turn, and returns what became of it. The worker takes one step of its operation, or, if it is idle, of
    /// the next operation in its lane. Or it waits. Or its lane is at its end. The schedule records every turn. A refusal
    /// changes nothing.
    pub fn step(&mut self, worker: u8) -> Result<Step, StepError>
        ensures step { IfOk result (λ step. TakesStep self.old worker step self.new) }
        ensures goes_on { IfOk result (λ step. GoesOnBy self.old worker step self.new) }
        ensures same_batch { SameBatch self.old.run self.new.run }
        ensures promised { IsPromised self.new }
        ensures would_move { WouldMove self.old.run worker → IfOk result HasMoved }
        ensures would_wait { WouldWait self.old.run worker → IfOk result HasWaited }
        ensures waited { result ≡ Ok Step.Waited → self.new ≡ with_turn self.old worker }
        ensures idle { result ≡ Ok Step.Idle → self.new ≡ with_turn self.old worker }
        ensures no_worker { IsErrOf result (StepError.NoWorker worker)
            ↔ (self.old.run.assignment.workers ≤ worker) }
        ensures worker { OnOk result (worker < self.old.run.assignment.workers) }
        ensures refused { IfErr result (IsStepRefusal self.old.run.assignment.workers worker) }
        ensures unchanged { OnErr result (self.new ≡ self.old) }
    {
        if worker >= self.run.workers() {
            return Err(StepError::NoWorker(worker));
        }
        if self.schedule.reserve(1).is_err() {
            return Err(StepError::OutOfMemory);
        }
        let step = self.run.turn(worker)?;
        self.schedule.push_reserved(worker);
        Ok(step)
    }

    /// Returns the answers so far: at each operation's place in the batch its answer, from its deciding step on. A plain map of
    /// the entries at the start gives the same answers to the operations one after another, in the order of [`World::order`]. If
    /// the lanes are a lawful cut and all operations have ended, the answers are also those of the batch's own order.
    pub fn answers(&self) -> &[Option<Answer>]
        ensures answers { result.now ≡ self.now.run.outcome.answers }
        ensures one_each { length result.now ≡ length self.now.run.ops }
        ensures promised { IsPromised self.now }
    {
        self.run.answers()
    }

    /// Returns the places of the operations that have decided, in the order of their deciding steps. A find decides at the leaf
    /// read that answers it. An update that changes nothing decides at its read under the latch. An update that changes
    /// something decides at its write of the leaf, in a split of the old leaf.
    pub fn order(&self) -> &[u32]
        ensures order { result.now ≡ self.now.run.outcome.order }
        ensures promised { IsPromised self.now }
    {
        self.run.order()
    }

    /// Returns the worker of each turn so far, waits and idle turns included.
    pub fn schedule(&self) -> &[u8]
        ensures schedule { result.now ≡ self.now.schedule }
        ensures of_its_schedule { IsWorld self.now }
    {
        &self.schedule
    }

    /// Returns the pages and the prime block as they are after the turns so far. The call takes no memory.
    pub fn store(&self) -> &Store
        ensures store { result.now ≡ self.now.run.shared.store }
        ensures promised { IsPromised self.now }
    {
        self.run.store()
    }

    /// Returns the latches: for each latched page the worker that holds its latch. The call takes no memory.
    pub fn latches(&self) -> &Latches
        ensures { result.now ≡ self.now.run.shared.latches }
    {
        self.run.latches()
    }

    /// Returns the number of workers, 1 to 64, those without an operation included.
    pub fn workers(&self) -> u8
        ensures { result ≡ self.now.run.assignment.workers }
    {
        self.run.workers()
    }

    /// Returns the operation that the worker has under way, with its place in the batch, or `None` if the worker is idle. The
    /// call takes no memory.
    pub fn working(&self, worker: u8) -> Option<&Working>
        requires { worker < self.now.run.assignment.workers }
        ensures { option_map (λ working. working.now) result
            ≡ working_of (slice_get self.now.run.seats worker) }
    {
        self.run.working(worker)
    }

    /// Returns whether all operations have ended. Then each has its answer, and the tree is at rest.
    pub fn ended(&self) -> bool
        ensures ended { IsTrue result ↔ HasEnded self.now.run }
        ensures promised { IsPromised self.now }
    {
        self.run.ended()
    }

    /// Returns the number of pages that the operation at this place of the batch has read, those under latches included. In a
    /// tree of n pages a find reads at most n pages, and no operation reads more than 4n + 90.
    pub fn reads_of(&self, op: u32) -> u64
        requires { op < length self.now.run.ops }
        ensures count { InItsHistory self.now (λ history. result ≡ page_reads_in history op) }
        ensures of_find { (key : ℕ) → slice_get self.now.run.ops op ≡ Some (Find key)
            → result ≤ length self.now.run.shared.store.pages }
        ensures at_most { result ≤ steps_at_most_with (length self.now.run.shared.store.pages) }
        ensures promised { IsPromised self.now }
    {
        self.run.reads()[op as usize]
    }

    /// Returns the number of steps that the operation at this place of the batch has taken: at most 4n + 90 in a tree of n
    /// pages. Waits are not counted.
    pub fn moves_of(&self, op: u32) -> u64
        requires { op < length self.now.run.ops }
        ensures count { InItsHistory self.now (λ history. result ≡ moves_in history op) }
        ensures at_most { result ≤ steps_at_most_with (length self.now.run.shared.store.pages) }
        ensures promised { IsPromised self.now }
    {
        self.run.moves()[op as usize]
    }

    /// Returns whether the worker has no operation that is begun and not ended. At its next turn an idle worker begins the next
    /// operation of its lane, if its lane has one.
    pub fn is_idle(&self, worker: u8) -> bool
        requires { worker < self.now.run.assignment.workers }
        ensures { IsTrue result ↔ IsIdleWorker self.now.run worker }
    {
        self.run.is_idle(worker)
    }

    /// Returns whether the worker's next turn would be a wait: for a latch that another worker holds, or for a level that isn't
    /// there yet.
    pub fn waits(&self, worker: u8) -> bool
        requires { worker < self.now.run.assignment.workers }
        ensures { IsTrue result ↔ WouldWait self.now.run worker }
    {
        self.run.waits(worker)
    }

    /// Returns the smallest worker whose next turn would be a step. While operations are left, some worker's is.
    pub fn pick(&self) -> Option<u8>
        ensures none { IsNone result ↔ HasEnded self.now.run }
        ensures first { IfSome result (λ worker. IsFirstMover self.now.run worker) }
    {
        self.run.pick()
    }

    /// Gives the picked worker a turn, again and again, until no worker is picked. Then all operations have ended.
    ///
    /// After a refusal the turns so far stand, and the call may be repeated.
    pub fn finish(&mut self) -> Result<(), StepError>
        ensures ended { IfOk result (λ _. HasEnded self.new.run) }
        ensures picked { GoesOnPicked self.old self.new }
        ensures same_start { KeepsItsStart self.old self.new }
        ensures same_batch { SameBatch self.old.run self.new.run }
        ensures promised { IsPromised self.new }
        ensures refused { IsOkUnless result StepError.OutOfMemory }
    {
        while let Some(worker) = self.pick() {
            self.advance(worker)?;
        }
        Ok(())
    }

    /// Gives the picked worker a turn, and returns its step. [`World::finish`] takes one such turn after another. After the turn
    /// fewer steps are left. A refusal changes nothing.
    pub fn advance(&mut self, worker: u8) -> Result<Step, StepError>
        requires { IsFirstMover self.old.run worker }
        ensures turn { IfOk result (λ step. TakesStep self.old worker step self.new) }
        ensures goes_on { IfOk result (λ step. GoesOnBy self.old worker step self.new) }
        ensures moved { IfOk result HasMoved }
        ensures same_batch { SameBatch self.old.run self.new.run }
        ensures promised { IsPromised self.new }
        ensures nearer { IfOk result (λ _. steps_left self.new.run < steps_left self.old.run) }
        ensures refused { IsOkUnless result StepError.OutOfMemory }
        ensures unchanged { OnErr result (self.new ≡ self.old) }
    {
        let _schedule = &self.schedule;
        let taken = self.step(worker)?;
        Ok(taken)
    }

    /// Returns the tree, once all operations have ended. The call takes no memory.
    pub fn into_rest(self) -> Rest
        requires { HasEnded self.run }
        ensures tree { result ≡ self.run.shared.store }
        ensures promised { IsPromised self }
    {
        Rest::of(self.run.into_store())
    }
}

/// Runs a schedule: from the first tree state it gives one turn for each number. It returns the world, or the first refusal.
///
/// Let the lanes be a lawful cut, and all operations have ended. Then the answers are, place by place, those of one thread that
/// runs the batch in its own order on the plain list of the tree's entries. The tree's entries are those of that list. In every
/// tree state of the run, whatever the lanes, each key then present is reached from the root.
pub fn replay(
    alloc: Global,
    rest: Rest,
    batch: Batch,
    lanes: Lanes,
    schedule: &[u8],
) -> Result<World, StepError>
    requires a_lane_each { length lanes.lanes ≡ length batch }
    ensures world { IfOk result (λ world. IsReplay rest batch lanes schedule.now world) }
    ensures promised { IfOk result IsPromised }
    ensures headline { IfOk result (NoKeyIsLost rest batch lanes) }
    ensures too_large { IsErrOf result StepError.TooLarge ↔ IsTooLarge rest batch }
    ensures workers { IsOk result → All (λ worker. worker < lanes.workers) schedule.now }
    ensures refused { IfErr result (IsReplayRefusal rest batch lanes.workers schedule.now) }
{
    let mut world = World::start(alloc, rest, batch, lanes)?;
    match follow(&mut world, schedule) {
        Ok(()) => Ok(world),
        Err(refusal) => Err(refusal),
    }
}

// Gives a world one turn for each number of a schedule, up to the first refusal.
fn follow(world: &mut World, schedule: &[u8]) -> Result<(), StepError>
    ensures world { IfOk result (λ _. FollowsSchedule world.old schedule.now world.new) }
    ensures workers { IfOk result
        (λ _. All (λ worker. worker < world.old.run.assignment.workers) schedule.now) }
    ensures refused { IfErr result (IsScheduleRefusal world.old.run.assignment.workers schedule.now) }
{
    for &worker in schedule {
        world.step(worker)?;
    }
    Ok(())
}
