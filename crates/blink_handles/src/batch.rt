//! Running a batch over an index by one thread, in the order of its operations.
ghost use Rattle.std.specs.Prelude.{◌≡◌, ◌↔◌, ◌≤◌, IsTrue, IfOk, IfErr, OnErr, OnOk, length, map};
ghost use Rattle.blink_batch.specs.declared.batch.TheConstants.{BATCH_LIMIT};
ghost use Rattle.blink_handles.specs.Raw.{AreOperations, raw_given};
ghost use Rattle.blink_handles.specs.Runs.{AreKnown, HasRun, HasRunToEnd, IsBatchRefusal, IsRunRefusal, IsStartRefusal};

use crate::raw::{RawAnswer, RawOperation};
use crate::refusal::Refusal;
use blink_batch::{Answer, BATCH_LIMIT, Batch, Cut, Op};
use blink_index::Index;
use blink_index::laws::{no_other_map_is_kept, the_map_is_kept};
use blink_steps::{StepError, World};
use std::alloc::{AllocError, Global};

/// Runs the operations on a copy of the index, which then takes its place.
pub fn run(
    alloc: Global,
    index: &mut Index,
    operations: &[RawOperation],
    answers: &mut [RawAnswer],
) -> Result<(), Refusal>
    ensures ran { OnOk result (HasRun index.old operations.now answers.new index.new) }
    ensures refused { IfErr result (IsRunRefusal index.old operations.now (length answers.old)) }
    ensures unchanged { OnErr result ((index.new ≡ index.old) × (answers.new ≡ answers.old)) }
{
    if answers.len() != operations.len() {
        return Err(Refusal::WrongLength);
    }
    let batch = batch_of(alloc, operations)?;
    let Ok(copy) = index.copy(alloc) else {
        return Err(Refusal::OutOfMemory);
    };
    let world = run_to_end(alloc, copy, batch)?;
    give_answers(world.answers(), answers);
    *index = Index::from_rest(world.into_rest());
    Ok(())
}

// The batch of the caller's operations.
fn batch_of(alloc: Global, operations: &[RawOperation]) -> Result<Batch, Refusal>
    ensures batch { IfOk result (λ batch. AreOperations operations.now batch) }
    ensures limit { OnOk result (length operations.now ≤ BATCH_LIMIT) }
    ensures refused { IfErr result (IsBatchRefusal operations.now) }
{
    if operations.len() > BATCH_LIMIT {
        return Err(Refusal::TooMany);
    }
    if !are_known(operations) {
        return Err(Refusal::UnknownOperation);
    }
    let Ok(ops) = ops_of(alloc, operations) else {
        return Err(Refusal::OutOfMemory);
    };
    match Batch::new(ops) {
        Ok(batch) => Ok(batch),
        Err(_) => Err(Refusal::TooMany),
    }
}

// Whether each operation's kind is one of the four.
fn are_known(operations: &[RawOperation]) -> bool
    ensures { IsTrue result ↔ AreKnown operations.now }
{
    for operation in operations {
        if !operation.is_known() {
            return false;
        }
    }
    true
}

// The operations that the caller's numbers mean.
fn ops_of(alloc: Global, operations: &[RawOperation]) -> Result<Vec<Op>, AllocError>
    requires { AreKnown operations.now }
    ensures { IfOk result (λ ops. AreOperations operations.now ops.items) }
{
    let mut ops = Vec::with_capacity(alloc, operations.len())?;
    for operation in operations {
        ops.push_reserved(operation.op().unwrap());
    }
    Ok(ops)
}

/// Runs a batch over an index by one worker, to its end.
pub(crate) fn run_to_end(alloc: Global, index: Index, batch: Batch) -> Result<World, Refusal>
    ensures ran { IfOk result (HasRunToEnd index batch) }
    ensures refused { IfErr result (IsStartRefusal index batch) }
{
    let Ok(cut) = Cut::by_residue(alloc, &batch, 1) else {
        return Err(Refusal::OutOfMemory);
    };
    let started = World::start(alloc, index.into_rest(), batch, cut.into_lanes());
    let mut world = match started {
        Ok(world) => world,
        Err(StepError::TooLarge) => return Err(Refusal::TooLarge),
        Err(_) => return Err(Refusal::OutOfMemory),
    };
    let Ok(()) = world.finish() else {
        return Err(Refusal::OutOfMemory);
    };
    the_map_is_kept();
    no_other_map_is_kept();
    Ok(world)
}

// Gives the caller the answers, each at its place.
fn give_answers(given: &[Option<Answer>], answers: &mut [RawAnswer])
    requires { length answers.old ≡ length given.now }
    ensures { answers.new ≡ map raw_given given.now }
{
    for place in 0..given.len() {
        answers[place] = RawAnswer::given(given[place]);
    }
}
