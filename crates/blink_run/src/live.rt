//! A batch's run on an index by threads that share a table of words without a global lock.
ghost use Rattle.std.specs.Prelude.{◌≡◌, ◌↔◌, count_by, IfErr, IfOk, IsErrOf, OnErr, OnOk};
ghost use Rattle.blink_batch.specs.{IsLawfulCut, answers, map_after_all, is_insert, IsAscending};
ghost use Rattle.blink_index.specs.{map_of};
ghost use Rattle.blink_live.specs.{IsNumberedInOrder};
ghost use Rattle.blink_run.specs.Lanes.{HasDealtAll, HaveRunLanes, IsNewKeeper, uses_deletion};
ghost use Rattle.blink_locked.specs.{HasFewPagesMore, MayRefuse, IsStartRefusal};
ghost use Rattle.blink_steps.specs.{IsTooLarge};

mod dealing;
mod gathering;
mod lane;
mod needs;
mod threads;

use blink_batch::{Answer, Batch, Cut};
use blink_index::Index;
use blink_live::{Keeper, Live, LiveError, Pass};
use blink_locked::Gate;
use blink_rows::Allowance;
use blink_settings::RunError;
use dealing::deal_all;
use gathering::{answers_by_place, passes_of};
use needs::uses_of;
use std::alloc::Global;
use std::sync::Wait;
use std::thread::Threads;
use threads::run_all;

/// A batch's run at a table of words, as all its workers share it: the table, the batch, and the cut that gives each worker its
/// lane.
#[derive(Clone, Copy)]
pub(crate) struct LiveRun<'a> {
    pub live: &'a Live,
    pub batch: &'a Batch,
    pub cut: &'a Cut,
}

/// Runs the batch at a table of words, each lane with a pass of its own.
pub(crate) fn run_live<R: Threads + Wait + Sync, G: Gate + Sync>(
    rt: &R,
    alloc: Global,
    index: &mut Index,
    batch: &Batch,
    cut: &Cut,
    gate: &G,
) -> Result<Vec<Answer>, RunError>
    requires cut { IsLawfulCut batch.now cut.now.workers cut.now.lanes }
    ensures answers { IfOk result (λ given. given.items ≡ answers (map_of index.old) batch.now) }
    ensures map { IfOk result
        (λ given. map_of index.new ≡ map_after_all (map_of index.old) batch.now) }
    ensures numbered { IfOk result (λ given. IsNumberedInOrder index.new) }
    ensures fan { OnOk result (index.new.fan ≡ index.old.fan) }
    ensures pages { OnOk result (HasFewPagesMore index.old batch.now index.new) }
    ensures too_large { IsErrOf result RunError.TooLarge ↔ IsTooLarge index.old batch.now }
    ensures refused { IfErr result (MayRefuse cut.now.workers index.old batch.now) }
    ensures not_foreign { ¬ IsErrOf result RunError.Foreign }
    ensures unchanged { OnErr result (index.new ≡ index.old) }
{
    let (live, mut keeper) = match Live::open(alloc, index, allowance_of(batch)) {
        Ok(opened) => opened,
        Err(LiveError::TooLarge) => return Err(RunError::TooLarge),
        Err(_) => return Err(RunError::OutOfMemory),
    };
    let live_run = LiveRun {
        live: &live,
        batch,
        cut,
    };
    let (passes, answers) = run_passes(rt, alloc, live_run, &mut keeper, gate)?;
    match live.close(alloc, keeper, passes) {
        Ok(closed) => {
            entries_ascend(index);
            entries_ascend(&closed);
            *index = closed;
            Ok(answers)
        }
        Err(LiveError::OutOfMemory) => Err(RunError::OutOfMemory),
        Err(_) => unreachable!(),
    }
}

// Deals each lane a pass and runs the lane to its end. It returns the passes, and the answers of all lanes, place by place.
fn run_passes<R: Threads + Wait + Sync, G: Gate + Sync>(
    rt: &R,
    alloc: Global,
    live_run: LiveRun<'_>,
    keeper: &mut Keeper,
    gate: &G,
) -> Result<(Vec<Pass>, Vec<Answer>), RunError>
    requires cut { IsLawfulCut live_run.batch.now live_run.cut.now.workers live_run.cut.now.lanes }
    requires keeper { IsNewKeeper live_run.live.now live_run.batch.now keeper.old }
    ensures run { IfOk result
        (λ done. HaveRunLanes live_run.entry.live.now live_run.entry.batch.now
        live_run.entry.cut.now.workers live_run.entry.cut.now.lanes done.0.items done.1.items) }
    ensures dealt { IfOk result
        (λ _. HasDealtAll live_run.entry.live.now live_run.entry.batch.now
        live_run.entry.cut.now.workers keeper.new) }
    ensures refused { IfErr result (IsStartRefusal live_run.entry.cut.now.workers) }
{
    let Ok(runs) = deal_all(alloc, live_run, keeper) else {
        return Err(RunError::OutOfMemory);
    };
    let ended = run_all(rt, alloc, live_run, gate, runs)?;
    let Ok(answers) = answers_by_place(alloc, live_run.cut, &ended) else {
        return Err(RunError::OutOfMemory);
    };
    match passes_of(alloc, ended) {
        Ok(passes) => Ok((passes, answers)),
        Err(_) => Err(RunError::OutOfMemory),
    }
}

// The number of the batch's insertions, and of its deletions of both kinds, replacements and exchanges together.
fn allowance_of(batch: &Batch) -> Allowance
    ensures inserts { result.inserts ≡ count_by is_insert batch.now }
    ensures deletes { result.deletes ≡ count_by uses_deletion batch.now }
{
    let mut deletes = 0;
    for &op in batch.ops() {
        deletes += uses_of(op).1;
    }
    Allowance {
        inserts: batch.inserts() as u32,
        deletes,
    }
}

// Read for the proof: the entries of an index ascend.
fn entries_ascend(index: &Index)
    ensures { IsAscending (map_of index.now) }
{
    let _tree = index.rest();
}
