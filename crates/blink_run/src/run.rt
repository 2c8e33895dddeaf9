//! A batch's run on an index, by threads.
ghost use Rattle.std.specs.Prelude.{◌≡◌, ◌↔◌, IfErr, IfOk, IsErrOf, OnErr, OnOk};
ghost use Rattle.blink_batch.specs.{IsLawfulCut, answers, map_after_all};
ghost use Rattle.blink_index.specs.{map_of};
ghost use Rattle.blink_steps.specs.{IsTooLarge};
ghost use Rattle.blink_live.specs.{IsNumberedInOrder};
ghost use Rattle.blink_locked.specs.{HasFewPagesMore, IsReplayed, MayRefuse};

use crate::live::run_live;
use blink_batch::{Answer, Batch, Cut};
use blink_index::Index;
use blink_locked::{Gate, run_locked};
use blink_settings::{Driver, RunError};
use std::alloc::Global;
use std::sync::Wait;
use std::thread::Threads;

/// Runs a batch on an index: each worker's lane, an empty one too, in a thread of its own. The answers are those of one thread
/// that runs the batch in order on the plain map of the index, place by place. Afterwards the index has that map.
///
/// Each error leaves the index as it was. The call refuses first with `TooLarge`. It refuses with `Worker`, which names the
/// smallest worker that couldn't be started, before `OutOfMemory`, if both apply. By the driver `Locked` it would refuse with
/// `Foreign` after a thread that had left its lane before the end. No thread does: tests show it, and no clause says it. The
/// contract says nothing of how long the call waits for its threads.
pub fn run_batch<R: Threads + Wait + Sync, G: Gate + Sync>(
    rt: &R,
    alloc: Global,
    index: &mut Index,
    batch: &Batch,
    cut: &Cut,
    driver: Driver,
    gate: &G,
) -> Result<Vec<Answer>, RunError>
    requires cut { IsLawfulCut batch.now cut.now.workers cut.now.lanes }
    ensures answers { IfOk result (λ given. given.items ≡ answers (map_of index.old) batch.now) }
    ensures map { IfOk result
        (λ given. map_of index.new ≡ map_after_all (map_of index.old) batch.now) }
    ensures fan { OnOk result (index.new.fan ≡ index.old.fan) }
    ensures pages { OnOk result (HasFewPagesMore index.old batch.now index.new) }
    ensures too_large { IsErrOf result RunError.TooLarge ↔ IsTooLarge index.old batch.now }
    ensures refused { IfErr result (MayRefuse cut.now.workers index.old batch.now) }
    ensures not_foreign { driver ≡ Driver.Live → ¬ IsErrOf result RunError.Foreign }
    ensures unchanged { OnErr result (index.new ≡ index.old) }

    // What the driver `Locked` alone guarantees, and what `Live` alone does.
    ensures replayed { driver ≡ Driver.Locked
        → IfOk result (λ given. IsReplayed index.old batch.now cut.now index.new) }
    ensures numbered { driver ≡ Driver.Live → IfOk result (λ given. IsNumberedInOrder index.new) }
{
    match driver {
        Driver::Locked => run_locked(rt, alloc, index, batch, cut, gate),
        Driver::Live => run_live(rt, alloc, index, batch, cut, gate),
    }
}
