//! The results of the lanes when all have ended.
ghost use Rattle.std.specs.Prelude.{◌≡◌, ◌<◌, ℕ, All, Some, length, map, slice_get, IfOk};
ghost use Rattle.blink_batch.specs.{lane_of};
ghost use Rattle.blink_run.specs.Lanes.{AreGathered};
ghost use Rattle.blink_run.specs.declared.live.lane.LaneRun.{LaneRun};

use crate::live::lane::LaneRun;
use blink_batch::{Answer, Cut, WORKER_LIMIT};
use blink_live::Pass;
use std::alloc::{AllocError, Global};

/// Returns the answers of all lanes, each at its operation's place in the batch.
pub(crate) fn answers_by_place(
    alloc: Global,
    cut: &Cut,
    runs: &[LaneRun],
) -> Result<Vec<Answer>, AllocError>
    requires as_many { length runs.now ≡ cut.now.workers }
    requires whole { (worker : ℕ) (run : LaneRun) → slice_get runs.now worker ≡ Some run
        → length run.answers.items ≡ length (lane_of cut.now.lanes worker) }
    ensures { IfOk result (λ given. AreGathered cut.now.lanes runs.now given.items) }
{
    let lanes = cut.lanes();
    let mut given = Vec::with_capacity(alloc, lanes.len())?;
    let mut next = [0usize; WORKER_LIMIT as usize];
    for &lane in lanes {
        let worker = usize::from(lane);
        given.push_reserved(runs[worker].answers[next[worker]]);
        next[worker] += 1;
    }
    Ok(given)
}

/// Returns the passes of all lanes.
pub(crate) fn passes_of(alloc: Global, runs: Vec<LaneRun>) -> Result<Vec<Pass>, AllocError>
    ensures { IfOk result (λ passes. passes.items ≡ map (λ run. run.pass) runs.items) }
{
    runs.into_iter().map(pass_of).collect(alloc)
}

// A lane's pass.
fn pass_of(run: LaneRun) -> Pass
    ensures { result ≡ run.pass }
{
    let LaneRun { pass, answers: _ } = run;
    pass
}
