//! Dealing: the keeper of a table deals a pass to each worker's lane.
ghost use Rattle.std.specs.Prelude.{◌≡◌, ◌+◌, ◌<◌, ◌≤◌, [], IfOk, OnOk, vec_capacity};
ghost use Rattle.blink_batch.specs.{IsLawfulCut};
ghost use Rattle.blink_live.specs.{HasDealt, IsDealt, LacksAllowance, NoneIsTaken, IsKeeperOf, taken_of};
ghost use Rattle.blink_run.specs.Lanes.{HasDealtAll, HasDealtBefore, IsNewKeeper, MayRun, MayRunAll, lane_ops};

use crate::live::LiveRun;
use crate::live::lane::LaneRun;
use crate::live::needs::Needs;
use blink_live::{Keeper, Live, LiveError};
use std::alloc::{AllocError, Global};

/// Makes a run for each worker's lane, with room for its answers and a pass for its keys.
pub(crate) fn deal_all(
    alloc: Global,
    live_run: LiveRun<'_>,
    keeper: &mut Keeper,
) -> Result<Vec<LaneRun>, AllocError>
    requires cut { IsLawfulCut live_run.batch.now live_run.cut.now.workers live_run.cut.now.lanes }
    requires keeper { IsNewKeeper live_run.live.now live_run.batch.now keeper.old }
    ensures runs { IfOk result
        (λ runs. MayRunAll live_run.entry.live.now live_run.entry.batch.now
        live_run.entry.cut.now.workers live_run.entry.cut.now.lanes runs.items) }
    ensures keeper { OnOk result (HasDealtAll live_run.entry.live.now live_run.entry.batch.now
        live_run.entry.cut.now.workers keeper.new) }
{
    let workers = live_run.cut.workers();
    let mut runs = Vec::with_capacity(alloc, usize::from(workers))?;
    for worker in 0..workers {
        runs.push_reserved(deal_lane(alloc, live_run, keeper, worker)?);
    }
    Ok(runs)
}

// Makes the run of a worker's lane.
fn deal_lane(
    alloc: Global,
    live_run: LiveRun<'_>,
    keeper: &mut Keeper,
    worker: u8,
) -> Result<LaneRun, AllocError>
    requires cut { IsLawfulCut live_run.batch.now live_run.cut.now.workers live_run.cut.now.lanes }
    requires worker { worker < live_run.cut.now.workers }
    requires before { HasDealtBefore live_run.live.now live_run.batch.now live_run.cut.now.lanes
        worker keeper.old }
    ensures run { IfOk result (MayRun live_run.entry.live.now
        (lane_ops live_run.entry.batch.now live_run.entry.cut.now.lanes worker)) }
    ensures dealt { OnOk result (HasDealtBefore live_run.entry.live.now live_run.entry.batch.now
        live_run.entry.cut.now.lanes (worker + 1) keeper.new) }
{
    let LiveRun { live, batch, cut } = live_run;
    let needs = Needs::of(alloc, batch, cut.lanes(), worker)?;
    deal(alloc, live, keeper, needs)
}

// Makes a run whose pass has what the lane needs.
fn deal(
    alloc: Global,
    live: &Live,
    keeper: &mut Keeper,
    needs: Needs,
) -> Result<LaneRun, AllocError>
    requires its_own { IsKeeperOf live.now keeper.old }
    requires free { NoneIsTaken (taken_of keeper.old) needs.keys.items }
    requires allowed { ¬ LacksAllowance keeper.old needs.inserts needs.deletes }
    ensures pass { IfOk result
        (λ run. IsDealt live.now keeper.old needs.keys.items needs.inserts needs.deletes run.pass) }
    ensures none_yet { IfOk result (λ run. run.answers.items ≡ []) }
    ensures room { IfOk result (λ run. needs.operations ≤ vec_capacity run.answers) }
    ensures rest { OnOk result
        (HasDealt live.now keeper.old keeper.new needs.keys.items needs.inserts needs.deletes) }
{
    let Needs {
        keys,
        operations,
        inserts,
        deletes,
    } = needs;
    let answers = Vec::with_capacity(alloc, operations)?;
    match live.deal(keeper, keys, inserts, deletes) {
        Ok(pass) => Ok(LaneRun { pass, answers }),
        Err(refusal) => match refusal {
            LiveError::DealOutOfMemory => Err(AllocError),
            _ => unreachable!(),
        },
    }
}
