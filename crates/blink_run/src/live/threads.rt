//! The threads of the lanes, one for each.
ghost use Rattle.std.specs.Prelude.{◌≡◌, ◌≤◌, [], length, vec_capacity, vec_len, IfErr, IfOk, OnOk};
ghost use Rattle.std.specs.List.{AllZip};
ghost use Rattle.blink_run.specs.Lanes.{HasRun, HaveRunBy, MayRun, MayRunAll, lane_ops, promise_of};
ghost use Rattle.blink_locked.specs.{AtEach, IsStartRefusal, TellsNext};

use crate::live::LiveRun;
use crate::live::lane::LaneRun;
use blink_locked::Gate;
use blink_settings::RunError;
use std::alloc::Global;
use std::sync::Wait;
use std::thread::{self, Promise, PromisedHandle, Scope, Threads};

/// The promise of a worker's thread: its lane has run to its end.
#[derive(Clone, Copy)]
struct RunsLane<'a> {
    live_run: LiveRun<'a>,
    worker: u8,
}

impl<'a> Promise<LaneRun> for RunsLane<'a> {
    ghost kept_by = { λ promise run. HasRun promise.live_run.live.now
        (lane_ops promise.live_run.batch.now promise.live_run.cut.now.lanes promise.worker) run };
}

/// Runs each worker's lane to its end, in a thread of its own, and returns when all have ended.
///
/// The call refuses with `Worker`, which names the smallest worker that couldn't be started; the lanes of the workers before it
/// have run to their ends then too. It refuses with `OutOfMemory`, if memory was refused; then no thread is started.
pub(crate) fn run_all<R: Threads + Wait + Sync, G: Gate + Sync>(
    rt: &R,
    alloc: Global,
    live_run: LiveRun<'_>,
    gate: &G,
    runs: Vec<LaneRun>,
) -> Result<Vec<LaneRun>, RunError>
    requires a_lane_each { length live_run.cut.now.lanes ≡ length live_run.batch.now }
    requires may { MayRunAll live_run.live.now live_run.batch.now live_run.cut.now.workers
        live_run.cut.now.lanes runs.items }
    ensures ended { IfOk result (λ ended.
        HaveRunBy live_run.entry.live.now live_run.entry.batch.now live_run.entry.cut.now ended.items) }
    ensures refused { IfErr result (IsStartRefusal live_run.entry.cut.now.workers) }
{
    // Captured one by one: of a captured struct of references the closure's clauses wouldn't be known here.
    let LiveRun { live, batch, cut } = live_run;
    thread::scope(
        thread::scope_env(),
        rt,
        move |scope| -> Result<Vec<LaneRun>, RunError>
            requires a_lane_each { length cut.now.lanes ≡ length batch.now }
            requires may { MayRunAll live.now batch.now cut.now.workers cut.now.lanes runs.items }
            ensures ended { IfOk result
                (λ ended. HaveRunBy live.entry.now batch.entry.now cut.entry.now ended.items) }
            ensures refused { IfErr result (IsStartRefusal cut.entry.now.workers) }
        {
            let workers = usize::from(cut.workers());
            let Ok(mut handles) = Vec::with_capacity(alloc, workers) else {
                return Err(RunError::OutOfMemory);
            };
            let Ok(ended) = Vec::with_capacity(alloc, workers) else {
                return Err(RunError::OutOfMemory);
            };
            let live_run = LiveRun { live, batch, cut };
            start_all(scope, rt, gate, live_run, runs, &mut handles)?;
            Ok(join_into(rt, handles, ended))
        },
    )
}

// Starts the threads of the workers' lanes, one after another, up to the first that can't be started.
fn start_all<'s, E, R: Threads + Wait + Sync, G: Gate + Sync>(
    scope: &Scope<'s, E>,
    rt: &'s R,
    gate: &'s G,
    live_run: LiveRun<'s>,
    runs: Vec<LaneRun>,
    handles: &mut Vec<PromisedHandle<LaneRun, RunsLane<'s>>>,
) -> Result<(), RunError>
    requires a_lane_each { length live_run.cut.now.lanes ≡ length live_run.batch.now }
    requires may { MayRunAll live_run.live.now live_run.batch.now live_run.cut.now.workers
        live_run.cut.now.lanes runs.items }
    requires none_yet { handles.old.items ≡ [] }
    requires room { live_run.cut.now.workers ≤ vec_capacity handles.old }
    ensures its_own { AtEach (λ worker handle. handle.promise ≡ promise_of live_run.entry worker)
        handles.new.items }
    ensures all { OnOk result (length handles.new.items ≡ live_run.entry.cut.now.workers) }
    ensures refused { IfErr result (TellsNext handles.new.items live_run.entry.cut.now.workers) }
{
    // Read for the proof: there are fewer than 256.
    let _workers = live_run.cut.workers();
    for run in runs {
        let worker = handles.len() as u8;
        let lane = RunsLane { live_run, worker };
        handles.push_reserved(start(scope, rt, gate, lane, run)?);
    }
    Ok(())
}

// Starts the thread of a worker's lane.
fn start<'s, E, R: Threads + Wait + Sync, G: Gate + Sync>(
    scope: &Scope<'s, E>,
    rt: &'s R,
    gate: &'s G,
    lane: RunsLane<'s>,
    run: LaneRun,
) -> Result<PromisedHandle<LaneRun, RunsLane<'s>>, RunError>
    requires a_lane_each { length lane.live_run.cut.now.lanes ≡ length lane.live_run.batch.now }
    requires may { MayRun lane.live_run.live.now
        (lane_ops lane.live_run.batch.now lane.live_run.cut.now.lanes lane.worker) run }
    ensures promise { IfOk result (λ handle. handle.promise ≡ lane.entry) }
    ensures refused { IfErr result (λ error. error ≡ RunError.Worker lane.entry.worker) }
{
    // As in `run_all`.
    let RunsLane { live_run, worker } = lane;
    let LiveRun { live, batch, cut } = live_run;
    match scope.spawn_with(
        lane,
        move || -> LaneRun
            requires a_lane_each { length cut.now.lanes ≡ length batch.now }
            requires may { MayRun live.now (lane_ops batch.now cut.now.lanes worker) run }
            ensures { HasRun live.entry.now
                (lane_ops batch.entry.now cut.entry.now.lanes worker) result }
        { run.to_end(rt, LiveRun { live, batch, cut }, gate, worker) },
    ) {
        Ok(handle) => Ok(handle),
        Err(_) => Err(RunError::Worker(lane.worker)),
    }
}

// Joins the threads, and adds what they return to `all` in the order of the handles.
fn join_into<T: Drop, P: Promise<T>, R: Threads>(
    rt: &R,
    handles: Vec<PromisedHandle<T, P>>,
    mut all: Vec<T>,
) -> Vec<T>
    requires none_yet { all.items ≡ [] }
    requires room { vec_len handles ≤ vec_capacity all }
    ensures { AllZip (λ handle given. P.kept_by handle.promise given) handles.items result.items }
{
    for handle in handles {
        all.push_reserved(handle.join(rt));
    }
    all
}
