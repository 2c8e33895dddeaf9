//! A batch's run on an index, by threads that take each step under one lock.
ghost use Rattle.std.specs.Prelude.{◌≡◌, ◌↔◌, ◌≤◌, [], length, vec_capacity, IfErr, IfOk, IsErrOf, IsOk, OnErr, OnOk};
ghost use Rattle.blink_batch.specs.{IsLawfulCut, answers, map_after_all};
ghost use Rattle.blink_index.specs.{map_of};
ghost use Rattle.blink_steps.specs.{IsTooLarge};
ghost use Rattle.blink_locked.specs.Run.{HasFewPagesMore, IsReplayed, IsSettled, MayRefuse};
ghost use Rattle.blink_locked.specs.Starts.{AtEach, IsStartRefusal, TellsNext};

use crate::book::Book;
use crate::gate::Gate;
use crate::locked_run::LockedRun;
use crate::origin::Origin;
use blink_batch::{Answer, Batch, Cut};
use blink_index::Index;
use blink_index::laws::no_other_map_is_kept;
use blink_rest::Rest;
use blink_settings::RunError;
use std::alloc::Global;
use std::marker::Brand;
use std::sync::Wait;
use std::thread::{self, Promise, PromisedHandle, Scope, Threads};

/// Runs a batch on an index: each worker's lane, an empty one too, in a thread of its own, and each step under one lock.
/// Answers, index and refusals are those of `run_batch` of `blink_run`, which calls it for the driver `Locked`.
pub fn run_locked<R: Threads + Wait + Sync, G: Gate + Sync>(
    rt: &R,
    alloc: Global,
    index: &mut Index,
    batch: &Batch,
    cut: &Cut,
    gate: &G,
) -> Result<Vec<Answer>, RunError>
    requires cut { IsLawfulCut batch.now cut.now.workers cut.now.lanes }
    ensures answers { IfOk result (λ given. given.items ≡ answers (map_of index.old) batch.now) }
    ensures map { IfOk result
        (λ given. map_of index.new ≡ map_after_all (map_of index.old) batch.now) }
    ensures replayed { IfOk result (λ given. IsReplayed index.old batch.now cut.now index.new) }
    ensures fan { OnOk result (index.new.fan ≡ index.old.fan) }
    ensures pages { OnOk result (HasFewPagesMore index.old batch.now index.new) }
    ensures too_large { IsErrOf result RunError.TooLarge ↔ IsTooLarge index.old batch.now }
    ensures refused { IfErr result
        (MayRefuse cut.now.workers index.old batch.now) }
    ensures unchanged { OnErr result (index.new ≡ index.old) }
{
    let (tree, answers) = run_book::<Brand, R, G>(rt, alloc, index.rest(), batch, cut, gate)?;
    no_other_map_is_kept();
    *index = Index::from_rest(tree);
    Ok(answers)
}

// Runs the batch at a book over this tree, and returns the tree that it leaves, and its answers.
fn run_book<B: Origin + Send + Sync, R: Threads + Wait + Sync, G: Gate + Sync>(
    rt: &R,
    alloc: Global,
    start: &Rest,
    batch: &Batch,
    cut: &Cut,
    gate: &G,
) -> Result<(Rest, Vec<Answer>), RunError>
    requires cut { IsLawfulCut batch.now cut.now.workers cut.now.lanes }
    requires picked { (B.start ≡ start.now) × (B.ops ≡ batch.now) × (B.assignment ≡ cut.now) }
    ensures settled { IfOk result
        (λ done. IsSettled start.now batch.now cut.now done.0 done.1.items) }
    ensures fits { IsOk result → ¬ IsTooLarge start.now batch.now }
    ensures refused { IfErr result
        (MayRefuse cut.now.workers start.now batch.now) }
{
    let book = Book::<B>::new(alloc, start, batch, cut)?;
    let locked_run = LockedRun::new(book);
    run_workers(rt, alloc, &locked_run, cut, gate)?;
    locked_run.into_book().settle(alloc)
}

/// The promise of a worker's thread at a locked run: only which worker's thread it is.
#[derive(Clone, Copy)]
struct IsOf {
    worker: u8,
}

impl Promise<()> for IsOf {
    ghost use Rattle.std.specs.Prelude.{⊤};

    ghost kept_by = { λ _ _. ⊤ };
}

// Starts a thread for each worker, and returns when all have left the locked run. If one can't be started, the run is stopped.
fn run_workers<B: Origin + Send + Sync, R: Threads + Wait + Sync, G: Gate + Sync>(
    rt: &R,
    alloc: Global,
    locked_run: &LockedRun<B>,
    cut: &Cut,
    gate: &G,
) -> Result<(), RunError>
    ensures { IfErr result (IsStartRefusal cut.now.workers) }
{
    thread::scope(
        thread::scope_env(),
        rt,
        move |scope| -> Result<(), RunError>
            ensures { IfErr result (IsStartRefusal cut.entry.now.workers) }
        {
            let Ok(mut handles) = Vec::with_capacity(alloc, usize::from(cut.workers())) else {
                return Err(RunError::OutOfMemory);
            };
            let started = start_all(scope, rt, gate, locked_run, cut, &mut handles);
            if started.is_err() {
                locked_run.stop(rt);
            }
            started
        },
    )
}

// Starts the workers' threads, one after another, up to the first that can't be started.
fn start_all<'s, E, B: Origin + Send + Sync, R: Threads + Wait + Sync, G: Gate + Sync>(
    scope: &Scope<'s, E>,
    rt: &'s R,
    gate: &'s G,
    locked_run: &'s LockedRun<B>,
    cut: &'s Cut,
    handles: &mut Vec<PromisedHandle<(), IsOf>>,
) -> Result<(), RunError>
    requires none_yet { handles.old.items ≡ [] }
    requires room { cut.now.workers ≤ vec_capacity handles.old }
    ensures its_own { AtEach (λ worker handle. handle.promise.worker ≡ worker) handles.new.items }
    ensures all { OnOk result (length handles.new.items ≡ cut.now.workers) }
    ensures refused { IfErr result (TellsNext handles.new.items cut.now.workers) }
{
    let lanes = cut.lanes();
    for worker in 0..cut.workers() {
        match scope.spawn_with(
            IsOf { worker },
            move || locked_run.run_lane(rt, gate, worker, lanes),
        ) {
            Ok(handle) => handles.push_reserved(handle),
            Err(_) => return Err(RunError::Worker(worker)),
        }
    }
    Ok(())
}
