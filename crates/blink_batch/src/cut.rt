//! A batch cut among workers.
ghost use Rattle.std.specs.Prelude.{◌≡◌, ◌<◌, ◌≤◌, ◌+◌, ◌%◌, ◌↔◌, ◌⊎◌, EachIndex, length, map, IfErr, IfOk, MatchOption, IsOk, IsOkUnless, IsTrue, Err};
ghost use Rattle.std.specs.List.Sorted.{IsStrictlyIncreasing};
ghost use Rattle.blink_batch.specs.declared.batch.TheConstants.{BATCH_LIMIT};
ghost use Rattle.blink_batch.specs.declared.cut.CutError.TheVariants.{BadBounds, BadWorkers, OutOfMemory};
ghost use Rattle.blink_batch.specs.declared.cut.TheConstants.{WORKER_LIMIT};
ghost use Rattle.blink_operation.specs.Operation.{key_of};
ghost use Rattle.blink_batch.specs.Codes.{code_of_cut_error};
ghost use Rattle.blink_batch.specs.Ranges.{AreBadBounds, MayBound, lane_in_ranges, lanes_by_ranges};
ghost use Rattle.blink_batch.specs.Cut.{AreLanes, Assignment, IsCutFault, IsFirstSplitKey, IsLawfulCut, IsSplitKey, MayWork};

use crate::batch::Batch;
use crate::lanes::Lanes;
use crate::last_places::LastPlaces;
use blink_operation::Op;
use std::alloc::Global;
use std::marker::Model;
use thiserror::Error;

/// The greatest number of workers in a run.
pub const WORKER_LIMIT: u8 = 64;

/// Why a batch can't be cut, or lanes can't be assigned.
#[derive(Clone, Copy, Debug, PartialEq, Eq, Error)]
pub enum CutError {
    /// The number of workers isn't 1 to [`WORKER_LIMIT`].
    #[error("bad number of workers")]
    BadWorkers,
    /// The lanes are more or fewer than the operations.
    #[error("wrong number of lanes")]
    WrongLength,
    /// The lane of this operation, counted from 0, is no worker's: it isn't below the number of workers.
    #[error("operation {0}: bad lane")]
    BadLane(u32),
    /// This operation, counted from 0, is the first whose key had an earlier operation in another lane.
    #[error("operation {0}: split key")]
    SplitKey(u32),
    /// The bounds of the ranges aren't strictly ascending.
    #[error("bad bounds")]
    BadBounds,
    /// Memory for the lanes was refused.
    #[error("out of memory")]
    OutOfMemory,
}

impl CutError {
    /// Returns the refusal's code, the same in every release.
    pub fn code(&self) -> u8
        ensures { result ≡ code_of_cut_error self.now }
    {
        match self {
            CutError::BadWorkers => 2,
            CutError::WrongLength => 3,
            CutError::BadLane(_) => 4,
            CutError::SplitKey(_) => 5,
            CutError::BadBounds => 6,
            CutError::OutOfMemory => 7,
        }
    }
}

/// A batch cut among workers: each key is one worker's, and a worker's operations are its lane.
#[derive(Debug, Drop)]
pub struct Cut {
    workers: u8,
    lanes: Vec<u8>,
}

impl Model for Cut {
    ghost Value = { Assignment };

    ghost view = { λ c. record { workers = c.workers; lanes = c.lanes.items } };

    ghost invariant = { λ c. AreLanes c.workers c.lanes.items };
}

impl Cut {
    /// Cuts a batch by the remainder of each key: an operation's worker is its key modulo `workers`.
    pub fn by_residue(alloc: Global, batch: &Batch, workers: u8) -> Result<Cut, CutError>
        ensures workers { IfOk result (λ cut. cut.workers ≡ workers) }
        ensures lanes { IfOk result (λ cut. cut.lanes ≡ map (λ op. key_of op % workers) batch.now) }
        ensures lawful { IfOk result (λ cut. IsLawfulCut batch.now cut.workers cut.lanes) }
        ensures memory { (0 < workers) × (workers ≤ WORKER_LIMIT) → IsOkUnless result OutOfMemory }
        ensures bad_workers { result ≡ Err BadWorkers ↔ ((workers ≡ 0) ⊎ (WORKER_LIMIT < workers)) }
    {
        if workers == 0 || workers > WORKER_LIMIT {
            return Err(CutError::BadWorkers);
        }
        let mut lanes = match Vec::with_capacity(alloc, batch.len()) {
            Ok(lanes) => lanes,
            Err(_) => return Err(CutError::OutOfMemory),
        };
        for op in batch.ops() {
            lanes.push_reserved((op.key() % u64::from(workers)) as u8);
        }
        Ok(Cut { workers, lanes })
    }

    /// Cuts a batch by ranges of keys. There is one worker more than there are bounds, of which there may be 63. An operation's
    /// worker is the first i with `key <= bounds[i]`, or else the last worker. Each key takes a binary search in the bounds.
    pub fn by_ranges(alloc: Global, batch: &Batch, bounds: &[u64]) -> Result<Cut, CutError>
        ensures workers { IfOk result (λ cut. cut.workers ≡ length bounds.now + 1) }
        ensures lanes { IfOk result (λ cut. cut.lanes ≡ lanes_by_ranges bounds.now batch.now) }
        ensures lawful { IfOk result (λ cut. IsLawfulCut batch.now cut.workers cut.lanes) }
        ensures memory { MayBound bounds.now → IsOkUnless result OutOfMemory }
        ensures bad_workers { result ≡ Err BadWorkers ↔ (WORKER_LIMIT ≤ length bounds.now) }
        ensures bad_bounds { result ≡ Err BadBounds ↔ AreBadBounds bounds.now }
    {
        if bounds.len() >= usize::from(WORKER_LIMIT) {
            return Err(CutError::BadWorkers);
        }
        if !are_ascending(bounds) {
            return Err(CutError::BadBounds);
        }
        let mut lanes = match Vec::with_capacity(alloc, batch.len()) {
            Ok(lanes) => lanes,
            Err(_) => return Err(CutError::OutOfMemory),
        };
        for op in batch.ops() {
            lanes.push_reserved(lane_in_ranges(bounds, op.key()));
        }
        Ok(Cut {
            workers: bounds.len() as u8 + 1,
            lanes,
        })
    }

    /// Makes the cut that gives operation i of the batch to worker `lanes[i]`. The call refuses first as [`Lanes::new`] does, in
    /// its order. Then it refuses with `SplitKey`, which names the first operation whose key had an earlier operation in another
    /// lane. A refusal gives the lanes up.
    ///
    /// The call takes no memory from the heap, and tables of 64 KiB on the stack. The work grows with the batch, unless many
    /// keys fall into one bucket of the table. Then n operations take at worst n * (n - 1) / 2 comparisons of keys.
    pub fn from_lanes(batch: &Batch, workers: u8, lanes: Vec<u8>) -> Result<Cut, CutError>
        ensures workers { IfOk result (λ cut. cut.workers ≡ workers) }
        ensures lanes { IfOk result (λ cut. cut.lanes ≡ lanes.items) }
        ensures lawful { IfOk result (λ cut. IsLawfulCut batch.now cut.workers cut.lanes) }
        ensures taken { IsOk result
            ↔ (MayWork workers × IsLawfulCut batch.now workers lanes.items) }
        ensures refused { IfErr result (IsCutFault batch.now workers lanes.items) }
    {
        let given = match Lanes::new(batch, workers, lanes) {
            Ok(given) => given,
            Err(error) => return Err(error),
        };
        match first_split_key(batch.ops(), given.lanes()) {
            Some(place) => Err(CutError::SplitKey(place as u32)),
            None => Ok(Cut {
                workers: given.workers,
                lanes: given.lanes,
            }),
        }
    }

    /// Returns whether the cut is a lawful cut of this batch, which need not be the one that it was made for. The cut is lawful
    /// if it has as many lanes as the batch has operations, and no key of the batch is in two lanes.
    ///
    /// The call takes no memory from the heap, and tables of 64 KiB on the stack. The work grows with the batch, unless many
    /// keys fall into one bucket of the table. Then n operations take at worst n * (n - 1) / 2 comparisons of keys.
    pub fn is_for(&self, batch: &Batch) -> bool
        ensures { IsTrue result ↔ IsLawfulCut batch.now self.now.workers self.now.lanes }
    {
        let ops = batch.ops();
        self.lanes.len() == ops.len() && first_split_key(ops, &self.lanes).is_none()
    }

    /// Returns the same workers and lanes, for a run that takes any assignment. The call takes no memory.
    pub fn into_lanes(self) -> Lanes
        ensures workers { result.workers ≡ self.workers }
        ensures lanes { result.lanes ≡ self.lanes }
    {
        Lanes {
            workers: self.workers,
            lanes: self.lanes,
        }
    }

    /// Returns the worker of each operation, in the order of the batch.
    pub fn lanes(&self) -> &[u8]
        ensures lanes { result.now ≡ self.now.lanes }
        ensures workers { AreLanes self.now.workers self.now.lanes }
    {
        &self.lanes
    }

    /// Returns the number of workers, those without an operation included.
    pub fn workers(&self) -> u8
        ensures workers { result ≡ self.now.workers }
        ensures allowed { MayWork self.now.workers }
    {
        self.workers
    }
}

// Whether each bound is below the next.
fn are_ascending(bounds: &[u64]) -> bool
    ensures { IsTrue result ↔ IsStrictlyIncreasing bounds.now }
{
    bounds.is_sorted_by(|bound, next| *bound < *next)
}

// The lane of a key among ranges: the first whose bound is at least the key, or the one after the last bound.
fn lane_in_ranges(bounds: &[u64], key: u64) -> u8
    requires { MayBound bounds.now }
    ensures { result ≡ lane_in_ranges bounds.now key }
{
    bounds.partition_point(|bound| *bound < key) as u8
}

// The first operation whose key had an earlier operation in another lane.
fn first_split_key(ops: &[Op], lanes: &[u8]) -> Option<usize>
    requires lengths { length lanes.now ≡ length ops.now }
    requires limit { length ops.now ≤ BATCH_LIMIT }
    ensures { MatchOption result
        (EachIndex ops.now (λ place. ¬ IsSplitKey ops.now lanes.now place))
        (IsFirstSplitKey ops.now lanes.now) }
{
    let mut places = LastPlaces::new();
    for place in 0..ops.len() {
        // No key is split so far, so all earlier operations on the key are in the lane of the last one.
        match places.last_on_key(ops, place) {
            Some(earlier) if lanes[earlier] != lanes[place] => return Some(place),
            _ => places.note(ops, place),
        }
    }
    None
}
