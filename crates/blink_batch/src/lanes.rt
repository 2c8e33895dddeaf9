//! Any assignment of a batch's operations to workers.
ghost use Rattle.std.specs.Prelude.{◌≡◌, ◌↔◌, IfOk, IfErr, IsOk};
ghost use Rattle.blink_batch.specs.Cut.{AreLanes, Assignment, IsAssignment, IsLanesFault, MayWork};

use crate::batch::Batch;
use crate::cut::{CutError, WORKER_LIMIT};
use std::marker::Model;

/// The worker of each operation of a batch. Unlike a `Cut`, an assignment may give one key to several workers.
#[derive(Debug, Drop)]
pub struct Lanes {
    pub(crate) workers: u8,
    pub(crate) lanes: Vec<u8>,
}

impl Model for Lanes {
    ghost Value = { Assignment };

    ghost view = { λ l. record { workers = l.workers; lanes = l.lanes.items } };

    ghost invariant = { λ l. AreLanes l.workers l.lanes.items };
}

impl Lanes {
    /// Makes the assignment that gives operation i of the batch to worker `lanes[i]`. The call takes no memory. If several
    /// causes apply, it refuses with the first in the order of the variants of [`CutError`], and of several bad lanes with the
    /// first. A refusal gives the lanes up.
    pub fn new(batch: &Batch, workers: u8, lanes: Vec<u8>) -> Result<Lanes, CutError>
        ensures workers { IfOk result (λ given. given.workers ≡ workers) }
        ensures lanes { IfOk result (λ given. given.lanes ≡ lanes.items) }
        ensures taken { IsOk result ↔ IsAssignment batch.now workers lanes.items }
        ensures refused { IfErr result (IsLanesFault batch.now workers lanes.items) }
    {
        if workers == 0 || workers > WORKER_LIMIT {
            return Err(CutError::BadWorkers);
        }
        if lanes.len() != batch.ops().len() {
            return Err(CutError::WrongLength);
        }
        for place in 0..lanes.len() {
            if lanes[place] >= workers {
                return Err(CutError::BadLane(place as u32));
            }
        }
        Ok(Lanes { workers, lanes })
    }

    /// Returns the worker of each operation, in the order of the batch.
    pub fn lanes(&self) -> &[u8]
        ensures lanes { result.now ≡ self.now.lanes }
        ensures workers { AreLanes self.now.workers self.now.lanes }
    {
        &self.lanes
    }

    /// Returns the number of workers, those without an operation included.
    pub fn workers(&self) -> u8
        ensures workers { result ≡ self.now.workers }
        ensures allowed { MayWork self.now.workers }
    {
        self.workers
    }
}

/// Two assignments are equal exactly if their numbers of workers are, and their lanes are, one by one. The comparison takes no
/// memory.
impl PartialEq for Lanes {
    ghost use Rattle.std.specs.Prelude.{◌≡◌, ◌↔◌, IsTrue};
    ghost use Rattle.std.specs.Cmp.{partial_equiv_from_equiv};
    ghost use Rattle.blink_batch.specs.Same.{same_assignment, same_assignment_laws};

    ghost eq = { same_assignment };

    ghost laws = { partial_equiv_from_equiv same_assignment_laws };

    fn eq(&self, other: &Lanes) -> bool
        ensures value { result ≡ same_assignment self.now other.now }
        ensures exact { IsTrue result ↔ (self.now ≡ other.now) }
    {
        self.workers == other.workers && self.lanes == other.lanes
    }
}

impl Eq for Lanes {
    ghost use Rattle.blink_batch.specs.Same.{same_assignment_laws};

    ghost laws = { same_assignment_laws };
}
