//! Operations that are run together.
ghost use Rattle.std.specs.Prelude.{◌≡◌, ◌<◌, ◌≤◌, ◌↔◌, List, length, All, count_by, IfOk, IsOk, Err};
ghost use Rattle.blink_operation.specs.declared.operation.Op.{Op};
ghost use Rattle.blink_batch.specs.declared.batch.BatchError.TheVariants.{TooMany};
ghost use Rattle.blink_batch.specs.declared.batch.TheConstants.{BATCH_LIMIT};
ghost use Rattle.blink_operation.specs.Batch.{FitsWords, is_insert};

use blink_operation::Op;
use std::marker::Model;
use thiserror::Error;

/// The greatest number of operations in a batch.
pub const BATCH_LIMIT: usize = 8192;

/// Why operations make no batch.
#[derive(Clone, Copy, Debug, PartialEq, Eq, Error)]
pub enum BatchError {
    /// The operations are more than [`BATCH_LIMIT`].
    #[error("too many operations")]
    TooMany,
}

impl BatchError {
    /// Returns the refusal's code, the same in every release.
    pub fn code(&self) -> u8
        ensures { result ≡ 1 }
    {
        match self {
            BatchError::TooMany => 1,
        }
    }
}

/// Operations that are run together, at most [`BATCH_LIMIT`] of them.
#[derive(Debug, Drop)]
pub struct Batch {
    ops: Vec<Op>,
    inserts: usize,
}

impl Model for Batch {
    ghost Value = { List Op };

    ghost view = { λ b. b.ops.items };

    ghost invariant = { λ b. (length b.ops.items ≤ BATCH_LIMIT) × All FitsWords b.ops.items
        × (b.inserts ≡ count_by is_insert b.ops.items) };
}

impl Batch {
    /// Makes the batch of these operations. The call takes no memory. It refuses with `BatchError`, if the operations are more
    /// than [`BATCH_LIMIT`]; a refusal gives the operations up.
    pub fn new(ops: Vec<Op>) -> Result<Batch, BatchError>
        ensures batch { IfOk result (λ batch. batch ≡ ops.items) }
        ensures taken { IsOk result ↔ (length ops.items ≤ BATCH_LIMIT) }
        ensures too_many { result ≡ Err TooMany ↔ (BATCH_LIMIT < length ops.items) }
    {
        if ops.len() > BATCH_LIMIT {
            return Err(BatchError::TooMany);
        }
        let mut inserts = 0usize;
        for op in &ops {
            if is_insert(op) {
                inserts += 1;
            }
        }
        Ok(Batch { ops, inserts })
    }

    /// Returns the operations, in the order in which one thread runs them.
    pub fn ops(&self) -> &[Op]
        ensures ops { result.now ≡ self.now }
        ensures words { All FitsWords self.now }
        ensures limit { length self.now ≤ BATCH_LIMIT }
    {
        // Read for the proof: the batch's type invariant becomes known.
        let _inserts = self.inserts;
        &self.ops
    }

    /// Returns the number of operations.
    pub fn len(&self) -> usize
        ensures { result ≡ length self.now }
    {
        self.ops.len()
    }

    /// Returns the number of insertions among the operations.
    pub fn inserts(&self) -> usize
        ensures { result ≡ count_by is_insert self.now }
    {
        self.inserts
    }
}

/// Two batches are equal exactly if their operations are, one by one. The comparison takes no memory.
impl PartialEq for Batch {
    ghost use Rattle.std.specs.Prelude.{◌≡◌, ◌↔◌, IsTrue};
    ghost use Rattle.std.specs.Cmp.{partial_equiv_from_equiv};
    ghost use Rattle.blink_batch.specs.Same.{same_operations, same_operations_laws};

    ghost eq = { same_operations };

    ghost laws = { partial_equiv_from_equiv same_operations_laws };

    fn eq(&self, other: &Batch) -> bool
        ensures value { result ≡ same_operations self.now other.now }
        ensures exact { IsTrue result ↔ (self.now ≡ other.now) }
    {
        self.ops == other.ops
    }
}

impl Eq for Batch {
    ghost use Rattle.blink_batch.specs.Same.{same_operations_laws};

    ghost laws = { same_operations_laws };
}

// Whether an operation is an insertion. Its numbers are read, so they are known to be words.
fn is_insert(op: &Op) -> bool
    ensures value { result ≡ is_insert op.now }
    ensures words { FitsWords op.now }
{
    match *op {
        Op::Find(_key) => false,
        Op::Insert(_key, _pointer) => true,
        Op::Delete(_key) => false,
        Op::Replace(_key, _pointer) => false,
        Op::Exchange(_key, _expected, _pointer) => false,
        Op::DeleteExact(_key, _expected) => false,
    }
}
