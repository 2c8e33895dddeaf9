//! The needs of a worker's lane: what its pass is dealt.
ghost use Rattle.std.specs.Prelude.{◌≡◌, ◌↔◌, ℕ, ◌+◌, ◌≤◌, [], ◌∷◌, length, Contains, IfOk, count_by};
ghost use Rattle.blink_batch.specs.{is_insert};
ghost use Rattle.blink_live.specs.{NoneIsTaken};
ghost use Rattle.blink_run.specs.Lanes.{IsNeeded, lane_ops, uses_deletion};

use blink_batch::{Batch, Op};
use std::alloc::{AllocError, Global};

/// The keys of a lane's operations, each once; the number of its operations, of the insertions among them, and of those that use
/// a deletion.
#[derive(Drop)]
pub(crate) struct Needs {
    pub keys: Vec<u64>,
    pub operations: usize,
    pub inserts: u32,
    pub deletes: u32,
}

impl Needs {
    /// Returns the needs of a worker's lane.
    pub(crate) fn of(
        alloc: Global,
        batch: &Batch,
        lanes: &[u8],
        worker: u8,
    ) -> Result<Needs, AllocError>
        requires a_lane_each { length lanes.now ≡ length batch.now }
        ensures { IfOk result (IsNeeded (lane_ops batch.now lanes.now worker)) }
    {
        let mut keys = Vec::new(alloc);
        let mut operations = 0;
        let mut inserts = 0;
        let mut deletes = 0;
        let ops = batch.ops();
        for place in 0..lanes.len() {
            if lanes[place] == worker {
                let op = ops[place];
                keys.push(op.key())?;
                let (insert, delete) = uses_of(op);
                operations += 1;
                inserts += insert;
                deletes += delete;
            }
        }
        Ok(Needs {
            keys: each_once(keys),
            operations,
            inserts,
            deletes,
        })
    }
}

// The number of insertions, and of deletions, that an operation uses of its pass. Each change but an insertion uses a deletion.
pub(crate) fn uses_of(op: Op) -> (u32, u32)
    ensures inserts { result.0 ≡ count_by is_insert (op ∷ []) }
    ensures deletes { result.1 ≡ count_by uses_deletion (op ∷ []) }
    ensures one { result.0 + result.1 ≤ 1 }
{
    match op {
        Op::Find(_) => (0, 0),
        Op::Insert(..) => (1, 0),
        Op::Delete(_) | Op::Replace(..) | Op::Exchange(..) | Op::DeleteExact(..) => (0, 1),
    }
}

// The same keys, each once.
fn each_once(mut keys: Vec<u64>) -> Vec<u64>
    ensures same { (key : ℕ) → Contains result.items key ↔ Contains keys.items key }
    ensures once { NoneIsTaken [] result.items }
{
    keys.sort_unstable();
    keys.dedup();
    keys
}
