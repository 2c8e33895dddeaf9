//! Making an index: without an entry, of entries in any order, and of ascending entries.
ghost use Rattle.std.specs.Prelude.{◌≡◌, ◌↔◌, ◌≤◌, [], IfOk, IfErr, IsErrOf, length, map};
ghost use Rattle.blink_batch.specs.{map_after_all};
ghost use Rattle.blink_batch.specs.declared.batch.TheConstants.{BATCH_LIMIT};
ghost use Rattle.blink_index.specs.{IsInOrder, IsSortedRefusal, NeedsPages, map_of};
ghost use Rattle.blink_page.specs.{IsBadFan};
ghost use Rattle.blink_store.specs.{new_store};
ghost use Rattle.blink_handles.specs.Codes.{IsNewFault};
ghost use Rattle.blink_handles.specs.Raw.{insertion_of};
ghost use Rattle.blink_handles.specs.Runs.{HasEntriesOf, HasPagesFor, HasPagesOf, IsMakeRefusal, IsStartRefusal};

use crate::batch::run_to_end;
use crate::raw::RawEntry;
use crate::refusal::Refusal;
use blink_batch::{BATCH_LIMIT, Batch, Entry, Op};
use blink_index::{Index, IndexError, SortedError};
use std::alloc::{AllocError, Global};

/// An index without an entry, or the refusal.
pub fn new_index(alloc: Global, fan: u8) -> Result<Index, Refusal>
    ensures index { IfOk result (λ index. index ≡ new_store fan) }
    ensures empty { IfOk result (λ index. map_of index ≡ []) }
    ensures bad_fan { IsErrOf result Refusal.BadFan ↔ IsBadFan fan }
    ensures refused { IfErr result IsNewFault }
{
    match Index::new(alloc, fan) {
        Ok(index) => Ok(index),
        Err(IndexError::BadFan) => Err(Refusal::BadFan),
        Err(IndexError::OutOfMemory) => Err(Refusal::OutOfMemory),
    }
}

/// The index of the entries, which are inserted a batch at a time.
pub fn index_of(alloc: Global, fan: u8, entries: &[RawEntry]) -> Result<Index, Refusal>
    ensures index { IfOk result (HasEntriesOf entries.now) }
    ensures fan { IfOk result (λ index. index.fan ≡ fan) }
    ensures pages { IfOk result (HasPagesOf entries.now) }
    ensures refused { IfErr result (IsMakeRefusal fan entries.now) }
{
    let mut index = new_index(alloc, fan)?;
    let mut left = entries;
    while !left.is_empty() {
        let (part, rest) = left.split_at(left.len().min(BATCH_LIMIT));
        index = with_entries(alloc, index, part)?;
        left = rest;
    }
    Ok(index)
}

// The index with a batch of entries more.
fn with_entries(alloc: Global, index: Index, entries: &[RawEntry]) -> Result<Index, Refusal>
    requires { length entries.now ≤ BATCH_LIMIT }
    ensures map { IfOk result
        (λ after. map_of after ≡ map_after_all (map_of index) (map insertion_of entries.now)) }
    ensures fan { IfOk result (λ after. after.fan ≡ index.fan) }
    ensures pages { IfOk result (HasPagesFor (length entries.now) index) }
    ensures refused { IfErr result (IsStartRefusal index (map insertion_of entries.now)) }
{
    let Ok(ops) = insertions(alloc, entries) else {
        return Err(Refusal::OutOfMemory);
    };
    let Ok(batch) = Batch::new(ops) else {
        unreachable!()
    };
    let world = run_to_end(alloc, index, batch)?;
    Ok(Index::from_rest(world.into_rest()))
}

// The insertions of the entries, in their order.
fn insertions(alloc: Global, entries: &[RawEntry]) -> Result<Vec<Op>, AllocError>
    ensures { IfOk result (λ ops. ops.items ≡ map insertion_of entries.now) }
{
    let mut ops = Vec::with_capacity(alloc, entries.len())?;
    for entry in entries {
        ops.push_reserved(Op::Insert(entry.key, entry.pointer));
    }
    Ok(ops)
}

/// The index of ascending entries, in a box.
pub fn packed(alloc: Global, fan: u8, entries: &[Entry]) -> Result<Box<Index>, SortedError>
    ensures map { IfOk result (λ index. map_of index.value ≡ entries.now) }
    ensures fan { IfOk result (λ index. index.value.fan ≡ fan) }
    ensures pages { IfOk result
        (λ index. NeedsPages fan (length entries.now) (length index.value.pages)) }
    ensures numbered { IfOk result (λ index. IsInOrder index.value) }
    ensures refused { IfErr result (IsSortedRefusal fan entries.now) }
{
    let index = Index::from_sorted(alloc, fan, entries)?;
    match Box::new(alloc, index) {
        Ok(index) => Ok(index),
        Err(_) => Err(SortedError::OutOfMemory),
    }
}
