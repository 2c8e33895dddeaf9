//! Making an index of ascending entries.
ghost use Rattle.std.specs.Prelude.{◌≡◌, ◌≤◌, length, IfErr, IfNone, IfOk, IfSome};
ghost use Rattle.blink_operation.specs.{IsAscending};
ghost use Rattle.blink_page.specs.{IsFan, Rises};
ghost use Rattle.blink_page.specs.declared.limits.TheConstants.{MAX_PAGE};
ghost use Rattle.blink_rest.specs.{IsMapOf, pairs_of};
ghost use Rattle.blink_entries.specs.Index.{map_of};
ghost use Rattle.blink_entries.specs.Packed.{IsInOrder, NeedsPages};
ghost use Rattle.blink_index.specs.Sorted.{CanBePacked, IsFirstUnsorted, IsSortedRefusal};

use super::Index;
use crate::error::SortedError;
use blink_entries::{add_entry, first_leaf, pages_needed, tree_over};
use blink_operation::Entry;
use blink_page::{MAX_FAN, MAX_PAGE, MIN_FAN};
use blink_rest::Rest;
use std::alloc::{AllocError, Global};

impl Index {
    /// Makes an index of entries whose keys strictly ascend, in as few pages as they need. Each leaf but the last has `fan`
    /// entries. The pages are numbered from 1, level 0 first, and each level from the left. The call takes time in proportion
    /// to the entries, and asks for the memory of all pages at once.
    ///
    /// The call refuses with `BadFan` for every `fan` outside 4 to 32; then with `NotAscending`, at the first key that isn't
    /// above the one before; then with `TooLarge`, exactly where the entries need more pages than there are numbers, which are
    /// 1,048,575; all this before it asks for memory. It refuses with `OutOfMemory`, if memory was refused.
    pub fn from_sorted(alloc: Global, fan: u8, entries: &[Entry]) -> Result<Index, SortedError>
        ensures map { IfOk result (λ index. map_of index ≡ entries.now) }
        ensures kept { IfOk result (λ index. IsMapOf index entries.now) }
        ensures fan { IfOk result (λ index. index.fan ≡ fan) }
        ensures pages { IfOk result (λ index. NeedsPages fan (length entries.now) (length index.pages)) }
        ensures numbered { IfOk result IsInOrder }
        ensures accepted { IfOk result (λ _. CanBePacked fan entries.now) }
        ensures refused { IfErr result (IsSortedRefusal fan entries.now) }
    {
        if fan < MIN_FAN || usize::from(fan) > MAX_FAN {
            return Err(SortedError::BadFan);
        }
        if let Some(place) = first_unsorted(entries) {
            return Err(SortedError::NotAscending(place));
        }
        let count = pages_needed(entries.len(), fan);
        if count > MAX_PAGE as usize {
            return Err(SortedError::TooLarge);
        }
        match packed(alloc, fan, entries, count) {
            Ok(rest) => Ok(Index {
                rest,
                count: entries.len(),
                emptied: 0,
            }),
            Err(_) => Err(SortedError::OutOfMemory),
        }
    }
}

// The first place whose key isn't above the one before.
fn first_unsorted(entries: &[Entry]) -> Option<usize>
    ensures unsorted { IfSome result (IsFirstUnsorted entries.now) }
    ensures ascending { IfNone result (IsAscending entries.now) }
    ensures rising { IfNone result (Rises (pairs_of entries.now)) }
{
    for place in 1..entries.len() {
        if entries[place].key <= entries[place - 1].key {
            return Some(place);
        }
    }
    None
}

// The tree of ascending entries, which need `count` pages.
fn packed(alloc: Global, fan: u8, entries: &[Entry], count: usize) -> Result<Rest, AllocError>
    requires fan { IsFan fan }
    requires rising { Rises (pairs_of entries.now) }
    requires needs { NeedsPages fan (length entries.now) count }
    requires numbers { count ≤ MAX_PAGE }
    ensures fan { IfOk result (λ rest. rest.fan ≡ fan) }
    ensures map { IfOk result (λ rest. map_of rest ≡ entries.now) }
    ensures in_order { IfOk result IsInOrder }
    ensures few { IfOk result (λ rest. length rest.pages ≤ count) }
{
    let mut pages = first_leaf(alloc, count)?;
    for entry in entries {
        add_entry(&mut pages, fan, entry.key, entry.pointer)?;
    }
    tree_over(pages, fan)
}
