//! Reading the entries of a closed table along its leaves: also where an operation is under way, whose split may not be posted yet.
ghost use Rattle.std.specs.Prelude.{◌≡◌, ◌≤◌, ◌++◌, None, Some, List, IfOk, OnOk};
ghost use Rattle.std.specs.Mem.Slots.{slots_items, slots_len, IsFull};
ghost use Rattle.blink_batch.specs.declared.Entry.{Entry};
ghost use Rattle.blink_rest.specs.{entries_along};
ghost use Rattle.blink_rest.specs.Chain.{Cell};
ghost use Rattle.blink_machine.specs.{entries_from};
ghost use Rattle.blink_live.specs.Leaves.{AreLeaves, HasLeaves, KeepsLeaves, KeepsSomeLeaves};
ghost use Rattle.blink_live.specs.Words.{word_count};

use crate::close::{page_at, prime_at};
use atomic_table::Closed;
use blink_batch::Entry;
use blink_rows::Counts;
use std::alloc::{AllocError, Global};

/// The entries that the words hold, in the order of their keys: those of the leaves, from the leftmost one on along their right links.
pub fn entries_at_end(
    alloc: Global,
    closed: &Closed<u8, Global>,
    counts: &Counts,
) -> Result<Vec<Entry>, AllocError>
    requires full { IsFull closed.now.words }
    requires width { word_count counts.now ≤ slots_len closed.now.words }
    requires leaves { KeepsSomeLeaves counts.now (slots_items closed.now.words) }
    ensures { IfOk result (λ entries. (kept : List Entry)
        → KeepsLeaves counts.now (slots_items closed.now.words) kept → entries.items ≡ kept) }
{
    let prime = prime_at(closed, counts);
    entries_along(alloc, closed, counts, prime.leftmost[0])
}

// The entries of the leaves from the leftmost one on.
fn entries_along(
    alloc: Global,
    closed: &Closed<u8, Global>,
    counts: &Counts,
    leftmost: u32,
) -> Result<Vec<Entry>, AllocError>
    requires full { IsFull closed.now.words }
    requires width { word_count counts.now ≤ slots_len closed.now.words }
    requires leaves { HasLeaves counts.now (slots_items closed.now.words) leftmost }
    ensures { IfOk result (λ entries. (cells : List Cell)
        → AreLeaves counts.now (slots_items closed.now.words) None (Some leftmost) cells
        → entries.items ≡ entries_from (entries_along cells)) }
{
    let mut entries = Vec::new(alloc);
    // The floor of the next leaf, and the link to it. Floors rise along the leaves, so the walk ends.
    let mut next = (None, Some(leftmost));
    while let Some(number) = next.1 {
        let leaf = page_at(closed, counts, number);
        add_entries(&mut entries, &leaf.items)?;
        next = (Some(leaf.high), leaf.right);
    }
    Ok(entries)
}

// Adds the entries of a leaf.
fn add_entries(entries: &mut Vec<Entry>, pairs: &[(u64, u64)]) -> Result<(), AllocError>
    ensures { OnOk result (entries.new.items ≡ entries.old.items ++ entries_from pairs.now) }
{
    for &(key, pointer) in pairs {
        entries.push(Entry { key, pointer })?;
    }
    Ok(())
}
