//! The entries of an index in the opposite order of their keys.
ghost use Rattle.std.specs.Prelude.{◌≡◌, ◌<◌, ◌≤◌, ◌++◌, [], filter, length, reverse, IfNone, IfSome};
ghost use Rattle.std.specs.Iterator.{YieldsFirst, item_count};
ghost use Rattle.blink_page.specs.{Rises};
ghost use Rattle.blink_rest.specs.{IsStoreAtRest, entries_from};
ghost use Rattle.blink_entries.specs.Back.{entries_within};
ghost use Rattle.blink_entries.specs.Index.{map_of};
ghost use Rattle.blink_entries.specs.Scan.{at_most, entries_to, is_within};

use crate::down::leaf_for;
use crate::scan::{fewer, first_of, not_below, one_fewer};
use blink_operation::Entry;
use blink_store::Store;
use std::marker::Model;

/// The entries of an index whose keys are from one number to another, or the last of these, in descending order.
///
/// The scan takes no memory. It goes from a leaf to the one before it by a descent to the leaf's floor, past leaves without an
/// entry of the range, and ends by itself.
#[derive(Drop)]
pub struct ScanBack<'a> {
    store: &'a Store,
    lo: u64,
    // The greatest key that the leaves before the scan's leaf may have; `None` if no leaf is before it.
    hi: Option<u64>,
    // What is left of the leaf where the scan stands.
    entries: &'a [(u64, u64)],
    // How many entries the scan may still give; `None` if their number has no bound.
    most: Option<u64>,
}

impl<'a> Model for ScanBack<'a> {
    ghost use Rattle.std.specs.Prelude.{List};
    ghost use Rattle.blink_operation.specs.declared.Entry.{Entry};

    ghost Value = { List Entry };

    ghost use Rattle.blink_entries.specs.BackView.{to_come, ReadsRest};

    ghost view = { to_come };

    ghost invariant = { ReadsRest };
}

impl<'a> ScanBack<'a> {
    /// Makes the backward scan of a tree at rest over the entries whose keys are from `lo` to `hi`; it gives at most `most` of
    /// them, if that is a number. The first descent waits until an entry is asked for.
    pub fn new(store: &'a Store, lo: u64, hi: u64, most: Option<u64>) -> ScanBack<'a>
        requires { IsStoreAtRest store.now }
        ensures { result ≡ at_most most (reverse (filter (is_within lo hi) (map_of store.now))) }
    {
        ScanBack {
            store,
            lo,
            hi: Some(hi),
            entries: &[],
            most,
        }
    }

    /// Returns the next entries of the scan that stand in one leaf, in ascending order, or `None` at the scan's end. Their caller
    /// copies them from the last to the first; `next` takes them one by one.
    pub fn next_run(&mut self) -> Option<&'a [(u64, u64)]>
        ensures run { IfSome result (λ run. self.old ≡ reverse (entries_from run.now) ++ self.new) }
        ensures some { IfSome result (λ run. 0 < length run.now) }
        ensures end { IfNone result (self.old ≡ []) }
    {
        if self.most == Some(0) {
            return None;
        }
        if self.entries.is_empty() {
            let (entries, floor) = last_part(self.store, self.lo, self.hi)?;
            self.entries = entries;
            self.hi = floor;
        }
        let count = first_of(self.entries.len(), self.most);
        let (rest, run) = self.entries.split_at(self.entries.len() - count);
        self.entries = rest;
        self.most = fewer(self.most, count);
        Some(run)
    }
}

impl<'a> Iterator for ScanBack<'a> {
    type Item = Entry;

    ghost next_gives = { YieldsFirst (λ entries. entries) };

    ghost remaining = { item_count (λ entries. entries) };

    fn next(&mut self) -> Option<Entry> {
        if self.most == Some(0) {
            return None;
        }
        if self.entries.is_empty() {
            let (entries, floor) = last_part(self.store, self.lo, self.hi)?;
            self.entries = entries;
            self.hi = floor;
        }
        let (&(key, pointer), rest) = self.entries.split_last()?;
        self.entries = rest;
        self.most = one_fewer(self.most);
        Some(Entry { key, pointer })
    }
}

/// The entries up to the first whose key is greater than `hi`. The last key is compared first: of most leaves it decides.
pub(crate) fn not_above(entries: &[(u64, u64)], hi: u64) -> &[(u64, u64)]
    requires { Rises entries.now }
    ensures entries { entries_from result.now ≡ entries_to hi entries.now }
    ensures no_more { length result.now ≤ length entries.now }
{
    let count = entries.len();
    if count > 0 && entries[count - 1].0 <= hi {
        return entries;
    }
    for (i, &(key, _)) in entries.iter().enumerate() {
        if hi < key {
            return &entries[..i];
        }
    }
    entries
}

// What the last leaf that has entries from `lo` to `from` has of them, and the leaf's floor.
fn last_part(store: &Store, lo: u64, from: Option<u64>) -> Option<(&[(u64, u64)], Option<u64>)>
    requires { IsStoreAtRest store.now }
    ensures entries { IfSome result
        (λ part. entries_within lo from (map_of store.now)
        ≡ entries_within lo part.1 (map_of store.now) ++ entries_from part.0.now) }
    ensures some { IfSome result (λ part. 0 < length part.0.now) }
    ensures end { IfNone result (entries_within lo from (map_of store.now) ≡ []) }
{
    let mut hi = from;
    'leaves: while let Some(most) = hi {
        if most < lo {
            return None;
        }
        let leaf = leaf_for(store, most);
        let entries = not_above(not_below(&leaf.items, lo), most);
        if !entries.is_empty() {
            return Some((entries, leaf.floor));
        }
        hi = leaf.floor;
    }
    None
}
