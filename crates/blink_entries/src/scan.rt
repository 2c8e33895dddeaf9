//! The entries of an index in the order of their keys.
ghost use Rattle.std.specs.Prelude.{◌≡◌, ◌<◌, None, [], ◌++◌, drop, filter, length, IfNone, IfSome};
ghost use Rattle.std.specs.Iterator.{YieldsFirst, item_count};
ghost use Rattle.blink_page.specs.{Rises, place_of};
ghost use Rattle.blink_rest.specs.{IsStoreAtRest, entries_from};
ghost use Rattle.blink_store.specs.{PlainStore};
ghost use Rattle.blink_entries.specs.Index.{map_of};
ghost use Rattle.blink_entries.specs.Scan.{IsLinkOf, at_most, entries_after, entries_to, fewer, first_of, is_within, one_fewer};

use crate::back::not_above;
use crate::down::leaf_for;
use blink_operation::Entry;
use blink_page::Page;
use blink_store::Store;
use std::marker::Model;

/// The entries of an index whose keys are from one number to another, or the first of these, in ascending order.
///
/// The scan takes no memory. It walks the leaves along their right links, past those without an entry, and ends by itself.
#[derive(Drop)]
pub struct Scan<'a> {
    store: &'a Store,
    // What is left up to `hi` of the leaf where the scan stands.
    entries: &'a [(u64, u64)],
    // The link to the leaf after it, or `None` if that has no entry of the range.
    link: Option<u32>,
    hi: u64,
    // How many entries the scan may still give; `None` if their number has no bound.
    most: Option<u64>,
}

impl<'a> Model for Scan<'a> {
    ghost use Rattle.std.specs.Prelude.{List};
    ghost use Rattle.blink_operation.specs.declared.Entry.{Entry};

    ghost Value = { List Entry };

    ghost use Rattle.blink_entries.specs.ScanView.{to_come, IsLinked};

    ghost view = { to_come };

    ghost invariant = { IsLinked };
}

impl<'a> Scan<'a> {
    /// Makes the scan of a tree at rest over the entries whose keys are from `lo` to `hi`; it gives at most `most` of them, if
    /// that is a number.
    pub fn new(store: &'a Store, lo: u64, hi: u64, most: Option<u64>) -> Scan<'a>
        requires { IsStoreAtRest store.now }
        ensures { result ≡ at_most most (filter (is_within lo hi) (map_of store.now)) }
    {
        let leaf = leaf_for(store, lo);
        let (entries, link) = up_to(not_below(&leaf.items, lo), leaf.right, hi);
        Scan {
            store,
            entries,
            link,
            hi,
            most,
        }
    }

    /// Returns the next entries of the scan that stand in one leaf, or `None` at the scan's end. They are compared with `hi` once,
    /// by the last of the leaf, and copied by their caller; `next` takes them one by one.
    pub fn next_run(&mut self) -> Option<&'a [(u64, u64)]>
        ensures run { IfSome result (λ run. self.old ≡ entries_from run.now ++ self.new) }
        ensures some { IfSome result (λ run. 0 < length run.now) }
        ensures end { IfNone result (self.old ≡ []) }
    {
        if self.most == Some(0) {
            return None;
        }
        if self.entries.is_empty() {
            let (entries, link) = next_part(self.store, self.link, self.hi)?;
            self.entries = entries;
            self.link = link;
        }
        let count = first_of(self.entries.len(), self.most);
        let (run, rest) = self.entries.split_at(count);
        self.entries = rest;
        self.most = fewer(self.most, count);
        Some(run)
    }
}

impl<'a> Iterator for Scan<'a> {
    type Item = Entry;

    ghost next_gives = { YieldsFirst (λ entries. entries) };

    ghost remaining = { item_count (λ entries. entries) };

    fn next(&mut self) -> Option<Entry> {
        if self.most == Some(0) {
            return None;
        }
        if self.entries.is_empty() {
            let (entries, link) = next_part(self.store, self.link, self.hi)?;
            self.entries = entries;
            self.link = link;
        }
        let (&(key, pointer), rest) = self.entries.split_first()?;
        self.entries = rest;
        self.most = one_fewer(self.most);
        Some(Entry { key, pointer })
    }
}

/// How many entries may come after the next.
pub(crate) fn one_fewer(most: Option<u64>) -> Option<u64>
    ensures { result ≡ one_fewer most }
{
    match most {
        Some(n) => Some(n.saturating_sub(1)),
        None => None,
    }
}

/// How many of so many entries may come.
pub(crate) fn first_of(count: usize, most: Option<u64>) -> usize
    ensures { result ≡ first_of count most }
{
    match most {
        Some(n) => count.min(n as usize),
        None => count,
    }
}

/// How many entries may come after so many.
pub(crate) fn fewer(most: Option<u64>, count: usize) -> Option<u64>
    ensures { result ≡ fewer most count }
{
    match most {
        Some(n) => Some(n.saturating_sub(count as u64)),
        None => None,
    }
}

/// The entries from the first whose key is at least `lo`.
pub(crate) fn not_below(entries: &[(u64, u64)], lo: u64) -> &[(u64, u64)]
    ensures { result.now ≡ drop (place_of lo entries.now) entries.now }
{
    for (i, &(key, _)) in entries.iter().enumerate() {
        if lo <= key {
            return &entries[i..];
        }
    }
    &entries[entries.len()..]
}

// Of the entries of a leaf those up to `hi`, and the link to the next leaf, or `None` if an entry of this one is above `hi`.
fn up_to(entries: &[(u64, u64)], link: Option<u32>, hi: u64) -> (&[(u64, u64)], Option<u32>)
    requires { Rises entries.now }
    ensures entries { (store : PlainStore) → entries_to hi (entries.now ++ entries_after store link)
        ≡ entries_from result.0.now ++ entries_to hi (entries_after store result.1) }
    ensures link { (store : PlainStore) → IsLinkOf store link → IsLinkOf store result.1 }
    ensures last { length result.0.now < length entries.now → result.1 ≡ None }
{
    let part = not_above(entries, hi);
    if part.len() < entries.len() {
        (part, None)
    } else {
        (part, link)
    }
}

// The part up to `hi` of the first leaf with an entry, from a link on, and the link to go on by.
fn next_part(store: &Store, from: Option<u32>, hi: u64) -> Option<(&[(u64, u64)], Option<u32>)>
    requires { IsLinkOf store.now from }
    ensures entries { IfSome result (λ part. entries_to hi (entries_after store.now from)
        ≡ entries_from part.0.now ++ entries_to hi (entries_after store.now part.1)) }
    ensures link { IfSome result (λ part. IsLinkOf store.now part.1) }
    ensures some { IfSome result (λ part. 0 < length part.0.now) }
    ensures end { IfNone result (entries_to hi (entries_after store.now from) ≡ []) }
{
    let leaf = next_leaf(store, from)?;
    let (entries, link) = up_to(&leaf.items, leaf.right, hi);
    if entries.is_empty() {
        None
    } else {
        Some((entries, link))
    }
}

// The first page with an entry, from a link on.
fn next_leaf(store: &Store, from: Option<u32>) -> Option<&Page>
    requires { IsLinkOf store.now from }
    ensures entries { IfSome result
        (λ leaf. entries_after store.now from
        ≡ leaf.now.entries ++ entries_after store.now leaf.now.right) }
    ensures link { IfSome result (λ leaf. IsLinkOf store.now leaf.now.right) }
    ensures some { IfSome result (λ leaf. 0 < length leaf.now.entries) }
    ensures end { IfNone result (entries_after store.now from ≡ []) }
{
    let mut link = from;
    while let Some(number) = link {
        let leaf = store.read(number);
        if !leaf.items.is_empty() {
            return Some(leaf);
        }
        link = leaf.right;
    }
    None
}
