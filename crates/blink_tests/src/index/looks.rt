//! What is to be seen of an index.
use super::story::{Runs, Sides, is_text};
use crate::fixtures::stores::{Sight, is_seen, page_at};
use crate::fixtures::{are_entries, given, same, same_for};
use blink_batch::Entry;
use blink_index::{Index, Scan, ScanBack};
use blink_store::Store;
use std::alloc::Global;
use std::process::Abort;

// What a scan brings, one after another.
fn brought(rt: &impl Abort, alloc: Global, scan: Scan<'_>) -> Vec<Entry> {
    let mut entries = Vec::new(alloc);
    for entry in scan {
        given(rt, entries.push(entry));
    }
    entries
}

pub fn brings(rt: &impl Abort, alloc: Global, scan: Scan<'_>, expected: &[(u64, u64)]) {
    let entries = brought(rt, alloc, scan);
    are_entries(rt, &entries, expected);
}

pub fn brings_back(rt: &impl Abort, alloc: Global, scan: ScanBack<'_>, expected: &[(u64, u64)]) {
    let mut entries = Vec::new(alloc);
    for entry in scan {
        given(rt, entries.push(entry));
    }
    are_entries(rt, &entries, expected);
}

// The scan gives these runs, and then none.
pub fn gives_runs(rt: &impl Abort, mut scan: Scan<'_>, (first, second): Runs) {
    same(rt, &scan.next_run().unwrap_or(&[]), &first);
    same(rt, &scan.next_run().unwrap_or(&[]), &second);
    same(rt, &scan.next_run().unwrap_or(&[]), &[].as_slice());
}

pub fn gives_runs_back(rt: &impl Abort, mut scan: ScanBack<'_>, (first, second): Runs) {
    same(rt, &scan.next_run().unwrap_or(&[]), &first);
    same(rt, &scan.next_run().unwrap_or(&[]), &second);
    same(rt, &scan.next_run().unwrap_or(&[]), &[].as_slice());
}

// A page of so many entries from a key on brings so many, which are the first that a scan from there brings.
pub fn pages_first(
    rt: &impl Abort,
    alloc: Global,
    index: &Index,
    (lo, n): (u64, u64),
    count: usize,
) {
    let entries = brought(rt, alloc, index.page(lo, n));
    let all = brought(rt, alloc, index.scan(lo, u64::MAX));
    assert!(rt; count <= all.len());
    same_for(rt, &entries.as_slice(), &&all[..count], &(lo, n));
}

// So many entries are given at once, which are those that a scan brings.
pub fn are_all_entries(rt: &impl Abort, alloc: Global, index: &Index, count: usize) {
    let entries = given(rt, index.entries(alloc));
    same(rt, &entries.len(), &count);
    let scanned = brought(rt, alloc, index.scan(0, u64::MAX));
    same(rt, &entries, &scanned);
}

// An entry of a key with ten times the key.
fn entry(key: u64) -> Entry {
    Entry {
        key,
        pointer: key.wrapping_mul(10),
    }
}

// The first entry, the last, and the next above a key.
pub fn has_ends(rt: &impl Abort, index: &Index, first: u64, last: u64, (key, above): (u64, u64)) {
    same(rt, &index.first(), &Some(entry(first)));
    same(rt, &index.last(), &Some(entry(last)));
    same(rt, &index.next(key), &Some(entry(above)));
    same(rt, &index.next(last), &None);
}

pub fn has_no_ends(rt: &impl Abort, index: &Index) {
    same(rt, &(index.first(), index.last()), &(None, None));
    same(rt, &(index.next(0), index.next(u64::MAX)), &(None, None));
}

fn key_of(found: Option<Entry>) -> Option<u64> {
    match found {
        Some(entry) => Some(entry.key),
        None => None,
    }
}

pub fn has_sides(rt: &impl Abort, index: &Index, examples: &[Sides]) {
    for &(key, below, from, up_to) in examples {
        same_for(rt, &key_of(index.prev(key)), &below, &key);
        same_for(rt, &key_of(index.at_least(key)), &from, &key);
        same_for(rt, &key_of(index.at_most(key)), &up_to, &key);
    }
}

const THREE_PAGES: [Sight; 3] = [Sight::Fan(4), Sight::Leftmost(&[1, 3]), Sight::Pages(3)];

// Compares two trees of fan 4 with three pages, of which the last is the root: the prime blocks and the pages.
fn compare(rt: &impl Abort, store: &Store, other: &Store) {
    is_seen(rt, store, &THREE_PAGES);
    is_seen(rt, other, &THREE_PAGES);
    same(rt, store.prime(), other.prime());
    for number in 1..4 {
        same(rt, page_at(rt, store, number), page_at(rt, other, number));
    }
    assert!(rt; store.is_same(other));
}

// A copy of the index is the same, and so are one of its tree and one of its store.
pub fn are_copies(rt: &impl Abort, alloc: Global, index: &Index, text: &str) {
    let copy = given(rt, index.copy(alloc));
    is_text(rt, alloc, &copy, text);
    same(rt, &copy.len(), &index.len());
    compare(rt, copy.rest().store(), index.rest().store());
    let rest = given(rt, index.rest().copy(alloc));
    assert!(rt; rest.is_same(index.rest()));
    compare(rt, rest.store(), index.rest().store());
    let store = given(rt, index.rest().store().copy(alloc));
    compare(rt, &store, index.rest().store());
}
