//! A tree at rest, as a map to be read.
ghost use Rattle.std.specs.Prelude.{◌≡◌, ℕ, ◌↔◌, List, [], filter, length, reverse, string_bytes, IfOk, IsErrOf, IsOkUnless, IsTrue, take};
ghost use Rattle.blink_operation.specs.{pointer_of};
ghost use Rattle.blink_page.specs.{value_at, IsBadFan, IsPageNumber};
ghost use Rattle.blink_rest.specs.{AreEntries, IsStoreAtRest, IsMapOf};
ghost use Rattle.blink_store.specs.{page_of, new_store};
ghost use Rattle.blink_entries.specs.Dump.{text_of_store};
ghost use Rattle.blink_entries.specs.Index.{map_of};
ghost use Rattle.blink_entries.specs.Scan.{is_from, is_within, BringsInOrder};
ghost use Rattle.blink_index.specs.Ends.{is_up_to};

mod change;
mod compact;
mod ends;
mod sorted;

use crate::error::IndexError;
use blink_entries::{LeafCounts, Scan, ScanBack, leaf_counts, leaf_for, tree_text};
use blink_operation::Entry;
use blink_page::{MAX_FAN, MIN_FAN};
use blink_rest::Rest;
use blink_store::Store;
pub use change::Applied;
use std::alloc::{AllocError, Global};
use std::marker::Model;

/// A map from keys to record pointers, in a B-link tree at rest.
///
/// Contracts see an index as its store. `map_of` of the store is the plain map, for questions about the entries. The store's
/// fan, prime block and pages are for a layer above that runs batches or shows pages.
#[derive(Debug, Drop)]
pub struct Index {
    rest: Rest,
    // The number of entries.
    count: usize,
    // The number of leaves without an entry, or fewer where memory for a compact tree was refused. Only when to compact depends on
    // it, so nothing is proved of it.
    emptied: u32,
}

impl Model for Index {
    ghost use Rattle.blink_store.specs.{PlainStore};

    ghost Value = { PlainStore };

    ghost view = { λ index. index.rest };

    ghost use Rattle.std.specs.Prelude.{◌≡◌, length};
    ghost use Rattle.blink_entries.specs.Index.{map_of};

    ghost invariant = { λ index. index.count ≡ length (map_of index.rest) };
}

impl Index {
    /// Makes an index without an entry, whose pages will have at most `fan` entries each.
    ///
    /// The call refuses with `BadFan` for every `fan` outside 4 to 32, before it asks for memory. It refuses with `OutOfMemory`,
    /// if memory was refused.
    pub fn new(alloc: Global, fan: u8) -> Result<Index, IndexError>
        ensures index { IfOk result (λ index. index ≡ new_store fan) }
        ensures empty { IfOk result (λ index. map_of index ≡ []) }
        ensures bad_fan { IsErrOf result IndexError.BadFan ↔ IsBadFan fan }
    {
        if fan < MIN_FAN || usize::from(fan) > MAX_FAN {
            return Err(IndexError::BadFan);
        }
        match Rest::empty(alloc, fan) {
            Ok(rest) => Ok(Index {
                rest,
                count: 0,
                emptied: 0,
            }),
            Err(_) => Err(IndexError::OutOfMemory),
        }
    }

    /// Makes an index of a tree at rest. The call takes no memory. It reads how many entries each leaf has, and counts those that
    /// have none.
    pub fn from_rest(rest: Rest) -> Index
        ensures { result ≡ rest }
    {
        let LeafCounts { entries, empty } = leaf_counts(rest.store());
        Index {
            rest,
            count: entries,
            emptied: empty,
        }
    }

    /// Returns the tree, to be read.
    pub fn rest(&self) -> &Rest
        ensures tree { result.now ≡ self.now }
        ensures map { IsMapOf self.now (map_of self.now) }
    {
        // Called for the proof: a tree at rest has its entries as a map.
        let _store = self.store();
        &self.rest
    }

    /// Returns the tree, for the next batch to run over. The call takes no memory.
    pub fn into_rest(self) -> Rest
        ensures { result ≡ self }
    {
        self.rest
    }

    /// Returns the number of pages of the tree, at least 1. The prime block isn't counted.
    pub fn page_count(&self) -> u32
        ensures count { result ≡ length self.now.pages }
        ensures in_range { IsPageNumber result }
    {
        self.store().pages()
    }

    /// Returns the number of entries. The index keeps it, so no page is read.
    pub fn len(&self) -> usize
        ensures { result ≡ length (map_of self.now) }
    {
        self.count
    }

    /// Returns whether the index has no entry.
    pub fn is_empty(&self) -> bool
        ensures { IsTrue result ↔ (map_of self.now ≡ []) }
    {
        self.count == 0
    }

    /// Copies the index. Each page has the same number in the copy.
    pub fn copy(&self, alloc: Global) -> Result<Index, IndexError>
        ensures index { IfOk result (λ index. index ≡ self.now) }
        ensures refused { IsOkUnless result IndexError.OutOfMemory }
    {
        match self.rest.copy(alloc) {
            Ok(rest) => Ok(Index {
                rest,
                count: self.count,
                emptied: self.emptied,
            }),
            Err(_) => Err(IndexError::OutOfMemory),
        }
    }

    /// Returns the record pointer stored for the key, or `None` if the key is absent. The call takes no memory, and reads one
    /// page for each level.
    pub fn find(&self, key: u64) -> Option<u64>
        ensures pointer { result ≡ pointer_of (map_of self.now) key }
        ensures entry { (entries : List (ℕ × ℕ))
            → AreEntries self.now.fan self.now.prime (page_of self.now) entries
            → result ≡ value_at key entries }
    {
        leaf_for(self.store(), key).look(key)
    }

    /// Returns the entries whose keys are from `lo` to `hi`, both included, in ascending order; none if `lo > hi`. The call
    /// takes no memory. The descent reads one page for each level. Then, as entries are asked for, the scan reads each leaf
    /// once, up to the first key above `hi`.
    pub fn scan(&self, lo: u64, hi: u64) -> Scan<'_>
        ensures entries { result ≡ filter (is_within lo hi) (map_of self.now) }
        ensures map { IsMapOf self.now (map_of self.now) }
        ensures runs { BringsInOrder }
    {
        Scan::new(self.store(), lo, hi, None)
    }

    /// Returns the first `n` entries whose keys are at least `lo`, in ascending order, or all of these if they are fewer. The
    /// call takes no memory. The descent reads one page for each level. Then, as entries are asked for, the scan reads each leaf
    /// once, and none after the `n`th entry.
    pub fn page(&self, lo: u64, n: u64) -> Scan<'_>
        ensures entries { result ≡ take n (filter (is_from lo) (map_of self.now)) }
        ensures map { IsMapOf self.now (map_of self.now) }
        ensures runs { BringsInOrder }
    {
        Scan::new(self.store(), lo, u64::MAX, Some(n))
    }

    /// Returns the entries whose keys are from `lo` to `hi`, both included, in descending order; none if `lo > hi`. The call takes
    /// no memory. As entries are asked for, the scan goes down to each leaf of the range, which reads one page for each level.
    pub fn scan_back(&self, lo: u64, hi: u64) -> ScanBack<'_>
        ensures entries { result ≡ reverse (filter (is_within lo hi) (map_of self.now)) }
        ensures map { IsMapOf self.now (map_of self.now) }
        ensures runs { BringsInOrder }
    {
        ScanBack::new(self.store(), lo, hi, None)
    }

    /// Returns the last `n` entries whose keys are at most `hi`, in descending order, or all of these if they are fewer. The call
    /// takes no memory. As entries are asked for, the scan goes down to each leaf, as `scan_back` does, and to none after the
    /// `n`th entry.
    pub fn page_back(&self, hi: u64, n: u64) -> ScanBack<'_>
        ensures entries { result ≡ take n (reverse (filter (is_up_to hi) (map_of self.now))) }
        ensures map { IsMapOf self.now (map_of self.now) }
        ensures runs { BringsInOrder }
    {
        ScanBack::new(self.store(), 0, hi, Some(n))
    }

    /// Returns all entries, in ascending order: the plain map of the tree.
    pub fn entries(&self, alloc: Global) -> Result<Vec<Entry>, AllocError>
        ensures map { IfOk result (λ entries. entries.items ≡ map_of self.now) }
        ensures kept { IfOk result (λ entries. IsMapOf self.now entries.items) }
    {
        self.scan(0, u64::MAX).collect(alloc)
    }

    /// Returns the tree as text: one line for each page, the top level first, and each level from the left. A line has the
    /// page's level, number, floor, high key and right link, and then each entry as `key:value`. Single spaces stand between
    /// them, and a line feed at the end. A missing floor or link is `-`.
    pub fn dump(&self, alloc: Global) -> Result<String, AllocError>
        ensures { IfOk result (λ text. string_bytes text ≡ text_of_store self.now) }
    {
        tree_text(alloc, self.store())
    }

    // The store of the tree.
    fn store(&self) -> &Store
        ensures store { result.now ≡ self.now }
        ensures at_rest { IsStoreAtRest self.now }
    {
        self.rest.store()
    }
}
