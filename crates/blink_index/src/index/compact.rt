//! Packing an index into as few pages as its entries need.
ghost use Rattle.std.specs.Prelude.{◌≡◌, ◌≤◌, [], ◌∷◌, length, IfErr, IfOk, IsOkUnless, OnErr, OnOk};
ghost use Rattle.blink_operation.specs.{answer_of, map_after};
ghost use Rattle.blink_operation.specs.declared.Op.TheVariants.{Delete, DeleteExact};
ghost use Rattle.blink_rest.specs.{IsMapOf};
ghost use Rattle.blink_entries.specs.Index.{map_of};
ghost use Rattle.blink_entries.specs.Packed.{IsInOrder, NeedsPages};
ghost use Rattle.blink_index.specs.Edit.{HasPagesFor, IsEditRefusal};

use super::Index;
use crate::error::EditError;
use blink_entries::{add_entry, first_leaf, pages_needed, tree_over};
use blink_operation::{Answer, Op};
use blink_rest::Rest;
use std::alloc::{AllocError, Global};

impl Index {
    /// Packs the entries into as few pages as they need, in place. Each leaf but the last is full then, and no leaf is empty
    /// unless the index is. The pages are numbered from 1, level 0 first, and each level from the left. The call takes time in
    /// proportion to the pages and the entries, and asks for the memory of all new pages at once; that of the old pages is given
    /// back at the end.
    ///
    /// An insertion into a full leaf splits it. So the call serves an index that has lost many entries, or one that won't grow
    /// soon. The call refuses with `OutOfMemory`, if memory was refused, and with nothing else: no tree of these entries has
    /// fewer pages, so there are numbers for them. A refusal leaves the index as it was.
    pub fn compact(&mut self, alloc: Global) -> Result<(), EditError>
        ensures map { map_of self.new ≡ map_of self.old }
        ensures kept { IsMapOf self.new (map_of self.new) }
        ensures same_fan { self.new.fan ≡ self.old.fan }
        ensures pages { OnOk result
            (NeedsPages self.old.fan (length (map_of self.old)) (length self.new.pages)) }
        ensures no_more_pages { length self.new.pages ≤ length self.old.pages }
        ensures numbered { OnOk result (IsInOrder self.new) }
        ensures refused { IsOkUnless result EditError.OutOfMemory }
        ensures unchanged { OnErr result (self.new ≡ self.old) }
    {
        // Called for the proof: a tree at rest has its entries as a map.
        let _rest = self.rest();
        match self.repacked(alloc) {
            Ok(rest) => {
                self.rest = rest;
                self.emptied = 0;
                Ok(())
            }
            Err(_) => Err(EditError::OutOfMemory),
        }
    }

    /// Compacts the index, if deletions have emptied more leaves than its entries fill and one more. Otherwise the call returns at
    /// once, without a look at the pages.
    ///
    /// A caller who makes the call after each deletion, as `delete_and_compact` does, has scans that read few empty leaves. From a new
    /// index on `n` changes and as many calls take `O(n)` time in all: what a compaction reads and writes, deletions have emptied and insertions made since the last
    /// one. Where memory is refused the index stays as it was, and the call tries again once half as many leaves more are empty.
    pub fn compact_if_sparse(&mut self, alloc: Global)
        ensures map { map_of self.new ≡ map_of self.old }
        ensures kept { IsMapOf self.new (map_of self.new) }
        ensures same_fan { self.new.fan ≡ self.old.fan }
        ensures no_more_pages { length self.new.pages ≤ length self.old.pages }
    {
        // Called for the proof: a tree at rest has its entries as a map.
        let _rest = self.rest();
        if !self.is_sparse() {
            return;
        }
        if self.compact(alloc).is_err() {
            self.emptied /= 2;
        }
    }

    /// Removes a key as `delete` does, and then compacts the index where it is sparse, as `compact_if_sparse` does.
    pub fn delete_and_compact(&mut self, alloc: Global, key: u64) -> Answer
        ensures answer { result ≡ answer_of (map_of self.old) (Delete key) }
        ensures map { map_of self.new ≡ map_after (map_of self.old) (Delete key) }
        ensures kept { IsMapOf self.new (map_of self.new) }
        ensures same_fan { self.new.fan ≡ self.old.fan }
        ensures no_more_pages { length self.new.pages ≤ length self.old.pages }
    {
        let answer = self.delete(key);
        self.compact_if_sparse(alloc);
        answer
    }

    /// Removes a key as `delete_exact` does, and then compacts the index where it is sparse, as `compact_if_sparse` does.
    pub fn delete_exact_and_compact(&mut self, alloc: Global, key: u64, expected: u64) -> Answer
        ensures answer { result ≡ answer_of (map_of self.old) (DeleteExact key expected) }
        ensures map { map_of self.new ≡ map_after (map_of self.old) (DeleteExact key expected) }
        ensures kept { IsMapOf self.new (map_of self.new) }
        ensures same_fan { self.new.fan ≡ self.old.fan }
        ensures no_more_pages { length self.new.pages ≤ length self.old.pages }
    {
        let answer = self.delete_exact(key, expected);
        self.compact_if_sparse(alloc);
        answer
    }

    /// Carries one operation out as `edit` does, and then compacts the index where it is sparse, as `compact_if_sparse` does. A refused
    /// operation changes nothing.
    pub fn edit_and_compact(&mut self, alloc: Global, op: Op) -> Result<Answer, EditError>
        ensures answer { IfOk result (λ answer. answer ≡ answer_of (map_of self.old) op) }
        ensures map { IfOk result (λ _. map_of self.new ≡ map_after (map_of self.old) op) }
        ensures kept { IsMapOf self.new (map_of self.new) }
        ensures same_fan { self.new.fan ≡ self.old.fan }
        ensures few_pages { HasPagesFor (op ∷ []) self.old self.new }
        ensures refused { IfErr result (IsEditRefusal self.old op) }
        ensures unchanged { OnErr result (self.new ≡ self.old) }
    {
        match self.edit(op) {
            Ok(answer) => {
                self.compact_if_sparse(alloc);
                Ok(answer)
            }
            Err(refusal) => Err(refusal),
        }
    }

    // Whether more leaves are empty than the entries fill, and one more. A last leaf that isn't full is that one.
    fn is_sparse(&self) -> bool {
        let fan = u64::from(self.store().fan());
        u64::from(self.emptied.saturating_sub(1)) * fan > self.count as u64
    }

    // The tree of the same entries in as few pages as they need.
    fn repacked(&self, alloc: Global) -> Result<Rest, AllocError>
        ensures fan { IfOk result (λ rest. rest.fan ≡ self.now.fan) }
        ensures map { IfOk result (λ rest. map_of rest ≡ map_of self.now) }
        ensures in_order { IfOk result IsInOrder }
        ensures pages { IfOk result
            (λ rest. NeedsPages self.now.fan (length (map_of self.now)) (length rest.pages)) }
        ensures no_more { IfOk result (λ rest. length rest.pages ≤ length self.now.pages) }
    {
        // Called for the proof: there are no more pages than numbers.
        let _pages = self.page_count();
        let fan = self.store().fan();
        let count = pages_needed(self.len(), fan);
        let mut pages = first_leaf(alloc, count)?;
        let mut scan = self.scan(0, u64::MAX);
        'entries: while let Some(entry) = scan.next() {
            add_entry(&mut pages, fan, entry.key, entry.pointer)?;
        }
        tree_over(pages, fan)
    }
}
