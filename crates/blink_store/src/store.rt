//! The pages of a tree by number, and its prime block.
ghost use Rattle.std.specs.Prelude.{◌≡◌, ◌+◌, ◌<◌, ◌≤◌, ◌↔◌, IsTrue, Some, length, All, IfOk, OnErr, IsErrOf, IsOkUnless};
ghost use Rattle.std.specs.Option.{ForSome};
ghost use Rattle.blink_page.specs.{IsFan, IsPageNumber, IsLawfulPage};
ghost use Rattle.blink_store.specs.Store.{page_of, HasPage, IsLawfulStore, new_store, WritesPage, SameFloorAndLevel, KeepsFloorsAndLevels};

use crate::error::StoreError;
use blink_page::{MAX_PAGE, Page, Prime};
use std::alloc::Global;
use std::marker::Model;

/// The pages of a tree, numbered from 1 on, and its prime block, which has number 0.
///
/// A page is never removed, and its floor and its level never change. So a page number that was read once leads to the same
/// place in the tree for ever (Lehman and Yao 1981).
///
/// The fields are public for code that changes a tree in place, since only the vector itself tells what room is reserved in it.
/// Whatever changes them, the store is lawful again where it is next used as a whole.
#[derive(Debug, Drop)]
pub struct Store {
    pub fan: u8,
    pub prime: Prime,
    pub pages: Vec<Page>,
}

impl Model for Store {
    ghost use Rattle.blink_store.specs.Store.{PlainStore, IsLawfulStore};

    ghost Value = { PlainStore };

    ghost view = { λ store. record { fan = store.fan; prime = store.prime; pages = store.pages.items } };

    ghost invariant = { λ store. IsLawfulStore (record {
      fan = store.fan;
      prime = store.prime;
      pages = store.pages.items;
    }) };
}

impl Store {
    /// Makes the store of a new tree, whose pages will have at most `fan` entries.
    pub fn new(alloc: Global, fan: u8) -> Result<Store, StoreError>
        requires { IsFan fan }
        ensures store { IfOk result (λ store. store ≡ new_store fan) }
        ensures refused { IsOkUnless result StoreError.OutOfMemory }
    {
        let mut pages = Vec::new(alloc);
        match pages.push(Page::leaf()) {
            Ok(()) => Ok(Store {
                fan,
                prime: Prime::new(),
                pages,
            }),
            Err(_) => Err(StoreError::OutOfMemory),
        }
    }

    /// Copies the store: the same fan, the same prime block, and each page under its number.
    pub fn copy(&self, alloc: Global) -> Result<Store, StoreError>
        ensures store { IfOk result (λ store. store ≡ self.now) }
        ensures refused { IsOkUnless result StoreError.OutOfMemory }
    {
        let Ok(mut pages) = Vec::with_capacity(alloc, self.pages.len()) else {
            return Err(StoreError::OutOfMemory);
        };
        for page in &self.pages {
            pages.push_reserved(page.copy());
        }
        Ok(Store {
            fan: self.fan,
            prime: self.prime.copy(),
            pages,
        })
    }

    /// Returns whether the two stores are the same: the same fan, the same prime block, and the same page under each number. The
    /// call takes no memory.
    pub fn is_same(&self, other: &Store) -> bool
        ensures { IsTrue result ↔ self.now ≡ other.now }
    {
        if self.fan != other.fan || self.prime != other.prime {
            return false;
        }
        self.pages == other.pages
    }

    /// Returns page `n`.
    pub fn read(&self, n: u32) -> &Page
        requires { HasPage self.now n }
        ensures page { page_of self.now n ≡ Some result.now }
        ensures lawful { IsLawfulPage self.now.fan result.now }
    {
        &self.pages[n as usize - 1]
    }

    /// Replaces page `n`. The call takes no memory.
    pub fn write(&mut self, n: u32, page: Page)
        requires exists { HasPage self.old n }
        requires same_floor_and_level { ForSome (page_of self.old n)
            (λ old. SameFloorAndLevel old page) }
        requires at_most_fan { length page.entries ≤ self.old.fan }
        ensures written { WritesPage self.old self.new n page }
        ensures count { length self.new.pages ≡ length self.old.pages }
        ensures kept { KeepsFloorsAndLevels self.old self.new }
    {
        // Read for the proof: a page is lawful.
        let _level = page.level;
        self.pages[n as usize - 1] = page;
    }

    /// Replaces page `n` by a copy of this page, in place. The call takes no memory.
    pub fn write_from(&mut self, n: u32, page: &Page)
        requires exists { HasPage self.old n }
        requires same_floor_and_level { ForSome (page_of self.old n)
            (λ old. SameFloorAndLevel old page.now) }
        requires at_most_fan { length page.now.entries ≤ self.old.fan }
        ensures written { WritesPage self.old self.new n page.now }
        ensures count { length self.new.pages ≡ length self.old.pages }
        ensures kept { KeepsFloorsAndLevels self.old self.new }
    {
        // Read for the proof: a page is lawful.
        let _level = page.level;
        self.pages[n as usize - 1].assign(page);
    }

    /// Returns the prime block.
    pub fn prime(&self) -> &Prime
        ensures prime { result.now ≡ self.now.prime }
        ensures some_level { 0 < length self.now.prime }
        ensures page_numbers { All IsPageNumber self.now.prime }
    {
        &self.prime
    }

    /// Replaces the prime block.
    pub fn set_prime(&mut self, prime: Prime)
        ensures prime { self.new ≡ record self.old { prime = prime } }
        ensures kept { KeepsFloorsAndLevels self.old self.new }
    {
        // Read for the proof: a prime block is lawful.
        let _leftmost = &prime.leftmost;
        self.prime = prime;
    }

    /// Returns the number of pages, from 1 to `MAX_PAGE`. The prime block isn't counted.
    pub fn pages(&self) -> u32
        ensures count { result ≡ length self.now.pages }
        ensures in_range { IsPageNumber result }
        ensures lawful { IsLawfulStore self.now }
    {
        self.pages.len() as u32
    }

    /// Returns the greatest number of entries in a page of this tree.
    pub fn fan(&self) -> u8
        ensures fan { result ≡ self.now.fan }
        ensures in_range { IsFan result }
    {
        self.fan
    }

    /// Adds a page, and returns its number.
    pub fn add(&mut self, page: Page) -> Result<u32, StoreError>
        requires { length page.entries ≤ self.old.fan }
        ensures number { IfOk result (λ n. n ≡ length self.old.pages + 1) }
        ensures written { IfOk result (λ n. WritesPage self.old self.new n page) }
        ensures count { IfOk result (λ n. length self.new.pages ≡ n) }
        ensures kept { KeepsFloorsAndLevels self.old self.new }

        // The page numbers are checked before memory is asked for.
        ensures full { IsErrOf result StoreError.OutOfPages ↔ (length self.old.pages ≡ MAX_PAGE) }
        ensures unchanged { OnErr result (self.new ≡ self.old) }
    {
        let count = self.pages();
        if count == MAX_PAGE {
            return Err(StoreError::OutOfPages);
        }
        // Read for the proof: a page is lawful.
        let _level = page.level;
        match self.pages.push(page) {
            Ok(()) => Ok(count + 1),
            Err(_) => Err(StoreError::OutOfMemory),
        }
    }
}
