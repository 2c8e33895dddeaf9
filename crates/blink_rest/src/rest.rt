//! A store whose tree is at rest.
ghost use Rattle.std.specs.Prelude.{◌≡◌, ◌<◌, ◌↔◌, IsTrue, length, IfOk, IsOkUnless};
ghost use Rattle.blink_page.specs.{IsFan};
ghost use Rattle.blink_page.specs.declared.limits.TheConstants.{LEVELS};
ghost use Rattle.blink_store.specs.{IsLawfulStore, new_store};
ghost use Rattle.blink_rest.specs.Rest.{IsStoreAtRest};

use blink_store::{Store, StoreError};
use std::alloc::Global;
use std::marker::Model;

/// A tree at rest: no operation is under way, and every split is posted.
///
/// The type guarantees this, so whoever is given one need not look at the pages. The field is public for code that changes a
/// tree in place: whatever changes the store, the tree is at rest again where it is next used as a whole.
#[derive(Debug, Drop)]
pub struct Rest {
    pub store: Store,
}

impl Model for Rest {
    ghost use Rattle.blink_store.specs.{PlainStore};

    ghost Value = { PlainStore };

    ghost use Rattle.blink_rest.specs.Rest.{IsStoreAtRest};

    ghost view = { λ rest. rest.store };

    ghost invariant = { λ rest. IsStoreAtRest rest.store };
}

impl Rest {
    /// Makes a new tree, whose pages will have at most `fan` entries. Its only page is an empty leaf.
    pub fn empty(alloc: Global, fan: u8) -> Result<Rest, StoreError>
        requires { IsFan fan }
        ensures new { IfOk result (λ rest. rest ≡ new_store fan) }
        ensures refused { IsOkUnless result StoreError.OutOfMemory }
    {
        match Store::new(alloc, fan) {
            Ok(store) => Ok(Rest::of(store)),
            Err(refusal) => Err(refusal),
        }
    }

    /// Copies the tree. Each page has the same number in the copy.
    pub fn copy(&self, alloc: Global) -> Result<Rest, StoreError>
        ensures tree { IfOk result (λ rest. rest ≡ self.now) }
        ensures refused { IsOkUnless result StoreError.OutOfMemory }
    {
        let store = self.store.copy(alloc)?;
        Ok(Rest::of(store))
    }

    /// Returns whether the two trees are the same: the same fan, the same prime block, and the same page under each number. The
    /// call takes no memory.
    pub fn is_same(&self, other: &Rest) -> bool
        ensures { IsTrue result ↔ self.now ≡ other.now }
    {
        self.store.is_same(&other.store)
    }

    /// Makes the tree of a store that is at rest. The call takes no memory.
    pub fn of(store: Store) -> Rest
        requires { IsStoreAtRest store }
        ensures { result ≡ store }
    {
        Rest { store }
    }

    /// Returns the store of the tree, to be read.
    pub fn store(&self) -> &Store
        ensures store { result.now ≡ self.now }
        ensures at_rest { IsStoreAtRest self.now }
        ensures few_levels { length self.now.prime < LEVELS }
        ensures lawful { IsLawfulStore self.now }
    {
        // Called for the proof: a store's number of pages is bounded.
        let _count = self.store.pages();
        &self.store
    }

    /// Returns the store of the tree, to be changed.
    pub fn into_store(self) -> Store
        ensures { result ≡ self }
    {
        self.store
    }
}
