//! Changes of a leaf in place.
ghost use Rattle.std.specs.Prelude.{◌≡◌, ◌<◌, Some, None, length, IfNone};
ghost use Rattle.std.specs.Option.{ForSome};
ghost use Rattle.blink_page.specs.{value_at, added, removed, replaced, with_entries};
ghost use Rattle.blink_store.specs.Store.{page_of, WritesPage};
ghost use Rattle.blink_store.specs.Leaf.{IsLeafOf};

use crate::store::Store;
use blink_page::Put;

impl Store {
    ghost use Rattle.blink_page.specs.Put.{OnDone, UnlessDone, IfPresent, UnlessPresent, OnFull};

    /// Adds an entry to leaf `n` in place, unless its key is present or the leaf is full. The call takes no memory.
    pub fn put(&mut self, n: u32, key: u64, value: u64) -> Put
        requires { IsLeafOf self.old n key }
        ensures present { ForSome (page_of self.old n)
            (λ leaf. IfPresent result (λ found. value_at key leaf.entries ≡ Some found)) }
        ensures absent { ForSome (page_of self.old n)
            (λ leaf. UnlessPresent result (value_at key leaf.entries ≡ None)) }
        ensures full { ForSome (page_of self.old n)
            (λ leaf. OnFull result (length leaf.entries ≡ self.old.fan)) }
        ensures room { ForSome (page_of self.old n)
            (λ leaf. OnDone result (length leaf.entries < self.old.fan)) }
        ensures done { ForSome (page_of self.old n)
            (λ leaf. OnDone result
            (WritesPage self.old self.new n
            (with_entries leaf (added (key, value) leaf.entries)))) }
        ensures unchanged { UnlessDone result (self.new ≡ self.old) }
        ensures count { length self.new.pages ≡ length self.old.pages }
    {
        let leaf = &mut self.pages[n as usize - 1];
        leaf.put(self.fan, key, value)
    }

    /// Removes the entry with this key from leaf `n` in place, and returns its value. If the key is absent, nothing changes. The
    /// call takes no memory.
    pub fn take(&mut self, n: u32, key: u64) -> Option<u64>
        requires { IsLeafOf self.old n key }
        ensures value { ForSome (page_of self.old n) (λ leaf. result ≡ value_at key leaf.entries) }
        ensures entries { ForSome (page_of self.old n)
            (λ leaf. WritesPage self.old self.new n
            (with_entries leaf (removed key leaf.entries))) }
        ensures unchanged { IfNone result (self.new ≡ self.old) }
        ensures count { length self.new.pages ≡ length self.old.pages }
    {
        let leaf = &mut self.pages[n as usize - 1];
        leaf.take(key)
    }

    /// Replaces the value of this key of leaf `n` in place, and returns the one before. If the key is absent, nothing changes.
    /// The call takes no memory.
    pub fn swap(&mut self, n: u32, key: u64, value: u64) -> Option<u64>
        requires { IsLeafOf self.old n key }
        ensures before { ForSome (page_of self.old n) (λ leaf. result ≡ value_at key leaf.entries) }
        ensures entries { ForSome (page_of self.old n)
            (λ leaf. WritesPage self.old self.new n
            (with_entries leaf (replaced (key, value) leaf.entries))) }
        ensures unchanged { IfNone result (self.new ≡ self.old) }
        ensures count { length self.new.pages ≡ length self.old.pages }
    {
        let leaf = &mut self.pages[n as usize - 1];
        leaf.swap(key, value)
    }
}
