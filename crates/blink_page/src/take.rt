//! Removing an entry from a leaf.
ghost use Rattle.std.specs.Prelude.{◌≡◌, IfNone};
ghost use Rattle.blink_page.specs.Entries.{value_at, removed};
ghost use Rattle.blink_page.specs.Page.{with_entries};

use crate::page::Page;
use crate::search::place;

impl Page {
    /// Removes the entry with this key from a leaf, and returns its value (Lehman and Yao 1981, deletion). A leaf that becomes
    /// empty stays a page of the tree.
    pub fn take(&mut self, key: u64) -> Option<u64>
        requires { self.old.level ≡ 0 }
        ensures value { result ≡ value_at key self.old.entries }
        ensures entries { self.new ≡ with_entries self.old (removed key self.old.entries) }
        ensures unchanged { IfNone result (self.new ≡ self.old) }
    {
        let at = place(&self.items, key);
        let Some(value) = self.value_there(at, key) else {
            return None;
        };
        self.items.remove(at);
        Some(value)
    }
}
