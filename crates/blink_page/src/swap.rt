//! Replacing the value of an entry of a leaf.
ghost use Rattle.std.specs.Prelude.{◌≡◌, IfNone};
ghost use Rattle.blink_page.specs.Entries.{value_at, replaced};
ghost use Rattle.blink_page.specs.Page.{with_entries};

use crate::entries::set_at;
use crate::page::Page;
use crate::search::place;

impl Page {
    /// Replaces the value of this key of a leaf, and returns the one before. If the key is absent, nothing changes, and the call
    /// returns `None`.
    pub fn swap(&mut self, key: u64, value: u64) -> Option<u64>
        requires { self.old.level ≡ 0 }
        ensures value { result ≡ value_at key self.old.entries }
        ensures entries { self.new ≡ with_entries self.old (replaced (key, value) self.old.entries) }
        ensures unchanged { IfNone result (self.new ≡ self.old) }
    {
        let at = place(&self.items, key);
        let Some(before) = self.value_there(at, key) else {
            return None;
        };
        set_at(&mut self.items, at, key, value);
        Some(before)
    }
}
