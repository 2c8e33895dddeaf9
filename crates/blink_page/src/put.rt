//! Adding an entry to a leaf.
ghost use Rattle.std.specs.Prelude.{◌≡◌, ◌<◌, ◌≤◌, Some, None, length};
ghost use Rattle.blink_page.specs.Limits.{IsFan};
ghost use Rattle.blink_page.specs.Entries.{value_at, added};
ghost use Rattle.blink_page.specs.Page.{IsKeyOf, with_entries};

use crate::entries::add_at;
use crate::page::Page;
use crate::search::place;

/// The result of a put. `Present` has the value that the key had already.
#[derive(Clone, Copy, Debug, PartialEq, Eq)]
pub enum Put {
    Done,
    Present(u64),
    Full,
}

impl Page {
    ghost use Rattle.blink_page.specs.Put.{OnDone, UnlessDone, IfPresent, UnlessPresent, OnFull};

    /// Adds an entry to a leaf, unless its key is present. A full page stays as it is, to be split.
    pub fn put(&mut self, fan: u8, key: u64, value: u64) -> Put
        requires fan { IsFan fan }
        requires leaf { self.old.level ≡ 0 }
        requires key { IsKeyOf self.old key }
        requires at_most_fan { length self.old.entries ≤ fan }

        // The key's presence is checked before the page's fullness.
        ensures present { IfPresent result (λ found. value_at key self.old.entries ≡ Some found) }
        ensures absent { UnlessPresent result (value_at key self.old.entries ≡ None) }
        ensures full { OnFull result (length self.old.entries ≡ fan) }
        ensures room { OnDone result (length self.old.entries < fan) }

        ensures done { OnDone result
            (self.new ≡ with_entries self.old (added (key, value) self.old.entries)) }
        ensures unchanged { UnlessDone result (self.new ≡ self.old) }
    {
        let at = place(&self.items, key);
        if let Some(found) = self.value_there(at, key) {
            return Put::Present(found);
        }
        if self.items.len() == usize::from(fan) {
            return Put::Full;
        }
        add_at(&mut self.items, at, key, value);
        Put::Done
    }
}
