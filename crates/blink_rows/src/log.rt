//! Records of a leaf's log. A record says how one key was changed. It stands in the leaf's row, behind the page that the row was written
//! with, the base.
ghost use Rattle.std.specs.Prelude.{◌≡◌, ◌↔◌, ℕ, ◌+◌, ◌*◌, ◌<◌, ◌≤◌, IsTrue, List, [], ◌∷◌, ◌++◌, length};
ghost use Rattle.blink_page.specs.{PlainPage};
ghost use Rattle.blink_page.specs.declared.limits.TheConstants.{MAX_FAN};
ghost use Rattle.blink_rows.specs.declared.log.Record.{Record};
ghost use Rattle.blink_rows.specs.Log.{AllFit, Fits, content, counted, page_after, pointer_after};

use crate::layout::ENTRY_WORDS;
use crate::limits::{HEAD_WORDS, KIND_LIMIT, MAX_RECORDS, RECORD_LIMIT, ROW_WORDS};
use crate::naming::Records;
use blink_page::{MAX_FAN, Page};

// The bits of a page word's kinds that say of a record that it added its key, and those that say that it removed it.
const ADDED: u32 = 0x55_5555;

const REMOVED: u32 = 0xaa_aaaa;

/// What a record did to its key. Its number is what a page word says of the record.
#[derive(Clone, Copy, Debug, Default, PartialEq, Eq)]
pub enum Kind {
    #[default]
    Replaced = 0,
    Added = 1,
    Removed = 2,
}

/// A change of one key of a leaf. The pointer of a removal says nothing.
#[derive(Clone, Copy, Debug, Default, PartialEq, Eq)]
pub struct Record {
    pub kind: Kind,
    pub key: u64,
    pub pointer: u64,
}

impl Record {
    /// Returns the pointer that the key has after the change; `None` if the key was removed.
    pub fn pointer_after(&self) -> Option<u64>
        ensures { result ≡ pointer_after self.now }
    {
        match self.kind {
            Kind::Replaced | Kind::Added => Some(self.pointer),
            Kind::Removed => None,
        }
    }

    /// Changes a leaf as the record says. The change has to fit the leaf: a key that it adds is absent, and there is room for it; a
    /// key that it replaces or removes is there.
    pub fn apply(&self, page: &mut Page)
        requires { Fits MAX_FAN page.old self.now }
        ensures { page.new ≡ page_after page.old self.now }
    {
        match self.kind {
            Kind::Replaced => {
                page.swap(self.key, self.pointer);
            }
            Kind::Added => {
                page.put(MAX_FAN as u8, self.key, self.pointer);
            }
            Kind::Removed => {
                page.take(self.key);
            }
        }
    }
}

impl Records {
    /// Returns what a page word says once a record of this kind stands behind the others.
    pub fn with(self, kind: Kind) -> Records
        requires count { self.count < MAX_RECORDS }
        requires kinds { self.kinds < KIND_LIMIT }
        ensures { (records : List Record) (r : Record) → counted records ≡ self → r.kind ≡ kind
            → result ≡ counted (records ++ r ∷ []) }
    {
        Records {
            count: self.count + 1,
            kinds: 4 * self.kinds + kind as u32,
        }
    }

    /// Returns the kind of the record that has so many older ones.
    pub fn kind(&self, older: u8) -> Kind
        requires record { older < self.now.count }
        requires count { self.now.count < RECORD_LIMIT }
        ensures { (front : List Record) (r : Record) (back : List Record)
            → counted (front ++ r ∷ back) ≡ self.now → length front ≡ older → result ≡ r.kind }
    {
        let newer = self.count - 1 - older;
        match (self.kinds >> (2 * newer)) % 4 {
            0 => Kind::Replaced,
            1 => Kind::Added,
            _ => Kind::Removed,
        }
    }

    /// Returns how many entries a leaf has whose base has so many.
    pub fn live(&self, base: usize) -> usize
        requires { base ≤ MAX_FAN }
        ensures { (fan : ℕ) (page : PlainPage) (records : List Record) → AllFit fan page records
            → length records ≤ MAX_RECORDS → counted records ≡ self.now → base ≡ length page.entries
            → result ≡ length (content page.entries records) }
    {
        let added = (self.kinds & ADDED).count_ones();
        let removed = (self.kinds & REMOVED).count_ones();
        (base + added as usize).saturating_sub(removed as usize)
    }

    /// Returns whether a row whose base has so many entries has room for one record more, and the page word for its kind.
    pub fn has_room(&self, base: usize) -> bool
        requires { base ≤ MAX_FAN }
        ensures { IsTrue result ↔ ((self.now.count < MAX_RECORDS)
            × (HEAD_WORDS + ENTRY_WORDS * (base + self.now.count + 1) ≤ ROW_WORDS)) }
    {
        let count = usize::from(self.count);
        count < MAX_RECORDS && HEAD_WORDS + ENTRY_WORDS * (base + count + 1) <= ROW_WORDS
    }
}
