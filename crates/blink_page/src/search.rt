//! Searches within a page. A search of the tree reads pages under no latch. An update reads the page that it changes under that
//! page's latch.
ghost use Rattle.std.specs.Prelude.{◌≡◌, ◌<◌, ◌≤◌, ◌+◌, ◌*◌, Some, length};
ghost use Rattle.blink_page.specs.Entries.{value_at, child_for};
ghost use Rattle.blink_page.specs.Place.{place_of};
ghost use Rattle.blink_page.specs.Rising.{Rises};
ghost use Rattle.blink_page.specs.declared.search.TheConstants.{LINE};

use crate::page::Page;

/// Where a search goes on: to the next page of the level, to a child, or nowhere, since the page is the key's leaf.
#[derive(Clone, Copy, Debug, PartialEq, Eq)]
pub enum Way {
    Right(u32),
    Down(u32),
    Here,
}

impl Page {
    ghost use Rattle.blink_page.specs.Way.{Leads};

    /// Returns the next step of a search for `key` (Lehman and Yao 1981, the search algorithm). A key above the high key has
    /// gone to the right by a split that the page above does not show yet.
    pub fn way(&self, key: u64) -> Way
        ensures { Leads self.now key result }
    {
        match self.right {
            Some(right) if key > self.high => Way::Right(right),
            _ if self.level == 0 => Way::Here,
            _ => Way::Down(self.child(key)),
        }
    }

    /// Returns the value of the entry with this key.
    pub fn look(&self, key: u64) -> Option<u64>
        ensures { result ≡ value_at key self.now.entries }
    {
        self.value_there(place(&self.items, key), key)
    }

    // The value of the entry at the place of this key, if the entry is the key's.
    pub(crate) fn value_there(&self, at: usize, key: u64) -> Option<u64>
        requires place { at ≡ place_of key self.now.entries }
        requires within { at ≤ length self.now.entries }
        ensures { result ≡ value_at key self.now.entries }
    {
        if at == self.items.len() {
            return None;
        }
        let (found, value) = self.items[at];
        if found == key { Some(value) } else { None }
    }

    // The child for a key that is at most the high key.
    fn child(&self, key: u64) -> u32
        requires inner { 0 < self.now.level }
        requires not_right { key ≤ self.now.high }
        ensures { child_for key self.now.entries ≡ Some result }
    {
        let (_, child) = self.items[place(&self.items, key)];
        child as u32
    }
}

// The number of entries in a cache line of the processor, at 64 bytes a line.
const LINE: usize = 4;

/// Returns the number of entries before the first whose key is at least `key`.
///
/// It compares the last key of each cache line, to count the lines that it passes, and then each of four keys, all without a
/// branch on a key. At 16 and at 32 entries that takes less time than to stop at the first such entry, or than a binary search.
pub(crate) fn place(entries: &[(u64, u64)], key: u64) -> usize
    requires rise { Rises entries.now }
    ensures place { result ≡ place_of key entries.now }
    ensures within { result ≤ length entries.now }
{
    if entries.len() < LINE {
        return place_from_front(entries, key);
    }
    let first = (LINE * lines_passed(entries, key)).min(entries.len() - LINE);
    first
        + one_if_before(entries, first, key)
        + one_if_before(entries, first + 1, key)
        + one_if_before(entries, first + 2, key)
        + one_if_before(entries, first + 3, key)
}

// The same for a few entries.
fn place_from_front(entries: &[(u64, u64)], key: u64) -> usize
    ensures place { result ≡ place_of key entries.now }
    ensures within { result ≤ length entries.now }
{
    for (i, &(found, _)) in entries.iter().enumerate() {
        if key <= found {
            return i;
        }
    }
    entries.len()
}

// The number of whole lines before the place of the key.
fn lines_passed(entries: &[(u64, u64)], key: u64) -> usize
    requires rise { Rises entries.now }
    ensures passed { LINE * result ≤ place_of key entries.now }
    ensures reached { place_of key entries.now < LINE * result + LINE }
{
    let mut lines = 0;
    for line in 0..entries.len() / LINE {
        lines += one_if_before(entries, LINE * line + LINE - 1, key);
    }
    lines
}

// 1 for an entry before the place of the key, and 0 for any other.
fn one_if_before(entries: &[(u64, u64)], at: usize, key: u64) -> usize
    requires rise { Rises entries.now }
    requires inside { at < length entries.now }
    ensures before { at < place_of key entries.now → result ≡ 1 }
    ensures not_before { place_of key entries.now ≤ at → result ≡ 0 }
{
    let (found, _) = entries[at];
    usize::from(found < key)
}
