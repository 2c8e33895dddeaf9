//! The first and the last entry of an index, and the next above and below a key.
ghost use Rattle.std.specs.Prelude.{◌≡◌, filter};
ghost use Rattle.blink_index.specs.Ends.{first_of, is_above, is_below, is_up_to, last_of};
ghost use Rattle.blink_entries.specs.Index.{map_of};
ghost use Rattle.blink_entries.specs.Scan.{is_from};

use super::Index;
use blink_operation::Entry;

impl Index {
    /// Returns the entry with the least key, or `None` if the index has no entry. The call takes no memory. It reads one page
    /// for each level, and then the leaves up to the first that has an entry.
    pub fn first(&self) -> Option<Entry>
        ensures { result ≡ first_of (map_of self.now) }
    {
        self.scan(0, u64::MAX).next()
    }

    /// Returns the entry with the least key above this one, or `None` if no key is above it. The call takes no memory. It reads
    /// one page for each level, and then the leaves up to the first that has such an entry.
    pub fn next(&self, key: u64) -> Option<Entry>
        ensures { result ≡ first_of (filter (is_above key) (map_of self.now)) }
    {
        // Called for the proof: a tree at rest has its entries as a map.
        let _rest = self.rest();
        if key == u64::MAX {
            return None;
        }
        self.page(key + 1, 1).next()
    }

    /// Returns the entry with the least key from this one on, or `None` if every key is below it. The call takes no memory. It
    /// reads pages as `next` does.
    pub fn at_least(&self, key: u64) -> Option<Entry>
        ensures { result ≡ first_of (filter (is_from key) (map_of self.now)) }
    {
        self.page(key, 1).next()
    }

    /// Returns the entry with the greatest key, or `None` if the index has no entry. The call takes no memory. It reads one page
    /// for each level, and as many again for each empty leaf that stands to the right of that entry.
    pub fn last(&self) -> Option<Entry>
        ensures { result ≡ last_of (map_of self.now) }
    {
        self.scan_back(0, u64::MAX).next()
    }

    /// Returns the entry with the greatest key below this one, or `None` if no key is below it. The call takes no memory. It reads
    /// one page for each level, and as many again for each leaf without such an entry that stands between the entry and the key.
    pub fn prev(&self, key: u64) -> Option<Entry>
        ensures { result ≡ last_of (filter (is_below key) (map_of self.now)) }
    {
        if key == 0 {
            return None;
        }
        self.at_most(key - 1)
    }

    /// Returns the entry with the greatest key up to this one, or `None` if every key is above it. The call takes no memory. It
    /// reads pages as `prev` does.
    pub fn at_most(&self, key: u64) -> Option<Entry>
        ensures { result ≡ last_of (filter (is_up_to key) (map_of self.now)) }
    {
        self.page_back(key, 1).next()
    }
}
