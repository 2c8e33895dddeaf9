//! The numbers of entries and of empty leaves of a tree at rest.
ghost use Rattle.std.specs.Prelude.{◌≡◌, length};
ghost use Rattle.blink_rest.specs.{IsStoreAtRest};
ghost use Rattle.blink_entries.specs.Index.{map_of};

use blink_store::Store;

/// How many entries a tree has, and how many of its leaves have none.
#[derive(Clone, Copy)]
pub struct LeafCounts {
    pub entries: usize,
    pub empty: u32,
}

/// Counts the entries of a tree at rest, and its leaves without an entry. The call takes no memory, and reads each leaf's number of
/// entries.
pub fn leaf_counts(store: &Store) -> LeafCounts
    requires { IsStoreAtRest store.now }
    ensures entries { result.entries ≡ length (map_of store.now) }
{
    // Called for the proof: there are no more pages than numbers.
    let _pages = store.pages();
    let _fan = store.fan();
    let mut count = 0;
    let mut empty = 0u32;
    let mut link = Some(store.prime().leftmost[0]);
    'leaves: while let Some(number) = link {
        let leaf = store.read(number);
        count += leaf.items.len();
        if leaf.items.is_empty() {
            empty = empty.saturating_add(1);
        }
        link = leaf.right;
    }
    LeafCounts {
        entries: count,
        empty,
    }
}
