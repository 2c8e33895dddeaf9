//! The descent to a leaf.
ghost use Rattle.blink_rest.specs.{IsStoreAtRest};
ghost use Rattle.blink_store.specs.{IsLeafOf};
ghost use Rattle.blink_entries.specs.Leaf.{IsLeafFor};

use blink_page::{Page, Way};
use blink_store::Store;

/// Returns the leaf that a key belongs to. The call takes no memory, and reads one page for each level: in a tree at rest no
/// search moves right.
pub fn leaf_for(store: &Store, key: u64) -> &Page
    requires { IsStoreAtRest store.now }
    ensures { IsLeafFor store.now key result.now }
{
    store.read(leaf_number(store, key))
}

/// Returns the number of that leaf.
pub fn leaf_number(store: &Store, key: u64) -> u32
    requires { IsStoreAtRest store.now }
    ensures { IsLeafOf store.now result key }
{
    let leftmost = &store.prime().leftmost;
    let mut number = leftmost[leftmost.len() - 1];
    'way: loop {
        let page = store.read(number);
        match page.way(key) {
            Way::Right(next) => number = next,
            Way::Down(child) => number = child,
            Way::Here => return number,
        }
    }
}
