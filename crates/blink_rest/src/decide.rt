//! A test whether a tree is at rest.
ghost use Rattle.std.specs.Prelude.{◌↔◌, IsTrue};
ghost use Rattle.blink_store.specs.{page_of};
ghost use Rattle.blink_rest.specs.Rest.{IsAtRest};

use crate::walk::{chain_length, named_chain_length};
use blink_store::Store;

/// Returns whether no operation is under way in the tree, and every split is posted. The call takes no memory, and time in
/// proportion to the pages and their entries.
pub fn at_rest(store: &Store) -> bool
    ensures { IsTrue result ↔ IsAtRest store.now.fan store.now.prime (page_of store.now) }
{
    let pages = store.pages();
    let leftmost = &store.prime().leftmost;
    let mut level = leftmost.len() - 1;
    if chain_length(store, level, leftmost[level]) != Some(1) {
        return false;
    }
    let mut count = 1;
    while level > 0 {
        level -= 1;
        match named_chain_length(store, level, leftmost[level], leftmost[level + 1]) {
            Some(more) => count += more,
            None => return false,
        }
    }
    count == pages
}
