//! Walks along the pages of a level.
ghost use Rattle.std.specs.Prelude.{◌≡◌, ◌+◌, ◌≤◌, ◌↔◌, Some, length, IsTrue, IfSome, IfNone, MatchOption};
ghost use Rattle.blink_page.specs.{IsPageNumber};
ghost use Rattle.blink_store.specs.{page_of};
ghost use Rattle.blink_rest.specs.Walk.{IsInLine, HasTail, NamesFirst, NamesNone, TailNames, HasChain, HasNoChain, HasSomeChain, HasNamedChain, HasNoNamedChain};

use blink_store::Store;

// Whether a page has this number, this level and this floor.
fn is_in_line(store: &Store, number: u32, level: usize, floor: Option<u64>) -> bool
    ensures in_line { IsTrue result ↔ IsInLine (page_of store.now) number level floor }
    ensures few_pages { IsPageNumber (length store.now.pages) }
{
    let pages = store.pages();
    if number == 0 || number > pages {
        return false;
    }
    let page = store.read(number);
    usize::from(page.level) == level && page.floor == floor
}

/// The number of pages of a level's chain, or `None` if the level is no chain.
pub(crate) fn chain_length(store: &Store, level: usize, leftmost: u32) -> Option<u32>
    ensures { MatchOption result (HasNoChain store.now.fan (page_of store.now) level leftmost)
        (λ count. HasChain store.now.fan (page_of store.now) level leftmost count) }
{
    let mut count = 0;
    let mut floor = None;
    let mut link = Some(leftmost);
    while let Some(number) = link {
        if !is_in_line(store, number, level, floor) {
            return None;
        }
        let page = store.read(number);
        floor = Some(page.high);
        link = page.right;
        count += 1;
    }
    Some(count)
}

// Compares the entries of a page with the pages below it, from the one that `first` links to, and returns the link after those
// that the entries name.
fn link_after_named(
    store: &Store,
    entries: &[(u64, u64)],
    first: Option<u32>,
) -> Option<Option<u32>>
    requires { HasTail store.now.fan (page_of store.now) first }
    ensures named { IfSome result
        (λ after. NamesFirst store.now.fan (page_of store.now) entries.now first after) }
    ensures differs { IfNone result
        (NamesNone store.now.fan (page_of store.now) entries.now first) }
{
    let mut below = first;
    for &(separator, child) in entries {
        let Some(number) = below else {
            return None;
        };
        let page = store.read(number);
        if separator != page.high || child != u64::from(number) {
            return None;
        }
        below = page.right;
    }
    Some(below)
}

/// Whether the pages of the upper chain name those of the lower.
fn names(store: &Store, upper: u32, lower: u32) -> bool
    requires upper { HasTail store.now.fan (page_of store.now) (Some upper) }
    requires lower { HasTail store.now.fan (page_of store.now) (Some lower) }
    ensures { IsTrue result ↔ TailNames store.now.fan (page_of store.now) upper lower }
{
    let mut above = Some(upper);
    let mut below = Some(lower);
    while let Some(number) = above {
        let page = store.read(number);
        match link_after_named(store, &page.items, below) {
            Some(after) => below = after,
            None => return false,
        }
        above = page.right;
    }
    below.is_none()
}

/// The number of pages of a level's chain, or `None` if the level is no chain or the chain above doesn't name it.
pub(crate) fn named_chain_length(store: &Store, level: usize, lower: u32, upper: u32) -> Option<u32>
    requires { HasSomeChain store.now.fan (page_of store.now) (level + 1) upper }
    ensures { MatchOption result
        (HasNoNamedChain store.now.fan (page_of store.now) level lower upper)
        (λ count. HasNamedChain store.now.fan (page_of store.now) level lower upper count) }
{
    match chain_length(store, level, lower) {
        Some(count) if names(store, upper, lower) => Some(count),
        _ => None,
    }
}
