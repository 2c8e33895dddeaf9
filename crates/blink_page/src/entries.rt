//! Changes of a list of entries, for any capacity of the list.
ghost use Rattle.std.specs.Prelude.{◌≡◌, ◌+◌, ◌<◌, ◌≤◌, length, slice_set};
ghost use Rattle.arrayvec.specs.ArrayVec.{array_vec_len};
ghost use Rattle.blink_page.specs.Entries.{added, posted};
ghost use Rattle.blink_page.specs.Place.{place_of};
ghost use Rattle.blink_page.specs.Rising.{Rises};

use crate::search::place;
use arrayvec::ArrayVec;

/// Returns a list of these entries.
pub(crate) fn copied<const ROOM: usize>(entries: &[(u64, u64)]) -> ArrayVec<(u64, u64), ROOM>
    requires { length entries.now ≤ ROOM }
    ensures { result.items ≡ entries.now }
{
    let mut items = ArrayVec::new();
    let _fits = items.try_extend_from_slice(entries);
    items
}

/// Adds an entry at its place.
pub(crate) fn add<const ROOM: usize>(items: &mut ArrayVec<(u64, u64), ROOM>, key: u64, value: u64)
    requires room { array_vec_len items.old < ROOM }
    requires rise { Rises items.old.items }
    ensures entries { items.new.items ≡ added (key, value) items.old.items }
    ensures one_more { array_vec_len items.new ≡ array_vec_len items.old + 1 }
{
    let at = place(items, key);
    add_at(items, at, key, value);
}

/// Adds an entry at its place, which the caller has found.
pub(crate) fn add_at<const ROOM: usize>(
    items: &mut ArrayVec<(u64, u64), ROOM>,
    at: usize,
    key: u64,
    value: u64,
)
    requires place { at ≡ place_of key items.old.items }
    requires within { at ≤ array_vec_len items.old }
    requires room { array_vec_len items.old < ROOM }
    ensures entries { items.new.items ≡ added (key, value) items.old.items }
    ensures one_more { array_vec_len items.new ≡ array_vec_len items.old + 1 }
{
    items.insert(at, (key, value));
}

/// Replaces the first entry whose key is at least `key`, which the caller has found.
pub(crate) fn set_at<const ROOM: usize>(
    items: &mut ArrayVec<(u64, u64), ROOM>,
    at: usize,
    key: u64,
    value: u64,
)
    requires place { at ≡ place_of key items.old.items }
    requires there { place_of key items.old.items < array_vec_len items.old }
    ensures { items.new.items ≡ slice_set items.old.items (place_of key items.old.items) (key, value) }
{
    items[at] = (key, value);
}

/// Posts a separator: the first entry whose key is at least the separator gets the new child, and its own child moves to the
/// separator.
pub(crate) fn post_among<const ROOM: usize>(
    items: &mut ArrayVec<(u64, u64), ROOM>,
    separator: u64,
    new: u64,
)
    requires room { array_vec_len items.old < ROOM }
    requires rise { Rises items.old.items }
    requires below_last { place_of separator items.old.items < array_vec_len items.old }
    ensures entries { items.new.items ≡ posted (separator, new) items.old.items }
    ensures one_more { array_vec_len items.new ≡ array_vec_len items.old + 1 }
{
    let at = place(items, separator);
    post_at(items, at, separator, new);
}

/// Posts a separator at its place, which the caller has found.
pub(crate) fn post_at<const ROOM: usize>(
    items: &mut ArrayVec<(u64, u64), ROOM>,
    at: usize,
    separator: u64,
    new: u64,
)
    requires place { at ≡ place_of separator items.old.items }
    requires room { array_vec_len items.old < ROOM }
    requires below_last { place_of separator items.old.items < array_vec_len items.old }
    ensures entries { items.new.items ≡ posted (separator, new) items.old.items }
    ensures one_more { array_vec_len items.new ≡ array_vec_len items.old + 1 }
{
    let (above, child) = items[at];
    items[at] = (above, new);
    items.insert(at, (separator, child));
}
