//! A test whether a page is lawful.
ghost use Rattle.std.specs.Prelude.{◌≡◌, ◌+◌, ◌≤◌, ◌↔◌, IfSome, IsTrue, EachIndex, length, slice_index_or};
ghost use Rattle.blink_page.specs.{IsPageNumber, least_above, IsRising, ValuesWithin, last_key, PlainPage, IsLawfulPage};

use blink_page::{GREATEST_KEY, MAX_FAN, MAX_LEVEL, MAX_PAGE};

/// Whether these are the parts of a lawful page.
pub(crate) fn is_lawful(
    level: u8,
    floor: Option<u64>,
    high: u64,
    right: Option<u32>,
    entries: &[(u64, u64)],
) -> bool
    requires level { level ≤ MAX_LEVEL }
    requires right { IfSome right IsPageNumber }
    requires at_most_fan { length entries.now ≤ MAX_FAN }
    requires values { ValuesWithin 0 GREATEST_KEY entries.now }
    ensures { let page : PlainPage = record {
      level = level;
      floor = floor;
      high = high;
      right = right;
      entries = entries.now;
    } in IsTrue result ↔ IsLawfulPage MAX_FAN page }
{
    if !is_above(high, floor)
        || right.is_none() != (high == GREATEST_KEY)
        || !keys_rise(entries, floor, high)
    {
        return false;
    }
    level == 0 || lead_down(entries, high)
}

/// Whether a key is above a floor.
pub(crate) fn is_above(key: u64, floor: Option<u64>) -> bool
    ensures { IsTrue result ↔ (least_above floor ≤ key) }
{
    match floor {
        Some(floor) => floor < key,
        None => true,
    }
}

// Whether the keys ascend above a floor and up to a high key.
fn keys_rise(entries: &[(u64, u64)], floor: Option<u64>, high: u64) -> bool
    requires { least_above floor ≤ high }
    ensures { IsTrue result ↔ IsRising (least_above floor) entries.now (high + 1) }
{
    let mut below = floor;
    for &(key, _) in entries {
        if !is_above(key, below) || key > high {
            return false;
        }
        below = Some(key);
    }
    true
}

// Whether there are at least two entries, the last key is the high key, and each value is a page's number.
fn lead_down(entries: &[(u64, u64)], high: u64) -> bool
    ensures { IsTrue result ↔ ((2 ≤ length entries.now)
        × (last_key entries.now ≡ high) × ValuesWithin 1 MAX_PAGE entries.now) }
{
    if entries.len() < 2 {
        return false;
    }
    let (last, _) = entries[entries.len() - 1];
    last == high && are_page_numbers(entries)
}

// Whether each value is a page's number.
fn are_page_numbers(entries: &[(u64, u64)]) -> bool
    ensures { IsTrue result ↔ EachIndex entries.now
        (λ n. IsPageNumber (slice_index_or entries.now n (0, 0)).1) }
{
    entries
        .iter()
        .all(|&(_, child)| 1 <= child && child <= u64::from(MAX_PAGE))
}
