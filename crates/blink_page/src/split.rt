//! Splitting a full page.
ghost use Rattle.std.specs.Prelude.{◌≡◌, ◌+◌, ◌<◌, ◌≤◌, ◌++◌, None, length};
ghost use Rattle.arrayvec.specs.ArrayVec.{array_vec_len};
ghost use Rattle.blink_page.specs.Limits.{IsFan, IsPageNumber};
ghost use Rattle.blink_page.specs.Entries.{value_at};
ghost use Rattle.blink_page.specs.Page.{IsKeyOf, IsLawfulPage, with_entries, entries_with};
ghost use Rattle.blink_page.specs.Split.{kept_count, lower_half, upper_half, separator_of};

use crate::entries::{add, copied, post_among};
use crate::limits::OVERFULL;
use crate::page::Page;
use arrayvec::ArrayVec;

impl Page {
    /// Splits a full page that gets one more entry (Lehman and Yao 1981, the insertion algorithm). It returns the lower page,
    /// which replaces the full page, the upper page, which gets the number `new`, and the separator between them. On a leaf the
    /// entry is added, on an inner page it is posted.
    pub fn split_with(&self, fan: u8, key: u64, value: u64, new: u32) -> (Page, Page, u64)
        requires fan { IsFan fan }
        requires full { length self.now.entries ≡ fan }
        requires key { IsKeyOf self.now key }
        requires absent { value_at key self.now.entries ≡ None }
        requires child { 0 < self.now.level → IsPageNumber value }
        requires new_number { IsPageNumber new }
        ensures lower { result.0
            ≡ lower_half fan new self.now (entries_with self.now (key, value)) }
        ensures upper { result.1 ≡ upper_half fan self.now (entries_with self.now (key, value)) }
        ensures separator { result.2 ≡ separator_of fan (entries_with self.now (key, value)) }
        ensures whole { (result.0).entries ++ (result.1).entries
            ≡ entries_with self.now (key, value) }
        ensures lower_count { length (result.0).entries ≡ kept_count fan }
        ensures both_counts { length (result.0).entries + length (result.1).entries ≡ fan + 1 }
    {
        let whole = self.overfull_with(key, value);
        let lower = self.lower_of(fan, &whole, new);
        let upper = self.upper_of(fan, &whole);
        let separator = lower.high;
        (lower, upper, separator)
    }

    /// Returns the lower page of `split_with` alone, for a caller that writes the two pages in two steps. Its high key is the
    /// separator.
    pub fn lower_with(&self, fan: u8, key: u64, value: u64, new: u32) -> Page
        requires fan { IsFan fan }
        requires full { length self.now.entries ≡ fan }
        requires key { IsKeyOf self.now key }
        requires absent { value_at key self.now.entries ≡ None }
        requires child { 0 < self.now.level → IsPageNumber value }
        requires new_number { IsPageNumber new }
        ensures { result ≡ lower_half fan new self.now (entries_with self.now (key, value)) }
    {
        let whole = self.overfull_with(key, value);
        self.lower_of(fan, &whole, new)
    }

    /// Returns the upper page of `split_with` alone.
    pub fn upper_with(&self, fan: u8, key: u64, value: u64) -> Page
        requires fan { IsFan fan }
        requires full { length self.now.entries ≡ fan }
        requires key { IsKeyOf self.now key }
        requires absent { value_at key self.now.entries ≡ None }
        requires child { 0 < self.now.level → IsPageNumber value }
        ensures { result ≡ upper_half fan self.now (entries_with self.now (key, value)) }
    {
        let whole = self.overfull_with(key, value);
        self.upper_of(fan, &whole)
    }

    // The entries with one more, for which the page itself has no room.
    fn overfull_with(&self, key: u64, value: u64) -> ArrayVec<(u64, u64), OVERFULL>
        requires key { IsKeyOf self.now key }
        requires absent { value_at key self.now.entries ≡ None }
        requires child { 0 < self.now.level → IsPageNumber value }
        ensures entries { result.items ≡ entries_with self.now (key, value) }
        ensures one_more { array_vec_len result ≡ length self.now.entries + 1 }
        ensures lawful { IsLawfulPage (length self.now.entries + 1) (with_entries self.now result.items) }
    {
        let mut whole = copied(&self.items);
        if self.level == 0 {
            add(&mut whole, key, value);
        } else {
            post_among(&mut whole, key, value);
        }
        whole
    }

    // The page with the lower half of these entries, up to the separator.
    fn lower_of(&self, fan: u8, whole: &[(u64, u64)], new: u32) -> Page
        requires fan { IsFan fan }
        requires overfull { length whole.now ≡ fan + 1 }
        requires lawful { IsLawfulPage (fan + 1) (with_entries self.now whole.now) }
        requires new_number { IsPageNumber new }
        ensures { result ≡ lower_half fan new self.now whole.now }
    {
        let (kept, separator) = kept_and_separator(fan, whole);
        Page {
            level: self.level,
            floor: self.floor,
            high: separator,
            right: Some(new),
            items: copied(&whole[..kept]),
        }
    }

    // The page with the upper half of these entries, above the separator.
    fn upper_of(&self, fan: u8, whole: &[(u64, u64)]) -> Page
        requires fan { IsFan fan }
        requires overfull { length whole.now ≡ fan + 1 }
        requires lawful { IsLawfulPage (fan + 1) (with_entries self.now whole.now) }
        ensures { result ≡ upper_half fan self.now whole.now }
    {
        let (kept, separator) = kept_and_separator(fan, whole);
        Page {
            level: self.level,
            floor: Some(separator),
            high: self.high,
            right: self.right,
            items: copied(&whole[kept..]),
        }
    }
}

// The number of these entries that stay, and the key that parts them from the others.
fn kept_and_separator(fan: u8, whole: &[(u64, u64)]) -> (usize, u64)
    requires fan { IsFan fan }
    requires overfull { length whole.now ≡ fan + 1 }
    ensures kept { result.0 ≡ kept_count fan }
    ensures separator { result.1 ≡ separator_of fan whole.now }
{
    let kept = (usize::from(fan) + 2) / 2;
    let (separator, _) = whole[kept - 1];
    (kept, separator)
}
