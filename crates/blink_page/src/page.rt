//! A page, and how new pages are made.
ghost use Rattle.std.specs.Prelude.{◌≡◌, ◌<◌, ◌≤◌};
ghost use Rattle.blink_page.specs.Limits.{IsPageNumber};
ghost use Rattle.blink_page.specs.Page.{empty_leaf, root_over};

use crate::entries::copied;
use crate::limits::{GREATEST_KEY, MAX_FAN, MAX_LEVEL};
use arrayvec::ArrayVec;
use std::marker::Model;

/// A page of the tree: a leaf, of level 0, or an inner page (Lehman and Yao 1981, the B-link tree).
///
/// Its keys are those above `floor` and at most `high`. `floor` is `None` on the leftmost page of a level. On the last page of a
/// level `high` is the greatest number; that page alone has no link to the `right`. A link is a page's number, from 1 to
/// `MAX_PAGE`. The items of a leaf are keys with their values. The items of an inner page are separators with the numbers of
/// their children.
#[derive(Debug, Drop, PartialEq, Eq)]
pub struct Page {
    pub level: u8,
    pub floor: Option<u64>,
    pub high: u64,
    pub right: Option<u32>,
    pub items: ArrayVec<(u64, u64), MAX_FAN>,
}

impl Model for Page {
    ghost use Rattle.blink_page.specs.Page.{PlainPage, IsLawfulPage};
    ghost use Rattle.blink_page.specs.declared.limits.TheConstants.{MAX_FAN};

    ghost Value = { PlainPage };

    ghost use Rattle.blink_page.specs.PageView.{plain, inside_of};

    ghost view = { plain };

    ghost invariant = { λ page. IsLawfulPage MAX_FAN (plain page) };

    ghost inverse = { inside_of };
}

impl Page {
    /// Makes the page of a new tree: an empty leaf for all keys.
    pub fn leaf() -> Page
        ensures { result ≡ empty_leaf }
    {
        Page {
            level: 0,
            floor: None,
            high: GREATEST_KEY,
            right: None,
            items: ArrayVec::new(),
        }
    }

    /// Makes a root over the two pages into which the old root was split. `left` has the keys up to `separator`, `right` those
    /// above it.
    pub fn root(level: u8, separator: u64, left: u32, right: u32) -> Page
        requires inner { 1 ≤ level }
        requires level_in_range { level ≤ MAX_LEVEL }
        requires parts_keys { separator < GREATEST_KEY }
        requires left_number { IsPageNumber left }
        requires right_number { IsPageNumber right }
        ensures { result ≡ root_over level separator left right }
    {
        let mut items = ArrayVec::new();
        items.push((separator, u64::from(left)));
        items.push((GREATEST_KEY, u64::from(right)));
        Page {
            level,
            floor: None,
            high: GREATEST_KEY,
            right: None,
            items,
        }
    }

    /// Copies the page. The call takes no memory.
    pub fn copy(&self) -> Page
        ensures { result ≡ self.now }
    {
        Page {
            level: self.level,
            floor: self.floor,
            high: self.high,
            right: self.right,
            items: copied(&self.items),
        }
    }

    /// Makes this page the same as another. Of a page that isn't full only the entries that are there are copied. The call takes
    /// no memory.
    pub fn assign(&mut self, other: &Page)
        ensures { self.new ≡ other.now }
    {
        self.level = other.level;
        self.floor = other.floor;
        self.high = other.high;
        self.right = other.right;
        self.items.clear();
        let _fits = self.items.try_extend_from_slice(&other.items);
    }
}
