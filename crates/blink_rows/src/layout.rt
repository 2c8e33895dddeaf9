//! Where the words of a page's row stand. A prime block's row has the same head, of which all words but the last are 0, and then the
//! leftmost page of each level.

/// The page's level.
pub const LEVEL: usize = 0;

/// Whether the page has a floor: 1, or 0.
pub const HAS_FLOOR: usize = 1;

/// The page's floor, or 0.
pub const FLOOR: usize = 2;

/// The page's high key.
pub const HIGH_KEY: usize = 3;

/// The page that the right link leads to, or 0.
pub const RIGHT_LINK: usize = 4;

/// The number of entries of the page, or of levels that a prime block names. It is the head's last word.
pub const COUNT: usize = 5;

/// The number of words of an entry: its key, and then its pointer or its child.
pub const ENTRY_WORDS: usize = 2;
