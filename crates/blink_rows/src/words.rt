//! What the rows of pages and of prime blocks have in common.
ghost use Rattle.std.specs.Prelude.{◌≡◌, ◌+◌, ◌≤◌, ◌↔◌, IfSome, IfNone, IsTrue, take, drop};
ghost use Rattle.blink_page.specs.{IsPageNumber};
ghost use Rattle.blink_rows.specs.Row.{AreZero, IsRowOf};

use crate::limits::{HEAD_WORDS, ROW_WORDS};
use blink_page::MAX_PAGE;

/// The row that begins with these words and has no others yet.
pub(crate) fn row_of(head: [u64; HEAD_WORDS]) -> [u64; ROW_WORDS]
    ensures { IsRowOf result head }
{
    let mut words = [0; ROW_WORDS];
    words[..HEAD_WORDS].copy_from_slice(&head);
    words
}

/// The first `count` words after the head, if all words after them are 0.
pub(crate) fn content(words: &[u64; ROW_WORDS], count: usize) -> Option<&[u64]>
    requires { HEAD_WORDS + count ≤ ROW_WORDS }
    ensures found { IfSome result (λ found. found.now ≡ take count (drop HEAD_WORDS words.now)) }
    ensures rest { IfSome result (λ found. AreZero (drop count (drop HEAD_WORDS words.now))) }
    ensures none { IfNone result (AreZero (drop count (drop HEAD_WORDS words.now)) → ⊥) }
{
    let (found, rest) = words[HEAD_WORDS..].split_at(count);
    if are_zero(rest) { Some(found) } else { None }
}

/// The page number that this word stores.
pub(crate) fn page_number(word: u64) -> Option<u32>
    ensures some { IfSome result (λ page. (page ≡ word) × IsPageNumber page) }
    ensures none { IfNone result (IsPageNumber word → ⊥) }
{
    if 1 <= word && word <= u64::from(MAX_PAGE) {
        Some(word as u32)
    } else {
        None
    }
}

/// Whether all these words are 0.
pub(crate) fn are_zero(words: &[u64]) -> bool
    ensures { IsTrue result ↔ AreZero words.now }
{
    words.iter().all(|&word| word == 0)
}
