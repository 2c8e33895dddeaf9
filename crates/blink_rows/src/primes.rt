//! The row of a prime block.
ghost use Rattle.std.specs.Prelude.{◌≡◌, ◌≤◌, All, IfSome, IfNone, length};
ghost use Rattle.blink_page.specs.{IsPageNumber};
ghost use Rattle.blink_rows.specs.Row.{IsPrimeRow, IsRowOfNoPrime};

use crate::layout::COUNT;
use crate::limits::{HEAD_WORDS, ROW_WORDS};
use crate::words::{are_zero, content, page_number, row_of};
use arrayvec::ArrayVec;
use blink_page::{LEVELS, Prime};

/// Returns the row of a prime block.
pub fn prime_row(prime: &Prime) -> [u64; ROW_WORDS]
    ensures { IsPrimeRow prime.now result }
{
    let mut words = row_of([0, 0, 0, 0, 0, prime.leftmost.len() as u64]);
    for (level, &page) in prime.leftmost.iter().enumerate() {
        words[HEAD_WORDS + level] = u64::from(page);
    }
    words
}

/// Returns the prime block whose row these words are, or `None` if they are no prime block's row.
pub fn row_prime(words: &[u64; ROW_WORDS]) -> Option<Prime>
    ensures prime { IfSome result (λ prime. IsPrimeRow prime words.now) }
    ensures none { IfNone result (IsRowOfNoPrime words.now) }
{
    let levels = words[COUNT];
    if !are_zero(&words[..COUNT]) || levels == 0 || levels > LEVELS as u64 {
        return None;
    }
    let leftmost = page_numbers(content(words, levels as usize)?)?;
    Some(Prime { leftmost })
}

// The pages that have these numbers.
fn page_numbers(words: &[u64]) -> Option<ArrayVec<u32, LEVELS>>
    requires { length words.now ≤ LEVELS }
    ensures pages { IfSome result (λ pages. pages.items ≡ words.now) }
    ensures numbers { IfSome result (λ pages. All IsPageNumber pages.items) }
    ensures none { IfNone result (All IsPageNumber words.now → ⊥) }
{
    let mut pages = ArrayVec::new();
    for &word in words {
        pages.push(page_number(word)?);
    }
    Some(pages)
}
