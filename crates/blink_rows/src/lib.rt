//! Pages and prime blocks as rows of words, for a table that threads share.
//!
//! A row determines its page. A page word names a row, and counts the records behind the page in it. No call takes memory.
#![tactic(auto)]

mod allowance;
mod counts;
mod lawful;
pub mod layout;
mod limits;
mod log;
mod logged;
mod naming;
mod pages;
mod primes;
mod span;
mod words;

pub use allowance::Allowance;
pub use blink_page::MAX_NEW_PAGES_PER_INSERT;
pub use counts::Counts;
pub use limits::{
    HEAD_WORDS, KIND_LIMIT, MAX_RECORDS, MAX_ROWS_PER_INSERT, RECORD_LIMIT, ROW_LIMIT, ROW_WORDS,
};
pub use log::{Kind, Record};
pub use logged::{find_in_row, page_in_row};
pub use naming::{Records, page_word, records_in, row_in};
pub use pages::{page_row, row_page};
pub use primes::{prime_row, row_prime};
pub use span::Span;
