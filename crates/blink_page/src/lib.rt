//! One page of a B-link tree: what it holds, how a search reads it, and how it changes and splits.
//!
//! Contracts see a page as plain data, the record `PlainPage`. No call takes memory.
#![tactic(auto)]

mod entries;
pub mod laws;
mod limits;
mod page;
mod post;
mod prime;
mod put;
mod search;
mod split;
mod swap;
mod take;

pub use limits::{
    GREATEST_KEY, LEVELS, MAX_FAN, MAX_LEVEL, MAX_NEW_PAGES_PER_INSERT, MAX_PAGE,
    MAX_PAGE_WRITES_PER_INSERT, MIN_FAN, exceeds_page_limit,
};
pub use page::Page;
pub use post::Post;
pub use prime::Prime;
pub use put::Put;
pub use search::Way;
