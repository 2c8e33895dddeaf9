//! The index at rest: what a program holds between batches. It is read, and changed in place, without a batch.
//!
//! Contracts see an index as its store, the record `PlainStore`, for a layer above that needs its pages. `map_of` of the store
//! is the plain map, a list of entries in ascending order of their keys, for questions about the entries. The law
//! `the_map_is_kept` ties the two.
#![tactic(auto)]

mod drive;
mod edit;
mod error;
mod index;
pub mod laws;

pub use blink_entries::{OrDash, Scan, ScanBack, push_entries};
pub use error::{EditError, IndexError, SortedError};
pub use index::{Applied, Index};
