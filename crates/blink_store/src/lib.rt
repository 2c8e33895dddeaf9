//! The pages of a B-link tree by number, its prime block, and the latches of its pages.
//!
//! Contracts see a store as plain data, the record `PlainStore`. They see the latches as the page that each worker holds, with
//! `holder_of` the map from pages to workers.
#![tactic(auto)]

mod error;
mod latches;
mod leaf;
mod store;

pub use error::StoreError;
pub use latches::{Latches, WORKERS};
pub use store::Store;
