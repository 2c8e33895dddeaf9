//! The definition of a B-link tree: chains of pages, levels that name one another, searches, and trees at rest.
//!
//! Contracts see a tree at rest as its store, the record `PlainStore`. The laws of every tree stand in `laws`.
#![tactic(auto)]

mod decide;
pub mod laws;
mod rest;
mod walk;

pub use decide::at_rest;
pub use rest::Rest;
