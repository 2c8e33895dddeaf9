//! Examples of the public calls of the crates from `blink_batch` to `blink_index`, worked by hand.
//!
//! The crate has tests alone. They stand above the crates that they call, so that each of those is proved without them, and
//! they are proved once.
#![tactic(auto)]

#[cfg(test)]
mod batch;
#[cfg(test)]
mod cuts;
#[cfg(test)]
mod fixtures;
#[cfg(test)]
mod index;
#[cfg(test)]
mod machine;
#[cfg(test)]
mod page;
#[cfg(test)]
mod plain;
#[cfg(test)]
mod refusals;
#[cfg(test)]
mod rows;
#[cfg(test)]
mod script;
#[cfg(test)]
mod store;
#[cfg(test)]
mod world;
