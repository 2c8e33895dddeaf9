//! The machine of one operation on a B-link tree, one atomic step at a time over any memory, and the law of the invariant that
//! each of its steps keeps.
#![tactic(auto)]

pub mod laws;
mod machine;
mod remembered;
mod step;

pub use machine::{Debt, Job, Machine, Need, Next, Resting, State};
pub use step::{Kind, Step};
