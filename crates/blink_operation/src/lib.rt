//! Operations on a map, their answers, and the entries of a map. `blink_batch` exports them too; they stand apart, so that the
//! machine of one operation is proved beside batches and scripts.
#![tactic(auto)]

mod entry;
mod operation;

pub use entry::Entry;
pub use operation::{Answer, Op};
