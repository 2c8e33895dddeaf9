//! The entries of a tree at rest: the way to a key's leaf, scans, the text of a tree, and trees that are packed from entries. An index
//! is made of these calls; they stand apart, so that they are proved beside the machine of one operation.
#![tactic(auto)]

mod back;
mod count;
mod down;
mod dump;
mod pack;
mod scan;

pub use back::ScanBack;
pub use count::{LeafCounts, leaf_counts};
pub use down::{leaf_for, leaf_number};
pub use dump::{OrDash, push_entries, tree_text};
pub use pack::{add_entry, first_leaf, pages_needed, tree_over};
pub use scan::Scan;
