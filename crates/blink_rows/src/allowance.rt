//! The number of changes that a table has room for.

/// The number of insertions and of deletions that may change a table. A replacement uses a deletion.
#[derive(Clone, Copy, Debug, PartialEq, Eq)]
pub struct Allowance {
    pub inserts: u32,
    pub deletes: u32,
}
