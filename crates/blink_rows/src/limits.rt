//! The sizes of rows, and of a table of them.

/// The number of words of a row.
pub const ROW_WORDS: usize = 72;

/// The number of a row's words before the entries of a page, or before the pages that a prime block names.
pub const HEAD_WORDS: usize = 6;

/// The greatest number of rows that one insertion takes: two for a split on each level, and two for a new root and its prime
/// block.
pub const MAX_ROWS_PER_INSERT: u64 = 44;

/// Row numbers are below this, which is 2 to the power of 33: a page word has 33 bits for the row that it names.
pub const ROW_LIMIT: u64 = 8_589_934_592;

/// A page word counts fewer records than this: it has 4 bits for them.
pub const RECORD_LIMIT: u64 = 16;

/// The records' kinds are below this, which is 2 to the power of 24: a page word has 2 bits for the kind of each of 12 records.
pub const KIND_LIMIT: u64 = 16_777_216;

/// The greatest number of records in a row: a page word has the kinds of so many.
pub const MAX_RECORDS: usize = 12;
