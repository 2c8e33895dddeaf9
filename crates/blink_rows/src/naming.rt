//! Page words. Each names a row, and counts the records that stand in the row behind its page.
//!
//! The lowest 33 bits are the row's number, the next 4 the number of records, and the 24 behind these the records' kinds. So one load
//! tells the row and its records together, and a page word without records is the row's number.
ghost use Rattle.std.specs.Prelude.{◌≡◌, ◌<◌};
ghost use Rattle.blink_rows.specs.Naming.{page_word, records_in, row_in};

use crate::limits::{KIND_LIMIT, RECORD_LIMIT, ROW_LIMIT};

/// What a page word says of the records in its row.
#[derive(Clone, Copy, Debug, PartialEq, Eq)]
pub struct Records {
    /// The number of records.
    pub count: u8,
    /// Their kinds, two bits for each. The last record's are the lowest.
    pub kinds: u32,
}

/// Returns the page word that names this row and counts these records.
#[tactic(auto, using(crate::proofs::PageWords::row_of_word, crate::proofs::PageWords::records_of_word))]
pub fn page_word(row: u64, records: Records) -> u64
    requires row { row < ROW_LIMIT }
    requires count { records.count < RECORD_LIMIT }
    requires kinds { records.kinds < KIND_LIMIT }
    ensures word { result ≡ page_word row records }
    ensures row { row_in result ≡ row }
    ensures records { records_in result ≡ records }
{
    row + ROW_LIMIT * (u64::from(records.count) + RECORD_LIMIT * u64::from(records.kinds))
}

/// Returns the row that a page word names.
#[tactic(auto, unfolding(crate::specs::Naming::row_in))]
pub fn row_in(word: u64) -> u64
    ensures row { result ≡ row_in word }
    ensures bounded { result < ROW_LIMIT }
{
    word % ROW_LIMIT
}

/// Returns what a page word says of the records in its row.
#[tactic(auto, unfolding(crate::specs::Naming::records_in))]
pub fn records_in(word: u64) -> Records
    ensures records { result ≡ records_in word }
    ensures count { result.count < RECORD_LIMIT }
    ensures kinds { result.kinds < KIND_LIMIT }
{
    Records {
        count: (word / ROW_LIMIT % RECORD_LIMIT) as u8,
        kinds: (word / (ROW_LIMIT * RECORD_LIMIT) % KIND_LIMIT) as u32,
    }
}
