//! Reading scripts.
ghost use Rattle.std.specs.Prelude.{◌≡◌, Ok, IfOk, IfErr};
ghost use Rattle.csv.specs.Reading.{error_kind};
ghost use Rattle.blink_batch.specs.Reader.{Begins, ComesTo, IsRefusedFor};
ghost use Rattle.blink_batch.specs.Script.{IsReadable, ReadsAs, TellsRefusal, refusal_of};

use crate::batch::Batch;
use crate::error::ScriptError;
use crate::parts::Parts;
use crate::record::read_request;
use csv::{ByteRecord, ErrorKind, Reader, ReaderBuilder};
use std::alloc::Global;
use std::io::Read;

/// One part of a script.
#[derive(Debug, Drop)]
pub enum Part {
    /// Consecutive operations, at least one.
    Batch(Batch),
    /// A scan: the entries with keys from the first number to the second. If the second is less, the scan has no entries.
    Scan(u64, u64),
    /// A page: the first entries with keys from the first number on. The second number says how many; if there are fewer, the
    /// page has all of them.
    Page(u64, u64),
}

/// The requests of a text of comma-separated records, part after part.
#[derive(Debug, Drop)]
pub struct Script {
    pub parts: Vec<Part>,
}

/// Reads a script. Its records have three fields, as the crate `csv` reads them by default, but without a header row and of any
/// length. `insert,k,p` adds the key k with the pointer p, `find,k,` looks k up, `delete,k,` removes k, and `replace,k,p`
/// replaces k's pointer by p. Consecutive operations form a batch. `scan,lo,hi` asks for the entries with keys from lo to hi,
/// and `page,lo,n` for the first n entries with keys from lo on. Either ends the batch. Records are counted from 1, scans and
/// pages included.
///
/// The call refuses with the first refusal in the order of the records. A refusal leaves the reader somewhere after the records
/// that were read. What is said of the text holds for a reader whose bytes are known. The call refuses with `Read`, if the
/// reader failed. It refuses with `OutOfMemory`, if memory was refused, or if there are more records than 64 bits count, whose
/// parts memory has no room for.
pub fn read_script<R: Read + Drop>(alloc: Global, reader: R) -> Result<Script, ScriptError>
    ensures script { IfOk result (λ script. ReadsAs (R.remaining reader) (Ok script.parts.items)) }
    ensures refusal { IfErr result (TellsRefusal (R.remaining reader)) }
    ensures readable { IfErr result IsReadable }
{
    let mut reader = ReaderBuilder::new()
        .has_headers(false)
        .flexible(true)
        .from_reader(alloc, reader);
    let mut row = ByteRecord::new(alloc);
    read_records(alloc, &mut reader, &mut row)
}

// Reads every record, each into the row, and returns their script.
fn read_records<R: Read + Drop>(
    alloc: Global,
    reader: &mut Reader<R>,
    row: &mut ByteRecord,
) -> Result<Script, ScriptError>
    requires { Begins reader.old }
    ensures script { IfOk result (λ script. ComesTo R.remaining reader.old script.parts.items) }
    ensures refusal { IfErr result (IsRefusedFor R.remaining reader.old) }
    ensures readable { IfErr result IsReadable }
{
    let mut parts = Parts::new(alloc);
    for number in 1..u64::MAX {
        match reader.read_byte_record(row) {
            Ok(true) => {}
            Ok(false) => return parts.into_script(),
            Err(error) => return Err(refusal(number, error)),
        }
        let request = match read_request(row) {
            Ok(request) => request,
            Err(error) => return Err(ScriptError::Row(number, error)),
        };
        match parts.take(number, request) {
            Ok(()) => {}
            Err(error) => return Err(error),
        }
    }
    // The count ends only after records whose parts no memory has room for, so this line is never reached.
    Err(ScriptError::OutOfMemory)
}

// The refusal of a record that `csv` could not give.
fn refusal(number: u64, error: csv::Error) -> ScriptError
    ensures { result ≡ refusal_of number (error_kind error) }
{
    match error.into_kind() {
        ErrorKind::Io(_) => ScriptError::Read,
        ErrorKind::OutOfMemory => ScriptError::OutOfMemory,
        _ => ScriptError::Csv(number),
    }
}
