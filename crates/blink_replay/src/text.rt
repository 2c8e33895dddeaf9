//! The text of answers, of scans and of pages.
ghost use Rattle.std.specs.Prelude.{◌≡◌, ◌++◌, OnOk, string_bytes};
ghost use Rattle.blink_batch.specs.{text_of};
ghost use Rattle.blink_replay.specs.Text.{end_line, entry_line, scan_text};

use blink_batch::{Answer, Entry};
use blink_index::Scan;
use std::alloc::AllocError;
use std::fmt::Write as _;

/// Adds a line for each answer.
pub fn push_answers(text: &mut String, answers: &[Answer]) -> Result<(), AllocError>
    ensures { OnOk result (string_bytes text.new ≡ string_bytes text.old ++ text_of answers.now) }
{
    for answer in answers {
        writeln!(text, "{answer}")?;
    }
    Ok(())
}

/// Adds a line for each entry of a scan or a page, and then one with their number.
pub fn push_scan(text: &mut String, scan: Scan<'_>) -> Result<(), AllocError>
    ensures { OnOk result (string_bytes text.new ≡ string_bytes text.old ++ scan_text scan.entry) }
{
    let mut shown = 0usize;
    for entry in scan {
        push_entry(text, entry)?;
        shown += 1;
    }
    push_end(text, shown)
}

// Adds the line of an entry.
fn push_entry(text: &mut String, entry: Entry) -> Result<(), AllocError>
    ensures { OnOk result (string_bytes text.new ≡ string_bytes text.old ++ entry_line entry) }
{
    writeln!(text, "{} {}", entry.key, entry.pointer)
}

// Adds the last line, with the number of the entries shown.
fn push_end(text: &mut String, shown: usize) -> Result<(), AllocError>
    ensures { OnOk result (string_bytes text.new ≡ string_bytes text.old ++ end_line shown) }
{
    writeln!(text, "end {shown}")
}
