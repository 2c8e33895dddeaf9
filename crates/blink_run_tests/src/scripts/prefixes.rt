//! Every prefix of some scripts, and a reading of their records that knows nothing of `csv`, batches or threads.
use crate::calls::{locked, replayed, served};
use crate::fixtures::{given, prefix_of, same_for};
use blink_batch::{Entry, Op, Plain, RecordError, ScriptError};
use blink_run::{CutKind, ServeError};
use std::alloc::{AllocError, Global};
use std::fmt::Write;
use std::process::Abort;
use std::sync::Wait;
use std::thread::Threads;

// The scripts of replays in `examples/`, with their schedules, and one in which every kind of record stands.
const REPLAYS: [(&str, &[u8]); 3] = [
    (
        "insert,1,10\ninsert,2,20\ninsert,3,30\ninsert,5,50\nscan,1,0\ninsert,6,60\nfind,5,\n",
        &[1, 0, 0, 0, 0, 0, 0, 1, 1],
    ),
    ("insert,1,1\ninsert,3,3\n", &[1, 1, 1, 0, 0, 0, 2]),
    (
        "scan,0,9\ninsert,7,70\nfind,7,\nscan,0,10\npage,7,10\nreplace,7,71\ndelete,7,\ndelete,07,\n",
        &[2, 1, 0],
    ),
];

// The number that a field spells in scripts.
fn number(field: &str) -> Option<u64> {
    if field.starts_with('+') || (field.starts_with('0') && field.len() > 1) {
        return None;
    }
    field.parse().ok()
}

// What a line asks for.
#[derive(Clone, Copy)]
enum Request {
    Of(Op),
    // The entries of these keys.
    Scan(u64, u64),
    // So many entries from this key on.
    Page(u64, u64),
}

// What stands before the first comma, and what behind it.
fn cut_at_comma(text: &str) -> Option<(&str, &str)> {
    text.split_once(',')
}

// The three fields of a line.
fn fields_of(line: &str) -> Option<(&str, &str, &str)> {
    let (word, behind_word) = cut_at_comma(line)?;
    let (second, third) = cut_at_comma(behind_word)?;
    match cut_at_comma(third) {
        Some(_) => None,
        None => Some((word, second, third)),
    }
}

// A word that is none is told before a number that is none.
fn request_of(line: &str) -> Result<Request, RecordError> {
    let Some((word, second, third)) = fields_of(line) else {
        return Err(RecordError::BadShape);
    };
    let requested = match word {
        "find" | "delete" if !third.is_empty() => return Err(RecordError::BadShape),
        "find" | "delete" => request_of_one(word, number(second)),
        "insert" | "replace" | "scan" | "page" => {
            request_of_two(word, number(second), number(third))
        }
        _ => return Err(RecordError::UnknownOperation),
    };
    requested.ok_or(RecordError::BadNumber)
}

// What a word with one number asks for.
fn request_of_one(word: &str, key: Option<u64>) -> Option<Request> {
    match (word, key) {
        (_, None) => None,
        ("find", Some(key)) => Some(Request::Of(Op::Find(key))),
        (_, Some(key)) => Some(Request::Of(Op::Delete(key))),
    }
}

// What a word with two numbers asks for.
fn request_of_two(word: &str, second: Option<u64>, third: Option<u64>) -> Option<Request> {
    let (Some(second), Some(third)) = (second, third) else {
        return None;
    };
    Some(match word {
        "insert" => Request::Of(Op::Insert(second, third)),
        "replace" => Request::Of(Op::Replace(second, third)),
        "scan" => Request::Scan(second, third),
        _ => Request::Page(second, third),
    })
}

// Adds the line of an entry.
fn push_entry(text: &mut String, entry: Entry) -> Result<(), AllocError> {
    writeln!(text, "{} {}", entry.key, entry.pointer)
}

// Adds the lines of at most so many entries with keys from one to another.
fn push_entries(
    text: &mut String,
    plain: &Plain,
    lo: u64,
    hi: u64,
    limit: u64,
) -> Result<(), AllocError> {
    let mut shown = 0u64;
    for &entry in plain.entries() {
        if lo <= entry.key && entry.key <= hi && shown < limit {
            push_entry(text, entry)?;
            shown = shown.wrapping_add(1);
        }
    }
    writeln!(text, "end {shown}")
}

// Does what a line asks for on a plain map, and adds its lines to the text.
fn answer(plain: &mut Plain, request: Request, text: &mut String) -> Result<(), AllocError> {
    match request {
        Request::Of(op) => writeln!(text, "{}", plain.apply(op)?),
        Request::Scan(lo, hi) => push_entries(text, plain, lo, hi, u64::MAX),
        Request::Page(lo, n) => push_entries(text, plain, lo, u64::MAX, n),
    }
}

// What is read of a script without quotes: a plain map, the text of the answers, how many operations and lines there are, and the
// refusal of the first line that is no record.
#[derive(Drop)]
struct Reading {
    plain: Plain,
    text: String,
    ops: usize,
    rows: u64,
    refusal: Option<ScriptError>,
}

fn read_plainly(rt: &impl Abort, alloc: Global, script: &str) -> Reading {
    let mut reading = Reading {
        plain: Plain::new(alloc),
        text: String::new(alloc),
        ops: 0,
        rows: 0,
        refusal: None,
    };
    reading.read_lines(rt, script);
    reading
}

impl Reading {
    fn read_lines(&mut self, rt: &impl Abort, script: &str) {
        for line in script.split('\n') {
            self.read(rt, line);
        }
    }

    // Reads a line, unless it is empty or one before it is refused.
    fn read(&mut self, rt: &impl Abort, line: &str) {
        if line.is_empty() || self.refusal.is_some() {
            return;
        }
        self.rows = self.rows.wrapping_add(1);
        match request_of(line) {
            Ok(request) => self.answer(rt, request),
            Err(error) => self.refusal = Some(ScriptError::Row(self.rows, error)),
        }
    }

    fn answer(&mut self, rt: &impl Abort, request: Request) {
        if let Request::Of(_) = request {
            self.ops = self.ops.wrapping_add(1);
        }
        given(rt, answer(&mut self.plain, request, &mut self.text));
    }
}

// What stands behind so many lines.
fn behind(text: &str, lines: usize) -> &str {
    text.splitn(lines.saturating_add(1), '\n')
        .last()
        .unwrap_or("")
}

// A replay wrote a line for each of so many turns, and then this text.
fn expect_behind_turns(rt: &impl Abort, output: &[u8], turns: usize, text: &str) {
    let replayed = given(rt, str::from_utf8(output));
    let is_behind = behind(replayed, turns).starts_with(text);
    same_for(rt, &is_behind, &true, &replayed);
}

// A script is served and replayed as its records ask.
fn expect_as_read<R: Threads + Wait + Abort + Sync>(
    rt: &R,
    alloc: Global,
    script: &str,
    schedule: &[u8],
) {
    let settings = locked(rt, 3, 4, CutKind::Residue);
    let reading = read_plainly(rt, alloc, script);
    let outcome = served(rt, alloc, script.as_bytes(), &settings);
    let replay = replayed(alloc, script.as_bytes(), &settings, schedule);
    same_for(rt, &outcome.end, &replay.end, &script);
    match reading.refusal {
        Some(error) => {
            outcome.expect_refusal(rt, ServeError::Script(error));
            replay.expect_refusal(rt, ServeError::Script(error));
        }
        None => {
            outcome.expect_text(rt, &reading.text);
            let turns = if reading.ops == 0 { 0 } else { schedule.len() };
            expect_behind_turns(rt, &replay.output, turns, &reading.text)
        }
    }
}

#[test]
fn every_prefix_is_served_as_its_records_ask(rt: HostRuntime) {
    for (script, schedule) in REPLAYS {
        for length in 0..=script.len() {
            let prefix = given(
                &rt,
                str::from_utf8(prefix_of(&rt, script.as_bytes(), length)),
            );
            expect_as_read(&rt, rt.alloc(), prefix, schedule);
        }
    }
}
