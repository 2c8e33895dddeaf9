//! Entries, operations and answers as the caller passes them: structs of numbers.
ghost use Rattle.std.specs.Prelude.{◌≡◌, ◌↔◌, IfNone, IfSome, IsSome, IsTrue};
ghost use Rattle.blink_handles.specs.Reports.{AreTaken, IsNotTaken};
ghost use Rattle.blink_handles.specs.Raw.{op_of, raw_answer, raw_entry, raw_given, raw_next, raw_scanned, raw_shown, raw_stock};

use blink_batch::{Answer, Entry, Op};
use blink_generation::Stock;
use blink_live::Scanned;

/// A key with its record pointer.
#[repr(C)]
#[derive(Clone, Copy)]
pub struct RawEntry {
    pub key: u64,
    pub pointer: u64,
}

/// An operation: its kind, its key, and the pointer that it stores, which a find and a deletion don't read.
#[repr(C)]
#[derive(Clone, Copy)]
pub struct RawOperation {
    pub kind: u64,
    pub key: u64,
    pub pointer: u64,
}

/// An answer: its kind, and the pointer that it tells, or 0 if it tells none.
#[repr(C)]
#[derive(Clone, Copy)]
pub struct RawAnswer {
    pub kind: u64,
    pub pointer: u64,
}

/// How far a scan came: how many places it filled, whether there is more (1, or 0 at the end of the range), and the key from which
/// another scan goes on, or 0 at the end.
#[repr(C)]
#[derive(Clone, Copy)]
pub struct RawScanned {
    pub filled: u64,
    pub more: u64,
    pub next: u64,
}

/// What became of a snapshot: 1 if it was taken, and then the number of its entries; or 0 and 0.
#[repr(C)]
#[derive(Clone, Copy)]
pub struct RawTaken {
    pub taken: u64,
    pub there: u64,
}

/// What a session has of its map's page numbers and rows.
#[repr(C)]
#[derive(Clone, Copy)]
pub struct RawStock {
    pub pages: u64,
    pub unwritten: u64,
    pub free: u64,
    pub taken_out: u64,
    pub waiting: u64,
}

// The kinds of operations.
pub(crate) const FIND: u64 = 0;

pub(crate) const INSERT: u64 = 1;

pub(crate) const DELETE: u64 = 2;

pub(crate) const REPLACE: u64 = 3;

// The kinds of answers.
pub(crate) const ABSENT: u64 = 0;

pub(crate) const FOUND: u64 = 1;

pub(crate) const INSERTED: u64 = 2;

pub(crate) const EXISTS: u64 = 3;

pub(crate) const REMOVED: u64 = 4;

pub(crate) const REPLACED: u64 = 5;

impl RawOperation {
    /// The operation, or `None` if the kind is none of the four.
    pub(crate) fn op(&self) -> Option<Op>
        ensures { result ≡ op_of self.now }
    {
        if self.kind == FIND {
            Some(Op::Find(self.key))
        } else if self.kind == INSERT {
            Some(Op::Insert(self.key, self.pointer))
        } else if self.kind == DELETE {
            Some(Op::Delete(self.key))
        } else if self.kind == REPLACE {
            Some(Op::Replace(self.key, self.pointer))
        } else {
            None
        }
    }

    /// Whether the kind is one of the four.
    pub(crate) fn is_known(&self) -> bool
        ensures { IsTrue result ↔ IsSome (op_of self.now) }
    {
        self.kind <= REPLACE
    }
}

impl RawEntry {
    /// The entry as the caller gets it.
    pub(crate) fn of(entry: Entry) -> RawEntry
        ensures { result ≡ raw_entry entry }
    {
        RawEntry {
            key: entry.key,
            pointer: entry.pointer,
        }
    }
}

impl RawScanned {
    // What the caller is told of a scan that filled so many places, and goes on from this key.
    pub(crate) fn told(filled: usize, next: Option<u64>) -> RawScanned
        ensures { result ≡ raw_next filled next }
    {
        let filled = filled as u64;
        match next {
            Some(next) => RawScanned {
                filled,
                more: 1,
                next,
            },
            None => RawScanned {
                filled,
                more: 0,
                next: 0,
            },
        }
    }

    /// How far the scan came, as the caller gets it.
    pub(crate) fn of(scanned: Scanned) -> RawScanned
        ensures { result ≡ raw_scanned scanned }
    {
        RawScanned::told(scanned.filled, scanned.next)
    }
}

impl RawTaken {
    /// What became of the snapshot, as the caller gets it. Its entries stand in the first places, as many as there are places.
    pub(crate) fn of(found: &Option<Vec<Entry>>, entries: &mut [Entry]) -> RawTaken
        ensures none { IfNone found.now (IsNotTaken entries.old entries.new result) }
        ensures some { IfSome found.now (λ taken.
            AreTaken taken.items entries.old entries.new result) }
    {
        let Some(taken) = found else {
            return RawTaken { taken: 0, there: 0 };
        };
        let fitted = taken.len().min(entries.len());
        entries[..fitted].copy_from_slice(&taken[..fitted]);
        RawTaken {
            taken: 1,
            there: taken.len() as u64,
        }
    }
}

impl RawStock {
    /// The stock as the caller gets it.
    pub(crate) fn of(stock: Stock) -> RawStock
        ensures { result ≡ raw_stock stock }
    {
        RawStock {
            pages: stock.pages,
            unwritten: stock.unwritten,
            free: stock.free,
            taken_out: stock.taken_out,
            waiting: stock.waiting,
        }
    }
}

impl RawAnswer {
    /// The answer as the caller gets it.
    pub fn of(answer: Answer) -> RawAnswer
        ensures { result ≡ raw_answer answer }
    {
        let (kind, pointer) = match answer {
            Answer::Absent => (ABSENT, 0),
            Answer::Found(pointer) => (FOUND, pointer),
            Answer::Inserted => (INSERTED, 0),
            Answer::Exists(pointer) => (EXISTS, pointer),
            Answer::Removed(pointer) => (REMOVED, pointer),
            Answer::Replaced(pointer) => (REPLACED, pointer),
        };
        RawAnswer { kind, pointer }
    }

    /// An answer that may be missing: then it is that of an absent key.
    pub(crate) fn given(answer: Option<Answer>) -> RawAnswer
        ensures { result ≡ raw_given answer }
    {
        RawAnswer::of(answer.unwrap_or(Answer::Absent))
    }

    /// What a glance has shown, as a find answers it.
    pub(crate) fn shown(pointer: Option<u64>) -> RawAnswer
        ensures { result ≡ raw_shown pointer }
    {
        match pointer {
            Some(pointer) => RawAnswer::of(Answer::Found(pointer)),
            None => RawAnswer::of(Answer::Absent),
        }
    }
}
