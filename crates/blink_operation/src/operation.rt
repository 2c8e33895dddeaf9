//! The operations on a map, and their answers.
ghost use Rattle.std.specs.Prelude.{◌≡◌};
ghost use Rattle.blink_operation.specs.Operation.{answer_at, key_of, pointer_with};

use std::fmt;

/// One operation of a batch.
#[derive(Clone, Copy, Debug, PartialEq, Eq)]
pub enum Op {
    /// Looks a key up.
    Find(u64),
    /// Adds a key with its pointer, unless the key is present.
    Insert(u64, u64),
    /// Removes a key with its pointer, if the key is present.
    Delete(u64),
    /// Replaces the pointer of a key, if the key is present.
    Replace(u64, u64),
    /// Replaces the pointer of a key, if it is the expected one: the key, the pointer expected, and the new one.
    Exchange(u64, u64, u64),
    /// Removes a key with its pointer, if the pointer is the expected one: the key, and the pointer expected.
    DeleteExact(u64, u64),
}

impl Op {
    /// Returns the operation's key.
    pub fn key(&self) -> u64
        ensures { result ≡ key_of self.now }
    {
        match *self {
            Op::Find(key) => key,
            Op::Insert(key, _) => key,
            Op::Delete(key) => key,
            Op::Replace(key, _) => key,
            Op::Exchange(key, _, _) => key,
            Op::DeleteExact(key, _) => key,
        }
    }

    /// Returns the pointer that the operation stores, or 0 if it stores none.
    pub fn pointer(&self) -> u64
        ensures { result ≡ pointer_with self.now }
    {
        match *self {
            Op::Insert(_, pointer) | Op::Replace(_, pointer) | Op::Exchange(_, _, pointer) =>
                pointer,
            Op::Find(_) | Op::Delete(_) | Op::DeleteExact(..) => 0,
        }
    }

    /// Returns the operation's answer, if its key has the pointer `kept`, or is absent.
    pub fn answer(&self, kept: Option<u64>) -> Answer
        ensures { result ≡ answer_at self.now kept }
    {
        match (*self, kept) {
            (Op::Find(_), Some(pointer)) => Answer::Found(pointer),
            (Op::Insert(..), Some(pointer)) => Answer::Exists(pointer),
            (Op::Insert(..), None) => Answer::Inserted,
            (Op::Delete(_), Some(pointer)) => Answer::Removed(pointer),
            (Op::Replace(..), Some(pointer)) => Answer::Replaced(pointer),
            (Op::Exchange(_, expected, _), Some(pointer)) => {
                if pointer == expected {
                    Answer::Replaced(pointer)
                } else {
                    Answer::Exists(pointer)
                }
            }
            (Op::DeleteExact(_, expected), Some(pointer)) => {
                if pointer == expected {
                    Answer::Removed(pointer)
                } else {
                    Answer::Exists(pointer)
                }
            }
            (
                Op::Find(_)
                | Op::Delete(_)
                | Op::Replace(..)
                | Op::Exchange(..)
                | Op::DeleteExact(..),
                None,
            ) => Answer::Absent,
        }
    }
}

/// What an operation found and did.
#[derive(Clone, Copy, Debug, PartialEq, Eq)]
pub enum Answer {
    /// A find: the key has this pointer.
    Found(u64),
    /// The key is absent.
    Absent,
    /// An insertion: the key now has the pointer.
    Inserted,
    /// An insertion: the key had this pointer, and nothing changed. An exchange, or a deletion of an expected pointer: the key
    /// had this pointer, which isn't the expected one, and nothing changed.
    Exists(u64),
    /// A deletion: the key had this pointer, and is absent now.
    Removed(u64),
    /// A replacement or an exchange: the key had this pointer, and has the new one now.
    Replaced(u64),
}

/// Writes the words of the answer's output line, as `found 7`.
impl fmt::Display for Answer {
    ghost use Rattle.std.specs.Prelude.{Some};
    ghost use Rattle.blink_operation.specs.Text.{words_of};

    ghost output = { λ answer. Some (words_of answer) };

    fn fmt<W: fmt::Write>(&self, f: &mut fmt::Formatter<W>) -> fmt::Result {
        match self {
            Answer::Found(pointer) => write!(f, "found {pointer}"),
            Answer::Absent => write!(f, "absent"),
            Answer::Inserted => write!(f, "inserted"),
            Answer::Exists(pointer) => write!(f, "exists {pointer}"),
            Answer::Removed(pointer) => write!(f, "removed {pointer}"),
            Answer::Replaced(pointer) => write!(f, "replaced {pointer}"),
        }
    }
}
