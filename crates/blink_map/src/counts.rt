//! The changes that a session has made in the current map are counted. So a renewal knows whether one was made while it copied the entries.
ghost use Rattle.std.specs.Prelude.{◌≡◌, ◌+◌, ◌<◌, ◌^◌};
ghost use Rattle.blink_map.specs.Counts.{changes_of, made_with};

use crate::slots::Current;
use blink_batch::Answer;

// How many changes are counted after an operation with this answer, up to the greatest number of 64 bits.
pub(crate) fn counted(changes: u64, answer: Answer) -> u64
    ensures { result + 1 < 2 ^ 64 → result ≡ changes + made_with answer }
{
    match answer {
        Answer::Inserted | Answer::Removed(_) | Answer::Replaced(_) => changes.saturating_add(1),
        Answer::Found(_) | Answer::Absent | Answer::Exists(_) => changes,
    }
}

// What is counted of sessions: the changes that they have made together in the current map, and how many of them have made any.
#[derive(Clone, Copy)]
pub(crate) struct Noted {
    pub(crate) changes: u64,
    pub(crate) busy: u32,
}

// How many changes are counted of these sessions together, up to the greatest number of 64 bits.
pub(crate) fn count_all(sessions: &[Current]) -> u64
    ensures { result + 1 < 2 ^ 64 → result ≡ changes_of sessions.now }
{
    let mut sum = 0u64;
    for held in sessions {
        sum = sum.saturating_add(held.changes);
    }
    sum
}

// How many of these sessions have made a change in the current map.
pub(crate) fn count_busy(sessions: &[Current]) -> u32 {
    let mut busy = 0u32;
    for held in sessions {
        if held.changes > 0 {
            busy = busy.saturating_add(1);
        }
    }
    busy
}
