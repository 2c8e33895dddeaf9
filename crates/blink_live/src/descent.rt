//! What an operation on the straight path has in place of its machine.
ghost use Rattle.std.specs.Prelude.{◌+◌, ◌<◌, length};
ghost use Rattle.blink_page.specs.declared.limits.TheConstants.{LEVELS};

use arrayvec::ArrayVec;
use blink_batch::Answer;
use blink_machine::Resting;
use blink_page::LEVELS;
use blink_rows::Record;

/// Where a descent of an operation that changes the tree has ended: the leaf, and the pages that it read last on the levels
/// above, the top level first.
#[derive(Drop)]
pub(crate) struct Descent {
    pub leaf: u32,
    pub above: ArrayVec<u32, LEVELS>,
    ghost few: { length above.items + 1 < LEVELS },
}

impl Descent {
    // A descent that goes nowhere yet.
    pub(crate) fn new() -> Descent {
        Descent {
            leaf: 0,
            above: ArrayVec::new(),
        }
    }
}

/// What an operation knows of the leaf that it has latched, where its key belongs.
#[derive(Clone, Copy)]
pub(crate) struct Spot {
    /// The leaf's page word.
    pub word: u64,
    /// The number of entries in the base at the begin of the leaf's row.
    pub base: usize,
    /// The number of the leaf's entries.
    pub count: usize,
    /// The pointer that the leaf has for the key.
    pub kept: Option<u64>,
}

/// What an operation makes of a leaf that it has latched.
pub(crate) enum Edit {
    /// The key is to the right, in this page or behind it.
    Right(u32),
    /// The leaf stays as it is: it has this pointer for the key, or none.
    Answers(Option<u64>),
    /// The leaf, whose page word this is, is full: the operation has to see all of it.
    Whole(u64),
    /// One key of the leaf changes, as the record says.
    Write(Spot, Record),
}

/// Where a try to change a leaf has ended.
pub(crate) enum Turned {
    /// The operation has ended with this answer.
    Ended(Answer),
    /// The operation wants the next page now.
    Moved,
    /// Another seat has the latch.
    Waits,
    /// The operation holds the latch of a leaf of which it has to see all, and this is the leaf's page word.
    Whole(u64),
}

/// What has become of an operation that changes the tree.
pub enum Changed {
    /// It has ended with this answer.
    Ended(Answer),
    /// It has to wait, and rests.
    Rests(Resting),
}
