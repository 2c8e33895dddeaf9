//! The words of tables, and what a keeper and a pass have, worked by hand.
use crate::indexes::Look::Finds;
use crate::sights::{OfKeeper, OfPass, OfTable};
use crate::steps::Step::Call;
use crate::story::Act::{Deal, Keeper, Pass, Table, Take};
use crate::story::{End, Story, play_all};
use blink_batch::{Answer, Op};
use blink_live::PassError;

// ---- tables that open over a new index, whose only page is an empty leaf

// The words that aren't 0: the prime block is in row 1 and names page 1, and page 1 is in row 2, with the greatest high key.
const AT_OPENING: [(usize, u64); 5] = [(0, 1), (1, 2), (53, 1), (54, 1), (123, u64::MAX)];

const OPENED: Story = Story {
    name: "one insertion has 22 numbers and 44 rows",
    over: (0, 0),
    room: (1, 0),
    acts: &[
        Table(OfTable::Fan(4)),
        Table(OfTable::Counts(24, 46)),
        Keeper(OfKeeper::Pages(2, 24)),
        Keeper(OfKeeper::Rows(3, 47)),
        Keeper(OfKeeper::Taken(&[])),
        Keeper(OfKeeper::Dealt(0, 0)),
        Table(OfTable::WordCount(3_360)),
        Table(OfTable::Words(3_360, &AT_OPENING)),
    ],
    end: End::StaysOpen,
};

const OPENED_FOR_DELETIONS: Story = Story {
    name: "deletions have a row each",
    over: (0, 0),
    room: (0, 3),
    acts: &[Table(OfTable::Counts(2, 5)), Keeper(OfKeeper::Left(0, 3))],
    end: End::StaysOpen,
};

// ---- what a keeper and its passes have

const IN_ORDER: Story = Story {
    name: "keys are kept in order",
    over: (0, 0),
    room: (2, 0),
    acts: &[
        Deal(&[5], 1, 0),
        Pass(0, OfPass::Keys(&[5])),
        Deal(&[7, 3], 1, 0),
        Pass(1, OfPass::Keys(&[3, 7])),
        Keeper(OfKeeper::Taken(&[3, 5, 7])),
    ],
    end: End::StaysOpen,
};

// The keys 1 to 4 fill a leaf, which key 5 splits, so the index has three pages.
const WITHOUT_GAPS: Story = Story {
    name: "spans are dealt without gaps",
    over: (0, 5),
    room: (2, 5),
    acts: &[
        Table(OfTable::Counts(48, 97)),
        Deal(&[1], 1, 2),
        Pass(0, OfPass::Pages(4, 26)),
        Pass(0, OfPass::Rows(5, 51)),
        Deal(&[2], 1, 3),
        Pass(1, OfPass::Pages(26, 48)),
        Pass(1, OfPass::Rows(51, 98)),
    ],
    end: End::StaysOpen,
};

// ---- the rows that an insertion writes

// The 24 page words and the 24 latch words once key 5 has split the leaf of the keys 1 to 4: the new right page, 2, was written
// first, in row 3; then page 1 in row 4, the root, page 3, in row 5, and the prime block in row 6. No page is latched any more.
const AFTER_SPLIT: [(usize, u64); 4] = [(0, 6), (1, 4), (2, 3), (3, 5)];

const SPLIT: Story = Story {
    name: "a split is written right page first",
    over: (0, 4),
    room: (1, 0),
    acts: &[
        Deal(&[5], 1, 0),
        Take(0, &[Call(Op::Insert(5, 50), Ok(Answer::Inserted))]),
        Table(OfTable::WordCount(3_360)),
        Table(OfTable::Words(48, &AFTER_SPLIT)),
    ],
    end: End::StaysOpen,
};

// ---- the words that deletions write, and the rows that they use

// The words of the table of the keys 1 to 4 once key 1 is deleted: page 1 stays in row 2, from word 76 on, and behind its four entries
// stands a record of key 1. Its page word counts one record of kind 2. Nobody has its latch, which is word 3.
const WITHOUT_KEY_1: [(usize, u64); 15] = [
    (0, 1),
    (1, 283_467_841_538),
    (9, 1),
    (10, 1),
    (79, u64::MAX),
    (81, 4),
    (82, 1),
    (83, 10),
    (84, 2),
    (85, 20),
    (86, 3),
    (87, 30),
    (88, 4),
    (89, 40),
    (90, 1),
];

// After each deletion the pass's next row. Each accepted one uses its row up, and the rows stay 0.
const DELETIONS: Story = Story {
    name: "each accepted deletion uses a row",
    over: (0, 4),
    room: (0, 2),
    acts: &[
        Deal(&[1, 2], 0, 2),
        Table(OfTable::Counts(2, 4)),
        Table(OfTable::WordCount(292)),
        Take(0, &[Call(Op::Delete(3), Err(PassError::NotYours))]),
        Pass(0, OfPass::Rows(3, 5)),
        Take(0, &[Call(Op::Delete(1), Ok(Answer::Removed(10)))]),
        Pass(0, OfPass::Rows(4, 5)),
        Table(OfTable::Words(292, &WITHOUT_KEY_1)),
        Take(0, &[Call(Op::Delete(1), Ok(Answer::Absent))]),
        Pass(0, OfPass::Rows(5, 5)),
        Table(OfTable::Words(292, &WITHOUT_KEY_1)),
        Take(0, &[Call(Op::Delete(2), Err(PassError::Spent))]),
        Pass(0, OfPass::Rows(5, 5)),
        Table(OfTable::Words(292, &WITHOUT_KEY_1)),
        Take(0, &[Call(Op::Delete(3), Err(PassError::NotYours))]),
        Pass(0, OfPass::Rows(5, 5)),
        Table(OfTable::Words(292, &WITHOUT_KEY_1)),
        Take(0, &[Call(Op::Find(2), Ok(Answer::Found(20)))]),
        Pass(0, OfPass::Rows(5, 5)),
        Table(OfTable::Words(292, &WITHOUT_KEY_1)),
    ],
    end: End::StaysOpen,
};

// ---- the words that replacements write, and the rows that they use

// After each replacement the word of page 1 and the pass's next row. A record is appended though the pointer stays. Each accepted one
// uses its row up, and the rows stay 0.
const REPLACEMENTS: Story = Story {
    name: "each accepted replacement uses a row",
    over: (4, 5),
    room: (0, 3),
    acts: &[
        Deal(&[5, 6], 0, 3),
        Take(0, &[Call(Op::Replace(7, 70), Err(PassError::NotYours))]),
        Table(OfTable::Word(1, 2)),
        Pass(0, OfPass::Rows(3, 6)),
        Take(0, &[Call(Op::Replace(5, 50), Ok(Answer::Replaced(50)))]),
        Table(OfTable::Word(1, 8_589_934_594)),
        Pass(0, OfPass::Rows(4, 6)),
        Take(0, &[Call(Op::Replace(6, 60), Ok(Answer::Absent))]),
        Table(OfTable::Word(1, 8_589_934_594)),
        Pass(0, OfPass::Rows(5, 6)),
        Take(0, &[Call(Op::Replace(5, 51), Ok(Answer::Replaced(50)))]),
        Table(OfTable::Word(1, 17_179_869_186)),
        Pass(0, OfPass::Rows(6, 6)),
        Take(0, &[Call(Op::Replace(5, 52), Err(PassError::Spent))]),
        Table(OfTable::Word(1, 17_179_869_186)),
        Pass(0, OfPass::Rows(6, 6)),
        Take(0, &[Call(Op::Replace(7, 70), Err(PassError::NotYours))]),
        Table(OfTable::Word(1, 17_179_869_186)),
        Pass(0, OfPass::Rows(6, 6)),
    ],
    end: End::StaysOpen,
};

// Behind the one entry of page 1 in row 2 there is room for twelve records. The next change writes the page without records, in the row of
// its own call, the 13th from row 3 on, and the one after that is appended there.
const FULL_LOG: Story = Story {
    name: "a row without room for a record gives way to another",
    over: (4, 5),
    room: (0, 14),
    acts: &[
        Deal(&[5], 0, 14),
        Take(
            0,
            &[
                Call(Op::Replace(5, 51), Ok(Answer::Replaced(50))),
                Call(Op::Replace(5, 52), Ok(Answer::Replaced(51))),
                Call(Op::Replace(5, 53), Ok(Answer::Replaced(52))),
                Call(Op::Replace(5, 54), Ok(Answer::Replaced(53))),
                Call(Op::Replace(5, 55), Ok(Answer::Replaced(54))),
                Call(Op::Replace(5, 56), Ok(Answer::Replaced(55))),
                Call(Op::Replace(5, 57), Ok(Answer::Replaced(56))),
                Call(Op::Replace(5, 58), Ok(Answer::Replaced(57))),
                Call(Op::Replace(5, 59), Ok(Answer::Replaced(58))),
                Call(Op::Replace(5, 60), Ok(Answer::Replaced(59))),
                Call(Op::Replace(5, 61), Ok(Answer::Replaced(60))),
                Call(Op::Replace(5, 62), Ok(Answer::Replaced(61))),
            ],
        ),
        Table(OfTable::Word(1, 103_079_215_106)),
        Take(0, &[Call(Op::Replace(5, 63), Ok(Answer::Replaced(62)))]),
        Table(OfTable::Word(1, 15)),
        Take(0, &[Call(Op::Delete(5), Ok(Answer::Removed(63)))]),
        Table(OfTable::Word(1, 283_467_841_551)),
    ],
    end: End::Closes(&[Finds(&[(5, None)])]),
};

const STORIES: [&Story; 8] = [
    &OPENED,
    &OPENED_FOR_DELETIONS,
    &IN_ORDER,
    &WITHOUT_GAPS,
    &SPLIT,
    &DELETIONS,
    &REPLACEMENTS,
    &FULL_LOG,
];

#[test]
fn tables_by_their_words(rt: HostRuntime) {
    play_all(&rt, rt.alloc(), &STORIES);
}
