//! Changes of an index in place, and the entries at its ends.
use super::story::{Act, Look, Start, Story, go};
use blink_batch::{Answer, Op};

// Operations on the index of five entries, one after another, their answers, and how many entries the index has after each of
// them. The insertion of 6 splits nothing, since the right leaf has two of four entries.
const EDITS: [(Op, Answer, usize); 18] = [
    (Op::Find(3), Answer::Found(30), 5),
    (Op::Insert(3, 31), Answer::Exists(30), 5),
    (Op::Insert(6, 60), Answer::Inserted, 6),
    (Op::Replace(6, 61), Answer::Replaced(60), 6),
    (Op::Replace(7, 70), Answer::Absent, 6),
    (Op::Exchange(6, 61, 62), Answer::Replaced(61), 6),
    (Op::Exchange(6, 61, 63), Answer::Exists(62), 6),
    (Op::Exchange(7, 70, 71), Answer::Absent, 6),
    (Op::Exchange(6, 62, 61), Answer::Replaced(62), 6),
    (Op::DeleteExact(2, 21), Answer::Exists(20), 6),
    (Op::DeleteExact(2, 20), Answer::Removed(20), 5),
    (Op::DeleteExact(2, 20), Answer::Absent, 5),
    (Op::Find(2), Answer::Absent, 5),
    (Op::Delete(1), Answer::Removed(10), 4),
    (Op::Delete(1), Answer::Absent, 4),
    (Op::Find(1), Answer::Absent, 4),
    (Op::Find(6), Answer::Found(61), 4),
    (Op::Insert(0, 1), Answer::Inserted, 5),
];

const OPS: [Op; 8] = [
    Op::Insert(6, 60),
    Op::Delete(2),
    Op::Find(2),
    Op::Replace(4, 41),
    Op::Exchange(4, 40, 42),
    Op::Exchange(4, 41, 43),
    Op::DeleteExact(5, 51),
    Op::DeleteExact(5, 50),
];

const ANSWERS: [Answer; 8] = [
    Answer::Inserted,
    Answer::Removed(20),
    Answer::Absent,
    Answer::Replaced(40),
    Answer::Exists(41),
    Answer::Replaced(41),
    Answer::Exists(50),
    Answer::Removed(50),
];

const STORIES: [Story; 10] = [
    Story {
        name: "edits answer, and keep the number of entries",
        start: Start::Five,
        acts: &[Act::Edits(&EDITS), Act::See(Look::PageCount(3))],
    },
    Story {
        name: "splits keep the number of entries",
        start: Start::New(4),
        acts: &[
            Act::See(Look::IsEmpty(true)),
            Act::InsertTo(60),
            Act::See(Look::Len(60)),
            Act::See(Look::IsEmpty(false)),
        ],
    },
    Story {
        name: "insertions leave the pages of a batch: to 60 at a fan of 4",
        start: Start::New(4),
        acts: &[Act::InsertTo(60), Act::See(Look::PagesOfBatch(4, 60))],
    },
    Story {
        name: "insertions leave the pages of a batch: to 200 at a fan of 5",
        start: Start::New(5),
        acts: &[Act::InsertTo(200), Act::See(Look::PagesOfBatch(5, 200))],
    },
    Story {
        name: "insertions leave the pages of a batch: to 100 at a fan of 32",
        start: Start::New(32),
        acts: &[Act::InsertTo(100), Act::See(Look::PagesOfBatch(32, 100))],
    },
    Story {
        name: "operations are applied",
        start: Start::Five,
        acts: &[
            Act::Apply(&OPS, &ANSWERS),
            Act::See(Look::Finds(&[(6, Some(60)), (4, Some(43)), (5, None)])),
        ],
    },
    Story {
        name: "ends are given: five entries",
        start: Start::Five,
        acts: &[Act::See(Look::Ends(1, 5, (3, 4)))],
    },
    // The left leaf is empty.
    Story {
        name: "ends are given: two entries",
        start: Start::Two,
        acts: &[Act::See(Look::Ends(4, 5, (0, 4)))],
    },
    Story {
        name: "the last entry stands before an empty leaf",
        start: Start::Five,
        acts: &[
            Act::Call(Op::Delete(4), Answer::Removed(40)),
            Act::Call(Op::Delete(5), Answer::Removed(50)),
            Act::See(Look::Ends(1, 3, (2, 3))),
        ],
    },
    Story {
        name: "an empty index has no ends",
        start: Start::New(4),
        acts: &[Act::See(Look::NoEnds)],
    },
];

#[test]
fn indexes_change_in_place(rt: HostRuntime) {
    go(&rt, rt.alloc(), &STORIES);
}
