//! Maps that are filled to their last row and to their last page number.
use crate::same::given;
use crate::shared::Two;
use crate::shared::Who::{One, Other};
use crate::sights::Sight::{HasRoom, LacksRoom, PoolPages, PoolRows, Rows, Stock as Has};
use crate::story::Act::{Call, FindAll, InsertEach, ReplaceOften, See};
use crate::story::{Story, play_all};
use blink_batch::{Answer, Op};
use blink_generation::{Full, Stock};
use blink_index::Index;
use std::process::Abort;

impl Two {
    // The first session replaces the pointer of this key, 0 at first, so many times by the next number.
    pub(crate) fn replace_often(self, rt: &impl Abort, key: u64, times: u64) -> Two {
        let mut two = self;
        for pointer in 0..times {
            let op = Op::Replace(key, pointer.wrapping_add(1));
            two = two.call(rt, One, op, Ok(Answer::Replaced(pointer)));
        }
        two
    }
}

// 88 rows are as many as two insertions may need. The rows that changes write over come back.
const MANY_CHANGES: Story = Story {
    name: "a map with few rows takes many changes",
    room: (200, 88),
    scenes: &[&[
        Call(One, Op::Insert(1, 10), Ok(Answer::Inserted)),
        Call(One, Op::Insert(2, 0), Ok(Answer::Inserted)),
        ReplaceOften(2, 1000),
        Call(One, Op::Insert(3, 30), Ok(Answer::Inserted)),
        See(PoolRows(44)),
        FindAll(&[1, 2, 3], &[Some(10), Some(1000), Some(30)]),
    ]],
};

// Of two sessions the first insertion draws the 44 rows that it may need, and a quarter of the pool's page numbers. It appends a record to
// the leaf's row, so it writes none of them.
const ONE_CHANGE: Story = Story {
    name: "a session tells what it has",
    room: (200, 88),
    scenes: &[&[
        Call(One, Op::Insert(1, 10), Ok(Answer::Inserted)),
        See(Has(
            One,
            Stock {
                pages: 50,
                unwritten: 44,
                free: 0,
                taken_out: 0,
                waiting: 0,
            },
        )),
    ]],
};

// Of 184 rows each of two sessions has 46 at most, and draws them with its first insertion. The fifth splits the leaf, whose lesser half
// keeps three entries: that makes two pages more and keeps two rows. The eighth splits the upper half. So the ninth draws the 3 rows that
// the session may still have, and the 43 that it has left stay its own.
const NINE_INSERTIONS: Story = Story {
    name: "a draw loses no row",
    room: (200, 184),
    scenes: &[&[
        InsertEach(1, 9, 1),
        See(PoolRows(138)),
        See(Rows(43)),
        Call(One, Op::Insert(9, 9), Ok(Answer::Inserted)),
        See(PoolRows(135)),
        See(Rows(46)),
    ]],
};

// The same, where half of the rows are in one part, which either session may draw: so the first has 92 rows at most. A draw takes at most a
// quarter of what the pool has left: 46 of 184 rows, and 34 of 138 with the ninth insertion.
#[test]
fn a_session_draws_no_more_than_a_part(rt: HostRuntime) {
    let alloc = rt.alloc();
    let index = given(&rt, Index::new(alloc, 4));
    let two = Two::in_parts(&rt, alloc, &index, (200, 184), 1).insert_each(&rt, (1, 9), 1);
    two.see(&rt, PoolRows(138));
    two.see(&rt, Rows(43));
    let two = two.call(&rt, One, Op::Insert(9, 9), Ok(Answer::Inserted));
    two.see(&rt, PoolRows(104));
    two.see(&rt, Rows(77));
}

// A page has 4 entries. The fifth insertion splits the leaf, which makes two pages more and keeps two rows. So fewer than the 44 rows
// are left in all that an insertion may need; a deletion needs one.
const LAST_ROW: Story = Story {
    name: "a map is filled to its last row",
    room: (200, 44),
    scenes: &[&[
        InsertEach(1, 6, 1),
        Call(One, Op::Insert(6, 6), Err(Full)),
        See(PoolRows(0)),
        Call(One, Op::Delete(5), Ok(Answer::Removed(5))),
        Call(One, Op::Insert(6, 6), Err(Full)),
        Call(One, Op::Find(6), Ok(Answer::Absent)),
    ]],
};

// A page has 4 entries, so the fifth insertion splits the leaf. Then fewer than the 22 page numbers are left that an insertion may
// need.
const LAST_PAGE_NUMBER: Story = Story {
    name: "a map is filled to its last page number",
    room: (22, 2000),
    scenes: &[&[
        InsertEach(1, 6, 1),
        Call(One, Op::Insert(6, 6), Err(Full)),
        See(PoolPages(0)),
        Call(One, Op::Find(6), Ok(Answer::Absent)),
        Call(One, Op::Replace(5, 50), Ok(Answer::Replaced(5))),
        Call(One, Op::Delete(4), Ok(Answer::Removed(4))),
        Call(One, Op::Insert(4, 40), Err(Full)),
        Call(One, Op::Insert(3, 30), Ok(Answer::Exists(3))),
        FindAll(
            &[1, 2, 3, 4, 5, 6],
            &[Some(1), Some(2), Some(3), None, Some(50), None],
        ),
    ]],
};

// ---- a session that is refused

// What a session has that has drawn nothing.
const NOTHING: Stock = Stock {
    pages: 0,
    unwritten: 0,
    free: 0,
    taken_out: 0,
    waiting: 0,
};

// What the first session has left after one insertion.
const LEFT: Stock = Stock {
    pages: 22,
    unwritten: 44,
    free: 0,
    taken_out: 0,
    waiting: 0,
};

// The first session has drawn all 22 page numbers and all 44 rows, so the second lacks both for good.
const REFUSED_CHANGE: Story = Story {
    name: "a session lacks for good what another has drawn",
    room: (22, 44),
    scenes: &[&[
        Call(One, Op::Insert(1, 10), Ok(Answer::Inserted)),
        See(Has(One, LEFT)),
        See(PoolRows(0)),
        See(PoolPages(0)),
        Call(Other, Op::Insert(2, 20), Err(Full)),
        See(LacksRoom(Other, Op::Insert(2, 20))),
        See(Has(Other, NOTHING)),
        Call(One, Op::Insert(2, 20), Ok(Answer::Inserted)),
        Call(Other, Op::Insert(3, 30), Err(Full)),
        Call(Other, Op::Find(2), Ok(Answer::Found(20))),
    ]],
};

// What the first session has when it has written each of its rows, and when these have come back.
const WRITTEN: Stock = Stock {
    pages: 22,
    unwritten: 0,
    free: 0,
    taken_out: 44,
    waiting: 0,
};

const BACK: Stock = Stock {
    pages: 22,
    unwritten: 0,
    free: 44,
    taken_out: 0,
    waiting: 0,
};

// Of 13 changes of one key twelve are appended, and the last writes a row and takes one out. So an insertion and 571 replacements write
// each of the 44 rows. They come back as an insertion needs them.
const ROWS_COME_BACK: Story = Story {
    name: "rows come back where they are needed",
    room: (22, 44),
    scenes: &[&[
        Call(One, Op::Insert(1, 0), Ok(Answer::Inserted)),
        ReplaceOften(1, 571),
        See(Has(One, WRITTEN)),
        Call(Other, Op::Insert(2, 20), Err(Full)),
        See(HasRoom(One, Op::Insert(2, 20))),
        Call(One, Op::Insert(2, 20), Ok(Answer::Inserted)),
        See(Has(One, BACK)),
        Call(One, Op::Find(1), Ok(Answer::Found(571))),
    ]],
};

const STORIES: [&Story; 7] = [
    &MANY_CHANGES,
    &ONE_CHANGE,
    &NINE_INSERTIONS,
    &LAST_ROW,
    &LAST_PAGE_NUMBER,
    &REFUSED_CHANGE,
    &ROWS_COME_BACK,
];

#[test]
fn maps_that_are_filled(rt: HostRuntime) {
    play_all(&rt, rt.alloc(), &STORIES);
}
