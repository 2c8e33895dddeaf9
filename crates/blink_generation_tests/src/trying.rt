//! Operations by a session that stays where it is: each is made at once, or given up.
use crate::shared::Who::{One, Other};
use crate::story::Act::{Call, InsertEach, Try};
use crate::story::{Story, play_all};
use blink_batch::{Answer, Op};
use blink_generation::Full;

const MADE: Story = Story {
    name: "a change is made where its session lies",
    room: (100, 200),
    scenes: &[&[
        Try(One, Op::Insert(7, 70), Ok(Some(Answer::Inserted))),
        Try(Other, Op::Insert(7, 71), Ok(Some(Answer::Exists(70)))),
        Try(Other, Op::Replace(7, 71), Ok(Some(Answer::Replaced(70)))),
        Try(One, Op::Delete(7), Ok(Some(Answer::Removed(71)))),
        Try(One, Op::Replace(7, 72), Ok(Some(Answer::Absent))),
    ]],
};

// A leaf has four entries at most.
const GIVEN_UP: Story = Story {
    name: "an insertion into a full leaf is given up",
    room: (100, 200),
    scenes: &[&[
        InsertEach(1, 5, 10),
        Try(One, Op::Insert(5, 50), Ok(None)),
        Call(Other, Op::Find(5), Ok(Answer::Absent)),
        Call(Other, Op::Find(4), Ok(Answer::Found(40))),
        Call(One, Op::Insert(5, 50), Ok(Answer::Inserted)),
        Try(Other, Op::Insert(6, 60), Ok(Some(Answer::Inserted))),
    ]],
};

// The first session draws 44 of 45 rows. That is too few for the second one's insertion, and enough for its replacement.
const REFUSED: Story = Story {
    name: "a change that lacks room is refused",
    room: (22, 45),
    scenes: &[&[
        Try(One, Op::Insert(7, 70), Ok(Some(Answer::Inserted))),
        Try(Other, Op::Insert(8, 80), Err(Full)),
        Try(Other, Op::Replace(7, 71), Ok(Some(Answer::Replaced(70)))),
    ]],
};

const STORIES: [&Story; 3] = [&MADE, &GIVEN_UP, &REFUSED];

#[test]
fn changes_where_a_session_lies(rt: HostRuntime) {
    play_all(&rt, rt.alloc(), &STORIES);
}
