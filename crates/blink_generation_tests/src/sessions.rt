//! What sessions of one map see of each other.
use crate::same::{given, same_for};
use crate::shared::Two;
use crate::shared::Who::{One, Other};
use crate::story::Act::{self, Call, Tell};
use crate::story::{Story, play_all};
use blink_batch::{Answer, Op};
use blink_generation::{Full, Map, MapError, Room};
use blink_index::Index;
use std::process::Abort;

// The first session has inserted a key, and then the second has replaced its pointer.
const REPLACED_KEY: &[Act] = &[
    Call(One, Op::Insert(7, 70), Ok(Answer::Inserted)),
    Call(One, Op::Find(7), Ok(Answer::Found(70))),
    Call(Other, Op::Insert(7, 71), Ok(Answer::Exists(70))),
    Call(Other, Op::Replace(7, 72), Ok(Answer::Replaced(70))),
];

const ONE_KEY: Story = Story {
    name: "sessions change one key",
    room: (200, 2000),
    scenes: &[
        REPLACED_KEY,
        &[
            Tell,
            Call(One, Op::Find(7), Ok(Answer::Found(72))),
            Call(One, Op::Delete(7), Ok(Answer::Removed(72))),
            Call(One, Op::Delete(7), Ok(Answer::Absent)),
            Call(One, Op::Replace(7, 1), Ok(Answer::Absent)),
            Call(One, Op::Find(7), Ok(Answer::Absent)),
        ],
    ],
};

// One session exchanges a pointer that it has seen. The other expects the same one, and finds the new one.
const EXCHANGES: Story = Story {
    name: "one of two exchanges finds what it expects",
    room: (200, 2000),
    scenes: &[
        REPLACED_KEY,
        &[
            Call(One, Op::Exchange(7, 72, 73), Ok(Answer::Replaced(72))),
            Call(Other, Op::Exchange(7, 72, 74), Ok(Answer::Exists(73))),
            Call(Other, Op::Exchange(7, 73, 74), Ok(Answer::Replaced(73))),
            Call(Other, Op::Exchange(8, 73, 74), Ok(Answer::Absent)),
            Call(Other, Op::Find(7), Ok(Answer::Found(74))),
        ],
    ],
};

// One session exchanges a pointer. The other, which has seen the one before, doesn't remove the new one unseen.
const EXACT_DELETIONS: Story = Story {
    name: "a deletion of a seen pointer leaves a later one",
    room: (200, 2000),
    scenes: &[
        REPLACED_KEY,
        &[
            Call(One, Op::Exchange(7, 72, 73), Ok(Answer::Replaced(72))),
            Call(Other, Op::DeleteExact(7, 72), Ok(Answer::Exists(73))),
            Call(Other, Op::Find(7), Ok(Answer::Found(73))),
            Call(Other, Op::DeleteExact(7, 73), Ok(Answer::Removed(73))),
            Call(One, Op::DeleteExact(7, 73), Ok(Answer::Absent)),
            Call(One, Op::Find(7), Ok(Answer::Absent)),
        ],
    ],
};

// The first session draws all 44 rows, so the second has none.
const SMALL_POOL: Story = Story {
    name: "a small pool is used up",
    room: (22, 44),
    scenes: &[&[
        Call(One, Op::Insert(1, 10), Ok(Answer::Inserted)),
        Call(One, Op::Insert(2, 20), Ok(Answer::Inserted)),
        Call(One, Op::Replace(1, 11), Ok(Answer::Replaced(10))),
        Call(One, Op::Delete(1), Ok(Answer::Removed(11))),
        Call(Other, Op::Delete(2), Err(Full)),
        Call(Other, Op::Insert(3, 30), Err(Full)),
        Call(Other, Op::Insert(2, 21), Ok(Answer::Exists(20))),
        Call(Other, Op::Find(1), Ok(Answer::Absent)),
        Call(Other, Op::Find(2), Ok(Answer::Found(20))),
        Call(Other, Op::Find(3), Ok(Answer::Absent)),
    ]],
};

// The first session draws 44 of 45 rows. That is too few for the second one's insertion, and enough for its replacement.
const LAST_ROW: Story = Story {
    name: "one row is enough for a replacement",
    room: (22, 45),
    scenes: &[&[
        Call(One, Op::Insert(7, 70), Ok(Answer::Inserted)),
        Call(Other, Op::Find(7), Ok(Answer::Found(70))),
        Call(Other, Op::Insert(8, 80), Err(Full)),
        Call(Other, Op::Replace(7, 71), Ok(Answer::Replaced(70))),
    ]],
};

const STORIES: [&Story; 5] = [
    &ONE_KEY,
    &EXCHANGES,
    &EXACT_DELETIONS,
    &SMALL_POOL,
    &LAST_ROW,
];

#[test]
fn sessions_of_one_map(rt: HostRuntime) {
    play_all(&rt, rt.alloc(), &STORIES);
}

// The keys of this place, in an order that looks like chance.
fn key_at(place: u64) -> u64 {
    place.wrapping_mul(37) % 301
}

// The sessions insert 300 keys in turn, each with its place.
fn insert_in_turn(rt: &impl Abort, two: Two) -> Two {
    let mut two = two;
    for place in 0..300u64 {
        let op = Op::Insert(key_at(place), place);
        two = two.call(rt, One, op, Ok(Answer::Inserted)).turn();
    }
    two
}

// The first session finds them.
fn find_each(rt: &impl Abort, two: Two) -> Two {
    let mut two = two;
    for place in 0..300u64 {
        let found = Answer::Found(place);
        two = two.call(rt, One, Op::Find(key_at(place)), Ok(found));
    }
    two
}

// A map is opened over the entries of another one.
#[test]
fn what_sessions_inserted_is_in_the_next_map(rt: HostRuntime) {
    let alloc = rt.alloc();
    let mut two = insert_in_turn(&rt, Two::open(&rt, alloc, (2000, 4000)));
    let entries = two.entries(&rt, alloc, 0, u64::MAX);
    let index = given(&rt, Index::from_sorted(alloc, 4, &entries));
    let two = find_each(&rt, Two::over(&rt, alloc, &index, (0, 0)));
    let _two = two.call(&rt, One, Op::Insert(1000, 1), Err(Full));
}

// Page numbers and sessions for which no map is opened, and why.
const ROOMS: [(u32, u32, MapError); 4] = [
    (0, 0, MapError::Sessions),
    (0, 257, MapError::Sessions),
    (1_048_575, 1, MapError::TooLarge),
    (u32::MAX, 256, MapError::TooLarge),
];

#[test]
fn rooms_are_refused(rt: HostRuntime) {
    let alloc = rt.alloc();
    let index = given(&rt, Index::new(alloc, 4));
    for (pages, sessions, expected) in ROOMS {
        let room = Room {
            pages,
            rows: 0,
            sessions,
        };
        let refusal = Map::open(alloc, &index, room).err();
        same_for(&rt, &refusal, &Some(expected), &(pages, sessions));
    }
}
