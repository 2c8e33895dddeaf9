//! Insertions with passes.
use crate::closing::FOURTEEN;
use crate::indexes::Look::{Dump, Every, Finds};
use crate::steps::Step::Call;
use crate::story::Act::{Deal, DealWalks, Run, Take};
use crate::story::{End, Story, play_all};
use crate::walks::Walks;
use crate::works::Work;
use blink_batch::{Answer, Op};
use blink_live::PassError;

// ---- one thread

// The keys 1 to 4 in one leaf, which is full, split by key 5.
pub(crate) const SPLIT: &str = "\
1 3 - 18446744073709551615 - 3:1 18446744073709551615:2
0 1 - 3 2 1:10 2:20 3:30
0 2 3 18446744073709551615 - 4:40 5:50
";

const ONE_MORE: Story = Story {
    name: "a full leaf is split",
    over: (0, 4),
    room: (1, 0),
    acts: &[
        Deal(&[5], 1, 0),
        Take(0, &[Call(Op::Insert(5, 50), Ok(Answer::Inserted))]),
    ],
    end: End::Closes(&[Dump(SPLIT)]),
};

const SPENT: Story = Story {
    name: "a spent pass inserts no more",
    over: (0, 4),
    room: (2, 0),
    acts: &[
        Deal(&[5, 9], 1, 0),
        Deal(&[2, 7], 1, 0),
        Take(
            0,
            &[
                Call(Op::Insert(7, 1), Err(PassError::NotYours)),
                Call(Op::Insert(5, 50), Ok(Answer::Inserted)),
                Call(Op::Insert(9, 90), Err(PassError::Spent)),
                Call(Op::Insert(7, 1), Err(PassError::NotYours)),
                Call(Op::Find(5), Ok(Answer::Found(50))),
                Call(Op::Find(9), Ok(Answer::Absent)),
            ],
        ),
        Take(
            1,
            &[
                Call(Op::Find(2), Ok(Answer::Found(20))),
                Call(Op::Insert(7, 70), Ok(Answer::Inserted)),
                Call(Op::Find(7), Ok(Answer::Found(70))),
                Call(Op::Insert(9, 1), Err(PassError::NotYours)),
            ],
        ),
    ],
    end: End::Closes(&[Finds(&[(5, Some(50)), (7, Some(70)), (9, None)])]),
};

const THERE: Story = Story {
    name: "a key that is there keeps its pointer",
    over: (0, 4),
    room: (1, 0),
    acts: &[
        Deal(&[3, 8], 1, 0),
        Take(
            0,
            &[
                Call(Op::Insert(3, 99), Ok(Answer::Exists(30))),
                Call(Op::Insert(8, 80), Err(PassError::Spent)),
                Call(Op::Insert(3, 99), Err(PassError::Spent)),
                Call(Op::Find(3), Ok(Answer::Found(30))),
                Call(Op::Find(8), Ok(Answer::Absent)),
            ],
        ),
    ],
    end: End::Closes(&[Finds(&[(3, Some(30)), (8, None)])]),
};

const THREE_LEVELS: Story = Story {
    name: "one pass builds three levels",
    over: (0, 0),
    room: (14, 0),
    acts: &[
        Deal(&[1, 2, 3, 4, 5, 6, 7, 8, 9, 10, 11, 12, 13, 14], 14, 0),
        Take(
            0,
            &[
                Call(Op::Insert(1, 10), Ok(Answer::Inserted)),
                Call(Op::Insert(2, 20), Ok(Answer::Inserted)),
                Call(Op::Insert(3, 30), Ok(Answer::Inserted)),
                Call(Op::Insert(4, 40), Ok(Answer::Inserted)),
                Call(Op::Insert(5, 50), Ok(Answer::Inserted)),
                Call(Op::Insert(6, 60), Ok(Answer::Inserted)),
                Call(Op::Insert(7, 70), Ok(Answer::Inserted)),
                Call(Op::Insert(8, 80), Ok(Answer::Inserted)),
                Call(Op::Insert(9, 90), Ok(Answer::Inserted)),
                Call(Op::Insert(10, 100), Ok(Answer::Inserted)),
                Call(Op::Insert(11, 110), Ok(Answer::Inserted)),
                Call(Op::Insert(12, 120), Ok(Answer::Inserted)),
                Call(Op::Insert(13, 130), Ok(Answer::Inserted)),
                Call(Op::Insert(14, 140), Ok(Answer::Inserted)),
            ],
        ),
    ],
    end: End::Closes(&[Dump(FOURTEEN)]),
};

// ---- several threads

const NEIGHBOURS: Story = Story {
    name: "four threads insert neighbours",
    over: (0, 0),
    room: (1_024, 0),
    acts: &[DealWalks(Walks::Fourths), Run(Work::InsertFourth)],
    end: End::Closes(&[Every(1, 0, 1_024)]),
};

const HALF_DELETE: Story = Story {
    name: "eight threads insert and half of them delete",
    over: (0, 0),
    room: (512, 256),
    acts: &[DealWalks(Walks::Eighths), Run(Work::ChangeEighth)],
    end: End::Closes(&[Every(2, 0, 256)]),
};

const STORIES: [&Story; 6] = [
    &ONE_MORE,
    &SPENT,
    &THERE,
    &THREE_LEVELS,
    &NEIGHBOURS,
    &HALF_DELETE,
];

#[test]
fn passes_that_insert(rt: HostRuntime) {
    play_all(&rt, rt.alloc(), &STORIES);
}
