//! One thread's map, and the words of answers.
use crate::fixtures::row::Row;
use crate::fixtures::{are_entries, given, is_shown, same, same_for};
use blink_batch::{Answer, Op, Plain};
use std::alloc::Global;
use std::process::Abort;

// Operations and their answers.
#[derive(Clone, Copy)]
struct Work<'a> {
    ops: &'a [Op],
    answers: &'a [Answer],
}

// The map carries the operations out at once, with these answers.
fn runs(rt: &impl Abort, alloc: Global, plain: &mut Plain, work: Work) {
    let answers = given(rt, plain.run(alloc, work.ops));
    same(rt, &answers.as_slice(), &work.answers);
}

// The map carries the operations out in turn, with these answers.
fn applies(rt: &impl Abort, plain: &mut Plain, work: Work) {
    same(rt, &work.ops.len(), &work.answers.len());
    for (op, answer) in work.ops.iter().zip(work.answers.iter()) {
        same_for(rt, &given(rt, plain.apply(*op)), answer, op);
    }
}

// New maps carry the operations out with these answers, at once and in turn, and have the same entries then.
fn answers_alike(rt: &impl Abort, alloc: Global, work: &Work) {
    let mut at_once = Plain::new(alloc);
    runs(rt, alloc, &mut at_once, *work);
    let mut in_turn = Plain::new(alloc);
    applies(rt, &mut in_turn, *work);
    same(rt, &in_turn.entries(), &at_once.entries());
}

const FOUND: Work = Work {
    ops: &[Op::Insert(5, 50), Op::Find(5), Op::Find(6)],
    answers: &[Answer::Inserted, Answer::Found(50), Answer::Absent],
};

const KEPT: Work = Work {
    ops: &[Op::Insert(7, 1), Op::Insert(7, 2), Op::Find(7)],
    answers: &[Answer::Inserted, Answer::Exists(1), Answer::Found(1)],
};

#[test]
fn plain_answers_alike_at_once_and_in_turn(rt: HostRuntime) {
    answers_alike(&rt, rt.alloc(), &FOUND);
    answers_alike(&rt, rt.alloc(), &KEPT);
}

// What a new map carries out, one after another, and the entries that it has then.
#[derive(Clone, Copy)]
struct Stage<'a> {
    // At once, or in turn.
    at_once: bool,
    work: Work<'a>,
    entries: Option<&'a [(u64, u64)]>,
}

// A new map goes through the stages.
fn goes(rt: &impl Abort, alloc: Global, stages: &[Stage]) {
    let mut plain = Plain::new(alloc);
    are_entries(rt, plain.entries(), &[]);
    goes_through(rt, alloc, &mut plain, stages);
}

fn goes_through(rt: &impl Abort, alloc: Global, plain: &mut Plain, stages: &[Stage]) {
    for &stage in stages {
        goes_on(rt, alloc, plain, stage);
    }
}

fn goes_on(rt: &impl Abort, alloc: Global, plain: &mut Plain, stage: Stage) {
    if stage.at_once {
        runs(rt, alloc, plain, stage.work);
    } else {
        applies(rt, plain, stage.work);
    }
    if let Some(entries) = stage.entries {
        are_entries(rt, plain.entries(), entries);
    }
}

const ASCENDING: [Stage; 1] = [Stage {
    at_once: true,
    work: Work {
        ops: &[Op::Insert(u64::MAX, 2), Op::Insert(0, 1), Op::Insert(9, 3)],
        answers: &[Answer::Inserted; 3],
    },
    entries: Some(&[(0, 1), (9, 3), (u64::MAX, 2)]),
}];

// Two entries more.
const TWO_MORE: Stage = Stage {
    at_once: true,
    work: Work {
        ops: &[Op::Insert(8, 4), Op::Insert(6, 2)],
        answers: &[Answer::Inserted; 2],
    },
    entries: None,
};

const DELETIONS: [Stage; 4] = [
    Stage {
        at_once: true,
        work: Work {
            ops: &[
                Op::Insert(7, 1),
                Op::Delete(7),
                Op::Delete(7),
                Op::Insert(7, 3),
                Op::Find(7),
            ],
            answers: &[
                Answer::Inserted,
                Answer::Removed(1),
                Answer::Absent,
                Answer::Inserted,
                Answer::Found(3),
            ],
        },
        entries: None,
    },
    TWO_MORE,
    Stage {
        at_once: false,
        work: Work {
            ops: &[Op::Delete(7)],
            answers: &[Answer::Removed(3)],
        },
        entries: Some(&[(6, 2), (8, 4)]),
    },
    Stage {
        at_once: false,
        work: Work {
            ops: &[Op::Delete(9)],
            answers: &[Answer::Absent],
        },
        entries: Some(&[(6, 2), (8, 4)]),
    },
];

const REPLACEMENTS: [Stage; 4] = [
    Stage {
        at_once: true,
        work: Work {
            ops: &[
                Op::Insert(7, 1),
                Op::Replace(7, 2),
                Op::Find(7),
                Op::Replace(8, 1),
                Op::Replace(7, 2),
            ],
            answers: &[
                Answer::Inserted,
                Answer::Replaced(1),
                Answer::Found(2),
                Answer::Absent,
                Answer::Replaced(2),
            ],
        },
        entries: None,
    },
    TWO_MORE,
    Stage {
        at_once: false,
        work: Work {
            ops: &[Op::Replace(7, 3)],
            answers: &[Answer::Replaced(2)],
        },
        entries: Some(&[(6, 2), (7, 3), (8, 4)]),
    },
    Stage {
        at_once: false,
        work: Work {
            ops: &[Op::Replace(9, 5)],
            answers: &[Answer::Absent],
        },
        entries: Some(&[(6, 2), (7, 3), (8, 4)]),
    },
];

// An exchange that finds the pointer that it expects, one that finds another, and one that finds none.
const EXCHANGES: [Stage; 2] = [
    Stage {
        at_once: true,
        work: Work {
            ops: &[
                Op::Insert(7, 1),
                Op::Exchange(7, 1, 2),
                Op::Exchange(7, 1, 3),
                Op::Exchange(7, 2, 2),
                Op::Exchange(8, 0, 1),
            ],
            answers: &[
                Answer::Inserted,
                Answer::Replaced(1),
                Answer::Exists(2),
                Answer::Replaced(2),
                Answer::Absent,
            ],
        },
        entries: Some(&[(7, 2)]),
    },
    Stage {
        at_once: false,
        work: Work {
            ops: &[Op::Exchange(7, 3, 4)],
            answers: &[Answer::Exists(2)],
        },
        entries: Some(&[(7, 2)]),
    },
];

// A deletion that finds another pointer than it expects, one that finds none, and one that finds the expected one.
const EXACT_DELETIONS: [Stage; 2] = [
    Stage {
        at_once: true,
        work: Work {
            ops: &[
                Op::Insert(7, 1),
                Op::DeleteExact(7, 2),
                Op::DeleteExact(8, 1),
                Op::DeleteExact(7, 1),
                Op::DeleteExact(7, 1),
            ],
            answers: &[
                Answer::Inserted,
                Answer::Exists(1),
                Answer::Absent,
                Answer::Removed(1),
                Answer::Absent,
            ],
        },
        entries: Some(&[]),
    },
    Stage {
        at_once: false,
        work: Work {
            ops: &[
                Op::Insert(7, 2),
                Op::Insert(8, 3),
                Op::DeleteExact(7, 3),
                Op::DeleteExact(8, 3),
            ],
            answers: &[
                Answer::Inserted,
                Answer::Inserted,
                Answer::Exists(2),
                Answer::Removed(3),
            ],
        },
        entries: Some(&[(7, 2)]),
    },
];

const STAGES: [(&str, &[Stage]); 5] = [
    ("plain keeps its entries in order", &ASCENDING),
    ("deletions take their entries away", &DELETIONS),
    ("replacements change what is there", &REPLACEMENTS),
    ("exchanges change what is expected", &EXCHANGES),
    ("exact deletions remove what is expected", &EXACT_DELETIONS),
];

#[test]
fn plain_maps_go_through_stages(rt: HostRuntime) {
    for &(name, stages) in &STAGES {
        goes(&Row { rt: &rt, name }, rt.alloc(), stages);
    }
}

const WORDS: [(Answer, &str); 6] = [
    (Answer::Found(7), "found 7"),
    (Answer::Absent, "absent"),
    (Answer::Inserted, "inserted"),
    (Answer::Exists(7), "exists 7"),
    (Answer::Removed(0), "removed 0"),
    (Answer::Replaced(u64::MAX), "replaced 18446744073709551615"),
];

#[test]
fn answers_have_their_words(rt: HostRuntime) {
    for &(answer, words) in &WORDS {
        is_shown(&rt, rt.alloc(), &answer, words);
    }
}

// What an operation brings, and what it answers where its key is there with the pointer 1, and where it isn't there.
const ROWS: [(Op, u64, Answer, Answer); 8] = [
    (Op::Find(7), 0, Answer::Found(1), Answer::Absent),
    (Op::Insert(7, 2), 2, Answer::Exists(1), Answer::Inserted),
    (Op::Delete(7), 0, Answer::Removed(1), Answer::Absent),
    (Op::Replace(7, 2), 2, Answer::Replaced(1), Answer::Absent),
    (
        Op::Exchange(7, 1, 2),
        2,
        Answer::Replaced(1),
        Answer::Absent,
    ),
    (Op::Exchange(7, 3, 2), 2, Answer::Exists(1), Answer::Absent),
    (Op::DeleteExact(7, 1), 0, Answer::Removed(1), Answer::Absent),
    (Op::DeleteExact(7, 3), 0, Answer::Exists(1), Answer::Absent),
];

#[test]
fn operations_are_rows_of_one_table(rt: HostRuntime) {
    for &(op, pointer, there, absent) in &ROWS {
        same(&rt, &op.pointer(), &pointer);
        same(&rt, &op.answer(Some(1)), &there);
        same(&rt, &op.answer(None), &absent);
    }
}
