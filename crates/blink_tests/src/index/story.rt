//! Stories of an index: what it is made of, what is done to it, and what is to be seen of it.
//!
//! A story is a constant, which costs nothing to prove: the functions here that carry stories out are proved once.
use super::looks::{
    are_all_entries, are_copies, brings, brings_back, gives_runs, gives_runs_back, has_ends,
    has_no_ends, has_sides, pages_first,
};
use crate::fixtures::row::Row;
use crate::fixtures::stores::empty_tree;
use crate::fixtures::worlds::{after, full_leaf, keys_to, two_leaves};
use crate::fixtures::{given, same, same_for};
use blink_batch::{Answer, Entry, Op};
use blink_index::{Applied, Index};
use blink_rest::Rest;
use std::alloc::Global;
use std::process::Abort;

// What a story begins with.
#[derive(Clone, Copy)]
pub enum Start {
    // A new index of this fan.
    New(u8),
    // The keys 1 to 4, each with ten times the key, in one leaf, which is full.
    Four,
    // The keys 1 to 5, each with ten times the key, in two leaves and a root.
    Five,
    // Those whose first three are deleted, so that the left leaf is empty,
    Two,
    // and then 2 is inserted.
    Three,
    // The greatest key alone, with 2.
    Greatest,
    // Of this fan the ascending entries of the keys from 1 to this one, each with the key itself.
    Sorted(u8, u64),
}

// Two numbers, and the entries that they bring: a scan from the first key to the second, or a page of so many entries at most.
pub type Example<'a> = (u64, u64, &'a [(u64, u64)]);

// The runs of two leaves.
pub type Runs<'a> = (&'a [(u64, u64)], &'a [(u64, u64)]);

// A key, and the keys of the entries below it, from it on, and up to it.
pub type Sides = (u64, Option<u64>, Option<u64>, Option<u64>);

// What is done, and what is to be seen then.
#[derive(Clone, Copy)]
pub enum Act<'a> {
    // The operations in place, their answers, and how many entries there are after each.
    Edits(&'a [(Op, Answer, usize)]),
    // An insertion, a deletion or a replacement by its own call.
    Call(Op, Answer),
    // The operations by one call.
    Apply(&'a [Op], &'a [Answer]),
    // The keys from 1 to this one are inserted in place, each with the key itself.
    InsertTo(u64),
    // The keys from the first to the second, each with the key itself, are deleted by the call that packs.
    DeleteAndCompact(u64, u64),
    Compact,
    See(Look<'a>),
}

#[derive(Clone, Copy)]
pub enum Look<'a> {
    Text(&'a str),
    PageCount(u32),
    Len(usize),
    IsEmpty(bool),
    Finds(&'a [(u64, Option<u64>)]),
    Scans(&'a [Example<'a>]),
    ScansBack(&'a [Example<'a>]),
    Pages(&'a [Example<'a>]),
    PagesBack(&'a [Example<'a>]),
    // A page of so many entries from a key on has so many, the first of a scan.
    FirstEntries(&'a [(u64, u64, usize)]),
    // What a scan, or a page, gives leaf by leaf.
    Runs(u64, u64, Runs<'a>),
    PageRuns(u64, u64, Runs<'a>),
    RunsBack(u64, u64, Runs<'a>),
    PageRunsBack(u64, u64, Runs<'a>),
    // The keys of the first and the last entry, and a key with the next above it; each has ten times the key.
    Ends(u64, u64, (u64, u64)),
    NoEnds,
    Sides(&'a [Sides]),
    // So many entries are given at once, as by a scan.
    Entries(usize),
    // Copies have the same text and the same three pages.
    Copies(&'a str),
    // The pages are those of one batch, or of ascending entries, of the keys from 1 to this one.
    PagesOfBatch(u8, u64),
    PagesOfSorted(u8, u64),
}

pub struct Story<'a> {
    pub name: &'a str,
    pub start: Start,
    pub acts: &'a [Act<'a>],
}

// Each story goes so.
pub fn go(rt: &impl Abort, alloc: Global, stories: &[Story]) {
    for story in stories {
        let name = story.name;
        goes(&Row { rt, name }, alloc, story);
    }
}

fn goes(rt: &impl Abort, alloc: Global, story: &Story) {
    let mut index = index_of(rt, alloc, story.start);
    for &act in story.acts {
        does(rt, alloc, &mut index, act);
    }
}

const THREE_DELETIONS: [Op; 3] = [Op::Delete(1), Op::Delete(2), Op::Delete(3)];

pub fn index_of(rt: &impl Abort, alloc: Global, start: Start) -> Index {
    match start {
        Start::New(fan) => given(rt, Index::new(alloc, fan)),
        Start::Four => Index::from_rest(full_leaf(rt, alloc)),
        Start::Five => Index::from_rest(two_leaves(rt, alloc)),
        Start::Two => Index::from_rest(tree_of_two(rt, alloc)),
        Start::Three => changed(rt, alloc, tree_of_two(rt, alloc), Op::Insert(2, 21)),
        Start::Greatest => changed(rt, alloc, empty_tree(rt, alloc, 4), Op::Insert(u64::MAX, 2)),
        Start::Sorted(fan, last) => sorted(rt, alloc, fan, last),
    }
}

// The tree of five entries after three deletions.
fn tree_of_two(rt: &impl Abort, alloc: Global) -> Rest {
    after(rt, alloc, two_leaves(rt, alloc), &THREE_DELETIONS)
}

// The index of a tree after this operation.
fn changed(rt: &impl Abort, alloc: Global, rest: Rest, op: Op) -> Index {
    Index::from_rest(after(rt, alloc, rest, &[op]))
}

fn sorted(rt: &impl Abort, alloc: Global, fan: u8, last: u64) -> Index {
    let mut entries = Vec::new(alloc);
    for key in 1..=last {
        given(rt, entries.push(Entry { key, pointer: key }));
    }
    given(rt, Index::from_sorted(alloc, fan, &entries))
}

fn does(rt: &impl Abort, alloc: Global, index: &mut Index, act: Act) {
    match act {
        Act::Edits(edits) => answers(rt, index, edits),
        Act::Call(op, answer) => same_for(rt, &called(rt, index, op), &answer, &op),
        Act::Apply(ops, answers) => applies(rt, alloc, index, ops, answers),
        Act::InsertTo(last) => inserts_to(rt, index, last),
        Act::DeleteAndCompact(first, last) => deletes(rt, alloc, index, first, last),
        Act::Compact => given(rt, index.compact(alloc)),
        Act::See(look) => sees(rt, alloc, index, look),
    }
}

fn answers(rt: &impl Abort, index: &mut Index, edits: &[(Op, Answer, usize)]) {
    for &(op, answer, len) in edits {
        same_for(rt, &given(rt, index.edit(op)), &answer, &op);
        same_for(rt, &index.len(), &len, &op);
    }
}

fn called(rt: &impl Abort, index: &mut Index, op: Op) -> Answer {
    match op {
        Op::Insert(key, pointer) => given(rt, index.insert(key, pointer)),
        Op::Delete(key) => index.delete(key),
        Op::Replace(key, pointer) => index.replace(key, pointer),
        _ => given(rt, index.edit(op)),
    }
}

fn applies(rt: &impl Abort, alloc: Global, index: &mut Index, ops: &[Op], expected: &[Answer]) {
    let Applied { answers, refusal } = index.apply(alloc, ops);
    same(rt, &refusal, &None);
    same(rt, &answers.as_slice(), &expected);
}

fn inserts_to(rt: &impl Abort, index: &mut Index, last: u64) {
    for key in 1..=last {
        let answer = given(rt, index.insert(key, key));
        same_for(rt, &answer, &Answer::Inserted, &key);
    }
}

fn deletes(rt: &impl Abort, alloc: Global, index: &mut Index, first: u64, last: u64) {
    for key in first..=last {
        let answer = index.delete_and_compact(alloc, key);
        same_for(rt, &answer, &Answer::Removed(key), &key);
    }
}

// The index is seen so.
fn sees(rt: &impl Abort, alloc: Global, index: &Index, look: Look) {
    match look {
        Look::Text(text) => is_text(rt, alloc, index, text),
        Look::PageCount(count) => same(rt, &index.page_count(), &count),
        Look::Len(len) => same(rt, &index.len(), &len),
        Look::IsEmpty(expected) => same(rt, &index.is_empty(), &expected),
        Look::Finds(keys) => finds(rt, index, keys),
        Look::Ends(first, last, above) => has_ends(rt, index, first, last, above),
        Look::NoEnds => has_no_ends(rt, index),
        Look::Sides(examples) => has_sides(rt, index, examples),
        Look::Entries(count) => are_all_entries(rt, alloc, index, count),
        Look::Copies(text) => are_copies(rt, alloc, index, text),
        Look::PagesOfBatch(fan, last) => {
            assert!(rt; index.rest().is_same(&keys_to(rt, alloc, fan, last)));
        }
        Look::PagesOfSorted(fan, last) => {
            assert!(rt; index.rest().is_same(sorted(rt, alloc, fan, last).rest()));
        }
        _ => scans(rt, alloc, index, look),
    }
}

// Scans and pages give this.
fn scans(rt: &impl Abort, alloc: Global, index: &Index, look: Look) {
    match look {
        Look::Scans(examples) => {
            for &(lo, hi, expected) in examples {
                brings(rt, alloc, index.scan(lo, hi), expected);
            }
        }
        Look::ScansBack(examples) => {
            for &(lo, hi, expected) in examples {
                brings_back(rt, alloc, index.scan_back(lo, hi), expected);
            }
        }
        Look::Pages(examples) => {
            for &(lo, n, expected) in examples {
                brings(rt, alloc, index.page(lo, n), expected);
            }
        }
        Look::PagesBack(examples) => {
            for &(hi, n, expected) in examples {
                brings_back(rt, alloc, index.page_back(hi, n), expected);
            }
        }
        Look::FirstEntries(examples) => {
            for &(lo, n, count) in examples {
                pages_first(rt, alloc, index, (lo, n), count);
            }
        }
        Look::Runs(lo, hi, runs) => gives_runs(rt, index.scan(lo, hi), runs),
        Look::PageRuns(lo, n, runs) => gives_runs(rt, index.page(lo, n), runs),
        Look::RunsBack(lo, hi, runs) => gives_runs_back(rt, index.scan_back(lo, hi), runs),
        Look::PageRunsBack(hi, n, runs) => gives_runs_back(rt, index.page_back(hi, n), runs),
        _ => panic!(rt; "a look at no scan"),
    }
}

// The index is this text.
pub fn is_text(rt: &impl Abort, alloc: Global, index: &Index, text: &str) {
    same(rt, &given(rt, index.dump(alloc)).as_str(), &text);
}

fn finds(rt: &impl Abort, index: &Index, keys: &[(u64, Option<u64>)]) {
    for &(key, pointer) in keys {
        same_for(rt, &index.find(key), &pointer, &key);
    }
}
