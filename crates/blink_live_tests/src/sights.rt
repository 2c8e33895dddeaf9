//! What a table, its keeper and its passes show of themselves.
use crate::same::{same, same_for};
use blink_live::{Keeper, Live, Pass};
use blink_rows::Span;
use std::process::Abort;

#[derive(Clone, Copy)]
pub(crate) enum OfTable {
    Fan(u8),
    // The numbers of page numbers, with number 0, and of rows.
    Counts(u64, u64),
    WordCount(usize),
    Word(usize, u64),
    // The words below this place are those of the list, each with its place, and 0 where it has none.
    Words(usize, &'static [(usize, u64)]),
}

#[derive(Clone, Copy)]
pub(crate) enum OfKeeper {
    // The page numbers or rows from the first number on that are below the second.
    Pages(u64, u64),
    Rows(u64, u64),
    // So many page numbers and rows.
    Left(u64, u64),
    Taken(&'static [u64]),
    // So many passes were dealt, and so many are out.
    Dealt(u32, u32),
}

#[derive(Clone, Copy)]
pub(crate) enum OfPass {
    Keys(&'static [u64]),
    Pages(u64, u64),
    Rows(u64, u64),
}

pub(crate) fn see_table(rt: &impl Abort, live: &Live, sight: OfTable) {
    match sight {
        OfTable::Fan(fan) => same(rt, &live.fan(), &fan),
        OfTable::Counts(numbers, rows) => {
            same(rt, &live.counts().numbers, &numbers);
            same(rt, &live.counts().rows, &rows);
        }
        OfTable::WordCount(count) => same(rt, &live.word_count(), &count),
        OfTable::Word(place, word) => same(rt, &live.word(place), &Some(word)),
        OfTable::Words(below, words) => see_words(rt, live, below, words),
    }
}

pub(crate) fn see_keeper(rt: &impl Abort, keeper: &Keeper, sight: OfKeeper) {
    match sight {
        OfKeeper::Pages(next, stop) => same(rt, &keeper.pages(), &Span { next, stop }),
        OfKeeper::Rows(next, stop) => same(rt, &keeper.rows(), &Span { next, stop }),
        OfKeeper::Left(pages, rows) => {
            same(rt, &keeper.pages().len(), &pages);
            same(rt, &keeper.rows().len(), &rows);
        }
        OfKeeper::Taken(keys) => same(rt, &keeper.taken(), &keys),
        OfKeeper::Dealt(dealt, out) => {
            same(rt, &keeper.dealt(), &dealt);
            same(rt, &keeper.out(), &out);
        }
    }
}

pub(crate) fn see_pass(rt: &impl Abort, pass: &Pass, sight: OfPass) {
    match sight {
        OfPass::Keys(keys) => same(rt, &pass.keys(), &keys),
        OfPass::Pages(next, stop) => same(rt, &pass.pages(), &Span { next, stop }),
        OfPass::Rows(next, stop) => same(rt, &pass.rows(), &Span { next, stop }),
    }
}

fn see_words(rt: &impl Abort, live: &Live, below: usize, words: &[(usize, u64)]) {
    for place in 0..below {
        same_for(rt, &live.word(place), &Some(word_at(words, place)), &place);
    }
}

fn word_at(words: &[(usize, u64)], place: usize) -> u64 {
    let mut found = 0;
    for &(at, word) in words {
        if at == place {
            found = word;
        }
    }
    found
}
