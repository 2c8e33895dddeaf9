//! Pages and prime blocks as rows of words.
use crate::fixtures::row::Row;
use crate::fixtures::{same, same_for};
use arrayvec::ArrayVec;
use blink_page::{GREATEST_KEY, MAX_PAGE, Page, Prime};
use blink_rows::{
    Allowance, Counts, Kind, ROW_WORDS, Record, Records, Span, find_in_row, page_in_row, page_row,
    page_word, prime_row, records_in, row_in, row_page, row_prime,
};
use std::process::Abort;

// A page of the examples.
#[derive(Clone, Copy)]
enum Sample {
    // The first leaf of a tree.
    First,
    // A leaf with three entries, a floor and a right neighbour.
    Leaf,
    // What that leaf becomes by its log.
    LeafAfterLog,
    // The roots of level 1 and 2 over the pages 6 and 7, with the separator 9.
    Root1,
    Root2,
}

fn page_of(sample: Sample) -> Page {
    match sample {
        Sample::First => Page::leaf(),
        Sample::Leaf => leaf(),
        Sample::LeafAfterLog => leaf_after_log(),
        Sample::Root1 => Page::root(1, 9, 6, 7),
        Sample::Root2 => Page::root(2, 9, 6, 7),
    }
}

fn leaf() -> Page {
    let mut items = ArrayVec::new();
    items.push((4, 40));
    items.push((5, 50));
    items.push((6, 60));
    Page {
        level: 0,
        floor: Some(3),
        high: 6,
        right: Some(3),
        items,
    }
}

fn leaf_after_log() -> Page {
    let mut items = ArrayVec::new();
    items.push((4, 44));
    items.push((5, 55));
    Page {
        level: 0,
        floor: Some(3),
        high: 6,
        right: Some(3),
        items,
    }
}

// A row with these words from the first on, and 0 behind them.
fn row_with(rt: &impl Abort, prefix: &[u64]) -> [u64; ROW_WORDS] {
    assert!(rt; prefix.len() <= ROW_WORDS);
    let mut words = [0; ROW_WORDS];
    words[..prefix.len()].copy_from_slice(prefix);
    words
}

// The row with another word there.
fn row_but(rt: &impl Abort, row: &[u64; ROW_WORDS], at: usize, word: u64) -> [u64; ROW_WORDS] {
    assert!(rt; at < ROW_WORDS);
    let mut words = *row;
    words[at] = word;
    words
}

// What is so of rows, page words and records.
#[derive(Clone, Copy)]
enum Fact<'a> {
    // The span has so many numbers.
    Len(Span, u64),
    // A table for so many pages and such an allowance has so many page numbers and rows.
    Counts(u32, Allowance, (u64, u64)),
    // In such a table the row begins at this word.
    RowStart(u32, Allowance, (u64, u64)),
    // The row of the page is these words, and they are read as the page.
    Page(Sample, &'a [u64]),
    // The row of the prime block that names these pages above page 1 is these words, and they are read as it.
    Prime(&'a [u32], &'a [u64]),
    // The page's row is none of a page with any of these words alone changed.
    NoPage(Sample, &'a [(usize, u64)]),
    // So is the row of a new prime block.
    NoPrime(&'a [(usize, u64)]),
    // The page word names this row and counts these records.
    PageWord(u64, u64, Records),
    // The words with these records are read as this page.
    Logged(&'a [u64], Records, Sample),
    // In the row with the log, of which this is said of its records, the key has this pointer.
    Pointer(Records, u64, Option<u64>),
    // No page has the row with the log where this is said of its records,
    NoLogged(Records),
    // also with this word changed.
    NoLoggedWith((usize, u64), Records),
    // With a record of this kind behind them the page word says this.
    Followed(Records, Kind, Records),
    // Of the log the record with so many older ones has this kind.
    HasKind(u8, Kind),
    // A leaf with so many entries in its base has so many after these records.
    Live(Records, usize, usize),
    // Whether a row has room for a record behind a base of so many entries and so many records.
    HasRoom(usize, u8, bool),
}

fn is_so(rt: &impl Abort, fact: Fact) {
    match fact {
        Fact::Len(span, len) => same(rt, &span.len(), &len),
        Fact::Counts(pages, allowance, counts) => has_counts(rt, pages, allowance, counts),
        Fact::RowStart(pages, allowance, row) => begins_at(rt, pages, allowance, row),
        Fact::Page(sample, words) => is_row_of(rt, page_of(sample), words),
        Fact::Prime(pages, words) => is_prime_row(rt, pages, words),
        Fact::NoPage(sample, changes) => are_no_page(rt, &page_row(&page_of(sample)), changes),
        Fact::NoPrime(changes) => are_no_prime_block(rt, changes),
        Fact::PageWord(word, row, records) => is_page_word(rt, word, row, records),
        Fact::Logged(words, records, sample) => is_logged(rt, words, records, sample),
        Fact::Pointer(records, key, pointer) => has_pointer(rt, records, key, pointer),
        Fact::NoLogged(records) => means_no_page(rt, &row_with(rt, ROW_WITH_LOG), records),
        Fact::NoLoggedWith((at, word), records) => {
            let row = row_with(rt, ROW_WITH_LOG);
            means_no_page(rt, &row_but(rt, &row, at, word), records);
        }
        Fact::Followed(records, kind, expected) => is_followed(rt, records, kind, expected),
        Fact::HasKind(older, kind) => has_kind(rt, older, kind),
        Fact::Live(records, base, live) => has_live(rt, records, base, live),
        Fact::HasRoom(base, count, expected) => has_room(rt, base, count, expected),
    }
}

fn has_counts(rt: &impl Abort, pages: u32, allowance: Allowance, counts: (u64, u64)) {
    let given = counts_of(rt, pages, allowance);
    same(rt, &(given.numbers, given.rows), &counts);
}

fn counts_of(rt: &impl Abort, pages: u32, allowance: Allowance) -> Counts {
    assert!(rt; pages <= 3 && allowance.inserts <= 2);
    Counts::of(pages, allowance)
}

fn begins_at(rt: &impl Abort, pages: u32, allowance: Allowance, (row, start): (u64, u64)) {
    let counts = counts_of(rt, pages, allowance);
    assert!(rt; 1 <= row && row <= counts.rows);
    same_for(rt, &counts.row_start(row), &start, &row);
}

fn is_row_of(rt: &impl Abort, page: Page, words: &[u64]) {
    let words = row_with(rt, words);
    same(rt, &page_row(&page), &words);
    same(rt, &row_page(&words), &Some(page));
}

fn is_prime_row(rt: &impl Abort, pages: &[u32], words: &[u64]) {
    let mut prime = Prime::new();
    for &page in pages {
        assert!(rt; 1 <= page && page <= MAX_PAGE && prime.leftmost.len() < 21);
        prime.grow(page);
    }
    let words = row_with(rt, words);
    same(rt, &prime_row(&prime), &words);
    same(rt, &row_prime(&words), &Some(prime));
}

fn are_no_page(rt: &impl Abort, row: &[u64; ROW_WORDS], changes: &[(usize, u64)]) {
    for &(at, word) in changes {
        let words = row_but(rt, row, at, word);
        same_for(rt, &row_page(&words), &None, &(at, word));
    }
}

fn are_no_prime_block(rt: &impl Abort, changes: &[(usize, u64)]) {
    let row = prime_row(&Prime::new());
    for &(at, word) in changes {
        let words = row_but(rt, &row, at, word);
        same_for(rt, &row_prime(&words), &None, &(at, word));
    }
}

fn is_page_word(rt: &impl Abort, word: u64, row: u64, records: Records) {
    assert!(rt; row < 8_589_934_592 && records.count < 16 && records.kinds < 16_777_216);
    same_for(rt, &page_word(row, records), &word, &row);
    same_for(rt, &row_in(word), &row, &word);
    same_for(rt, &records_in(word), &records, &word);
}

fn is_logged(rt: &impl Abort, words: &[u64], records: Records, sample: Sample) {
    let page = page_in_row(&row_with(rt, words), records);
    same(rt, &page, &Some(page_of(sample)));
}

fn has_pointer(rt: &impl Abort, records: Records, key: u64, pointer: Option<u64>) {
    let found = find_in_row(&row_with(rt, ROW_WITH_LOG), records, key);
    same_for(rt, &found, &pointer, &key);
}

fn means_no_page(rt: &impl Abort, words: &[u64; ROW_WORDS], records: Records) {
    same_for(rt, &page_in_row(words, records), &None, &records);
}

fn is_followed(rt: &impl Abort, records: Records, kind: Kind, expected: Records) {
    assert!(rt; records.count < 12 && records.kinds < 16_777_216);
    same_for(rt, &records.with(kind), &expected, &kind);
}

fn has_kind(rt: &impl Abort, older: u8, kind: Kind) {
    assert!(rt; older < 4);
    same_for(rt, &LOG.kind(older), &kind, &older);
}

fn has_live(rt: &impl Abort, records: Records, base: usize, live: usize) {
    assert!(rt; base <= 32);
    same(rt, &records.live(base), &live);
}

fn has_room(rt: &impl Abort, base: usize, count: u8, expected: bool) {
    assert!(rt; base <= 32);
    same_for(
        rt,
        &Records { count, kinds: 0 }.has_room(base),
        &expected,
        &(base, count),
    );
}

// There are no records.
const NONE: Records = Records { count: 0, kinds: 0 };

// The row of the leaf.
const LEAF_ROW: &[u64] = &[0, 1, 3, 6, 3, 3, 4, 40, 5, 50, 6, 60];

// The row of the leaf with a log: 5 gets another pointer, 4 goes and comes back, 6 goes. The last word is of no record.
const ROW_WITH_LOG: &[u64] = &[
    0, 1, 3, 6, 3, 3, 4, 40, 5, 50, 6, 60, 5, 55, 4, 99, 4, 44, 6, 7, 77,
];

// What its page word says of these records: from the oldest on 2 bits for each of the kinds 0, 2, 1, 2.
const LOG: Records = Records {
    count: 4,
    kinds: 38,
};

const TWO_INSERTIONS: Allowance = Allowance {
    inserts: 2,
    deletes: 5,
};

const ONE_INSERTION: Allowance = Allowance {
    inserts: 1,
    deletes: 0,
};

const FACTS: [(&str, &[Fact]); 18] = [
    (
        "a span has the numbers below its stop",
        &[
            Fact::Len(Span { next: 3, stop: 24 }, 21),
            Fact::Len(Span { next: 24, stop: 24 }, 0),
            Fact::Len(Span { next: 25, stop: 24 }, 0),
        ],
    ),
    (
        "a table has room for its allowance",
        &[
            Fact::Counts(3, TWO_INSERTIONS, (48, 97)),
            Fact::Counts(1, ONE_INSERTION, (24, 46)),
            Fact::RowStart(1, ONE_INSERTION, (1, 48)),
            Fact::RowStart(1, ONE_INSERTION, (2, 120)),
            Fact::RowStart(1, ONE_INSERTION, (46, 3288)),
        ],
    ),
    (
        "the first leaf has a high key only",
        &[Fact::Page(Sample::First, &[0, 0, 0, 18_446_744_073_709_551_615])],
    ),
    (
        "a leaf has its keys and values in turn",
        &[Fact::Page(Sample::Leaf, LEAF_ROW)],
    ),
    (
        "an inner page has its separators and children",
        &[Fact::Page(
            Sample::Root2,
            &[2, 0, 0, GREATEST_KEY, 0, 2, 9, 6, GREATEST_KEY, 7],
        )],
    ),
    (
        "a prime block has its leftmost pages",
        &[Fact::Prime(&[6, 8], &[0, 0, 0, 0, 0, 3, 1, 6, 8])],
    ),
    (
        "words that are no page",
        &[Fact::NoPage(
            Sample::Leaf,
            &[
                // the level is above the highest
                (0, 21),
                // a floor is there or not
                (1, 2),
                // a floor that isn't there is 0
                (1, 0),
                // the floor is below the high key
                (2, 6),
                // no page has this number
                (4, 1_048_576),
                // the last page alone has no link
                (4, 0),
                // a page has 32 entries at most
                (5, 33),
                // the third entry stands behind the last
                (5, 2),
                // the keys ascend
                (6, 5),
                (8, 4),
                // above the floor
                (6, 3),
                // up to the high key
                (10, 7),
                // a word behind the last entry
                (12, 1),
                (69, 1),
            ],
        )],
    ),
    (
        "words that are no inner page",
        &[Fact::NoPage(
            Sample::Root1,
            &[
                // one separator
                (5, 1),
                // the last separator is the high key
                (8, 10),
                // a child that is no page
                (7, 0),
                (9, 1_048_576),
            ],
        )],
    ),
    (
        "words that are no prime block",
        &[Fact::NoPrime(&[(0, 1), (4, 1), (5, 0), (5, 2), (5, 22), (6, 0), (7, 3)])],
    ),
    (
        "a page word without records is its row",
        &[
            Fact::PageWord(0, 0, NONE),
            Fact::PageWord(1, 1, NONE),
            Fact::PageWord(8_589_934_591, 8_589_934_591, NONE),
        ],
    ),
    (
        "a page word counts records above its row",
        &[
            // one record of kind 2, in row 5: 5 + 2 to the 33 + 2 times 2 to the 37
            Fact::PageWord(283_467_841_541, 5, Records { count: 1, kinds: 2 }),
            // twelve of kind 3, in the greatest row: 2 to the 61, less 3 times 2 to the 33, less 1
            Fact::PageWord(
                2_305_842_983_443_890_175,
                8_589_934_591,
                Records {
                    count: 12,
                    kinds: 16_777_215,
                },
            ),
        ],
    ),
    (
        "a row with a log is read as the page after all records",
        &[
            Fact::Logged(ROW_WITH_LOG, LOG, Sample::LeafAfterLog),
            Fact::Logged(LEAF_ROW, NONE, Sample::Leaf),
        ],
    ),
    (
        "the newest record says what a key maps to",
        &[
            Fact::Pointer(LOG, 4, Some(44)),
            Fact::Pointer(LOG, 5, Some(55)),
            Fact::Pointer(LOG, 6, None),
            Fact::Pointer(LOG, 7, None),
            Fact::Pointer(NONE, 6, Some(60)),
        ],
    ),
    (
        "words and records that mean no page",
        &[
            // 5 is there already
            Fact::NoLogged(Records { count: 1, kinds: 1 }),
            // 4 is there already when the second record adds it
            Fact::NoLogged(Records { count: 2, kinds: 1 }),
            // no kind is 3
            Fact::NoLogged(Records { count: 1, kinds: 3 }),
            // one record has no kind for a second
            Fact::NoLogged(Records { count: 1, kinds: 4 }),
            // 7 is no key of the page
            Fact::NoLoggedWith((12, 7), Records { count: 1, kinds: 1 }),
            // more records than a row may have
            Fact::NoLogged(Records {
                count: 13,
                kinds: 0,
            }),
            // words that are no page without the records
            Fact::NoLoggedWith((5, 33), NONE),
        ],
    ),
    (
        "a page word has two bits for each record",
        &[
            Fact::Followed(NONE, Kind::Replaced, Records { count: 1, kinds: 0 }),
            Fact::Followed(
                Records { count: 1, kinds: 0 },
                Kind::Removed,
                Records { count: 2, kinds: 2 },
            ),
            Fact::Followed(
                Records { count: 2, kinds: 2 },
                Kind::Added,
                Records { count: 3, kinds: 9 },
            ),
            Fact::Followed(Records { count: 3, kinds: 9 }, Kind::Removed, LOG),
        ],
    ),
    (
        "a page word tells each record's kind",
        &[
            Fact::HasKind(0, Kind::Replaced),
            Fact::HasKind(1, Kind::Removed),
            Fact::HasKind(2, Kind::Added),
            Fact::HasKind(3, Kind::Removed),
        ],
    ),
    (
        "a page word tells how many entries a leaf has",
        &[
            Fact::Live(NONE, 3, 3),
            // one was added and two removed
            Fact::Live(LOG, 3, 2),
        ],
    ),
    (
        "a row has room for twelve records in its words",
        &[
            Fact::HasRoom(0, 11, true),
            Fact::HasRoom(0, 12, false),
            Fact::HasRoom(32, 0, true),
            Fact::HasRoom(32, 1, false),
            Fact::HasRoom(21, 11, true),
            Fact::HasRoom(22, 11, false),
        ],
    ),
];

#[test]
fn rows_and_page_words(rt: HostRuntime) {
    for &(name, facts) in &FACTS {
        for &fact in facts {
            is_so(&Row { rt: &rt, name }, fact);
        }
    }
}

#[test]
fn a_record_changes_a_leaf(rt: HostRuntime) {
    let removal = Record {
        kind: Kind::Removed,
        key: 5,
        pointer: 0,
    };
    let mut page = leaf();
    assert!(rt; page.level == 0 && page.look(5).is_some());
    removal.apply(&mut page);
    same(&rt, &page.look(5), &None);
    same(&rt, &removal.pointer_after(), &None);
}
