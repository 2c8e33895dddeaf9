//! Pages and the prime block.
use crate::fixtures::pages::{
    Bounds, are_halves, halves, has_bounds, has_entries, leaf_of, post_to, put_into, split_leaf,
    swap_in, take_from,
};
use crate::fixtures::row::Row;
use crate::fixtures::{same, same_for};
use blink_page::{GREATEST_KEY, Page, Post, Prime, Put, Way};
use std::process::Abort;

// The halves of a page of this level, which is alone, and gets an entry more: the page keeps the entries of the lower half, up
// to the separator, and links to the page `new`.
#[derive(Clone, Copy)]
struct Split<'a> {
    level: u8,
    entry: (u64, u64),
    new: u32,
    separator: u64,
    lower: &'a [(u64, u64)],
    upper: &'a [(u64, u64)],
}

// The page that a story begins with.
#[derive(Clone, Copy)]
enum Start<'a> {
    // The only leaf, with these keys, each with ten times the key.
    Leaf(&'a [u64]),
    // The lower half of the leaf with the keys 1 to 4, which gets 5 and the new page 2.
    Lower,
    // The root of level 1 over these two pages, with the separator between them.
    Root(Root),
}

#[derive(Clone, Copy)]
enum Root {
    // Over the pages 1 and 2, up to key 3.
    UpTo3,
    // Over the pages 9 and 5, up to key 1.
    UpTo1,
}

// A call of a page, and what it has to give.
#[derive(Clone, Copy)]
enum Step<'a> {
    Put(u64, u64, Put),
    Post(u64, u32, Post),
    Take(u64, Option<u64>),
    Swap(u64, u64, Option<u64>),
    Look(u64, Option<u64>),
    Way(u64, Way),
    Entries(&'a [(u64, u64)]),
    Bounds(u8, Bounds),
    // The page splits so.
    Split(Split<'a>),
    // A copy of the page is the same.
    Copied,
    // The halves are the same, made one by one, where the page gets this entry and the new page this number.
    Halves((u64, u64), u32),
    // The page is assigned the lower or the upper half of that leaf.
    AssignLower,
    AssignUpper,
}

// What happens to a page.
struct Story<'a> {
    name: &'a str,
    start: Start<'a>,
    steps: &'a [Step<'a>],
}

fn goes(rt: &impl Abort, story: &Story) {
    let mut page = page_of(rt, story.start);
    for &step in story.steps {
        takes(rt, &mut page, step);
    }
}

fn page_of(rt: &impl Abort, start: Start) -> Page {
    match start {
        Start::Leaf(keys) => leaf_of(rt, keys),
        Start::Lower => split_leaf(rt).lower,
        Start::Root(Root::UpTo3) => Page::root(1, 3, 1, 2),
        Start::Root(Root::UpTo1) => Page::root(1, 1, 9, 5),
    }
}

fn takes(rt: &impl Abort, page: &mut Page, step: Step) {
    match step {
        Step::Put(key, value, put) => same_for(rt, &put_into(rt, page, 4, key, value), &put, &key),
        Step::Post(key, child, post) => same_for(rt, &post_to(rt, page, key, child), &post, &key),
        Step::Take(key, value) => same_for(rt, &take_from(rt, page, key), &value, &key),
        Step::Swap(key, value, before) => {
            same_for(rt, &swap_in(rt, page, key, value), &before, &key);
        }
        Step::AssignLower => page.assign(&split_leaf(rt).lower),
        Step::AssignUpper => page.assign(&split_leaf(rt).upper),
        Step::Look(..) | Step::Way(..) | Step::Entries(_) => shows(rt, page, step),
        Step::Bounds(..) | Step::Split(_) | Step::Halves(..) | Step::Copied => {
            shows(rt, page, step);
        }
    }
}

// The step leaves the page as it is.
fn shows(rt: &impl Abort, page: &Page, step: Step) {
    match step {
        Step::Look(key, value) => same_for(rt, &page.look(key), &value, &key),
        Step::Way(key, way) => same_for(rt, &page.way(key), &way, &key),
        Step::Entries(entries) => has_entries(rt, page, entries),
        Step::Bounds(level, bounds) => has_bounds(rt, page, level, bounds),
        Step::Split(split) => splits_into(rt, page, &split),
        Step::Copied => same(rt, &page.copy(), page),
        Step::Halves(entry, new) => {
            are_halves(rt, &halves(rt, page, 4, entry, new), page, 4, entry, new);
        }
        _ => panic!(rt; "a step that changes a page"),
    }
}

// A page of fan 4 splits so.
fn splits_into(rt: &impl Abort, page: &Page, expected: &Split) {
    let split = halves(rt, page, 4, expected.entry, expected.new);
    same(rt, &split.separator, &expected.separator);
    has_entries(rt, &split.lower, expected.lower);
    has_entries(rt, &split.upper, expected.upper);
    let of_lower: Bounds = (None, expected.separator, Some(expected.new));
    has_bounds(rt, &split.lower, expected.level, of_lower);
    let of_upper: Bounds = (Some(expected.separator), GREATEST_KEY, None);
    has_bounds(rt, &split.upper, expected.level, of_upper);
}

const STORIES: [Story; 9] = [
    Story {
        name: "a full leaf splits",
        start: Start::Leaf(&[1, 2, 3, 4]),
        steps: &[
            Step::Put(4, 7, Put::Present(40)),
            Step::Put(5, 50, Put::Full),
            Step::Split(Split {
                level: 0,
                entry: (5, 50),
                new: 2,
                separator: 3,
                lower: &[(1, 10), (2, 20), (3, 30)],
                upper: &[(4, 40), (5, 50)],
            }),
        ],
    },
    Story {
        name: "a full leaf splits: ways of its lower half",
        start: Start::Lower,
        steps: &[
            Step::Entries(&[(1, 10), (2, 20), (3, 30)]),
            Step::Way(3, Way::Here),
            Step::Way(4, Way::Right(2)),
            Step::Way(0, Way::Here),
        ],
    },
    Story {
        name: "a page is assigned another",
        start: Start::Leaf(&[1, 2, 3, 4]),
        steps: &[
            Step::Copied,
            Step::AssignUpper,
            Step::Copied,
            Step::Entries(&[(4, 40), (5, 50)]),
            Step::Bounds(0, (Some(3), GREATEST_KEY, None)),
            Step::AssignLower,
            Step::Entries(&[(1, 10), (2, 20), (3, 30)]),
            Step::Bounds(0, (None, 3, Some(2))),
        ],
    },
    Story {
        name: "halves are the same one by one",
        start: Start::Leaf(&[1, 2, 3, 4]),
        steps: &[Step::Halves((5, 50), 2)],
    },
    Story {
        name: "the least and the greatest key are found",
        start: Start::Leaf(&[]),
        steps: &[
            Step::Put(GREATEST_KEY, 2, Put::Done),
            Step::Put(0, 1, Put::Done),
            Step::Look(0, Some(1)),
            Step::Look(GREATEST_KEY, Some(2)),
            Step::Copied,
            // A key that isn't there leaves the page as it was.
            Step::Take(7, None),
            Step::Entries(&[(0, 1), (GREATEST_KEY, 2)]),
            Step::Bounds(0, (None, GREATEST_KEY, None)),
            Step::Take(0, Some(1)),
            Step::Entries(&[(GREATEST_KEY, 2)]),
        ],
    },
    Story {
        name: "a value is swapped in its place",
        start: Start::Leaf(&[1, 2, 3]),
        steps: &[
            Step::Swap(2, 21, Some(20)),
            Step::Entries(&[(1, 10), (2, 21), (3, 30)]),
            Step::Swap(2, 22, Some(21)),
            Step::Entries(&[(1, 10), (2, 22), (3, 30)]),
            Step::Swap(2, 22, Some(22)),
            Step::Entries(&[(1, 10), (2, 22), (3, 30)]),
            // Keys that aren't there leave the page as it was.
            Step::Swap(0, 7, None),
            Step::Entries(&[(1, 10), (2, 22), (3, 30)]),
            Step::Bounds(0, (None, GREATEST_KEY, None)),
            Step::Swap(4, 7, None),
            Step::Entries(&[(1, 10), (2, 22), (3, 30)]),
            Step::Bounds(0, (None, GREATEST_KEY, None)),
        ],
    },
    Story {
        name: "a full inner page splits",
        start: Start::Root(Root::UpTo3),
        steps: &[
            Step::Post(6, 4, Post::Done),
            Step::Post(9, 5, Post::Done),
            Step::Entries(&[(3, 1), (6, 2), (9, 4), (GREATEST_KEY, 5)]),
            Step::Way(3, Way::Down(1)),
            Step::Way(4, Way::Down(2)),
            Step::Way(10, Way::Down(5)),
            Step::Post(9, 6, Post::Already),
            Step::Post(12, 6, Post::Full),
            Step::Split(Split {
                level: 1,
                entry: (12, 6),
                new: 7,
                separator: 9,
                lower: &[(3, 1), (6, 2), (9, 4)],
                upper: &[(12, 5), (GREATEST_KEY, 6)],
            }),
        ],
    },
    Story {
        name: "one posting overtakes another: the greater first",
        start: Start::Root(Root::UpTo1),
        steps: &[
            Step::Post(6, 7, Post::Done),
            Step::Post(3, 8, Post::Done),
            Step::Entries(&BOTH_POSTED),
        ],
    },
    Story {
        name: "one posting overtakes another: the less first",
        start: Start::Root(Root::UpTo1),
        steps: &[
            Step::Post(3, 8, Post::Done),
            Step::Post(6, 7, Post::Done),
            Step::Entries(&BOTH_POSTED),
        ],
    },
];

const BOTH_POSTED: [(u64, u64); 4] = [(1, 9), (3, 5), (6, 8), (GREATEST_KEY, 7)];

#[test]
fn pages_change(rt: HostRuntime) {
    for story in &STORIES {
        let name = story.name;
        goes(&Row { rt: &rt, name }, story);
    }
}

// A full leaf of this fan.
fn full_leaf(rt: &impl Abort, fan: u8) -> Page {
    let mut page = Page::leaf();
    for key in 0..u64::from(fan) {
        same(rt, &put_into(rt, &mut page, fan, key, key), &Put::Done);
    }
    page
}

// So many entries of a full leaf of this fan and one more stay where it splits, and so many go.
fn parts_into(rt: &impl Abort, fan: u8, stay: usize, go: usize) {
    let page = full_leaf(rt, fan);
    let split = halves(rt, &page, fan, (100, 1), 2);
    let lengths = (split.lower.items.len(), split.upper.items.len());
    same_for(rt, &lengths, &(stay, go), &fan);
}

// Fans, how many entries stay, and how many go.
const PARTS: [(u8, usize, usize); 10] = [
    (4, 3, 2),
    (5, 3, 3),
    (6, 4, 3),
    (7, 4, 4),
    (8, 5, 4),
    (15, 8, 8),
    (16, 9, 8),
    (17, 9, 9),
    (31, 16, 16),
    (32, 17, 16),
];

#[test]
fn a_split_keeps_the_greater_part(rt: HostRuntime) {
    for &(fan, stay, go) in &PARTS {
        parts_into(&rt, fan, stay, go);
    }
}

#[test]
fn the_prime_block_grows(rt: HostRuntime) {
    let mut prime = Prime::new();
    prime.grow(3);
    same(&rt, &prime.leftmost.as_slice(), &[1, 3].as_slice());
    same(&rt, &prime.copy(), &prime);
}
