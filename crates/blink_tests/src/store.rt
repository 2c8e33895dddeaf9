//! Stores and latches, and trees at rest.
use crate::fixtures::row::Row;
use crate::fixtures::stores::{
    Change, Sample, Sight, Stage, empty_store, empty_tree, is_seen, page_at, store_of, tree_of,
};
use crate::fixtures::{given, same, same_for};
use blink_page::{MAX_PAGE, Page};
use blink_rest::Rest;
use blink_store::{Latches, Store, StoreError};
use std::alloc::Global;
use std::process::Abort;

// A store of this fan goes through these stages.
struct Story<'a> {
    name: &'a str,
    fan: u8,
    stages: &'a [Stage<'a>],
}

const STORIES: [Story; 7] = [
    Story {
        name: "a new store has an empty leaf",
        fan: 4,
        stages: &[Stage {
            changes: &[],
            sights: &[
                Sight::Fan(4),
                Sight::Pages(1),
                Sight::Leftmost(&[1]),
                Sight::Page(1, Sample::Leaf(&[])),
            ],
        }],
    },
    Story {
        name: "a new store is at rest",
        fan: 4,
        stages: &[Stage {
            changes: &[],
            sights: &[Sight::AtRest(true)],
        }],
    },
    Story {
        name: "a split page is written in two",
        fan: 4,
        stages: &[
            Stage {
                changes: &[Change::Add(Sample::Upper, 2)],
                sights: &[
                    Sight::Page(2, Sample::Upper),
                    Sight::Page(1, Sample::Leaf(&[])),
                ],
            },
            Stage {
                changes: &[Change::Write(1, Sample::Lower)],
                sights: &[Sight::Page(1, Sample::Lower), Sight::Page(2, Sample::Upper)],
            },
            Stage {
                changes: &[Change::Add(Sample::Root(1, 2), 3), Change::NameRoot(3)],
                sights: &[Sight::Leftmost(&[1, 3]), Sight::Pages(3)],
            },
        ],
    },
    Story {
        name: "a page is written from another",
        fan: 4,
        stages: &[Stage {
            changes: &[
                Change::Add(Sample::Upper, 2),
                Change::Write(1, Sample::Leaf(&[1, 2, 3, 4])),
                Change::WriteFrom(1, Sample::Lower),
            ],
            sights: &[
                Sight::Page(1, Sample::Lower),
                Sight::Page(2, Sample::Upper),
                Sight::Entries(1, &[(1, 10), (2, 20), (3, 30)]),
                Sight::Pages(2),
            ],
        }],
    },
    // The keys 1 to 3 on page 1 and 4 and 5 on page 2, and a root over them.
    Story {
        name: "a tree is at rest once its root is named",
        fan: 4,
        stages: &[
            Stage {
                changes: &[
                    Change::Add(Sample::Upper, 2),
                    Change::Add(Sample::Root(1, 2), 3),
                    Change::Write(1, Sample::Lower),
                ],
                sights: &[Sight::AtRest(false)],
            },
            Stage {
                changes: &[Change::NameRoot(3)],
                sights: &[Sight::AtRest(true)],
            },
            // An unlinked page.
            Stage {
                changes: &[Change::Add(Sample::Leaf(&[]), 4)],
                sights: &[Sight::AtRest(false)],
            },
        ],
    },
    // The root has its children in the wrong order.
    Story {
        name: "children stand in the order of their pages",
        fan: 4,
        stages: &[Stage {
            changes: &[
                Change::Add(Sample::Upper, 2),
                Change::Add(Sample::Root(2, 1), 3),
                Change::Write(1, Sample::Lower),
                Change::NameRoot(3),
            ],
            sights: &[Sight::AtRest(false)],
        }],
    },
    // The second leaf has no floor.
    Story {
        name: "floors are the high keys before",
        fan: 4,
        stages: &[Stage {
            changes: &[
                Change::Add(Sample::Leaf(&[4, 5]), 2),
                Change::Add(Sample::Root(1, 2), 3),
                Change::Write(1, Sample::Lower),
                Change::NameRoot(3),
            ],
            sights: &[Sight::AtRest(false)],
        }],
    },
];

#[test]
fn stores_go_through_stages(rt: HostRuntime) {
    for story in &STORIES {
        let name = story.name;
        store_of(&Row { rt: &rt, name }, rt.alloc(), story.fan, story.stages);
    }
}

const THREE_PAGES: [Stage; 1] = [Stage {
    changes: &[
        Change::Add(Sample::Leaf(&[]), 2),
        Change::Add(Sample::Root(1, 2), 3),
        Change::NameRoot(3),
    ],
    sights: &[],
}];

const ROOT_NAMED: [Stage; 1] = [Stage {
    changes: &[Change::NameRoot(1)],
    sights: &[],
}];

const PRIME_RESET: [Stage; 1] = [Stage {
    changes: &[Change::NameRoot(1), Change::ResetPrime],
    sights: &[],
}];

const LEAF_ADDED: [Stage; 1] = [Stage {
    changes: &[Change::Add(Sample::Leaf(&[]), 2)],
    sights: &[],
}];

const INNER_PAGE_ADDED: [Stage; 1] = [Stage {
    changes: &[Change::Add(Sample::Root(1, 2), 2)],
    sights: &[],
}];

// A fan, and the stages that a store of it goes through.
type Made<'a> = (u8, &'a [Stage<'a>]);

// Two stores, and whether they are the same.
const COMPARED: [(&str, Made, Made, bool); 5] = [
    ("other fans", (4, &[]), (5, &[]), false),
    ("a named root", (4, &[]), (4, &ROOT_NAMED), false),
    ("a prime block set anew", (4, &[]), (4, &PRIME_RESET), true),
    ("a page more", (4, &LEAF_ADDED), (4, &[]), false),
    (
        "another page",
        (4, &LEAF_ADDED),
        (4, &INNER_PAGE_ADDED),
        false,
    ),
];

fn compares(rt: &impl Abort, alloc: Global, (one, other): (Made, Made), expected: bool) {
    let store = store_of(rt, alloc, one.0, one.1);
    let other = store_of(rt, alloc, other.0, other.1);
    same(rt, &store.is_same(&other), &expected);
}

#[test]
fn stores_that_differ_are_told_apart(rt: HostRuntime) {
    for &(name, one, other, expected) in &COMPARED {
        compares(&Row { rt: &rt, name }, rt.alloc(), (one, other), expected);
    }
}

// The two are the same store of fan 5 with three pages.
fn have_three_pages(rt: &impl Abort, copy: &Store, store: &Store) {
    assert!(rt; copy.is_same(store));
    is_seen(rt, copy, &[Sight::Fan(5), Sight::Pages(3)]);
    same(rt, copy.prime(), store.prime());
    for number in 1..4 {
        same_for(
            rt,
            page_at(rt, copy, number),
            page_at(rt, store, number),
            &number,
        );
    }
}

#[test]
fn a_copy_has_the_same_pages(rt: HostRuntime) {
    let store = store_of(&rt, rt.alloc(), 5, &THREE_PAGES);
    have_three_pages(&rt, &given(&rt, store.copy(rt.alloc())), &store);
}

const ALL_PAGES: [Sight; 1] = [Sight::Pages(MAX_PAGE)];

#[test]
fn the_numbers_run_out(rt: HostRuntime) {
    let mut store = empty_store(&rt, rt.alloc(), 4);
    for _ in 1..MAX_PAGE {
        let page = store.add(Page::leaf());
        assert!(rt; page.is_ok());
    }
    is_seen(&rt, &store, &ALL_PAGES);
    same(&rt, &store.add(Page::leaf()), &Err(StoreError::OutOfPages));
    is_seen(&rt, &store, &ALL_PAGES);
}

#[test]
fn a_latch_has_one_holder(rt: HostRuntime) {
    let mut latches = Latches::new();
    same(&rt, &latches.holder(1), &None);
    assert!(rt; latches.try_latch(1, 0));
    same(&rt, &latches.holder(1), &Some(0));
    assert!(rt; !latches.try_latch(1, 1));
    same(&rt, &latches.holder(1), &Some(0));
    latches.unlatch(1, 0);
    same(&rt, &latches.holder(1), &None);
    assert!(rt; latches.try_latch(1, 1));
    same(&rt, &latches.holder(1), &Some(1));
    assert!(rt; latches.try_latch(1_048_575, 63));
    same(&rt, &latches.holder(1_048_575), &Some(63));
}

// A store of a new tree.
const NEW_TREE: [Sight; 3] = [
    Sight::Pages(1),
    Sight::Leftmost(&[1]),
    Sight::Page(1, Sample::Leaf(&[])),
];

// The tree is a new one of this fan.
fn is_new(rt: &impl Abort, rest: &Rest, fan: u8) {
    same(rt, &rest.store().fan(), &fan);
    is_seen(rt, rest.store(), &NEW_TREE);
}

// A copy of a new tree of this fan is the same, and a tree with an entry isn't.
fn compares_trees(rt: &impl Abort, alloc: Global, rest: &Rest, other: &Rest, fan: u8) {
    is_new(rt, rest, fan);
    let copy = given(rt, rest.copy(alloc));
    is_new(rt, &copy, fan);
    let compared = (
        copy.is_same(rest),
        other.is_same(rest),
        other.is_same(other),
    );
    same(rt, &compared, &(true, false, true));
}

const ONE_ENTRY: [Stage; 1] = [Stage {
    changes: &[Change::Write(1, Sample::Leaf(&[1]))],
    sights: &[],
}];

#[test]
fn trees_at_rest_are_made_and_compared(rt: HostRuntime) {
    let alloc = rt.alloc();
    for fan in [4, 7] {
        let other = tree_of(&rt, store_of(&rt, alloc, fan, &ONE_ENTRY));
        compares_trees(&rt, alloc, &empty_tree(&rt, alloc, fan), &other, fan);
    }
    is_new(&rt, &tree_of(&rt, empty_store(&rt, alloc, 16)), 16);
}
