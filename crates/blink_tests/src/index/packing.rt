//! Indexes of ascending entries, and indexes that are packed in place.
use super::story::{Act, Look, Start, Story, go, index_of};
use crate::fixtures::{given, same, same_for};
use blink_batch::{Answer, Entry, Op};
use blink_index::{EditError, Index, SortedError};
use std::alloc::Global;
use std::process::Abort;

const STORIES: [Story; 17] = [
    // Texts at a fan of 4. Seventeen keys fill four leaves and begin a fifth. Five leaves are one too many for a page above, and
    // no page has one child alone: so the first gets three.
    Story {
        name: "ascending entries fill pages: none",
        start: Start::Sorted(4, 0),
        acts: &[Act::See(Look::Text("0 1 - 18446744073709551615 -\n"))],
    },
    Story {
        name: "ascending entries fill pages: one",
        start: Start::Sorted(4, 1),
        acts: &[Act::See(Look::Text("0 1 - 18446744073709551615 - 1:1\n"))],
    },
    Story {
        name: "ascending entries fill pages: four",
        start: Start::Sorted(4, 4),
        acts: &[Act::See(Look::Text("0 1 - 18446744073709551615 - 1:1 2:2 3:3 4:4\n"))],
    },
    Story {
        name: "ascending entries fill pages: five",
        start: Start::Sorted(4, 5),
        acts: &[Act::See(Look::Text(
            "1 3 - 18446744073709551615 - 4:1 18446744073709551615:2\n0 1 - 4 2 1:1 2:2 3:3 4:4\n0 2 4 18446744073709551615 - 5:5\n",
        ))],
    },
    Story {
        name: "ascending entries fill pages: seventeen",
        start: Start::Sorted(4, 17),
        acts: &[Act::See(Look::Text(
            "2 8 - 18446744073709551615 - 12:6 18446744073709551615:7\n1 6 - 12 7 4:1 8:2 12:3\n1 7 12 18446744073709551615 - 16:4 18446744073709551615:5\n0 1 - 4 2 1:1 2:2 3:3 4:4\n0 2 4 8 3 5:5 6:6 7:7 8:8\n0 3 8 12 4 9:9 10:10 11:11 12:12\n0 4 12 16 5 13:13 14:14 15:15 16:16\n0 5 16 18446744073709551615 - 17:17\n",
        ))],
    },
    // At a fan of 32 a root has 32 leaves, and 1,024 entries fill them.
    Story {
        name: "entries take the fewest pages: 16 at a fan of 4",
        start: Start::Sorted(4, 16),
        acts: &[
            Act::See(Look::PageCount(5)),
            Act::See(Look::Finds(&[(16, Some(16))])),
        ],
    },
    Story {
        name: "entries take the fewest pages: 64 at a fan of 4",
        start: Start::Sorted(4, 64),
        acts: &[
            Act::See(Look::PageCount(21)),
            Act::See(Look::Finds(&[(64, Some(64))])),
        ],
    },
    Story {
        name: "entries take the fewest pages: 65 at a fan of 4",
        start: Start::Sorted(4, 65),
        acts: &[
            Act::See(Look::PageCount(25)),
            Act::See(Look::Finds(&[(65, Some(65))])),
        ],
    },
    Story {
        name: "entries take the fewest pages: 32 at a fan of 32",
        start: Start::Sorted(32, 32),
        acts: &[
            Act::See(Look::PageCount(1)),
            Act::See(Look::Finds(&[(32, Some(32))])),
        ],
    },
    Story {
        name: "entries take the fewest pages: 33 at a fan of 32",
        start: Start::Sorted(32, 33),
        acts: &[
            Act::See(Look::PageCount(3)),
            Act::See(Look::Finds(&[(33, Some(33))])),
        ],
    },
    Story {
        name: "entries take the fewest pages: 1,024 at a fan of 32",
        start: Start::Sorted(32, 1024),
        acts: &[
            Act::See(Look::PageCount(33)),
            Act::See(Look::Finds(&[(1024, Some(1024))])),
        ],
    },
    Story {
        name: "entries take the fewest pages: 1,025 at a fan of 32",
        start: Start::Sorted(32, 1025),
        acts: &[
            Act::See(Look::PageCount(36)),
            Act::See(Look::Finds(&[(1025, Some(1025))])),
        ],
    },
    Story {
        name: "an emptied leaf goes when an index is packed",
        start: Start::Two,
        acts: &[
            Act::Compact,
            Act::See(Look::Text("0 1 - 18446744073709551615 - 4:40 5:50\n")),
            Act::Call(Op::Insert(1, 11), Answer::Inserted),
            Act::Call(Op::Delete(4), Answer::Removed(40)),
            Act::Call(Op::Replace(5, 51), Answer::Replaced(50)),
            Act::See(Look::Text("0 1 - 18446744073709551615 - 1:11 5:51\n")),
        ],
    },
    // An index into which keys are inserted, one by one, has the pages of ascending entries once it is packed.
    Story {
        name: "a packed index has the pages of its entries: none",
        start: Start::New(4),
        acts: &[Act::Compact, Act::See(Look::PagesOfSorted(4, 0))],
    },
    Story {
        name: "a packed index has the pages of its entries: 61 at a fan of 4",
        start: Start::New(4),
        acts: &[
            Act::InsertTo(61),
            Act::Compact,
            Act::See(Look::PagesOfSorted(4, 61)),
        ],
    },
    Story {
        name: "a packed index has the pages of its entries: 200 at a fan of 32",
        start: Start::New(32),
        acts: &[
            Act::InsertTo(200),
            Act::Compact,
            Act::See(Look::PagesOfSorted(32, 200)),
        ],
    },
    // Keys are taken away at a fan of 4. A hundred keys fill 25 leaves, below 7, 2 and 1 pages. With 13 leaves empty the other 12
    // have 48 keys, so the next deletion packs the 47 that are left: 12 leaves, below 3 and 1 pages. With 7 leaves of these empty
    // the next deletion packs 19: 5 leaves, below 2 and 1 pages.
    Story {
        name: "an index is packed where most of its leaves are empty",
        start: Start::Sorted(4, 100),
        acts: &[
            Act::DeleteAndCompact(1, 52),
            Act::See(Look::PageCount(35)),
            Act::DeleteAndCompact(53, 53),
            Act::See(Look::PageCount(16)),
            Act::DeleteAndCompact(54, 80),
            Act::See(Look::PageCount(16)),
            Act::DeleteAndCompact(81, 81),
            Act::See(Look::PageCount(8)),
            Act::DeleteAndCompact(82, 90),
            Act::See(Look::PageCount(8)),
        ],
    },
];

#[test]
fn indexes_are_packed(rt: HostRuntime) {
    go(&rt, rt.alloc(), &STORIES);
}

const UNSORTED: [(u8, &[u64], SortedError); 5] = [
    (3, &[2, 1], SortedError::BadFan),
    (33, &[], SortedError::BadFan),
    (4, &[1, 3, 2, 1], SortedError::NotAscending(2)),
    (4, &[5, 5], SortedError::NotAscending(1)),
    (4, &[1, 2, 3, 0], SortedError::NotAscending(3)),
];

// The entries of these keys are refused.
fn is_refused(rt: &impl Abort, alloc: Global, fan: u8, keys: &[u64], refusal: SortedError) {
    let mut entries = Vec::new(alloc);
    for &key in keys {
        given(rt, entries.push(Entry { key, pointer: 0 }));
    }
    let refused = Index::from_sorted(alloc, fan, &entries).err();
    same_for(rt, &refused, &Some(refusal), &(fan, keys));
}

#[test]
fn entries_that_do_not_ascend_are_refused(rt: HostRuntime) {
    for &(fan, keys, refusal) in &UNSORTED {
        is_refused(&rt, rt.alloc(), fan, keys, refusal);
    }
}

// Without `--fail-alloc` no memory is refused. With it one request is, and the same call then succeeds.
#[test]
fn refused_memory_leaves_an_index_as_it_was(rt: HostRuntime) {
    let mut index = index_of(&rt, rt.alloc(), Start::Five);
    let before = given(&rt, index.copy(rt.alloc()));
    if let Err(refusal) = index.compact(rt.alloc()) {
        same(&rt, &refusal, &EditError::OutOfMemory);
        assert!(&rt; index.rest().is_same(before.rest()));
    }
}

// The keys 1 to 90 of 100 taken away by one call, and the pages then: 10 keys in 3 leaves below a root.
#[test]
fn operations_in_place_end_with_a_packed_index(rt: HostRuntime) {
    let mut index = index_of(&rt, rt.alloc(), Start::Sorted(4, 100));
    let mut ops = Vec::new(rt.alloc());
    for key in 1..=90 {
        given(&rt, ops.push(Op::Delete(key)));
    }
    let applied = index.apply(rt.alloc(), &ops);
    same(&rt, &applied.refusal, &None);
    same(&rt, &index.page_count(), &4);
}
