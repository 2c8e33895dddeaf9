//! Each law's program is run once, over a small index.
use crate::counter::count_by_two;
use crate::race::two_insert;
use crate::shown::{insert_and_show, open_and_find};
use crate::whole::{close_with_all, open_and_close};
use blink_batch::Answer;
use blink_index::Index;
use blink_map::GrowingMap;

#[test]
fn a_map_that_nobody_changes_closes_as_it_was_opened(rt: HostRuntime) {
    let alloc = rt.alloc();
    let mut index = Index::new(alloc, 4).expect(&rt, "no index");
    index.insert(5, 50).expect(&rt, "no memory");
    let closed = open_and_close(alloc, &index, 256).expect(&rt, "not closed");
    assert_eq!(&rt; (closed.len(), closed.find(5)), (1, Some(50)));
}

#[test]
fn a_map_has_what_its_index_has(rt: HostRuntime) {
    let alloc = rt.alloc();
    let mut index = Index::new(alloc, 4).expect(&rt, "no index");
    index.insert(5, 50).expect(&rt, "no memory");
    assert_eq!(&rt; open_and_find(&rt, alloc, &index, 256, 5), Ok(Some(50)));
    assert_eq!(&rt; open_and_find(&rt, alloc, &index, 256, 6), Ok(None));
}

#[test]
fn a_session_that_is_told_finds_what_another_inserted(rt: HostRuntime) {
    let alloc = rt.alloc();
    let index = Index::new(alloc, 4).expect(&rt, "no index");
    assert_eq!(&rt; insert_and_show(&rt, alloc, &index, 2, 9, 90), Ok(Some(90)));
}

#[test]
fn a_map_closes_with_all_its_sessions(rt: HostRuntime) {
    let alloc = rt.alloc();
    let (map, sessions) = GrowingMap::new(alloc, 3).expect(&rt, "no map");
    match close_with_all(alloc, map, sessions) {
        Ok(closed) => assert_eq!(&rt; closed.len(), 0),
        Err(_) => assert!(&rt; false),
    }
}

#[test]
fn one_of_two_threads_inserts(rt: HostRuntime) {
    let alloc = rt.alloc();
    let index = Index::new(alloc, 4).expect(&rt, "no index");
    let answers = two_insert(&rt, alloc, &index, 256, 9, (90, 91)).expect(&rt, "refused");
    let is_first = answers == (Answer::Inserted, Answer::Exists(90));
    let is_second = answers == (Answer::Exists(91), Answer::Inserted);
    assert!(&rt; is_first || is_second);
}

#[test]
fn a_counter_has_every_raise_of_two_threads(rt: HostRuntime) {
    let alloc = rt.alloc();
    let mut index = Index::new(alloc, 4).expect(&rt, "no index");
    index.insert(5, 50).expect(&rt, "no memory");
    let (by_one, by_other, closed) = count_by_two(&rt, alloc, &index, 256, 5, (100, 50)).expect(
        &rt, "refused",
    );
    assert_eq!(&rt; (by_one, by_other, closed.find(5)), (100, 50, Some(200)));
}
