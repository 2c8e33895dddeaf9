//! What a renewal and a close do where a session is held, and by whom a map is renewed.
use crate::shared::{hold, two};
use blink_batch::{Answer, Op};
use blink_map::GrowError;

// Whichever slot is empty, the sessions that were gathered are back in theirs afterwards.
#[test]
fn a_renewal_gives_up_where_a_session_is_held(rt: HostRuntime) {
    let alloc = rt.alloc();
    let (map, mut one, mut other) = two(&rt, alloc);
    let answer = map.try_change(&mut one, Op::Insert(7, 70), 1);
    assert_eq!(&rt; answer, Some(Answer::Inserted));
    let held = hold(&rt, &map, one);
    assert_eq!(&rt; map.try_renew(alloc, None, 2), Err(GrowError::Busy));
    assert_eq!(&rt; map.try_find(&mut other, 7, 1), Ok(Some(70)));
    let mut one = map.release(held);
    let held = hold(&rt, &map, other);
    assert_eq!(&rt; map.try_renew(alloc, None, 2), Err(GrowError::Busy));
    assert_eq!(&rt; map.try_find(&mut one, 7, 1), Ok(Some(70)));
    let mut other = map.release(held);
    assert_eq!(&rt; map.try_renew(alloc, None, 1), Ok(()));
    assert_eq!(&rt; map.try_find(&mut one, 7, 1), Ok(Some(70)));
    let answer = map.try_change(&mut other, Op::Delete(7), 1);
    assert_eq!(&rt; answer, Some(Answer::Removed(70)));
}

#[test]
fn a_map_with_a_lost_session_stays_open(rt: HostRuntime) {
    let alloc = rt.alloc();
    let (map, mut one, other) = two(&rt, alloc);
    let answer = map.try_change(&mut one, Op::Insert(7, 70), 1);
    assert_eq!(&rt; answer, Some(Answer::Inserted));
    let _lost = hold(&rt, &map, other);
    let Err(unclosed) = map.close(alloc, Vec::new(alloc)) else {
        assert!(&rt; false, "closed");
        return;
    };
    assert_eq!(&rt; unclosed.refusal, GrowError::Busy);
    assert_eq!(&rt; unclosed.map.try_find(&mut one, 7, 1), Ok(Some(70)));
}

#[test]
fn either_session_renews_the_map(rt: HostRuntime) {
    let alloc = rt.alloc();
    let (map, mut one, mut other) = two(&rt, alloc);
    let answer = map.try_change(&mut one, Op::Insert(7, 70), 1);
    assert_eq!(&rt; answer, Some(Answer::Inserted));
    assert_eq!(&rt; map.try_renew_by(alloc, &one, None, 1), Ok(()));
    assert_eq!(&rt; map.try_find(&mut other, 7, 1), Ok(Some(70)));
    let answer = map.try_change(&mut one, Op::Insert(8, 80), 1);
    assert_eq!(&rt; answer, Some(Answer::Inserted));
    assert_eq!(&rt; map.try_renew_by(alloc, &other, None, 1), Ok(()));
    assert_eq!(&rt; map.try_find(&mut one, 7, 1), Ok(Some(70)));
    assert_eq!(&rt; map.try_find(&mut other, 8, 1), Ok(Some(80)));
}
