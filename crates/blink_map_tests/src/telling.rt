//! A session tells another what it has seen.
use crate::same::same;
use crate::shared::two;
use blink_batch::{Answer, Op};

#[test]
fn a_session_that_was_told_finds_what_another_inserted(rt: HostRuntime) {
    let alloc = rt.alloc();
    let (map, mut one, mut other) = two(&rt, alloc);
    let answer = map.try_change(&mut one, Op::Insert(7, 70), 1);
    same(&rt, &answer, &Some(Answer::Inserted));
    same(&rt, &map.try_tell(&mut one, &mut other, 1), &Ok(()));
    same(&rt, &map.try_find(&mut other, 7, 1), &Ok(Some(70)));
    let answer = map.try_change(&mut other, Op::Delete(7), 1);
    same(&rt, &answer, &Some(Answer::Removed(70)));
    same(&rt, &map.try_renew(alloc, None, 1), &Ok(()));
    // the change was made in the map before
    same(&rt, &map.try_tell(&mut other, &mut one, 0), &Ok(()));
    same(&rt, &map.try_find(&mut one, 7, 1), &Ok(None));
    let answer = map.try_change(&mut one, Op::Insert(7, 71), 1);
    same(&rt, &answer, &Some(Answer::Inserted));
    same(&rt, &map.try_tell(&mut one, &mut other, 1), &Ok(()));
    same(&rt, &map.try_find(&mut other, 7, 1), &Ok(Some(71)));
}
