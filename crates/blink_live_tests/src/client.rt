//! Runs the table's tutorial. The first glance of its two threads may come before or after the insertion.
ghost use Rattle.std.specs.Prelude.{◌≡◌, [], Contains, None};
ghost use Rattle.blink_batch.specs.{pointer_of};
ghost use Rattle.blink_live.specs.{IsKeeperOf, IsPassOf, keys_of, seen_by, share_of};

use crate::indexes::filled;
use crate::same::{given, same};
use crate::shared::opened;
use blink_batch::Answer;
use blink_client::{
    count_own, deal_key, find_what_was_left, glance_at_nobodys_key, insert_and_show,
    insert_and_show_on, two_threads,
};
use blink_index::Index;
use blink_live::{Keeper, Live, LiveError, Pass};
use std::alloc::Global;
use std::process::Abort;
use std::sync::Wait;
use std::thread::Threads;

fn run_two<R: Threads + Wait + Abort + Sync>(rt: &R, alloc: Global, index: &Index) {
    let shown = given(rt, two_threads(rt, alloc, index, 5, 51));
    let glances = shown.expect(rt, "not inserted");
    same(rt, &glances.told, &Some(51));
    assert!(rt; matches!(glances.meanwhile, None | Some(51)), "{glances:?}");
}

#[test]
fn two_threads_show_an_entry(rt: HostRuntime) {
    let index = filled(&rt, rt.alloc(), 0, 4);
    for _ in 0..8 {
        run_two(&rt, rt.alloc(), &index);
    }
    same(&rt, &two_threads(&rt, rt.alloc(), &index, 4, 51), &Ok(None));
}

// A table of the keys 1 to 4, and a pass with key 5 and an insertion.
#[derive(Drop)]
struct NewKey {
    live: Live,
    keeper: Keeper,
    one: Pass,
}

fn with_new_key(rt: &impl Abort, alloc: Global) -> NewKey
    ensures its_keeper { IsKeeperOf result.live result.keeper }
    ensures none_back { seen_by result.keeper ≡ [] }
    ensures its_own { IsPassOf result.live result.one }
    ensures own_key { Contains (keys_of result.one) 5 }
    ensures new_key { pointer_of (share_of result.one) 5 ≡ None }
{
    let index = filled(rt, alloc, 0, 4);
    assert!(rt; index.find(5).is_none(), "the key is there");
    let (live, mut keeper) = opened(rt, alloc, &index, (1, 0));
    let one = deal_key(alloc, &live, &mut keeper, 5, 1).expect(rt, "no pass");
    NewKey { live, keeper, one }
}

// A pass without keys.
fn without_keys(rt: &impl Abort, alloc: Global, live: &Live, keeper: &mut Keeper) -> Pass
    requires its_keeper { IsKeeperOf live.now keeper.old }
    requires none_back { seen_by keeper.old ≡ [] }
    ensures pass { IsPassOf live.now result }
    ensures its_keeper { IsKeeperOf live.now keeper.new }
    ensures none_back { seen_by keeper.new ≡ [] }
{
    live.deal(keeper, Vec::new(alloc), 0, 0)
        .expect(rt, "no pass")
}

#[test]
fn insert_and_show_returns_the_entry(rt: HostRuntime) {
    let NewKey {
        live,
        mut keeper,
        mut one,
    } = with_new_key(&rt, rt.alloc());
    let mut other = without_keys(&rt, rt.alloc(), &live, &mut keeper);
    let shown = insert_and_show(&rt, &live, &mut one, &mut other, 5, 50);
    same(&rt, &shown, &Some(Some(50)));
}

#[test]
fn insert_and_show_on_returns_the_entry(rt: HostRuntime) {
    let NewKey {
        live,
        mut keeper,
        mut one,
    } = with_new_key(&rt, rt.alloc());
    let mut other = without_keys(&rt, rt.alloc(), &live, &mut keeper);
    let mut third = without_keys(&rt, rt.alloc(), &live, &mut keeper);
    let shown = insert_and_show_on(&rt, &live, &mut one, &mut other, &mut third, 5, 50);
    same(&rt, &shown, &Some(Some(50)));
}

fn glance(
    rt: &impl Abort,
    alloc: Global,
    live: &Live,
    keeper: &mut Keeper,
    pass: &mut Pass,
    key: u64,
    expected: Result<Option<u64>, LiveError>,
)
    requires its_keeper { IsKeeperOf live.now keeper.old }
    requires none_back { seen_by keeper.old ≡ [] }
    requires its_pass { IsPassOf live.now pass.old }
    ensures its_keeper { IsKeeperOf live.now keeper.new }
    ensures none_back { seen_by keeper.new ≡ [] }
    ensures its_pass { IsPassOf live.now pass.new }
{
    let given = glance_at_nobodys_key(alloc, live, keeper, pass, key);
    same(rt, &given, &expected);
}

// Key 3 has its opening entry, and key 6 has none. A key that is dealt already is refused.
#[test]
fn glance_at_nobodys_key_returns_the_opening_state(rt: HostRuntime) {
    let alloc = rt.alloc();
    let (live, mut keeper) = opened(&rt, alloc, &filled(&rt, alloc, 0, 4), (1, 0));
    let mut pass = without_keys(&rt, alloc, &live, &mut keeper);
    glance(&rt, alloc, &live, &mut keeper, &mut pass, 3, Ok(Some(30)));
    glance(&rt, alloc, &live, &mut keeper, &mut pass, 6, Ok(None));
    let taken = Err(LiveError::Taken(3));
    glance(&rt, alloc, &live, &mut keeper, &mut pass, 3, taken);
}

#[test]
fn find_what_was_left_finds_the_entry(rt: HostRuntime) {
    let NewKey {
        live,
        mut keeper,
        one,
    } = with_new_key(&rt, rt.alloc());
    let found = find_what_was_left(&rt, rt.alloc(), &live, &mut keeper, one, 5, 50);
    same(&rt, &found, &Ok(Some(Answer::Found(50))));
}

// Counts the entries of key 5 alone.
fn count_five(rt: &impl Abort, live: &Live, pass: &mut Pass, expected: u64)
    requires its_own { IsPassOf live.now pass.old }
    requires own_key { Contains (keys_of pass.old) 5 }
    ensures its_own { IsPassOf live.now pass.new }
    ensures own_key { Contains (keys_of pass.new) 5 }
{
    let count = count_own(live, pass, 5, 6);
    same(rt, &count, &expected);
}

#[test]
fn count_own_counts_what_the_pass_inserts(rt: HostRuntime) {
    let NewKey {
        live,
        keeper: _keeper,
        mut one,
    } = with_new_key(&rt, rt.alloc());
    count_five(&rt, &live, &mut one, 0);
    let inserted = live.insert(&rt, &mut one, 5, 50);
    same(&rt, &inserted, &Ok(Answer::Inserted));
    count_five(&rt, &live, &mut one, 1);
}
