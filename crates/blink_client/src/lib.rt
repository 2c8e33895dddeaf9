//! What callers of a table know from its contracts alone.
#![tactic(auto)]

mod count;
mod counter;

ghost use Rattle.std.specs.Prelude.{◌≡◌, ◌≢◌, ℕ, Some, None, [], Contains, IfOk, OnErr, OnOk};
ghost use Rattle.blink_batch.specs.{pointer_of};
ghost use Rattle.blink_batch.specs.declared.Op.TheVariants.{Insert};
ghost use Rattle.blink_live.specs.{after, IsChangedBy, IsKeeperOf, IsPassOf, IsSameBesideSeen, keys_of, opening_of, own_changes_of, seen_by, seen_of, share_of};
ghost use Rattle.blink_client.specs.Shown.{IsFound, IsNewWith, IsShown, IsShownTwice};

use blink_batch::Answer;
use blink_index::Index;
use blink_live::{Keeper, Live, LiveError, Pass, PassError};
use blink_rows::Allowance;
pub use count::count_own;
pub use counter::raise_own;
use std::alloc::Global;
use std::sync::Wait;
use std::thread::{Threads, join_mut};

/// One pass inserts an entry and tells another pass. That pass glances and tells back: the glance returned the entry.
pub fn insert_and_show<R: Wait>(
    rt: &R,
    live: &Live,
    one: &mut Pass,
    other: &mut Pass,
    key: u64,
    pointer: u64,
) -> Option<Option<u64>>
    requires ones { IsPassOf live.now one.old }
    requires others { IsPassOf live.now other.old }
    requires own_key { Contains (keys_of one.old) key }
    requires new_key { pointer_of (share_of one.old) key ≡ None }
    ensures shown { IsShown pointer result }
{
    if live.insert(rt, one, key, pointer).is_err() {
        return None;
    }
    live.tell(one, other);
    let shown = live.glance(other, key);
    live.tell(other, one);
    Some(shown)
}

/// The same with a third pass: the second tells it, and it glances.
pub fn insert_and_show_on<R: Wait>(
    rt: &R,
    live: &Live,
    one: &mut Pass,
    other: &mut Pass,
    third: &mut Pass,
    key: u64,
    pointer: u64,
) -> Option<Option<u64>>
    requires ones { IsPassOf live.now one.old }
    requires others { IsPassOf live.now other.old }
    requires thirds { IsPassOf live.now third.old }
    requires own_key { Contains (keys_of one.old) key }
    requires new_key { pointer_of (share_of one.old) key ≡ None }
    ensures shown { IsShown pointer result }
{
    if live.insert(rt, one, key, pointer).is_err() {
        return None;
    }
    live.tell(one, other);
    live.tell(other, third);
    let shown = live.glance(third, key);
    live.tell(third, one);
    Some(shown)
}

/// Opens a table over an index that lacks the key, deals a pass with the key and one without, and has them run as
/// `insert_beside_a_reader` says. It returns what was shown: nothing, if the index has the key, or the insertion was refused.
pub fn two_threads<R: Threads + Wait + Sync>(
    rt: &R,
    alloc: Global,
    index: &Index,
    key: u64,
    pointer: u64,
) -> Result<Option<Glances>, LiveError>
    ensures shown { IfOk result (IsShownTwice pointer) }
{
    if index.find(key).is_some() {
        return Ok(None);
    }
    let allowance = Allowance {
        inserts: 1,
        deletes: 0,
    };
    let (live, mut keeper) = Live::open(alloc, index, allowance)?;
    let mut one = deal_key(alloc, &live, &mut keeper, key, 1)?;
    let mut other = live.deal(&mut keeper, Vec::new(alloc), 0, 0)?;
    Ok(insert_beside_a_reader(rt, &live, &mut one, &mut other, key, pointer))
}

/// Deals a pass with this key, and with an allowance of so many insertions. The call refuses where `Live::deal` does, and for want
/// of memory for the list of the one key.
pub fn deal_key(
    alloc: Global,
    live: &Live,
    keeper: &mut Keeper,
    key: u64,
    inserts: u32,
) -> Result<Pass, LiveError>
    requires its_own { IsKeeperOf live.now keeper.old }
    requires none_back { seen_by keeper.old ≡ [] }
    ensures new { IfOk result (IsNewWith live.now key) }
    ensures its_keeper { IsKeeperOf live.now keeper.new }
    ensures none_back { seen_by keeper.new ≡ [] }
{
    let mut keys = Vec::new(alloc);
    if keys.push(key).is_err() {
        return Err(LiveError::DealOutOfMemory);
    }
    live.deal(keeper, keys, inserts, 0)
}

/// Glances at a key that was never dealt, and shows what it returned to be the opening state: it deals the key, and its new owner,
/// who has made no change, tells the pass. The call refuses where the deal does.
pub fn glance_at_nobodys_key(
    alloc: Global,
    live: &Live,
    keeper: &mut Keeper,
    pass: &mut Pass,
    key: u64,
) -> Result<Option<u64>, LiveError>
    requires its_keeper { IsKeeperOf live.now keeper.old }
    requires none_back { seen_by keeper.old ≡ [] }
    requires its_pass { IsPassOf live.now pass.old }
    ensures opening { IfOk result (λ shown. shown ≡ pointer_of (opening_of live.now) key) }
    ensures its_keeper { IsKeeperOf live.now keeper.new }
    ensures none_back { seen_by keeper.new ≡ [] }
    ensures its_pass { IsPassOf live.now pass.new }
{
    let shown = live.glance(pass, key);
    let mut owner = deal_key(alloc, live, keeper, key, 0)?;
    live.tell(&mut owner, pass);
    Ok(shown)
}

/// Two passes, one after the other, on the same new key. The first inserts an entry and comes back; then the key is dealt again,
/// and the second pass looks it up. It returns what the second found: the entry, or nothing, if the insertion was refused. The
/// two may be in two threads. The call refuses where `Live::deal` does, and for want of memory for the list of the one key.
pub fn find_what_was_left<R: Wait>(
    rt: &R,
    alloc: Global,
    live: &Live,
    keeper: &mut Keeper,
    mut one: Pass,
    key: u64,
    pointer: u64,
) -> Result<Option<Answer>, LiveError>
    requires its_keeper { IsKeeperOf live.now keeper.old }
    requires ones { IsPassOf live.now one }
    requires own_key { Contains (keys_of one) key }
    requires new_key { pointer_of (share_of one) key ≡ None }
    ensures found { IfOk result (IsFound pointer) }
{
    if live.insert(rt, &mut one, key, pointer).is_err() {
        return Ok(None);
    }
    live.retire(keeper, one);
    let mut keys = Vec::new(alloc);
    if keys.push(key).is_err() {
        return Err(LiveError::DealOutOfMemory);
    }
    let mut other = live.deal(keeper, keys, 0, 0)?;
    match live.find(&mut other, key) {
        Ok(answer) => Ok(Some(answer)),
        Err(_) => Ok(None),
    }
}

/// What two glances at a key returned: one while another thread inserted the key, and one after its pass had told.
#[derive(Clone, Copy, Debug, PartialEq, Eq)]
pub struct Glances {
    pub meanwhile: Option<u64>,
    pub told: Option<u64>,
}

/// Two threads: in the one a pass inserts an entry for a new key, and in the other another pass glances at the key meanwhile.
/// Then the first tells the second, which glances again, and tells back. The first glance returned nothing or the entry, the
/// second the entry.
pub fn insert_beside_a_reader<R: Threads + Wait + Sync>(
    rt: &R,
    live: &Live,
    one: &mut Pass,
    other: &mut Pass,
    key: u64,
    pointer: u64,
) -> Option<Glances>
    requires ones { IsPassOf live.now one.old }
    requires others { IsPassOf live.now other.old }
    requires own_key { Contains (keys_of one.old) key }
    requires new_key { pointer_of (share_of one.old) key ≡ None }
    requires not_there { pointer_of (opening_of live.now) key ≡ None }
    requires none_made { own_changes_of one.old key ≡ [] }
    ensures shown { IsShownTwice pointer result }
{
    let (inserted, meanwhile) = side_by_side(rt, live, one, other, key, pointer);
    if inserted.is_err() {
        return None;
    }
    live.tell(one, other);
    let told = live.glance(other, key);
    live.tell(other, one);
    Some(Glances { meanwhile, told })
}

// Inserts by the one pass in a thread of its own, and glances by the other in this one.
fn side_by_side<R: Threads + Wait + Sync>(
    rt: &R,
    live: &Live,
    one: &mut Pass,
    other: &mut Pass,
    key: u64,
    pointer: u64,
) -> (Result<Answer, PassError>, Option<u64>)
    requires ones { IsPassOf live.now one.old }
    requires others { IsPassOf live.now other.old }
    ensures changed { OnOk result.0 (IsChangedBy (Insert key pointer) one.old one.new) }
    ensures unchanged { OnErr result.0 (one.new ≡ one.old) }
    ensures state { result.1 ≡ after (pointer_of (opening_of live.now)) (seen_of other.new) key }
    ensures same { IsSameBesideSeen other.old other.new }
{
    join_mut(
        rt,
        &mut || live.insert(rt, one, key, pointer),
        &mut || live.glance(other, key),
    )
}
