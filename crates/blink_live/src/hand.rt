//! Keys that change hands between two passes, without the keeper.
ghost use Rattle.std.specs.Prelude.{◌≡◌, ◌⊎◌, ◌↔◌, ℕ, [], IfOk, IfErr, OnOk, OnErr, IsErrOf, IsPermutation, IfSome, IfNone, Contains, ◌<◌};
ghost use Rattle.std.specs.List.Sorted.{IsStrictlyIncreasing};
ghost use Rattle.blink_live.specs.declared.view.Role.TheVariants.{Spent};
ghost use Rattle.blink_live.specs.Handing.{AllAreYours, IsFirstForeign, IsHandRefusal, IsHanded};
ghost use Rattle.blink_live.specs.Handles.{IsPassOf, keys_of};
ghost use Rattle.blink_live.specs.Parcels.{HaveMoved, parcel_of, parts_with, receives};
ghost use Rattle.blink_live.specs.Seats.{HasSameNumber, IsIdleIn, IsPassSeat};
ghost use Rattle.blink_live.specs.Views.{IsOwned, plan_of};

use crate::error::HandError;
use crate::keys::{Met, ascends, has_all, in_order, is_among, merged, remove_all, sorted};
use crate::live::{Live, Pass};
use crate::rule::{Handed, Part, Receive, Received};
use crate::view::View;
use atomic_table::Seat;
use std::alloc::{AllocError, Global};
use std::collections::BTreeSet;
use std::marker::Brand;

impl Live {
    /// Hands these keys from one pass to another, without the keeper. Afterwards `to` can change the keys and `from` can't: it
    /// glances at them as at any other. `to` has then seen all that `from` has seen. Each pass keeps its rows and page numbers.
    /// The call's work grows nearly linearly with the keys of the list and of both passes. If it refuses and memory is refused
    /// to it, it grows with the square of the list. It waits for nobody.
    ///
    /// The call refuses first with `NotYours`, which names the first key of the list that isn't one of `from`'s, or that stands
    /// earlier in the list. Then it refuses with `OutOfMemory`, if memory was refused. A refusal leaves both passes as they
    /// were.
    pub fn hand(&self, from: &mut Pass, to: &mut Pass, keys: &[u64]) -> Result<(), HandError>
        requires from_its_own { IsPassOf self.now from.old }
        requires to_its_own { IsPassOf self.now to.old }
        ensures handed { OnOk result (IsHanded self.now from.old to.old keys.now from.new to.new) }
        ensures yours { OnOk result (AllAreYours (keys_of from.old) keys.now) }
        ensures not_yours { (key : ℕ) → IsErrOf result (HandError.NotYours key)
            ↔ IsFirstForeign (keys_of from.old) keys.now key }
        ensures refused { IfErr result (IsHandRefusal (keys_of from.old) keys.now) }
        ensures from_unchanged { OnErr result (from.new ≡ from.old) }
        ensures to_unchanged { OnErr result (to.new ≡ to.old) }
    {
        let alloc = *to.keys.allocator();
        if let Ok((handed, all)) = both_lists(alloc, &to.keys, keys) {
            if ascends(&handed) && has_all(&from.keys, &handed) {
                self.hand_over(from, to, &handed, all);
                return Ok(());
            }
        }
        Err(refusal(alloc, &from.keys, keys))
    }

    // Hands the keys over, which are all keys of `from`. `all` are the keys that `to` has then. It takes no memory.
    fn hand_over(&self, from: &mut Pass, to: &mut Pass, handed: &[u64], all: Vec<u64>)
        requires from_its_own { IsPassOf self.now from.old }
        requires to_its_own { IsPassOf self.now to.old }
        requires yours { (key : ℕ) → Contains handed.now key → Contains (keys_of from.old) key }
        requires ascending { IsStrictlyIncreasing handed.now × IsStrictlyIncreasing all.items }
        requires all { (key : ℕ) → Contains all.items key
            ↔ (Contains (keys_of to.old) key ⊎ Contains handed.now key) }
        ensures { IsHanded self.now from.old to.old handed.now from.new to.new }
    {
        let Pass {
            seat: giver,
            keys,
            rows: _,
            pages: _,
        } = from;
        let Pass {
            seat,
            keys: own,
            rows: _,
            pages: _,
        } = to;
        self.move_keys(giver, seat, handed, &all);
        remove_all(keys, handed);
        *own = all;
    }

    // One seat gives these keys to another, which has all these keys then.
    fn move_keys(
        &self,
        giver: &mut Seat<u8, View>,
        taker: &mut Seat<u8, View>,
        keys: &[u64],
        all: &[u64],
    )
        requires giver { IsPassSeat self.now giver.old.table_id giver.old.me }
        requires taker { IsPassSeat self.now taker.old.table_id taker.old.me }
        requires owned { IsOwned giver.old.me.0.plan }
        requires yours { (key : ℕ) → Contains keys.now key → Contains giver.old.me.0.share.keys key }
        requires all { (key : ℕ) → Contains all.now key
            → Contains taker.old.me.0.share.keys key ⊎ Contains keys.now key }
        ensures same { HasSameNumber giver.old giver.new × HasSameNumber taker.old taker.new }
        ensures moved { HaveMoved keys.now all.now giver.old.me taker.old.me giver.new.me taker.new.me }
    {
        let parcel = self.part_with::<Brand>(giver, keys);
        self.receive::<Brand>(taker, parcel, all);
        self.look_up(taker);
        self.pass_on(taker, giver);
        self.look_back(giver);
    }

    // The pass's seat parts with these keys, which become a seat of their own, beside what the pass has seen.
    fn part_with<B: Handed>(&self, seat: &mut Seat<u8, View>, keys: &[u64]) -> Seat<u8, View>
        requires seat { IsPassSeat self.now seat.old.table_id seat.old.me }
        requires owned { IsOwned seat.old.me.0.plan }
        requires picked { keys.now ≡ B.keys }
        requires yours { (key : ℕ) → Contains keys.now key → Contains seat.old.me.0.share.keys key }
        ensures left { HasSameNumber seat.old seat.new
            × (seat.new.me ≡ (parts_with seat.old.me.0 keys.now, seat.old.me.1)) }
        ensures right { (result.table_id ≡ seat.old.table_id)
            × (result.me ≡ (parcel_of seat.old.me.0 keys.now, [])) }
    {
        self.table.shared.split_seat::<Part<B>>(seat)
    }

    // The pass's seat takes the keys that another has parted with. `keys` are all that it has then.
    fn receive<B: Received>(&self, seat: &mut Seat<u8, View>, parcel: Seat<u8, View>, keys: &[u64])
        requires seat { IsPassSeat self.now seat.old.table_id seat.old.me }
        requires owned { IsOwned seat.old.me.0.plan }
        requires same_table { parcel.table_id ≡ self.now.table.shared.table_id }
        requires picked { (keys.now ≡ B.keys) × (B.plan ≡ plan_of self.now.table.shared.key) }
        requires parcel { IsIdleIn Spent parcel.me }
        requires keys { (key : ℕ) → Contains keys.now key
            → Contains seat.old.me.0.share.keys key ⊎ Contains parcel.me.0.share.keys key }
        ensures same { HasSameNumber seat.old seat.new }
        ensures received { seat.new.me ≡ (receives seat.old.me.0 keys.now parcel.me.0, seat.old.me.1) }
    {
        self.table.shared.join_seat::<Receive<B>>(seat, parcel);
    }
}

// The refusal of a hand of these keys: that of a key, if memory isn't what is lacking.
fn refusal(alloc: Global, own: &[u64], keys: &[u64]) -> HandError
    requires ascending { IsStrictlyIncreasing own.now }
    ensures not_yours { (key : ℕ) → result ≡ HandError.NotYours key
        ↔ IsFirstForeign own.now keys.now key }
    ensures refused { IsHandRefusal own.now keys.now result }
{
    match first_foreign(alloc, own, keys) {
        Some(key) => HandError::NotYours(key),
        None => HandError::OutOfMemory,
    }
}

// Looks for the first key of a list, in the list's order, that isn't among these or stands earlier in the list.
fn first_foreign(alloc: Global, own: &[u64], keys: &[u64]) -> Option<u64>
    requires ascending { IsStrictlyIncreasing own.now }
    ensures first { IfSome result (IsFirstForeign own.now keys.now) }
    ensures none { IfNone result (AllAreYours own.now keys.now) }
{
    let mut met = Met {
        keys: BTreeSet::new(alloc),
        refused: false,
    };
    for place in 0..keys.len() {
        let key = keys[place];
        if met.meets_again(keys, place) || !is_among(own, key) {
            return Some(key);
        }
    }
    None
}

// These keys in order, and all keys of both lists in ascending order, each once.
fn both_lists(alloc: Global, own: &[u64], keys: &[u64]) -> Result<(Vec<u64>, Vec<u64>), AllocError>
    ensures ascending { IfOk result (λ lists. IsStrictlyIncreasing lists.1.items) }
    ensures handed { IfOk result (λ lists. IsPermutation keys.now lists.0.items) }
    ensures all { IfOk result (λ lists. (key : ℕ)
        → Contains lists.1.items key ↔ (Contains own.now key ⊎ Contains keys.now key)) }
{
    let handed = sorted(alloc, keys)?;
    let all = in_order(merged(alloc, own, &handed)?);
    Ok((handed, all))
}
