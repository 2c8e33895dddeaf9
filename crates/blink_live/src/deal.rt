//! Dealing: the keeper gives a new pass keys, rows and page numbers. Here are also the reads of a keeper's and a pass's own
//! fields.
ghost use Rattle.std.specs.Prelude.{◌≡◌, ◌⊎◌, ◌↔◌, ℕ, ◌+◌, ◌*◌, IfOk, IfErr, OnOk, OnErr, IsErrOf, IsTrue, Contains, [], ◌<◌, IfSome, IfNone};
ghost use Rattle.std.specs.List.Sorted.{IsStrictlyIncreasing};
ghost use Rattle.blink_page.specs.declared.limits.TheConstants.{MAX_NEW_PAGES_PER_INSERT};
ghost use Rattle.blink_live.specs.Dealing.{CanDeal};
ghost use Rattle.blink_live.specs.Deals.{IsFirstTaken, NoneIsTaken, LacksAllowance, IsDealt, HasDealt, IsDealRefusal};
ghost use Rattle.blink_live.specs.Handles.{IsKeeperOf, taken_of, keys_of, passes_out};
ghost use Rattle.blink_live.specs.Seats.{HasSameNumber};
ghost use Rattle.blink_live.specs.Views.{keeps_rest, gets_first};

use crate::error::LiveError;
use crate::keys::{Met, ascends, is_among, joined};
use crate::live::{Keeper, Live, Pass};
use crate::room::{deletes_left, first_of, inserts_left};
use crate::rule::{Deal, Dealt};
use crate::view::View;
use atomic_table::Seat;
use blink_rows::{MAX_NEW_PAGES_PER_INSERT, MAX_ROWS_PER_INSERT, Span};
use std::alloc::Global;
use std::collections::BTreeSet;
use std::marker::Brand;

impl Live {
    /// Deals a pass with these keys, which no other pass has. The pass has room for `inserts` insertions and `deletes`
    /// deletions. A key that was never dealt begins with the entry that the table was opened with; a key that came back
    /// begins with what its last pass left. The pass has seen all that the keeper has seen. The call's work grows nearly
    /// linearly with the keys and those that are taken. If it refuses and memory is refused to it, it grows with the square
    /// of the keys.
    ///
    /// The call refuses first with `Taken`, which names the first key of the list that a pass has which is out, or that stands
    /// earlier in the list. Then it refuses with `NoAllowance` exactly if the keeper has fewer insertions or deletions left, or
    /// has dealt 4,294,967,295 passes. Then it refuses with `DealOutOfMemory`, if memory was refused. A refusal leaves the
    /// keeper as it was; the list is given up.
    pub fn deal(
        &self,
        keeper: &mut Keeper,
        keys: Vec<u64>,
        inserts: u32,
        deletes: u32,
    ) -> Result<Pass, LiveError>
        requires its_own { IsKeeperOf self.now keeper.old }
        ensures dealt { IfOk result (λ pass. IsDealt self.now keeper.old keys.items inserts deletes pass) }
        ensures rest { OnOk result (HasDealt self.now keeper.old keeper.new keys.items inserts deletes) }
        ensures free { OnOk result (NoneIsTaken (taken_of keeper.old) keys.items) }
        ensures allowed { OnOk result (¬ LacksAllowance keeper.old inserts deletes) }
        ensures taken { (key : ℕ) → IsErrOf result (LiveError.Taken key)
            ↔ IsFirstTaken (taken_of keeper.old) keys.items key }
        ensures no_allowance { IsErrOf result LiveError.NoAllowance
            ↔ (NoneIsTaken (taken_of keeper.old) keys.items × LacksAllowance keeper.old inserts deletes) }
        ensures refused { IfErr result IsDealRefusal }
        ensures unchanged { OnErr result (keeper.new ≡ keeper.old) }
    {
        match keeper.taken_with(&keys, inserts, deletes) {
            Ok(taken) => Ok(self.hand_out(keeper, keys, taken, inserts, deletes)),
            Err(refusal) => Err(refusal),
        }
    }

    // Deals from what the keeper has left. It takes no memory.
    fn hand_out(
        &self,
        keeper: &mut Keeper,
        mut keys: Vec<u64>,
        taken_now: Vec<u64>,
        inserts: u32,
        deletes: u32,
    ) -> Pass
        requires its_own { IsKeeperOf self.now keeper.old }
        requires free { NoneIsTaken (taken_of keeper.old) keys.items }
        requires allowed { ¬ LacksAllowance keeper.old inserts deletes }
        requires ascending { IsStrictlyIncreasing taken_now.items }
        requires taken { (key : ℕ) → Contains taken_now.items key
            ↔ (Contains (taken_of keeper.old) key ⊎ Contains keys.items key) }
        ensures dealt { IsDealt self.now keeper.old keys.items inserts deletes result }
        ensures rest { HasDealt self.now keeper.old keeper.new keys.items inserts deletes }
    {
        let Keeper {
            seat,
            taken,
            rows,
            pages,
            dealt,
            back: _,
        } = keeper;
        keys.sort_unstable();
        let row_count = MAX_ROWS_PER_INSERT * u64::from(inserts) + u64::from(deletes);
        let page_count = MAX_NEW_PAGES_PER_INSERT * u64::from(inserts);
        let seat = self.split_seat::<Brand>(seat, &keys, &taken_now, row_count, page_count);
        *taken = taken_now;
        *dealt += 1;
        Pass {
            seat,
            keys,
            rows: first_of(rows, row_count),
            pages: first_of(pages, page_count),
        }
    }

    // Splits the keeper's seat. The new seat gets the keys and the first rows and page numbers; the keeper's seat keeps the
    // rest.
    pub fn split_seat<B: Dealt>(
        &self,
        seat: &mut Seat<u8, View>,
        keys: &[u64],
        taken: &[u64],
        rows: u64,
        pages: u64,
    ) -> Seat<u8, View>
        requires same_table { seat.old.table_id ≡ self.now.table.shared.table_id }
        requires picked { (keys.now ≡ B.keys) × (taken.now ≡ B.taken)
            × (rows ≡ B.rows) × (pages ≡ B.pages) }
        requires can { CanDeal seat.old.me.0 rows pages keys.now taken.now }
        ensures left { HasSameNumber seat.old seat.new
            × (seat.new.me ≡ (keeps_rest seat.old.me.0 rows pages taken.now, seat.old.me.1)) }
        ensures right { (result.table_id ≡ seat.old.table_id)
            × (result.me ≡ (gets_first seat.old.me.0 rows pages keys.now, [])) }
    {
        self.table.shared.split_seat::<Deal<B>>(seat)
    }
}

impl Keeper {
    /// Returns the keys that were dealt and haven't come back, in ascending order.
    pub fn taken(&self) -> &[u64]
        ensures { result.now ≡ taken_of self.now }
    {
        &self.taken
    }

    /// Returns the number of passes that were dealt.
    pub fn dealt(&self) -> u32
        ensures { result ≡ self.now.dealt }
    {
        self.dealt
    }

    /// Returns the number of passes that are out: those that were dealt and haven't come back.
    pub fn out(&self) -> u32
        ensures { result ≡ passes_out self.now }
    {
        self.dealt - self.back
    }

    /// Returns the rows that weren't dealt.
    pub fn rows(&self) -> Span
        ensures { result ≡ self.now.rows }
    {
        self.rows
    }

    /// Returns the page numbers that weren't dealt.
    pub fn pages(&self) -> Span
        ensures { result ≡ self.now.pages }
    {
        self.pages
    }

    // All keys that are taken once these are dealt too, in ascending order and each once; or the refusal of the deal.
    fn taken_with(&self, keys: &[u64], inserts: u32, deletes: u32) -> Result<Vec<u64>, LiveError>
        ensures free { OnOk result (NoneIsTaken (taken_of self.now) keys.now) }
        ensures allowed { OnOk result (¬ LacksAllowance self.now inserts deletes) }
        ensures ascending { IfOk result (λ all. IsStrictlyIncreasing all.items) }
        ensures all { IfOk result (λ all. (key : ℕ)
            → Contains all.items key ↔ (Contains (taken_of self.now) key ⊎ Contains keys.now key)) }
        ensures taken { (key : ℕ) → IsErrOf result (LiveError.Taken key)
            ↔ IsFirstTaken (taken_of self.now) keys.now key }
        ensures no_allowance { IsErrOf result LiveError.NoAllowance
            ↔ (NoneIsTaken (taken_of self.now) keys.now × LacksAllowance self.now inserts deletes) }
        ensures refused { IfErr result IsDealRefusal }
    {
        let alloc = *self.taken.allocator();
        if let Ok(all) = joined(alloc, &self.taken, keys) {
            if ascends(&all) && !self.lacks_allowance(inserts, deletes) {
                return Ok(all);
            }
        }
        Err(self.refusal(keys, inserts, deletes))
    }

    // The refusal of a deal of these keys: which one, if memory isn't what is lacking.
    fn refusal(&self, keys: &[u64], inserts: u32, deletes: u32) -> LiveError
        ensures taken { (key : ℕ) → result ≡ LiveError.Taken key
            ↔ IsFirstTaken (taken_of self.now) keys.now key }
        ensures no_allowance { result ≡ LiveError.NoAllowance
            ↔ (NoneIsTaken (taken_of self.now) keys.now × LacksAllowance self.now inserts deletes) }
        ensures refused { IsDealRefusal result }
    {
        let alloc = *self.taken.allocator();
        match first_taken(alloc, &self.taken, keys) {
            Some(key) => LiveError::Taken(key),
            None if self.lacks_allowance(inserts, deletes) => LiveError::NoAllowance,
            None => LiveError::DealOutOfMemory,
        }
    }

    // Whether the keeper has fewer insertions or deletions left, or has dealt as many passes as it may.
    fn lacks_allowance(&self, inserts: u32, deletes: u32) -> bool
        ensures { IsTrue result ↔ LacksAllowance self.now inserts deletes }
    {
        inserts_left(&self.pages) < u64::from(inserts)
            || deletes_left(&self.pages, &self.rows) < u64::from(deletes)
            || self.dealt == u32::MAX
    }
}

impl Pass {
    /// Returns the pass's keys, in ascending order.
    pub fn keys(&self) -> &[u64]
        ensures { result.now ≡ keys_of self.now }
    {
        &self.keys
    }

    /// Returns the rows that the pass's operations may still use.
    pub fn rows(&self) -> Span
        ensures { result ≡ self.now.rows }
    {
        self.rows
    }

    /// Returns the page numbers that the pass's operations may still use.
    pub fn pages(&self) -> Span
        ensures { result ≡ self.now.pages }
    {
        self.pages
    }

    // Whether the key is one of the pass's.
    pub(crate) fn has(&self, key: u64) -> bool
        ensures { IsTrue result ↔ Contains (keys_of self.now) key }
    {
        is_among(&self.keys, key)
    }
}

// Looks for the first key of a list, in the list's order, that was taken before or stands earlier in the list.
fn first_taken(alloc: Global, taken: &[u64], keys: &[u64]) -> Option<u64>
    requires ascending { IsStrictlyIncreasing taken.now }
    ensures first { IfSome result (IsFirstTaken taken.now keys.now) }
    ensures none { IfNone result (NoneIsTaken taken.now keys.now) }
{
    let mut met = Met {
        keys: BTreeSet::new(alloc),
        refused: false,
    };
    for place in 0..keys.len() {
        let key = keys[place];
        if met.meets_again(keys, place) || is_among(taken, key) {
            return Some(key);
        }
    }
    None
}
