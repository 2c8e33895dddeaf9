//! The operations of a pass on its own keys: find, insert, delete, replace, exchange and delete_exact, and change, which has the last five by
//! the operation.
ghost use Rattle.std.specs.Prelude.{◌≡◌, ◌≢◌, ◌↔◌, IsTrue, IfErr, IfOk, OnErr, OnOk, IsErrOf, Contains, None};
ghost use mathlib.Core.List.{IsPrefix};
ghost use Rattle.blink_batch.specs.{answer_at, answer_of, key_of, FitsWords};
ghost use Rattle.blink_batch.specs.declared.Op.TheVariants.{Find, Delete, DeleteExact, Exchange, Insert, Replace};
ghost use Rattle.blink_machine.specs.{IsUpdate};
ghost use Rattle.blink_rows.specs.{row_in};
ghost use Rattle.blink_live.specs.Handles.{IsPassOf, IsSameBesideSeen, KnowsItsKeys, keys_of, share_of, IsChangedBy};
ghost use Rattle.blink_live.specs.Seats.{HasSameNumber, IsPassSeat, ReadsLeaf};
ghost use Rattle.blink_live.specs.Views.{CanBegin, SameBesideReads, for_call, KnowsItsOwn, known_of};
ghost use Rattle.blink_live.specs.Words.{IsRowNumber};
ghost use Rattle.blink_live.specs.Allowed.{changes_left, deletes_left, inserts_left};

use crate::error::PassError;
use crate::find_all::{Trail, hint_at};
use crate::live::{Live, Pass};
use crate::room::{changes_left, next_of};
use crate::view::View;
use atomic_table::Seat;
use blink_batch::{Answer, Op};
use blink_page::Way;
use std::sync::Wait;

impl Live {
    /// Looks up a key of the pass. It answers `Found` with the key's record pointer, or `Absent`, whatever other passes do at the
    /// same time. It takes no memory, waits for nobody, and returns.
    ///
    /// The call refuses with `NotYours` for every key that isn't one of the pass's; then it reads nothing.
    pub fn find(&self, pass: &mut Pass, key: u64) -> Result<Answer, PassError>
        requires its_own { IsPassOf self.now pass.old }
        ensures answer { IfOk result (λ answer. answer ≡ answer_of (share_of pass.old) (Find key)) }
        ensures knows { OnOk result (KnowsItsKeys self.now pass.new) }
        ensures not_yours { IsErrOf result PassError.NotYours ↔ ¬ Contains (keys_of pass.old) key }
        ensures refused { IfErr result (λ refusal. refusal ≡ PassError.NotYours) }
        ensures same { IsSameBesideSeen pass.old pass.new }
        ensures unchanged { OnErr result (pass.new ≡ pass.old) }
    {
        if !pass.has(key) {
            return Err(PassError::NotYours);
        }
        let Pass {
            seat,
            keys: _,
            rows: _,
            pages: _,
        } = pass;
        Ok(self.search(seat, key, None))
    }

    /// Adds an entry for a key of the pass. It answers `Inserted`, or `Exists` with the record pointer that the key has, which
    /// stays, whatever other passes do at the same time. Each accepted call uses one insertion of the pass, whatever it answers:
    /// the next 22 of its page numbers and the next 44 of its rows. It takes no memory. It waits for a page's latch that another
    /// pass has, and for a new root that another pass is about to make.
    ///
    /// The call refuses with `NotYours` for every key that isn't one of the pass's; then with `Spent`, if the pass has no
    /// insertion left. A refused call changes nothing and reads nothing.
    pub fn insert<R: Wait>(
        &self,
        rt: &R,
        pass: &mut Pass,
        key: u64,
        pointer: u64,
    ) -> Result<Answer, PassError>
        requires its_own { IsPassOf self.now pass.old }
        ensures answer { IfOk result
            (λ answer. answer ≡ answer_of (share_of pass.old) (Insert key pointer)) }
        ensures changed { OnOk result (IsChangedBy (Insert key pointer) pass.old pass.new) }
        ensures knows { OnOk result (KnowsItsKeys self.now pass.new) }
        ensures not_yours { IsErrOf result PassError.NotYours ↔ ¬ Contains (keys_of pass.old) key }
        ensures spent { IsErrOf result PassError.Spent
            ↔ (Contains (keys_of pass.old) key × (inserts_left pass.old.pages ≡ 0)) }
        ensures unchanged { OnErr result (pass.new ≡ pass.old) }
    {
        self.change(rt, pass, Op::Insert(key, pointer))
    }

    /// Removes a key of the pass. It answers `Removed` with the key's record pointer, or `Absent` if the tree lacks the key,
    /// whatever other passes do at the same time. Each accepted call uses one deletion of the pass, whatever it answers: the
    /// next of its rows. It takes no memory, and waits for a page's latch that another pass has.
    ///
    /// The call refuses with `NotYours` for every key that isn't one of the pass's; then with `Spent`, if the pass has no
    /// deletion left. A refused call changes nothing and reads nothing.
    pub fn delete<R: Wait>(&self, rt: &R, pass: &mut Pass, key: u64) -> Result<Answer, PassError>
        requires its_own { IsPassOf self.now pass.old }
        ensures answer { IfOk result (λ answer. answer ≡ answer_of (share_of pass.old) (Delete key)) }
        ensures changed { OnOk result (IsChangedBy (Delete key) pass.old pass.new) }
        ensures knows { OnOk result (KnowsItsKeys self.now pass.new) }
        ensures not_yours { IsErrOf result PassError.NotYours ↔ ¬ Contains (keys_of pass.old) key }
        ensures spent { IsErrOf result PassError.Spent
            ↔ (Contains (keys_of pass.old) key × (deletes_left pass.old.pages pass.old.rows ≡ 0)) }
        ensures unchanged { OnErr result (pass.new ≡ pass.old) }
    {
        self.change(rt, pass, Op::Delete(key))
    }

    /// Replaces the record pointer of a key of the pass. It answers `Replaced` with the pointer before, also if both are the
    /// same, or `Absent` if the tree lacks the key, whatever other passes do at the same time. Each accepted call uses one
    /// deletion of the pass, whatever it answers: the next of its rows. It takes no memory, and waits for a page's latch that
    /// another pass has.
    ///
    /// The call refuses with `NotYours` for every key that isn't one of the pass's; then with `Spent`, if the pass has no
    /// deletion left. A refused call changes nothing and reads nothing.
    pub fn replace<R: Wait>(
        &self,
        rt: &R,
        pass: &mut Pass,
        key: u64,
        pointer: u64,
    ) -> Result<Answer, PassError>
        requires its_own { IsPassOf self.now pass.old }
        ensures answer { IfOk result
            (λ answer. answer ≡ answer_of (share_of pass.old) (Replace key pointer)) }
        ensures changed { OnOk result (IsChangedBy (Replace key pointer) pass.old pass.new) }
        ensures knows { OnOk result (KnowsItsKeys self.now pass.new) }
        ensures not_yours { IsErrOf result PassError.NotYours ↔ ¬ Contains (keys_of pass.old) key }
        ensures spent { IsErrOf result PassError.Spent
            ↔ (Contains (keys_of pass.old) key × (deletes_left pass.old.pages pass.old.rows ≡ 0)) }
        ensures unchanged { OnErr result (pass.new ≡ pass.old) }
    {
        self.change(rt, pass, Op::Replace(key, pointer))
    }

    /// Replaces the record pointer of a key of the pass, if it is the expected one. It answers `Replaced` with the expected
    /// pointer, also if the new one is the same; `Exists` with the other pointer that the key has, which stays; or `Absent` if
    /// the tree lacks the key; whatever other passes do at the same time. Each accepted call uses one deletion of the pass,
    /// whatever it answers: the next of its rows. It takes no memory, and waits for a page's latch that another pass has.
    ///
    /// The call refuses with `NotYours` for every key that isn't one of the pass's; then with `Spent`, if the pass has no
    /// deletion left. A refused call changes nothing and reads nothing.
    pub fn exchange<R: Wait>(
        &self,
        rt: &R,
        pass: &mut Pass,
        key: u64,
        expected: u64,
        pointer: u64,
    ) -> Result<Answer, PassError>
        requires its_own { IsPassOf self.now pass.old }
        ensures answer { IfOk result
            (λ answer. answer ≡ answer_of (share_of pass.old) (Exchange key expected pointer)) }
        ensures changed { OnOk result (IsChangedBy (Exchange key expected pointer) pass.old pass.new) }
        ensures knows { OnOk result (KnowsItsKeys self.now pass.new) }
        ensures not_yours { IsErrOf result PassError.NotYours ↔ ¬ Contains (keys_of pass.old) key }
        ensures spent { IsErrOf result PassError.Spent
            ↔ (Contains (keys_of pass.old) key × (deletes_left pass.old.pages pass.old.rows ≡ 0)) }
        ensures unchanged { OnErr result (pass.new ≡ pass.old) }
    {
        self.change(rt, pass, Op::Exchange(key, expected, pointer))
    }

    /// Removes a key of the pass, if its record pointer is the expected one. It answers `Removed` with the expected pointer;
    /// `Exists` with the other pointer that the key has, which stays; or `Absent` if the tree lacks the key; whatever other
    /// passes do at the same time. Each accepted call uses one deletion of the pass, whatever it answers: the next of its rows.
    /// It takes no memory, and waits for a page's latch that another pass has.
    ///
    /// The call refuses with `NotYours` for every key that isn't one of the pass's; then with `Spent`, if the pass has no
    /// deletion left. A refused call changes nothing and reads nothing.
    pub fn delete_exact<R: Wait>(
        &self,
        rt: &R,
        pass: &mut Pass,
        key: u64,
        expected: u64,
    ) -> Result<Answer, PassError>
        requires its_own { IsPassOf self.now pass.old }
        ensures answer { IfOk result
            (λ answer. answer ≡ answer_of (share_of pass.old) (DeleteExact key expected)) }
        ensures changed { OnOk result (IsChangedBy (DeleteExact key expected) pass.old pass.new) }
        ensures knows { OnOk result (KnowsItsKeys self.now pass.new) }
        ensures not_yours { IsErrOf result PassError.NotYours ↔ ¬ Contains (keys_of pass.old) key }
        ensures spent { IsErrOf result PassError.Spent
            ↔ (Contains (keys_of pass.old) key × (deletes_left pass.old.pages pass.old.rows ≡ 0)) }
        ensures unchanged { OnErr result (pass.new ≡ pass.old) }
    {
        self.change(rt, pass, Op::DeleteExact(key, expected))
    }

    // Answers a find of the key by the state of the key after the changes that the seat has seen by the end of the call.
    pub fn search(&self, seat: &mut Seat<u8, View>, key: u64, trail: Option<&Trail>) -> Answer
        requires seat { IsPassSeat self.now seat.old.table_id seat.old.me }
        requires idle { seat.old.me.0.operation ≡ None }
        requires can_begin { CanBegin seat.old.me.0 (Find key) }
        ensures answer { result ≡ answer_at (Find key) (known_of seat.new.me.0 key) }
        ensures own { KnowsItsOwn seat.new.me.0 }
        ensures saw { IsPrefix seat.old.me.0.seen seat.new.me.0.seen }
        ensures idle { seat.new.me.0.operation ≡ None }
        ensures same_table { HasSameNumber seat.old seat.new }
        ensures same { SameBesideReads (for_call seat.old.me.0 (Find key)) seat.new.me.0 }
        ensures same_slots { seat.new.me.1 ≡ seat.old.me.1 }
    {
        let (kept, _) = self.come_to_leaf(seat, key, trail);
        Op::Find(key).answer(kept)
    }

    // Brings a find to the leaf of its key, which the seat still reads afterwards. It returns the pointer stored for the key, and
    // the leaf's page word. Of the operation it has only the page that comes next; its machine is in the seat's view, for the proofs.
    // With a trail the search in each page begins where the trail says, if that is right.
    pub(crate) fn come_to_leaf(
        &self,
        seat: &mut Seat<u8, View>,
        key: u64,
        trail: Option<&Trail>,
    ) -> (Option<u64>, u64)
        requires seat { IsPassSeat self.now seat.old.table_id seat.old.me }
        requires idle { seat.old.me.0.operation ≡ None }
        requires can_begin { CanBegin seat.old.me.0 (Find key) }
        ensures kept { result.0 ≡ known_of seat.new.me.0 key }
        ensures row { IsRowNumber self.now.counts (row_in result.1) }
        ensures leaf { ReadsLeaf key result.1 seat.new.me }
        ensures own { KnowsItsOwn seat.new.me.0 }
        ensures saw { IsPrefix seat.old.me.0.seen seat.new.me.0.seen }
        ensures idle { seat.new.me.0.operation ≡ None }
        ensures same_table { HasSameNumber seat.old seat.new }
        ensures same { SameBesideReads (for_call seat.old.me.0 (Find key)) seat.new.me.0 }
        ensures same_slots { seat.new.me.1 ≡ seat.old.me.1 }
    {
        let (mut number, mut level) = self.root(seat, Op::Find(key));
        loop {
            let hint = hint_at(trail, level);
            match self.read_page(seat, key, number, level, hint) {
                (Way::Right(next), ..) => number = next,
                (Way::Down(child), ..) => {
                    number = child;
                    level -= 1;
                }
                (Way::Here, kept, word) => return (kept, word),
            }
        }
    }

    /// Runs an operation that changes the tree, on one of the pass's keys: what `insert`, `delete`, `replace`, `exchange` and
    /// `delete_exact` do, by the operation. It uses one of the changes of its kind that the pass has left. It takes no memory, and
    /// waits as they do.
    ///
    /// The call refuses with `NotYours` for every key that isn't one of the pass's; then with `Spent`, if the pass has no change of
    /// the operation's kind left. A refused call changes nothing and reads nothing.
    pub fn change<R: Wait>(&self, rt: &R, pass: &mut Pass, op: Op) -> Result<Answer, PassError>
        requires its_own { IsPassOf self.now pass.old }
        requires updates { IsUpdate op }
        requires fits { FitsWords op }
        ensures answer { IfOk result (λ answer. answer ≡ answer_of (share_of pass.old) op) }
        ensures changed { OnOk result (IsChangedBy op pass.old pass.new) }
        ensures knows { OnOk result (KnowsItsKeys self.now pass.new) }
        ensures not_yours { IsErrOf result PassError.NotYours ↔ ¬ Contains (keys_of pass.old) (key_of op) }
        ensures spent { IsErrOf result PassError.Spent
            ↔ (Contains (keys_of pass.old) (key_of op)
            × (changes_left op pass.old.pages pass.old.rows ≡ 0)) }
        ensures unchanged { OnErr result (pass.new ≡ pass.old) }
    {
        pass.accepts(op)?;
        let Pass {
            seat,
            keys: _,
            rows,
            pages,
        } = pass;
        let room = next_of(op, rows, pages);
        Ok(self.update(rt, seat, room, op))
    }
}

impl Pass {
    // Whether the pass can make such a change: the key is one of its own, and it has a change of that kind left.
    pub(crate) fn accepts(&self, op: Op) -> Result<(), PassError>
        ensures own_key { OnOk result (Contains (keys_of self.now) (key_of op)) }
        ensures some_left { OnOk result (changes_left op self.now.pages self.now.rows ≢ 0) }
        ensures not_yours { IsErrOf result PassError.NotYours ↔ ¬ Contains (keys_of self.now) (key_of op) }
        ensures spent { IsErrOf result PassError.Spent
            ↔ (Contains (keys_of self.now) (key_of op)
            × (changes_left op self.now.pages self.now.rows ≡ 0)) }
    {
        if !self.has(op.key()) {
            return Err(PassError::NotYours);
        }
        if changes_left(op, &self.pages, &self.rows) == 0 {
            return Err(PassError::Spent);
        }
        Ok(())
    }
}
