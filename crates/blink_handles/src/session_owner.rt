//! What the box of a session's handle holds: an owner of the map, and the session or its operation.
ghost use Rattle.std.specs.Prelude.{◌≡◌, IfErr, IfOk, IfSome, IsFalse, IsNone, IsSome, IsTrue, None, OnErr, OnOk, Some};
ghost use mathlib.Core.List.{IsPrefix};
ghost use Rattle.blink_batch.specs.{FitsWords};
ghost use Rattle.blink_map.specs.{IsHeldOf, IsPendingOf, IsRefusalOf, IsUpdate};
ghost use Rattle.blink_handles.specs.Raw.{raw_answer};
ghost use Rattle.blink_handles.specs.Sessions.{Answers, EndsFrom, Finds, HasAnswered, HasPut, HasStepped, IsAdvanceRefusal, IsAtHand, IsAway, IsChangeRefusal, IsEmpty, IsGripped, IsNotMade, IsNotPut, IsOfPut, IsOwnSession, IsPutRefusal, IsRested, IsStepRefusal, IsTakeRefusal, IsTakenOut, IsUnderWay, IsUntouched, KnowsSame, Puts, SeesMore, Scans, ScansBack, Takes, TellsStock, in_map, is_putting, known_in, place_in, put_in, tells_put};

use crate::map_refusal::MapRefusal;
use crate::raw::{ABSENT, INSERTED, REMOVED, REPLACED, RawAnswer, RawScanned, RawStock, RawTaken};
use crate::shared_map::SharedMap;
use blink_batch::{Answer, Entry, Op};
use blink_map::{GrowError, Held, PendingHeld, RENEWALS, Session, StoppedHeld};
use std::alloc::Global;
use std::sync::Arc;

/// How many operations a put makes in one call at most. Two are enough, unless other sessions insert and remove its key meanwhile.
const PUT_OPERATIONS: u32 = 16;

/// An operation of a session that is under way. It may be one of a put.
#[derive(Drop)]
pub struct UnderWay {
    /// The operation, with its session.
    pub pending: PendingHeld,
    /// The key and the pointer that are to be put, if the operation is one of a put.
    pub put: Option<(u64, u64)>,
}

/// A session with an owner of its map, so that its thread needs nothing else. Between calls it has one of three: the free session, the
/// held session, or its operation. They have a field each, so that a call moves no more than it works on: a held session is several times
/// as large as a free one, and an operation is larger still.
#[derive(Drop)]
pub struct SessionOwner {
    /// The map, with the places of its sessions.
    pub shared: Arc<SharedMap>,
    /// Whether the session stays held between calls.
    pub keeps: bool,
    /// The session, unless it is held, or an operation of it is under way.
    pub free: Option<Session>,
    /// The session that is held.
    pub held: Option<Held>,
    /// The session's operation that is under way.
    pub under_way: Option<UnderWay>,
}

impl SessionOwner {
    /// Looks any key up.
    pub fn find(&mut self, key: u64, tries: u32, answer: &mut RawAnswer) -> Result<(), MapRefusal>
        requires its_own { IsOwnSession self.old }
        ensures its_own { IsOwnSession self.new }
        ensures found { OnOk result (Finds key self.old self.new answer.new) }
        ensures refused { IfErr result (IsAway self.old self.new) }
        ensures unchanged { OnErr result (answer.new ≡ answer.old) }
    {
        let map = &self.shared.map;
        match (&mut self.free, &mut self.held) {
            (Some(session), _) => {
                let Ok(shown) = map.try_find(session, key, tries) else {
                    return Err(MapRefusal::Busy);
                };
                *answer = RawAnswer::shown(shown);
                Ok(())
            }
            (None, Some(held)) => {
                *answer = RawAnswer::shown(map.find_held(held, key));
                Ok(())
            }
            (None, None) => Err(MapRefusal::UnderWay),
        }
    }

    /// Scans a range of keys.
    pub fn scan(
        &mut self,
        range: (u64, u64),
        tries: u32,
        entries: &mut [Entry],
        scanned: &mut RawScanned,
    ) -> Result<(), MapRefusal>
        requires its_own { IsOwnSession self.old }
        ensures its_own { IsOwnSession self.new }
        ensures scanned { OnOk result
            (Scans range.0 range.1 self.old self.new entries.old entries.new scanned.new) }
        ensures refused { IfErr result (IsAway self.old self.new) }
        ensures unchanged { OnErr result
            ((entries.new ≡ entries.old) × (scanned.new ≡ scanned.old)) }
    {
        let map = &self.shared.map;
        match (&mut self.free, &mut self.held) {
            (Some(session), _) => {
                let Ok(came) = map.try_scan(session, range, tries, entries) else {
                    return Err(MapRefusal::Busy);
                };
                *scanned = RawScanned::of(came);
                Ok(())
            }
            (None, Some(held)) => {
                let came = map.scan_held(held, range.0, range.1, entries);
                *scanned = RawScanned::of(came);
                Ok(())
            }
            (None, None) => Err(MapRefusal::UnderWay),
        }
    }

    /// Scans a range of keys backwards.
    pub fn scan_back(
        &mut self,
        range: (u64, u64),
        tries: u32,
        entries: &mut [Entry],
        scanned: &mut RawScanned,
    ) -> Result<(), MapRefusal>
        requires its_own { IsOwnSession self.old }
        ensures its_own { IsOwnSession self.new }
        ensures scanned { OnOk result
            (ScansBack range.0 range.1 self.old self.new entries.old entries.new scanned.new) }
        ensures refused { IfErr result (IsAway self.old self.new) }
        ensures unchanged { OnErr result
            ((entries.new ≡ entries.old) × (scanned.new ≡ scanned.old)) }
    {
        let map = &self.shared.map;
        match (&mut self.free, &mut self.held) {
            (Some(session), _) => {
                let Ok(came) = map.try_scan_back(session, range, tries, entries) else {
                    return Err(MapRefusal::Busy);
                };
                *scanned = RawScanned::of(came);
                Ok(())
            }
            (None, Some(held)) => {
                let came = map.scan_back_held(held, range.0, range.1, entries);
                *scanned = RawScanned::of(came);
                Ok(())
            }
            (None, None) => Err(MapRefusal::UnderWay),
        }
    }

    /// Takes a snapshot of a range of keys.
    pub fn snapshot(
        &mut self,
        alloc: Global,
        range: (u64, u64),
        tries: u32,
        entries: &mut [Entry],
        taken: &mut RawTaken,
    ) -> Result<(), MapRefusal>
        requires its_own { IsOwnSession self.old }
        ensures its_own { IsOwnSession self.new }
        ensures taken { OnOk result
            (Takes range.0 range.1 self.old self.new entries.old entries.new taken.new) }
        ensures refused { IfErr result (IsTakeRefusal self.old self.new) }
        ensures unchanged { OnErr result
            ((entries.new ≡ entries.old) × (taken.new ≡ taken.old)) }
    {
        let map = &self.shared.map;
        match (&mut self.free, &mut self.held) {
            (Some(session), _) => match map.try_snapshot(alloc, session, range, tries) {
                Ok(found) => {
                    *taken = RawTaken::of(&found, entries);
                    Ok(())
                }
                Err(refusal) => Err(MapRefusal::of(refusal)),
            },
            (None, Some(held)) => match map.snapshot_held(alloc, held, range.0, range.1, tries) {
                Ok(found) => {
                    *taken = RawTaken::of(&found, entries);
                    Ok(())
                }
                Err(_) => Err(MapRefusal::OutOfMemory),
            },
            (None, None) => Err(MapRefusal::UnderWay),
        }
    }

    /// Begins an operation that changes the map, and takes its steps (`GrowingMap::start` of `blink_map`). Where it meets nobody, it is
    /// made at once, and the session stays where it is (`GrowingMap::try_change`). Where the map is full, the call renews it, and begins
    /// again, unless its room is fixed. Where a removal has left many empty leaves, it renews the map too, unless it can't for now.
    pub fn change(
        &mut self,
        alloc: Global,
        op: Op,
        tries: u32,
        answer: &mut RawAnswer,
    ) -> Result<(), MapRefusal>
        requires its_own { IsOwnSession self.old }
        requires updates { IsUpdate op }
        requires fits { FitsWords op }
        ensures its_own { IsOwnSession self.new }
        ensures answered { OnOk result (Answers op self.old self.new answer.new) }
        ensures refused { IfErr result (IsChangeRefusal op self.old self.new) }
        ensures unchanged { OnErr result (answer.new ≡ answer.old) }
    {
        if self.under_way.is_some() {
            return Err(MapRefusal::UnderWay);
        }
        self.change_at_hand(alloc, op, tries, answer)
    }

    // The same, by a session that is at hand.
    #[tactic(auto, using(crate::proofs::SessionsStay::renewals))]
    fn change_at_hand(
        &mut self,
        alloc: Global,
        op: Op,
        tries: u32,
        answer: &mut RawAnswer,
    ) -> Result<(), MapRefusal>
        requires its_own { IsOwnSession self.old }
        requires at_hand { IsAtHand self.old }
        requires updates { IsUpdate op }
        requires fits { FitsWords op }
        ensures its_own { IsOwnSession self.new }
        ensures answered { OnOk result (Answers op self.old self.new answer.new) }
        ensures refused { IfErr result (IsChangeRefusal op self.old self.new) }
        ensures unchanged { OnErr result (answer.new ≡ answer.old) }
    {
        for _ in 0..RENEWALS {
            match self.try_change(op, tries, answer) {
                Ok(()) => {
                    self.renew_if_worn(alloc, answer.kind, tries);
                    return Ok(());
                }
                Err(NotMade::Refused(refusal)) => return Err(refusal),
                Err(NotMade::Full(number)) => {
                    if let Err(refusal) = self.renew_full(alloc, number, tries) {
                        return Err(MapRefusal::of(refusal));
                    }
                }
            }
        }
        Err(MapRefusal::Busy)
    }

    // Renews the map of this number, which was found full, by this session: no search of another one waits for the copy.
    fn renew_full(&self, alloc: Global, number: u64, looks: u32) -> Result<(), GrowError>
        requires its_own { IsOwnSession self.now }
        ensures refused { IfErr result (IsRefusalOf (in_map self.now)) }
    {
        let map = &self.shared.map;
        match &self.free {
            Some(session) => map.try_renew_by(alloc, session, Some(number), looks),
            None => map.try_renew(alloc, Some(number), looks),
        }
    }

    // Renews the map after a removal, if many of its leaves are empty, unless this session stays held.
    fn renew_if_worn(&self, alloc: Global, kind: u64, looks: u32)
        requires its_own { IsOwnSession self.now }
    {
        if let Some(session) = &self.free {
            if kind == REMOVED {
                self.shared.map.renew_if_worn_by(alloc, session, looks);
            }
        }
    }

    // Makes an operation in the current map where the session is, if it can be made at once. Otherwise it begins the operation, and takes its
    // steps.
    fn try_change(&mut self, op: Op, tries: u32, answer: &mut RawAnswer) -> Result<(), NotMade>
        requires its_own { IsOwnSession self.old }
        requires updates { IsUpdate op }
        requires fits { FitsWords op }
        ensures its_own { IsOwnSession self.new }
        ensures answered { OnOk result (Answers op self.old self.new answer.new) }
        ensures refused { IfErr result (IsNotMade op self.old self.new) }
        ensures unchanged { OnErr result (answer.new ≡ answer.old) }
    {
        if let Some(given) = self.change_in_place(op, tries) {
            *answer = RawAnswer::of(given);
            return Ok(());
        }
        self.start_change(op, tries, answer)
    }

    // Makes an operation where the session is, if it can be made at once. One that is to stay held, but is free, isn't tried: it is held
    // again when the operation is begun.
    fn change_in_place(&mut self, op: Op, tries: u32) -> Option<Answer>
        requires its_own { IsOwnSession self.old }
        requires updates { IsUpdate op }
        requires fits { FitsWords op }
        ensures its_own { IsOwnSession self.new }
        ensures answered { IfSome result (λ given. Answers op self.old self.new (raw_answer given)) }
        ensures unchanged { IsNone result → IsUntouched self.old self.new }
    {
        let map = &self.shared.map;
        match (&mut self.free, &mut self.held) {
            (Some(session), _) => {
                if self.keeps {
                    return None;
                }
                map.try_change(session, op, tries)
            }
            (None, Some(held)) => map.try_change_held(held, op, tries),
            (None, None) => None,
        }
    }

    // Begins an operation in the current map, and takes its steps. Where the session lacks room for it there, it is free then.
    fn start_change(&mut self, op: Op, tries: u32, answer: &mut RawAnswer) -> Result<(), NotMade>
        requires its_own { IsOwnSession self.old }
        requires updates { IsUpdate op }
        requires fits { FitsWords op }
        ensures its_own { IsOwnSession self.new }
        ensures answered { OnOk result (Answers op self.old self.new answer.new) }
        ensures refused { IfErr result (IsNotMade op self.old self.new) }
        ensures unchanged { OnErr result (answer.new ≡ answer.old) }
    {
        let held = match self.grip(tries) {
            Ok(held) => held,
            Err(refusal) => return Err(NotMade::Refused(refusal)),
        };
        match self.shared.map.start(held, op, tries) {
            Ok((held, given)) => {
                self.rest(held);
                *answer = RawAnswer::of(given);
                Ok(())
            }
            Err(StoppedHeld::Waits(pending)) => {
                self.under_way = Some(UnderWay { pending, put: None });
                Err(NotMade::Refused(MapRefusal::UnderWay))
            }
            Err(StoppedHeld::Full(held)) => {
                let refusal = if held.lacks_room_in_all(op) {
                    NotMade::Full(held.number())
                } else {
                    NotMade::Refused(MapRefusal::RowsBusy)
                };
                self.free = Some(self.shared.map.release(held));
                Err(refusal)
            }
        }
    }

    /// Puts an entry: it replaces the pointer of the key, and where the key is absent it inserts the entry. Where another session inserts
    /// or removes the key between the two, it replaces or inserts again. It makes one change. Each of its operations takes its steps, and
    /// renews the map, as one by `change` does.
    ///
    /// The call is refused with `UnderWay`, if an operation of the session is under way, and then nothing changes; or if an operation of
    /// the put waits, and then the put goes on by `advance`. It is refused as `change` is for lack of room or memory, and with `Busy`, if
    /// other sessions inserted and removed the key again and again. Then nothing is put, though the session may have seen more.
    pub fn put(
        &mut self,
        alloc: Global,
        key: u64,
        pointer: u64,
        tries: u32,
        answer: &mut RawAnswer,
    ) -> Result<(), MapRefusal>
        requires its_own { IsOwnSession self.old }
        ensures its_own { IsOwnSession self.new }
        ensures put { OnOk result (Puts key pointer self.old self.new answer.new) }
        ensures refused { IfErr result (IsPutRefusal key pointer self.old self.new) }
        ensures unchanged { OnErr result (answer.new ≡ answer.old) }
    {
        if self.under_way.is_some() {
            return Err(MapRefusal::UnderWay);
        }
        let replace = Op::Replace(key, pointer);
        self.put_from(alloc, replace, (key, pointer), tries, answer)
    }

    // Puts an entry, beginning with this operation.
    #[tactic(auto, using(crate::proofs::PutsGoOn::puts))]
    fn put_from(
        &mut self,
        alloc: Global,
        first: Op,
        put: (u64, u64),
        tries: u32,
        answer: &mut RawAnswer,
    ) -> Result<(), MapRefusal>
        requires its_own { IsOwnSession self.old }
        requires at_hand { IsAtHand self.old }
        requires of_put { IsOfPut put.0 put.1 first }
        requires updates { IsUpdate first }
        requires fits { FitsWords first }
        ensures its_own { IsOwnSession self.new }
        ensures ended { OnOk result (HasPut put.0 put.1 self.old self.new answer.new) }
        ensures refused { IfErr result (IsNotPut put.0 put.1 self.old self.new) }
        ensures unchanged { OnErr result (answer.new ≡ answer.old) }
    {
        let mut op = first;
        for _ in 0..PUT_OPERATIONS {
            match self.put_by(alloc, op, put, tries) {
                Ok(given) => {
                    if has_put(given) {
                        *answer = given;
                        return Ok(());
                    }
                    op = next_of_put(given, put.0, put.1);
                }
                Err(refusal) => return Err(refusal),
            }
        }
        Err(MapRefusal::Busy)
    }

    // Makes one operation of a put.
    fn put_by(
        &mut self,
        alloc: Global,
        op: Op,
        put: (u64, u64),
        tries: u32,
    ) -> Result<RawAnswer, MapRefusal>
        requires its_own { IsOwnSession self.old }
        requires at_hand { IsAtHand self.old }
        requires of_put { IsOfPut put.0 put.1 op }
        requires updates { IsUpdate op }
        requires fits { FitsWords op }
        ensures its_own { IsOwnSession self.new }
        ensures ended { IfOk result
            (HasAnswered op (place_in self.old) (known_in self.old) self.old self.new) }
        ensures refused { IfErr result (IsNotPut put.0 put.1 self.old self.new) }
    {
        let mut given = RawAnswer::shown(None);
        match self.change_at_hand(alloc, op, tries, &mut given) {
            Ok(()) => Ok(given),
            Err(refusal) => {
                self.keep_putting(put);
                Err(refusal)
            }
        }
    }

    // Keeps what is put with the operation that is under way, if one is.
    fn keep_putting(&mut self, put: (u64, u64))
        ensures { self.new ≡ record self.old { under_way = is_putting put self.old.under_way } }
    {
        if let Some(doing) = &mut self.under_way {
            doing.put = Some(put);
        }
    }

    /// Takes the next steps of the operation or the put that is under way. Where an operation of a put has ended, and nothing is put by it,
    /// the call goes on as `put` does. It may be refused as `put` is then, and nothing is put.
    pub fn advance(
        &mut self,
        alloc: Global,
        tries: u32,
        answer: &mut RawAnswer,
    ) -> Result<(), MapRefusal>
        requires its_own { IsOwnSession self.old }
        ensures its_own { IsOwnSession self.new }
        ensures ended { OnOk result (EndsFrom self.old.under_way self.old self.new answer.new) }
        ensures refused { IfErr result (IsAdvanceRefusal self.old.under_way self.old self.new) }
        ensures unchanged { OnErr result (answer.new ≡ answer.old) }
    {
        match self.put_under_way() {
            Some(put) => self.put_on(alloc, put, tries, answer),
            None => self.step(tries, answer),
        }
    }

    // What is to be put, if the operation that is under way is one of a put.
    fn put_under_way(&self) -> Option<(u64, u64)>
        ensures { result ≡ put_in self.now.under_way }
    {
        match &self.under_way {
            Some(doing) => doing.put,
            None => None,
        }
    }

    // Takes the next steps of a put. Where its operation has put nothing, it goes on with the next one.
    fn put_on(
        &mut self,
        alloc: Global,
        put: (u64, u64),
        tries: u32,
        answer: &mut RawAnswer,
    ) -> Result<(), MapRefusal>
        requires its_own { IsOwnSession self.old }
        requires putting { put_in self.old.under_way ≡ Some put }
        ensures its_own { IsOwnSession self.new }
        ensures ended { OnOk result (HasPut put.0 put.1 self.old self.new answer.new) }
        ensures refused { IfErr result (IsNotPut put.0 put.1 self.old self.new) }
        ensures unchanged { OnErr result (answer.new ≡ answer.old) }
    {
        let mut given = RawAnswer::shown(None);
        if let Err(refusal) = self.step(tries, &mut given) {
            return Err(refusal);
        }
        if has_put(given) {
            *answer = given;
            return Ok(());
        }
        let next = next_of_put(given, put.0, put.1);
        self.put_from(alloc, next, put, tries, answer)
    }

    // Takes the next steps of the operation that is under way. One of a put stays one of it where it goes on.
    fn step(&mut self, tries: u32, answer: &mut RawAnswer) -> Result<(), MapRefusal>
        requires its_own { IsOwnSession self.old }
        ensures its_own { IsOwnSession self.new }
        ensures ended { OnOk result (HasStepped self.old.under_way self.old self.new answer.new) }
        ensures refused { IfErr result (IsStepRefusal self.old.under_way self.old self.new) }
        ensures unchanged { OnErr result (answer.new ≡ answer.old) }
    {
        let Some(doing) = self.under_way.take() else {
            return Err(MapRefusal::Idle);
        };
        let UnderWay { pending, put } = doing;
        match self.shared.map.advance(pending, tries) {
            Ok((held, given)) => {
                self.rest(held);
                *answer = RawAnswer::of(given);
                Ok(())
            }
            Err(pending) => {
                self.under_way = Some(UnderWay { pending, put });
                Err(MapRefusal::UnderWay)
            }
        }
    }

    /// Holds the session, so that the next calls find it held, until `let_go`. Meanwhile the map isn't renewed or closed.
    pub fn hold(&mut self, tries: u32) -> Result<(), MapRefusal>
        requires its_own { IsOwnSession self.old }
        ensures its_own { IsOwnSession self.new }
        ensures held { OnOk result (SeesMore self.old self.new) }
        ensures stays_held { OnOk result (IsSome self.new.held) }
        ensures kept { OnOk result (IsTrue self.new.keeps) }
        ensures refused { IfErr result (IsAway self.old self.new) }
    {
        let held = self.grip(tries)?;
        self.keeps = true;
        self.held = Some(held);
        Ok(())
    }

    /// Lets a session go that is held. One whose operation is under way is let go when that has ended.
    pub fn let_go(&mut self)
        requires its_own { IsOwnSession self.old }
        ensures its_own { IsOwnSession self.new }
        ensures same { KnowsSame self.old self.new }
        ensures goes_on { self.new.under_way ≡ self.old.under_way }
        ensures not_held { self.new.held ≡ None }
        ensures not_kept { IsFalse self.new.keeps }
    {
        self.keeps = false;
        self.loosen();
    }

    // Frees a session that is held. It is still to stay held, if it was.
    fn loosen(&mut self)
        requires its_own { IsOwnSession self.old }
        ensures its_own { IsOwnSession self.new }
        ensures same { KnowsSame self.old self.new }
        ensures goes_on { self.new.under_way ≡ self.old.under_way }
        ensures not_held { self.new.held ≡ None }
        ensures same_keeps { self.new.keeps ≡ self.old.keeps }
    {
        if let Some(held) = self.held.take() {
            self.free = Some(self.shared.map.release(held));
        }
    }

    // Holds a session again that is to stay held, if it can be.
    fn hold_again(&mut self, tries: u32)
        requires its_own { IsOwnSession self.old }
        requires at_hand { IsAtHand self.old }
        ensures its_own { IsOwnSession self.new }
        ensures sees { SeesMore self.old self.new }
    {
        if self.keeps {
            let _outcome = self.hold(tries);
        }
    }

    /// Tells what the session has of page numbers and rows in the current map. It is held for the call.
    pub fn stock(&mut self, tries: u32, stock: &mut RawStock) -> Result<(), MapRefusal>
        requires its_own { IsOwnSession self.old }
        ensures its_own { IsOwnSession self.new }
        ensures told { OnOk result (TellsStock self.old self.new stock.new) }
        ensures refused { IfErr result (IsAway self.old self.new) }
        ensures unchanged { OnErr result (stock.new ≡ stock.old) }
    {
        let held = self.grip(tries)?;
        *stock = RawStock::of(self.shared.map.stock(&held));
        self.rest(held);
        Ok(())
    }

    /// Frees the owner, and returns whether the session rests at its place again. An operation or a put under way goes on before, as by
    /// `advance`, so many times. If it still waits then, and only then, the session is lost, and the map can't be renewed or closed.
    pub fn free(self, alloc: Global, tries: u32) -> bool
        requires its_own { IsOwnSession self }
        ensures lost { IsFalse result → IsUnderWay self }
    {
        let mut owner = self;
        let mut answer = RawAnswer::shown(None);
        for _ in 0..tries {
            match owner.advance(alloc, 1, &mut answer) {
                Err(MapRefusal::UnderWay) => {}
                _ => break,
            }
        }
        owner.let_go();
        let Some(session) = owner.free.take() else {
            return false;
        };
        owner.shared.places.leave(session);
        true
    }

    // Takes the session out, held.
    fn grip(&mut self, tries: u32) -> Result<Held, MapRefusal>
        requires its_own { IsOwnSession self.old }
        ensures its_own { IfOk result (IsHeldOf (in_map self.old)) }
        ensures gripped { IfOk result (IsGripped self.old) }
        ensures taken { OnOk result (IsTakenOut self.old self.new) }
        ensures stays { OnErr result (IsOwnSession self.new) }
        ensures refused { IfErr result (IsAway self.old self.new) }
    {
        let Some(session) = self.free.take() else {
            return self.held.take().ok_or(MapRefusal::UnderWay);
        };
        match self.shared.map.try_hold(session, tries) {
            Ok(held) => Ok(held),
            Err(session) => {
                self.free = Some(session);
                Err(MapRefusal::Busy)
            }
        }
    }

    // Puts a held session back: held, if it is to stay so, or free.
    fn rest(&mut self, held: Held)
        requires empty { IsEmpty self.old }
        requires its_own { IsHeldOf (in_map self.old) held }
        ensures its_own { IsOwnSession self.new }
        ensures rested { IsRested held self.old self.new }
    {
        if self.keeps {
            self.held = Some(held);
        } else {
            self.free = Some(self.shared.map.release(held));
        }
    }
}

// Whether this answer of an operation of a put says that it has put the pointer.
fn has_put(given: RawAnswer) -> bool
    ensures { result ≡ tells_put given }
{
    given.kind == INSERTED || given.kind == REPLACED
}

// The next operation of a put, after one that has put nothing and has this answer.
fn next_of_put(given: RawAnswer, key: u64, pointer: u64) -> Op
    ensures of_put { IsOfPut key pointer result }
    ensures updates { IsUpdate result }
    ensures fits { FitsWords result }
{
    if given.kind == ABSENT {
        Op::Insert(key, pointer)
    } else {
        Op::Replace(key, pointer)
    }
}

// Why an operation isn't made in the current map: it is refused, or the map of this number is full.
enum NotMade {
    Refused(MapRefusal),
    Full(u64),
}
