//! Operations that change a growing map, by a session that stays where it is: each is made at once, or not at all.
ghost use Rattle.std.specs.Prelude.{◌≡◌, IfSome, IsNone};
ghost use Rattle.std.specs.Arc.{arc_value};
ghost use Rattle.blink_batch.specs.{FitsWords};
ghost use Rattle.blink_machine.specs.{IsUpdate};
ghost use Rattle.blink_generation.specs.{AnswersInOrder, IsSessionOf as IsSessionIn, made_by, opening_of};
ghost use Rattle.blink_map.specs.Holding.{IsAnsweredHeld, IsHeldOf, IsHeldOn};
ghost use Rattle.blink_map.specs.Sessions.{IsAnswered, IsSameBesideSeen, IsSessionOf};
ghost use Rattle.blink_map.specs.Taking.{StaysCurrent};

use crate::counts::counted;
use crate::growing::{GrowingMap, Session};
use crate::held::Held;
use crate::slots::Current;
use blink_batch::{Answer, Op};

impl GrowingMap {
    /// Runs an operation that changes the map, if it can be made at once: an insertion, a deletion, a replacement, an exchange, or a
    /// deletion of an expected pointer. It answers as the operation does on a plain map (`Op`, `Answer`), and no other session changes the
    /// key between its test and its change. The session isn't taken out of its slot, so the call costs less than to hold the session, to
    /// start the operation and to release the session. It takes no memory, waits for nobody, and returns.
    ///
    /// It looks for the session `tries` times, at least once, and lets a renewal that has begun go first. There is no answer, if the map
    /// was renewed, or was about to be, at each look; if the session lacks room for the operation in the current map; or if the operation
    /// met another one, and was given up after `tries` steps in vain, at least one. Then it has changed nothing, though the session may
    /// have seen more. `start` makes it, by the held session.
    pub fn try_change(&self, session: &mut Session, op: Op, tries: u32) -> Option<Answer>
        requires its_own { IsSessionOf self.now session.old }
        requires updates { IsUpdate op }
        requires fits { FitsWords op }
        ensures answered { IfSome result (IsAnswered self.now op session.old session.new) }
        ensures unchanged { IsNone result → IsSameBesideSeen session.old session.new }
    {
        let Session { seat, slot } = session;
        if !self.take_slot_unless(&self.renewing, seat, *slot, tries) {
            return None;
        }
        let given = self.change_in_place(seat, *slot, op, tries);
        if let Some(answer) = given {
            self.count(op, answer);
        }
        given
    }

    /// Runs an operation that changes the map by a held session, as `try_change` does. The session stays where it is, so the call costs
    /// less than `start`. It takes no memory, waits for nobody, and returns.
    ///
    /// There is no answer, if the session lacks room for the operation in the current map; or if the operation met another one, and was
    /// given up after `tries` steps in vain, at least one. Then it has changed nothing, though the session may have seen more. `start`
    /// makes it.
    pub fn try_change_held(&self, held: &mut Held, op: Op, tries: u32) -> Option<Answer>
        requires its_own { IsHeldOf self.now held.old }
        requires updates { IsUpdate op }
        requires fits { FitsWords op }
        ensures answered { IfSome result (IsAnsweredHeld self.now op held.old held.new) }
        ensures unchanged { IsNone result → IsHeldOn held.old held.new }
    {
        let Held {
            seat: _,
            slot: _,
            current,
        } = held;
        let given = current.try_change(op, tries);
        if let Some(answer) = given {
            self.count(op, answer);
        }
        given
    }
}

impl Current {
    // Runs an operation by this session of the current map, and counts its change. There is no answer, if the session lacks room for it, or
    // if it was given up.
    pub(crate) fn try_change(&mut self, op: Op, tries: u32) -> Option<Answer>
        requires its_own { IsSessionIn (arc_value self.old.map) self.old.session }
        requires updates { IsUpdate op }
        requires fits { FitsWords op }
        ensures stays { StaysCurrent self.old self.new }
        ensures answered { IfSome result (AnswersInOrder (opening_of (arc_value self.old.map)) op
            self.old.session.member self.new.session.member) }
        ensures unchanged { IsNone result → made_by self.new.session ≡ made_by self.old.session }
    {
        match self.map.try_change(&mut self.session, op, tries) {
            Ok(Some(answer)) => {
                self.changes = counted(self.changes, answer);
                Some(answer)
            }
            Ok(None) => None,
            Err(_) => None,
        }
    }
}
