//! Holding a session, and releasing it.
ghost use Rattle.std.specs.Prelude.{IfErr, IfOk};
ghost use Rattle.blink_map.specs.Holding.{IsHeldFrom, IsHeldOf, IsReleased};
ghost use Rattle.blink_map.specs.Sessions.{IsSameSession, IsSessionOf};

use crate::growing::{GrowingMap, Session};
use crate::held::Held;

impl GrowingMap {
    /// Holds a session, if it can, so that calls on it wait for nobody until it is released. It holds back a renewal and a close meanwhile,
    /// and nothing else. The call looks `tries` times, at least once, and lets a renewal that has begun go first. It takes no memory, waits
    /// for nobody, and returns.
    ///
    /// The call gives the session back as it was, if the map was renewed, or was about to be, at each look.
    pub fn try_hold(&self, session: Session, tries: u32) -> Result<Held, Session>
        requires its_own { IsSessionOf self.now session }
        ensures its_own { IfOk result (IsHeldOf self.now) }
        ensures held { IfOk result (IsHeldFrom session) }
        ensures same { IfErr result (IsSameSession session) }
    {
        let Session { mut seat, slot } = session;
        if !self.take_slot_unless(&self.renewing, &mut seat, slot, tries) {
            return Err(Session { seat, slot });
        }
        let current = self.take_out(&mut seat, slot);
        Ok(Held {
            seat,
            slot,
            current,
        })
    }

    /// Releases a held session. It knows all that it had seen and made while it was held. The call takes no memory, waits for nobody, and
    /// returns.
    pub fn release(&self, held: Held) -> Session
        requires its_own { IsHeldOf self.now held }
        ensures its_own { IsSessionOf self.now result }
        ensures released { IsReleased held result }
    {
        let Held {
            mut seat,
            slot,
            current,
        } = held;
        self.give(&mut seat, slot, current);
        Session { seat, slot }
    }
}
