//! Whether a session that lacks room for an operation lacks it for good.
ghost use Rattle.std.specs.Prelude.{◌↔◌, IsTrue};
ghost use Rattle.blink_generation.specs.Sessions.{LacksRoomInAll};

use crate::map::Session;
use blink_batch::Op;

impl Session {
    /// Returns whether the session has too few rows for the operation, those that are on their way back too, or too few page
    /// numbers. Where a change was refused and this is false, a later call of it may be let through.
    pub fn lacks_room_in_all(&self, op: Op) -> bool
        ensures { IsTrue result ↔ LacksRoomInAll op self.now }
    {
        !self.member.will_have_room(op)
    }
}
