//! What the current map's pool has left.
ghost use Rattle.std.specs.Prelude.{◌≡◌, ◌<◌, IfErr};
ghost use Rattle.blink_map.specs.declared.error.GrowError.TheVariants.{Busy};
ghost use Rattle.blink_map.specs.Sessions.{places_of};

use crate::error::GrowError;
use crate::growing::GrowingMap;
use std::hint;

impl GrowingMap {
    /// Returns how many rows and how many page numbers the current map's pool has left, as `Map::room` of `blink_generation` does, for an operator
    /// who watches how soon the map is renewed. No clause says that the numbers are right. What sessions have drawn, the pool doesn't have
    /// (`Held::stock`).
    ///
    /// The call needs no session. It has that of some place for an instant, from the last place down, and gives it back as it was. It looks
    /// at all places `looks` times, at least once, and lets a renewal that gathers the sessions go first. It takes no memory, waits for
    /// nobody, and returns.
    ///
    /// The call refuses with `Busy`, if it found no place with its session at any look: each was in a call, or held.
    pub fn try_room(&self, looks: u32) -> Result<(u64, u64), GrowError>
        ensures refused { IfErr result (λ refusal. refusal ≡ Busy) }
    {
        for _ in 0..looks.max(1) {
            if let Some(room) = self.room_once() {
                return Ok(room);
            }
            hint::spin_loop();
        }
        Err(GrowError::Busy)
    }

    // The same after a look at each place. The last places come first, since few threads are likely to use their sessions.
    fn room_once(&self) -> Option<(u64, u64)> {
        let mut slot = self.table.slot_count();
        while 0 < slot {
            slot -= 1;
            if let Some(room) = self.room_by(slot) {
                return Some(room);
            }
        }
        None
    }

    // The same, if the session of this slot lies there.
    fn room_by(&self, slot: usize) -> Option<(u64, u64)>
        requires in_range { slot < places_of self.now }
    {
        let mut seat = self.enter();
        let held = self.take_unless_gathering(&mut seat, slot, 1)?;
        let room = held.map.room();
        self.give(&mut seat, slot, held);
        Some(room)
    }
}
