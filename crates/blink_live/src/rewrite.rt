//! How a leaf is written anew, where its row has no room for a record more: the page that base and records make stands, with the change,
//! in another row without records.
ghost use Rattle.std.specs.Prelude.{◌≡◌, ℕ, ◌<◌, ◌≤◌};
ghost use Rattle.atomic_table.specs.declared.Seat.{Seat};
ghost use Rattle.blink_batch.specs.declared.Op.{Op};
ghost use Rattle.blink_machine.specs.{NeedsWrite, PlainMachine, page_out};
ghost use Rattle.blink_live.specs.declared.view.View.{View};
ghost use Rattle.blink_live.specs.AtomicSteps.{PublishesPage};
ghost use Rattle.blink_live.specs.Seats.{HasSameNumber};
ghost use Rattle.blink_live.specs.Straight.{IsToChange, leaving};
ghost use Rattle.blink_live.specs.Updating.{CanWrite, IsUnderWay};

use crate::descent::{Descent, Spot};
use crate::live::Live;
use crate::room::Room;
use crate::view::View;
use atomic_table::Seat;
use blink_batch::Op;
use blink_page::Page;
use blink_rows::layout::ENTRY_WORDS;
use blink_rows::{HEAD_WORDS, Record, page_row};

impl Live {
    // Writes the next version of the leaf without records, and puts the row of the version before on the shelf. The version stands in
    // a free row of the shelf, or else in the first row of the room.
    #[inline(never)]
    pub(crate) fn put_leaf(
        &self,
        seat: &mut Seat<u8, View>,
        room: &mut Room,
        op: Op,
        descent: &Descent,
        spot: &Spot,
        change: &Record,
    )
        requires changes { (first : Seat ℕ View)
            × IsToChange self.now op descent.now first seat.old room.old spot.now change.now }
        ensures { (first : Seat ℕ View)
            → IsToChange self.now op descent.now first seat.old room.old spot.now change.now
            → IsUnderWay self.now op first seat.new (leaving self.now.fan op descent.now spot.now.kept)
            room.new }
    {
        // Read for the proof: the room's numbers are words.
        let _stop = room.rows.stop;
        let _key = op.key();
        self.fetch_row(room.first_row());
        let mut page = self.page_in_row(seat, spot.word);
        change.apply(&mut page);
        if let Some(row) = self.lend(seat, room) {
            let out = self.write_leaf(seat, descent.leaf, row, &page);
            self.put_rows_back(seat);
            Self::keep_out(seat, room, out);
            return;
        }
        let out = self.write_leaf(seat, descent.leaf, room.rows.next, &page);
        room.rows.next += 1;
        Self::keep_out(seat, room, out);
    }

    // Writes the version of the page of this number into the row, the first of the call's, and names it in the page word. Returns the
    // row of the version before.
    fn write_leaf(&self, seat: &mut Seat<u8, View>, number: u32, row: u64, page: &Page) -> u64
        requires can { (m : PlainMachine) × CanWrite self.now m row seat.old
            × NeedsWrite m number × (page.now ≡ page_out m 0) }
        requires in_range { (1 ≤ number) × (number < self.now.counts.numbers) }
        ensures same { HasSameNumber seat.old seat.new }
        ensures published { (m : PlainMachine) → seat.old.me.0.operation ≡ Some m → NeedsWrite m number
            → PublishesPage number result m seat.old.me seat.new.me }
    {
        let words = page_row(page);
        let count = HEAD_WORDS + ENTRY_WORDS * page.items.len();
        self.stage_row(seat, row, &words[..count]);
        self.name_row(seat, number, row)
    }
}
