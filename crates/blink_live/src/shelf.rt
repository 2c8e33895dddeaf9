//! Where a session keeps the rows and the page numbers of its stock, and how an operation writes such rows.
ghost use Rattle.std.specs.Prelude.{◌≡◌, ◌↔◌, suc, IfNone, IfSome, IsTrue};
ghost use Rattle.blink_live.specs.Seats.{HasSameNumber, IsPassSeat};
ghost use Rattle.blink_live.specs.Shelves.{HasSpaceFor, IsLent, IsSameBesideShelf, IsShelved, IsShelvedBut, KeepsSpace, KeepsSpaceButOne, free_in};
ghost use Rattle.blink_live.specs.Spares.{HasAny, HasExchanged, HasSpareOf, spare_on};
ghost use Rattle.blink_live.specs.Words.{IsRowNumber};

use crate::live::Live;
use crate::room::Room;
use crate::view::View;
use atomic_table::Seat;
use blink_rows::Span;
use std::mem;

/// The rows of a session's stock, what it has seen of the places while some of them wait, and its spare page numbers. The memory
/// of each list is taken once.
#[derive(Drop)]
pub struct Shelf {
    /// The rows that no seat reads.
    pub free: Vec<u64>,
    /// The rows that were taken out since the waiting ones began to wait.
    pub retired: Vec<u64>,
    /// The rows that wait.
    pub waiting: Vec<u64>,
    /// The marks of the places as the wait began, from the first place on.
    pub before: Vec<u64>,
    /// The number of places, from the first on, whose sessions are past.
    pub passed: u64,
    /// The page numbers that were left of the session's span when it drew others. It uses these first.
    pub spare: Span,
}

impl Live {
    // Takes the shelf's last free row for the call to write, if there is one. The call's other rows are set aside.
    pub(crate) fn lend(&self, seat: &mut Seat<u8, View>, room: &mut Room) -> Option<u64>
        requires seat { IsPassSeat self.now seat.old.table_id seat.old.me }
        requires shelved { IsShelved room.old.shelf seat.old.me.0 }
        ensures same { HasSameNumber seat.old seat.new }
        ensures lent { IfSome result (λ row. IsLent row seat.old.me seat.new.me room.new) }
        ensures in_range { IfSome result (IsRowNumber self.now.counts) }
        ensures one_less { IfSome result
            (λ _. free_in room.old.shelf ≡ suc (free_in room.new.shelf)) }
        ensures none { IfNone result (seat.new.me ≡ seat.old.me) }
        ensures none_free { IfNone result (free_in room.old.shelf ≡ 0) }
        ensures space { KeepsSpace room.old.shelf room.new.shelf }
        ensures shelved { IfNone result (IsShelved room.new.shelf seat.new.me.0) }
        ensures same_room { IsSameBesideShelf room.old room.new }
    {
        let shelf = room.shelf.as_mut()?;
        let row = shelf.free.pop()?;
        self.take_row_in(seat);
        Some(row)
    }

    // Puts a row that the seat has taken out on the shelf, which has room for it.
    pub(crate) fn keep_out(_seat: &Seat<u8, View>, room: &mut Room, out: u64)
        requires shelved { IsShelvedBut out room.old.shelf _seat.now.me.0 }
        requires space { HasSpaceFor room.old.shelf 1 }
        ensures shelved { IsShelved room.new.shelf _seat.now.me.0 }
        ensures same_room { IsSameBesideShelf room.old room.new }
        ensures same_free { free_in room.new.shelf ≡ free_in room.old.shelf }
        ensures space { KeepsSpaceButOne room.old.shelf room.new.shelf }
    {
        let Some(shelf) = room.shelf.as_mut() else {
            return;
        };
        if shelf.retired.push(out).is_err() {
            unreachable!()
        }
    }

    // The room has the shelf's spare page numbers for the call, and the shelf keeps those that the room had.
    pub(crate) fn exchange_spare(&self, seat: &mut Seat<u8, View>, room: &mut Room)
        requires seat { IsPassSeat self.now seat.old.table_id seat.old.me }
        requires pages { room.old.pages ≡ seat.old.me.0.call.pages }
        requires spare { HasSpareOf room.old.shelf seat.old.me.0 }
        requires some { HasAny (spare_on room.old.shelf) }
        ensures same { HasSameNumber seat.old seat.new }
        ensures exchanged { HasExchanged self.now.counts seat.old.me seat.new.me room.old room.new }
    {
        let Some(shelf) = room.shelf.as_mut() else {
            unreachable!()
        };
        mem::swap(&mut room.pages, &mut shelf.spare);
        self.exchange_numbers(seat);
    }
}

// Whether the shelf has spare page numbers.
pub(crate) fn has_spare(shelf: &Option<Shelf>) -> bool
    ensures { IsTrue result ↔ HasAny (spare_on shelf.now) }
{
    match shelf {
        Some(shelf) => shelf.spare.next < shelf.spare.stop,
        None => false,
    }
}
