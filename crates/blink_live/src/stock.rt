//! How a session's call takes up a row that came back, or its spare page numbers, and gives up the others meanwhile. How rows come
//! back is the map's.
ghost use Rattle.std.specs.Prelude.{◌≡◌, ◌∷◌, ◌≤◌, ℕ, List};
ghost use Rattle.blink_live.specs.ComingBack.{puts_back, takes_in};
ghost use Rattle.blink_live.specs.Seats.{HasSameNumber, IsPassSeat};
ghost use Rattle.blink_live.specs.Spares.{ExchangesNumbers, HasAny};
ghost use Rattle.blink_live.specs.Words.{IsRowNumber};

use crate::live::Live;
use crate::rule::{ExchangeNumbers, PutRowsBack, TakeRowIn};
use crate::view::View;
use atomic_table::Seat;

impl Live {
    // The seat's call may use the first of the free rows, and that row alone. Its other rows are set aside.
    pub(crate) fn take_row_in(&self, seat: &mut Seat<u8, View>)
        requires seat { IsPassSeat self.now seat.old.table_id seat.old.me }
        requires common { 1 ≤ self.now.places }
        requires some_free { (row : ℕ) × (rest : List ℕ) × (seat.old.me.0.stock.free ≡ row ∷ rest) }
        ensures same { HasSameNumber seat.old seat.new }
        ensures taken { (row : ℕ) (rest : List ℕ) → seat.old.me.0.stock.free ≡ row ∷ rest
            → (seat.new.me ≡ (takes_in seat.old.me.0 row rest, seat.old.me.1))
            × IsRowNumber self.now.counts row }
    {
        self.table.shared.load::<TakeRowIn>(seat, 0);
    }

    // The rows that were set aside are the seat's and its call's again.
    pub(crate) fn put_rows_back(&self, seat: &mut Seat<u8, View>)
        requires seat { IsPassSeat self.now seat.old.table_id seat.old.me }
        requires common { 1 ≤ self.now.places }
        ensures same { HasSameNumber seat.old seat.new }
        ensures back { seat.new.me ≡ (puts_back seat.old.me.0, seat.old.me.1) }
    {
        self.table.shared.load::<PutRowsBack>(seat, 0);
    }

    // The seat's call may use the spare page numbers, and those that it could use are the spare ones.
    pub(crate) fn exchange_numbers(&self, seat: &mut Seat<u8, View>)
        requires seat { IsPassSeat self.now seat.old.table_id seat.old.me }
        requires some { HasAny seat.old.me.0.stock.spare }
        ensures same { HasSameNumber seat.old seat.new }
        ensures exchanged { ExchangesNumbers seat.old.me seat.new.me }
    {
        self.table.shared.load::<ExchangeNumbers>(seat, 0);
    }
}
