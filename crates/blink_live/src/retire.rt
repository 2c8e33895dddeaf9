//! Taking back a pass while the table lives, so that its keys can be dealt again.
ghost use Rattle.std.specs.Prelude.{◌≡◌, ◌⊎◌, ℕ, ◌<◌, Contains};
ghost use mathlib.Core.List.{IsPrefix};
ghost use Rattle.blink_live.specs.declared.view.Role.TheVariants.{Keeper as KeeperRole, Pass as PassRole};
ghost use Rattle.blink_live.specs.AtomicSteps.{LooksAround};
ghost use Rattle.blink_live.specs.Deals.{HasRetired};
ghost use Rattle.blink_live.specs.Handles.{IsKeeperOf, IsPassOf};
ghost use Rattle.blink_live.specs.Retiring.{HaveTold};
ghost use Rattle.blink_live.specs.Seats.{HasSameNumber, IsIdleIn, IsPassSeat};
ghost use Rattle.blink_live.specs.Views.{IsOwned, SawItsOwn, plan_of, retires};

use crate::keys::remove_all;
use crate::live::{Keeper, Live, Pass};
use crate::rule::{LookAround, Retire, Retired};
use crate::view::View;
use atomic_table::Seat;
use std::marker::Brand;

impl Live {
    /// Takes back a pass while the table lives. Its keys can be dealt again, with what they map to by then. The keeper has then
    /// seen all that the pass had seen. The rows and page numbers that the pass has left are never used. The call's work grows
    /// linearly with the keys that are taken. It takes no memory, waits for nobody, and is never refused.
    pub fn retire(&self, keeper: &mut Keeper, pass: Pass)
        requires its_keeper { IsKeeperOf self.now keeper.old }
        requires its_pass { IsPassOf self.now pass }
        ensures { HasRetired self.now keeper.old pass keeper.new }
    {
        let Keeper {
            seat,
            taken,
            rows: _,
            pages: _,
            dealt: _,
            back,
        } = keeper;
        let Pass {
            seat: mut other,
            keys,
            rows: _,
            pages: _,
        } = pass;
        self.tell_each_other(seat, &mut other);
        remove_all(taken, &keys);
        self.take_in::<Brand>(seat, other, taken);
        self.look_around(seat);
        *back += 1;
    }

    // The pass's seat sees all changes so far, and all that the keeper's seat has seen. Of the free keys it sees no more than the
    // keeper's seat has seen.
    fn tell_each_other(&self, seat: &mut Seat<u8, View>, other: &mut Seat<u8, View>)
        requires table { seat.old.table_id ≡ self.now.table.shared.table_id }
        requires keeper { (dealt : ℕ) × (back : ℕ) × (seat.old.me.0.role ≡ KeeperRole dealt back) }
        requires owned { IsOwned seat.old.me.0.plan }
        requires pass { IsPassSeat self.now other.old.table_id other.old.me }
        ensures same { HasSameNumber seat.old seat.new × HasSameNumber other.old other.new }
        ensures told { HaveTold seat.old.me other.old.me seat.new.me other.new.me }
    {
        self.pass_on(seat, other);
        self.look_up(other);
        self.pass_on(other, seat);
        self.look_around(seat);
    }

    // The keeper's seat sees no more changes. After the load it knows that its note shows of the free keys no more than it has
    // seen, and that no more passes are back than were dealt.
    fn look_around(&self, seat: &mut Seat<u8, View>)
        requires table { seat.old.table_id ≡ self.now.table.shared.table_id }
        requires keeper { (dealt : ℕ) × (back : ℕ) × (seat.old.me.0.role ≡ KeeperRole dealt back) }
        requires owned { IsOwned seat.old.me.0.plan }
        ensures same { HasSameNumber seat.old seat.new }
        ensures around { LooksAround seat.old.me seat.new.me }
    {
        self.table.shared.load::<LookAround>(seat, 0);
    }

    // The keeper's seat takes the view of a pass, whose keys are free then.
    fn take_in<B: Retired>(&self, seat: &mut Seat<u8, View>, other: Seat<u8, View>, taken: &[u64])
        requires tables { (seat.old.table_id ≡ self.now.table.shared.table_id)
            × (other.table_id ≡ self.now.table.shared.table_id) }
        requires picked { (taken.now ≡ B.taken) × (B.plan ≡ plan_of self.now.table.shared.key) }
        requires keeper { (dealt : ℕ) × (back : ℕ) × (seat.old.me.0.role ≡ KeeperRole dealt back) }
        requires owned { IsOwned seat.old.me.0.plan }
        requires pass { IsIdleIn PassRole other.me }
        requires saw { SawItsOwn other.me.0 × IsPrefix seat.old.me.0.seen other.me.0.seen }
        requires free { (key : ℕ) → ¬ Contains taken.now key
            → (¬ Contains seat.old.me.0.taken key) ⊎ Contains other.me.0.share.keys key }
        ensures same { HasSameNumber seat.old seat.new }
        ensures back { seat.new.me ≡ (retires seat.old.me.0 taken.now other.me.0, seat.old.me.1) }
    {
        self.table.shared.join_seat::<Retire<B>>(seat, other);
    }
}
