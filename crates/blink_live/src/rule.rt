//! The rule of the table, and the kinds of its atomic steps.

use crate::view::{Opened, View};
use atomic_table::{Join, Play, Split, TableRule};
use std::marker::{Brand, PhantomData};

/// The rule: words and views represent a tree state for which the invariant holds.
pub struct InvariantOfTree;

impl TableRule<u8, View, Opened> for InvariantOfTree {
    ghost use Rattle.std.specs.Prelude.{length};
    ghost use Rattle.blink_live.specs.Rule.{IsTable};
    ghost use Rattle.blink_live.specs.Views.{plan_of, first_view};

    ghost holds = { λ opened. IsTable (plan_of opened) };

    ghost first = { λ opened. first_view (length opened.index.value.pages) (plan_of opened) };
}

/// The operation that a call begins. Each call picks it.
pub trait Begun {
    ghost use Rattle.blink_batch.specs.declared.Op.{Op};

    ghost op: { Op };
}

impl Begun for Brand {
    ghost use Rattle.blink_batch.specs.declared.Op.TheVariants.{Find};

    ghost op = { Find 0 };
}

/// The load of the prime block's page word by an operation that begins.
pub struct Begin<B> {
    of: PhantomData<B>,
}

impl<B: Begun> Play<u8, View> for Begin<B> {
    ghost use Rattle.blink_live.specs.AtomicSteps.{begins};

    ghost then = { begins B.op };
}

/// The load of a page word by an operation under way.
pub struct LoadPage;

impl Play<u8, View> for LoadPage {
    ghost use Rattle.blink_live.specs.AtomicSteps.{loads_page};

    ghost then = { loads_page };
}

/// The load of the prime block's page word by an operation under way.
pub struct LoadPrime;

impl Play<u8, View> for LoadPrime {
    ghost use Rattle.blink_live.specs.AtomicSteps.{loads_prime};

    ghost then = { loads_prime };
}

/// The load of the prime block's page word by a pass that holds a note. After it the pass has seen the note's changes too.
pub struct LookUp;

impl Play<u8, View> for LookUp {
    ghost use Rattle.blink_live.specs.AtomicSteps.{looks_up};

    ghost then = { looks_up };
}

/// The load of the prime block's page word by a pass that holds a note. After it the pass has seen no more than before.
pub struct LookBack;

impl Play<u8, View> for LookBack {
    ghost use Rattle.blink_live.specs.AtomicSteps.{looks_back};

    ghost then = { looks_back };
}

/// The load of the prime block's page word by the keeper, which may hold a note. After it the keeper has seen no more than
/// before.
pub struct LookAround;

impl Play<u8, View> for LookAround {
    ghost use Rattle.blink_live.specs.AtomicSteps.{looks_around};

    ghost then = { looks_around };
}

/// The load of a word of the row that a page word named.
pub struct LoadWord;

impl Play<u8, View> for LoadWord {
    ghost use Rattle.blink_live.specs.AtomicSteps.{loads_word};

    ghost then = { loads_word };
}

/// The load of a leaf's page word by an operation that has come to the leaf. The seat notes the row.
pub struct NoteLeaf;

impl Play<u8, View> for NoteLeaf {
    ghost use Rattle.blink_live.specs.Snapshots.{notes_leaf};

    ghost then = { notes_leaf };
}

/// The load of the prime block's page word that marks a tree state.
pub struct MarkState;

impl Play<u8, View> for MarkState {
    ghost use Rattle.blink_live.specs.Snapshots.{marks_state};

    ghost then = { marks_state };
}

/// The second load of a page word that a seat may have noted.
pub struct LookAgain;

impl Play<u8, View> for LookAgain {
    ghost use Rattle.blink_live.specs.Snapshots.{looks_again};

    ghost then = { looks_again };
}

/// The load of the page word of a leaf that the seat has noted. The seat notes the leaf to the right.
pub struct GoAlong;

impl Play<u8, View> for GoAlong {
    ghost use Rattle.blink_live.specs.Along.{goes_along};

    ghost then = { goes_along };
}

/// The compare-and-exchange in a latch word of 0 for the seat's own number.
pub struct TryLatch;

impl Play<u8, View> for TryLatch {
    ghost use Rattle.blink_live.specs.AtomicSteps.{tries_latch};

    ghost then = { tries_latch };
}

/// The store of 0 in a latch word that holds the seat's number.
pub struct LetGo;

impl Play<u8, View> for LetGo {
    ghost use Rattle.blink_live.specs.AtomicSteps.{lets_go};

    ghost then = { lets_go };
}

/// The load of the first word, of the first row that the seat's call may use, that the call doesn't know.
pub struct KnowWord;

impl Play<u8, View> for KnowWord {
    ghost use Rattle.blink_live.specs.AtomicSteps.{knows_more};

    ghost then = { knows_more };
}

/// The store of a word of the first row that the seat's call may use.
pub struct StoreWord;

impl Play<u8, View> for StoreWord {
    ghost use Rattle.blink_live.specs.AtomicSteps.{stores_word};

    ghost then = { stores_word };
}

/// The store of a word behind the fixed ones, in the row of a page that the seat's operation is to change.
pub struct AddWord;

impl Play<u8, View> for AddWord {
    ghost use Rattle.blink_live.specs.AtomicSteps.{adds_word};

    ghost then = { adds_word };
}

/// The store of a page's word, which names that row from then on.
pub struct Publish;

impl Play<u8, View> for Publish {
    ghost use Rattle.blink_live.specs.AtomicSteps.{publishes_page};

    ghost then = { publishes_page };
}

/// The store of a page's word, which names the same row and counts one record more.
pub struct AppendRecord;

impl Play<u8, View> for AppendRecord {
    ghost use Rattle.blink_live.specs.AtomicSteps.{appends_record};

    ghost then = { appends_record };
}

/// The store of a new page's word, which names that row from then on.
pub struct PublishNew;

impl Play<u8, View> for PublishNew {
    ghost use Rattle.blink_live.specs.AtomicSteps.{publishes_new};

    ghost then = { publishes_new };
}

/// The store of the prime block's page word, which names that row from then on.
pub struct PublishPrime;

impl Play<u8, View> for PublishPrime {
    ghost use Rattle.blink_live.specs.AtomicSteps.{publishes_prime};

    ghost then = { publishes_prime };
}

/// The store of a session's mark into its place's word: 0 while the session is idle.
pub struct MarkPlace;

impl Play<u8, View> for MarkPlace {
    ghost use Rattle.blink_live.specs.AtomicSteps.{marks_place};

    ghost then = { marks_place };
}

/// The compare-and-exchange in the pool's first word of a row for a later one: the seat has the rows between.
pub struct DrawRows;

impl Play<u8, View> for DrawRows {
    ghost use Rattle.blink_live.specs.AtomicSteps.{draws_rows};

    ghost then = { draws_rows };
}

/// The compare-and-exchange in the pool's second word of a page number for a later one: the seat has the numbers between, and
/// beside them those that it had.
pub struct DrawPages;

impl Play<u8, View> for DrawPages {
    ghost use Rattle.blink_live.specs.AtomicSteps.{draws_pages};

    ghost then = { draws_pages };
}

/// The load of the prime block's page word by a seat that takes back what its last call hasn't used.
pub struct GiveBack;

impl Play<u8, View> for GiveBack {
    ghost use Rattle.blink_live.specs.GivingBack.{giving_back};

    ghost then = { giving_back };
}

/// The load of the prime block's page word by a seat that gives its operation up, or the store of 0 in the latch word of the page that
/// this operation has latched.
pub struct GiveUp;

impl Play<u8, View> for GiveUp {
    ghost use Rattle.blink_live.specs.GivingUp.{giving_up};

    ghost then = { giving_up };
}

/// The load of the prime block's page word by a session whose taken-out rows begin to wait.
pub struct BeginWait;

impl Play<u8, View> for BeginWait {
    ghost use Rattle.blink_live.specs.ComingBack.{begins_wait};

    ghost then = { begins_wait };
}

/// The first load of a place's word since the session's rows began to wait.
pub struct SeePlace;

impl Play<u8, View> for SeePlace {
    ghost use Rattle.blink_live.specs.ComingBack.{sees_place};

    ghost then = { sees_place };
}

/// The second load of a place's word: its session may be past.
pub struct CheckPlace;

impl Play<u8, View> for CheckPlace {
    ghost use Rattle.blink_live.specs.ComingBack.{checks_place};

    ghost then = { checks_place };
}

/// The load of the prime block's page word by a session whose waiting rows are free.
pub struct Collect;

impl Play<u8, View> for Collect {
    ghost use Rattle.blink_live.specs.ComingBack.{collects};

    ghost then = { collects };
}

/// The load of the prime block's page word by a session whose last row of its span is a free one.
pub struct FreeRow;

impl Play<u8, View> for FreeRow {
    ghost use Rattle.blink_live.specs.ComingBack.{frees_row};

    ghost then = { frees_row };
}

/// The load of the prime block's page word by a session whose call is to write a free row.
pub struct TakeRowIn;

impl Play<u8, View> for TakeRowIn {
    ghost use Rattle.blink_live.specs.ComingBack.{takes_row_in};

    ghost then = { takes_row_in };
}

/// The load of the prime block's page word by a session whose other rows come back from aside.
pub struct PutRowsBack;

impl Play<u8, View> for PutRowsBack {
    ghost use Rattle.blink_live.specs.ComingBack.{puts_rows_back};

    ghost then = { puts_rows_back };
}

/// The load of the prime block's page word by a session whose call exchanges its page numbers and the spare ones.
pub struct ExchangeNumbers;

impl Play<u8, View> for ExchangeNumbers {
    ghost use Rattle.blink_live.specs.Spares.{exchanges_numbers};

    ghost then = { exchanges_numbers };
}

/// What a deal gives to a new pass, and which keys are taken after it. Each call picks them.
pub trait Dealt {
    ghost use Rattle.std.specs.Prelude.{ℕ, List};

    ghost rows: { ℕ };

    ghost pages: { ℕ };

    ghost keys: { List ℕ };

    ghost taken: { List ℕ };
}

impl Dealt for Brand {
    ghost use Rattle.std.specs.Prelude.{[]};

    ghost rows = { 0 };

    ghost pages = { 0 };

    ghost keys = { [] };

    ghost taken = { [] };
}

/// A deal: the new seat gets the first rows and page numbers, and the keeper keeps the rest.
pub struct Deal<B> {
    of: PhantomData<B>,
}

impl<B: Dealt> Split<View> for Deal<B> {
    ghost use Rattle.blink_live.specs.Views.{keeps_rest, gets_first};

    ghost left = { λ v. keeps_rest v B.rows B.pages B.taken };

    ghost right = { λ v. gets_first v B.rows B.pages B.keys };
}

/// The plan of the table that a pass comes back to. Each call picks it.
pub trait Planned {
    ghost use Rattle.blink_live.specs.declared.view.Plan.{Plan};

    ghost plan: { Plan };
}

impl Planned for Brand {
    ghost use Rattle.blink_live.specs.Views.{no_plan};

    ghost plan = { no_plan };
}

/// The keeper takes back a pass when the table closes. Its seat is spent.
pub struct TakeBack<B> {
    of: PhantomData<B>,
}

impl<B: Planned> Join<View> for TakeBack<B> {
    ghost use Rattle.blink_live.specs.Views.{spent, takes_back};

    ghost both = { takes_back };

    ghost spent = { spent B.plan };
}

/// The keys that are taken once a pass has come back, and the plan of the table. Each call picks them.
pub trait Retired {
    ghost use Rattle.std.specs.Prelude.{ℕ, List};
    ghost use Rattle.blink_live.specs.declared.view.Plan.{Plan};

    ghost taken: { List ℕ };

    ghost plan: { Plan };
}

impl Retired for Brand {
    ghost use Rattle.std.specs.Prelude.{[]};
    ghost use Rattle.blink_live.specs.Views.{no_plan};

    ghost taken = { [] };

    ghost plan = { no_plan };
}

/// The keeper takes back a pass while the table lives. Its keys are free, and its seat is spent.
pub struct Retire<B> {
    of: PhantomData<B>,
}

impl<B: Retired> Join<View> for Retire<B> {
    ghost use Rattle.blink_live.specs.Views.{retires, spent};

    ghost both = { λ v w. retires v B.taken w };

    ghost spent = { spent B.plan };
}

/// A note: what a pass or the keeper has seen becomes a seat of its own, for another to take.
pub struct Note;

impl Split<View> for Note {
    ghost use Rattle.blink_live.specs.Views.{note_of};

    ghost left = { λ v. v };

    ghost right = { note_of };
}

/// A pass or the keeper takes a note, whose seat is spent by that.
pub struct Hear<B> {
    of: PhantomData<B>,
}

impl<B: Planned> Join<View> for Hear<B> {
    ghost use Rattle.blink_live.specs.Views.{hears, spent};

    ghost both = { hears };

    ghost spent = { spent B.plan };
}

/// The host takes a session's account as the table closes. Its seat is spent.
pub struct TakeAccount<B> {
    of: PhantomData<B>,
}

impl<B: Planned> Join<View> for TakeAccount<B> {
    ghost use Rattle.blink_live.specs.Views.{spent, takes_account};

    ghost both = { takes_account };

    ghost spent = { spent B.plan };
}

/// The keys that a pass hands over. Each call picks them.
pub trait Handed {
    ghost use Rattle.std.specs.Prelude.{ℕ, List};

    ghost keys: { List ℕ };
}

impl Handed for Brand {
    ghost use Rattle.std.specs.Prelude.{[]};

    ghost keys = { [] };
}

/// A pass parts with some of its keys: they become a seat of their own, for another pass to take.
pub struct Part<B> {
    of: PhantomData<B>,
}

impl<B: Handed> Split<View> for Part<B> {
    ghost use Rattle.blink_live.specs.Parcels.{parcel_of, parts_with};

    ghost left = { λ v. parts_with v B.keys };

    ghost right = { λ v. parcel_of v B.keys };
}

/// All keys of a pass once it has taken some more, and the plan of the table. Each call picks them.
pub trait Received {
    ghost use Rattle.std.specs.Prelude.{ℕ, List};
    ghost use Rattle.blink_live.specs.declared.view.Plan.{Plan};

    ghost keys: { List ℕ };

    ghost plan: { Plan };
}

impl Received for Brand {
    ghost use Rattle.std.specs.Prelude.{[]};
    ghost use Rattle.blink_live.specs.Views.{no_plan};

    ghost keys = { [] };

    ghost plan = { no_plan };
}

/// A pass takes the keys that another has parted with. The seat that they were is spent.
pub struct Receive<B> {
    of: PhantomData<B>,
}

impl<B: Received> Join<View> for Receive<B> {
    ghost use Rattle.blink_live.specs.Parcels.{receives};
    ghost use Rattle.blink_live.specs.Views.{spent};

    ghost both = { λ v w. receives v B.keys w };

    ghost spent = { spent B.plan };
}
