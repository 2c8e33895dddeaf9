//! What an operation that changes a map may use: rows and page numbers of its session, which draws them, and takes back what is left.
ghost use Rattle.std.specs.Prelude.{◌≡◌, ◌↔◌, ◌+◌, ◌-◌, ◌<◌, ◌≤◌, None, Some, IfSome, IsNone, IsTrue};
ghost use Rattle.blink_live.specs.{CanGiveBack, HasSameNumber, HasSpaceFor, IsPassSeat, KnowsAuthors, free_in, gives_back, is_busy, length_of, pages_of, rows_of, rows_on, rows_taken, span, spare_on};
ghost use Rattle.blink_generation.specs.Drawing.{KeepsNumbers};
ghost use Rattle.blink_generation.specs.declared.map.Session.{Session};
ghost use Rattle.blink_generation.specs.Changing.{HasDrawn};
ghost use Rattle.blink_generation.specs.Places.{IsMemberOf};
ghost use Rattle.blink_generation.specs.Putting.{IsUnchangedBy, LacksKeyOf};
ghost use Rattle.blink_generation.specs.Sessions.{HasRoom, HasRoomInAll, IsAnswered, IsSameBesideRoom, IsSessionOf, LacksRoom};

use crate::map::{Map, Session};
use crate::member::Member;
use crate::pool::{draw_pages, draw_rows};
use crate::recycle::{free_rows, recycle};
use crate::steps::{give_back, mark_place};
use crate::waiting::{LOOKS, PAGE_CHUNK, ROW_CHUNK};
use atomic_table::Seat;
use blink_batch::{Answer, Op};
use blink_live::{Live, Room, Shelf, View};
use blink_page::MAX_NEW_PAGES_PER_INSERT;
use blink_rows::{MAX_ROWS_PER_INSERT, Span};
use std::hint;

// What each session puts into the latch words of pages.
const LATCH: u64 = 1;

impl Map {
    // The answer of an operation that its session lacks room for, since it was `before`: an insertion has one, if its key is there.
    pub(crate) fn answer_with_no_room(&self, session: &mut Session, op: Op) -> Option<Answer>
        requires its_own { IsSessionOf self.now session.old }
        ensures answered { IfSome result (λ answer. (before : Session)
            → IsSameBesideRoom before session.old → IsAnswered self.now op before session.new answer) }
        ensures refused { IsNone result → (before : Session) → IsSameBesideRoom before session.old
            → LacksKeyOf self.now op before session.new × IsUnchangedBy op before session.new }
        ensures full { (before : Session) → LacksRoom op before session.old
            → LacksRoom op before session.new }
    {
        match op {
            Op::Insert(key, _pointer) => match self.find(session, key) {
                Some(there) => Some(Answer::Exists(there)),
                None => None,
            },
            _ => None,
        }
    }
}

impl Member {
    // Where the member hasn't the room that the operation may need, it takes back the rows that have come back, and draws from the
    // pool what it still lacks. Returns whether it has the room then.
    pub(crate) fn draw(&mut self, live: &Live, op: Op) -> bool
        requires its_own { IsMemberOf live.now self.old }
        ensures drawn { HasDrawn (rows_of op) (pages_of op) self.old self.new }
        ensures enough { IsTrue result → HasRoom op self.new }
        ensures lacks { ¬ IsTrue result → (¬ HasRoom op self.old) × (¬ HasRoom op self.new) }
    {
        if self.has_room(op) {
            return true;
        }
        let (rows, pages) = needed_by(op);
        self.draw_pages(live, pages);
        if self.has_room(op) {
            return true;
        }
        self.recycle(live, 1);
        if self.has_room(op) {
            return true;
        }
        self.draw_rows(live, rows);
        self.catch_up(live, op)
    }

    // Looks some times whether the rows come back that the operation may need, and returns whether the member has the room then. So
    // a call that is in progress elsewhere, and ends soon, refuses no operation that mustn't wait.
    fn catch_up(&mut self, live: &Live, op: Op) -> bool
        requires its_own { IsMemberOf live.now self.old }
        ensures drawn { HasDrawn 0 0 self.old self.new }
        ensures enough { IsTrue result → HasRoom op self.new }
        ensures lacks { ¬ IsTrue result → ¬ HasRoom op self.new }
    {
        for _ in 0..LOOKS {
            if self.has_room(op) || !self.will_have_room(op) {
                break;
            }
            hint::spin_loop();
            self.recycle(live, 1);
        }
        self.has_room(op)
    }

    // Brings rows that the member's changes have taken out nearer to its free ones. At least `least` rows begin to wait together.
    pub(crate) fn recycle(&mut self, live: &Live, least: usize)
        requires its_own { IsMemberOf live.now self.old }
        ensures drawn { HasDrawn 0 0 self.old self.new }
        ensures rows { self.new.rows ≡ self.old.rows }
        ensures pages { self.new.pages ≡ self.old.pages }
    {
        let Member {
            seat,
            rows: _,
            pages: _,
            place: _,
            room,
            mark: _,
        } = self;
        if let Some(shelf) = room.shelf.as_mut() {
            recycle(live, seat, shelf, least);
        }
    }

    // Draws rows, if the member has fewer than these at hand, and fewer in all than it may have. What its span has left goes onto
    // the shelf before, so that the draw loses none.
    fn draw_rows(&mut self, live: &Live, least: u64)
        requires its_own { IsMemberOf live.now self.old }
        ensures { HasDrawn least 0 self.old self.new }
    {
        let has = self.rows.len().saturating_add(free_in(&self.room.shelf));
        let quota = quota_of(&self.room.shelf).saturating_sub(self.rows.len());
        let most = lacking_on(&self.room.shelf, quota).min(ROW_CHUNK);
        if has >= least || most == 0 {
            return;
        }
        let Member {
            seat,
            rows,
            pages: _,
            place: _,
            room,
            mark: _,
        } = self;
        if let Some(shelf) = room.shelf.as_mut() {
            free_rows(live, seat, rows, shelf);
        }
        if rows.next < rows.stop {
            return;
        }
        let need = lacking_on(&room.shelf, least).max(1).min(most);
        if let Some(drawn) = draw_rows(live, seat, need, most) {
            *rows = drawn;
        }
    }

    // Draws page numbers, if the member has fewer than these in its span. What this has left goes beside, so that the draw loses none.
    fn draw_pages(&mut self, live: &Live, least: u64)
        requires its_own { IsMemberOf live.now self.old }
        requires few { least ≤ PAGE_CHUNK }
        ensures drawn { HasDrawn 0 least self.old self.new }
        ensures none_lost { KeepsNumbers self.old.pages (spare_on self.old.room.shelf)
            self.new.pages (spare_on self.new.room.shelf) }
    {
        let Member {
            seat,
            rows: _,
            pages,
            place: _,
            room,
            mark: _,
        } = self;
        if pages.len() >= least {
            return;
        }
        if let Some(shelf) = room.shelf.as_mut() {
            let drawn = draw_pages(live, seat, *pages, shelf.spare, least, PAGE_CHUNK);
            if let Some((drawn, left)) = drawn {
                *pages = drawn;
                shelf.spare = left;
            }
        }
    }

    // Whether the member has the room that the operation may need.
    fn has_room(&self, op: Op) -> bool
        ensures { IsTrue result ↔ HasRoom op self.now }
    {
        let (rows, pages) = needed_by(op);
        rows.saturating_sub(self.rows.len()) <= free_in(&self.room.shelf)
            && pages <= self.pages.len()
            && has_space(&self.room.shelf, rows)
    }

    // Whether it will have it once all its rows have come back.
    pub(crate) fn will_have_room(&self, op: Op) -> bool
        ensures { IsTrue result ↔ HasRoomInAll op self.now }
    {
        let (rows, pages) = needed_by(op);
        lacking_on(&self.room.shelf, rows) <= self.rows.len() && pages <= self.pages.len()
    }
}

// The number of the shelf's free rows.
fn free_in(shelf: &Option<Shelf>) -> u64
    ensures { result ≡ free_in shelf.now }
{
    match shelf {
        Some(shelf) => shelf.free.len() as u64,
        None => 0,
    }
}

// The number of rows that the shelf's session has at most, in all: the shelf has room for these, and for those that an insertion
// takes out beside.
fn quota_of(shelf: &Option<Shelf>) -> u64 {
    match shelf {
        Some(shelf) => (shelf.free.capacity() as u64).saturating_sub(MAX_ROWS_PER_INSERT),
        None => 0,
    }
}

// How many of so many rows the shelf hasn't, also once all its rows are free.
fn lacking_on(shelf: &Option<Shelf>, rows: u64) -> u64
    ensures { result ≡ rows - rows_on shelf.now }
{
    match shelf {
        Some(shelf) => rows
            .saturating_sub(shelf.free.len() as u64)
            .saturating_sub(shelf.waiting.len() as u64)
            .saturating_sub(shelf.retired.len() as u64),
        None => rows,
    }
}

// Whether the shelf has room for so many more rows that are taken out.
fn has_space(shelf: &Option<Shelf>, count: u64) -> bool
    ensures { IsTrue result ↔ HasSpaceFor shelf.now count }
{
    match shelf {
        Some(shelf) => {
            let (taken, room) = (shelf.retired.len(), shelf.retired.capacity());
            taken <= room && count <= (room - taken) as u64
        }
        None => true,
    }
}

// The number of rows that an operation may need, and of page numbers.
fn needed_by(op: Op) -> (u64, u64)
    ensures { (result.0 ≡ rows_of op) × (result.1 ≡ pages_of op) }
{
    match op {
        Op::Find(_) => (0, 0),
        Op::Insert(..) => (MAX_ROWS_PER_INSERT, MAX_NEW_PAGES_PER_INSERT),
        Op::Delete(_) | Op::Replace(..) | Op::Exchange(..) | Op::DeleteExact(..) => (1, 0),
    }
}

// The room of a member with this shelf, of which no operation has begun yet.
pub(crate) fn room_with(shelf: Shelf) -> Room
    ensures { result.shelf ≡ Some shelf }
{
    Room {
        rows: Span { next: 1, stop: 1 },
        pages: Span { next: 1, stop: 1 },
        latch_number: LATCH,
        shelf: Some(shelf),
    }
}

// Aims the room at an operation, which may use the first of these rows and page numbers, and writes the free rows of the shelf
// first. The shelf stays where it is: an exchange waits for all stores before it, and to move a shelf to and fro takes some forty.
pub(crate) fn aim(room: &mut Room, op: Op, rows: &Span, pages: &Span)
    requires in_order { (rows.now.next ≤ rows.now.stop) × (pages.now.next ≤ pages.now.stop) }
    requires pages { pages_of op ≤ length_of pages.now }
    ensures rows { room.new.rows ≡ span rows.now.next (rows.now.next + rows_taken op rows.now) }
    ensures pages { room.new.pages ≡ span pages.now.next (pages.now.next + pages_of op) }
    ensures latch { room.new.latch_number ≡ 1 }
    ensures shelf { room.new.shelf ≡ room.old.shelf }
{
    let (row_count, page_count) = needed_by(op);
    let _row_stop = rows.stop;
    let _page_stop = pages.stop;
    room.rows = Span {
        next: rows.next,
        stop: rows.next + row_count.min(rows.len()),
    };
    room.pages = Span {
        next: pages.next,
        stop: pages.next + page_count,
    };
    room.latch_number = LATCH;
}

// The seat takes back what its operation, which has ended, hasn't used of its rows and page numbers. Its place is idle again.
pub(crate) fn come_back(live: &Live, seat: &mut Seat<u8, View>, place: u64)
    requires seat { IsPassSeat live.now seat.old.table_id seat.old.me }
    requires can { CanGiveBack seat.old.me.0 }
    requires ended { seat.old.me.0.operation ≡ None }
    requires place { (place ≡ seat.old.me.0.place) × (place < live.now.places) }
    ensures same { HasSameNumber seat.old seat.new }
    ensures idle { seat.new.me ≡ (is_busy (gives_back seat.old.me.0) 0, seat.old.me.1) }
    ensures authors { KnowsAuthors seat.new.me.0 }
{
    give_back(live, seat);
    mark_place(live, seat, place, 0);
}
