//! The room of a map that opens: how many page numbers and rows it has beside its entries.
ghost use Rattle.std.specs.Prelude.{◌≡◌, ◌<◌, ◌≤◌, ◌+◌, ◌*◌, IfSome, IsNone};
ghost use Rattle.blink_page.specs.declared.limits.TheConstants.{MAX_PAGE};

use blink_generation::Room;
use blink_page::MAX_PAGE;

// A session finds so many page numbers and rows at least, if there is room for it.
const PAGES_OF_SESSION: u32 = 256;

const ROWS_OF_SESSION: u32 = 128;

// With fewer page numbers for each session no change could be sure of its own.
const LEAST_OF_SESSION: u32 = 44;

// A session has at most so many rows for its changes, however many there are.
const MOST_ROWS_OF_SESSION: u32 = 4_096;

// A map with so many places has room for the changes of as many sessions at least, whether they make any or not: few threads begin at once,
// and one that begins then finds room. A map with fewer places has room for all.
const LEAST_PARTS: u32 = 4;

/// For how many sessions a map with so many places has room, when so many sessions have made changes beside the one by which the map is
/// opened. So a map with many places takes memory for the sessions that are in use. A session more finds room too little sooner, and is
/// counted at the renewal then.
pub(crate) fn parts_for(busy: u32, places: u32) -> u32
    requires some { 1 ≤ places }
    ensures some { 1 ≤ result }
    ensures few { result ≤ places }
{
    busy.saturating_add(1).max(LEAST_PARTS).min(places)
}

/// Three times as many page numbers as the entries have pages, a row for each, which its page keeps, and as many more for changes, or as
/// many as the sessions may have for which there is room; `None`, if too few numbers are left. The map has so many places.
pub(crate) fn room_over(pages: u32, places: u32, parts: u32) -> Option<Room>
    requires pages { pages ≤ MAX_PAGE }
    requires places { places ≤ 256 }
    requires parts { parts ≤ places }
    ensures sessions { IfSome result (λ room. room.sessions ≡ places) }
    ensures fits { IfSome result (λ room. pages + room.pages ≤ MAX_PAGE) }
    ensures none { IsNone result → MAX_PAGE < pages + 44 * places }
{
    let left = MAX_PAGE - pages;
    if left < LEAST_OF_SESSION * parts {
        return None;
    }
    let pages = (3 * pages).max(PAGES_OF_SESSION * parts).min(left);
    Some(Room {
        pages,
        rows: pages + pages.min(MOST_ROWS_OF_SESSION * parts) + ROWS_OF_SESSION * parts,
        sessions: places,
    })
}

/// How many page numbers a map has in all that is opened over so many pages with that room.
pub(crate) fn numbers_over(pages: u32, parts: u32) -> u64
    requires pages { pages ≤ MAX_PAGE }
    requires parts { parts ≤ 256 }
{
    match room_over(pages, parts, parts) {
        Some(room) => u64::from(pages) + u64::from(room.pages),
        None => 0,
    }
}
