//! Renewing a growing map from which many entries were removed. Emptied leaves stay in the current map, and a scan, or a look for its first
//! or last entry, passes them. No clause speaks of it: a renewal keeps what the other calls promise.
ghost use Rattle.std.specs.Prelude.{◌≤◌};
ghost use Rattle.blink_map.specs.Sessions.{IsSessionOf};

use crate::growing::{GrowingMap, Session};
use crate::renew::Reason;
use crate::room::numbers_over;
use blink_batch::{Answer, Op};
use blink_generation::Map;
use blink_index::Index;
use std::alloc::Global;
use std::sync::atomic::{AtomicU64, Ordering};

// One insertion and one removal of about so many is counted, for all of them, so that threads seldom meet at the counts.
const COUNTED: u64 = 16;

// Odd factors that mix a key and a count.
const KEY_FACTOR: u64 = 0x9E37_79B9_7F4A_7C15;

const COUNT_FACTOR: u64 = 0xD134_2543_DE82_EF95;

// So many removals for each session that the map has room for are borne in a map of any size: a renewal opens a table with 640 rows for
// each, which is 0.4 MB.
const BORNE_FOR_SESSION: u64 = 1_024;

// What a map begins to count with: about how many entries it has had, with a few more for each session that it has room for, and how many
// page numbers it has in all.
#[derive(Clone, Copy)]
pub(crate) struct FirstCounts {
    pub(crate) had: u64,
    pub(crate) numbers: u64,
}

impl GrowingMap {
    /// Renews the map by this session (`try_renew_by`) where many of its leaves are empty: if more entries were removed since it was opened
    /// or renewed last than are left, with 1,024 more for each session that the map has room for (`open`), and if the map uses more than
    /// twice the pages that so many need half full. Where keys come and go in no order, few leaves are emptied, so the map stays. The
    /// caller does it after removals, once the session is released. The session stays as it is. The call waits for nobody. It looks `looks`
    /// times for each session that is in a call, or held. Where the map can't be renewed for now, or needn't be, it stays as it is, and the
    /// count begins anew. So it is where the room is fixed.
    ///
    /// So a scan from the front passes a bounded number of emptied leaves: after each count the map uses at most four times the pages that
    /// the entries left, and 1,024 for each session that the map has room for, would fill.
    ///
    /// What it costs is spread over the removals. A renewal copies the entries that are left, so no more than one for each removal.
    pub fn renew_if_worn_by(&self, alloc: Global, session: &Session, looks: u32)
        requires its_own { IsSessionOf self.now session.now }
    {
        let removed = self.removed.load(Ordering::SeqCst);
        let had = self.had.load(Ordering::SeqCst);
        if removed <= had / 2 {
            return;
        }
        let begun = self
            .removed
            .compare_exchange(removed, 0, Ordering::SeqCst, Ordering::SeqCst);
        if begun.is_ok() {
            self.had
                .store(had.saturating_sub(removed), Ordering::SeqCst);
            let _outcome = self.renew_unless_busy(alloc, session.slot, Reason::Worn, looks);
        }
    }

    // Whether the map uses more than twice the pages that the entries need half full.
    pub(crate) fn is_worn(&self, map: &Map) -> bool {
        let (_rows, unused) = map.room();
        let used = self.numbers.load(Ordering::SeqCst).saturating_sub(unused);
        used.saturating_mul(u64::from(self.fan)) / 4 > self.had.load(Ordering::SeqCst)
    }

    // Counts the entry that an operation has inserted or removed.
    pub(crate) fn count(&self, op: Op, answer: Answer) {
        match answer {
            Answer::Inserted => count_drawn(&self.had, op.key()),
            Answer::Removed(_) => count_drawn(&self.removed, op.key()),
            _ => {}
        }
    }

    // Counts the entry that an operation which waited has inserted or removed. Few wait, so each is counted for itself.
    pub(crate) fn count_waited(&self, answer: Answer) {
        match answer {
            Answer::Inserted => {
                self.had.fetch_add(1, Ordering::SeqCst);
            }
            Answer::Removed(_) => {
                self.removed.fetch_add(1, Ordering::SeqCst);
            }
            _ => {}
        }
    }

    // Begins to count in another map.
    pub(crate) fn begin_count(&self, counts: FirstCounts) {
        self.numbers.store(counts.numbers, Ordering::SeqCst);
        self.had.store(counts.had, Ordering::SeqCst);
        self.removed.store(0, Ordering::SeqCst);
    }
}

// Counts sixteen where the key is drawn.
fn count_drawn(count: &AtomicU64, key: u64) {
    if is_drawn(key, count.load(Ordering::SeqCst)) {
        count.fetch_add(COUNTED, Ordering::SeqCst);
    }
}

// Whether a change of this key is counted, after so many: about one of sixteen. The draw differs from one count to the next, so the changes of
// a key that comes and goes again and again aren't all counted. Where only a few such keys are, none may be drawn any more; then few leaves
// are emptied, too.
fn is_drawn(key: u64, count: u64) -> bool {
    let mixed = key
        .wrapping_mul(KEY_FACTOR)
        .wrapping_add(count.wrapping_mul(COUNT_FACTOR));
    (mixed ^ (mixed >> 32)).wrapping_mul(KEY_FACTOR) < u64::MAX / COUNTED
}

// What a map begins with that is opened over this index in a renewal, with room for so many sessions.
pub(crate) fn first_counts(index: &Index, parts: u32) -> FirstCounts
    requires parts { parts ≤ 256 }
{
    FirstCounts {
        had: had_at_first(index.len(), parts),
        numbers: numbers_over(index.page_count(), parts),
    }
}

// What `had` begins with in a map that is opened with so many entries, and room for so many sessions.
pub(crate) fn had_at_first(entries: usize, parts: u32) -> u64 {
    u64::from(parts)
        .saturating_mul(BORNE_FOR_SESSION)
        .saturating_add(entries as u64)
}
