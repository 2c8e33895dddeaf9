//! Finds of several keys by one call, whose loads overlap.
//!
//! A seat has one operation at a time, so the finds themselves come one after another. Before each group of them a scout goes
//! down the tree for all its keys at once, a level at a time, so that the loads of different keys are on their way together. It
//! loads words without a seat, which tells it nothing for certain. But it fetches the lines of the cache that the finds are to
//! read, and leaves a trail for each find, which tests what its trail says. The keys are looked for among the pass's own in the
//! same way.
ghost use Rattle.std.specs.Prelude.{◌≡◌, ◌≤◌, ◌↔◌, IsTrue, IsFalse, IfErr, OnErr, OnOk, IsErrOf, Contains, length, map};
ghost use Rattle.std.specs.List.Sorted.{IsStrictlyIncreasing};
ghost use Rattle.blink_batch.specs.{pointer_of};
ghost use Rattle.blink_page.specs.declared.limits.TheConstants.{LEVELS};
ghost use Rattle.blink_live.specs.Finding.{AllAreOwn, AreFound, HasForeign, HasSearched, IsIdle};
ghost use Rattle.blink_live.specs.Handles.{IsPassOf, IsSameBesideSeen, KnowsItsKeys, keys_of, share_of};
ghost use Rattle.blink_live.specs.Seats.{HasSameNumber, IsPassSeat};
ghost use Rattle.blink_live.specs.Views.{known_of};

use crate::error::PassError;
use crate::keys::{is_among, stands_at};
use crate::live::{Live, Pass};
use crate::view::View;
use atomic_table::Seat;
use blink_batch::Answer;
use blink_page::LEVELS;
use blink_rows::layout::{COUNT, ENTRY_WORDS};
use blink_rows::{HEAD_WORDS, row_in};

// The number of keys that a scout goes down for at once.
const GROUP: usize = 8;

// The steps of a search by halves in a page: with any number of entries, their sum reaches behind the last.
const HALVES: [u8; 6] = [16, 8, 4, 2, 1, 1];

/// Where a scout saw a key lead: for each level the place of the entry, in the page that it came to.
#[derive(Clone, Copy)]
pub struct Trail {
    pub places: [u8; LEVELS],
}

impl Live {
    /// Looks up several keys of the pass, of which the loads overlap: where the tree is larger than the processor's cache, that
    /// takes less time than as many calls of `find`. To each key it answers, in its place, the record pointer or `None` if the
    /// key is absent, whatever other passes do at the same time. It takes no memory, waits for nobody, and returns.
    ///
    /// The call refuses with `NotYours` if one of the keys isn't the pass's. Then it reads nothing, and the answers stay as they
    /// were.
    pub fn find_all(
        &self,
        pass: &mut Pass,
        keys: &[u64],
        answers: &mut [Option<u64>],
    ) -> Result<(), PassError>
        requires its_own { IsPassOf self.now pass.old }
        requires places { length answers.old ≡ length keys.now }
        ensures answers { OnOk result (answers.new ≡ map (pointer_of (share_of pass.old)) keys.now) }
        ensures knows { OnOk result (KnowsItsKeys self.now pass.new) }
        ensures not_yours { IsErrOf result PassError.NotYours ↔ HasForeign (keys_of pass.old) keys.now }
        ensures refused { IfErr result (λ refusal. refusal ≡ PassError.NotYours) }
        ensures same { IsSameBesideSeen pass.old pass.new }
        ensures unchanged { OnErr result (pass.new ≡ pass.old) }
        ensures unanswered { OnErr result (answers.new ≡ answers.old) }
    {
        if !are_among(&pass.keys, keys) {
            return Err(PassError::NotYours);
        }
        let Pass {
            seat,
            keys: _,
            rows: _,
            pages: _,
        } = pass;
        self.look_up(seat);
        self.search_all(seat, keys, answers);
        Ok(())
    }

    /// Answers a find of each of these keys, one after another. Before each group of finds it sends a scout.
    pub fn search_all(&self, seat: &mut Seat<u8, View>, keys: &[u64], answers: &mut [Option<u64>])
        requires seat { IsPassSeat self.now seat.old.table_id seat.old.me }
        requires idle { IsIdle seat.old.me.0 }
        requires places { length answers.old ≡ length keys.now }
        ensures same_table { HasSameNumber seat.old seat.new }
        ensures searched { HasSearched seat.old.me seat.new.me }
        ensures found { AreFound seat.old.me keys.now answers.new seat.new.me }
    {
        let mut trails = [no_trail(); GROUP];
        for place in 0..keys.len() {
            let slot = place % GROUP;
            if slot == 0 {
                trails = self.scout(&group_of(&keys[place..]));
            }
            answers[place] = self.pointer(seat, keys[place], &trails[slot]);
        }
    }

    // Looks up a key.
    fn pointer(&self, seat: &mut Seat<u8, View>, key: u64, trail: &Trail) -> Option<u64>
        requires seat { IsPassSeat self.now seat.old.table_id seat.old.me }
        requires idle { IsIdle seat.old.me.0 }
        ensures same_table { HasSameNumber seat.old seat.new }
        ensures searched { HasSearched seat.old.me seat.new.me }
        ensures pointer { result ≡ known_of seat.new.me.0 key }
    {
        match self.search(seat, key, Some(trail)) {
            Answer::Found(pointer) => Some(pointer),
            _ => None,
        }
    }

    // Goes down the tree for all of these keys at once, and returns a trail for each.
    fn scout(&self, keys: &[u64; GROUP]) -> [Trail; GROUP] {
        let (root, levels) = self.glimpse_root();
        let mut trails = [no_trail(); GROUP];
        let mut numbers = [root; GROUP];
        for passed in 0..levels {
            let starts = self.glimpse_rows(&numbers);
            let places = self.glimpse_places(&starts, keys);
            for slot in 0..GROUP {
                trails[slot].places[levels - 1 - passed] = places[slot];
                let at = ENTRY_WORDS
                    .wrapping_mul(usize::from(places[slot]))
                    .wrapping_add(HEAD_WORDS + 1);
                numbers[slot] = self.glimpse(starts[slot].wrapping_add(at));
            }
        }
        trails
    }

    // The number of the root, and the number of levels.
    fn glimpse_root(&self) -> (u64, usize)
        ensures levels { result.1 ≤ LEVELS }
    {
        let start = self.glimpse_row(0);
        let levels = LEVELS.min(self.glimpse(start.wrapping_add(COUNT)) as usize);
        let root = self.glimpse(
            start
                .wrapping_add(HEAD_WORDS)
                .wrapping_add(levels)
                .wrapping_sub(1),
        );
        (root, levels)
    }

    // The places in the table where the rows of these pages begin.
    fn glimpse_rows(&self, numbers: &[u64; GROUP]) -> [usize; GROUP] {
        let mut starts = [0usize; GROUP];
        for slot in 0..GROUP {
            starts[slot] = self.glimpse_row(numbers[slot]);
        }
        starts
    }

    // For each key the place of the first entry whose key is at least `key`, in the page whose row begins at its start. No step
    // has a branch on a key, which would be mispredicted every other time.
    fn glimpse_places(&self, starts: &[usize; GROUP], keys: &[u64; GROUP]) -> [u8; GROUP] {
        let mut counts = [0u64; GROUP];
        for slot in 0..GROUP {
            counts[slot] = self.glimpse(starts[slot].wrapping_add(COUNT));
        }
        let mut places = [0u8; GROUP];
        for step in HALVES {
            for slot in 0..GROUP {
                let next = places[slot].wrapping_add(step);
                let at = ENTRY_WORDS
                    .wrapping_mul(usize::from(next))
                    .wrapping_add(HEAD_WORDS - 2);
                let found = self.glimpse(starts[slot].wrapping_add(at));
                let goes_past = (u64::from(next) <= counts[slot]) & (found < keys[slot]);
                places[slot] = places[slot].wrapping_add(step.wrapping_mul(u8::from(goes_past)));
            }
        }
        places
    }

    // The place in the table where the row begins that this page word names; that of no row, if the words don't say one.
    fn glimpse_row(&self, number: u64) -> usize {
        if number >= self.counts.numbers {
            return usize::MAX;
        }
        let row = row_in(self.glimpse(number as usize));
        if row == 0 || row > self.counts.rows {
            return usize::MAX;
        }
        self.row_place(row)
    }

    // Loads the word at this place without a seat; 0, if there is none.
    fn glimpse(&self, place: usize) -> u64 {
        if place < self.table.word_count() {
            self.table.shared.peek(place)
        } else {
            0
        }
    }
}

// The trail of a key that no scout went down for.
fn no_trail() -> Trail {
    Trail {
        places: [0; LEVELS],
    }
}

// Where the trail, if there is one, says that the search may begin in a page of this level.
pub(crate) fn hint_at(trail: Option<&Trail>, level: u8) -> usize {
    match trail {
        Some(trail) if usize::from(level) < LEVELS => usize::from(trail.places[usize::from(level)]),
        _ => 0,
    }
}

// The first of these keys, and 0 in the place of each that there isn't.
fn group_of(keys: &[u64]) -> [u64; GROUP] {
    let mut first = [0u64; GROUP];
    for slot in 0..GROUP {
        if slot < keys.len() {
            first[slot] = keys[slot];
        }
    }
    first
}

// Whether each of these keys is one of the pass's.
fn are_among(own: &[u64], keys: &[u64]) -> bool
    requires ascending { IsStrictlyIncreasing own.now }
    ensures all { IsTrue result → AllAreOwn own.now keys.now }
    ensures foreign { IsFalse result → HasForeign own.now keys.now }
{
    let mut places = [0usize; GROUP];
    for place in 0..keys.len() {
        let slot = place % GROUP;
        if slot == 0 {
            places = likely_places(own, &group_of(&keys[place..]));
        }
        if !is_among_near(own, places[slot], keys[place]) {
            return false;
        }
    }
    true
}

// Whether the key is one of these. It looks at this place first.
fn is_among_near(own: &[u64], place: usize, key: u64) -> bool
    requires ascending { IsStrictlyIncreasing own.now }
    ensures { IsTrue result ↔ Contains own.now key }
{
    stands_at(own, place, key) || is_among(own, key)
}

// Where each of these keys stands among the pass's, if it does. It halves all searches at once.
fn likely_places(own: &[u64], keys: &[u64; GROUP]) -> [usize; GROUP] {
    let mut firsts = [0usize; GROUP];
    let mut size = own.len();
    while size > 1 {
        let half = size / 2;
        for slot in 0..GROUP {
            let next = firsts[slot].wrapping_add(half);
            let goes_past = usize::from(key_at(own, next) <= keys[slot]);
            firsts[slot] = firsts[slot].wrapping_add(half.wrapping_mul(goes_past));
        }
        size -= half;
    }
    firsts
}

// The key at this place; the greatest, if there is none.
fn key_at(keys: &[u64], place: usize) -> u64 {
    if place < keys.len() {
        keys[place]
    } else {
        u64::MAX
    }
}
