//! The exports that make an index of entries.
ghost use Rattle.std.specs.Prelude.{◌≡◌, ◌≢◌, None, IsSome, IfSome, length};
ghost use Rattle.blink_index.specs.{IsInOrder, NeedsPages, map_of};
ghost use Rattle.blink_handles.specs.Codes.{TellsWhy, code_of};
ghost use Rattle.blink_handles.specs.{HasEntriesOf, HasPagesOf, IsMakeRefusal, TellsSortedFault};

use crate::index::fill;
use crate::index_slot::IndexSlot;
use blink_batch::Entry;
use blink_handles::make::{index_of, packed};
use blink_handles::raw::RawEntry;
use blink_handles::refusal::{Code, DONE};
use blink_index::SortedError;
use std::alloc::Global;

/// Makes an index of entries in any order. Of two with one key the first stays.
#[unsafe(no_mangle)]
pub extern "C" fn blink_index_from_entries(
    alloc: Global,
    fan: u8,
    entries: &[RawEntry],
    out: &mut IndexSlot,
) -> Code
    requires { out.old.value ≡ None }
    ensures made { result ≡ 0 → IsSome out.new.value × IfSome out.new.value (HasEntriesOf entries.now) }
    ensures fan { IfSome out.new.value (λ index. index.fan ≡ fan) }
    ensures pages { IfSome out.new.value (HasPagesOf entries.now) }
    ensures refused { TellsWhy code_of (IsMakeRefusal fan entries.now) result }
    ensures unchanged { result ≢ 0 → out.new.value ≡ None }
{
    match index_of(alloc, fan, entries) {
        Ok(index) => fill(alloc, index, out),
        Err(refusal) => refusal.code(),
    }
}

/// Makes an index of entries whose keys strictly ascend, in as few pages as they need. If they don't ascend, the call tells the
/// first place, counted from 0, whose key isn't above the one before.
#[unsafe(no_mangle)]
pub extern "C" fn blink_index_from_sorted(
    alloc: Global,
    fan: u8,
    entries: &[Entry],
    out: &mut IndexSlot,
    bad_place: &mut usize,
) -> Code
    requires { out.old.value ≡ None }
    ensures made { result ≡ 0 → IsSome out.new.value }
    ensures map { IfSome out.new.value (λ index. map_of index ≡ entries.now) }
    ensures fan { IfSome out.new.value (λ index. index.fan ≡ fan) }
    ensures pages { IfSome out.new.value
        (λ index. NeedsPages fan (length entries.now) (length index.pages)) }
    ensures numbered { IfSome out.new.value IsInOrder }
    ensures refused { result ≢ 0 → TellsSortedFault fan entries.now result bad_place.new }
    ensures no_place { result ≢ 42 → bad_place.new ≡ bad_place.old }
    ensures unchanged { result ≢ 0 → out.new.value ≡ None }
{
    match packed(alloc, fan, entries) {
        Ok(index) => {
            *out = IndexSlot::of(index);
            DONE
        }
        Err(refusal) => {
            if let SortedError::NotAscending(place) = refusal {
                *bad_place = place;
            }
            u32::from(refusal.code())
        }
    }
}
