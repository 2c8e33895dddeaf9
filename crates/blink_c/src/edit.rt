//! The exports that change an index in place by one operation, that pack it, and that give the entries at its ends and on each side of a
//! key.
ghost use Rattle.std.specs.Prelude.{◌≡◌, ◌≢◌, ◌↔◌, ◌≤◌, IsSome, IsTrue, IfSome, filter, length};
ghost use Rattle.blink_batch.specs.declared.Op.TheVariants.{Delete, DeleteExact, Exchange, Insert, Replace};
ghost use Rattle.blink_index.specs.{IsInOrder, NeedsPages, first_of, is_above, is_below, is_from, is_up_to, last_of, map_of};
ghost use Rattle.blink_page.specs.{ExceedsPageLimit};
ghost use Rattle.blink_handles.specs.Codes.{code_of};
ghost use Rattle.blink_handles.specs.{HasEdited, HasPagesFor, TellsEditFault, entry_or};

use crate::index_handle::IndexHandle;
use blink_handles::raw::{RawAnswer, RawEntry};
use blink_handles::reads::give_entry;
use blink_handles::refusal::{Code, DONE, Refusal};
use blink_index::EditError;
use std::alloc::Global;

/// Adds a key with its pointer in place, unless the key is present, and gives the answer. A refusal leaves the index and the
/// answer as they were.
#[unsafe(no_mangle)]
pub extern "C" fn blink_index_insert(
    index: &mut IndexHandle,
    key: u64,
    pointer: u64,
    answer: &mut RawAnswer,
) -> Code
    ensures inserted { result ≡ 0
        → HasEdited index.old.value (Insert key pointer) answer.new index.new.value }
    ensures few_pages { HasPagesFor 1 index.old.value index.new.value }
    ensures too_large { result ≡ code_of Refusal.TooLarge
        ↔ ExceedsPageLimit (length index.old.value.pages) 1 }
    ensures refused { TellsEditFault result }
    ensures unchanged { result ≢ 0
        → (index.new.value ≡ index.old.value) × (answer.new ≡ answer.old) }
{
    match index.get().insert(key, pointer) {
        Ok(given) => {
            *answer = RawAnswer::of(given);
            DONE
        }
        Err(EditError::TooLarge) => Refusal::TooLarge.code(),
        Err(EditError::OutOfMemory) => Refusal::OutOfMemory.code(),
    }
}

/// Removes a key with its pointer in place, and gives the answer. It compacts the index where that is sparse then.
#[unsafe(no_mangle)]
pub extern "C" fn blink_index_remove(
    alloc: Global,
    index: &mut IndexHandle,
    key: u64,
    answer: &mut RawAnswer,
)
    ensures removed { HasEdited index.old.value (Delete key) answer.new index.new.value }
{
    *answer = RawAnswer::of(index.get().delete_and_compact(alloc, key));
}

/// Replaces the pointer of a key in place, and gives the answer.
#[unsafe(no_mangle)]
pub extern "C" fn blink_index_replace(
    index: &mut IndexHandle,
    key: u64,
    pointer: u64,
    answer: &mut RawAnswer,
)
    ensures replaced { HasEdited index.old.value (Replace key pointer) answer.new index.new.value }
{
    *answer = RawAnswer::of(index.get().replace(key, pointer));
}

/// Replaces the pointer of a key in place, if it is the expected one, and gives the answer.
#[unsafe(no_mangle)]
pub extern "C" fn blink_index_compare_exchange(
    index: &mut IndexHandle,
    key: u64,
    expected: u64,
    pointer: u64,
    answer: &mut RawAnswer,
)
    ensures exchanged { HasEdited index.old.value (Exchange key expected pointer) answer.new
        index.new.value }
{
    *answer = RawAnswer::of(index.get().exchange(key, expected, pointer));
}

/// Removes a key with its pointer in place, if that is the expected one, and gives the answer. It compacts the index where that is
/// sparse then.
#[unsafe(no_mangle)]
pub extern "C" fn blink_index_compare_remove(
    alloc: Global,
    index: &mut IndexHandle,
    key: u64,
    expected: u64,
    answer: &mut RawAnswer,
)
    ensures removed { HasEdited index.old.value (DeleteExact key expected) answer.new
        index.new.value }
{
    *answer = RawAnswer::of(index.get().delete_exact_and_compact(alloc, key, expected));
}

/// Packs the entries into as few pages as they need, in place. A refusal leaves the index as it was.
#[unsafe(no_mangle)]
pub extern "C" fn blink_index_compact(alloc: Global, index: &mut IndexHandle) -> Code
    ensures map { map_of index.new.value ≡ map_of index.old.value }
    ensures same_fan { index.new.value.fan ≡ index.old.value.fan }
    ensures pages { result ≡ 0
        → NeedsPages index.old.value.fan (length (map_of index.old.value)) (length index.new.value.pages) }
    ensures no_more_pages { length index.new.value.pages ≤ length index.old.value.pages }
    ensures numbered { result ≡ 0 → IsInOrder index.new.value }
    ensures refused { result ≢ 0 → result ≡ code_of Refusal.OutOfMemory }
    ensures unchanged { result ≢ 0 → index.new.value ≡ index.old.value }
{
    match index.get().compact(alloc) {
        Ok(()) => DONE,
        Err(_) => Refusal::OutOfMemory.code(),
    }
}

/// Gives the entry with the least key, if there is one, or leaves `entry` as it was.
#[unsafe(no_mangle)]
pub extern "C" fn blink_index_first(index: &mut IndexHandle, entry: &mut RawEntry) -> bool
    ensures found { IsTrue result ↔ IsSome (first_of (map_of index.old.value)) }
    ensures entry { entry.new ≡ entry_or (first_of (map_of index.old.value)) entry.old }
    ensures same { index.new.value ≡ index.old.value }
{
    give_entry(index.get().first(), entry)
}

/// Gives the entry with the greatest key, if there is one, or leaves `entry` as it was.
#[unsafe(no_mangle)]
pub extern "C" fn blink_index_last(index: &mut IndexHandle, entry: &mut RawEntry) -> bool
    ensures found { IsTrue result ↔ IsSome (last_of (map_of index.old.value)) }
    ensures entry { entry.new ≡ entry_or (last_of (map_of index.old.value)) entry.old }
    ensures same { index.new.value ≡ index.old.value }
{
    give_entry(index.get().last(), entry)
}

/// Gives the entry with the least key above this one, if there is one, or leaves `entry` as it was.
#[unsafe(no_mangle)]
pub extern "C" fn blink_index_next(index: &mut IndexHandle, key: u64, entry: &mut RawEntry) -> bool
    ensures found { IsTrue result
        ↔ IsSome (first_of (filter (is_above key) (map_of index.old.value))) }
    ensures entry { entry.new
        ≡ entry_or (first_of (filter (is_above key) (map_of index.old.value))) entry.old }
    ensures same { index.new.value ≡ index.old.value }
{
    give_entry(index.get().next(key), entry)
}

/// Gives the entry with the least key from this one on, if there is one, or leaves `entry` as it was.
#[unsafe(no_mangle)]
pub extern "C" fn blink_index_at_least(
    index: &mut IndexHandle,
    key: u64,
    entry: &mut RawEntry,
) -> bool
    ensures found { IsTrue result
        ↔ IsSome (first_of (filter (is_from key) (map_of index.old.value))) }
    ensures entry { entry.new
        ≡ entry_or (first_of (filter (is_from key) (map_of index.old.value))) entry.old }
    ensures same { index.new.value ≡ index.old.value }
{
    give_entry(index.get().at_least(key), entry)
}

/// Gives the entry with the greatest key below this one, if there is one, or leaves `entry` as it was.
#[unsafe(no_mangle)]
pub extern "C" fn blink_index_prev(index: &mut IndexHandle, key: u64, entry: &mut RawEntry) -> bool
    ensures found { IsTrue result
        ↔ IsSome (last_of (filter (is_below key) (map_of index.old.value))) }
    ensures entry { entry.new
        ≡ entry_or (last_of (filter (is_below key) (map_of index.old.value))) entry.old }
    ensures same { index.new.value ≡ index.old.value }
{
    give_entry(index.get().prev(key), entry)
}

/// Gives the entry with the greatest key up to this one, if there is one, or leaves `entry` as it was.
#[unsafe(no_mangle)]
pub extern "C" fn blink_index_at_most(
    index: &mut IndexHandle,
    key: u64,
    entry: &mut RawEntry,
) -> bool
    ensures found { IsTrue result
        ↔ IsSome (last_of (filter (is_up_to key) (map_of index.old.value))) }
    ensures entry { entry.new
        ≡ entry_or (last_of (filter (is_up_to key) (map_of index.old.value))) entry.old }
    ensures same { index.new.value ≡ index.old.value }
{
    give_entry(index.get().at_most(key), entry)
}
