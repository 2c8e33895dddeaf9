//! The exports that make an index, look keys up in it, count it, and free it.
ghost use Rattle.std.specs.Prelude.{◌≡◌, ◌≢◌, ◌↔◌, None, Some, IsSome, IsTrue, length, map};
ghost use Rattle.blink_batch.specs.{pointer_of};
ghost use Rattle.blink_index.specs.{map_of};
ghost use Rattle.blink_page.specs.{IsBadFan, IsPageNumber};
ghost use Rattle.blink_store.specs.{new_store};
ghost use Rattle.blink_handles.specs.Codes.{TellsNewFault, code_of};
ghost use Rattle.blink_handles.specs.{found_answer, pointer_or};

use crate::index_handle::IndexHandle;
use crate::index_slot::IndexSlot;
use blink_handles::make::new_index;
use blink_handles::raw::RawAnswer;
use blink_handles::reads;
use blink_handles::refusal::{Code, DONE, Refusal};
use blink_index::Index;
use std::alloc::Global;

/// Makes an index without an entry, whose pages will have at most `fan` entries each.
#[unsafe(no_mangle)]
pub extern "C" fn blink_index_new(alloc: Global, fan: u8, out: &mut IndexSlot) -> Code
    requires { out.old.value ≡ None }
    ensures made { result ≡ 0 → out.new.value ≡ Some (new_store fan) }
    ensures bad_fan { result ≡ code_of Refusal.BadFan ↔ IsBadFan fan }
    ensures refused { TellsNewFault result }
    ensures unchanged { result ≢ 0 → out.new.value ≡ None }
{
    match new_index(alloc, fan) {
        Ok(index) => fill(alloc, index, out),
        Err(refusal) => refusal.code(),
    }
}

/// Puts an index into a box, and its handle into the empty slot.
pub(crate) fn fill(alloc: Global, index: Index, out: &mut IndexSlot) -> Code
    requires { out.old.value ≡ None }
    ensures made { result ≡ 0 → out.new.value ≡ Some index }
    ensures refused { result ≢ 0 → result ≡ code_of Refusal.OutOfMemory }
    ensures unchanged { result ≢ 0 → out.new.value ≡ None }
{
    match Box::new(alloc, index) {
        Ok(index) => {
            *out = IndexSlot::of(index);
            DONE
        }
        Err(_) => Refusal::OutOfMemory.code(),
    }
}

/// Frees the index.
#[unsafe(no_mangle)]
pub extern "C" fn blink_index_free(index: IndexHandle) {
    drop(index.into_box());
}

/// Looks a key up. It gives the key's record pointer, or leaves `pointer` as it was.
#[unsafe(no_mangle)]
pub extern "C" fn blink_index_get(index: &mut IndexHandle, key: u64, pointer: &mut u64) -> bool
    ensures found { IsTrue result ↔ IsSome (pointer_of (map_of index.old.value) key) }
    ensures pointer { pointer.new ≡ pointer_or (pointer_of (map_of index.old.value) key) pointer.old }
    ensures same { index.new.value ≡ index.old.value }
{
    reads::find(index.get(), key, pointer)
}

/// Looks keys up, and gives the answer of each at its place.
#[unsafe(no_mangle)]
pub extern "C" fn blink_index_get_many(
    index: &mut IndexHandle,
    keys: &[u64],
    answers: &mut [RawAnswer],
) -> Code
    ensures found { result ≡ 0 → answers.new ≡ map (found_answer (map_of index.old.value)) keys.now }
    ensures wrong_length { result ≡ code_of Refusal.WrongLength ↔ length answers.old ≢ length keys.now }
    ensures refused { result ≢ 0 → result ≡ code_of Refusal.WrongLength }
    ensures unchanged { result ≢ 0 → answers.new ≡ answers.old }
    ensures same { index.new.value ≡ index.old.value }
{
    reads::find_many(index.get(), keys, answers)
}

/// Copies the index.
#[unsafe(no_mangle)]
pub extern "C" fn blink_index_copy(
    alloc: Global,
    index: &mut IndexHandle,
    out: &mut IndexSlot,
) -> Code
    requires { out.old.value ≡ None }
    ensures copied { result ≡ 0 → out.new.value ≡ Some index.old.value }
    ensures refused { result ≢ 0 → result ≡ code_of Refusal.OutOfMemory }
    ensures unchanged { result ≢ 0 → out.new.value ≡ None }
    ensures same { index.new.value ≡ index.old.value }
{
    match index.get().copy(alloc) {
        Ok(copy) => fill(alloc, copy, out),
        Err(_) => Refusal::OutOfMemory.code(),
    }
}

/// Returns the greatest number of entries in a page.
#[unsafe(no_mangle)]
pub extern "C" fn blink_index_fan(index: &mut IndexHandle) -> u8
    ensures fan { result ≡ index.old.value.fan }
    ensures same { index.new.value ≡ index.old.value }
{
    reads::fan(index.get())
}

/// Returns the number of pages.
#[unsafe(no_mangle)]
pub extern "C" fn blink_index_pages(index: &mut IndexHandle) -> u32
    ensures pages { result ≡ length index.old.value.pages }
    ensures in_range { IsPageNumber result }
    ensures same { index.new.value ≡ index.old.value }
{
    index.get().page_count()
}
