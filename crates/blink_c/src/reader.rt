//! The exports that make an index one that is only read, by several threads at the same time, and those of its readers.
ghost use Rattle.std.specs.Prelude.{◌≡◌, ◌≢◌, ◌↔◌, None, Some, IsSome, IsTrue, filter, length, map, reverse, take};
ghost use Rattle.blink_batch.specs.{pointer_of};
ghost use Rattle.blink_index.specs.{first_of, is_above, is_below, is_from, is_up_to, is_within, last_of, map_of, text_of_store};
ghost use Rattle.blink_page.specs.{IsPageNumber};
ghost use Rattle.blink_handles.specs.Codes.{code_of};
ghost use Rattle.blink_handles.specs.{entry_or, found_answer, index_at, index_in, overlaid, pointer_or, put_if_fits, told_of};

use crate::index_slot::IndexSlot;
use crate::reader_handle::ReaderHandle;
use crate::reader_slot::ReaderSlot;
use blink_handles::raw::{RawAnswer, RawEntry, RawScanned};
use blink_handles::reader_owner::ReaderOwner;
use blink_handles::reads;
use blink_handles::refusal::{Code, DONE, Refusal};
use std::alloc::Global;

/// Makes the index one that is only read, and gives its first reader. The index's place is empty then. No entry is copied.
#[unsafe(no_mangle)]
pub extern "C" fn blink_index_share(
    alloc: Global,
    index: &mut IndexSlot,
    out: &mut ReaderSlot,
) -> Code
    requires full { IsSome index.old.value }
    requires empty { out.old.value ≡ None }
    ensures shared { result ≡ 0
        → (index_at out.new.value ≡ index.old.value) × (index.new.value ≡ None) }
    ensures refused { result ≢ 0 → result ≡ code_of Refusal.OutOfMemory }
    ensures unchanged { result ≢ 0
        → (index.new.value ≡ index.old.value) × (out.new.value ≡ None) }
{
    match ReaderOwner::share(alloc, index.take(alloc)) {
        Ok(reader) => {
            *out = ReaderSlot::of(reader);
            DONE
        }
        Err(back) => {
            *index = IndexSlot::of(back);
            Refusal::OutOfMemory.code()
        }
    }
}

/// Gives one more reader of the same index, for another thread. No entry is copied.
#[unsafe(no_mangle)]
pub extern "C" fn blink_reader_join(
    alloc: Global,
    reader: &mut ReaderHandle,
    out: &mut ReaderSlot,
) -> Code
    requires empty { out.old.value ≡ None }
    ensures joined { result ≡ 0 → index_at out.new.value ≡ Some (index_in reader.old.value) }
    ensures refused { result ≢ 0 → result ≡ code_of Refusal.OutOfMemory }
    ensures unchanged { result ≢ 0 → out.new.value ≡ None }
    ensures same { reader.new.value ≡ reader.old.value }
{
    match reader.get().join(alloc) {
        Ok(other) => {
            *out = ReaderSlot::of(other);
            DONE
        }
        Err(_) => Refusal::OutOfMemory.code(),
    }
}

/// Gives the index back, to be changed, if the reader is its last. The reader's place is empty then. No entry is copied, and no
/// memory is asked for. Who the other readers are proves nothing, since they come and go in other threads.
#[unsafe(no_mangle)]
pub extern "C" fn blink_reader_unshare(
    alloc: Global,
    reader: &mut ReaderSlot,
    out: &mut IndexSlot,
) -> Code
    requires full { IsSome reader.old.value }
    requires empty { out.old.value ≡ None }
    ensures given { result ≡ 0
        → (out.new.value ≡ index_at reader.old.value) × (reader.new.value ≡ None) }
    ensures refused { result ≢ 0 → result ≡ code_of Refusal.Shared }
    ensures unchanged { result ≢ 0
        → (reader.new.value ≡ reader.old.value) × (out.new.value ≡ None) }
{
    match ReaderOwner::unshare(reader.take(alloc)) {
        Ok(index) => {
            *out = IndexSlot::of(index);
            DONE
        }
        Err(back) => {
            *reader = ReaderSlot::of(back);
            Refusal::Shared.code()
        }
    }
}

/// Frees the reader. The last one frees the index.
#[unsafe(no_mangle)]
pub extern "C" fn blink_reader_free(reader: ReaderHandle) {
    drop(reader.into_box());
}

/// Looks a key up. It gives the key's record pointer, or leaves `pointer` as it was.
#[unsafe(no_mangle)]
pub extern "C" fn blink_reader_get(reader: &mut ReaderHandle, key: u64, pointer: &mut u64) -> bool
    ensures found { IsTrue result ↔ IsSome (pointer_of (map_of (index_in reader.old.value)) key) }
    ensures pointer { pointer.new
        ≡ pointer_or (pointer_of (map_of (index_in reader.old.value)) key) pointer.old }
    ensures same { reader.new.value ≡ reader.old.value }
{
    reads::find(reader.get().index(), key, pointer)
}

/// Looks keys up, and gives the answer of each at its place.
#[unsafe(no_mangle)]
pub extern "C" fn blink_reader_get_many(
    reader: &mut ReaderHandle,
    keys: &[u64],
    answers: &mut [RawAnswer],
) -> Code
    ensures found { result ≡ 0
        → answers.new ≡ map (found_answer (map_of (index_in reader.old.value))) keys.now }
    ensures wrong_length { result ≡ code_of Refusal.WrongLength ↔ length answers.old ≢ length keys.now }
    ensures refused { result ≢ 0 → result ≡ code_of Refusal.WrongLength }
    ensures unchanged { result ≢ 0 → answers.new ≡ answers.old }
    ensures same { reader.new.value ≡ reader.old.value }
{
    reads::find_many(reader.get().index(), keys, answers)
}

/// Gives the entries whose keys are from `lo` to `hi`, as many as there are places, and tells how far it came. It is never refused.
#[unsafe(no_mangle)]
pub extern "C" fn blink_reader_scan(
    reader: &mut ReaderHandle,
    lo: u64,
    hi: u64,
    entries: &mut [RawEntry],
    scanned: &mut RawScanned,
) -> Code
    ensures entries { entries.new
        ≡ overlaid (filter (is_within lo hi) (map_of (index_in reader.old.value))) entries.old }
    ensures scanned { scanned.new
        ≡ told_of (filter (is_within lo hi) (map_of (index_in reader.old.value))) (length entries.old) }
    ensures done { result ≡ 0 }
    ensures same { reader.new.value ≡ reader.old.value }
{
    reads::scan(reader.get().index(), lo, hi, entries, scanned);
    DONE
}

/// The same, the greatest first.
#[unsafe(no_mangle)]
pub extern "C" fn blink_reader_scan_back(
    reader: &mut ReaderHandle,
    lo: u64,
    hi: u64,
    entries: &mut [RawEntry],
    scanned: &mut RawScanned,
) -> Code
    ensures entries { entries.new
        ≡ overlaid (reverse (filter (is_within lo hi) (map_of (index_in reader.old.value)))) entries.old }
    ensures scanned { scanned.new
        ≡ told_of (reverse (filter (is_within lo hi) (map_of (index_in reader.old.value)))) (length entries.old) }
    ensures done { result ≡ 0 }
    ensures same { reader.new.value ≡ reader.old.value }
{
    reads::scan_back(reader.get().index(), lo, hi, entries, scanned);
    DONE
}

/// Returns the number of the entries whose keys are from `lo` to `hi`. It walks their leaves.
#[unsafe(no_mangle)]
pub extern "C" fn blink_reader_count(reader: &mut ReaderHandle, lo: u64, hi: u64) -> usize
    ensures entries { result ≡ length (filter (is_within lo hi) (map_of (index_in reader.old.value))) }
    ensures same { reader.new.value ≡ reader.old.value }
{
    reads::count(reader.get().index(), lo, hi)
}

/// Gives the entry with the least key, if there is one, or leaves `entry` as it was.
#[unsafe(no_mangle)]
pub extern "C" fn blink_reader_first(reader: &mut ReaderHandle, entry: &mut RawEntry) -> bool
    ensures found { IsTrue result ↔ IsSome (first_of (map_of (index_in reader.old.value))) }
    ensures entry { entry.new ≡ entry_or (first_of (map_of (index_in reader.old.value))) entry.old }
    ensures same { reader.new.value ≡ reader.old.value }
{
    reads::give_entry(reader.get().index().first(), entry)
}

/// Gives the entry with the greatest key, if there is one, or leaves `entry` as it was.
#[unsafe(no_mangle)]
pub extern "C" fn blink_reader_last(reader: &mut ReaderHandle, entry: &mut RawEntry) -> bool
    ensures found { IsTrue result ↔ IsSome (last_of (map_of (index_in reader.old.value))) }
    ensures entry { entry.new ≡ entry_or (last_of (map_of (index_in reader.old.value))) entry.old }
    ensures same { reader.new.value ≡ reader.old.value }
{
    reads::give_entry(reader.get().index().last(), entry)
}

/// Gives the entry with the least key above this one, if there is one, or leaves `entry` as it was.
#[unsafe(no_mangle)]
pub extern "C" fn blink_reader_next(
    reader: &mut ReaderHandle,
    key: u64,
    entry: &mut RawEntry,
) -> bool
    ensures found { IsTrue result
        ↔ IsSome (first_of (filter (is_above key) (map_of (index_in reader.old.value)))) }
    ensures entry { entry.new
        ≡ entry_or (first_of (filter (is_above key) (map_of (index_in reader.old.value)))) entry.old }
    ensures same { reader.new.value ≡ reader.old.value }
{
    reads::give_entry(reader.get().index().next(key), entry)
}

/// Gives the entry with the least key from this one on, if there is one, or leaves `entry` as it was.
#[unsafe(no_mangle)]
pub extern "C" fn blink_reader_at_least(
    reader: &mut ReaderHandle,
    key: u64,
    entry: &mut RawEntry,
) -> bool
    ensures found { IsTrue result
        ↔ IsSome (first_of (filter (is_from key) (map_of (index_in reader.old.value)))) }
    ensures entry { entry.new
        ≡ entry_or (first_of (filter (is_from key) (map_of (index_in reader.old.value)))) entry.old }
    ensures same { reader.new.value ≡ reader.old.value }
{
    reads::give_entry(reader.get().index().at_least(key), entry)
}

/// Gives the entry with the greatest key below this one, if there is one, or leaves `entry` as it was.
#[unsafe(no_mangle)]
pub extern "C" fn blink_reader_prev(
    reader: &mut ReaderHandle,
    key: u64,
    entry: &mut RawEntry,
) -> bool
    ensures found { IsTrue result
        ↔ IsSome (last_of (filter (is_below key) (map_of (index_in reader.old.value)))) }
    ensures entry { entry.new
        ≡ entry_or (last_of (filter (is_below key) (map_of (index_in reader.old.value)))) entry.old }
    ensures same { reader.new.value ≡ reader.old.value }
{
    reads::give_entry(reader.get().index().prev(key), entry)
}

/// Gives the entry with the greatest key up to this one, if there is one, or leaves `entry` as it was.
#[unsafe(no_mangle)]
pub extern "C" fn blink_reader_at_most(
    reader: &mut ReaderHandle,
    key: u64,
    entry: &mut RawEntry,
) -> bool
    ensures found { IsTrue result
        ↔ IsSome (last_of (filter (is_up_to key) (map_of (index_in reader.old.value)))) }
    ensures entry { entry.new
        ≡ entry_or (last_of (filter (is_up_to key) (map_of (index_in reader.old.value)))) entry.old }
    ensures same { reader.new.value ≡ reader.old.value }
{
    reads::give_entry(reader.get().index().at_most(key), entry)
}

/// Returns the number of entries, which the index keeps.
#[unsafe(no_mangle)]
pub extern "C" fn blink_reader_len(reader: &mut ReaderHandle) -> usize
    ensures entries { result ≡ length (map_of (index_in reader.old.value)) }
    ensures same { reader.new.value ≡ reader.old.value }
{
    reader.get().index().len()
}

/// Returns the number of pages.
#[unsafe(no_mangle)]
pub extern "C" fn blink_reader_pages(reader: &mut ReaderHandle) -> u32
    ensures pages { result ≡ length (index_in reader.old.value).pages }
    ensures in_range { IsPageNumber result }
    ensures same { reader.new.value ≡ reader.old.value }
{
    reader.get().index().page_count()
}

/// Returns the greatest number of entries in a page.
#[unsafe(no_mangle)]
pub extern "C" fn blink_reader_fan(reader: &mut ReaderHandle) -> u8
    ensures fan { result ≡ (index_in reader.old.value).fan }
    ensures same { reader.new.value ≡ reader.old.value }
{
    reads::fan(reader.get().index())
}

/// Gives the tree as text, if all of it fits, and stores how many bytes it has.
#[unsafe(no_mangle)]
pub extern "C" fn blink_reader_dump(
    alloc: Global,
    reader: &mut ReaderHandle,
    text: &mut [u8],
    bytes: &mut usize,
) -> Code
    ensures bytes { result ≡ 0 → bytes.new ≡ length (text_of_store (index_in reader.old.value)) }
    ensures text { result ≡ 0
        → text.new ≡ put_if_fits (text_of_store (index_in reader.old.value)) text.old }
    ensures refused { result ≢ 0 → result ≡ code_of Refusal.OutOfMemory }
    ensures unchanged { result ≢ 0 → (text.new ≡ text.old) × (bytes.new ≡ bytes.old) }
    ensures same { reader.new.value ≡ reader.old.value }
{
    reads::dump(alloc, reader.get().index(), text, bytes)
}
