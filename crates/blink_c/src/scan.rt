//! The exports that give entries in the order of their keys or from the greatest key down, and that count them.
ghost use Rattle.std.specs.Prelude.{◌≡◌, filter, length, reverse};
ghost use Rattle.blink_index.specs.{is_within, map_of};
ghost use Rattle.blink_handles.specs.{overlaid, told_of};

use crate::index_handle::IndexHandle;
use blink_handles::raw::{RawEntry, RawScanned};
use blink_handles::reads;
use blink_handles::refusal::{Code, DONE};

/// Gives the entries whose keys are from `lo` to `hi`, as many as there are places, and tells how far it came. It is never refused.
#[unsafe(no_mangle)]
pub extern "C" fn blink_index_scan(
    index: &mut IndexHandle,
    lo: u64,
    hi: u64,
    entries: &mut [RawEntry],
    scanned: &mut RawScanned,
) -> Code
    ensures entries { entries.new
        ≡ overlaid (filter (is_within lo hi) (map_of index.old.value)) entries.old }
    ensures scanned { scanned.new
        ≡ told_of (filter (is_within lo hi) (map_of index.old.value)) (length entries.old) }
    ensures done { result ≡ 0 }
    ensures same { index.new.value ≡ index.old.value }
{
    reads::scan(index.get(), lo, hi, entries, scanned);
    DONE
}

/// The same, the greatest first.
#[unsafe(no_mangle)]
pub extern "C" fn blink_index_scan_back(
    index: &mut IndexHandle,
    lo: u64,
    hi: u64,
    entries: &mut [RawEntry],
    scanned: &mut RawScanned,
) -> Code
    ensures entries { entries.new
        ≡ overlaid (reverse (filter (is_within lo hi) (map_of index.old.value))) entries.old }
    ensures scanned { scanned.new
        ≡ told_of (reverse (filter (is_within lo hi) (map_of index.old.value))) (length entries.old) }
    ensures done { result ≡ 0 }
    ensures same { index.new.value ≡ index.old.value }
{
    reads::scan_back(index.get(), lo, hi, entries, scanned);
    DONE
}

/// Returns the number of the entries whose keys are from `lo` to `hi`. It walks their leaves.
#[unsafe(no_mangle)]
pub extern "C" fn blink_index_count(index: &mut IndexHandle, lo: u64, hi: u64) -> usize
    ensures entries { result ≡ length (filter (is_within lo hi) (map_of index.old.value)) }
    ensures same { index.new.value ≡ index.old.value }
{
    reads::count(index.get(), lo, hi)
}

/// Returns the number of entries, which the index keeps.
#[unsafe(no_mangle)]
pub extern "C" fn blink_index_len(index: &mut IndexHandle) -> usize
    ensures entries { result ≡ length (map_of index.old.value) }
    ensures same { index.new.value ≡ index.old.value }
{
    index.get().len()
}
