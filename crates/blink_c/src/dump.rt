//! The export that gives the tree as text.
ghost use Rattle.std.specs.Prelude.{◌≡◌, ◌≢◌, length};
ghost use Rattle.blink_index.specs.{text_of_store};
ghost use Rattle.blink_handles.specs.Codes.{code_of};
ghost use Rattle.blink_handles.specs.{put_if_fits};

use crate::index_handle::IndexHandle;
use blink_handles::reads;
use blink_handles::refusal::{Code, Refusal};
use std::alloc::Global;

/// Gives the tree as text, if all of it fits, and stores how many bytes it has.
#[unsafe(no_mangle)]
pub extern "C" fn blink_index_dump(
    alloc: Global,
    index: &mut IndexHandle,
    text: &mut [u8],
    bytes: &mut usize,
) -> Code
    ensures bytes { result ≡ 0 → bytes.new ≡ length (text_of_store index.old.value) }
    ensures text { result ≡ 0 → text.new ≡ put_if_fits (text_of_store index.old.value) text.old }
    ensures refused { result ≢ 0 → result ≡ code_of Refusal.OutOfMemory }
    ensures unchanged { result ≢ 0 → (text.new ≡ text.old) × (bytes.new ≡ bytes.old) }
    ensures same { index.new.value ≡ index.old.value }
{
    reads::dump(alloc, index.get(), text, bytes)
}
