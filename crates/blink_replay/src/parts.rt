//! The parts of a script: the index that they run on, and their batches counted.
ghost use Rattle.std.specs.Prelude.{◌≡◌, ◌+◌, ◌<◌, ◌^◌, [], ◌∷◌, count_by, IfOk};
ghost use Rattle.blink_index.specs.{map_of};
ghost use Rattle.blink_store.specs.{new_store};
ghost use Rattle.blink_replay.specs.Served.{is_batch};

use blink_batch::Part;
use blink_index::Index;
use blink_settings::Settings;
use std::alloc::{AllocError, Global};

/// Makes the new index that a script is run on.
pub fn new_index(alloc: Global, settings: &Settings) -> Result<Index, AllocError>
    ensures index { IfOk result (λ index. index ≡ new_store settings.now.fan) }
    ensures empty { IfOk result (λ index. map_of index ≡ []) }
{
    match Index::new(alloc, settings.fan()) {
        Ok(index) => Ok(index),
        Err(_) => Err(AllocError),
    }
}

/// Returns the number of batches up to this part and with it, if `before` batches come before it.
pub fn batches_with(part: &Part, before: u64) -> u64
    requires { before + 1 < 2 ^ 64 }
    ensures { result ≡ before + count_by is_batch (part.now ∷ []) }
{
    match part {
        Part::Batch(_) => before + 1,
        Part::Scan(..) => before,
        Part::Page(..) => before,
    }
}
