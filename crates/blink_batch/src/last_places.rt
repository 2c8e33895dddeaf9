//! The last operation so far on each key, held without memory from the heap.
ghost use Rattle.std.specs.Prelude.{◌≡◌, ◌+◌, ◌<◌, ◌≤◌, List, length};
ghost use Rattle.blink_batch.specs.declared.batch.TheConstants.{BATCH_LIMIT};
ghost use Rattle.blink_batch.specs.declared.last_places.TheConstants.{BUCKETS};
ghost use Rattle.blink_operation.specs.declared.operation.Op.{Op};
ghost use Rattle.blink_batch.specs.Cut.{key_at};
ghost use Rattle.blink_batch.specs.LastPlaces.{AreLastPlaces, IsLastBefore, IsOnKey, bucket_of};

use crate::batch::BATCH_LIMIT;
use blink_operation::Op;

// As many buckets as a full batch has operations, so that few keys share a bucket.
const BUCKETS: usize = BATCH_LIMIT;

// 2 ^ 64 over the golden ratio.
const MULTIPLIER: u64 = 0x9E37_79B9_7F4A_7C15;

// Of a product's 64 bits the upper 13 are left, which tell `BUCKETS` buckets apart.
const BUCKET_SHIFT: u32 = 51;

/// For each key so far the place of its last operation. The table has a fixed size, so it takes no memory from the heap. Each
/// bucket's places make a chain, the last first.
#[derive(Drop)]
pub(crate) struct LastPlaces {
    // For each bucket the last place so far whose key falls into it.
    lasts: [Option<u16>; BUCKETS],
    // For each place so far the one before it in its bucket.
    earlier: [Option<u16>; BATCH_LIMIT],
}

impl LastPlaces {
    /// Makes the table before the first place.
    pub(crate) fn new() -> LastPlaces
        ensures { (ops : List Op) → AreLastPlaces ops 0 result }
    {
        LastPlaces {
            lasts: [None; BUCKETS],
            earlier: [None; BATCH_LIMIT],
        }
    }

    /// Returns the last earlier place whose operation has the same key as the one at `place`. It walks through the places of the
    /// key's bucket.
    pub(crate) fn last_on_key(&self, ops: &[Op], place: usize) -> Option<usize>
        requires place { place < length ops.now }
        requires limit { length ops.now ≤ BATCH_LIMIT }
        requires table { AreLastPlaces ops.now place self.now }
        ensures { IsLastBefore (IsOnKey ops.now (key_at ops.now place)) place result }
    {
        let key = ops[place].key();
        let mut next = self.lasts[bucket(key)];
        while let Some(candidate) = next {
            let candidate = usize::from(candidate);
            if ops[candidate].key() == key {
                return Some(candidate);
            }
            next = self.earlier[candidate];
        }
        None
    }

    /// Adds this place, the first that the table lacks.
    pub(crate) fn note(&mut self, ops: &[Op], place: usize)
        requires place { place < length ops.now }
        requires limit { length ops.now ≤ BATCH_LIMIT }
        requires table { AreLastPlaces ops.now place self.old }
        ensures { AreLastPlaces ops.now (place + 1) self.new }
    {
        let bucket = bucket(ops[place].key());
        self.earlier[place] = self.lasts[bucket];
        self.lasts[bucket] = Some(place as u16);
    }
}

// The bucket of a key: the upper bits of its product with `MULTIPLIER` (Fibonacci hashing), so that keys at equal distances don't
// crowd into few buckets.
#[tactic(auto, unfolding(crate::specs::LastPlaces::bucket_of))]
fn bucket(key: u64) -> usize
    ensures value { result ≡ bucket_of key }
    ensures below { result < BUCKETS }
{
    (key.wrapping_mul(MULTIPLIER) >> BUCKET_SHIFT) as usize
}
