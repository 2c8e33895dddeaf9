//! Lists of keys in ascending order: which keys are in them, and lists made of others.
ghost use Rattle.std.specs.Prelude.{◌≡◌, ◌⊎◌, ◌↔◌, ◌++◌, ◌+◌, ◌≤◌, ◌<◌, ℕ, IsPermutation, IfOk, IsTrue, Contains, IsSorted, length, take, slice_index};
ghost use Rattle.std.specs.List.Sorted.{IsStrictlyIncreasing};
ghost use Rattle.std.specs.Ordering.{nat_cmp};
ghost use Rattle.blink_live.specs.Dealing.{HasMet};
ghost use Rattle.blink_live.specs.KeyTest.{HasReached, IsWindow};
ghost use Rattle.blink_live.specs.Retiring.{IsFirstFrom, without};

use std::alloc::{AllocError, Global};
use std::collections::BTreeSet;

// Whether each key is below the next.
pub(crate) fn ascends(keys: &[u64]) -> bool
    ensures { IsTrue result → IsStrictlyIncreasing keys.now }
{
    for place in 0..keys.len().saturating_sub(1) {
        if keys[place] >= keys[place + 1] {
            return false;
        }
    }
    true
}

// Whether the key is one of these.
pub(crate) fn is_among(keys: &[u64], key: u64) -> bool
    requires ascending { IsStrictlyIncreasing keys.now }
    ensures { IsTrue result ↔ Contains keys.now key }
{
    let place = place_of_key(keys, key);
    place < keys.len() && keys[place] == key
}

// The place of the last key that is at most `key`; 0 if there is none.
fn place_of_key(keys: &[u64], key: u64) -> usize
    requires ascending { IsSorted nat_cmp keys.now }
    ensures { IsWindow keys.now key result 1 ⊎ (length keys.now ≡ 0) }
{
    let (mut first, mut size) = window_of_three(keys, key);
    while size > 1 {
        first += reached(keys, first + 1, key);
        size -= 1;
    }
    first
}

// Narrows the keys down to at most three, in steps that each leave a quarter. A step has no branch on a key, which would be
// mispredicted every other time: it counts the quarters that it passes. Its three loads are on their way at once.
fn window_of_three(keys: &[u64], key: u64) -> (usize, usize)
    requires ascending { IsSorted nat_cmp keys.now }
    ensures window { IsWindow keys.now key result.0 result.1 }
    ensures small { (result.1 ≡ 0) ↔ (length keys.now ≡ 0) }
{
    let mut first = 0;
    let mut size = keys.len();
    while size > 3 {
        let quarter = size / 4;
        let passed = reached(keys, first + quarter, key)
            + reached(keys, first + 2 * quarter, key)
            + reached(keys, first + 3 * quarter, key);
        first += quarter * passed;
        size -= 3 * quarter;
    }
    (first, size)
}

// 1 for a key that is at most `key`, and 0 for any other.
fn reached(keys: &[u64], place: usize, key: u64) -> usize
    requires inside { place < length keys.now }
    ensures { HasReached keys.now key place result }
{
    usize::from(keys[place] <= key)
}

// The keys of both lists in a new list, which ascends if the first list does: one merge, once the second is in order.
pub(crate) fn joined(alloc: Global, keys: &[u64], more: &[u64]) -> Result<Vec<u64>, AllocError>
    ensures of_both { IfOk result (λ all. IsPermutation (keys.now ++ more.now) all.items) }
{
    let mut others = Vec::with_capacity(alloc, more.len())?;
    others.extend_from_slice(more)?;
    others.sort_unstable();
    merged(alloc, keys, &others)
}

// The keys of both lists in a new list, of the next keys of the two always the lesser.
pub(crate) fn merged(alloc: Global, keys: &[u64], others: &[u64]) -> Result<Vec<u64>, AllocError>
    ensures of_both { IfOk result (λ all. IsPermutation (keys.now ++ others.now) all.items) }
{
    let mut all = Vec::with_capacity(alloc, keys.len() + others.len())?;
    let mut next = 0;
    for &other in others {
        while next < keys.len() && keys[next] < other {
            all.push(keys[next])?;
            next += 1;
        }
        all.push(other)?;
    }
    all.extend_from_slice(&keys[next..])?;
    Ok(all)
}

// Removes these keys from others, in one pass over both lists.
pub(crate) fn remove_all(from: &mut Vec<u64>, keys: &[u64])
    requires ascending { IsStrictlyIncreasing from.old.items × IsStrictlyIncreasing keys.now }
    ensures ascending { IsStrictlyIncreasing from.new.items }
    ensures rest { from.new.items ≡ without keys.now from.old.items }
{
    leave_others(from, keys);
}

// Leaves the keys that aren't among these.
fn leave_others(from: &mut Vec<u64>, keys: &[u64])
    requires ascending { IsSorted nat_cmp from.old.items × IsSorted nat_cmp keys.now }
    ensures { from.new.items ≡ without keys.now from.old.items }
{
    let kept = keep_others(from, keys);
    from.truncate(kept);
}

// Moves all but these keys to the front, in their order, and returns how many they are.
fn keep_others(from: &mut [u64], keys: &[u64]) -> usize
    requires ascending { IsSorted nat_cmp from.old × IsSorted nat_cmp keys.now }
    ensures { take result from.new ≡ without keys.now from.old }
{
    let mut kept = 0;
    let mut next = 0;
    for place in 0..from.len() {
        let key = from[place];
        next = reach(keys, next, key);
        if stands_at(keys, next, key) {
            continue;
        }
        from[kept] = key;
        kept += 1;
    }
    kept
}

// Whether the key stands at this place.
pub(crate) fn stands_at(keys: &[u64], place: usize, key: u64) -> bool
    ensures { IsTrue result ↔ (place < length keys.now × (slice_index keys.now place ≡ key)) }
{
    place < keys.len() && key == keys[place]
}

// The place of the first key from `next` on that is at least `key`; the length, if there is none.
fn reach(keys: &[u64], next: usize, key: u64) -> usize
    requires inside { next ≤ length keys.now }
    ensures { IsFirstFrom keys.now next key result }
{
    let mut place = next;
    while place < keys.len() && keys[place] < key {
        place += 1;
    }
    place
}

// Whether each of these keys is one of others, both lists ascending. It looks through both at once.
pub(crate) fn has_all(own: &[u64], keys: &[u64]) -> bool
    ensures { IsTrue result → (key : ℕ) → Contains keys.now key → Contains own.now key }
{
    let mut next = 0;
    for place in 0..keys.len() {
        next = reach(own, next, keys[place]);
        if !stands_at(own, next, keys[place]) {
            return false;
        }
    }
    true
}

// A copy of these keys in order.
pub(crate) fn sorted(alloc: Global, keys: &[u64]) -> Result<Vec<u64>, AllocError>
    ensures same { IfOk result (λ all. IsPermutation keys.now all.items) }
{
    let mut all = keys.to_vec(alloc)?;
    all.sort_unstable();
    Ok(all)
}

// The keys in ascending order, each once. A merge of two ascending lists without a common key ascends, so that nothing is left
// to do.
pub(crate) fn in_order(mut keys: Vec<u64>) -> Vec<u64>
    ensures ascending { IsStrictlyIncreasing result.items }
    ensures same { (key : ℕ) → Contains result.items key ↔ Contains keys.items key }
{
    if !ascends(&keys) {
        keys.sort_unstable();
        keys.dedup();
    }
    keys
}

// The keys of a list met so far. Once memory is refused, the set gets no further key.
#[derive(Drop)]
pub(crate) struct Met {
    pub keys: BTreeSet<u64, Global>,
    pub refused: bool,
}

impl Met {
    // Meets the key at `place` of the list, and returns whether it stands earlier in the list.
    pub fn meets_again(&mut self, keys: &[u64], place: usize) -> bool
        requires inside { place < length keys.now }
        requires met { HasMet self.old.refused self.old.keys (take place keys.now) }
        ensures again { IsTrue result ↔ Contains (take place keys.now) (slice_index keys.now place) }
        ensures met { HasMet self.new.refused self.new.keys (take (place + 1) keys.now) }
    {
        let key = keys[place];
        if !self.refused {
            match self.keys.insert(key) {
                Ok(added) => return !added,
                Err(_) => self.refused = true,
            }
        }
        keys[..place].contains(&key)
    }
}
