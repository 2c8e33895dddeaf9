//! Raising a counter that one pass alone changes, while others change the rest of the tree.
ghost use Rattle.std.specs.Prelude.{◌≡◌, ◌+◌, ◌^◌, ◌<◌, ◌≤◌, ◌⊎◌, Some, Contains};
ghost use Rattle.blink_batch.specs.{pointer_of};
ghost use Rattle.blink_live.specs.{deletes_left, IsPassOf, keys_of, share_of};

use blink_live::{Live, Pass};
use std::sync::Wait;

/// Raises the pointer of a key of the pass by one, `times` times, from `from` on: each time it exchanges the pointer that it
/// expects. It returns how often it did, which is `times`, unless the pass has no deletion left before.
pub fn raise_own<R: Wait>(
    rt: &R,
    live: &Live,
    pass: &mut Pass,
    key: u64,
    from: u64,
    times: u64,
) -> u64
    requires its_own { IsPassOf live.now pass.old }
    requires own_key { Contains (keys_of pass.old) key }
    requires begins { pointer_of (share_of pass.old) key ≡ Some from }
    requires fits { from + times < 2 ^ 64 }
    ensures raised { pointer_of (share_of pass.new) key ≡ Some (from + result) }
    ensures most { result ≤ times }
    ensures all { (result ≡ times) ⊎ (deletes_left pass.new.pages pass.new.rows ≡ 0) }
    ensures its_own { IsPassOf live.now pass.new }
{
    for done in 0..times {
        let next = from + done + 1;
        if live.exchange(rt, pass, key, from + done, next).is_err() {
            return done;
        }
    }
    times
}
