//! Counting the entries of a range that one pass alone changes, while others change the rest of the tree.
ghost use Rattle.std.specs.Prelude.{◌≡◌, ◌-◌};
ghost use Rattle.blink_live.specs.{IsPassOf, IsSameBesideSeen, share_of};
ghost use Rattle.blink_client.specs.Counted.{AllAreOwn, present};

use blink_batch::Entry;
use blink_live::{Live, Pass};

/// Counts the entries whose keys are from `lo` to below `end`, where all of these keys are the pass's. It counts the entries of the
/// pass's share exactly, whatever other passes do meanwhile, and takes no memory.
pub fn count_own(live: &Live, pass: &mut Pass, lo: u64, end: u64) -> u64
    requires its_own { IsPassOf live.now pass.old }
    requires own_range { AllAreOwn pass.old lo end }
    ensures count { result ≡ present (share_of pass.old) lo (end - lo) }
    ensures same { IsSameBesideSeen pass.old pass.new }
{
    let mut from = lo;
    let mut count = 0;
    let mut into = [Entry { key: 0, pointer: 0 }; 16];
    while from < end {
        let scanned = live.scan(pass, from, end - 1, &mut into);
        count += scanned.filled as u64;
        match scanned.next {
            Some(next) => from = next,
            None => return count,
        }
    }
    count
}
