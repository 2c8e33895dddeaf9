//! Lanes as links, by which a worker finds its next operation without a search.
ghost use Rattle.std.specs.Prelude.{◌≡◌, ◌<◌, ◌≤◌, length, All, IfOk};
ghost use Rattle.blink_store.specs.declared.latches.TheConstants.{WORKERS};
ghost use Rattle.blink_steps.specs.LaneQueues.{FirstInLane, NextInLane};

use blink_batch::WORKER_LIMIT;
use blink_store::WORKERS;
use std::alloc::{AllocError, Global};

// A batch may be cut for exactly as many workers as may hold latches.
const _: () = prove!(WORKERS == WORKER_LIMIT as usize);

/// Returns for each place the next place of its lane, and for each worker the first place of its lane.
pub(crate) fn lane_queues(
    alloc: Global,
    lanes: &[u8],
) -> Result<(Vec<Option<u32>>, [Option<u32>; WORKERS]), AllocError>
    requires workers { All (λ lane. lane < WORKERS) lanes.now }
    requires places { length lanes.now ≤ u32.MAX }
    ensures as_many { IfOk result (λ made. length made.0.items ≡ length lanes.now) }
    ensures following { IfOk result (λ made. NextInLane lanes.now made.0.items 0) }
    ensures firsts { IfOk result (λ made. FirstInLane lanes.now made.1 0) }
{
    let mut following = vec![in alloc; None; lanes.len()]?;
    let mut firsts = [None; WORKERS];
    for place in (0..lanes.len()).rev() {
        let lane = usize::from(lanes[place]);
        following[place] = firsts[lane];
        firsts[lane] = Some(place as u32);
    }
    Ok((following, firsts))
}
