//! Tables that open, and the indexes that they open over.
use crate::indexes::filled;
use crate::same::same;
use blink_live::{Live, LiveError};
use blink_rows::Allowance;

// Over a new index 47,662 insertions would fit.
const ONE_TOO_MANY: Allowance = Allowance {
    inserts: 47_663,
    deletes: 0,
};

#[test]
fn too_many_insertions_are_refused(rt: HostRuntime) {
    // The keys 1 to 4 fill a leaf, which key 5 splits.
    same(&rt, &filled(&rt, rt.alloc(), 0, 5).page_count(), &3);
    let index = filled(&rt, rt.alloc(), 0, 0);
    let opened = Live::open(rt.alloc(), &index, ONE_TOO_MANY);
    same(&rt, &opened.err(), &Some(LiveError::TooLarge));
}
