//! A B-link tree in one table of words that threads share. There is no global lock: a search takes no latch and waits for nobody,
//! and an update latches one page at a time.
#![tactic(auto)]

mod advance;
mod append;
mod approach;
mod close;
mod copy;
mod deal;
mod descent;
mod edit;
mod error;
mod find_all;
mod give_up;
mod hand;
mod keys;
mod leaves;
mod live;
mod open;
mod operations;
mod read;
mod retire;
mod rewrite;
mod room;
mod rule;
mod scan;
mod scan_back;
mod shelf;
mod snapshot;
mod stock;
mod straight;
mod tell;
mod update;
mod view;

pub use error::{HandError, LiveError, PassError};
pub use live::{Keeper, Live, Pass, Pending};
pub use scan::{Scanned, reports_tell};
pub use scan_back::backward_reports_tell;

// What a map is made of, in the crate above: the seats of a table, and what their calls are made of.
pub use close::tree_at_end;
pub use descent::Changed;
pub use find_all::Trail;
pub use leaves::entries_at_end;
pub use open::{lay_tree, word_count};
pub use room::Room;
pub use rule::{
    BeginWait, CheckPlace, Collect, Dealt, DrawPages, DrawRows, FreeRow, GiveBack, Hear,
    InvariantOfTree, LookUp, MarkPlace, Note, Planned, SeePlace, TakeAccount,
};
pub use shelf::Shelf;
pub use snapshot::NotedLeaf;
pub use view::{Appending, Aside, Call, Change, Look, Opened, Plan, Role, Share, Stock, View};
