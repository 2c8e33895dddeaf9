//! What the seats of a table know. Of these types a run makes values of `Opened` alone; the others are for proofs. They are public
//! for the crate of maps, whose sessions are such seats too.

use blink_batch::Entry;
use blink_index::Index;
use blink_machine::Machine;
use blink_rows::{Counts, Span};
use std::collections::LinkedList;
use std::snapshot::Snapshot;

/// The index and the counts that a table is made from.
#[derive(Drop)]
pub struct Opened {
    pub counts: Counts,
    /// 0 in a table whose keys passes own. In others, which any session changes at any key, the number of places for sessions.
    pub places: u64,
    pub index: Snapshot<Index>,
}

/// The same as plain data. Every seat knows it.
pub struct Plan {
    pub fan: u8,
    pub counts: Counts,
    pub places: u64,
    pub opening: LinkedList<Entry>,
}

/// A change of one key: it got a pointer, or lost the one that it had. Its author is the place of the seat that made it: passes
/// have places in the order in which they were dealt.
pub struct Change {
    pub author: u64,
    pub key: u64,
    pub pointer: Option<u64>,
}

/// A pass's part of the map: its keys, their entries as its own operations leave them, and the changes of these operations.
/// Before them stand the changes of its keys by the passes that had them earlier. A session's share has no keys and no entries;
/// its changes are those that the session made.
pub struct Share {
    pub keys: LinkedList<u64>,
    pub entries: LinkedList<Entry>,
    pub changes: LinkedList<Change>,
}

/// The changes that operations at one place of a common table have made, in their order.
pub struct Account {
    pub place: u64,
    pub changes: LinkedList<Change>,
}

/// What a session has set aside while it writes a row that came back: its rows, and those of its call.
pub struct Aside {
    pub rows: Span,
    pub call: Span,
}

/// A session's rows that pages don't need any more, by how far they have come back, and the page numbers that it keeps beside.
pub struct Stock {
    /// The rows that no seat reads. The session may write them again.
    pub free: LinkedList<u64>,
    /// The rows that the session has taken out of page words since the waiting ones began to wait.
    pub retired: LinkedList<u64>,
    /// The rows that it took out before. They wait until no seat can still read them.
    pub waiting: LinkedList<u64>,
    /// The marks of the places since then, as the session has found them, from the first place on.
    pub before: LinkedList<u64>,
    /// The number of places, from the first on, whose sessions don't read what they read when the wait began.
    pub passed: u64,
    /// The session's other rows, while it writes one that came back.
    pub aside: Aside,
    /// The page numbers that were left of the session's span when it drew others. It uses these first.
    pub spare: Span,
}

/// What a seat has noted for a snapshot.
pub struct Look {
    /// The numbers of leaves, each with its page word as it was loaded.
    pub leaves: LinkedList<(u64, u64)>,
    /// The changes of all keys up to the tree state that the seat has marked since.
    pub marked: Option<LinkedList<Change>>,
}

/// The role of a seat.
pub enum Role {
    /// The keeper's seat, with the number of passes dealt and the number of passes that came back.
    Keeper(u64, u64),
    /// A pass's seat, or a session's.
    Pass,
    /// A seat whose view another seat has taken or is to take: a note, or keys on their way.
    Spent,
}

/// What one call may use: rows and page numbers, and the words that it knows of the first of these rows, from its first word on.
pub struct Call {
    pub rows: Span,
    pub pages: Span,
    pub staged: LinkedList<u64>,
}

/// The page whose latch a seat has held since it loaded the page's word: the word, and the words that the seat has stored behind
/// those that this page word counts.
pub struct Appending {
    pub number: u64,
    pub word: u64,
    pub words: LinkedList<u64>,
}

/// What a seat knows.
pub struct View {
    pub plan: Plan,
    pub role: Role,
    /// The rows and the page numbers that the seat may still use.
    pub rows: Span,
    pub pages: Span,
    pub share: Share,
    /// Of a session: its place, and the place's word, which isn't 0 while the session may be at an operation.
    pub place: u64,
    pub busy: u64,
    /// Of a session: the rows that pages don't need any more, and the page numbers left of earlier draws.
    pub stock: Stock,
    /// What the call under way, or the last one made, may use.
    pub call: Call,
    /// Of the keeper: the keys that were dealt, and the shares that came back.
    pub taken: LinkedList<u64>,
    pub back: LinkedList<Share>,
    /// Of the host of a common table: the accounts of the places whose sessions came back as it closes.
    pub accounts: LinkedList<Account>,
    /// The operation under way, after its last step of the tree.
    pub operation: Option<Machine>,
    /// A bound of the pages that the operation's descent still reads.
    pub descent_bound: u64,
    /// The row that the last loaded page word named, with the words of the page or prime block that stands at its begin; and the
    /// words of the records behind these.
    pub reads: Option<(u64, LinkedList<u64>)>,
    pub behind: LinkedList<u64>,
    /// Where the operation under way is to change the page of this row: what it has added to the row.
    pub appends: Option<Appending>,
    /// The changes of all keys that the seat has seen, and those of the note that it holds.
    pub seen: LinkedList<Change>,
    pub told: LinkedList<Change>,
    /// What it has noted for a snapshot.
    pub look: Look,
}
