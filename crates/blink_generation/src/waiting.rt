//! How often calls of a map try before they give up, and how much a session takes from the pool at once. Most cost time on one
//! side or the other, and none decides what a call answers.

// How often a call of a session that is short of rows looks whether they come back, before it is refused. Each look goes over places of
// other sessions.
pub(crate) const LOOKS: u32 = 64;

// As many rows at least wait together, so that two looks at each of 256 places are a few loads a change. A session lets rows wait also
// while it has free ones: else all its rows would wait at once, and it would need others meanwhile. Each change ends with a look at it.
pub(crate) const BATCH_ROWS: usize = 64;

// The number of rows that a session draws at once, and of page numbers. A draw is a step at a word which all sessions share. What a
// session has drawn no other one can use. So many page numbers last for a thousand insertions at random: more would only make a room
// larger, which counts them for each session, with two rows for each.
pub(crate) const ROW_CHUNK: u64 = 1024;

pub(crate) const PAGE_CHUNK: u64 = 64;

/// How often an operation tries to go on whose session is freed, before its place is lost with it. Only a session that another one holds
/// up for so long pays for it.
pub const FREE_TRIES: u32 = 1000;
