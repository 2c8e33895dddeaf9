//! The atomic steps.

/// One atomic step that a worker has taken, with the number of the step's page.
#[derive(Clone, Copy, Debug, PartialEq, Eq)]
pub enum Kind {
    ReadPage(u32),
    ReadPrime,
    Latch(u32),
    Unlatch(u32),
    WritePage(u32),
    WritePrime,
}

/// The result of a worker's turn.
#[derive(Clone, Copy, Debug, PartialEq, Eq)]
pub enum Step {
    /// The worker took a step.
    Moved(Kind),
    /// The page's latch is another worker's, or the level to post to isn't there yet. Nothing changed.
    Waited,
    /// The worker's lane is at its end. Nothing changed.
    Idle,
}
