//! Consecutive numbers.
ghost use Rattle.std.specs.Prelude.{◌≡◌, ◌-◌};

/// The numbers from `next` on that are below `stop`; none if `next` is not below `stop`.
#[derive(Clone, Copy, Debug, PartialEq, Eq)]
pub struct Span {
    pub next: u64,
    pub stop: u64,
}

impl Span {
    /// Returns how many numbers the span has.
    pub fn len(&self) -> u64
        ensures { result ≡ self.now.stop - self.now.next }
    {
        self.stop.saturating_sub(self.next)
    }
}
