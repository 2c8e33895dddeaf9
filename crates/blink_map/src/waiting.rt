//! How often calls of a growing map try before they give up. None decides what a call answers, but whether it refuses with `Busy`.

/// How often a change renews the map at most. Once is enough, unless other sessions use up all the new room before the change is made. Each
/// time costs a copy of all entries.
pub const RENEWALS: u32 = 8;

// How often a session is looked for: so many times in one try, in so many tries, at least one.
#[derive(Clone, Copy)]
pub(crate) struct Patience {
    pub(crate) tries: u32,
    pub(crate) looks: u32,
}

// How often a renewal looks for a session that a call has. It spins between two looks, since a static library links no call that yields. All
// calls wait meanwhile.
pub(crate) const RENEWAL: Patience = Patience {
    tries: 1_000,
    looks: 1_000,
};

// The same of a close, when nobody is in a call. So a session that isn't in its slot at the first look stays away.
pub(crate) const CLOSE: Patience = Patience { tries: 1, looks: 1 };

// How often a renewal spins before it gathers the sessions, so that a call which has found none under way has taken its slot.
pub(crate) const GRACE: u32 = 1_000;

// How often a snapshot of all keys is tried for the copy. Changes wait meanwhile, but for those of a call that was about to take its slot.
pub(crate) const COPY_TRIES: u32 = 8;
