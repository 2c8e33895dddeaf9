//! Sessions that go back to the list that a map is closed with.
ghost use Rattle.std.specs.Prelude.{◌≡◌, ◌++◌, ◌∷◌, [], OnOk};

use blink_map::{GrowError, Session};

// Adds a session at the end.
pub(crate) fn push(sessions: &mut Vec<Session>, session: Session) -> Result<(), GrowError>
    ensures { OnOk result (sessions.new.items ≡ sessions.old.items ++ session ∷ []) }
{
    match sessions.push(session) {
        Ok(()) => Ok(()),
        Err(_) => Err(GrowError::OutOfMemory),
    }
}
