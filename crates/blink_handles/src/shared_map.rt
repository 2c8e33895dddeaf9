//! What the handles of a map and of its sessions share: the map, and the places of the sessions that nobody uses.
ghost use Rattle.std.specs.Prelude.{◌≡◌, [], All, IfOk};
ghost use Rattle.blink_map.specs.{IsSessionOf, map_at};

use blink_map::{GrowingMap, Places, Session, Unclosed};
use std::alloc::{AllocError, Global};
use std::sync::Arc;

/// A map with the places of its sessions.
#[derive(Drop)]
pub struct SharedMap {
    /// The map.
    pub map: GrowingMap,
    /// The sessions that nobody uses.
    pub places: Places,
    // How many sessions there are.
    count: usize,
    ghost its_places: { map_at places ≡ map },
}

/// A map that is open, or what a close has left of it.
#[derive(Drop)]
pub enum MapState {
    /// The map, which sessions and other handles share.
    Open(Arc<SharedMap>),
    /// The map and its sessions. A close was refused so far.
    Unclosed(Unclosed),
    /// Nothing is left: the map was closed.
    Closed,
}

impl SharedMap {
    /// A map whose sessions all rest.
    pub fn new(
        alloc: Global,
        map: GrowingMap,
        mut sessions: Vec<Session>,
    ) -> Result<SharedMap, AllocError>
        requires its_own { All (IsSessionOf map) sessions.items }
        ensures { IfOk result (λ shared. shared.map ≡ map) }
    {
        let places = Places::new(alloc, &map)?;
        let count = sessions.len();
        places.leave_all(&mut sessions);
        Ok(SharedMap { map, places, count })
    }

    /// The number of the map's sessions.
    pub fn count(&self) -> usize {
        self.count
    }

    /// Takes the map, and the sessions that rest, as many as the vector has memory for.
    pub fn gather(self, mut sessions: Vec<Session>) -> (GrowingMap, Vec<Session>)
        requires none { sessions.items ≡ [] }
        ensures map { result.0 ≡ self.map }
        ensures sessions { All (IsSessionOf self.map) result.1.items }
    {
        let SharedMap {
            map,
            places,
            count: _,
        } = self;
        places.join_all(&mut sessions);
        (map, sessions)
    }
}
