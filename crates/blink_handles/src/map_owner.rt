//! What the box of a map's handle holds: an owner of the map, or what a close has left of it.
ghost use Rattle.std.specs.Prelude.{◌≡◌, ◌↔◌, All, IfErr, IfOk, IsErrOf, IsFalse, OnErr, length};
ghost use Rattle.std.specs.Arc.{arc_value};
ghost use Rattle.blink_index.specs.{map_of};
ghost use Rattle.blink_map.specs.{IsSessionOf, WhyNotInRoom, WhyNotOpened, is_fixed};
ghost use Rattle.blink_handles.specs.Maps.{CanClose, IsClosedMap, IsCloseFault, IsEndFault, IsJoinFault, IsNewMap, IsOpenFault, IsOpenFixed, IsOwnMap, IsOwnerOfSame, IsRenewFault, IsRoomFault, IsShareFault, Joins, map_in, open_fault_of, places_for};
ghost use Rattle.blink_handles.specs.Sessions.{IsEmpty, IsOwnSession, in_map};
ghost use Rattle.blink_handles.specs.declared.map_owner.TheConstants.{PLACES};

use crate::map_refusal::MapRefusal;
use crate::session_owner::SessionOwner;
use crate::shared_map::{MapState, SharedMap};
use blink_index::Index;
use blink_map::{GrowError, GrowingMap, Room, Session, Unclosed};
use blink_page::MIN_FAN;
use std::alloc::{AllocError, Global};
use std::mem;
use std::snapshot::Snapshot;
use std::sync::Arc;

/// How many sessions a map has that isn't told how many: the most that a map can have. A session that nobody uses costs a line of a
/// processor's cache and its share of the rows.
pub const PLACES: u32 = 256;

/// An owner of a map, with the right to join it, to renew it and to close it.
#[derive(Drop)]
pub struct MapOwner {
    /// The map, or what has become of it.
    pub state: MapState,
    /// The map as it was opened.
    pub map: Snapshot<GrowingMap>,
}

impl MapOwner {
    /// Opens a map over the index, in a box, with places for so many sessions as a map can have. These rest.
    ///
    /// The call is refused with `OutOfMemory`, if memory was refused; and with `TooLarge`, if the index leaves too few of the 1,048,575 page
    /// numbers.
    pub fn open(alloc: Global, index: &Index) -> Result<Box<MapOwner>, MapRefusal>
        ensures opened { IfOk result (λ map. IsNewMap (map_of index.now) PLACES map.value) }
        ensures its_own { IfOk result (λ map. IsOwnMap map.value) }
        ensures grows { IfOk result (λ map. IsFalse (is_fixed (map_in map.value))) }
        ensures refused { IfErr result
            (IsOpenFault (WhyNotOpened (length index.now.pages) PLACES)) }
    {
        match GrowingMap::open(alloc, index, PLACES) {
            Ok((map, sessions)) => match MapOwner::boxed(alloc, map, sessions) {
                Ok(owner) => Ok(owner),
                Err(_) => Err(MapRefusal::OutOfMemory),
            },
            Err(refusal) => Err(open_fault(refusal)),
        }
    }

    /// Opens a map over the index, in a box, with this room, which may be fixed. Then the map has places for as many sessions as the room
    /// is for, and otherwise for so many as a map can have. Its sessions rest.
    ///
    /// The call is refused with `Sessions`, if the room is to be for none or for more than 256; with `TooLarge`, if the room's page numbers
    /// and the pages of the index are more than 1,048,575; and with `OutOfMemory`, if memory was refused.
    pub fn open_with_room(
        alloc: Global,
        index: &Index,
        room: Room,
        fixed: bool,
    ) -> Result<Box<MapOwner>, MapRefusal>
        ensures opened { IfOk result
            (λ map. IsNewMap (map_of index.now) (places_for room.sessions fixed) map.value) }
        ensures its_own { IfOk result (λ map. IsOwnMap map.value) }
        ensures room { IfOk result (λ map. is_fixed (map_in map.value) ≡ fixed) }
        ensures refused { IfErr result (IsOpenFault (WhyNotInRoom (length index.now.pages) room)) }
    {
        if room.sessions > PLACES {
            return Err(MapRefusal::Sessions);
        }
        let places = if fixed { room.sessions } else { PLACES };
        match GrowingMap::open_in(alloc, index, room, places, fixed) {
            Ok((map, sessions)) => match MapOwner::boxed(alloc, map, sessions) {
                Ok(owner) => Ok(owner),
                Err(_) => Err(MapRefusal::OutOfMemory),
            },
            Err(refusal) => Err(open_fault(refusal)),
        }
    }

    // A map in a box.
    fn boxed(
        alloc: Global,
        map: GrowingMap,
        sessions: Vec<Session>,
    ) -> Result<Box<MapOwner>, AllocError>
        requires its_own { All (IsSessionOf map) sessions.items }
        ensures map { IfOk result (λ owner. map_in owner.value ≡ map) }
        ensures its_own { IfOk result (λ owner. IsOwnMap owner.value) }
    {
        let opened = Snapshot::of(&map);
        let shared = SharedMap::new(alloc, map, sessions)?;
        let Ok(shared) = Arc::new(alloc, shared) else {
            return Err(AllocError);
        };
        let owner = MapOwner {
            state: MapState::Open(shared),
            map: opened,
        };
        match Box::new(alloc, owner) {
            Ok(owner) => Ok(owner),
            Err(_) => Err(AllocError),
        }
    }

    /// One more owner of the map, in a box. The call is refused with `Closed`, if a close of the map has begun; then with
    /// `OutOfMemory`, if memory was refused.
    pub fn share(&self, alloc: Global) -> Result<Box<MapOwner>, MapRefusal>
        requires its_own { IsOwnMap self.now }
        ensures shared { IfOk result (λ other. IsOwnerOfSame self.now other.value) }
        ensures its_own { IfOk result (λ other. IsOwnMap other.value) }
        ensures refused { IfErr result IsShareFault }
    {
        let MapState::Open(shared) = &self.state else {
            return Err(MapRefusal::Closed);
        };
        let map = Snapshot::of(&shared.map);
        let Ok(shared) = Arc::try_clone(shared) else {
            return Err(MapRefusal::OutOfMemory);
        };
        let owner = MapOwner {
            state: MapState::Open(shared),
            map,
        };
        match Box::new(alloc, owner) {
            Ok(other) => Ok(other),
            Err(_) => Err(MapRefusal::OutOfMemory),
        }
    }

    /// Joins the map, with the session in a box. The box is there before the session, so no place is lost. No session rests where a
    /// close of the map has begun.
    pub fn join(&self, alloc: Global) -> Result<Box<SessionOwner>, MapRefusal>
        requires its_own { IsOwnMap self.now }
        ensures joined { IfOk result (λ session. Joins self.now session.value) }
        ensures its_own { IfOk result (λ session. IsOwnSession session.value) }
        ensures refused { IfErr result IsJoinFault }
    {
        let MapState::Open(shared) = &self.state else {
            return Err(MapRefusal::NoSession);
        };
        let Ok(mut owner) = empty_owner(alloc, shared) else {
            return Err(MapRefusal::OutOfMemory);
        };
        match shared.places.join() {
            Some(session) => {
                owner.free = Some(session);
                Ok(owner)
            }
            None => Err(MapRefusal::NoSession),
        }
    }

    /// How many rows and page numbers the pool of the current map has left, as `GrowingMap::try_room` of `blink_map` tells it. Sessions may
    /// draw at any time, so the counts prove nothing.
    ///
    /// The call is refused with `Busy`, if the map was renewed at each look; and with `Closed`, if a close of the map has begun.
    pub fn room(&self, looks: u32) -> Result<(u64, u64), MapRefusal>
        ensures refused { IfErr result IsRoomFault }
    {
        let MapState::Open(shared) = &self.state else {
            return Err(MapRefusal::Closed);
        };
        match shared.map.try_room(looks) {
            Ok(left) => Ok(left),
            Err(_) => Err(MapRefusal::Busy),
        }
    }

    /// Renews the map, as `GrowingMap::try_renew` of `blink_map` does. Where some session rests, the entries are copied by it, so no search
    /// waits for the copy. A map whose room is fixed is never renewed.
    pub fn renew(&self, alloc: Global, looks: u32) -> Result<(), MapRefusal>
        ensures refused { IfErr result (IsRenewFault self.now.state) }
        ensures fixed { IsOpenFixed self.now.state → IsErrOf result MapRefusal.Full }
    {
        let MapState::Open(shared) = &self.state else {
            return Err(MapRefusal::Closed);
        };
        let copier = shared.places.resting().unwrap_or(0);
        match shared.map.try_renew_at(alloc, copier, None, looks) {
            Ok(()) => Ok(()),
            Err(refusal) => Err(MapRefusal::of(refusal)),
        }
    }

    /// Closes the map, and returns the index of its entries, in a box.
    ///
    /// The call is refused with `Closed`, if the map was closed before; with `Missing`, if another handle of the map or the handle of a
    /// session isn't freed; with `OutOfMemory`, if memory was refused; with `TooLarge`, if the entries need more pages than there are
    /// numbers; and with `Busy`, if a session was lost while an operation of it was under way. But for `Closed` the map stays, with all
    /// its entries, and the call may be made again.
    pub fn close(&mut self, alloc: Global) -> Result<Box<Index>, MapRefusal>
        requires its_own { IsOwnMap self.old }
        ensures its_own { IsOwnMap self.new }
        ensures same { IsOwnerOfSame self.old self.new }
        ensures entries { IfOk result (λ index. IsClosedMap (map_in self.old) (map_of index.value)) }
        ensures fan { IfOk result (λ index. index.value.fan ≡ (map_in self.old).fan) }
        ensures closed { IsErrOf result MapRefusal.Closed ↔ ¬ CanClose self.old.state }
        ensures refused { IfErr result IsCloseFault }
        ensures stays { OnErr result (CanClose self.old.state → CanClose self.new.state) }
    {
        match mem::replace(&mut self.state, MapState::Closed) {
            MapState::Open(shared) => {
                let Ok(sessions) = Vec::with_capacity(alloc, shared.count()) else {
                    self.state = MapState::Open(shared);
                    return Err(MapRefusal::OutOfMemory);
                };
                match Arc::try_unwrap(shared) {
                    Ok(shared) => {
                        let (map, sessions) = shared.gather(sessions);
                        self.give(alloc, map, sessions)
                    }
                    Err(shared) => {
                        self.state = MapState::Open(shared);
                        Err(MapRefusal::Missing)
                    }
                }
            }
            MapState::Unclosed(unclosed) => {
                let Unclosed {
                    map,
                    sessions,
                    refusal: _,
                } = unclosed;
                self.give(alloc, map, sessions)
            }
            MapState::Closed => Err(MapRefusal::Closed),
        }
    }

    // Closes the map with these sessions, and gives its index in a box. The box is there before, so no index is lost. After a refusal
    // the map and the sessions stay.
    fn give(
        &mut self,
        alloc: Global,
        map: GrowingMap,
        sessions: Vec<Session>,
    ) -> Result<Box<Index>, MapRefusal>
        requires its_map { map ≡ map_in self.old }
        requires its_own { All (IsSessionOf map) sessions.items }
        ensures its_own { IsOwnMap self.new }
        ensures same { IsOwnerOfSame self.old self.new }
        ensures entries { IfOk result (λ index. IsClosedMap (map_in self.old) (map_of index.value)) }
        ensures fan { IfOk result (λ index. index.value.fan ≡ (map_in self.old).fan) }
        ensures refused { IfErr result IsEndFault }
        ensures stays { OnErr result (CanClose self.new.state) }
    {
        if sessions.len() < map.places() {
            self.state = MapState::Unclosed(Unclosed {
                map,
                sessions,
                refusal: GrowError::Busy,
            });
            return Err(MapRefusal::Busy);
        }
        let Ok(mut room) = room_for_index(alloc) else {
            self.state = MapState::Unclosed(Unclosed {
                map,
                sessions,
                refusal: GrowError::OutOfMemory,
            });
            return Err(MapRefusal::OutOfMemory);
        };
        match map.close(alloc, sessions) {
            Ok(index) => {
                self.state = MapState::Closed;
                *room = index;
                Ok(room)
            }
            Err(unclosed) => {
                let refusal = unclosed.refusal;
                self.state = MapState::Unclosed(unclosed);
                Err(MapRefusal::of(refusal))
            }
        }
    }
}

// Why a map isn't opened.
fn open_fault(refusal: GrowError) -> MapRefusal
    ensures { result ≡ open_fault_of refusal }
{
    match refusal {
        GrowError::Sessions => MapRefusal::Sessions,
        GrowError::TooLarge => MapRefusal::TooLarge,
        _ => MapRefusal::OutOfMemory,
    }
}

// A box for an index, with one without an entry in it meanwhile.
fn room_for_index(alloc: Global) -> Result<Box<Index>, AllocError> {
    match Index::new(alloc, MIN_FAN) {
        Ok(index) => match Box::new(alloc, index) {
            Ok(room) => Ok(room),
            Err(_) => Err(AllocError),
        },
        Err(_) => Err(AllocError),
    }
}

// A box for a session, with one more owner of the map.
fn empty_owner(alloc: Global, shared: &Arc<SharedMap>) -> Result<Box<SessionOwner>, AllocError>
    ensures map { IfOk result (λ session. in_map session.value ≡ (arc_value shared.now).map) }
    ensures empty { IfOk result (λ session. IsEmpty session.value) }
{
    let shared = Arc::try_clone(shared)?;
    let owner = SessionOwner {
        shared,
        keeps: false,
        free: None,
        held: None,
        under_way: None,
    };
    match Box::new(alloc, owner) {
        Ok(session) => Ok(session),
        Err(_) => Err(AllocError),
    }
}
