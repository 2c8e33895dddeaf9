//! The exports of a map.
ghost use Rattle.std.specs.Prelude.{◌≡◌, ◌≢◌, ◌↔◌, None, IfSome, IsFalse, IsSome, length};
ghost use Rattle.blink_map.specs.{WhyNotInRoom, WhyNotOpened, is_fixed};
ghost use Rattle.blink_index.specs.{map_of};
ghost use Rattle.blink_handles.specs.Codes.{TellsWhy};
ghost use Rattle.blink_handles.specs.MapCodes.{code_of};
ghost use Rattle.blink_handles.specs.Maps.{CanClose, IsClosedMap, IsCloseFault, IsJoinFault, IsNewMap, IsOpenFault, IsOpenFixed, IsOwnMap, IsOwnerOfSame, IsRenewFault, IsRoomFault, IsShareFault, Joins, map_in, places_for};
ghost use Rattle.blink_handles.specs.declared.map_owner.TheConstants.{PLACES};
ghost use Rattle.blink_handles.specs.Sessions.{IsOwnSession};

use crate::index_handle::IndexHandle;
use crate::index_slot::IndexSlot;
use crate::map_handle::MapHandle;
use crate::map_slot::MapSlot;
use crate::session_slot::SessionSlot;
use blink_handles::map_owner::MapOwner;
use blink_handles::map_refusal::code_of;
use blink_handles::refusal::{Code, DONE};
use blink_map::Room;
use std::alloc::Global;

/// Opens a map over the index. The map grows as it has to.
#[unsafe(no_mangle)]
pub extern "C" fn blink_map_open(alloc: Global, index: &mut IndexHandle, out: &mut MapSlot) -> Code
    requires { out.old.value ≡ None }
    ensures opened { result ≡ 0 → IsSome out.new.value × IfSome out.new.value
        (IsNewMap (map_of index.old.value) PLACES) }
    ensures its_own { IfSome out.new.value IsOwnMap }
    ensures grows { IfSome out.new.value (λ map. IsFalse (is_fixed (map_in map))) }
    ensures refused { TellsWhy code_of
        (IsOpenFault (WhyNotOpened (length index.old.value.pages) PLACES)) result }
    ensures unchanged { result ≢ 0 → out.new.value ≡ None }
    ensures same { index.new.value ≡ index.old.value }
{
    match MapOwner::open(alloc, index.get()) {
        Ok(map) => {
            *out = MapSlot::of(map);
            DONE
        }
        Err(refusal) => refusal.code(),
    }
}

/// Opens a map over the index as `blink_map_open` does, with this room for its first changes, which is for so many sessions. If the
/// room is fixed, the map is never renewed, its changes are refused where it is full, and no more sessions join it.
#[unsafe(no_mangle)]
pub extern "C" fn blink_map_open_with_room(
    alloc: Global,
    index: &mut IndexHandle,
    pages: u32,
    rows: u32,
    sessions: u32,
    fixed: bool,
    out: &mut MapSlot,
) -> Code
    requires { out.old.value ≡ None }
    ensures opened { result ≡ 0 → IsSome out.new.value × IfSome out.new.value
        (IsNewMap (map_of index.old.value) (places_for sessions fixed)) }
    ensures its_own { IfSome out.new.value IsOwnMap }
    ensures room { IfSome out.new.value (λ map. is_fixed (map_in map) ≡ fixed) }
    ensures refused { TellsWhy code_of
        (IsOpenFault (WhyNotInRoom (length index.old.value.pages)
        (record { pages = pages; rows = rows; sessions = sessions }))) result }
    ensures unchanged { result ≢ 0 → out.new.value ≡ None }
    ensures same { index.new.value ≡ index.old.value }
{
    let room = Room {
        pages,
        rows,
        sessions,
    };
    match MapOwner::open_with_room(alloc, index.get(), room, fixed) {
        Ok(map) => {
            *out = MapSlot::of(map);
            DONE
        }
        Err(refusal) => refusal.code(),
    }
}

/// Gives one more handle of the map, for another thread: calls with different handles may be made at the same time. The map closes by
/// its last handle. The call is refused with `Closed`, if a close of the map has begun.
#[unsafe(no_mangle)]
pub extern "C" fn blink_map_share_alone(
    alloc: Global,
    map: &mut MapHandle,
    out: &mut MapSlot,
) -> Code
    requires its_own { IsOwnMap map.old.value }
    requires empty { out.old.value ≡ None }
    ensures shared { result ≡ 0 → IsSome out.new.value × IfSome out.new.value
        (IsOwnerOfSame map.old.value) }
    ensures its_own { IfSome out.new.value IsOwnMap }
    ensures refused { TellsWhy code_of IsShareFault result }
    ensures unchanged { result ≢ 0 → out.new.value ≡ None }
    ensures same { map.new.value ≡ map.old.value }
{
    match map.get().share(alloc) {
        Ok(other) => {
            *out = MapSlot::of(other);
            DONE
        }
        Err(refusal) => refusal.code(),
    }
}

/// Joins the map: gives a session, if one rests.
#[unsafe(no_mangle)]
pub extern "C" fn blink_map_join_alone(
    alloc: Global,
    map: &mut MapHandle,
    out: &mut SessionSlot,
) -> Code
    requires its_own { IsOwnMap map.old.value }
    requires empty { out.old.value ≡ None }
    ensures joined { result ≡ 0 → IsSome out.new.value × IfSome out.new.value
        (λ session. IsOwnSession session × Joins map.old.value session) }
    ensures refused { TellsWhy code_of IsJoinFault result }
    ensures unchanged { result ≢ 0 → out.new.value ≡ None }
    ensures same { map.new.value ≡ map.old.value }
{
    match map.get().join(alloc) {
        Ok(session) => {
            *out = SessionSlot::of(session);
            DONE
        }
        Err(refusal) => refusal.code(),
    }
}

/// Stores how many page numbers and rows the pool of the current map has left. Sessions may draw at any time, so the counts prove nothing.
/// It looks so many times for a session that is in its place.
#[unsafe(no_mangle)]
pub extern "C" fn blink_map_room_alone(
    map: &mut MapHandle,
    looks: u32,
    pages: &mut u64,
    rows: &mut u64,
) -> Code
    ensures refused { TellsWhy code_of IsRoomFault result }
    ensures unchanged { result ≢ 0 → (pages.new ≡ pages.old) × (rows.new ≡ rows.old) }
    ensures same { map.new.value ≡ map.old.value }
{
    match map.get().room(looks) {
        Ok(left) => {
            *pages = left.1;
            *rows = left.0;
            DONE
        }
        Err(refusal) => refusal.code(),
    }
}

/// Renews the map: its entries are packed into another one, with new room. It looks so many times for each session that is in a call. A map
/// whose room is fixed is never renewed.
#[unsafe(no_mangle)]
pub extern "C" fn blink_map_renew(alloc: Global, map: &mut MapHandle, looks: u32) -> Code
    ensures refused { TellsWhy code_of (IsRenewFault map.old.value.state) result }
    ensures fixed { IsOpenFixed map.old.value.state → result ≡ 105 }
    ensures same { map.new.value ≡ map.old.value }
{
    code_of(&map.get().renew(alloc, looks))
}

/// Closes the map, and gives the index of its entries. The handle stays, and is still to be freed. The call is refused with `Missing` if
/// the handle of a session, or another one of the map, isn't freed; and with `Closed` exactly if the map was closed before. After every
/// other refusal the map stays, with all its entries, and the call may be made again.
#[unsafe(no_mangle)]
pub extern "C" fn blink_map_close(alloc: Global, map: &mut MapHandle, out: &mut IndexSlot) -> Code
    requires its_own { IsOwnMap map.old.value }
    requires empty { out.old.value ≡ None }
    ensures its_own { IsOwnMap map.new.value }
    ensures same { IsOwnerOfSame map.old.value map.new.value }
    ensures closed { result ≡ 0 → IsSome out.new.value × IfSome out.new.value
        (λ index. IsClosedMap (map_in map.old.value) (map_of index)) }
    ensures fan { IfSome out.new.value (λ index. index.fan ≡ (map_in map.old.value).fan) }
    ensures refused { TellsWhy code_of IsCloseFault result }
    ensures closed_before { result ≡ 108 ↔ ¬ CanClose map.old.value.state }
    ensures stays { result ≢ 0 → CanClose map.old.value.state → CanClose map.new.value.state }
    ensures unchanged { result ≢ 0 → out.new.value ≡ None }
{
    match map.get().close(alloc) {
        Ok(index) => {
            *out = IndexSlot::of(index);
            DONE
        }
        Err(refusal) => refusal.code(),
    }
}

/// Frees the handle. The handles of sessions, and others of the map, may still be used, and are still to be freed.
#[unsafe(no_mangle)]
pub extern "C" fn blink_map_free(map: MapHandle) {
    drop(map.into_box());
}
