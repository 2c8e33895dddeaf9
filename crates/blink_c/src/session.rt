//! The exports of a session.
ghost use Rattle.std.specs.Prelude.{◌≡◌, ◌≢◌};
ghost use Rattle.blink_batch.specs.{FitsWords};
ghost use Rattle.blink_batch.specs.declared.Op.TheVariants.{Delete, DeleteExact, Exchange, Insert, Replace};
ghost use Rattle.blink_generation.specs.{IsUpdate};
ghost use Rattle.blink_handles.specs.Codes.{TellsWhy};
ghost use Rattle.blink_handles.specs.MapCodes.{code_of};
ghost use Rattle.blink_handles.specs.Sessions.{EndsFrom, Finds, IsAdvanceRefusal, IsAway, IsOwnSession, IsPutRefusal, IsTakeRefusal, KnowsSame, Puts, Scans, ScansBack, SeesMore, Takes, TellsStock, in_map};
ghost use Rattle.blink_c.specs.Changing.{ChangesMap};

use crate::session_handle::SessionHandle;
use blink_batch::{Entry, Op};
use blink_generation::FREE_TRIES;
use blink_handles::map_refusal::code_of;
use blink_handles::raw::{RawAnswer, RawScanned, RawStock, RawTaken};
use blink_handles::refusal::Code;
use std::alloc::Global;

/// Looks any key up, as the session has seen it by the end of the call. It looks `tries` times for the session, at least once, while the
/// map is renewed.
#[unsafe(no_mangle)]
pub extern "C" fn blink_session_get_try(
    session: &mut SessionHandle,
    key: u64,
    tries: u32,
    answer: &mut RawAnswer,
) -> Code
    requires its_own { IsOwnSession session.old.value }
    ensures its_own { IsOwnSession session.new.value }
    ensures found { result ≡ 0 → Finds key session.old.value session.new.value answer.new }
    ensures refused { TellsWhy code_of (IsAway session.old.value session.new.value) result }
    ensures unchanged { result ≢ 0 → answer.new ≡ answer.old }
{
    code_of(&session.get().find(key, tries, answer))
}

/// Gives the entries whose keys are from `lo` to `hi`, as many as there are places, and tells how far it came.
#[unsafe(no_mangle)]
pub extern "C" fn blink_session_scan_try(
    session: &mut SessionHandle,
    lo: u64,
    hi: u64,
    tries: u32,
    entries: &mut [Entry],
    scanned: &mut RawScanned,
) -> Code
    requires its_own { IsOwnSession session.old.value }
    ensures its_own { IsOwnSession session.new.value }
    ensures scanned { result ≡ 0
        → Scans lo hi session.old.value session.new.value entries.old entries.new scanned.new }
    ensures refused { TellsWhy code_of (IsAway session.old.value session.new.value) result }
    ensures unchanged { result ≢ 0
        → (entries.new ≡ entries.old) × (scanned.new ≡ scanned.old) }
{
    code_of(&session.get().scan((lo, hi), tries, entries, scanned))
}

/// Gives the entries whose keys are from `lo` to `hi`, the greatest first, as many as there are places, and tells how far it
/// came.
#[unsafe(no_mangle)]
pub extern "C" fn blink_session_scan_back_try(
    session: &mut SessionHandle,
    lo: u64,
    hi: u64,
    tries: u32,
    entries: &mut [Entry],
    scanned: &mut RawScanned,
) -> Code
    requires its_own { IsOwnSession session.old.value }
    ensures its_own { IsOwnSession session.new.value }
    ensures scanned { result ≡ 0
        → ScansBack lo hi session.old.value session.new.value entries.old entries.new scanned.new }
    ensures refused { TellsWhy code_of (IsAway session.old.value session.new.value) result }
    ensures unchanged { result ≢ 0
        → (entries.new ≡ entries.old) × (scanned.new ≡ scanned.old) }
{
    code_of(&session.get().scan_back((lo, hi), tries, entries, scanned))
}

/// Takes a snapshot of the entries whose keys are from `lo` to `hi`, as all of them were at one time. It tries so many times, and
/// tells whether one was taken, and how many entries it has.
#[unsafe(no_mangle)]
pub extern "C" fn blink_session_snapshot_try(
    alloc: Global,
    session: &mut SessionHandle,
    lo: u64,
    hi: u64,
    tries: u32,
    entries: &mut [Entry],
    taken: &mut RawTaken,
) -> Code
    requires its_own { IsOwnSession session.old.value }
    ensures its_own { IsOwnSession session.new.value }
    ensures taken { result ≡ 0
        → Takes lo hi session.old.value session.new.value entries.old entries.new taken.new }
    ensures refused { TellsWhy code_of (IsTakeRefusal session.old.value session.new.value) result }
    ensures unchanged { result ≢ 0 → (entries.new ≡ entries.old) × (taken.new ≡ taken.old) }
{
    code_of(
        &session
            .get()
            .snapshot(alloc, (lo, hi), tries, entries, taken),
    )
}

/// Adds an entry. Where the map is full, the call renews it, unless its room is fixed. After `tries` steps in vain it returns with the
/// insertion under way, which goes on by `blink_session_advance`.
#[unsafe(no_mangle)]
pub extern "C" fn blink_session_insert_try(
    alloc: Global,
    session: &mut SessionHandle,
    key: u64,
    pointer: u64,
    tries: u32,
    answer: &mut RawAnswer,
) -> Code
    requires { IsOwnSession session.old.value }
    ensures { ChangesMap (Insert key pointer)
        session.old.value session.new.value answer.old answer.new result }
{
    change(alloc, session, Op::Insert(key, pointer), tries, answer)
}

/// Removes a key. It may be under way then as an insertion.
#[unsafe(no_mangle)]
pub extern "C" fn blink_session_remove_try(
    alloc: Global,
    session: &mut SessionHandle,
    key: u64,
    tries: u32,
    answer: &mut RawAnswer,
) -> Code
    requires { IsOwnSession session.old.value }
    ensures { ChangesMap (Delete key)
        session.old.value session.new.value answer.old answer.new result }
{
    change(alloc, session, Op::Delete(key), tries, answer)
}

/// Replaces a key's pointer. It may be under way then as an insertion.
#[unsafe(no_mangle)]
pub extern "C" fn blink_session_replace_try(
    alloc: Global,
    session: &mut SessionHandle,
    key: u64,
    pointer: u64,
    tries: u32,
    answer: &mut RawAnswer,
) -> Code
    requires { IsOwnSession session.old.value }
    ensures { ChangesMap (Replace key pointer)
        session.old.value session.new.value answer.old answer.new result }
{
    change(alloc, session, Op::Replace(key, pointer), tries, answer)
}

/// Replaces a key's pointer, if it is the expected one. It may be under way then as an insertion.
#[unsafe(no_mangle)]
pub extern "C" fn blink_session_compare_exchange_try(
    alloc: Global,
    session: &mut SessionHandle,
    key: u64,
    expected: u64,
    pointer: u64,
    tries: u32,
    answer: &mut RawAnswer,
) -> Code
    requires { IsOwnSession session.old.value }
    ensures { ChangesMap (Exchange key expected pointer)
        session.old.value session.new.value answer.old answer.new result }
{
    change(
        alloc,
        session,
        Op::Exchange(key, expected, pointer),
        tries,
        answer,
    )
}

/// Removes a key with its pointer, if that is the expected one. It may be under way then as an insertion.
#[unsafe(no_mangle)]
pub extern "C" fn blink_session_compare_remove_try(
    alloc: Global,
    session: &mut SessionHandle,
    key: u64,
    expected: u64,
    tries: u32,
    answer: &mut RawAnswer,
) -> Code
    requires { IsOwnSession session.old.value }
    ensures { ChangesMap (DeleteExact key expected)
        session.old.value session.new.value answer.old answer.new result }
{
    change(
        alloc,
        session,
        Op::DeleteExact(key, expected),
        tries,
        answer,
    )
}

// Runs an operation that changes the map, or begins it.
fn change(
    alloc: Global,
    session: &mut SessionHandle,
    op: Op,
    tries: u32,
    answer: &mut RawAnswer,
) -> Code
    requires its_own { IsOwnSession session.old.value }
    requires updates { IsUpdate op }
    requires fits { FitsWords op }
    ensures { ChangesMap op session.old.value session.new.value answer.old answer.new result }
{
    code_of(&session.get().change(alloc, op, tries, answer))
}

/// Puts an entry: replaces the key's pointer, and inserts the entry where the key is absent. The answer is that of the replacement or of
/// the insertion. The put may be under way then as an insertion.
#[unsafe(no_mangle)]
pub extern "C" fn blink_session_put_try(
    alloc: Global,
    session: &mut SessionHandle,
    key: u64,
    pointer: u64,
    tries: u32,
    answer: &mut RawAnswer,
) -> Code
    requires its_own { IsOwnSession session.old.value }
    ensures its_own { IsOwnSession session.new.value }
    ensures put { result ≡ 0 → Puts key pointer session.old.value session.new.value answer.new }
    ensures refused { TellsWhy code_of
        (IsPutRefusal key pointer session.old.value session.new.value) result }
    ensures unchanged { result ≢ 0 → answer.new ≡ answer.old }
{
    code_of(&session.get().put(alloc, key, pointer, tries, answer))
}

/// Takes the next steps of the operation or the put that is under way. A put may be refused then for lack of room or memory, and nothing is
/// put.
#[unsafe(no_mangle)]
pub extern "C" fn blink_session_advance(
    alloc: Global,
    session: &mut SessionHandle,
    tries: u32,
    answer: &mut RawAnswer,
) -> Code
    requires its_own { IsOwnSession session.old.value }
    ensures its_own { IsOwnSession session.new.value }
    ensures ended { result ≡ 0
        → EndsFrom session.old.value.under_way session.old.value session.new.value answer.new }
    ensures refused { TellsWhy code_of
        (IsAdvanceRefusal session.old.value.under_way session.old.value session.new.value) result }
    ensures unchanged { result ≢ 0 → answer.new ≡ answer.old }
{
    code_of(&session.get().advance(alloc, tries, answer))
}

/// Holds the session until `blink_session_let_go`. Calls on it wait for no renewal then, and the map is neither renewed nor
/// closed, but for a change of this session that finds the map full.
#[unsafe(no_mangle)]
pub extern "C" fn blink_session_hold_try(session: &mut SessionHandle, tries: u32) -> Code
    requires its_own { IsOwnSession session.old.value }
    ensures its_own { IsOwnSession session.new.value }
    ensures held { result ≡ 0 → SeesMore session.old.value session.new.value }
    ensures refused { TellsWhy code_of (IsAway session.old.value session.new.value) result }
{
    code_of(&session.get().hold(tries))
}

/// Lets a session go that is held. One whose operation is under way is let go when that has ended.
#[unsafe(no_mangle)]
pub extern "C" fn blink_session_let_go(session: &mut SessionHandle)
    requires its_own { IsOwnSession session.old.value }
    ensures its_own { IsOwnSession session.new.value }
    ensures same { KnowsSame session.old.value session.new.value }
    ensures goes_on { session.new.value.under_way ≡ session.old.value.under_way }
{
    session.get().let_go();
}

/// Tells what the session has of page numbers and rows in the map that it is in just now. It looks `tries` times for the session, at least
/// once, while the map is renewed.
#[unsafe(no_mangle)]
pub extern "C" fn blink_session_reserve_try(
    session: &mut SessionHandle,
    tries: u32,
    stock: &mut RawStock,
) -> Code
    requires its_own { IsOwnSession session.old.value }
    ensures its_own { IsOwnSession session.new.value }
    ensures told { result ≡ 0 → TellsStock session.old.value session.new.value stock.new }
    ensures refused { TellsWhy code_of (IsAway session.old.value session.new.value) result }
    ensures unchanged { result ≢ 0 → stock.new ≡ stock.old }
{
    code_of(&session.get().stock(tries, stock))
}

/// Frees the handle. The session rests at its place again, which can be taken. An operation or a put under way is driven to its end before;
/// a put that finds no room ends with nothing put. If it still waits after 1,000 tries, the session is lost, and the map can't be renewed
/// or closed.
#[unsafe(no_mangle)]
pub extern "C" fn blink_session_free(alloc: Global, session: SessionHandle)
    requires its_own { IsOwnSession session.value }
{
    let _rests = Box::into_inner(session.into_box()).free(alloc, FREE_TRIES);
}
