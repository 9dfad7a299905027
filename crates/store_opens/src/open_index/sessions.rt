//! Small steps on the rows of the sessions.
ghost use Rattle.std.specs.Prelude.{◌≡◌, ◌<◌, ◌==◌, ℕ, Bool, Option, true, false, None, Some, OnOk, IfSome, is_some};
ghost use Rattle.std.specs.Prelude.{if◌then◌else◌, nat_eq};
ghost use Rattle.std.specs.HashMap.{get, spare};
ghost use Rattle.spec_exchange.specs.Table.{put};
ghost use Rattle.store_opens.specs.open_index.Keep.{SessionShown, SessionsGrow, SessionsCount, ClosesGuid, RefusesGuid};
ghost use Rattle.store_opens.specs.open_index.Keep.{SessionsUnlist, IsNotListed, HasKeepPlace, HasPlaceIn, keep_lists, lists_plain};
ghost use Rattle.store_opens.specs.open_index.Keep.{keep_names, one_more};
ghost use Rattle.store_opens.specs.open_index.Keep.{guids_with};

use crate::open_index::keep::SessionOpens;
use std::alloc::{AllocError, Global};
use std::collections::HashMap;

// The row stands at a key.
fn put_session(sessions: &mut HashMap<u64, SessionOpens>, session: u64, row: SessionOpens)
    requires { 0 < spare sessions.old }
    ensures { (q : ℕ) → get nat_eq sessions.new q ≡ (if q == session then Some row else get nat_eq sessions.old q) }
{
    let _ = sessions.insert(session, row);
}

// A session that has no row gets one.
fn make_session(
    sessions: &mut HashMap<u64, SessionOpens>,
    alloc: Global,
    session: u64,
) -> Result<(), AllocError>
    ensures grows { SessionsGrow (λ q. get nat_eq sessions.old q) (λ q. get nat_eq sessions.new q) }
    ensures there { OnOk result (is_some (get nat_eq sessions.new session) ≡ true) }
{
    if sessions.contains_key(&session) {
        return Ok(());
    }
    sessions.reserve(1)?;
    put_session(sessions, session, SessionOpens::new(alloc));
    Ok(())
}

fn reserve_place(sessions: &mut HashMap<u64, SessionOpens>, session: u64) -> Result<(), AllocError>
    ensures grows { SessionsGrow (λ q. get nat_eq sessions.old q) (λ q. get nat_eq sessions.new q) }
    ensures room { is_some (get nat_eq sessions.old session) ≡ true → OnOk result (HasKeepPlace (get nat_eq sessions.new session)) }
{
    match sessions.get_mut(&session) {
        Some(row) => row.reserve_result(),
        None => Ok(()),
    }
}

/// Makes room for what becomes of one more CreateGuid of a session.
pub fn reserve_guid(
    sessions: &mut HashMap<u64, SessionOpens>,
    alloc: Global,
    session: u64,
) -> Result<(), AllocError>
    ensures grows { SessionsGrow (λ q. get nat_eq sessions.old q) (λ q. get nat_eq sessions.new q) }
    ensures room { OnOk result (HasKeepPlace (get nat_eq sessions.new session)) }
{
    make_session(sessions, alloc, session)?;
    reserve_place(sessions, session)
}

/// Lists an open in the row of its session, a plain one among those too.
pub fn list_in(
    sessions: &mut HashMap<u64, SessionOpens>,
    session: u64,
    id: u64,
    is_plain: bool,
) -> Result<(), AllocError>
    ensures grows { SessionsGrow (λ q. get nat_eq sessions.old q) (λ q. get nat_eq sessions.new q) }
    ensures listed { HasKeepPlace (get nat_eq sessions.old session) → OnOk result (HasKeepPlace (get nat_eq sessions.new session)
        × (keep_lists (get nat_eq sessions.new session) id ≡ true)
        × (is_plain ≡ true → lists_plain (get nat_eq sessions.new session) id ≡ true)) }
{
    match sessions.get_mut(&session) {
        Some(row) => row.list(id, is_plain),
        None => Ok(()),
    }
}

/// Counts one more CreateGuid of a session.
pub fn count_in(sessions: &mut HashMap<u64, SessionOpens>, session: u64)
    ensures counted { is_some (get nat_eq sessions.old session) ≡ true
        → SessionsCount (λ q. get nat_eq sessions.old q) (λ q. get nat_eq sessions.new q) (one_more session) }
{
    if let Some(row) = sessions.get_mut(&session) {
        row.count();
    }
}

/// Gives the close of a CreateGuid its place.
pub fn stand_in(sessions: &mut HashMap<u64, SessionOpens>, session: u64, guid: u128)
    requires { HasKeepPlace (get nat_eq sessions.old session) }
    ensures grows { SessionsGrow (λ q. get nat_eq sessions.old q) (λ q. get nat_eq sessions.new q) }
    ensures named { keep_names (get nat_eq sessions.new session) guid ≡ true }
    ensures there { is_some (get nat_eq sessions.new session) ≡ true }
{
    if let Some(row) = sessions.get_mut(&session) {
        row.stand(guid);
    }
}

/// Counts the CreateGuid of a session, where there are both, and gives its close a place.
pub fn stand_new(
    sessions: &mut HashMap<u64, SessionOpens>,
    session: Option<u64>,
    guid: Option<u128>,
)
    requires { HasPlaceIn (λ q. get nat_eq sessions.old q) session }
    ensures counted { SessionsCount (λ q. get nat_eq sessions.old q) (λ q. get nat_eq sessions.new q) (guids_with session guid) }
    ensures here { (x g : ℕ) → session ≡ Some x → guid ≡ Some g → keep_names (get nat_eq sessions.new x) g ≡ true }
{
    if let Some(session) = session {
        if let Some(guid) = guid {
            stand_counted(sessions, session, guid);
        }
    }
}

// Counts a CreateGuid of a session, and gives its close a place.
fn stand_counted(sessions: &mut HashMap<u64, SessionOpens>, session: u64, guid: u128)
    requires { HasKeepPlace (get nat_eq sessions.old session) }
    ensures counted { SessionsCount (λ q. get nat_eq sessions.old q) (λ q. get nat_eq sessions.new q) (one_more session) }
    ensures here { keep_names (get nat_eq sessions.new session) guid ≡ true }
{
    stand_in(sessions, session, guid);
    count_in(sessions, session);
}

/// Counts an open that is attached to a session, and gives the close of its CreateGuid, where it has one, a place.
pub fn attach_in(sessions: &mut HashMap<u64, SessionOpens>, session: u64, guid: Option<u128>)
    requires { HasKeepPlace (get nat_eq sessions.old session) }
    ensures counted { SessionsCount (λ q. get nat_eq sessions.old q) (λ q. get nat_eq sessions.new q) (one_more session) }
    ensures here { (g : ℕ) → guid ≡ Some g → keep_names (get nat_eq sessions.new session) g ≡ true }
{
    match guid {
        Some(guid) => stand_counted(sessions, session, guid),
        None => count_in(sessions, session),
    }
}

/// Keeps that an open of a CreateGuid was closed.
pub fn close_in(sessions: &mut HashMap<u64, SessionOpens>, session: u64, guid: u128)
    ensures here { (closed : ℕ → Bool) (refused : ℕ → Option ℕ) (guids : ℕ) → keep_names (get nat_eq sessions.old session) guid ≡ true
        → SessionShown (get nat_eq sessions.old session) closed refused guids
        → SessionShown (get nat_eq sessions.new session) (put closed guid true) refused guids }
    ensures others { (q : ℕ) → (q == session) ≡ false → get nat_eq sessions.new q ≡ get nat_eq sessions.old q }
    ensures listed { (q o : ℕ) → keep_lists (get nat_eq sessions.new q) o ≡ keep_lists (get nat_eq sessions.old q) o }
    ensures plain { (q o : ℕ) → lists_plain (get nat_eq sessions.new q) o ≡ lists_plain (get nat_eq sessions.old q) o }
    ensures named { (q g : ℕ) → keep_names (get nat_eq sessions.new q) g ≡ keep_names (get nat_eq sessions.old q) g }
{
    if let Some(row) = sessions.get_mut(&session) {
        row.close(guid);
    }
}

/// Keeps that the create of a CreateGuid was refused with this status.
pub fn refuse_in(sessions: &mut HashMap<u64, SessionOpens>, session: u64, guid: u128, status: u32)
    requires { HasKeepPlace (get nat_eq sessions.old session) }
    ensures refuses { RefusesGuid (λ q. get nat_eq sessions.old q) (λ q. get nat_eq sessions.new q) session guid status }
    ensures there { is_some (get nat_eq sessions.new session) ≡ true }
{
    if let Some(row) = sessions.get_mut(&session) {
        row.refuse(guid, status);
    }
}

/// The session, where there is one, keeps the CreateGuid, where there is one, as closed.
pub fn close_guid(
    sessions: &mut HashMap<u64, SessionOpens>,
    session: Option<u64>,
    guid: Option<u128>,
)
    ensures { ClosesGuid (λ q. get nat_eq sessions.old q) (λ q. get nat_eq sessions.new q) session guid }
{
    if let Some(session) = session {
        if let Some(guid) = guid {
            close_in(sessions, session, guid);
        }
    }
}

/// Lists an open no more in the row of the session, where there is one, that it was attached to.
pub fn unlist_in(sessions: &mut HashMap<u64, SessionOpens>, session: Option<u64>, id: u64)
    ensures gone { IfSome session (λ x. IsNotListed (get nat_eq sessions.new x) id) }
    ensures others { SessionsUnlist (λ q. get nat_eq sessions.old q) (λ q. get nat_eq sessions.new q) id }
{
    if let Some(session) = session {
        unlist_at(sessions, session, id);
    }
}

fn unlist_at(sessions: &mut HashMap<u64, SessionOpens>, session: u64, id: u64)
    ensures gone { IsNotListed (get nat_eq sessions.new session) id }
    ensures others { SessionsUnlist (λ q. get nat_eq sessions.old q) (λ q. get nat_eq sessions.new q) id }
{
    if let Some(row) = sessions.get_mut(&session) {
        row.unlist(id);
    }
}
