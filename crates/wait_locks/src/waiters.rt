//! The list of waiters.
ghost use Rattle.std.specs.Prelude.{◌≡◌, ◌<◌, IfSome, false, is_some, length, map, not};
ghost use Rattle.law_waiting.specs.wait_steps.WaitStep as waits;
ghost use Rattle.server_checks.specs.event_heard.Heard.{heard_event};
ghost use Rattle.spec_crypto.specs.tokens.Tokens.{Users};
ghost use Rattle.spec_world.specs.Ends.{Logons};
ghost use Rattle.law_waiting.specs.held.Held.{would_wait};
ghost use Rattle.wait_locks.specs.Kept.{kept_message, waiter_of};
ghost use Rattle.wait_locks.specs.Settled.{IsSettled, SettledBut, may_free};
ghost use Rattle.wait_locks.specs.Shown.{BeforeIs, NamedIs, target_of, wait_event};
ghost use Rattle.law_server.specs.tables.Fits.{Fits};
ghost use Rattle.server_checks.specs.Shown.{TablesShown};
ghost use Rattle.spec_exchange.specs.State.{Server};
ghost use Rattle.wait_locks.specs.Told.{FirstIs};

use crate::held::held_up;
use crate::touching::Touched;
use crate::wait_server::{CancelTarget, WaitEvent};
use crate::waiter::Waiter;
use server_checks::{ServerEvent, Tables, is_slot};

/// The place of the first that no range holds up.
pub fn first_free(tables: &Tables, waiters: &[Waiter]) -> Option<usize>
    ensures exact { (s : Server) → Fits s → TablesShown tables.now s → FirstIs s waiters.now result }
    ensures there { IfSome result (λ place. place < length waiters.now) }
{
    for (place, waiter) in waiters.iter().enumerate() {
        if held_up(tables, waiter).is_none() {
            return Some(place);
        }
    }
    None
}

/// The same, where a range holds up each that the step can't let go.
pub fn first_touched(tables: &Tables, waiters: &[Waiter], touched: &Touched) -> Option<usize>
    ensures exact { (s : Server) → Fits s → TablesShown tables.now s → SettledBut touched.now s waiters.now → FirstIs s waiters.now result }
    ensures there { IfSome result (λ place. place < length waiters.now) }
{
    for (place, waiter) in waiters.iter().enumerate() {
        if is_free(tables, waiter, touched) {
            return Some(place);
        }
    }
    None
}

// One that the step can't let go is held up as before.
fn is_free(tables: &Tables, waiter: &Waiter, touched: &Touched) -> bool
    ensures { (s : Server) → Fits s → TablesShown tables.now s → (may_free touched.now waiter.now.on ≡ false → IsSettled s waiter.now)
        → result ≡ not (is_some (would_wait s (kept_message waiter.now))) }
{
    if !touched.may_free(waiter.on) {
        return false;
    }
    held_up(tables, waiter).is_none()
}

/// An end drops its connection's waiters, and a stop all.
pub fn drop_ended(waiters: &mut Vec<Waiter>, event: &WaitEvent<'_>)
    ensures { (users : Users) (L : Logons) (s : Server)
        → map waiter_of waiters.new.items ≡ waits.staying_waiters (map waiter_of waiters.old.items) (wait_event users L s event.now) }
{
    match event {
        WaitEvent::Serves { event } => drop_by(waiters, event),
        WaitEvent::Cancels { .. } => {}
    }
}

/// The same of an event of the server.
pub fn drop_by(waiters: &mut Vec<Waiter>, event: &ServerEvent<'_>)
    ensures { (users : Users) (L : Logons) (s : Server)
        → map waiter_of waiters.new.items
        ≡ waits.staying_waiters (map waiter_of waiters.old.items) (waits.Serves (heard_event users L s event.now)) }
{
    match event {
        ServerEvent::End { connection } => drop_connection(waiters, *connection),
        ServerEvent::Stop => waiters.clear(),
        _ => {}
    }
}

fn drop_connection(waiters: &mut Vec<Waiter>, connection: u32)
    ensures { map waiter_of waiters.new.items ≡ waits.without_connection connection (map waiter_of waiters.old.items) }
{
    waiters.retain(|waiter| waiter.connection != connection);
}

/// The place of the waiter that a CANCEL names.
pub fn named(waiters: &[Waiter], connection: u32, target: &CancelTarget) -> Option<usize>
    ensures exact { NamedIs connection (target_of target.now) waiters.now result }
    ensures there { IfSome result (λ place. place < length waiters.now) }
{
    for (place, waiter) in waiters.iter().enumerate() {
        if is_named(waiter, connection, target) {
            return Some(place);
        }
    }
    None
}

fn is_named(waiter: &Waiter, connection: u32, target: &CancelTarget) -> bool
    ensures { result ≡ waits.is_named connection (target_of target.now) (waiter_of waiter.now) }
{
    match target {
        CancelTarget::AsyncId(id) => waiter.connection == connection && waiter.async_id == *id,
        CancelTarget::MessageId(id) => waiter.connection == connection && waiter.message_id == *id,
    }
}

/// The place of the first LOCK of the same open, slot and number.
pub fn sent_before(waiters: &[Waiter], new: &Waiter) -> Option<usize>
    ensures exact { BeforeIs new.now waiters.now result }
    ensures there { IfSome result (λ place. place < length waiters.now) }
{
    for (place, waiter) in waiters.iter().enumerate() {
        if is_again(new, waiter) {
            return Some(place);
        }
    }
    None
}

fn is_again(new: &Waiter, waiter: &Waiter) -> bool
    ensures { result ≡ waits.is_again (waiter_of new.now).message.command (waiter_of waiter.now).message.command }
{
    is_slot(new.index)
        && new.file == waiter.file
        && new.index == waiter.index
        && new.number == waiter.number
}
