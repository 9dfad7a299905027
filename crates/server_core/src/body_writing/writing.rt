//! A body that goes onto the disk, and the room for it.
ghost use Rattle.std.specs.Prelude.{◌≡◌, ◌≤◌, ◌+◌, ◌++◌, ℕ, IsOk, List, MatchResult, None, OnOk, length, ⊤};
ghost use Rattle.spec_wire.specs.journal.Moments.{LeavesOnly};
ghost use Rattle.journal.specs.disk_journal.Journal.{OnlyRoom, JournalSettled};
ghost use Rattle.journal_bytes.specs.record_bodies.Body.{bodies_of};
ghost use Rattle.server_core.specs.body_writing.Bodies.{HasBodyRoom, IsLack, LeavesOf, WritesBody, event_error_of};

use base_outside::Disk;
use journal::{Journal, JournalError};
use server_checks::EventError;

/// Makes room for a body of so many bytes below the lower limit; none wants none, and always has it. Nothing but the room changes.
/// It is refused only where memory runs out, or the journal has stopped; where the journal's own count leaves the body below the lower
/// limit and its memory is at hand, it isn't refused.
pub fn reserve_body<D: Disk>(journal: &mut Journal<D>, length: usize) -> Result<(), EventError>
    requires { length ≤ 939524096 }
    ensures room { OnOk result (HasBodyRoom journal.new length) }
    ensures lack { MatchResult result (λ _. ⊤) (λ x. IsLack journal.old x) }
    ensures kept { OnlyRoom journal.old journal.new }
    ensures none { length ≡ 0 → IsOk result }
    ensures sure { journal.old.stopped ≡ None → journal.old.used + 5 + length ≤ 939524096 → length + 5 ≤ journal.old.room
        → IsOk result }
{
    if length == 0 {
        return Ok(());
    }
    match journal.reserve(length as u32, false) {
        Ok(()) => Ok(()),
        Err(error) => Err(refusal(&error)),
    }
}

/// Writes a body for which there is room; none wants no write, and none fails. It is refused only where the disk fails, with the
/// count of faults, at which the journal then stops.
pub fn write_body<D: Disk>(journal: &mut Journal<D>, body: &[u8]) -> Result<(), EventError>
    requires { HasBodyRoom journal.old (length body.now) }
    ensures cause { WritesBody D.faults journal.old body.now result journal.new }
    ensures acknowledged { D.told → (bodies : List (List ℕ)) → JournalSettled D.seen D.may_leave journal.old bodies
        → OnOk result (JournalSettled D.seen D.may_leave journal.new (bodies ++ bodies_of body.now)) }
    ensures any_moment { D.told → (bodies : List (List ℕ)) → JournalSettled D.seen D.may_leave journal.old bodies
        → LeavesOnly D.moment D.left_since journal.old.disk journal.new.disk (LeavesOf bodies body.now) }
    ensures none { length body.now ≡ 0 → IsOk result }
{
    if body.len() == 0 {
        return Ok(());
    }
    match journal.append(body, false) {
        Ok(_number) => Ok(()),
        Err(error) => Err(refusal(&error)),
    }
}

// A body that fits, and for which there is room, is refused only where memory runs out or the disk fails or failed.
fn refusal(error: &JournalError) -> EventError
    ensures { result ≡ event_error_of error.now }
{
    match error {
        JournalError::DiskFault(count) => EventError::DiskFault(*count),
        JournalError::Stopped(count) => EventError::Stopped(*count),
        JournalError::Memory => EventError::Memory,
        JournalError::NotAJournal(_) => EventError::Memory,
        JournalError::Full(_, _) => EventError::Memory,
    }
}
