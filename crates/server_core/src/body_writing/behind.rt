//! What is counted behind a body, and where a server stops.
ghost use Rattle.std.specs.Prelude.{◌≡◌, ◌+◌, ℕ, List, length, true};
ghost use Rattle.journal_bytes.specs.record_bodies.Body.{added_by, fits_by};
ghost use Rattle.server_core.specs.body_writing.Bodies.{stopped_by};

use server_checks::EventError;

// A gate behind a body, and its length in front.
const AROUND: u64 = 5;

/// How many bytes a journal uses behind a body of so many bytes, for which it has room below the lower limit; none adds none.
pub fn used_behind(used: u64, count: usize) -> u64
    requires { fits_by used count ≡ true }
    ensures { (body : List ℕ) → length body ≡ count → result ≡ used + added_by body }
{
    if count == 0 {
        return used;
    }
    used.saturating_add(AROUND).saturating_add(count as u64)
}

/// The count of faults at which a call of the disk failed, where one has: a write that fails with it stops the server.
pub fn stopped_behind(error: &EventError, stopped: Option<u64>) -> Option<u64>
    ensures { result ≡ stopped_by error.now stopped }
{
    match error {
        EventError::DiskFault(count) => Some(*count),
        EventError::Memory => stopped,
        EventError::Stopped(_) => stopped,
    }
}
