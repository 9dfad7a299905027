//! One event of the server, by what is told of the state before the first deadlines: alone, or behind the expiry of an open
//! (MS-SMB2 3.3.6.2).
//!
//! The law is a public function with an empty body but for the laws that it rests on; its contract is the statement.

ghost use Rattle.std.specs.Prelude.{◌≡◌, ◌++◌, ℕ, List, None, Some, false, if◌then◌else◌, nat_le, true};
ghost use Rattle.spec_exchange.specs.Records.{fits, origin_at};
ghost use Rattle.spec_exchange.specs.State.{Record, Server, ServerEvent};
ghost use Rattle.spec_exchange.specs.Step.{carried_out, connection_of, due, event_answer, expire, expire_records};
ghost use Rattle.spec_exchange.specs.Step.{max_expired_guids, ruling, ruling_without_room, step, with_deadlines, written_down};

use crate::deadlines::dated_law;
use crate::effects::carried_law;

/// An event without an expiry is carried out by its ruling, or where its records don't fit by the one without them (`alone`), and
/// none expires where none may (`none`). Where one may, it goes in front of the event if the records of both fit (`behind`), and
/// else none does (`unfit`); so it is where those of the expiry don't fit by themselves (`front`). What fits behind it is what fits
/// before (`counted`).
pub fn expiring_law()
    ensures alone { (s : Server) (now : ℕ) (e : ServerEvent) → event_answer (with_deadlines s now) now e
        ≡ carried_out (with_deadlines s now) now
        (if fits s (carried_out s now (ruling s e)).records then ruling s e else ruling_without_room (ruling s e)) }
    ensures records { (s : Server) (now : ℕ) (e : ServerEvent)
        → (event_answer (with_deadlines s now) now e).records ≡ (event_answer s now e).records }
    ensures none { (s : Server) (now : ℕ) (e : ServerEvent)
        → None ≡ (if nat_le max_expired_guids s.expired_count then None else due (with_deadlines s now) now)
        → step s now e ≡ written_down (event_answer (with_deadlines s now) now e) }
    ensures behind { (s : Server) (now o : ℕ) (e : ServerEvent) → due (with_deadlines s now) now ≡ Some o
        → nat_le max_expired_guids s.expired_count ≡ false
        → let all = expire_records s (origin_at (connection_of e)) o ++ (carried_out (expire s o) now (ruling (expire s o) e)).records in
        fits s all ≡ true → step s now e
        ≡ written_down (record (carried_out (with_deadlines (expire s o) now) now (ruling (expire s o) e)) { records = all }) }
    ensures unfit { (s : Server) (now o : ℕ) (e : ServerEvent) → due (with_deadlines s now) now ≡ Some o
        → fits s (expire_records s (origin_at (connection_of e)) o ++ (carried_out (expire s o) now (ruling (expire s o) e)).records) ≡ false
        → step s now e ≡ written_down (event_answer (with_deadlines s now) now e) }
    ensures front { (s : Server) (now o : ℕ) (e : ServerEvent) → fits s (expire_records s (origin_at (connection_of e)) o) ≡ false
        → fits s (expire_records s (origin_at (connection_of e)) o ++ (carried_out (expire s o) now (ruling (expire s o) e)).records) ≡ false }
    ensures counted { (s : Server) (o : ℕ) (rs : List Record) → fits (expire s o) rs ≡ fits s rs }
{
    carried_law();
    dated_law();
}
