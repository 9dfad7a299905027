//! A session ends: its plain opens leave, its persistent ones stay without a session, and what it kept is forgotten.
ghost use Rattle.std.specs.Prelude.{◌≡◌, ℕ, true, Some};
ghost use Rattle.spec_exchange.specs.Effects as effects;
ghost use Rattle.spec_exchange.specs.Effects.{acts_if_named, end_acts};
ghost use Rattle.spec_exchange.specs.State.{Server};
ghost use Rattle.server_checks.specs.Shown.{TablesShown};
ghost use Rattle.server_effects.specs.session_ends.Ended.{SessionsKeep};
ghost use Rattle.law_server.specs.tables.Fits.{Fits};

use crate::session_ends::leaving::leave_all;
use server_checks::Tables;

/// A session ends at `now` (100 ns since 1601). Quiet, files stay as they are. Tells whether an open left.
pub fn end_session(t: &mut Tables, session: u64, now: u64, is_quiet: bool) -> bool
    ensures told { (s : Server) → Fits s → TablesShown t.old s → result ≡ end_acts s session }
    ensures shows { (s : Server) → Fits s → TablesShown t.old s → s.present session ≡ true
        → TablesShown t.new (effects.end_session s session now is_quiet) }
    ensures kept { SessionsKeep t.old t.new }
{
    let acted = t.opens.plain_of(session, 0).is_some();
    // Before `detach`, which forgets the row by which they are found.
    leave_all(t, session, is_quiet);
    t.opens.detach(session, now);
    let _ = t.sessions.remove(session);
    acted
}

/// Where a session is named, it ends at `now` (100 ns since 1601).
pub fn end_if_named(t: &mut Tables, session: Option<u64>, now: u64, is_quiet: bool) -> bool
    ensures told { (s : Server) → Fits s → TablesShown t.old s → result ≡ acts_if_named s session }
    ensures shows { (s : Server) → Fits s → TablesShown t.old s → ((x : ℕ) → session ≡ Some x → s.present x ≡ true)
        → TablesShown t.new (effects.end_if_named s now session is_quiet) }
    ensures kept { SessionsKeep t.old t.new }
{
    match session {
        Some(session) => end_session(t, session, now, is_quiet),
        None => false,
    }
}
