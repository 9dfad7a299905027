//! What the table of sessions tells of a session's own key.
ghost use Rattle.std.specs.Prelude.{◌≡◌, None, Some, if◌then◌else◌};
ghost use Rattle.spec_exchange.specs.State as model;
ghost use Rattle.server_checks.specs.session_table.Logons.{LogonsShown};
ghost use Rattle.server_checks.specs.session_table.Shown.{ShowsSessions};
ghost use Rattle.spec_world.specs.Ends.{Logons};

use server_checks::session_table::Sessions;
use spec_crypto::Signer;

pub(crate) fn signer_of(sessions: &Sessions, session: u64) -> Option<Signer>
    ensures { (s : model.Server) (L : Logons) → ShowsSessions sessions.now s → LogonsShown sessions.now L.keys L.pending
        → result ≡ (if s.present session then Some (L.keys session).signing else None) }
{
    match sessions.row(session) {
        Some(row) => Some(row.keys.signing),
        None => None,
    }
}
