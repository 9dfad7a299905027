//! Verdicts on sessions (MS-SMB2 3.3.5.5, 3.3.5.5.3, 3.3.5.6).
ghost use Rattle.std.specs.Prelude.{◌≡◌, ℕ};
ghost use Rattle.wire_commands.specs.values.Meaning.{command_of, message_of};
ghost use Rattle.spec_exchange.specs.Effects.{apply};
ghost use Rattle.spec_exchange.specs.State.{Server};
ghost use Rattle.spec_exchange.specs.Verdict.{EndSession};
ghost use Rattle.law_server.specs.tables.Fits.{Fits};
ghost use Rattle.server_checks.specs.session_table.Logons.{LogonsStay};
ghost use Rattle.server_checks.specs.Shown.{TablesShown};
ghost use Rattle.server_effects.specs.Able.{Able};
ghost use Rattle.server_effects.specs.Carried.{Carried, EffectCarries, IsEffectBare};
ghost use Rattle.server_effects.specs.reserved.Readied.{stepped};
ghost use Rattle.server_effects.specs.reserved.Room.{StepRoom, StepStands};
ghost use Rattle.server_effects.specs.verdict_effects.Beside.{EffectSetsUp};

use crate::reserved::SetupReady;
use crate::session_ends::{end_if_named, end_session};
use crate::{Answer, answer_with, begin, challenge, challenge_binding, join};
use server_checks::Tables;
use server_checks::status::SUCCESS;
use wire_commands::{Body, Message};

/// A challenge goes out, or a session or channel begins, at `now` (100 ns since 1601).
pub fn set_up(t: &mut Tables, m: &Message<'_>, step: SetupReady, now: u64) -> Answer
    requires { StepRoom t.old m.now.connection step }
    ensures shows { (s : Server) → Fits s → TablesShown t.old s → StepStands (message_of m.now) step
        → Able s (message_of m.now) (stepped (command_of m.now.command) step)
        → Carried t.new result (apply s (message_of m.now) now (stepped (command_of m.now.command) step)) }
    ensures beside { EffectSetsUp t.old t.new result (message_of m.now) step }
    ensures config { t.new.config ≡ t.old.config }
{
    // Each arm is one call, as in `carry_out`. A previous session ends in the same event, so that the new one can
    // attach its persistent opens at once.
    match step {
        SetupReady::Challenge {
            list,
            acceptor,
            token,
        } => challenge(t, m, list, acceptor, token),
        SetupReady::ChallengeBinding {
            session,
            list,
            acceptor,
            token,
        } => challenge_binding(t, m, session, list, acceptor, token),
        SetupReady::Begin {
            session,
            row,
            token,
            previous,
            quiet,
        } => {
            let acted = end_if_named(t, previous, now, quiet);
            begin(t, m, session, row, token, acted)
        }
        SetupReady::Join {
            session,
            keys,
            token,
        } => join(t, m, session, keys, token),
    }
}

/// A session ends by its own request, at `now` (100 ns since 1601).
pub fn end_by_message(
    t: &mut Tables,
    m: &Message<'_>,
    session: u64,
    is_quiet: bool,
    now: u64,
) -> Answer
    ensures shows { EffectCarries t.old t.new result (message_of m.now) now (EndSession session is_quiet) }
    ensures bare { IsEffectBare result }
    ensures config { t.new.config ≡ t.old.config }
    ensures logons { LogonsStay t.old.sessions t.new.sessions }
{
    let acted = end_session(t, session, now, is_quiet);
    answer_with(t.alloc, m, SUCCESS, Body::Empty, acted)
}
