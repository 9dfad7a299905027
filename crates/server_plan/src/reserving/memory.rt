//! Memory for a verdict on a message.
ghost use Rattle.std.specs.Prelude.{◌≡◌, ℕ, true, false, IfOk, IsOk, MatchResult, option_copied};
ghost use Rattle.wire_commands.specs.values.Meaning.{command_of, message_of};
ghost use Rattle.spec_exchange.specs.Commands.{Command};
ghost use Rattle.spec_exchange.specs.Verdict as verdicts;
ghost use Rattle.server_checks.specs.event_heard.Heard.{PartAgrees};
ghost use Rattle.server_effects.specs.reserved.Room.{RoomFor};
ghost use Rattle.server_effects.specs.reserved.Readied.{readied};
ghost use Rattle.server_plan.specs.reserving.Logons.{StepOf};
ghost use Rattle.server_plan.specs.reserving.Readies.{HasNoStep, IsVerdictPlain, VerdictReadies, TablesKeep, wants_memory};
ghost use Rattle.server_checks.specs.verdicts.Views.{create_in, verdict_of};

use crate::reserving::alter::alter_ready;
use crate::reserving::logons::{begin_ready, challenge_ready, join_ready};
use crate::reserving::make::make_ready;
use server_checks::{LogonPart, Tables, Verdict};
use server_effects::Ready;
use std::alloc::AllocError;
use wire_commands::Message;

/// Takes the memory that the effect of a verdict wants. Where there is none the state is as before. Of a SESSION_SETUP `logon`
/// is what its token shows; without it there is no step of a logon. A file that is made or renamed has its path from then on.
/// `now` is in 100 ns since 1601.
///
/// # Errors
///
/// Memory ran out, which it can't where the effect wants none, or the message isn't one that the verdict is on.
pub fn ready(
    t: &mut Tables,
    m: &Message<'_>,
    logon: Option<&LogonPart>,
    verdict: Verdict,
    now: u64,
) -> Result<Ready, AllocError>
    ensures room { IfOk result (λ r. RoomFor t.new m.now.session_id m.now.connection r) }
    ensures shown { PartAgrees (command_of m.now.command) (option_copied logon.entry)
        → VerdictReadies t.old t.new (message_of m.now) now (verdict_of (command_of m.now.command) verdict) result }
    ensures step { IfOk result (λ r. StepOf t.old.sessions m.now.connection (option_copied logon.entry) now r) }
    ensures kept { TablesKeep t.old t.new }
    ensures sure { wants_memory (verdict_of (command_of m.now.command) verdict) ≡ false → IsOk result }
{
    match verdict {
        Verdict::KeepRefusal { guid, status } => refusal_ready(t, m, guid, status),
        Verdict::Repeat { id } => repeat_ready(t, m, id),
        Verdict::Attach { id } => attach_ready(t, m, id),
        Verdict::Make { found, action } => make_ready(t, m, found, action, now),
        Verdict::Alter { id, change, body } => alter_ready(t, m, id, change, body, now),
        Verdict::AddTree { pipes } => tree_ready(t, m, pipes),
        Verdict::DropTree => tree_end_ready(t, m),
        Verdict::Challenge => challenge_ready(t, m, logon, None, now),
        Verdict::ChallengeBinding { session } => challenge_ready(t, m, logon, Some(session), now),
        Verdict::Begin {
            session,
            previous,
            quiet,
        } => begin_ready(t, m, logon, session, previous, quiet),
        Verdict::Join { session } => join_ready(t, m, logon, session),
        other => plain_ready(other),
    }
}

// What wants no memory.
fn plain_ready(verdict: Verdict) -> Result<Ready, AllocError>
    ensures stands { IfOk result (λ r. (c : Command) → readied c r ≡ verdict_of c verdict) }
    ensures plain { IfOk result (λ r. IsVerdictPlain r) }
    ensures sure { (c : Command) → MatchResult result (λ _. wants_memory (verdict_of c verdict) ≡ false)
        (λ _. wants_memory (verdict_of c verdict) ≡ true) }
{
    // Apart from `ready`, so that a clause can say which verdicts never lack memory. `Ready` is a type of its own, so
    // that no verdict is carried out whose memory wasn't taken.
    match verdict {
        Verdict::Refuse { status } => Ok(Ready::Refuse { status }),
        Verdict::Give { body } => Ok(Ready::Give { body }),
        Verdict::TurnDown { id, status } => Ok(Ready::TurnDown { id, status }),
        Verdict::Tell { id, body } => Ok(Ready::Tell { id, body }),
        Verdict::Show { id, last, body } => Ok(Ready::Show { id, last, body }),
        Verdict::Seek { id, position } => Ok(Ready::Seek { id, position }),
        Verdict::KeepSlot {
            id,
            index,
            number,
            status,
        } => Ok(Ready::KeepSlot {
            id,
            index,
            number,
            status,
        }),
        Verdict::PutRanges {
            id,
            index,
            number,
            ranges,
        } => Ok(Ready::PutRanges {
            id,
            index,
            number,
            ranges,
        }),
        Verdict::CloseOpen { id, body } => Ok(Ready::CloseOpen { id, body }),
        Verdict::EndSession { session, quiet } => Ok(Ready::EndSession { session, quiet }),
        _ => Err(AllocError),
    }
}

// ---- rows of sessions

fn refusal_ready(
    t: &mut Tables,
    m: &Message<'_>,
    guid: u128,
    status: u32,
) -> Result<Ready, AllocError>
    ensures room { IfOk result (λ r. RoomFor t.new m.now.session_id m.now.connection r) }
    ensures shown { (now : ℕ) → VerdictReadies t.old t.new (message_of m.now) now (verdicts.KeepRefusal guid status) result }
    ensures plain { IfOk result (λ r. HasNoStep r) }
    ensures kept { TablesKeep t.old t.new }
{
    match t.opens.reserve_result(m.session_id) {
        Ok(()) => Ok(Ready::KeepRefusal { guid, status }),
        Err(error) => Err(error),
    }
}

fn repeat_ready(t: &mut Tables, m: &Message<'_>, id: u64) -> Result<Ready, AllocError>
    ensures room { IfOk result (λ r. RoomFor t.new m.now.session_id m.now.connection r) }
    ensures shown { (now : ℕ) → VerdictReadies t.old t.new (message_of m.now) now
        (verdicts.Repeat id (create_in (command_of m.now.command))) result }
    ensures plain { IfOk result (λ r. HasNoStep r) }
    ensures kept { TablesKeep t.old t.new }
{
    match t.opens.reserve_in(m.session_id, id) {
        Ok(()) => Ok(Ready::Repeat { id }),
        Err(error) => Err(error),
    }
}

fn attach_ready(t: &mut Tables, m: &Message<'_>, id: u64) -> Result<Ready, AllocError>
    ensures room { IfOk result (λ r. RoomFor t.new m.now.session_id m.now.connection r) }
    ensures shown { (now : ℕ) → VerdictReadies t.old t.new (message_of m.now) now
        (verdicts.Attach id (create_in (command_of m.now.command))) result }
    ensures plain { IfOk result (λ r. HasNoStep r) }
    ensures kept { TablesKeep t.old t.new }
{
    match t.opens.reserve_in(m.session_id, id) {
        Ok(()) => Ok(Ready::Attach { id }),
        Err(error) => Err(error),
    }
}

fn tree_ready(t: &mut Tables, m: &Message<'_>, pipes: bool) -> Result<Ready, AllocError>
    ensures room { IfOk result (λ r. RoomFor t.new m.now.session_id m.now.connection r) }
    ensures shown { (now : ℕ) → VerdictReadies t.old t.new (message_of m.now) now (verdicts.AddTree pipes) result }
    ensures plain { IfOk result (λ r. HasNoStep r) }
    ensures kept { TablesKeep t.old t.new }
{
    match t.sessions.reserve_tree(m.session_id) {
        Ok(()) => Ok(Ready::AddTree { pipes }),
        Err(error) => Err(error),
    }
}

// The opens that are closed with their tree are listed first, so that their closes take no memory.
fn tree_end_ready(t: &mut Tables, m: &Message<'_>) -> Result<Ready, AllocError>
    ensures room { IfOk result (λ r. RoomFor t.new m.now.session_id m.now.connection r) }
    ensures shown { (now : ℕ) → VerdictReadies t.old t.new (message_of m.now) now verdicts.DropTree result }
    ensures plain { IfOk result (λ r. HasNoStep r) }
    ensures kept { TablesKeep t.old t.new }
{
    match t.opens.opens_of_tree(m.session_id, m.tree_id) {
        Ok(opens) => Ok(Ready::DropTree { opens }),
        Err(error) => Err(error),
    }
}
