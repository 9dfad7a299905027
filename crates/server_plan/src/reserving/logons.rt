//! A step of a logon made ready (MS-SMB2 3.3.5.5.3): its token, the challenge or the keys, and room for what it makes.
ghost use Rattle.std.specs.Prelude.{◌≡◌, ◌<◌, ℕ, IfOk, Option, Some, option_copied};
ghost use Rattle.wire_commands.specs.values.Meaning.{command_of, message_of};
ghost use Rattle.spec_exchange.specs.Commands.{SetupRequest};
ghost use Rattle.spec_exchange.specs.Verdict as verdicts;
ghost use Rattle.server_checks.specs.event_heard.Heard.{PartAgrees, setup_in};
ghost use Rattle.server_checks.specs.declared.event_heard.asked.LogonPart.{LogonPart};
ghost use Rattle.server_effects.specs.reserved.Room.{RoomFor};
ghost use Rattle.server_effects.specs.Ready.{IsRowFor};
ghost use Rattle.server_plan.specs.reserving.Logons.{ChallengeOf, EndOf, ReadyStep, StepOf, begin_verdict, challenge_verdict};
ghost use Rattle.server_plan.specs.reserving.Readies.{VerdictReadies, TablesKeep};
ghost use Rattle.server_checks.specs.verdicts.Views.{user_shown};
ghost use Rattle.server_checks.specs.session_table.Logons.{LogonsShown, begun_in, begun_of, logon_of, shown_of};
ghost use Rattle.server_checks.specs.session_table.Shown.{HasChannelRoom, HasSessionRoom};
ghost use Rattle.spec_crypto.specs.sessions.Derivation.{bound_keys, keys_of};
ghost use Rattle.spec_crypto.specs.declared.sessions.material.Keys.{Keys};
ghost use Rattle.spec_crypto.specs.tokens.Tokens as tokens;
ghost use Rattle.spec_crypto.specs.tokens.Tokens.{Pending};
ghost use Rattle.spec_world.specs.Logon.{exported_by, shows_of};

use crypto_sessions::{Acceptor, Logon, bind, derive};
use server_checks::{Begun, LogonPart, SessionRow, Tables, TokenShown, challenge_for, final_for};
use server_effects::{Ready, SetupReady};
use spec_crypto::Keys;
use std::alloc::{AllocError, Global};
use wire_bytes::Bytes;
use wire_commands::Message;

// A challenge, and the token that carries it.
#[derive(Drop)]
struct Challenged {
    list: Bytes,
    acceptor: Acceptor,
    token: Bytes,
}

// The row of a session that begins, and the token that ends its logon.
#[derive(Drop)]
struct NewSession {
    row: SessionRow,
    token: Bytes,
}

// The keys of a further channel, and the token that ends its logon.
#[derive(Drop)]
struct NewChannel {
    keys: Keys,
    token: Bytes,
}

// ---- challenges

// To a first token: of a new session, or of a binding to one.
pub(crate) fn challenge_ready(
    t: &mut Tables,
    m: &Message<'_>,
    logon: Option<&LogonPart>,
    binding: Option<u64>,
    now: u64,
) -> Result<Ready, AllocError>
    ensures room { IfOk result (λ r. RoomFor t.new m.now.session_id m.now.connection r) }
    ensures shown { VerdictReadies t.old t.new (message_of m.now) now (challenge_verdict binding) result }
    ensures step { IfOk result (λ r. StepOf t.old.sessions m.now.connection (option_copied logon.entry) now r) }
    ensures kept { TablesKeep t.old t.new }
{
    match logon {
        Some(part) => part_challenged(t, m, part, binding, now),
        None => Err(AllocError),
    }
}

fn part_challenged(
    t: &mut Tables,
    m: &Message<'_>,
    part: &LogonPart,
    binding: Option<u64>,
    now: u64,
) -> Result<Ready, AllocError>
    ensures room { IfOk result (λ r. RoomFor t.new m.now.session_id m.now.connection r) }
    ensures shown { VerdictReadies t.old t.new (message_of m.now) now (challenge_verdict binding) result }
    ensures step { IfOk result (λ r. StepOf t.old.sessions m.now.connection (Some part.now) now r) }
    ensures kept { TablesKeep t.old t.new }
{
    match challenge_made(t.alloc, part, now) {
        Ok(made) => challenge_step(t, m, binding, made),
        Err(error) => Err(error),
    }
}

fn challenge_made(alloc: Global, part: &LogonPart, now: u64) -> Result<Challenged, AllocError>
    ensures { IfOk result (λ a. ChallengeOf (begun_in part.now.shown) part.now.fresh now a.list a.acceptor a.token) }
{
    match &part.shown {
        TokenShown::Begins(begun) => challenge_to(alloc, begun, part.fresh, now),
        _ => Err(AllocError),
    }
}

fn challenge_to(
    alloc: Global,
    begun: &Begun,
    fresh: [u8; 8],
    now: u64,
) -> Result<Challenged, AllocError>
    ensures { IfOk result (λ a. ChallengeOf (Some (begun_of begun.now)) fresh now a.list a.acceptor a.token) }
{
    let list = begun.list.copy()?;
    let made = challenge_for(alloc, begun, fresh, now)?;
    Ok(gathered(list, made))
}

fn gathered(list: Bytes, made: (Acceptor, Bytes)) -> Challenged
    ensures { (result.list ≡ list) × (result.acceptor ≡ made.0) × (result.token ≡ made.1) }
{
    let (acceptor, token) = made;
    Challenged {
        list,
        acceptor,
        token,
    }
}

fn challenge_step(
    t: &mut Tables,
    m: &Message<'_>,
    binding: Option<u64>,
    made: Challenged,
) -> Result<Ready, AllocError>
    ensures room { IfOk result (λ r. RoomFor t.new m.now.session_id m.now.connection r) }
    ensures shown { (now : ℕ) → VerdictReadies t.old t.new (message_of m.now) now (challenge_verdict binding) result }
    ensures step { (p : LogonPart) (now : ℕ) → ChallengeOf (begun_in p.shown) p.fresh now made.list made.acceptor made.token
        → IfOk result (λ r. StepOf t.old.sessions m.now.connection (Some p) now r) }
    ensures kept { TablesKeep t.old t.new }
{
    match binding {
        Some(session) => binding_step(t, m, session, made),
        None => logon_step(t, m, made),
    }
}

fn binding_step(
    t: &mut Tables,
    m: &Message<'_>,
    session: u64,
    made: Challenged,
) -> Result<Ready, AllocError>
    ensures room { IfOk result (λ r. RoomFor t.new m.now.session_id m.now.connection r) }
    ensures shown { (now : ℕ) → VerdictReadies t.old t.new (message_of m.now) now (verdicts.ChallengeBinding session) result }
    ensures step { (p : LogonPart) (now : ℕ) → ChallengeOf (begun_in p.shown) p.fresh now made.list made.acceptor made.token
        → IfOk result (λ r. StepOf t.old.sessions m.now.connection (Some p) now r) }
    ensures kept { TablesKeep t.old t.new }
{
    match t.sessions.reserve_link(m.connection) {
        Ok(()) => Ok(Ready::Setup {
            step: SetupReady::ChallengeBinding {
                session,
                list: made.list,
                acceptor: made.acceptor,
                token: made.token,
            },
        }),
        Err(error) => Err(error),
    }
}

fn logon_step(t: &mut Tables, m: &Message<'_>, made: Challenged) -> Result<Ready, AllocError>
    ensures room { IfOk result (λ r. RoomFor t.new m.now.session_id m.now.connection r) }
    ensures shown { (now : ℕ) → VerdictReadies t.old t.new (message_of m.now) now verdicts.Challenge result }
    ensures step { (p : LogonPart) (now : ℕ) → ChallengeOf (begun_in p.shown) p.fresh now made.list made.acceptor made.token
        → IfOk result (λ r. StepOf t.old.sessions m.now.connection (Some p) now r) }
    ensures kept { TablesKeep t.old t.new }
{
    match t.sessions.next_id() {
        Some(_) => counted_step(t, m, made),
        None => Err(AllocError),
    }
}

// The same, where an id is left.
fn counted_step(t: &mut Tables, m: &Message<'_>, made: Challenged) -> Result<Ready, AllocError>
    requires { t.old.sessions.given < 0xffff_ffff }
    ensures room { IfOk result (λ r. RoomFor t.new m.now.session_id m.now.connection r) }
    ensures shown { (now : ℕ) → VerdictReadies t.old t.new (message_of m.now) now verdicts.Challenge result }
    ensures step { (p : LogonPart) (now : ℕ) → ChallengeOf (begun_in p.shown) p.fresh now made.list made.acceptor made.token
        → IfOk result (λ r. StepOf t.old.sessions m.now.connection (Some p) now r) }
    ensures kept { TablesKeep t.old t.new }
{
    match t.sessions.reserve_link(m.connection) {
        Ok(()) => Ok(Ready::Setup {
            step: SetupReady::Challenge {
                list: made.list,
                acceptor: made.acceptor,
                token: made.token,
            },
        }),
        Err(error) => Err(error),
    }
}

// ---- a session that begins

pub(crate) fn begin_ready(
    t: &mut Tables,
    m: &Message<'_>,
    logon: Option<&LogonPart>,
    session: u64,
    previous: Option<u64>,
    quiet: bool,
) -> Result<Ready, AllocError>
    ensures room { IfOk result (λ r. RoomFor t.new m.now.session_id m.now.connection r) }
    ensures shown { (now : ℕ) → PartAgrees (command_of m.now.command) (option_copied logon.entry)
        → VerdictReadies t.old t.new (message_of m.now) now (begin_verdict (command_of m.now.command) session previous quiet) result }
    ensures step { (now : ℕ) → IfOk result (λ r. StepOf t.old.sessions m.now.connection (option_copied logon.entry) now r) }
    ensures kept { TablesKeep t.old t.new }
{
    match logon {
        Some(part) => part_begun(t, m, part, session, previous, quiet),
        None => Err(AllocError),
    }
}

fn part_begun(
    t: &mut Tables,
    m: &Message<'_>,
    part: &LogonPart,
    session: u64,
    previous: Option<u64>,
    quiet: bool,
) -> Result<Ready, AllocError>
    ensures room { IfOk result (λ r. RoomFor t.new m.now.session_id m.now.connection r) }
    ensures shown { (now : ℕ) → PartAgrees (command_of m.now.command) (Some part.now)
        → VerdictReadies t.old t.new (message_of m.now) now (begin_verdict (command_of m.now.command) session previous quiet) result }
    ensures step { (now : ℕ) → IfOk result (λ r. StepOf t.old.sessions m.now.connection (Some part.now) now r) }
    ensures kept { TablesKeep t.old t.new }
{
    match session_shown(t, m, part, session) {
        Ok(made) => begin_step(t, m, made, session, previous, quiet),
        Err(error) => Err(error),
    }
}

// The session of a token that shows a logon.
fn session_shown(
    t: &Tables,
    m: &Message<'_>,
    part: &LogonPart,
    session: u64,
) -> Result<NewSession, AllocError>
    ensures row { IfOk result (λ a. (q : SetupRequest) → q.shows ≡ shows_of (shown_of part.now.shown)
        → q.cipher ≡ part.now.chosen.cipher → q.signing ≡ part.now.chosen.signing
        → IsRowFor a.row (message_of m.now) (user_shown q.shows) q) }
    ensures keys { IfOk result (λ a. a.row.keys
        ≡ keys_of (exported_by (shown_of part.now.shown)) part.now.chain part.now.chosen.cipher part.now.chosen.signing session) }
    ensures token { IfOk result (λ a. (keys : ℕ → Keys) (pending : ℕ → Option Pending)
        → LogonsShown t.now.sessions keys pending → EndOf (pending m.now.connection) (shown_of part.now.shown) a.token) }
{
    match &part.shown {
        TokenShown::LoggedOn { logon, signs } => session_for(t, m, part, logon, *signs, session),
        _ => Err(AllocError),
    }
}

fn session_for(
    t: &Tables,
    m: &Message<'_>,
    part: &LogonPart,
    logon: &Logon,
    signs: bool,
    session: u64,
) -> Result<NewSession, AllocError>
    ensures row { IfOk result (λ a. (q : SetupRequest) → q.cipher ≡ part.now.chosen.cipher → q.signing ≡ part.now.chosen.signing
        → IsRowFor a.row (message_of m.now) logon.now.user q) }
    ensures keys { IfOk result (λ a. a.row.keys
        ≡ keys_of logon.now.key part.now.chain part.now.chosen.cipher part.now.chosen.signing session) }
    ensures token { IfOk result (λ a. (keys : ℕ → Keys) (pending : ℕ → Option Pending)
        → LogonsShown t.now.sessions keys pending
        → EndOf (pending m.now.connection) (tokens.LoggedOn (logon_of logon.now) signs) a.token) }
{
    let token = final_token(t, m, logon, signs)?;
    let row = new_session(t.alloc, m, part, logon, session)?;
    Ok(NewSession { row, token })
}

// The row of a session that begins, with its first channel.
fn new_session(
    alloc: Global,
    m: &Message<'_>,
    part: &LogonPart,
    logon: &Logon,
    session: u64,
) -> Result<SessionRow, AllocError>
    ensures row { IfOk result (λ r. (q : SetupRequest) → q.cipher ≡ part.now.chosen.cipher → q.signing ≡ part.now.chosen.signing
        → IsRowFor r (message_of m.now) logon.now.user q) }
    ensures keys { IfOk result (λ r. r.keys
        ≡ keys_of logon.now.key part.now.chain part.now.chosen.cipher part.now.chosen.signing session) }
{
    let mut channels = Vec::new(alloc);
    channels.push(m.connection)?;
    let trees = Vec::new(alloc);
    let user = logon.user.copy()?;
    let keys = derive(&logon.key, &part.chain, &part.chosen, session);
    Ok(SessionRow {
        user,
        client: m.client_guid,
        cipher: part.chosen.cipher,
        signing: part.chosen.signing,
        drawn: 1,
        trees,
        next_tree: 1,
        keys,
        channels,
    })
}

fn begin_step(
    t: &mut Tables,
    m: &Message<'_>,
    made: NewSession,
    session: u64,
    previous: Option<u64>,
    quiet: bool,
) -> Result<Ready, AllocError>
    ensures room { IfOk result (λ r. RoomFor t.new m.now.session_id m.now.connection r) }
    ensures shown { (now : ℕ) → IsRowFor made.row (message_of m.now) (user_shown (setup_in (command_of m.now.command)).shows)
        (setup_in (command_of m.now.command))
        → VerdictReadies t.old t.new (message_of m.now) now (begin_verdict (command_of m.now.command) session previous quiet) result }
    ensures step { (keys : ℕ → Keys) (pending : ℕ → Option Pending) (k : ℕ) (p : LogonPart) (now : ℕ)
        → EndOf (pending k) (shown_of p.shown) made.token
        → made.row.keys ≡ keys_of (exported_by (shown_of p.shown)) p.chain p.chosen.cipher p.chosen.signing session
        → IfOk result (λ r. ReadyStep keys pending k (Some p) now r) }
    ensures kept { TablesKeep t.old t.new }
{
    match t.sessions.reserve_session() {
        Ok(()) => begin_linked(t, m, made, session, previous, quiet),
        Err(error) => Err(error),
    }
}

// The same, where there is room for the session.
fn begin_linked(
    t: &mut Tables,
    m: &Message<'_>,
    made: NewSession,
    session: u64,
    previous: Option<u64>,
    quiet: bool,
) -> Result<Ready, AllocError>
    requires { HasSessionRoom t.old.sessions }
    ensures room { IfOk result (λ r. RoomFor t.new m.now.session_id m.now.connection r) }
    ensures shown { (now : ℕ) → IsRowFor made.row (message_of m.now) (user_shown (setup_in (command_of m.now.command)).shows)
        (setup_in (command_of m.now.command))
        → VerdictReadies t.old t.new (message_of m.now) now (begin_verdict (command_of m.now.command) session previous quiet) result }
    ensures step { (keys : ℕ → Keys) (pending : ℕ → Option Pending) (k : ℕ) (p : LogonPart) (now : ℕ)
        → EndOf (pending k) (shown_of p.shown) made.token
        → made.row.keys ≡ keys_of (exported_by (shown_of p.shown)) p.chain p.chosen.cipher p.chosen.signing session
        → IfOk result (λ r. ReadyStep keys pending k (Some p) now r) }
    ensures kept { TablesKeep t.old t.new }
{
    match t.sessions.reserve_link(m.connection) {
        Ok(()) => Ok(Ready::Setup {
            step: SetupReady::Begin {
                session,
                row: made.row,
                token: made.token,
                previous,
                quiet,
            },
        }),
        Err(error) => Err(error),
    }
}

// ---- a further channel

pub(crate) fn join_ready(
    t: &mut Tables,
    m: &Message<'_>,
    logon: Option<&LogonPart>,
    session: u64,
) -> Result<Ready, AllocError>
    ensures room { IfOk result (λ r. RoomFor t.new m.now.session_id m.now.connection r) }
    ensures shown { (now : ℕ) → VerdictReadies t.old t.new (message_of m.now) now (verdicts.Join session) result }
    ensures step { (now : ℕ) → IfOk result (λ r. StepOf t.old.sessions m.now.connection (option_copied logon.entry) now r) }
    ensures kept { TablesKeep t.old t.new }
{
    match logon {
        Some(part) => part_joined(t, m, part, session),
        None => Err(AllocError),
    }
}

fn part_joined(
    t: &mut Tables,
    m: &Message<'_>,
    part: &LogonPart,
    session: u64,
) -> Result<Ready, AllocError>
    ensures room { IfOk result (λ r. RoomFor t.new m.now.session_id m.now.connection r) }
    ensures shown { (now : ℕ) → VerdictReadies t.old t.new (message_of m.now) now (verdicts.Join session) result }
    ensures step { (now : ℕ) → IfOk result (λ r. StepOf t.old.sessions m.now.connection (Some part.now) now r) }
    ensures kept { TablesKeep t.old t.new }
{
    match channel_shown(t, m, part, session) {
        Ok(made) => join_step(t, m, made, session),
        Err(error) => Err(error),
    }
}

// The channel of a token that shows a logon.
fn channel_shown(
    t: &Tables,
    m: &Message<'_>,
    part: &LogonPart,
    session: u64,
) -> Result<NewChannel, AllocError>
    ensures { IfOk result (λ a. (keys : ℕ → Keys) (pending : ℕ → Option Pending) → LogonsShown t.now.sessions keys pending
        → EndOf (pending m.now.connection) (shown_of part.now.shown) a.token
        × (a.keys ≡ bound_keys (exported_by (shown_of part.now.shown)) part.now.chain (keys session))) }
{
    match &part.shown {
        TokenShown::LoggedOn { logon, signs } => channel_for(t, m, part, logon, *signs, session),
        _ => Err(AllocError),
    }
}

fn channel_for(
    t: &Tables,
    m: &Message<'_>,
    part: &LogonPart,
    logon: &Logon,
    signs: bool,
    session: u64,
) -> Result<NewChannel, AllocError>
    ensures { IfOk result (λ a. (keys : ℕ → Keys) (pending : ℕ → Option Pending) → LogonsShown t.now.sessions keys pending
        → EndOf (pending m.now.connection) (tokens.LoggedOn (logon_of logon.now) signs) a.token
        × (a.keys ≡ bound_keys logon.now.key part.now.chain (keys session))) }
{
    let token = final_token(t, m, logon, signs)?;
    let keys = channel_keys(t, part, logon, session)?;
    Ok(NewChannel { keys, token })
}

fn channel_keys(
    t: &Tables,
    part: &LogonPart,
    logon: &Logon,
    session: u64,
) -> Result<Keys, AllocError>
    ensures { IfOk result (λ a. (keys : ℕ → Keys) (pending : ℕ → Option Pending) → LogonsShown t.now.sessions keys pending
        → a ≡ bound_keys logon.now.key part.now.chain (keys session)) }
{
    match t.sessions.row(session) {
        Some(row) => Ok(bind(&logon.key, &part.chain, &row.keys)),
        None => Err(AllocError),
    }
}

fn join_step(
    t: &mut Tables,
    m: &Message<'_>,
    made: NewChannel,
    session: u64,
) -> Result<Ready, AllocError>
    ensures room { IfOk result (λ r. RoomFor t.new m.now.session_id m.now.connection r) }
    ensures shown { (now : ℕ) → VerdictReadies t.old t.new (message_of m.now) now (verdicts.Join session) result }
    ensures step { (keys : ℕ → Keys) (pending : ℕ → Option Pending) (k : ℕ) (p : LogonPart) (now : ℕ)
        → EndOf (pending k) (shown_of p.shown) made.token
        → made.keys ≡ bound_keys (exported_by (shown_of p.shown)) p.chain (keys session)
        → IfOk result (λ r. ReadyStep keys pending k (Some p) now r) }
    ensures kept { TablesKeep t.old t.new }
{
    match t.sessions.reserve_channel(session) {
        Ok(()) => join_linked(t, m, made, session),
        Err(error) => Err(error),
    }
}

// The same, where there is room for the channel.
fn join_linked(
    t: &mut Tables,
    m: &Message<'_>,
    made: NewChannel,
    session: u64,
) -> Result<Ready, AllocError>
    requires { HasChannelRoom t.old.sessions session }
    ensures room { IfOk result (λ r. RoomFor t.new m.now.session_id m.now.connection r) }
    ensures shown { (now : ℕ) → VerdictReadies t.old t.new (message_of m.now) now (verdicts.Join session) result }
    ensures step { (keys : ℕ → Keys) (pending : ℕ → Option Pending) (k : ℕ) (p : LogonPart) (now : ℕ)
        → EndOf (pending k) (shown_of p.shown) made.token
        → made.keys ≡ bound_keys (exported_by (shown_of p.shown)) p.chain (keys session)
        → IfOk result (λ r. ReadyStep keys pending k (Some p) now r) }
    ensures kept { TablesKeep t.old t.new }
{
    match t.sessions.reserve_link(m.connection) {
        Ok(()) => Ok(Ready::Setup {
            step: SetupReady::Join {
                session,
                keys: made.keys,
                token: made.token,
            },
        }),
        Err(error) => Err(error),
    }
}

// The token that ends the logon in the making on the message's connection.
fn final_token(t: &Tables, m: &Message<'_>, logon: &Logon, signs: bool) -> Result<Bytes, AllocError>
    ensures { IfOk result (λ b. (keys : ℕ → Keys) (pending : ℕ → Option Pending) → LogonsShown t.now.sessions keys pending
        → EndOf (pending m.now.connection) (tokens.LoggedOn (logon_of logon.now) signs) b) }
{
    match t.sessions.making(m.connection) {
        Some(making) => final_for(t.alloc, making.list.as_slice(), logon, signs),
        None => Err(AllocError),
    }
}
