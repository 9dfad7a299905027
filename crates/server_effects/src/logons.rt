//! Steps of a logon (MS-SMB2 3.3.5.5, 3.3.5.5.3): a challenge goes out, a channel joins its session, or a session begins.
ghost use Rattle.std.specs.Prelude.{◌≡◌, ◌+◌, ◌<◌, ℕ, false, List, None, Option, Some};
ghost use Rattle.wire_commands.specs.values.Meaning.{message_of, reply_of};
ghost use Rattle.spec_exchange.specs.Commands.{SetupRequest};
ghost use Rattle.spec_exchange.specs.Effects.{add_session};
ghost use Rattle.spec_exchange.specs.State as says;
ghost use Rattle.spec_exchange.specs.State.{Server};
ghost use Rattle.spec_exchange.specs.Status.{more_processing_required, success};
ghost use Rattle.spec_exchange.specs.Table.{put};
ghost use Rattle.spec_exchange.specs.Verdict.{Challenge, ChallengeBinding, Join};
ghost use Rattle.law_server.specs.tables.Fits.{Fits};
ghost use Rattle.server_checks.specs.session_table.Logons.{LogonsShown, LogonsStay};
ghost use Rattle.server_checks.specs.session_table.Shown.{HasChannelRoom, HasLink, HasSessionRoom};
ghost use Rattle.spec_crypto.specs.declared.sessions.material.Keys.{Keys};
ghost use Rattle.spec_crypto.specs.tokens.Tokens.{Pending};
ghost use Rattle.server_checks.specs.Shown.{TablesShown};
ghost use Rattle.server_effects.specs.Able.{Able};
ghost use Rattle.server_effects.specs.Carried.{EffectCarries, KeepsChallenge};
ghost use Rattle.server_effects.specs.Ready.{IsRowFor};

use crate::answering::{Answer, reply};
use crypto_sessions::Acceptor;
use server_checks::status::{MORE_PROCESSING_REQUIRED, SUCCESS};
use server_checks::{SessionRow, Tables};
use spec_crypto::Keys;
use wire_bytes::Bytes;
use wire_commands::{Body, Message, Reply};

/// A new session is in the making, under the next id.
pub fn challenge(
    t: &mut Tables,
    m: &Message<'_>,
    list: Bytes,
    acceptor: Acceptor,
    token: Bytes,
) -> Answer
    requires { HasLink t.old.sessions m.now.connection × (t.old.sessions.given < 0xffff_ffff) }
    ensures shows { (now : ℕ) → EffectCarries t.old t.new result (message_of m.now) now Challenge }
    ensures beside { KeepsChallenge t.old t.new result (message_of m.now) list acceptor token }
    ensures config { t.new.config ≡ t.old.config }
{
    let id = t.sessions.challenge(m.connection, list, acceptor);
    more(m, id, token)
}

/// A further channel of a session is in the making.
pub fn challenge_binding(
    t: &mut Tables,
    m: &Message<'_>,
    session: u64,
    list: Bytes,
    acceptor: Acceptor,
    token: Bytes,
) -> Answer
    requires { HasLink t.old.sessions m.now.connection }
    ensures shows { (now : ℕ) → EffectCarries t.old t.new result (message_of m.now) now (ChallengeBinding session) }
    ensures beside { KeepsChallenge t.old t.new result (message_of m.now) list acceptor token }
    ensures config { t.new.config ≡ t.old.config }
{
    t.sessions
        .challenge_binding(m.connection, session, list, acceptor);
    more(m, m.session_id, token)
}

/// A session has a further channel, whose number is the next one.
pub fn join(t: &mut Tables, m: &Message<'_>, session: u64, keys: Keys, token: Bytes) -> Answer
    requires { HasLink t.old.sessions m.now.connection × HasChannelRoom t.old.sessions session }
    ensures shows { (now : ℕ) → EffectCarries t.old t.new result (message_of m.now) now (Join session) }
    ensures beside { (result.token ≡ token) × (result.keys ≡ Some keys) }
    ensures channel { (s : Server) → TablesShown t.old s → Able s (message_of m.now) (Join session)
        → result.channel ≡ Some (s.channel_numbers_drawn session + 1) }
    ensures config { t.new.config ≡ t.old.config }
    ensures logons { LogonsStay t.old.sessions t.new.sessions }
{
    let channel = t.sessions.join(m.connection, session);
    set_up_answer(t, m, token, keys, channel, false)
}

/// A session begins, with its first channel. A previous session is ended by its caller before.
pub fn begin(
    t: &mut Tables,
    m: &Message<'_>,
    session: u64,
    row: SessionRow,
    token: Bytes,
    acted: bool,
) -> Answer
    requires { HasSessionRoom t.old.sessions × HasLink t.old.sessions m.now.connection }
    ensures shows { (s : Server) (user : List ℕ) (r : SetupRequest) → Fits s → TablesShown t.old s → s.present session ≡ false
        → session ≡ m.now.session_id → IsRowFor row (message_of m.now) user r
        → TablesShown t.new (add_session s (message_of m.now) user r) }
    ensures reply { reply_of result.reply ≡ record {
      status = success;
      session_id = m.now.session_id;
      tree_id = m.now.tree_id;
      body = says.SetUp t.old.config.encrypts 1;
    } }
    ensures beside { (result.acted ≡ acted) × (result.token ≡ token) × (result.keys ≡ Some row.keys) × (result.channel ≡ Some 1) }
    ensures config { t.new.config ≡ t.old.config }
    ensures logons { (keys : ℕ → Keys) (pending : ℕ → Option Pending) → LogonsShown t.old.sessions keys pending
        → LogonsShown t.new.sessions (put keys session row.keys) pending }
{
    let keys = row.keys;
    t.sessions.add(m.connection, session, row);
    set_up_answer(t, m, token, keys, 1, acted)
}

// A session or a channel stands.
fn set_up_answer(
    t: &Tables,
    m: &Message<'_>,
    token: Bytes,
    keys: Keys,
    channel: u32,
    acted: bool,
) -> Answer
    ensures reply { reply_of result.reply ≡ record {
      status = success;
      session_id = m.now.session_id;
      tree_id = m.now.tree_id;
      body = says.SetUp t.now.config.encrypts channel;
    } }
    ensures beside { (result.acted ≡ acted) × (result.token ≡ token) × (result.keys ≡ Some keys) }
    ensures channel { channel < 65536 → result.channel ≡ Some channel }
{
    let sealed = t.config.encrypts;
    Answer {
        reply: reply(m, SUCCESS, Body::SetUp { sealed, channel }),
        acted,
        token,
        keys: Some(keys),
        channel: Some(short(channel)),
    }
}

// A logon goes on.
fn more(m: &Message<'_>, session_id: u64, token: Bytes) -> Answer
    ensures reply { reply_of result.reply ≡ record {
      status = more_processing_required;
      session_id = session_id;
      tree_id = m.now.tree_id;
      body = says.Empty;
    } }
    ensures beside { (result.acted ≡ false) × (result.token ≡ token) × (result.keys ≡ None) × (result.channel ≡ None) }
{
    Answer {
        reply: Reply {
            status: MORE_PROCESSING_REQUIRED,
            session_id,
            tree_id: m.tree_id,
            body: Body::Empty,
        },
        acted: false,
        token,
        keys: None,
        channel: None,
    }
}

// The number of a channel, of which there are at most 65,535.
fn short(channel: u32) -> u16
    ensures { channel < 65536 → result ≡ channel }
{
    channel.min(0xffff) as u16
}
