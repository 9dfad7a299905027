//! CREATE (MS-SMB2 3.3.5.9) but for a new open: a refusal that is kept, a first answer again, an open that is attached.
ghost use Rattle.std.specs.Prelude.{◌≡◌, ◌&&◌, if◌then◌else◌, ℕ, None, Some, true};
ghost use Rattle.wire_commands.specs.values.Meaning.{body_of, command_of, create_of, message_of};
ghost use Rattle.spec_exchange.specs.Commands as asks;
ghost use Rattle.spec_exchange.specs.Effects as effects;
ghost use Rattle.spec_exchange.specs.Files.{exists};
ghost use Rattle.spec_exchange.specs.State.{Server};
ghost use Rattle.spec_exchange.specs.Verdict.{Attach, KeepRefusal, Repeat};
ghost use Rattle.store_opens.specs.open_table.Changes.{attached_if};
ghost use Rattle.store_opens.specs.open_table.Shown.{HasResultRoom, HasOpensSessionRoom};
ghost use Rattle.server_checks.specs.session_table.Logons.{LogonsStay};
ghost use Rattle.server_checks.specs.Shown.{TablesShown};
ghost use Rattle.server_effects.specs.Asked.{asks_of};
ghost use Rattle.server_effects.specs.Carried.{EffectCarries, IsEffectBare};
ghost use Rattle.server_checks.specs.verdicts.Views.{create_in};

use crate::answering::{Answer, quiet};
use server_checks::Tables;
use server_checks::status::SUCCESS;
use store_opens::Row;
use wire_commands::{Body, Command, CreateReply, CreateRequest, Message};

/// What a CREATE asks to be told: an open that outlives its session, its maximal access, its file's number on the disk.
#[derive(Clone, Copy, Debug, PartialEq, Eq)]
pub struct Asks {
    /// SMB2_CREATE_DURABLE_HANDLE_REQUEST_V2 (MS-SMB2 2.2.13.2.11).
    pub durable: bool,
    /// SMB2_CREATE_QUERY_MAXIMAL_ACCESS_REQUEST (2.2.13.2.5).
    pub maximal: bool,
    /// SMB2_CREATE_QUERY_ON_DISK_ID (2.2.13.2.9).
    pub disk_id: bool,
}

/// The refusal is kept by its CreateGuid, and comes again at each copy.
pub fn keep_refusal(t: &mut Tables, m: &Message<'_>, guid: u128, status: u32) -> Answer
    requires { HasResultRoom t.old.opens m.now.session_id }
    ensures shows { (now : ℕ) → EffectCarries t.old t.new result (message_of m.now) now (KeepRefusal guid status) }
    ensures bare { IsEffectBare result }
    ensures config { t.new.config ≡ t.old.config }
    ensures logons { LogonsStay t.old.sessions t.new.sessions }
{
    t.opens.put_refusal(m.session_id, guid, status);
    quiet(t.alloc, m, status, Body::Empty)
}

/// The first answer again; an open without a session becomes this one's, with the request's sequence.
pub fn repeat(t: &mut Tables, m: &Message<'_>, id: u64) -> Answer
    requires { HasOpensSessionRoom t.old.opens m.now.session_id id }
    ensures shows { (now : ℕ) → EffectCarries t.old t.new result (message_of m.now) now (Repeat id (create_in (command_of m.now.command))) }
    ensures bare { IsEffectBare result }
    ensures config { t.new.config ≡ t.old.config }
    ensures logons { LogonsStay t.old.sessions t.new.sessions }
{
    let body = create_reply(t, id, asked(m), action_of(t, id));
    take_up(t, m, id);
    quiet(t.alloc, m, SUCCESS, body)
}

/// An open is attached again.
pub fn attach(t: &mut Tables, m: &Message<'_>, id: u64) -> Answer
    requires { HasOpensSessionRoom t.old.opens m.now.session_id id }
    ensures shows { (now : ℕ) → EffectCarries t.old t.new result (message_of m.now) now (Attach id (create_in (command_of m.now.command))) }
    ensures bare { IsEffectBare result }
    ensures config { t.new.config ≡ t.old.config }
    ensures logons { LogonsStay t.old.sessions t.new.sessions }
{
    let body = create_reply(t, id, asked(m), 1);
    take_up(t, m, id);
    quiet(t.alloc, m, SUCCESS, body)
}

// An open without a session becomes this one's.
fn take_up(t: &mut Tables, m: &Message<'_>, id: u64)
    requires { HasOpensSessionRoom t.old.opens m.now.session_id id }
    ensures shows { (s : Server) → TablesShown t.old s → s.standing id ≡ true
        → TablesShown t.new (effects.attached s (message_of m.now) id) }
    ensures kept { t.new ≡ record t.old { opens = t.new.opens } }
{
    t.opens
        .put_attached(id, m.session_id, m.tree_id, m.channel_sequence);
}

fn action_of(t: &Tables, id: u64) -> u32
    ensures { (s : Server) → TablesShown t.now s → s.standing id ≡ true → result ≡ (s.opened id).action }
{
    match t.opens.row(id) {
        Some(row) => row.action,
        None => 1,
    }
}

/// What a CREATE tells of an open that stands.
pub fn create_reply(t: &Tables, id: u64, told: Asks, action: u32) -> Body
    ensures { (s : Server) (r : asks.CreateRequest) → exists s (s.opened id).file ≡ true → TablesShown t.now s
        → s.standing id ≡ true → told ≡ asks_of r
        → body_of result ≡ effects.create_reply s id r action }
{
    Body::Created(CreateReply {
        id: id as u128,
        action,
        info: t.info(t.file_of(id)),
        timeout: timeout_of(t, id, told.durable),
        maximal: told.maximal,
        disk_id: told.disk_id,
    })
}

// The timeout of a persistent open, where it is asked.
fn timeout_of(t: &Tables, id: u64, is_asked: bool) -> Option<u32>
    ensures { (s : Server) → TablesShown t.now s → s.standing id ≡ true
        → result ≡ (if (s.opened id).persistent && is_asked then Some (s.opened id).timeout else None) }
{
    match t.opens.row(id) {
        Some(row) => row_timeout(row, is_asked),
        None => None,
    }
}

fn row_timeout(row: &Row, is_asked: bool) -> Option<u32>
    ensures { result ≡ (if row.now.persistent && is_asked then Some row.now.timeout else None) }
{
    if row.persistent && is_asked {
        return Some(row.timeout);
    }
    None
}

// What the message asks, where it is a CREATE.
pub(crate) fn asked(m: &Message<'_>) -> Asks
    ensures { result ≡ asks_of (create_in (command_of m.now.command)) }
{
    match &m.command {
        Command::Create(request) => asked_by(request),
        _ => Asks {
            durable: false,
            maximal: false,
            disk_id: false,
        },
    }
}

fn asked_by(request: &CreateRequest) -> Asks
    ensures { result ≡ asks_of (create_of request.now) }
{
    Asks {
        durable: request.durable.is_some(),
        maximal: request.maximal,
        disk_id: request.disk_id,
    }
}
