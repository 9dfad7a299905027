//! What a reply has of its message and of its connection.
ghost use Rattle.std.specs.Prelude.{◌≡◌, ◌+◌, ◌≤◌, ◌==◌, length, if◌then◌else◌};
ghost use Rattle.spec_wire.specs.messages.Bare.{bare_spelling};
ghost use Rattle.spec_wire.specs.messages.Error.{error_response_spelling};
ghost use Rattle.spec_commands.specs.Tables.{bit_if};
ghost use Rattle.spec_wire.specs.credits.Window.{granted};
ghost use Rattle.spec_world.specs.Ends.{ServerEnd, signer_on};
ghost use Rattle.spec_world.specs.Logon.{unless_faulty};
ghost use Rattle.spec_world.specs.Hearing as hearing;
ghost use Rattle.spec_world.specs.Answering as answering;
ghost use Rattle.spec_world.specs.Connection.{said_failed};
ghost use Rattle.conn_core.specs.declared.conn.Progress.TheVariants.{Stays};
ghost use Rattle.conn_core.specs.reply_sealing.Saying.{CanPut, IsReplySaid};
ghost use Rattle.conn_core.specs.message_replies.Replying.{Grants, IsLike, progress_signer};

use crate::conn::{Conn, Progress};
use crate::frame_messages::Checked;
use crate::reply_sealing::Said;
use spec_crypto::Signer;
use wire_bytes::Header;

/// The error response (MS-SMB2 2.2.2).
const ERROR: [u8; 9] = [9, 0, 0, 0, 0, 0, 0, 0, 0];

/// The response to ECHO (MS-SMB2 2.2.29).
const BARE: [u8; 4] = [4, 0, 0, 0];

/// A status with the ids of a response's header.
#[derive(Clone, Copy)]
pub(crate) struct Named {
    pub status: u32,
    pub session: u64,
    pub tree: u32,
}

/// The ids of the message itself.
pub(crate) fn own(checked: &Checked, status: u32) -> Named
    ensures { result ≡ record { status = status; session = checked.now.header.session; tree = checked.now.header.tree } }
{
    Named {
        status,
        session: checked.header.session,
        tree: checked.header.tree,
    }
}

/// The flags of a response: response 1, and related 4 where its request is (MS-SMB2 2.2.1.2).
#[tactic(auto, unfolding(spec_commands::specs::Tables::bit_if))]
fn flags_of(related: bool) -> u32
    ensures is { result ≡ 1 + bit_if related 4 }
    ensures few { result ≤ 5 }
{
    if related { 5 } else { 1 }
}

/// The header of a reply (MS-SMB2 2.2.1.2).
fn reply_header(checked: &Checked, named: Named, credits: u16) -> Header
    ensures flags { result.flags ≤ 5 }
    ensures header { (c : hearing.Checked) → IsLike checked.now c
        → answering.reply_header c named.status named.session named.tree credits ≡ result }
{
    Header {
        charge: checked.header.charge,
        status: named.status,
        command: checked.header.command,
        credits,
        flags: flags_of(checked.related),
        next: 0,
        message: checked.header.message,
        tree: named.tree,
        session: named.session,
        signature: [0; 16],
    }
}

/// The body of a reply that fails.
#[tactic(auto, unfolding(spec_wire::specs::messages::Places::le))]
fn error_body() -> &'static [u8]
    ensures is { result.now ≡ error_response_spelling (record { error_context_count = 0; byte_count = 0 }) }
    ensures few { length result.now ≤ 9 }
{
    &ERROR
}

/// The body of a reply that tells nothing but its status.
#[tactic(auto, unfolding(spec_wire::specs::messages::Places::le))]
pub(crate) fn bare_or_error(status: u32) -> &'static [u8]
    ensures is { result.now ≡ (if status == 0 then bare_spelling else error_response_spelling (record {
      error_context_count = 0;
      byte_count = 0;
    })) }
    ensures few { length result.now ≤ 9 }
{
    if status == 0 { &BARE } else { error_body() }
}

/// Who signs a reply, by what a SESSION_SETUP comes to: `own` does for the connection. Nobody signs what answers a request that isn't
/// signed or sealed as owed.
pub(crate) fn signer_of(
    checked: &Checked,
    progress: Progress,
    own: Option<Signer>,
) -> Option<Signer>
    ensures { result ≡ unless_faulty checked.now.fault (progress_signer progress own) }
{
    if checked.fault.is_some() {
        return None;
    }
    match progress {
        Progress::Stays => own,
        Progress::Refused { signer } => signer,
        Progress::Interim { signer } => signer,
        Progress::Final { keys, .. } => Some(keys.signing),
    }
}

/// A reply of no progress, of the credits that the window grants it.
pub(crate) fn plain<'a>(
    conn: &mut Conn,
    at: usize,
    checked: &Checked,
    named: Named,
    body: &'a [u8],
) -> Said<'a>
    ensures grants { Grants checked.now.header.credits conn.old conn.new }
    ensures header { (c : hearing.Checked) → IsLike checked.now c → answering.reply_header c named.status named.session named.tree
        (granted c.header.credits conn.old.window) ≡ result.header }
    ensures rest { (result.at ≡ at) × (result.body.now ≡ body.now) × (result.signer ≡ unless_faulty checked.now.fault (signer_on conn.old.logon.keys))
        × (result.progress ≡ Stays) }
    ensures fits { length body.now ≤ 1113984 → CanPut result }
{
    let credits = conn.window.grant(checked.header.credits);
    let header = reply_header(checked, named, credits);
    Said {
        at,
        header,
        body,
        signer: signer_of(checked, Progress::Stays, conn.logon.signer()),
        progress: Progress::Stays,
    }
}

/// A reply that fails with this status.
pub(crate) fn refusal<'a>(conn: &mut Conn, at: usize, checked: &Checked, status: u32) -> Said<'a>
    ensures grants { Grants checked.now.header.credits conn.old conn.new }
    ensures place { result.at ≡ at }
    ensures said { (f : ServerEnd) (c : hearing.Checked) → f.keys ≡ conn.old.logon.keys → IsLike checked.now c
        → IsReplySaid result (said_failed f conn.old.window c status) }
    ensures fits { CanPut result }
{
    plain(conn, at, checked, own(checked, status), error_body())
}
