//! What the checks come to, before anything changes.
ghost use Rattle.std.specs.Prelude.{◌≡◌, length, nat_le, true};
ghost use Rattle.wire_commands.specs.values.Meaning.{body_of, command_of, create_of, message_of, shows_of};
ghost use Rattle.spec_exchange.specs.CheckCreate.{refused_create};
ghost use Rattle.spec_exchange.specs.CheckOpen.{bytes_change, turn_down_lock};
ghost use Rattle.spec_exchange.specs.CheckSetup.{first_binding};
ghost use Rattle.spec_exchange.specs.Commands as asks;
ghost use Rattle.spec_exchange.specs.Content.{is_empty};
ghost use Rattle.spec_exchange.specs.State.{Count, Empty};
ghost use Rattle.spec_exchange.specs.Status.{disk_full};
ghost use Rattle.spec_exchange.specs.Step.{without_room};
ghost use Rattle.spec_exchange.specs.Verdict.{Alter, Refuse, Tell, TurnDown};
ghost use Rattle.server_checks.specs.verdicts.Views.{bytes_in, change_of, create_in, elements_in, verdict_of};

use crate::verdicts::request::is_slot;
use crate::verdicts::status::{DISK_FULL, INVALID_PARAMETER};
use store_opens::Range;
use wire_bytes::Text;
use wire_commands::{Basic, Body, Command, CreateRequest, Message, Shows};

// The most bytes of one WRITE.
const MAX_BYTES: usize = 1_048_576;

/// What a WRITE or a SET_INFO does to its file. Bytes and paths stay with the request.
#[derive(Drop, Debug)]
pub enum Change {
    PutBytes { at: u64 },
    PutEnd { size: u64 },
    PutBasic { basic: Basic },
    PutDeletePending { pending: bool },
    PutPath { replaced: Option<u64> },
    /// No bytes, or an allocation that cuts nothing.
    PutNothing,
}

/// What the checks of a request come to (MS-SMB2 3.3.5): which answer applies, with what its effect needs. What the request
/// itself says stays with it.
#[derive(Drop, Debug)]
pub enum Verdict {
    Refuse {
        status: u32,
    },
    Give {
        body: Body,
    },
    /// The refusal is kept by its CreateGuid, and comes again at each copy.
    KeepRefusal {
        guid: u128,
        status: u32,
    },
    /// The first answer again.
    Repeat {
        id: u64,
    },
    Attach {
        id: u64,
    },
    Make {
        found: Option<u64>,
        action: u32,
    },
    TurnDown {
        id: u64,
        status: u32,
    },
    Tell {
        id: u64,
        body: Body,
    },
    /// A listing that goes on behind this name.
    Show {
        id: u64,
        last: Option<Text>,
        body: Body,
    },
    /// The open's position is this one.
    Seek {
        id: u64,
        position: u64,
    },
    KeepSlot {
        id: u64,
        index: u32,
        number: u8,
        status: u32,
    },
    PutRanges {
        id: u64,
        index: u32,
        number: u8,
        ranges: Vec<Range>,
    },
    Alter {
        id: u64,
        change: Change,
        body: Body,
    },
    CloseOpen {
        id: u64,
        body: Body,
    },
    Challenge,
    ChallengeBinding {
        session: u64,
    },
    /// The session is there. Quiet: no record of the previous one's end fits, so files stay as they are.
    Begin {
        session: u64,
        previous: Option<u64>,
        quiet: bool,
    },
    Join {
        session: u64,
    },
    EndSession {
        session: u64,
        quiet: bool,
    },
    AddTree {
        pipes: bool,
    },
    DropTree,
}

/// What stands in a verdict's place where its records don't fit the journal: DISK_FULL, and a session that ends without them.
pub fn without_room(m: &Message<'_>, verdict: Verdict) -> Verdict
    ensures { verdict_of (command_of m.now.command) result ≡ without_room (verdict_of (command_of m.now.command) verdict) }
{
    // An arm for each verdict that owes a record. A change is refused, since a restart would forget it. A session's
    // end never is: without its records files stay as they are.
    match verdict {
        Verdict::Make { .. } => create_without_room(m),
        Verdict::KeepSlot { id, .. } => Verdict::TurnDown {
            id,
            status: DISK_FULL,
        },
        Verdict::PutRanges { id, .. } => Verdict::TurnDown {
            id,
            status: DISK_FULL,
        },
        Verdict::Alter { id, .. } => Verdict::TurnDown {
            id,
            status: DISK_FULL,
        },
        Verdict::CloseOpen { id, .. } => Verdict::TurnDown {
            id,
            status: DISK_FULL,
        },
        Verdict::Begin {
            session,
            previous,
            ..
        } => Verdict::Begin {
            session,
            previous,
            quiet: true,
        },
        Verdict::EndSession { session, .. } => Verdict::EndSession {
            session,
            quiet: true,
        },
        Verdict::DropTree => Verdict::Refuse { status: DISK_FULL },
        other => other,
    }
}

fn create_without_room(m: &Message<'_>) -> Verdict
    ensures { verdict_of (command_of m.now.command) result ≡ refused_create (create_in (command_of m.now.command)) disk_full }
{
    match &m.command {
        Command::Create(request) => refused_create(request, DISK_FULL),
        _ => Verdict::Refuse { status: DISK_FULL },
    }
}

// ---- verdicts of one line

pub fn refuse(status: u32) -> Verdict
    ensures { (c : asks.Command) → verdict_of c result ≡ Refuse status }
{
    Verdict::Refuse { status }
}

pub fn turn_down(id: u64, status: u32) -> Verdict
    ensures { (c : asks.Command) → verdict_of c result ≡ TurnDown id status }
{
    Verdict::TurnDown { id, status }
}

/// A LOCK that fails: where its index names a slot, that keeps the status.
pub fn turn_down_lock(id: u64, index: u32, number: u8, status: u32) -> Verdict
    ensures { (c : asks.Command) → verdict_of c result ≡ turn_down_lock id index number (elements_in c) status }
{
    if is_slot(index) {
        Verdict::KeepSlot {
            id,
            index,
            number,
            status,
        }
    } else {
        turn_down(id, status)
    }
}

/// A refusal by the names, the sharing or the room is kept by the request's CreateGuid, where it has one.
pub fn refused_create(request: &CreateRequest, status: u32) -> Verdict
    ensures { (c : asks.Command) → verdict_of c result ≡ refused_create (create_of request.now) status }
{
    match request.durable {
        Some(durable) => Verdict::KeepRefusal {
            guid: durable.guid,
            status,
        },
        None => refuse(status),
    }
}

/// SUCCESS that tells nothing.
pub fn told(id: u64) -> Verdict
    ensures { (c : asks.Command) → verdict_of c result ≡ Tell id Empty }
{
    Verdict::Tell {
        id,
        body: Body::Empty,
    }
}

/// A change that tells nothing.
pub fn altered(id: u64, change: Change) -> Verdict
    ensures { (c : asks.Command) → verdict_of c result ≡ Alter id (change_of c change) Empty }
{
    Verdict::Alter {
        id,
        change,
        body: Body::Empty,
    }
}

/// What a WRITE does to its file.
pub fn bytes_change(at: u64, bytes: &[u8]) -> Change
    ensures { (c : asks.Command) → bytes_in c ≡ bytes.now → change_of c result ≡ bytes_change at bytes.now }
{
    if is_empty(bytes) {
        Change::PutNothing
    } else {
        Change::PutBytes { at }
    }
}

#[tactic(auto, using(crate::proofs::verdicts::Bytes::empty_is))]
pub fn is_empty(bytes: &[u8]) -> bool
    ensures { result ≡ is_empty bytes.now }
{
    bytes.is_empty()
}

/// How many bytes a WRITE put, of at most 1,048,576.
pub fn count_of(bytes: &[u8]) -> Body
    ensures { nat_le (length bytes.now) 1048576 ≡ true → body_of result ≡ Count (length bytes.now) }
{
    Body::Count {
        count: bytes.len().min(MAX_BYTES) as u32,
    }
}

/// The first token of a binding.
pub fn check_first_binding(m: &Message<'_>, shows: &Shows) -> Verdict
    ensures { (c : asks.Command) → verdict_of c result ≡ first_binding (message_of m.now) (shows_of shows.now) }
{
    match shows {
        Shows::Begins => Verdict::ChallengeBinding {
            session: m.session_id,
        },
        _ => refuse(INVALID_PARAMETER),
    }
}
