// How operations settle.
ghost use Rattle.std.specs.Prelude.{◌≡◌, ℕ, not, ◌&&◌};
ghost use Rattle.spec_exchange.specs.Operations.{WasOk, is_ok, is_firm, persists};
ghost use Rattle.spec_exchange.specs.Client.{Client, is_attached, is_gone};
ghost use Rattle.client_values.specs.operations.Meaning.{reply_of};
ghost use Rattle.client_values.specs.outcomes.Meaning.{outcome_of};

use crate::operations::{OpReply, TextList};
use wire_bytes::{Bytes, Refusal};

/// How an operation settled. The first six say what one that succeeded was answered; to hold them here saves the 8 bytes that a
/// reply of its own would take.
#[derive(Drop)]
pub enum Outcome {
    Done,
    /// What a create did (MS-SMB2 2.2.14): superseded 0, opened 1, created 2, overwrote 3.
    Action(u32),
    Count(u32),
    Content(Bytes),
    Length(u64),
    Names(TextList),
    /// The status, of a server that did nothing.
    Refused(u32),
    /// Its create, of whose lock slots none is free.
    NoSlot(u32),
    /// Its create, which gives no open any more.
    NoOpen(u32),
    Unknown(Why),
}

/// Why nobody knows whether an operation acted.
#[derive(Clone, Copy, Debug, PartialEq, Eq, Drop)]
pub enum Why {
    /// The number of the session that ended, counted from 1.
    SessionLost(u32),
    Status(u32),
    NoSession(Refusal),
    /// How many connects in a row failed.
    GaveUp(u32),
    Ended,
}

/// A dialog that was refused, and on which connection.
#[derive(Clone, Copy, Debug, PartialEq, Eq, Drop)]
pub struct RefusedDialog {
    pub connection: u32,
    pub refusal: Refusal,
}

impl Outcome {
    /// Of an operation that succeeded, by what it was answered.
    pub fn ok(reply: OpReply) -> Outcome
        ensures { outcome_of result ≡ WasOk (reply_of reply) }
    {
        match reply {
            OpReply::Done => Outcome::Done,
            OpReply::Action(action) => Outcome::Action(action),
            OpReply::Count(count) => Outcome::Count(count),
            OpReply::Content(bytes) => Outcome::Content(bytes),
            OpReply::Length(length) => Outcome::Length(length),
            OpReply::Names(names) => Outcome::Names(names),
        }
    }

    pub fn is_ok(&self) -> bool
        ensures { result ≡ is_ok (outcome_of self.now) }
    {
        matches!(
            self,
            Outcome::Done
                | Outcome::Action(_)
                | Outcome::Count(_)
                | Outcome::Content(_)
                | Outcome::Length(_)
                | Outcome::Names(_)
        )
    }

    /// Whether it succeeded or was refused.
    pub fn is_firm(&self) -> bool
        ensures { result ≡ is_firm (outcome_of self.now) }
    {
        matches!(
            self,
            Outcome::Done
                | Outcome::Action(_)
                | Outcome::Count(_)
                | Outcome::Content(_)
                | Outcome::Length(_)
                | Outcome::Names(_)
                | Outcome::Refused(_)
        )
    }
}

/// Whether a create that settled so gives no open any more: a close of it settled Ok (`shut`), or its open isn't persistent and
/// isn't attached in this session.
pub fn is_gone(outcome: &Outcome, shut: bool, persistent: bool, attached: bool) -> bool
    ensures { (c : Client) (create : ℕ) → c.outcome create ≡ outcome_of outcome.now → c.closed_ok create ≡ shut
        → persists (c.op create) ≡ persistent → is_attached c create ≡ attached → result ≡ is_gone c create }
{
    if outcome.is_ok() {
        shut || gives_none(persistent, attached)
    } else {
        true
    }
}

fn gives_none(persistent: bool, attached: bool) -> bool
    ensures { result ≡ (not persistent && not attached) }
{
    !persistent && !attached
}
