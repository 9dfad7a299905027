// What hearing a response comes to (MS-SMB2 3.2.5).
ghost use Rattle.std.specs.Prelude.{◌≡◌, ℕ, ◌==◌, nat_lt, Bool, not, ◌&&◌, if◌then◌else◌, option_map};
ghost use Rattle.spec_exchange.specs.Status.{file_not_available};
ghost use Rattle.spec_exchange.specs.State.{Reply};
ghost use Rattle.spec_exchange.specs.Operations.{is_change, value_in};
ghost use Rattle.spec_exchange.specs.Client.{Client};
ghost use Rattle.spec_exchange.specs.Settling.{GoesAgain, heard, ok_or_unknown, refused};
ghost use Rattle.client_values.specs.operations.Meaning.{op_of, reply_of};
ghost use Rattle.client_values.specs.outcomes.Hearing.{heard_by, hearing_of};

use crate::operations::{OpKind, OpReply, Verdict, judge};
use crate::outcomes::outcome::{Outcome, Why};

const SUCCESS: u32 = 0;

const USER_SESSION_DELETED: u32 = 0xc000_0203;

/// What hearing a response comes to.
#[derive(Drop)]
pub enum Hearing {
    Settles(Outcome),
    /// The operation goes out again.
    GoesAgain,
    /// Its open is attached, and nothing is settled.
    Attaches,
    EndsSession,
}

/// What a client knows of a request that is answered.
#[derive(Clone, Copy, Debug, PartialEq, Eq)]
pub struct Asked {
    /// It asks to attach the operation's open, in its place.
    pub asking: bool,
    /// A copy of the operation is unanswered.
    pub unanswered: bool,
    /// The operation's last copy has an older channel sequence than the session.
    pub is_older: bool,
}

/// What hearing a response comes to: its status, and of a success what it says of the operation; none where its body doesn't
/// read as the operation's.
pub fn weigh(op: &OpKind, asked: Asked, status: u32, reply: Option<OpReply>) -> Hearing
    ensures { hearing_of result
        ≡ heard_by (op_of op.now) asked.asking asked.unanswered asked.is_older status (option_map reply_of reply) }
{
    if status == USER_SESSION_DELETED {
        Hearing::EndsSession
    } else if status != SUCCESS {
        weigh_refusal(op, asked, status)
    } else if asked.asking {
        Hearing::Attaches
    } else {
        weigh_success(reply)
    }
}

fn weigh_success(reply: Option<OpReply>) -> Hearing
    ensures { hearing_of result ≡ ok_or_unknown (option_map reply_of reply) }
{
    match reply {
        Some(reply) => Hearing::Settles(Outcome::ok(reply)),
        None => Hearing::Settles(Outcome::Unknown(Why::Status(SUCCESS))),
    }
}

fn weigh_refusal(op: &OpKind, asked: Asked, status: u32) -> Hearing
    ensures { hearing_of result
        ≡ (if not asked.asking && (is_change (op_of op.now) && ((status == file_not_available) && asked.is_older)) then GoesAgain
        else refused (op_of op.now) asked.asking asked.unanswered status) }
{
    match judge(op, asked.asking, asked.unanswered, asked.is_older, status) {
        Verdict::Refused => Hearing::Settles(Outcome::Refused(status)),
        Verdict::Closed => Hearing::Settles(Outcome::Done),
        Verdict::Unknown => Hearing::Settles(Outcome::Unknown(Why::Status(status))),
        Verdict::GoesAgain => Hearing::GoesAgain,
    }
}

/// What the model's client hears is weighed by what it knows of the operation.
pub fn heard_law()
    ensures { (c : Client) (g : ℕ) (asking : Bool) (r : Reply) → heard c g asking r
        ≡ heard_by (c.op g) asking (c.unanswered g) (nat_lt (c.sequence_of g) c.sequence) r.status (value_in (c.op g) r.body) }
{}
