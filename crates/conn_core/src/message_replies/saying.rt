//! The reply to each message, by what answers it.
ghost use Rattle.std.specs.Prelude.{◌≡◌, ◌+◌, ◌∷◌, ℕ, true, false, List, Some, None, drop, slice_get, if◌then◌else◌, option_copied};
ghost use Rattle.std.specs.Prelude.{◌≤◌, IfSome, length};
ghost use Rattle.spec_wire.specs.credits.Window.{HeldIds};
ghost use Rattle.spec_exchange.specs.Status.{invalid_parameter};
ghost use Rattle.spec_world.specs.Settings.{ServerSettings};
ghost use Rattle.spec_world.specs.Ends.{ServerEnd};
ghost use Rattle.spec_world.specs.Hearing as hearing;
ghost use Rattle.spec_world.specs.Answering as answering;
ghost use Rattle.conn_core.specs.declared.frame_messages.checked.Checked.{Checked};
ghost use Rattle.conn_core.specs.reply_sealing.Saying.{CanPut, CanPutIf, IsReplySaid};
ghost use Rattle.conn_core.specs.negotiating.Greeting.{IsHello, IsShortHello};
ghost use Rattle.conn_core.specs.served.Serving.{IsServerShort};
ghost use Rattle.conn_core.specs.frame_messages.Checking.{HasMessage};
ghost use Rattle.conn_core.specs.related.Carrying as carrying;
ghost use Rattle.conn_core.specs.message_replies.Replying as replying;
ghost use Rattle.conn_core.specs.message_replies.Replying.{AreMessagesSaid, AreMessagesShort, Grants, HelloFor, IsLike, echo_due, negotiate_due};
ghost use Rattle.conn_core.specs.message_replies.Replying.{IsSaidTo, IsShortAnswer, MessageKept, SaysNext, said_aside};

use crate::conn::Conn;
use crate::frame_messages::{Checked, CheckedFrame, is_probe};
use crate::message_replies::plain::{Named, bare_or_error, own, plain, refusal, signer_of};
use crate::negotiating::Hello;
use crate::related::{bare_status, breaks_form};
use crate::reply_sealing::Said;
use crate::served::{Replies, Reply, ServeError};
use spec_crypto::Signer;

const SUCCESS: u32 = 0;

/// STATUS_NO_MEMORY (MS-ERREF 2.3.1)
const NO_MEMORY: u32 = 0xc000_0017;

/// STATUS_INVALID_PARAMETER
const INVALID_PARAMETER: u32 = 0xc000_000d;

const NEGOTIATE: u16 = 0;

const CANCEL: u16 = 12;

const ECHO: u16 = 13;

/// What answers a frame.
#[derive(Clone, Copy)]
pub struct Answers<'a> {
    pub asked: &'a CheckedFrame,
    pub replies: &'a Replies,
    pub hello: Option<&'a Hello>,
}

fn told(reply: &Reply) -> Named
    ensures { result ≡ record { status = reply.now.status; session = reply.now.session; tree = reply.now.tree } }
{
    Named {
        status: reply.status,
        session: reply.session,
        tree: reply.tree,
    }
}

/// Whether a message has an event: it goes its way, and isn't NEGOTIATE, ECHO or CANCEL.
pub fn has_event(checked: &Checked) -> bool
    ensures { result ≡ replying.has_message_event checked.now }
{
    let command = checked.header.command;
    checked.fails.is_none() && command != NEGOTIATE && command != ECHO && command != CANCEL
}

fn said_to<'a>(conn: &mut Conn, at: usize, checked: &Checked, reply: &'a Reply) -> Said<'a>
    ensures grants { Grants checked.now.header.credits conn.old conn.new }
    ensures place { result.at ≡ at }
    ensures said { (f : ServerEnd) (c : hearing.Checked) (s : answering.SaidReply) → f.keys ≡ conn.old.logon.keys → IsLike checked.now c
        → IsSaidTo f conn.old.window c reply.now s → IsReplySaid result s }
    ensures fits { IsServerShort reply.now → CanPut result }
{
    let own = conn.logon.signer();
    let plain = plain(conn, at, checked, told(reply), reply.body.as_slice());
    Said {
        signer: signer_of(checked, reply.progress, own),
        progress: reply.progress,
        ..plain
    }
}

/// The status of a message by its own body, but where its form is broken before.
fn placed_status(checked: &Checked, status: u32) -> u32
    ensures { result ≡ (if carrying.breaks_form checked.now then invalid_parameter else status) }
{
    if breaks_form(checked) {
        INVALID_PARAMETER
    } else {
        status
    }
}

/// The reply to a NEGOTIATE.
fn greeted_by<'a>(conn: &mut Conn, at: usize, checked: &Checked, hello: &'a Hello) -> Said<'a>
    ensures grants { Grants checked.now.header.credits conn.old conn.new }
    ensures place { result.at ≡ at }
    ensures said { (z : ServerSettings) (now : ℕ) (f : ServerEnd) (c : hearing.Checked) → f.keys ≡ conn.old.logon.keys
        → IsLike checked.now c → c.fault ≡ checked.now.fault → hearing.is_negotiate c.header ≡ true
        → IsHello z.guid f.salt now c.bytes hello.now
        → IsReplySaid result (said_aside z now f conn.old.window c (negotiate_due c)) }
    ensures fits { IsShortHello (Some hello.now) → CanPut result }
{
    let status = placed_status(checked, hello.status);
    if status == SUCCESS {
        plain(
            conn,
            at,
            checked,
            own(checked, SUCCESS),
            hello.body.as_slice(),
        )
    } else {
        refusal(conn, at, checked, status)
    }
}

fn greeted<'a>(conn: &mut Conn, at: usize, checked: &Checked, hello: Option<&'a Hello>) -> Said<'a>
    ensures grants { Grants checked.now.header.credits conn.old conn.new }
    ensures place { result.at ≡ at }
    ensures said { (z : ServerSettings) (now : ℕ) (f : ServerEnd) (c : hearing.Checked) → f.keys ≡ conn.old.logon.keys
        → IsLike checked.now c → c.fault ≡ checked.now.fault → hearing.is_negotiate c.header ≡ true
        → HelloFor z.guid f.salt now c (option_copied hello.entry)
        → IsReplySaid result (said_aside z now f conn.old.window c (negotiate_due c)) }
    ensures fits { IsShortHello (option_copied hello.entry) → CanPut result }
{
    match hello {
        Some(hello) => greeted_by(conn, at, checked, hello),
        None => refusal(conn, at, checked, NO_MEMORY),
    }
}

/// Who signs the answer to an ECHO: nobody where it is one of SessionId 0.
fn echo_signer(checked: &Checked, message: &[u8], own: Option<Signer>) -> Option<Signer>
    requires { 64 ≤ length message.now }
    ensures { result ≡ (if hearing.is_probe checked.now.header message.now then None else own) }
{
    if is_probe(&checked.header, message) {
        None
    } else {
        own
    }
}

/// The reply to an ECHO.
fn echoed<'a>(conn: &mut Conn, at: usize, checked: &Checked, message: &[u8]) -> Said<'a>
    requires { 64 ≤ length message.now }
    ensures grants { Grants checked.now.header.credits conn.old conn.new }
    ensures place { result.at ≡ at }
    ensures said { (z : ServerSettings) (now : ℕ) (f : ServerEnd) (c : hearing.Checked) → f.keys ≡ conn.old.logon.keys
        → IsLike checked.now c → c.fault ≡ checked.now.fault → c.bytes ≡ message.now → hearing.is_negotiate c.header ≡ false
        → IsReplySaid result (said_aside z now f conn.old.window c (echo_due c)) }
    ensures fits { CanPut result }
{
    let status = placed_status(checked, bare_status(checked.fault, message));
    let plain = plain(
        conn,
        at,
        checked,
        own(checked, status),
        bare_or_error(status),
    );
    Said {
        signer: echo_signer(checked, message, plain.signer),
        ..plain
    }
}

/// The reply to a message by the answer of its event.
fn answered_by<'a>(
    conn: &mut Conn,
    at: usize,
    checked: &Checked,
    answer: &'a Result<Reply, ServeError>,
) -> Said<'a>
    ensures grants { Grants checked.now.header.credits conn.old conn.new }
    ensures place { result.at ≡ at }
    ensures said { (f : ServerEnd) (c : hearing.Checked) → f.keys ≡ conn.old.logon.keys → IsLike checked.now c
        → replying.SaidOf f conn.old.window c (Some answer.now) result }
    ensures fits { IsShortAnswer answer.now → CanPut result }
{
    match answer {
        Ok(reply) => said_to(conn, at, checked, reply),
        Err(_) => refusal(conn, at, checked, NO_MEMORY),
    }
}

fn answer_at(replies: &Replies, place: usize) -> Option<&Result<Reply, ServeError>>
    ensures { option_copied result ≡ slice_get replies.now.items.items place }
{
    replies.items.get(place)
}

/// The same, where so many answers were given before. One that has none found no memory.
fn answered<'a>(
    conn: &mut Conn,
    at: usize,
    checked: &Checked,
    place: usize,
    replies: &'a Replies,
) -> Said<'a>
    ensures grants { Grants checked.now.header.credits conn.old conn.new }
    ensures place { result.at ≡ at }
    ensures said { (f : ServerEnd) (c : hearing.Checked) → f.keys ≡ conn.old.logon.keys → IsLike checked.now c
        → replying.SaidOf f conn.old.window c (slice_get replies.now.items.items place) result }
    ensures fits { AreMessagesShort replies.now.items.items → CanPut result }
{
    match answer_at(replies, place) {
        Some(answer) => answered_by(conn, at, checked, answer),
        None => refusal(conn, at, checked, NO_MEMORY),
    }
}

/// The reply to a message that goes its way.
fn said_going<'a>(conn: &mut Conn, at: usize, place: usize, answers: &Answers<'a>) -> Said<'a>
    requires { HasMessage answers.now.asked.now at }
    ensures grants { (m : Checked) → slice_get answers.now.asked.now.messages.items at ≡ Some m
        → Grants m.header.credits conn.old conn.new }
    ensures place { result.at ≡ at }
    ensures said { (z : ServerSettings) (f : ServerEnd) (m : Checked) (c : hearing.Checked)
        → slice_get answers.now.asked.now.messages.items at ≡ Some m → f.keys ≡ conn.old.logon.keys
        → replying.IsShown answers.now.asked.now m c → HelloFor z.guid f.salt answers.now.asked.now.moment c (option_copied answers.now.hello)
        → replying.SaidIf z answers.now.asked.now.moment f conn.old.window c None (replying.aside_status c)
        (slice_get answers.now.replies.now.items.items place) result }
    ensures fits { AreMessagesShort answers.now.replies.now.items.items → IsShortHello (option_copied answers.now.hello) → CanPut result }
{
    let checked = answers.asked.checked(at);
    if checked.header.command == NEGOTIATE {
        return greeted(conn, at, checked, answers.hello);
    }
    if checked.header.command == ECHO {
        return echoed(conn, at, checked, answers.asked.message(at));
    }
    answered(conn, at, checked, place, answers.replies)
}

/// The reply to a message that isn't CANCEL, where so many answers were given before.
fn said_by<'a>(conn: &mut Conn, at: usize, place: usize, answers: &Answers<'a>) -> Said<'a>
    requires { HasMessage answers.now.asked.now at }
    ensures grants { (m : Checked) → slice_get answers.now.asked.now.messages.items at ≡ Some m
        → Grants m.header.credits conn.old conn.new }
    ensures place { result.at ≡ at }
    ensures said { (z : ServerSettings) (f : ServerEnd) (m : Checked) (c : hearing.Checked)
        → slice_get answers.now.asked.now.messages.items at ≡ Some m → f.keys ≡ conn.old.logon.keys
        → replying.IsShown answers.now.asked.now m c → HelloFor z.guid f.salt answers.now.asked.now.moment c (option_copied answers.now.hello)
        → replying.SaidBy z answers.now.asked.now.moment f conn.old.window m c (slice_get answers.now.replies.now.items.items place)
        result }
    ensures fits { AreMessagesShort answers.now.replies.now.items.items → IsShortHello (option_copied answers.now.hello) → CanPut result }
{
    let checked = answers.asked.checked(at);
    match checked.fails {
        Some(status) => refusal(conn, at, checked, status),
        None => said_going(conn, at, place, answers),
    }
}

/// The reply to a message, none to a CANCEL. `place` is how many answers of events were given before.
pub fn said<'a>(conn: &mut Conn, at: usize, place: usize, answers: &Answers<'a>) -> Option<Said<'a>>
    requires { HasMessage answers.now.asked.now at }
    ensures says { (z : ServerSettings) (f : ServerEnd) (m : Checked) (c : hearing.Checked) (ms : List Checked) (cs : List hearing.Checked)
        (w : HeldIds) (ss : List answering.SaidReply)
        → slice_get answers.now.asked.now.messages.items at ≡ Some m → f.keys ≡ conn.old.logon.keys
        → replying.IsShown answers.now.asked.now m c → HelloFor z.guid f.salt answers.now.asked.now.moment c (option_copied answers.now.hello)
        → AreMessagesSaid z answers.now.asked.now.moment f (m ∷ ms) (c ∷ cs) (drop place answers.now.replies.now.items.items)
        conn.old.window ss w
        → SaysNext z answers.now.asked.now.moment f c ms cs
        (drop (place + (if replying.has_message_event m then 1 else 0)) answers.now.replies.now.items.items) conn.new ss w at result }
    ensures place { IfSome result (λ s. s.at ≡ at) }
    ensures kept { MessageKept conn.old conn.new }
    ensures fits { AreMessagesShort answers.now.replies.now.items.items → IsShortHello (option_copied answers.now.hello) → CanPutIf result }
{
    if answers.asked.checked(at).header.command == CANCEL {
        return None;
    }
    Some(said_by(conn, at, place, answers))
}
