//! What an answer is made with: the response to a NEGOTIATE, and room.
ghost use Rattle.std.specs.Prelude.{◌≡◌, ◌≤◌, ℕ, List, [], true, false, Some, Ok, IfOk, length, slice_get};
ghost use Rattle.spec_world.specs.Ends.{ServerEnd};
ghost use Rattle.spec_world.specs.Hearing as hearing;
ghost use Rattle.conn_core.specs.Shown.{ShowsEnd};
ghost use Rattle.conn_core.specs.declared.frame_messages.checked.Checked.{Checked};
ghost use Rattle.conn_core.specs.frame_messages.Checking.{AllHaveMessages, HasMessage, message_in};
ghost use Rattle.conn_core.specs.negotiating.Greeting.{IsHello, IsShortHello};
ghost use Rattle.conn_core.specs.served.Replies.{some_lacked};
ghost use Rattle.conn_core.specs.message_replies.Replying.{HelloOf, ShowsTaken};
ghost use Rattle.conn_core.specs.reply_frames.Walking.{first_greets};

use crate::conn::Conn;
use crate::frame_messages::CheckedFrame;
use crate::message_replies::Answers;
use crate::negotiating::{Greeter, Hello, hello_to};
use std::alloc::AllocError;
use std::mem;

const NEGOTIATE: u16 = 0;

/// More than what stands around a reply's body: the frame's length, a transform header, a header, padding, an error.
const AROUND: usize = 192;

/// Whether the first message is a NEGOTIATE.
fn greets(asked: &CheckedFrame) -> bool
    ensures { result ≡ first_greets asked.now.messages.items }
{
    if asked.messages.is_empty() {
        return false;
    }
    asked.checked(0).header.command == NEGOTIATE
}

/// What answers the first message, a NEGOTIATE.
fn hello_first(conn: &Conn, asked: &CheckedFrame) -> Result<Hello, AllocError>
    requires { HasMessage asked.now 0 }
    ensures short { IfOk result (λ h. length h.body ≤ 1113984) }
    ensures hello { (m : Checked) → slice_get asked.now.messages.items 0 ≡ Some m
        → IfOk result (λ h. IsHello conn.now.guid conn.now.salt asked.now.moment (message_in asked.now.bytes.items m) h) }
{
    let greeter = Greeter {
        guid: conn.guid,
        salt: conn.salt,
        moment: asked.moment,
    };
    hello_to(conn.alloc, &greeter, asked.message(0))
}

/// A NEGOTIATE is alone in its frame.
pub(crate) fn hello_for(conn: &Conn, asked: &CheckedFrame) -> Result<Option<Hello>, AllocError>
    requires { AllHaveMessages asked.now }
    ensures short { IfOk result (λ hello. IsShortHello hello) }
    ensures hello { (guid : List ℕ) (f : ServerEnd) (cs : List hearing.Checked) → ShowsEnd conn.now.id guid conn.now f
        → ShowsTaken asked.now.bytes.items asked.now.messages.items cs
        → IfOk result (λ hello. HelloOf guid f.salt asked.now.moment cs hello) }
{
    if greets(asked) {
        match hello_first(conn, asked) {
            Ok(hello) => Ok(Some(hello)),
            Err(error) => Err(error),
        }
    } else {
        Ok(None)
    }
}

fn hello_bytes(hello: Option<&Hello>) -> usize {
    match hello {
        Some(hello) => hello.body.len(),
        None => 0,
    }
}

/// How many bytes an answer has, or a few more.
fn size_of(answers: &Answers<'_>) -> usize {
    answers
        .asked
        .messages
        .len()
        .saturating_mul(AROUND)
        .saturating_add(hello_bytes(answers.hello))
        .saturating_add(answers.replies.body_bytes())
}

/// Room for the answer. The first one that says that memory ran out has the room that stands by for it.
pub(crate) fn room_for(conn: &mut Conn, answers: &Answers<'_>) -> Result<Vec<u8>, AllocError>
    ensures none { IfOk result (λ v. v.items ≡ []) }
    ensures spare { some_lacked answers.now.replies.now.items.items ≡ true → conn.old.spare.items ≡ [] → result ≡ Ok conn.old.spare }
    ensures keeps { some_lacked answers.now.replies.now.items.items ≡ false → conn.new.spare ≡ conn.old.spare }
    ensures same { (conn.new.id ≡ conn.old.id) × (conn.new.guid ≡ conn.old.guid) × (conn.new.salt ≡ conn.old.salt)
        × (conn.new.window ≡ conn.old.window) × (conn.new.asked ≡ conn.old.asked) × (conn.new.logon ≡ conn.old.logon)
        × (conn.new.nonces ≡ conn.old.nonces) }
{
    if answers.replies.lacked() && conn.spare.is_empty() {
        return Ok(mem::replace(&mut conn.spare, Vec::new(conn.alloc)));
    }
    Vec::with_capacity(conn.alloc, size_of(answers))
}
