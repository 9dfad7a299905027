//! The answer to a frame, and the connection behind it (MS-SMB2 3.3.4.1, 3.3.5.5).
ghost use Rattle.std.specs.Prelude.{◌≡◌, List, [], Option, false, option_copied};
ghost use Rattle.spec_exchange.specs.State.{Server};
ghost use Rattle.spec_wire.specs.credits.Window.{HeldIds};
ghost use Rattle.spec_world.specs.Settings.{ServerSettings};
ghost use Rattle.spec_world.specs.Ends.{ServerEnd, Logons};
ghost use Rattle.spec_world.specs.Hearing as hearing;
ghost use Rattle.spec_world.specs.Answering as answering;
ghost use Rattle.conn_core.specs.Shown.{ShowsEnd};
ghost use Rattle.conn_core.specs.frame_messages.Checking.{AllHaveMessages};
ghost use Rattle.conn_core.specs.negotiating.Greeting.{IsShortHello};
ghost use Rattle.conn_core.specs.served.Replies.{some_lacked};
ghost use Rattle.conn_core.specs.message_replies.Replying.{AreMessagesShort, HelloOf};
ghost use Rattle.conn_core.specs.logon_state.Behind.{NoncesBehind};
ghost use Rattle.conn_core.specs.reply_frames.Replying.{AnswersWith, AreAnswers, WalkReplies as RepliesBy, walk_replied};

use crate::conn::Conn;
use crate::end::ConnEnd;
use crate::frame_messages::CheckedFrame;
use crate::logon_state::Behind;
use crate::message_replies::Answers;
use crate::negotiating::Hello;
use crate::reply_frames::adding::{Joining, add_all};
use crate::reply_frames::room::{hello_for, room_for};
use crate::reply_sealing::Frames;
use crate::served::Replies;
use crypto_sessions::Nonces;

/// The frames that answer, and the status of the last reply.
#[derive(Drop)]
pub struct Answered {
    pub bytes: Vec<u8>,
    pub status: Option<u32>,
}

/// The connection goes on with the logon behind its replies. The nonces of a channel that was made begin anew.
fn go_on(conn: &mut Conn, behind: &Behind)
    ensures same { (conn.new.id ≡ conn.old.id) × (conn.new.guid ≡ conn.old.guid) × (conn.new.salt ≡ conn.old.salt)
        × (conn.new.window ≡ conn.old.window) × (conn.new.asked ≡ conn.old.asked) × (conn.new.logon ≡ behind.now.logon) }
    ensures spare { conn.new.spare ≡ conn.old.spare }
    ensures nonces { (f : ServerEnd) → NoncesBehind conn.old.nonces behind.now.channel f
        → (f.channel ≡ conn.new.nonces.channel) × (f.counter ≡ conn.new.nonces.counter) }
{
    // After all replies: those after a SESSION_SETUP in its frame are signed by the keys from before the frame.
    conn.logon = behind.logon;
    match behind.channel {
        Some(channel) => {
            conn.nonces = Nonces::new(channel);
        }
        None => (),
    }
}

/// The frames of all replies, and the connection behind them.
fn finish(conn: &mut Conn, joining: Joining, status: Option<u32>) -> Answered
    ensures told { (result.bytes.items ≡ joining.frames.out.items) × (result.status ≡ status) }
    ensures same { (conn.new.id ≡ conn.old.id) × (conn.new.guid ≡ conn.old.guid) × (conn.new.salt ≡ conn.old.salt)
        × (conn.new.window ≡ conn.old.window) × (conn.new.asked ≡ conn.old.asked) × (conn.new.logon ≡ joining.behind.logon) }
    ensures spare { conn.new.spare ≡ conn.old.spare }
    ensures nonces { (f : ServerEnd) → NoncesBehind conn.old.nonces joining.behind.channel f
        → (f.channel ≡ conn.new.nonces.channel) × (f.counter ≡ conn.new.nonces.counter) }
{
    let Joining { frames, behind } = joining;
    go_on(conn, &behind);
    Answered {
        bytes: frames.into_bytes(),
        status,
    }
}

/// All replies in frames, in the room that was taken for them.
fn join_all(conn: &mut Conn, answers: &Answers<'_>, room: Vec<u8>) -> Result<Answered, ConnEnd>
    requires messages { AllHaveMessages answers.now.asked.now }
    requires short { AreMessagesShort answers.now.replies.now.items.items × IsShortHello (option_copied answers.now.hello) }
    requires none { room.items ≡ [] }
    ensures spare { conn.new.spare ≡ conn.old.spare }
    ensures answers { (z : ServerSettings) (s : Server) (L : Logons) (f : ServerEnd) (cs : List hearing.Checked)
        (ss : List answering.SaidReply)
        (w : HeldIds) → ShowsEnd conn.old.id z.guid conn.old f
        → AreAnswers z f cs ss w answers.now.asked.now answers.now.replies.now.items.items
        → HelloOf z.guid f.salt answers.now.asked.now.moment cs (option_copied answers.now.hello)
        → AnswersWith conn.old.id z.guid (walk_replied s L f answers.now.asked.now.sealed w ss) conn.new result }
{
    let mut joining = Joining {
        frames: Frames::new(room, answers.asked.sealed),
        behind: Behind {
            logon: conn.logon,
            channel: None,
        },
    };
    match add_all(conn, &mut joining, answers) {
        Ok(status) => Ok(finish(conn, joining, status)),
        Err(why) => Err(why),
    }
}

/// The same, with what answers a NEGOTIATE.
fn answer_by<'a>(
    conn: &mut Conn,
    asked: &'a CheckedFrame,
    replies: &'a Replies,
    hello: Option<&'a Hello>,
) -> Result<Answered, ConnEnd>
    requires messages { AllHaveMessages asked.now }
    requires short { AreMessagesShort replies.now.items.items × IsShortHello (option_copied hello) }
    ensures spare { some_lacked replies.now.items.items ≡ false → conn.new.spare ≡ conn.old.spare }
    ensures answers { (z : ServerSettings) (s : Server) (L : Logons) (f : ServerEnd) (cs : List hearing.Checked)
        (ss : List answering.SaidReply) (w : HeldIds) → ShowsEnd conn.old.id z.guid conn.old f
        → AreAnswers z f cs ss w asked.now replies.now.items.items
        → HelloOf z.guid f.salt asked.now.moment cs (option_copied hello.entry)
        → AnswersWith conn.old.id z.guid (walk_replied s L f asked.now.sealed w ss) conn.new result }
{
    let answers = Answers {
        asked,
        replies,
        hello,
    };
    let room = room_for(conn, &answers)?;
    join_all(conn, &answers, room)
}

/// The answer to a checked frame, with the last reply's status.
pub fn answered_with(
    conn: &mut Conn,
    asked: &CheckedFrame,
    replies: &Replies,
) -> Result<Answered, ConnEnd>
    requires messages { AllHaveMessages asked.now }
    requires short { AreMessagesShort replies.now.items.items }
    ensures spare { some_lacked replies.now.items.items ≡ false → conn.new.spare ≡ conn.old.spare }
    ensures answers { (z : ServerSettings) (s : Server) (L : Logons) (f : ServerEnd) (cs : List hearing.Checked)
        (ss : List answering.SaidReply) (w : HeldIds) → ShowsEnd conn.old.id z.guid conn.old f
        → AreAnswers z f cs ss w asked.now replies.now.items.items
        → AnswersWith conn.old.id z.guid (walk_replied s L f asked.now.sealed w ss) conn.new result }
{
    let hello = hello_for(conn, asked)?;
    answer_by(conn, asked, replies, hello.as_ref())
}

/// The answer to a checked frame, `replies` being the server's for each message that has an event, in order: frames,
/// each behind its four bytes of length, sealed where the request was, else with each reply signed where there is a
/// key. Each reply but to a CANCEL is granted credits. A reply of NEGOTIATE or SESSION_SETUP moves the logon on.
/// `Spent` where no nonce is left. The first answer that says that an event found no memory has the room that stands
/// by for it; any other leaves that room.
pub fn answer(conn: &mut Conn, asked: &CheckedFrame, replies: &Replies) -> Result<Vec<u8>, ConnEnd>
    requires messages { AllHaveMessages asked.now }
    requires short { AreMessagesShort replies.now.items.items }
    ensures spare { some_lacked replies.now.items.items ≡ false → conn.new.spare ≡ conn.old.spare }
    ensures answers { (z : ServerSettings) (s : Server) (L : Logons) (f : ServerEnd) (cs : List hearing.Checked)
        (ss : List answering.SaidReply) (w : HeldIds) → ShowsEnd conn.old.id z.guid conn.old f
        → AreAnswers z f cs ss w asked.now replies.now.items.items
        → RepliesBy conn.old.id z.guid (walk_replied s L f asked.now.sealed w ss) conn.new result }
{
    match answered_with(conn, asked, replies) {
        Ok(answered) => Ok(answered.bytes),
        Err(why) => Err(why),
    }
}
