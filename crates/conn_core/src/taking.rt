//! A whole frame over a server (MS-SMB2 3.3.5.2).
ghost use Rattle.std.specs.Prelude.{◌≡◌, ◌≤◌, [], true, false, List, length, vec_capacity, if◌then◌else◌, Some};
ghost use Rattle.spec_exchange.specs.Status.{no_memory};
ghost use Rattle.spec_exchange.specs.State.{Record, Server};
ghost use Rattle.spec_crypto.specs.sessions.Nonces.{last_counter};
ghost use Rattle.spec_wire.specs.credits.Window.{HeldIds};
ghost use Rattle.spec_world.specs.Settings.{ServerSettings};
ghost use Rattle.spec_world.specs.Ends.{ServerEnd, Logons};
ghost use Rattle.spec_world.specs.Hearing as hearing;
ghost use Rattle.spec_world.specs.Answering as answering;
ghost use Rattle.conn_core.specs.Shown.{MaySeal, ShowsEnd};
ghost use Rattle.conn_core.specs.frame_messages.Checking.{AllHaveMessages, AreInOrder, GreetsFirst, ShowsFrame};
ghost use Rattle.conn_core.specs.served.Replies.{some_acted, some_lacked};
ghost use Rattle.conn_core.specs.served.Serving.{Onward};
ghost use Rattle.conn_core.specs.message_replies.Replying.{AreAsked, AreMessagesShort};
ghost use Rattle.conn_core.specs.frame_events.Dealing.{Alone};
ghost use Rattle.conn_core.specs.reply_frames.Replying.{AreAnswers, walk_replied};
ghost use Rattle.conn_core.specs.Taking.{FrameFinishes, HaltsAt, IsEnded, FrameServes, FrameTakes, frame_lacked};

use crate::conn::Conn;
use crate::end::{ConnEnd, Ended, at_once};
use crate::frame_events::{Dealt, Moment, carry_out, dealt_for};
use crate::frame_messages::{CheckedFrame, check};
use crate::reply_frames::{Answered, answered_with};
use crate::served::Serve;
use std::alloc::AllocError;
use wire_bytes::Bytes;

/// STATUS_NO_MEMORY (MS-ERREF 2.3.1)
const NO_MEMORY: u32 = 0xc000_0017;

/// What a step tells: the last reply's status, none where no reply was made, or NO_MEMORY where an event found none; and
/// whether a message of it acted.
#[derive(Clone, Copy, Debug, PartialEq, Eq)]
pub struct StepNote {
    pub status: Option<u32>,
    pub acted: bool,
}

/// A frame was taken: its answer, frames behind their lengths, and a note.
#[derive(Drop, Debug)]
pub struct Taken {
    pub bytes: Bytes,
    pub note: StepNote,
    /// A message of the frame was taken: a frame of CANCELs alone, or whose messages all fail, has none.
    pub took: bool,
    /// An event of the frame found no memory.
    pub lacked: bool,
}

fn end_of(why: ConnEnd, dealt: &Dealt) -> Ended
    ensures { IsEnded why dealt.now result }
{
    Ended {
        why,
        acted: dealt.replies.acted(),
        took: dealt.took,
        lacked: dealt.replies.lacked(),
    }
}

/// The status of the last reply, or NO_MEMORY where an event found none.
fn status_by(lacked: bool, status: Option<u32>) -> Option<u32>
    ensures { result ≡ (if lacked then Some no_memory else status) }
{
    if lacked { Some(NO_MEMORY) } else { status }
}

fn taken_of(answered: Answered, dealt: &Dealt) -> Taken
    ensures { (result.bytes ≡ answered.bytes.items)
        × (result.note.status ≡ (if some_lacked dealt.now.replies.items.items then Some no_memory else answered.status))
        × (result.note.acted ≡ some_acted dealt.now.replies.items.items) × (result.took ≡ dealt.now.took)
        × (result.lacked ≡ some_lacked dealt.now.replies.items.items) }
{
    let lacked = dealt.replies.lacked();
    Taken {
        bytes: Bytes::from_vec(answered.bytes),
        note: StepNote {
            status: status_by(lacked, answered.status),
            acted: dealt.replies.acted(),
        },
        took: dealt.took,
        lacked,
    }
}

/// The answer to a frame whose messages were all carried out.
fn finish(conn: &mut Conn, asked: &CheckedFrame, dealt: &Dealt) -> Result<Taken, Ended>
    requires messages { AllHaveMessages asked.now }
    requires short { AreMessagesShort dealt.now.replies.items.items }
    ensures spare { frame_lacked result ≡ false → conn.new.spare ≡ conn.old.spare }
    ensures finishes { (z : ServerSettings) (s : Server) (L : Logons) (f : ServerEnd) (cs : List hearing.Checked)
        (ss : List answering.SaidReply)
        (w : HeldIds) → ShowsEnd conn.old.id z.guid conn.old f → AreAnswers z f cs ss w asked.now dealt.now.replies.items.items
        → FrameFinishes conn.old.id z.guid (walk_replied s L f asked.now.sealed w ss) dealt.now conn.new result }
{
    match answered_with(conn, asked, &dealt.replies) {
        Ok(answered) => Ok(taken_of(answered, dealt)),
        Err(why) => Err(end_of(why, dealt)),
    }
}

/// Lets the server answer each message of a checked frame, and joins the replies.
fn serve<S: Serve>(
    conn: &mut Conn,
    server: &mut S,
    moment: &Moment,
    asked: &mut CheckedFrame,
    dealt: &mut Dealt,
) -> Result<Taken, Ended>
    requires order { AreInOrder asked.old }
    requires none { (dealt.old.replies.items.items ≡ []) × (dealt.old.took ≡ false) }
    requires room { length asked.old.messages.items ≤ vec_capacity dealt.old.replies.items }
    ensures spare { frame_lacked result ≡ false → conn.new.spare ≡ conn.old.spare }
    ensures serves { (z : ServerSettings) (s : Server) (L : Logons) (records : List Record) (f : ServerEnd) (F : hearing.Frame)
        → S.shows server.old z.users s L records → ShowsEnd conn.old.id z.guid conn.old F.server_end → ShowsFrame asked.old F
        → (asked.old.sealed ≡ true → MaySeal F.server_end.keys) → asked.old.moment ≡ moment.now.time
        → GreetsFirst F.messages → Alone F.messages → AreAsked F.server_end.asked F.messages → F.server_end.counter ≤ last_counter
        → FrameServes (Onward (S.shows server.new z.users) (S.stopped server.old) (S.stopped server.new)) z conn.old.id moment.now.time
        moment.now.fresh s L records f F conn.new result × HaltsAt (S.stopped server.new) result }
{
    match carry_out(conn, server, moment, asked, dealt) {
        Ok(()) => finish(conn, asked, dealt),
        Err(why) => Err(end_of(why, dealt)),
    }
}

/// Takes a frame: checks it, lets the server answer each message, and joins the replies. `now` is the moment in units
/// of 100 nanoseconds since 1601, and `fresh` are random bytes for a challenge. An end tells whether a message of the
/// frame acted before it. It is `Stopped` only where the server stands stopped at that count, and otherwise the server
/// goes on as before. At `Memory` no message was carried out, or all were, or all up to one whose reply is lost.
pub fn take_frame<S: Serve>(
    conn: &mut Conn,
    server: &mut S,
    now: u64,
    fresh: [u8; 8],
    frame: &[u8],
) -> Result<Taken, Ended>
    ensures spare { frame_lacked result ≡ false → conn.new.spare ≡ conn.old.spare }
    ensures takes { (z : ServerSettings) (s : Server) (L : Logons) (records : List Record) (f : ServerEnd)
        → S.shows server.old z.users s L records → ShowsEnd conn.old.id z.guid conn.old f → f.counter ≤ last_counter
        → FrameTakes (Onward (S.shows server.new z.users) (S.stopped server.old) (S.stopped server.new)) z conn.old.id now fresh s L records
        f frame.now conn.new result }
    ensures halted { (z : ServerSettings) (s : Server) (L : Logons) (records : List Record) (f : ServerEnd)
        → S.shows server.old z.users s L records → ShowsEnd conn.old.id z.guid conn.old f → f.counter ≤ last_counter
        → HaltsAt (S.stopped server.new) result }
{
    let mut asked = match check(conn, frame, now) {
        Ok(asked) => asked,
        Err(why) => return Err(at_once(why)),
    };
    // Before the first event, so that there is a place for the answer to each one that acts.
    let mut dealt = match dealt_for(conn.alloc, asked.messages.len()) {
        Ok(dealt) => dealt,
        Err(AllocError) => return Err(at_once(ConnEnd::Memory)),
    };
    let moment = Moment { time: now, fresh };
    serve(conn, server, &moment, &mut asked, &mut dealt)
}
