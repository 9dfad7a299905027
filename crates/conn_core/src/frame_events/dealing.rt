//! One message of a frame after the other.
ghost use Rattle.std.specs.Prelude.{◌≡◌, ◌≤◌, ◌<◌, ◌+◌, ◌++◌, [], false, ℕ};
ghost use Rattle.std.specs.Prelude.{Err, List, None, Option, Result, Some, length, option_map, slice_get, vec_capacity};
ghost use Rattle.spec_exchange.specs.State.{Record, Server};
ghost use Rattle.spec_world.specs.Settings.{ServerSettings};
ghost use Rattle.spec_world.specs.Ends.{Logons, ServerEnd};
ghost use Rattle.spec_world.specs.Hearing as hearing;
ghost use Rattle.conn_core.specs.declared.served.error.ServeError.{ServeError};
ghost use Rattle.conn_core.specs.Shown.{ShowsEnd};
ghost use Rattle.conn_core.specs.declared.end.ConnEnd.TheVariants as ends;
ghost use Rattle.conn_core.specs.declared.frame_messages.checked.Checked.{Checked};
ghost use Rattle.conn_core.specs.frame_messages.Checking.{AreInOrder, HasMessage, ShowsFrame, ShowsGoing, message_in};
ghost use Rattle.conn_core.specs.related.Carrying.{carry_of};
ghost use Rattle.conn_core.specs.declared.served.serve.Reply.{Reply};
ghost use Rattle.conn_core.specs.served.Serving.{Onward};
ghost use Rattle.conn_core.specs.message_replies.Replying.{AreMessagesShort};
ghost use Rattle.conn_core.specs.frame_events.Dealing.{Alone, AreShortIf, Deals, DealsOne, GivesFor, stop_in};
ghost use Rattle.conn_core.specs.frame_events.SoFar.{DealtSoFar, SoFarSteps};
ghost use Rattle.spec_world.specs.Mishaps.{Owned};

use crate::conn::Conn;
use crate::end::ConnEnd;
use crate::frame_events::asking::ask;
use crate::frame_events::handing::{Dealt, goes, hand_on};
use crate::frame_messages::CheckedFrame;
use crate::message_replies::has_event;
use crate::related::Carry;
use crate::requests::told_of;
use crate::served::{Reply, Serve, ServeError};

/// What the events of a frame are made with.
#[derive(Clone, Copy, Debug)]
pub struct Moment {
    /// In units of 100 nanoseconds since 1601.
    pub time: u64,
    /// Random bytes for a challenge.
    pub fresh: [u8; 8],
}

/// A message's event, where it has one. NEGOTIATE, ECHO and CANCEL have none.
fn answer_of<S: Serve>(
    conn: &Conn,
    server: &mut S,
    moment: &Moment,
    asked: &CheckedFrame,
    at: usize,
) -> Option<Result<Reply, ServeError>>
    requires { HasMessage asked.now at }
    ensures gives { (z : ServerSettings) (before : Option ℕ) (s : Server) (L : Logons) (records : List Record) (f : ServerEnd)
        (m : Checked) (c : hearing.Checked)
        → Onward (S.shows server.old z.users) before (S.stopped server.old) s L records → ShowsEnd conn.now.id z.guid conn.now f
        → slice_get asked.now.messages.items at ≡ Some m → ShowsGoing asked.now.bytes.items m c → m.fails ≡ None
        → GivesFor (Onward (S.shows server.new z.users) before (S.stopped server.new)) z conn.now.id moment.now.time moment.now.fresh
        s L records f c result }
    ensures short { AreShortIf result }
    ensures stops { (count : ℕ) → stop_in result ≡ Some count → S.stopped server.new ≡ Some count }
{
    if !has_event(asked.checked(at)) {
        return None;
    }
    let told = told_of(conn, asked, at, moment.fresh);
    ask(server, conn.alloc, moment.time, asked, at, &told)
}

/// A message that goes its way: its event, and what it hands on.
fn deal<S: Serve>(
    conn: &Conn,
    server: &mut S,
    moment: &Moment,
    asked: &CheckedFrame,
    at: usize,
    carried: &Option<Carry>,
    dealt: &mut Dealt,
) -> Result<Carry, ConnEnd>
    requires message { HasMessage asked.now at }
    requires room { length dealt.old.replies.items.items < vec_capacity dealt.old.replies.items }
    ensures room { vec_capacity dealt.old.replies.items ≤ vec_capacity dealt.new.replies.items }
    ensures deals { (m : Checked) → slice_get asked.now.messages.items at ≡ Some m → (given : Option (Result Reply ServeError))
        × DealsOne m (message_in asked.now.bytes.items m) (option_map carry_of carried.now) given dealt.old dealt.new result
        × ((z : ServerSettings) (before : Option ℕ) (s : Server) (L : Logons) (records : List Record) (f : ServerEnd)
        (c : hearing.Checked) → Onward (S.shows server.old z.users) before (S.stopped server.old) s L records
        → ShowsEnd conn.now.id z.guid conn.now f → ShowsGoing asked.now.bytes.items m c → m.fails ≡ None
        → GivesFor (Onward (S.shows server.new z.users) before (S.stopped server.new)) z conn.now.id moment.now.time moment.now.fresh
        s L records f c given) }
    ensures stops { (count : ℕ) → result ≡ Err (ends.Stopped count) → S.stopped server.new ≡ Some count }
{
    let answer = answer_of(conn, server, moment, asked, at);
    hand_on(asked, at, carried, dealt, answer)
}

/// One message in its turn: what is handed on behind it.
fn step<S: Serve>(
    conn: &Conn,
    server: &mut S,
    moment: &Moment,
    asked: &mut CheckedFrame,
    at: usize,
    carried: &Option<Carry>,
    dealt: &mut Dealt,
) -> Result<Option<Carry>, ConnEnd>
    requires order { AreInOrder asked.old }
    requires there { at < length asked.old.messages.items }
    requires room { length dealt.old.replies.items.items < vec_capacity dealt.old.replies.items }
    ensures steps { (z : ServerSettings) (before : Option ℕ) (s : Server) (L : Logons) (records more : List Record) (f : ServerEnd)
        (cs : List hearing.Checked) (w : Owned) → ShowsEnd conn.now.id z.guid conn.now f → Alone cs
        → length asked.old.messages.items ≡ length cs
        → Onward (S.shows server.old z.users) before (S.stopped server.old) w.dealt.going.server w.dealt.going.logons (records ++ more)
        → DealtSoFar z conn.now.id moment.now.time moment.now.fresh s L f cs at at asked.old dealt.old (option_map carry_of
        carried.now) more w
        → SoFarSteps (Onward (S.shows server.new z.users) before (S.stopped server.new)) z conn.now.id moment.now.time moment.now.fresh
        s L records f cs (at + 1) asked.new dealt.new result }
    ensures stops { (count : ℕ) → result ≡ Err (ends.Stopped count) → S.stopped server.new ≡ Some count }
    ensures order { AreInOrder asked.new }
    ensures same { (length asked.new.messages.items ≡ length asked.old.messages.items) × (asked.new.sealed ≡ asked.old.sealed)
        × (asked.new.moment ≡ asked.old.moment) }
    ensures room { (vec_capacity dealt.old.replies.items ≤ vec_capacity dealt.new.replies.items)
        × (length dealt.new.replies.items.items ≤ length dealt.old.replies.items.items + 1) }
    ensures short { AreMessagesShort dealt.old.replies.items.items → AreMessagesShort dealt.new.replies.items.items }
{
    if !goes(asked, at, carried) {
        return Ok(*carried);
    }
    match deal(conn, server, moment, asked, at, carried, dealt) {
        Ok(behind) => Ok(Some(behind)),
        Err(why) => Err(why),
    }
}

/// The events of a frame's messages in order, and what becomes of each message. One that fails with a CREATE has no event. A
/// server that stopped is told by its count, and no message behind that has an event; nor has one behind an event whose reply is
/// lost, since memory ran out for it.
pub fn carry_out<S: Serve>(
    conn: &Conn,
    server: &mut S,
    moment: &Moment,
    asked: &mut CheckedFrame,
    dealt: &mut Dealt,
) -> Result<(), ConnEnd>
    requires order { AreInOrder asked.old }
    requires none { (dealt.old.replies.items.items ≡ []) × (dealt.old.took ≡ false) }
    requires room { length asked.old.messages.items ≤ vec_capacity dealt.old.replies.items }
    ensures deals { (z : ServerSettings) (s : Server) (L : Logons) (records : List Record) (f : ServerEnd) (F : hearing.Frame)
        → S.shows server.old z.users s L records → ShowsEnd conn.now.id z.guid conn.now f → ShowsFrame asked.old F → Alone F.messages
        → Deals (Onward (S.shows server.new z.users) (S.stopped server.old) (S.stopped server.new)) z conn.now.id moment.now.time
        moment.now.fresh s L records f F.messages asked.new dealt.new result }
    ensures stops { (count : ℕ) → result ≡ Err (ends.Stopped count) → S.stopped server.new ≡ Some count }
    ensures short { AreMessagesShort dealt.new.replies.items.items }
    ensures order { AreInOrder asked.new }
    ensures same { (asked.new.sealed ≡ asked.old.sealed) × (asked.new.moment ≡ asked.old.moment) }
{
    let mut carried: Option<Carry> = None;
    for at in 0..asked.messages.len() {
        match step(conn, server, moment, asked, at, &carried, dealt) {
            Ok(behind) => carried = behind,
            Err(why) => return Err(why),
        }
    }
    Ok(())
}
