//! Replies put into frames one after the other, and the connection behind them (MS-SMB2 3.3.4.1).
ghost use Rattle.std.specs.Prelude.{◌≡◌, ◌+◌, ◌≤◌, ◌<◌, ◌^◌, ℕ, Bool, List, [], false, length, Option, Some, None, Ok, IfOk, OnOk};
ghost use Rattle.std.specs.Prelude.{option_copied, option_map, slice_get};
ghost use Rattle.spec_crypto.specs.sessions.Nonces.{NonceState};
ghost use Rattle.spec_wire.specs.credits.Window.{HeldIds};
ghost use Rattle.spec_world.specs.Settings.{ServerSettings};
ghost use Rattle.spec_world.specs.Ends.{ServerEnd};
ghost use Rattle.spec_world.specs.Hearing as hearing;
ghost use Rattle.spec_world.specs.Answering as answering;
ghost use Rattle.conn_core.specs.declared.frame_messages.checked.Checked.{Checked};
ghost use Rattle.conn_core.specs.frame_messages.Checking.{AllHaveMessages, HasMessage};
ghost use Rattle.conn_core.specs.negotiating.Greeting.{IsShortHello};
ghost use Rattle.conn_core.specs.reply_sealing.Saying.{CanPut, CanPutIf};
ghost use Rattle.conn_core.specs.reply_sealing.Joining.{FitsOpen, IsWritten, NextIs, RoomBehind, joins_next};
ghost use Rattle.conn_core.specs.message_replies.Replying.{AreMessagesShort};
ghost use Rattle.conn_core.specs.logon_state.Behind.{ShowsBehind};
ghost use Rattle.conn_core.specs.declared.reply_sealing.said.Said as code;
ghost use Rattle.conn_core.specs.reply_frames.Adding.{AddsWith, CanWait, IsReply, IsWaiting, NextFits, AnswerPuts, later_of};
ghost use Rattle.conn_core.specs.reply_frames.Joined.{AnswerJoins, JoinsBy, next_of, with_waiting};
ghost use Rattle.conn_core.specs.reply_frames.Walking as walking;
ghost use Rattle.conn_core.specs.reply_frames.Walking.{AddsBy, AddsWaiting, IsAlike, IsWalkDue, Walks, WalksBy};

use crate::conn::Conn;
use crate::end::ConnEnd;
use crate::frame_messages::CheckedFrame;
use crate::logon_state::Behind;
use crate::message_replies::{Answers, has_event, said};
use crate::reply_sealing::{Frames, Said};
use crypto_sessions::Nonces;
use spec_crypto::Keys;
use std::alloc::AllocError;

/// The frames so far, and the connection behind their replies.
#[derive(Drop)]
pub(crate) struct Joining {
    pub frames: Frames,
    pub behind: Behind,
}

/// How many answers of events were given, and the reply that waits for the next one.
#[derive(Clone, Copy)]
struct Walk<'a> {
    place: usize,
    // It waits because its NextCommand and padding, which are signed with it, hang on the next one.
    waiting: Option<Said<'a>>,
}

/// Puts a reply into the frame that is open, or into a new one. Tells whether the next one goes on behind it.
fn put(
    frames: &mut Frames,
    behind: &mut Behind,
    answers: &Answers<'_>,
    said: &Said<'_>,
    next: Option<&Said<'_>>,
) -> Result<bool, AllocError>
    requires message { HasMessage answers.now.asked.now said.now.at }
    requires fits { CanPut said.now × CanPutIf (option_copied next) }
    requires room { FitsOpen frames.old (64 + length said.now.body.now) }
    ensures sealed { frames.new.sealed ≡ frames.old.sealed }
    ensures room { IfOk result (λ more. RoomBehind frames.new more (option_copied next.entry)) }
    ensures puts { (keys : Option Keys) (first counted nonces : NonceState) (guid salt : List ℕ) (done front : List (List ℕ))
        (g : ServerEnd) (m : Checked) (r : answering.SaidReply) (n : Option answering.SaidReply)
        → IsReply guid salt answers.now m said.now r → NextIs (option_copied next.entry) n
        → IsWritten keys first frames.old nonces done front → ShowsBehind counted behind.old g
        → IfOk result (λ more. AnswerPuts keys first counted frames.old.sealed nonces done front g r n more frames.new behind.new) }
{
    let placed = frames.place(said, next)?;
    behind.go_on(said, answers, frames.bytes(placed.span));
    Ok(placed.more)
}

/// Adds a reply to the frames, and ends its frame where the next one has no room in it.
fn add(
    nonces: &mut Nonces,
    keys: Option<Keys>,
    joining: &mut Joining,
    answers: &Answers<'_>,
    said: &Said<'_>,
    next: Option<&Said<'_>>,
) -> Result<(), ConnEnd>
    requires message { HasMessage answers.now.asked.now said.now.at }
    requires fits { CanPut said.now × CanPutIf (option_copied next) }
    requires room { FitsOpen joining.old.frames (64 + length said.now.body.now) }
    ensures room { OnOk result (NextFits joining.new.frames (option_copied next.entry)) }
    ensures adds { (first counted : NonceState) (guid salt : List ℕ) (done front : List (List ℕ))
        (g : ServerEnd) (m : Checked) (r : answering.SaidReply) (n : Option answering.SaidReply)
        → IsReply guid salt answers.now m said.now r → NextIs (option_copied next.entry) n
        → IsWritten keys first joining.old.frames nonces.old done front → ShowsBehind counted joining.old.behind g
        → AddsWith keys first counted joining.old.frames.sealed nonces.old done front g r
        (joins_next joining.old.frames.sealed (length (answering.concatenated front)) r n) joining.new.frames nonces.new
        joining.new.behind result }
{
    let more = put(
        &mut joining.frames,
        &mut joining.behind,
        answers,
        said,
        next,
    )?;
    joining.frames.end(more, keys, nonces)
}

/// Adds a reply that waited for the next one, where there is one.
fn add_waiting(
    nonces: &mut Nonces,
    keys: Option<Keys>,
    joining: &mut Joining,
    answers: &Answers<'_>,
    waiting: Option<&Said<'_>>,
    next: Option<&Said<'_>>,
) -> Result<(), ConnEnd>
    requires waits { CanWait answers.now (option_copied waiting) }
    requires fits { CanPutIf (option_copied next) }
    requires room { NextFits joining.old.frames (option_copied waiting) }
    ensures room { OnOk result (NextFits joining.new.frames (option_copied next.entry)) }
    ensures joins { (first counted : NonceState) (guid salt : List ℕ) (sealed : Bool) (g : ServerEnd) (all : List answering.SaidReply)
        (waits n : Option answering.SaidReply) (rest : List answering.SaidReply)
        → IsWaiting guid salt answers.now (option_copied waiting.entry) waits → NextIs (option_copied next.entry) n
        → next_of (with_waiting n rest) ≡ n
        → AnswerJoins keys first counted sealed g all joining.old.frames nonces.old joining.old.behind waits (with_waiting n rest)
        → JoinsBy keys first counted sealed g all joining.new.frames nonces.new joining.new.behind n rest result }
{
    match waiting {
        Some(said) => add(nonces, keys, joining, answers, said, next),
        None => Ok(()),
    }
}

/// The same before the next reply, if there is one.
fn add_between(
    nonces: &mut Nonces,
    keys: Option<Keys>,
    joining: &mut Joining,
    answers: &Answers<'_>,
    waiting: Option<&Said<'_>>,
    next: Option<&Said<'_>>,
) -> Result<(), ConnEnd>
    requires waits { CanWait answers.now (option_copied waiting) }
    requires fits { CanPutIf (option_copied next) }
    requires room { NextFits joining.old.frames (option_copied waiting) }
    ensures room { OnOk result (NextFits joining.new.frames (later_of (option_copied next.entry) (option_copied waiting.entry))) }
    ensures none { option_copied next.entry ≡ None → (joining.new ≡ joining.old) × (nonces.new ≡ nonces.old) × (result ≡ Ok tt) }
    ensures joins { (said : code.Said) → option_copied next.entry ≡ Some said
        → AddsWaiting answers.now (option_copied waiting.entry) said keys joining.old nonces.old joining.new nonces.new result }
{
    match next {
        Some(next) => add_waiting(nonces, keys, joining, answers, waiting, Some(next)),
        None => Ok(()),
    }
}

/// The reply that waits behind both.
fn later<'a>(waiting: Option<Said<'a>>, next: Option<Said<'a>>) -> Option<Said<'a>>
    ensures { result ≡ later_of next.entry waiting.entry }
{
    match next {
        Some(next) => Some(next),
        None => waiting,
    }
}

/// How many answers were given behind the message at a place.
fn place_behind(asked: &CheckedFrame, at: usize, place: usize) -> usize
    requires { (at < length asked.now.messages.items) × (place ≤ at) × (at + 1 < 2 ^ 64) }
    ensures is { result ≡ walking.place_behind (slice_get asked.now.messages.items at) place }
    ensures few { result ≤ at + 1 }
{
    if has_event(asked.checked(at)) {
        place + 1
    } else {
        place
    }
}

/// Makes the reply to the message at a place, and adds the one that waited for it.
fn add_next<'a>(
    conn: &mut Conn,
    joining: &mut Joining,
    answers: &Answers<'a>,
    at: usize,
    walk: Walk<'a>,
) -> Result<Walk<'a>, ConnEnd>
    requires message { HasMessage answers.now.asked.now at }
    requires place { (walk.place ≤ at) × (at + 1 < 2 ^ 64) }
    requires waits { CanWait answers.now walk.waiting }
    requires short { AreMessagesShort answers.now.replies.now.items.items × IsShortHello (option_copied answers.now.hello) }
    requires room { NextFits joining.old.frames walk.waiting }
    ensures place { IfOk result (λ w. w.place ≤ at + 1) }
    ensures waits { IfOk result (λ w. CanWait answers.now w.waiting) }
    ensures room { IfOk result (λ w. NextFits joining.new.frames w.waiting) }
    ensures alike { IsAlike conn.old conn.new }
    ensures walks { (z : ServerSettings) (first counted : NonceState) (f g : ServerEnd) (all : List answering.SaidReply) (w : HeldIds)
        → Walks z first counted f g all w answers.now at conn.old joining.old walk.entry
        → WalksBy z first counted f g all w answers.now (at + 1) conn.new joining.new result }
{
    let place = place_behind(answers.asked, at, walk.place);
    let next = said(conn, at, walk.place, answers);
    let keys = conn.logon.keys;
    match add_between(
        &mut conn.nonces,
        keys,
        joining,
        answers,
        walk.waiting.as_ref(),
        next.as_ref(),
    ) {
        Ok(()) => Ok(Walk {
            place,
            waiting: later(walk.waiting, next),
        }),
        Err(why) => Err(why),
    }
}

/// Adds the replies to all messages in order, but the last one, which waits.
fn add_each<'a>(
    conn: &mut Conn,
    joining: &mut Joining,
    answers: &Answers<'a>,
) -> Result<Walk<'a>, ConnEnd>
    requires messages { AllHaveMessages answers.now.asked.now }
    requires short { AreMessagesShort answers.now.replies.now.items.items × IsShortHello (option_copied answers.now.hello) }
    requires none { joining.old.frames.open ≡ false }
    ensures waits { IfOk result (λ w. CanWait answers.now w.waiting) }
    ensures room { IfOk result (λ w. NextFits joining.new.frames w.waiting) }
    ensures alike { IsAlike conn.old conn.new }
    ensures walks { (z : ServerSettings) (first counted : NonceState) (f g : ServerEnd) (all : List answering.SaidReply) (w : HeldIds)
        → Walks z first counted f g all w answers.now 0 conn.old joining.old (record { place = 0; waiting = None })
        → WalksBy z first counted f g all w answers.now (length answers.now.asked.now.messages.items) conn.new joining.new result }
{
    let mut walk = Walk {
        place: 0,
        waiting: None,
    };
    for at in 0..answers.asked.messages.len() {
        walk = match add_next(conn, joining, answers, at, walk) {
            Ok(walk) => walk,
            Err(why) => return Err(why),
        };
    }
    Ok(walk)
}

fn status_of(waiting: Option<&Said<'_>>) -> Option<u32>
    ensures { result ≡ option_map (λ s. s.header.status) (option_copied waiting.entry) }
{
    match waiting {
        Some(said) => Some(said.header.status),
        None => None,
    }
}

/// Adds the replies to all messages in order. Tells the last one's status.
pub(crate) fn add_all(
    conn: &mut Conn,
    joining: &mut Joining,
    answers: &Answers<'_>,
) -> Result<Option<u32>, ConnEnd>
    requires messages { AllHaveMessages answers.now.asked.now }
    requires short { AreMessagesShort answers.now.replies.now.items.items × IsShortHello (option_copied answers.now.hello) }
    requires none { (joining.old.frames.open ≡ false) × (joining.old.frames.out.items ≡ [])
        × (joining.old.frames.sealed ≡ answers.now.asked.now.sealed) }
    ensures alike { IsAlike conn.old conn.new }
    ensures all { (z : ServerSettings) (counted : NonceState) (f g : ServerEnd) (cs : List hearing.Checked) (ss : List answering.SaidReply)
        (w : HeldIds) → IsWalkDue z counted f g cs ss w answers.now conn.old joining.old
        → AddsBy conn.old.nonces counted answers.now.asked.now.sealed f g ss w conn.new joining.new result }
{
    let walk = match add_each(conn, joining, answers) {
        Ok(walk) => walk,
        Err(why) => return Err(why),
    };
    let keys = conn.logon.keys;
    match add_waiting(
        &mut conn.nonces,
        keys,
        joining,
        answers,
        walk.waiting.as_ref(),
        None,
    ) {
        Ok(()) => Ok(status_of(walk.waiting.as_ref())),
        Err(why) => Err(why),
    }
}
