//! What the connection hears in a frame, before any of its messages is carried out (MS-SMB2 3.3.5.2).
ghost use Rattle.std.specs.Prelude.{◌≡◌, ◌<◌, ◌≤◌, ◌^◌, ◌+◌, ◌%◌, ◌/◌, ℕ, List, [], length, drop, true, false, Some, option_copied, OnOk};
ghost use Rattle.std.specs.Prelude.{IfOk, if◌then◌else◌, not, ◌&&◌, ◌||◌, ◌==◌, is_some};
ghost use Rattle.spec_exchange.specs.Commands.{has_bit as has_bit_of};
ghost use Rattle.spec_world.specs.Ends.{ServerEnd};
ghost use Rattle.spec_world.specs.Hearing as hearing;
ghost use Rattle.spec_world.specs.Messages.{has_header, header_in, heard_in, messages_in};
ghost use Rattle.conn_core.specs.Shown.{AreKnown, ShowsEnd};
ghost use Rattle.conn_core.specs.frame_messages.Checking.{CheckAdmits, AreMessages, Checks, ChecksAll, ChecksOne};
ghost use Rattle.conn_core.specs.frame_messages.Checking.{HeardBy, SplitBy, TextBy, bytes_of, heard_at};
ghost use Rattle.conn_core.specs.frame_messages.Checking.{AllDenied, AreDenied, AreInOrder, InOrder, IsDenied, places_of};

use crate::conn::Conn;
use crate::end::ConnEnd;
use crate::frame_messages::checked::{Checked, CheckedFrame};
use crypto_sessions::{Keys, unseal_in_place, verify};
use std::alloc::{AllocError, Global};
use wire_bytes::{Header, HeaderError, Parts, Span, read_header, split_compound, u16_at};

/// The most bytes of a frame's message.
const MOST: usize = 1_114_112;

/// The same before a connection has had a session.
const FIRST_MOST: usize = 66_000;

/// What a sealed frame begins with (MS-SMB2 2.2.41).
const PROTOCOL: [u8; 4] = [0xfd, b'S', b'M', b'B'];

/// The bytes of a transform header (MS-SMB2 2.2.41).
const TRANSFORM: usize = 52;

/// Where it has its Flags, and the value of a sealed frame's.
const FLAGS: usize = 42;

const ENCRYPTED: u16 = 1;

/// STATUS_ACCESS_DENIED (MS-ERREF 2.3.1)
const ACCESS_DENIED: u32 = 0xc000_0022;

const NEGOTIATE: u16 = 0;

const SESSION_SETUP: u16 = 1;

const CANCEL: u16 = 12;

const ECHO: u16 = 13;

/// Where a header has its SessionId, and that of no session (MS-SMB2 2.2.1.2).
const SESSION_ID: usize = 40;

const NO_SESSION: [u8; 8] = [0; 8];

const RELATED: u32 = 4;

const SIGNED: u32 = 8;

/// A frame that begins FD 'S' 'M' 'B'.
#[tactic(auto, using(crate::proofs::frame_messages::Opening::in_front))]
fn begins_sealed(frame: &[u8]) -> bool
    ensures { result ≡ hearing.begins_sealed frame.now }
{
    frame.starts_with(&PROTOCOL)
}

#[tactic(auto, unfolding(spec_exchange::specs::Commands::has_bit))]
fn has_flag(header: &Header, flag: u32) -> bool
    requires { 0 < flag }
    ensures { result ≡ has_bit_of header.now.flags flag }
{
    header.flags / flag % 2 == 1
}

/// Related to the message before it, which the first one of a frame never is.
fn is_related(first: bool, header: &Header) -> bool
    ensures { result ≡ (not first && has_bit_of header.now.flags 4) }
{
    !first && has_flag(header, RELATED)
}

/// Whether a transform header has the Flags of a sealed frame.
fn is_encrypted(frame: &[u8]) -> bool
    requires { 52 ≤ length frame.now }
    ensures { result ≡ hearing.is_encrypted frame.now }
{
    u16_at(frame, FLAGS) == ENCRYPTED
}

/// Opens a sealed frame where it stands, under keys that were told.
#[tactic(auto, using(crate::proofs::frame_messages::Opening::opens, crate::proofs::frame_messages::Opening::refuses, crate::proofs::frame_messages::Opening::without_cipher, crate::proofs::frame_messages::Opening::too_short, crate::proofs::frame_messages::Opening::of_other_flags))]
fn open_under(keys: &Keys, frame: &mut [u8]) -> Result<(), ConnEnd>
    ensures whole { OnOk result (52 ≤ length frame.new) }
    ensures text { keys.now.cipher ≤ 4 → HeardBy (hearing.opened_by (Some keys.now) frame.old) result frame.new frame.old }
{
    if keys.cipher == 0 || keys.cipher > 4 || frame.len() < TRANSFORM {
        return Err(ConnEnd::Unsealable);
    }
    if !is_encrypted(frame) {
        return Err(ConnEnd::Unsealable);
    }
    match unseal_in_place(keys, true, frame) {
        Ok(()) => Ok(()),
        Err(_) => Err(ConnEnd::Unsealable),
    }
}

/// Opens a sealed frame where it stands.
fn open(keys: Option<&Keys>, frame: &mut [u8]) -> Result<(), ConnEnd>
    ensures whole { OnOk result (52 ≤ length frame.new) }
    ensures text { AreKnown (option_copied keys.entry)
        → HeardBy (hearing.opened_by (option_copied keys.entry) frame.old) result frame.new frame.old }
{
    match keys {
        Some(keys) => open_under(keys, frame),
        None => Err(ConnEnd::Unsealable),
    }
}

/// Where the text of a frame begins, which is opened where it stands if it is sealed.
#[tactic(auto, using(crate::proofs::frame_messages::Opening::text_opened, crate::proofs::frame_messages::Opening::text_closed, crate::proofs::frame_messages::Opening::text_plain))]
fn text_at(keys: Option<&Keys>, sealed: bool, frame: &mut [u8]) -> Result<usize, ConnEnd>
    ensures whole { IfOk result (λ at. at ≤ length frame.new) }
    ensures text { AreKnown (option_copied keys.entry)
        → TextBy (if sealed then hearing.opened_by (option_copied keys.entry) frame.old else Some frame.old) result frame.new }
{
    if !sealed {
        return Ok(0);
    }
    match open(keys, frame) {
        Ok(()) => Ok(TRANSFORM),
        Err(cause) => Err(cause),
    }
}

/// The messages of a frame's text, by their places in it.
#[tactic(auto, using(crate::proofs::frame_messages::Splitting::split_is, crate::proofs::frame_messages::Splitting::split_some, crate::proofs::frame_messages::Splitting::split_breaks))]
fn split(alloc: Global, text: &[u8]) -> Result<Parts, ConnEnd>
    ensures { SplitBy (messages_in text.now) text.now result }
{
    match split_compound(alloc, text) {
        Ok(parts) => Ok(parts),
        Err(HeaderError::Memory) => Err(ConnEnd::Memory),
        Err(_) => Err(ConnEnd::BadFrame),
    }
}

/// A place of the text behind the first bytes of a frame, as a place of the frame.
fn moved(from: usize, part: &Span) -> Span
    requires { (from + part.now.start < 2 ^ 62) × (from + part.now.end < 2 ^ 62) }
    ensures { (result.start ≡ from + part.now.start) × (result.end ≡ from + part.now.end) }
{
    Span {
        start: from + part.start,
        end: from + part.end,
    }
}

/// The bytes at a place.
fn placed<'a>(bytes: &'a [u8], span: &Span) -> &'a [u8]
    requires { (span.now.start ≤ span.now.end) × (span.now.end ≤ length bytes.now) }
    ensures value { result.now ≡ bytes_of bytes.now span.now }
    ensures short { length result.now ≤ length bytes.now }
{
    &bytes[span.start..span.end]
}

/// What a message of the frame is heard behind.
#[derive(Clone, Copy)]
struct Place {
    sealed: bool,
    barred: bool,
    first: bool,
}

/// A message in its turn: the first cause for which it ends the connection, else its ids are taken.
fn admit(conn: &mut Conn, header: &Header) -> Result<(), ConnEnd>
    ensures spare { conn.new.spare ≡ conn.old.spare }
    ensures admits { (k : ℕ) (guid : List ℕ) (f : ServerEnd) → ShowsEnd k guid conn.old f
        → CheckAdmits k guid (hearing.turn_end f header.now) (hearing.behind_turn f header.now) conn.new result }
{
    let negotiates = header.command == NEGOTIATE;
    if conn.logon.greeting.is_none() && !negotiates {
        return Err(ConnEnd::BadFrame);
    }
    if negotiates && conn.asked {
        return Err(ConnEnd::SecondNegotiate);
    }
    // A CANCEL names the request that it cancels, and has no id of its own.
    if header.command != CANCEL {
        if let Err(outside) = conn.window.take(header.message, header.charge) {
            return Err(ConnEnd::OutsideWindow(outside.id));
        }
    }
    conn.asked = conn.asked || negotiates;
    Ok(())
}

/// Sealed, or signed where no sealing is owed.
fn is_protected(conn: &Conn, sealed: bool, header: &Header, message: &[u8]) -> bool
    requires { (64 ≤ length message.now) × (length message.now < 2 ^ 60) }
    ensures { (k : ℕ) (guid : List ℕ) (f : ServerEnd) → ShowsEnd k guid conn.now f
        → result ≡ hearing.is_protected f sealed (record { header = header.now; bytes = message.now }) }
{
    if sealed {
        return true;
    }
    if conn.logon.encrypts || !has_flag(header, SIGNED) {
        return false;
    }
    match &conn.logon.keys {
        Some(keys) => verify(&keys.signing, message),
        None => false,
    }
}

/// An ECHO of SessionId 0, by the header as it was heard, which its bytes keep.
pub fn is_probe(header: &Header, message: &[u8]) -> bool
    requires { 64 ≤ length message.now }
    ensures { result ≡ hearing.is_probe header.now message.now }
{
    header.command == ECHO && message[SESSION_ID..].starts_with(&NO_SESSION)
}

/// Neither a signature nor a seal is owed by NEGOTIATE, a SESSION_SETUP and an ECHO of SessionId 0.
fn owes_nothing(header: &Header, message: &[u8]) -> bool
    requires { 64 ≤ length message.now }
    ensures { result ≡ hearing.owes_nothing (record { header = header.now; bytes = message.now }) }
{
    header.command == NEGOTIATE || header.command == SESSION_SETUP || is_probe(header, message)
}

/// ACCESS_DENIED to what isn't protected and owes it, and to what stands behind a message that bars the rest of its frame.
fn fault_of(conn: &Conn, place: Place, header: &Header, message: &[u8]) -> Option<u32>
    requires { (64 ≤ length message.now) × (length message.now < 2 ^ 60) }
    ensures denied { IsDenied result }
    ensures fault { (k : ℕ) (guid : List ℕ) (f : ServerEnd) → ShowsEnd k guid conn.now f
        → result ≡ hearing.fault_of f place.sealed place.barred (record { header = header.now; bytes = message.now }) }
{
    if place.barred {
        return Some(ACCESS_DENIED);
    }
    if owes_nothing(header, message) {
        return None;
    }
    if is_protected(conn, place.sealed, header, message) {
        None
    } else {
        Some(ACCESS_DENIED)
    }
}

/// One message in its turn, by its bytes.
fn check_one(conn: &mut Conn, place: Place, message: &[u8], span: Span) -> Result<Checked, ConnEnd>
    requires long { has_header message.now ≡ true }
    requires short { length message.now < 2 ^ 60 }
    ensures spare { conn.new.spare ≡ conn.old.spare }
    ensures turn { (k : ℕ) (guid : List ℕ) (f : ServerEnd) → ShowsEnd k guid conn.old f
        → ChecksOne k guid (hearing.turn_end f (header_in message.now)) (hearing.behind_turn f (header_in message.now)) conn.new
        (hearing.checked_as f place.sealed place.barred place.first (heard_in message.now)) span result }
    ensures place { IfOk result (λ m. m.span ≡ span) }
    ensures denied { IfOk result (λ m. IsDenied m.fault) }
{
    let header = match read_header(message) {
        Ok(header) => header,
        Err(_) => return Err(ConnEnd::BadFrame),
    };
    let fault = fault_of(conn, place, &header, message);
    let related = is_related(place.first, &header);
    match admit(conn, &header) {
        Ok(()) => Ok(Checked {
            header,
            related,
            fault,
            fails: None,
            span,
        }),
        Err(cause) => Err(cause),
    }
}

/// Whether what stands behind a message in its frame is refused: its keys may not be there yet, or anybody may have put it there.
fn bars(barred: bool, checked: &Checked) -> bool
    ensures { result ≡ (barred || (checked.now.header.command == 1 || is_some checked.now.fault)) }
{
    barred || checked.header.command == SESSION_SETUP || checked.fault.is_some()
}

/// Checks the messages at these places of the text behind the first bytes of a frame, in order.
fn check_each(
    conn: &mut Conn,
    sealed: bool,
    bytes: &[u8],
    from: usize,
    spans: &[Span],
) -> Result<Vec<Checked>, ConnEnd>
    requires text { from ≤ length bytes.now }
    requires spans { AreMessages (drop from bytes.now) spans.now }
    requires some { spans.now ≡ [] → ⊥ }
    requires order { InOrder 0 (length (drop from bytes.now)) spans.now }
    requires short { length bytes.now < 2 ^ 60 }
    ensures spare { conn.new.spare ≡ conn.old.spare }
    ensures places { IfOk result (λ ms. InOrder 0 (length bytes.now) (places_of ms.items)) }
    ensures denied { IfOk result (λ ms. AllDenied ms.items) }
    ensures checks { (k : ℕ) (guid : List ℕ) (f : ServerEnd) → ShowsEnd k guid conn.old f
        → ChecksAll k guid bytes.now (hearing.checked_in f sealed (heard_at (drop from bytes.now) spans.now)) conn.new result }
{
    let mut messages = Vec::with_capacity(conn.alloc, spans.len())?;
    let mut barred = false;
    for part in spans {
        let span = moved(from, part);
        let place = Place {
            sealed,
            barred,
            first: messages.is_empty(),
        };
        let message = placed(bytes, &span);
        let checked = match check_one(conn, place, message, span) {
            Ok(checked) => checked,
            Err(cause) => return Err(cause),
        };
        barred = bars(barred, &checked);
        let Ok(()) = messages.push(checked) else {
            return Err(ConnEnd::Memory);
        };
    }
    Ok(messages)
}

/// Checks the messages that stand in a frame from a place on, in order.
fn check_all(
    conn: &mut Conn,
    sealed: bool,
    bytes: &[u8],
    from: usize,
) -> Result<Vec<Checked>, ConnEnd>
    requires text { from ≤ length bytes.now }
    requires short { length bytes.now < 2 ^ 60 }
    ensures spare { conn.new.spare ≡ conn.old.spare }
    ensures places { IfOk result (λ ms. InOrder 0 (length bytes.now) (places_of ms.items)) }
    ensures denied { IfOk result (λ ms. AllDenied ms.items) }
    ensures checks { (k : ℕ) (guid : List ℕ) (f : ServerEnd) → ShowsEnd k guid conn.old f
        → ChecksAll k guid bytes.now (hearing.checked_text f (hearing.split_text sealed (messages_in (drop from bytes.now)))) conn.new
        result }
{
    match split(conn.alloc, &bytes[from..]) {
        Ok(parts) => check_each(conn, sealed, bytes, from, parts.as_slice()),
        Err(cause) => Err(cause),
    }
}

/// Whether a frame is longer than may come. Before a connection has had a session no more comes than NEGOTIATE and
/// tokens, of at most 65,535 bytes each.
fn is_too_long(conn: &Conn, frame: &[u8]) -> bool
    ensures is { result ≡ hearing.is_too_long conn.now.logon.keys frame.now }
    ensures few { result ≡ false → length frame.now ≤ 1114112 }
{
    match &conn.logon.keys {
        Some(_keys) => frame.len() > MOST,
        None => frame.len() > FIRST_MOST,
    }
}

/// Checks a whole frame before any message of it is carried out: it is opened where it is sealed, split, each message
/// is admitted by its command and its ids, and its signature is verified. An end says why the connection ends, and
/// then nothing of the frame is carried out. `now` is kept for a NEGOTIATE's response. The frame is opened where it stands,
/// and FileIds are written into its related messages.
pub fn check_own(conn: &mut Conn, frame: Vec<u8>, now: u64) -> Result<CheckedFrame, ConnEnd>
    ensures spare { conn.new.spare ≡ conn.old.spare }
    ensures order { IfOk result (λ x. AreInOrder x) }
    ensures denied { IfOk result (λ x. AreDenied x) }
    ensures checks { (k : ℕ) (guid : List ℕ) (f : ServerEnd) → ShowsEnd k guid conn.old f
        → Checks k guid (hearing.check_frame f frame.items) now conn.new result }
{
    if is_too_long(conn, frame.as_slice()) {
        return Err(ConnEnd::BadFrame);
    }
    let sealed = begins_sealed(frame.as_slice());
    let mut bytes = frame;
    let from = match text_at(conn.logon.keys.as_ref(), sealed, bytes.as_mut_slice()) {
        Ok(from) => from,
        Err(cause) => return Err(cause),
    };
    match check_all(conn, sealed, bytes.as_slice(), from) {
        Ok(messages) => Ok(CheckedFrame {
            bytes,
            messages,
            sealed,
            moment: now,
        }),
        Err(cause) => Err(cause),
    }
}

/// The same of a frame that stays, of which it takes a copy.
pub fn check(conn: &mut Conn, frame: &[u8], now: u64) -> Result<CheckedFrame, ConnEnd>
    ensures spare { conn.new.spare ≡ conn.old.spare }
    ensures order { IfOk result (λ x. AreInOrder x) }
    ensures denied { IfOk result (λ x. AreDenied x) }
    ensures checks { (k : ℕ) (guid : List ℕ) (f : ServerEnd) → ShowsEnd k guid conn.old f
        → Checks k guid (hearing.check_frame f frame.now) now conn.new result }
{
    match Vec::from_slice(conn.alloc, frame) {
        Ok(bytes) => check_own(conn, bytes, now),
        Err(AllocError) => Err(ConnEnd::Memory),
    }
}
