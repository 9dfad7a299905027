//! What the messages of a frame hand on, and take over.
ghost use Rattle.std.specs.Prelude.{◌≡◌, ◌≤◌, ◌<◌, ◌++◌, None, Some, slice_get, slice_set, option_copied, option_map, length, take, drop};
ghost use Rattle.spec_world.specs.Hearing as hearing;
ghost use Rattle.spec_world.specs.Related.{failed_as, turn_of, with_file};
ghost use Rattle.conn_core.specs.declared.frame_messages.checked.Checked.{Checked};
ghost use Rattle.conn_core.specs.frame_messages.Checking.{AreDenied, AreInOrder, HasMessage, bytes_of, holds_setup, message_in};
ghost use Rattle.conn_core.specs.related.Carrying.{carry_of, IsCarried, RelatedCarries, Inherits, SameOthers, TakesOver};

use crate::frame_messages::{Checked, CheckedFrame};
use crate::related::related::{Carry, behind_answer, behind_none, can_follow, put_file};
use crate::served::{Reply, ServeError};
use wire_bytes::Span;

/// What a message and its answer hand on to a related one (MS-SMB2 3.3.5.2.7.2). `before` is what the message in front
/// of it handed on. NEGOTIATE, ECHO and CANCEL, which have no event, have no answer here. It takes no memory.
pub fn carry(
    frame: &CheckedFrame,
    at: usize,
    before: &Option<Carry>,
    answer: Option<&Result<Reply, ServeError>>,
) -> Carry
    requires { HasMessage frame.now at }
    ensures { (m : Checked) (c : hearing.Checked) → slice_get frame.now.messages.items at ≡ Some m
        → IsCarried m (message_in frame.now.bytes.items m) c
        → RelatedCarries (option_map carry_of before.now) c (option_copied answer.entry) result }
{
    let checked = frame.checked(at);
    let message = frame.message(at);
    match answer {
        None => behind_none(before, checked, message),
        Some(answer) => behind_answer(before, checked, message, answer),
    }
}

/// A related message takes over the session and the tree; it fails where it names an open and the last CREATE failed.
fn take_over(checked: &mut Checked, before: &Carry) -> bool
    ensures { TakesOver checked.old before.now result checked.new }
{
    checked.header.session = before.session;
    checked.header.tree = before.tree;
    if can_follow(checked, before) {
        return true;
    }
    checked.fails = Some(before.status);
    false
}

fn put_message(frame: &mut CheckedFrame, at: usize, checked: Checked)
    requires { at < length frame.old.messages.items }
    ensures list { frame.new.messages.items ≡ slice_set frame.old.messages.items at checked }
    ensures rest { (frame.new.bytes.items ≡ frame.old.bytes.items) × (frame.new.sealed ≡ frame.old.sealed)
        × (frame.new.moment ≡ frame.old.moment) }
{
    frame.messages[at] = checked;
}

/// Puts a FileId into the request at a place.
#[tactic(auto, using(crate::proofs::related::Placed::put_there))]
fn put_file_at(bytes: &mut [u8], span: &Span, command: u16, file: &[u8; 16])
    requires { (span.now.start ≤ span.now.end) × (span.now.end ≤ length bytes.old) }
    ensures put { bytes.new ≡ take span.now.start bytes.old ++ (with_file command file.now (bytes_of bytes.old span.now)
        ++ drop span.now.end bytes.old) }
    ensures long { length bytes.new ≡ length bytes.old }
{
    put_file(command, file, &mut bytes[span.start..span.end]);
}

/// Puts a FileId into the request at a place of a frame.
fn put_file_in(frame: &mut CheckedFrame, span: &Span, command: u16, file: &[u8; 16])
    requires { (span.now.start ≤ span.now.end) × (span.now.end ≤ length frame.old.bytes.items) }
    ensures bytes { frame.new.bytes.items ≡ take span.now.start frame.old.bytes.items
        ++ (with_file command file.now (bytes_of frame.old.bytes.items span.now) ++ drop span.now.end frame.old.bytes.items) }
    ensures long { length frame.new.bytes.items ≡ length frame.old.bytes.items }
    ensures rest { (frame.new.messages.items ≡ frame.old.messages.items) × (frame.new.sealed ≡ frame.old.sealed)
        × (frame.new.moment ≡ frame.old.moment) }
{
    put_file_at(frame.bytes.as_mut_slice(), span, command, file);
}

/// Puts what was handed on into a message, where it is related: the session, the tree and the FileId. False exactly
/// where it names an open and the last CREATE before it in its chain failed; it then fails with the same status, and
/// tells the session and the tree of that one. It takes no memory.
pub fn inherit(frame: &mut CheckedFrame, at: usize, before: &Carry) -> bool
    requires { HasMessage frame.old at }
    ensures turn { (m n : Checked) (c : hearing.Checked) → slice_get frame.old.messages.items at ≡ Some m
        → slice_get frame.new.messages.items at ≡ Some n → IsCarried m (message_in frame.old.bytes.items m) c → c.related ≡ m.related
        → m.fails ≡ None → Inherits (turn_of (Some (carry_of before.now)) c) result (failed_as (Some (carry_of before.now)) c) n
        (message_in frame.new.bytes.items n) }
    ensures place { (m n : Checked) → slice_get frame.old.messages.items at ≡ Some m
        → slice_get frame.new.messages.items at ≡ Some n → (n.span ≡ m.span) × (n.related ≡ m.related) }
    ensures others { SameOthers at frame.old frame.new }
    ensures order { AreInOrder frame.old → AreInOrder frame.new }
    ensures denied { AreDenied frame.old → AreDenied frame.new }
    ensures setups { holds_setup frame.new.messages.items ≡ holds_setup frame.old.messages.items }
{
    let mut checked = *frame.checked(at);
    let is_related = checked.related;
    if !is_related {
        return true;
    }
    let goes = take_over(&mut checked, before);
    put_message(frame, at, checked);
    if !goes {
        return false;
    }
    put_file_in(frame, &checked.span, checked.header.command, &before.file);
    true
}
