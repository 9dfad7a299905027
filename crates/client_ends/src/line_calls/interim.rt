//! An interim response, behind which the response still comes (MS-SMB2 3.2.5.1.5).
ghost use Rattle.std.specs.Prelude.{◌≡◌, ◌<◌, ◌^◌, if◌then◌else◌, Some, None, true, false, length};
ghost use Rattle.spec_world.specs.Dialog.{if_response, response_in};
ghost use Rattle.spec_world.specs.Ends.{ClientEnd};
ghost use Rattle.client_ends.specs.ends.Shown.{EndShowsTalk, ShowsLine};
ghost use Rattle.client_ends.specs.line_calls.Interim.{GivesReply, LineGives, TakesInterim, interim_to, is_pending as pending_due};

use crate::dialog_responses::is_pending;
use crate::ends::{Line, LineError};
use crate::line_calls::incoming::{Answer, answered, hear, opened_text, take_reply};
use spec_wire::Header;
use wire_bytes::Bytes;

/// A header, where it is an interim response's.
fn pending_only(header: Header) -> Option<Header>
    ensures { result ≡ (if pending_due header then Some header else None) }
{
    let pending = is_pending(&header);
    if pending {
        return Some(header);
    }
    None
}

/// The header of a message that is an interim response to a request of an operation that waits.
fn interim(line: &Line, m: &[u8]) -> Option<Header>
    ensures { (n : ClientEnd) → EndShowsTalk line.now n → result ≡ interim_to n (if_response (response_in (Some m.now))) }
{
    match answered(line, m) {
        Some(found) => pending_only(found.header),
        None => None,
    }
}

/// Takes an interim response: its credits are paid in, and its request waits on. Another message changes nothing.
fn take_interim(line: &mut Line, m: &[u8]) -> bool
    ensures { (n : ClientEnd) → ShowsLine line.old n
        → TakesInterim n (interim_to n (if_response (response_in (Some m.now)))) line.new result }
{
    match interim(line, m) {
        Some(header) => {
            line.credit(&header);
            true
        }
        None => false,
    }
}

/// On a line that signs an interim response has no signature (3.2.5.1.3).
fn hear_plain(line: &mut Line, frame: &[u8]) -> Result<Option<Answer>, LineError>
    requires { length frame.now < 2 ^ 60 }
    ensures { (n : ClientEnd) → ShowsLine line.old n → line.old.encrypts ≡ false → LineGives n frame.now line.new result }
{
    let taken = take_interim(line, frame);
    if taken {
        return Ok(None);
    }
    match hear(line, frame) {
        Ok(answer) => Ok(Some(answer)),
        Err(why) => Err(why),
    }
}

/// What a frame has in it that opened.
fn hear_opened(line: &mut Line, message: Bytes) -> Result<Option<Answer>, LineError>
    ensures { (n : ClientEnd) → ShowsLine line.old n
        → GivesReply n (interim_to n (if_response (response_in (Some message)))) (if_response (response_in (Some message))) line.new result }
{
    let taken = take_interim(line, message.as_slice());
    if taken {
        return Ok(None);
    }
    match take_reply(line, message) {
        Ok(answer) => Ok(Some(answer)),
        Err(why) => Err(why),
    }
}

fn hear_sealed(line: &mut Line, frame: &[u8]) -> Result<Option<Answer>, LineError>
    ensures { (n : ClientEnd) → ShowsLine line.old n → line.old.encrypts ≡ true → LineGives n frame.now line.new result }
{
    match opened_text(line, frame) {
        Ok(message) => hear_opened(line, message),
        Err(why) => Err(why),
    }
}

/// Takes a reply as `hear` does, or an interim response to a request of an operation that waits: then there is none yet.
pub fn hear_or_wait(line: &mut Line, frame: &[u8]) -> Result<Option<Answer>, LineError>
    requires { length frame.now < 2 ^ 60 }
    ensures { (n : ClientEnd) → ShowsLine line.old n → LineGives n frame.now line.new result }
{
    let encrypts = line.encrypts;
    if encrypts {
        hear_sealed(line, frame)
    } else {
        hear_plain(line, frame)
    }
}
