//! A reply on a line.
ghost use Rattle.std.specs.Prelude.{◌≡◌, ◌≤◌, ◌<◌, ◌^◌, Some, true, false, length, MatchOption};
ghost use Rattle.crypto_sessions.specs.session_keys.Sealing.{HasCipher};
ghost use Rattle.spec_world.specs.Ends.{ClientEnd};
ghost use Rattle.spec_world.specs.Dialog.{if_response, is_dialogs, is_response as response_due, line_response, line_text, response_in};
ghost use Rattle.client_ends.specs.ends.Shown.{ShowsLine, ShowsSeals, EndShowsTalk, token_of};
ghost use Rattle.client_ends.specs.line_calls.Hearing.{LineHears, IsLineAnswer, IsLineOther, IsUnsealed, Texts};
ghost use Rattle.client_ends.specs.line_calls.Hearing.{LineUnanswered, Unheard, Waits};

use crate::dialog_responses::is_response;
use crate::ends::{Line, LineError, heard_header};
use crate::line_calls::outgoing::has_cipher;
use crypto_sessions::{SealError, unseal, verify};
use wire_bytes::{Bytes, Header};

/// A reply: the token of the request that it answers, its header, and its message, from the header on.
#[derive(Drop)]
pub struct Answer {
    pub token: u64,
    pub header: Header,
    pub message: Bytes,
}

/// The message in a frame that opens, under keys of a cipher.
fn opened_under(line: &Line, frame: &[u8]) -> Result<Bytes, LineError>
    requires { HasCipher line.now.keys }
    ensures { (n : ClientEnd) → ShowsSeals line.now n → line.now.encrypts ≡ true → Texts (line_text n frame.now) result }
{
    match unseal(line.alloc, &line.keys, false, frame) {
        Ok(text) => Ok(text),
        Err(why) => Err(why_unsealed(why)),
    }
}

/// Why a frame doesn't open: memory ran out, or it isn't sealed by the server under these keys.
fn why_unsealed(why: SealError) -> LineError
    ensures { IsUnsealed why result }
{
    match why {
        SealError::Memory => LineError::Memory,
        SealError::NotSealed => LineError::BadReply,
        SealError::BadSize(_) => LineError::BadReply,
        SealError::OtherSession(_) => LineError::BadReply,
        SealError::BadTag => LineError::BadReply,
    }
}

/// The message in a frame that opens.
pub(crate) fn opened_text(line: &Line, frame: &[u8]) -> Result<Bytes, LineError>
    ensures { (n : ClientEnd) → ShowsSeals line.now n → line.now.encrypts ≡ true → Texts (line_text n frame.now) result }
{
    let ciphered = has_cipher(&line.keys);
    if ciphered {
        opened_under(line, frame)
    } else {
        Err(LineError::BadReply)
    }
}

/// The message in a frame that has a header's length and verifies.
fn verified_long(line: &Line, frame: &[u8]) -> Result<Bytes, LineError>
    requires whole { 64 ≤ length frame.now }
    requires short { length frame.now < 2 ^ 60 }
    ensures { (n : ClientEnd) → ShowsSeals line.now n → line.now.encrypts ≡ false → Texts (line_text n frame.now) result }
{
    let verified = verify(&line.keys.signing, frame);
    if verified {
        match Bytes::from_slice(line.alloc, frame) {
            Ok(text) => Ok(text),
            Err(_) => Err(LineError::Memory),
        }
    } else {
        Err(LineError::BadReply)
    }
}

/// The message in a frame that verifies.
fn verified_text(line: &Line, frame: &[u8]) -> Result<Bytes, LineError>
    requires { length frame.now < 2 ^ 60 }
    ensures { (n : ClientEnd) → ShowsSeals line.now n → line.now.encrypts ≡ false → Texts (line_text n frame.now) result }
{
    let size = frame.len();
    if size < 64 {
        Err(LineError::BadReply)
    } else {
        verified_long(line, frame)
    }
}

/// The message in a frame, which opens where the line seals, and else verifies.
fn text_of(line: &Line, frame: &[u8]) -> Result<Bytes, LineError>
    requires { length frame.now < 2 ^ 60 }
    ensures { (n : ClientEnd) → ShowsSeals line.now n → Texts (line_text n frame.now) result }
{
    let encrypts = line.encrypts;
    if encrypts {
        opened_text(line, frame)
    } else {
        verified_text(line, frame)
    }
}

/// What a message answers.
#[derive(Clone, Copy)]
pub(crate) struct Found {
    pub header: Header,
    pub token: u64,
}

/// A request that waits, where it isn't the dialog's.
fn given(header: Header, token: u64) -> Option<Found>
    ensures { MatchOption result (is_dialogs (Some (token_of token)) ≡ true)
        (λ a. (a.header ≡ header) × (a.token ≡ token) × (is_dialogs (Some (token_of token)) ≡ false)) }
{
    if token == 0 {
        return None;
    }
    Some(Found { header, token })
}

/// The request that a response answers, where it is one of an operation.
fn awaited(line: &Line, header: Header) -> Option<Found>
    ensures { (n : ClientEnd) → EndShowsTalk line.now n
        → MatchOption result (IsLineOther (n.awaited header.message)) (λ a. Waits n header a.header a.token) }
{
    match line.token_for(header.message) {
        Some(token) => given(header, token),
        None => None,
    }
}

fn answered_by(line: &Line, header: Header) -> Option<Found>
    ensures { (n : ClientEnd) → EndShowsTalk line.now n
        → MatchOption result (LineUnanswered (response_due header) (n.awaited header.message))
        (λ a. (response_due header ≡ true) × Waits n header a.header a.token) }
{
    // Without this test the client's own request, sent back to it, would verify.
    let responds = is_response(&header);
    if responds {
        awaited(line, header)
    } else {
        None
    }
}

/// The request that a message answers, where it is a response to one of an operation.
pub(crate) fn answered(line: &Line, m: &[u8]) -> Option<Found>
    ensures { (n : ClientEnd) → EndShowsTalk line.now n
        → MatchOption result (Unheard n (if_response (response_in (Some m.now)))) (λ a. IsLineAnswer n m.now a.header a.token) }
{
    match heard_header(m) {
        Some(header) => answered_by(line, header),
        None => None,
    }
}

/// A message is taken.
pub(crate) fn take_reply(line: &mut Line, message: Bytes) -> Result<Answer, LineError>
    ensures { (n : ClientEnd) → ShowsLine line.old n → LineHears n (if_response (response_in (Some message))) line.new result }
{
    match answered(line, message.as_slice()) {
        Some(answer) => {
            line.pay_in(&answer.header);
            Ok(Answer {
                token: answer.token,
                header: answer.header,
                message,
            })
        }
        None => Err(LineError::BadReply),
    }
}

/// Takes a reply: its credits are paid in, and its request waits no more. `BadReply` comes exactly where the frame doesn't
/// open or verify, doesn't read, or answers no request of an operation that waits; the line then stays as it is, also
/// where memory runs out.
pub fn hear(line: &mut Line, frame: &[u8]) -> Result<Answer, LineError>
    requires { length frame.now < 2 ^ 60 }
    ensures { (n : ClientEnd) → ShowsLine line.old n → LineHears n (line_response n frame.now) line.new result }
{
    // Opened or verified before anything in it is believed, its credits too.
    match text_of(line, frame) {
        Ok(message) => take_reply(line, message),
        Err(why) => Err(why),
    }
}
