//! The responses to SESSION_SETUP.
ghost use Rattle.std.specs.Prelude.{◌≡◌, ◌≤◌, ◌<◌, ◌^◌, ◌==◌, Some, true, length, is_none, is_some, IfOk};
ghost use Rattle.spec_wire.specs.messages.SessionSetup.{session_setup_response_fault};
ghost use Rattle.spec_world.specs.Ends.{ClientEnd};
ghost use Rattle.spec_world.specs.Messages.{has_header, header_in};
ghost use Rattle.spec_world.specs.Sending.{answer_of};
ghost use Rattle.spec_world.specs.Dialog.{own_final, setup_flags, setup_token};
ghost use Rattle.client_ends.specs.ends.Shown.{ShowsTalking, settings_of};
ghost use Rattle.client_ends.specs.response_faults.Judging.{IsFlagged, IsResponseKey, IsSigned, JudgesFinal, JudgesInterim, answers_on};

use crate::dialog_responses::{SetupTold, flags_fit, seals, setup_told};
use crate::ends::Dialog;
use crate::response_faults::form::{answers, due_header};
use crate::tokens::{answer_token, is_final};
use crypto_sessions::{Credentials, Keys, bind, derive, verify};
use spec_wire::Header;
use std::alloc::AllocError;
use wire_bytes::{Bytes, Choice, Refusal};

const SUCCESS: u32 = 0;

/// STATUS_MORE_PROCESSING_REQUIRED (MS-ERREF 2.3.1)
const MORE_PROCESSING: u32 = 0xc000_0016;

const SESSION_SETUP: u16 = 1;

/// An interim response that is answered: its header, and the token that answers its own.
#[derive(Drop)]
pub struct Begun {
    pub header: Header,
    pub token: Bytes,
}

/// A final response that ends the logon: its header, the keys behind it, and whether its session's messages are sealed.
#[derive(Clone, Copy)]
pub struct Ended {
    pub header: Header,
    pub keys: Keys,
    pub encrypts: bool,
}

/// The answer to an interim token.
fn answer_to(d: &Dialog, told: &SetupTold<'_>) -> Result<Option<Bytes>, AllocError>
    ensures { (n : ClientEnd) → ShowsTalking d.now n
        → IfOk result (λ t. t ≡ answer_of (settings_of d.now.config) n told.now.token.now) }
{
    let answer = answer_token(
        d.line.alloc,
        &Credentials {
            user: d.config.user.as_str(),
            password: d.config.password.as_str(),
            domain: "",
            challenge: d.challenge,
            key: d.base,
        },
        told.token,
    )?;
    Ok(answer)
}

/// Whether the dialog binds a channel.
fn binds(d: &Dialog) -> bool
    ensures { result ≡ is_some d.now.bound }
{
    match &d.bound {
        Some(_) => true,
        None => false,
    }
}

/// In a binding the interim response has the session's signature.
fn judge_bound(d: &Dialog, header: Header, token: Bytes, m: &[u8]) -> Result<Begun, Refusal>
    requires whole { 64 ≤ length m.now }
    requires short { length m.now < 2 ^ 60 }
    ensures { IsSigned d.now.line.keys.signing header token m.now result }
{
    let signed = verify(&d.line.keys.signing, m);
    if signed {
        Ok(Begun { header, token })
    } else {
        Err(Refusal::BadSignature)
    }
}

fn judge_signed(d: &Dialog, header: Header, token: Bytes, m: &[u8]) -> Result<Begun, Refusal>
    requires whole { 64 ≤ length m.now }
    requires short { length m.now < 2 ^ 60 }
    ensures { (n : ClientEnd) → ShowsTalking d.now n → has_header m.now ≡ true → header_in m.now ≡ header
        → (header.status == 0xc000_0016) ≡ true → answers_on n header 1 ≡ true → is_none (session_setup_response_fault m.now) ≡ true
        → answer_of (settings_of d.now.config) n (setup_token m.now) ≡ Some token
        → JudgesInterim d.now.config n (is_some d.now.bound) m.now result }
{
    let bound = binds(d);
    if bound {
        judge_bound(d, header, token, m)
    } else {
        Ok(Begun { header, token })
    }
}

fn judge_token(
    d: &Dialog,
    header: Header,
    told: &SetupTold<'_>,
    m: &[u8],
) -> Result<Result<Begun, Refusal>, AllocError>
    requires whole { 64 ≤ length m.now }
    requires short { length m.now < 2 ^ 60 }
    ensures { (n : ClientEnd) → ShowsTalking d.now n → has_header m.now ≡ true → header_in m.now ≡ header
        → (header.status == 0xc000_0016) ≡ true → answers_on n header 1 ≡ true → is_none (session_setup_response_fault m.now) ≡ true
        → told.now.token.now ≡ setup_token m.now → IfOk result (λ r. JudgesInterim d.now.config n (is_some d.now.bound) m.now r) }
{
    let answer = answer_to(d, told)?;
    match answer {
        Some(token) => Ok(judge_signed(d, header, token, m)),
        None => Ok(Err(Refusal::BadToken)),
    }
}

fn judge_interim_body(
    d: &Dialog,
    header: Header,
    m: &[u8],
) -> Result<Result<Begun, Refusal>, AllocError>
    requires whole { 64 ≤ length m.now }
    requires short { length m.now < 2 ^ 60 }
    ensures { (n : ClientEnd) → ShowsTalking d.now n → has_header m.now ≡ true → header_in m.now ≡ header
        → (header.status == 0xc000_0016) ≡ true → answers_on n header 1 ≡ true
        → IfOk result (λ r. JudgesInterim d.now.config n (is_some d.now.bound) m.now r) }
{
    match setup_told(m) {
        Some(told) => judge_token(d, header, &told, m),
        None => Ok(Err(Refusal::BadToken)),
    }
}

fn judge_interim_form(
    d: &Dialog,
    header: Header,
    m: &[u8],
) -> Result<Result<Begun, Refusal>, AllocError>
    requires whole { 64 ≤ length m.now }
    requires short { length m.now < 2 ^ 60 }
    ensures { (n : ClientEnd) → ShowsTalking d.now n → has_header m.now ≡ true → header_in m.now ≡ header
        → (header.status == 0xc000_0016) ≡ true → IfOk result (λ r. JudgesInterim d.now.config n (is_some d.now.bound) m.now r) }
{
    let fits = answers(&d.line, &header, SESSION_SETUP);
    if fits {
        judge_interim_body(d, header, m)
    } else {
        Ok(Err(Refusal::BadToken))
    }
}

/// What the first response to SESSION_SETUP comes to, `m` being its message from the header on.
pub fn judge_interim(d: &Dialog, m: &[u8]) -> Result<Result<Begun, Refusal>, AllocError>
    requires { length m.now < 2 ^ 60 }
    ensures { (n : ClientEnd) → ShowsTalking d.now n
        → IfOk result (λ r. JudgesInterim d.now.config n (is_some d.now.bound) m.now r) }
{
    match due_header(m, MORE_PROCESSING) {
        Ok(header) => judge_interim_form(d, header, m),
        Err(why) => Ok(Err(why)),
    }
}

/// The keys behind the final response.
fn final_keys(d: &Dialog) -> Keys
    ensures { (n : ClientEnd) → ShowsTalking d.now n → result ≡ own_final n (is_some d.now.bound) d.now.session }
{
    let bound = binds(d);
    let value = d.chain.value();
    if bound {
        bind(&d.base, &value, &d.line.keys)
    } else {
        derive(&d.base, &value, &d.chosen, d.session)
    }
}

/// SessionFlags come last.
fn judge_flags(keys: Keys, header: Header, flags: u16) -> Result<Ended, Refusal>
    ensures { IsFlagged keys header flags result }
{
    let fits = flags_fit(flags, keys.cipher);
    if fits {
        Ok(Ended {
            header,
            keys,
            encrypts: seals(flags),
        })
    } else {
        Err(Refusal::BadChoice(Choice::SessionFlags))
    }
}

/// The signature under the keys that it makes, and then SessionFlags.
fn judge_keys(keys: Keys, header: Header, flags: u16, m: &[u8]) -> Result<Ended, Refusal>
    requires whole { 64 ≤ length m.now }
    requires short { length m.now < 2 ^ 60 }
    ensures { IsResponseKey keys header flags m.now result }
{
    // Before SessionFlags, which could be anybody's without it.
    let signed = verify(&keys.signing, m);
    if signed {
        judge_flags(keys, header, flags)
    } else {
        Err(Refusal::BadSignature)
    }
}

fn judge_end(
    d: &Dialog,
    header: Header,
    told: &SetupTold<'_>,
    m: &[u8],
) -> Result<Result<Ended, Refusal>, AllocError>
    requires whole { 64 ≤ length m.now }
    requires short { length m.now < 2 ^ 60 }
    ensures { (n : ClientEnd) → ShowsTalking d.now n → has_header m.now ≡ true → header_in m.now ≡ header
        → (header.status == 0) ≡ true → answers_on n header 1 ≡ true → is_none (session_setup_response_fault m.now) ≡ true
        → told.now.token.now ≡ setup_token m.now → told.now.flags ≡ setup_flags m.now
        → IfOk result (λ r. JudgesFinal d.now.config n (is_some d.now.bound) d.now.session m.now r) }
{
    let ends = is_final(d.line.alloc, &d.base, told.token)?;
    if ends {
        Ok(judge_keys(final_keys(d), header, told.flags, m))
    } else {
        Ok(Err(Refusal::BadToken))
    }
}

fn judge_final_body(
    d: &Dialog,
    header: Header,
    m: &[u8],
) -> Result<Result<Ended, Refusal>, AllocError>
    requires whole { 64 ≤ length m.now }
    requires short { length m.now < 2 ^ 60 }
    ensures { (n : ClientEnd) → ShowsTalking d.now n → has_header m.now ≡ true → header_in m.now ≡ header
        → (header.status == 0) ≡ true → answers_on n header 1 ≡ true
        → IfOk result (λ r. JudgesFinal d.now.config n (is_some d.now.bound) d.now.session m.now r) }
{
    match setup_told(m) {
        Some(told) => judge_end(d, header, &told, m),
        None => Ok(Err(Refusal::BadToken)),
    }
}

fn judge_final_form(
    d: &Dialog,
    header: Header,
    m: &[u8],
) -> Result<Result<Ended, Refusal>, AllocError>
    requires whole { 64 ≤ length m.now }
    requires short { length m.now < 2 ^ 60 }
    ensures { (n : ClientEnd) → ShowsTalking d.now n → has_header m.now ≡ true → header_in m.now ≡ header
        → (header.status == 0) ≡ true → IfOk result (λ r. JudgesFinal d.now.config n (is_some d.now.bound) d.now.session m.now r) }
{
    let fits = answers(&d.line, &header, SESSION_SETUP);
    if fits {
        judge_final_body(d, header, m)
    } else {
        Ok(Err(Refusal::BadToken))
    }
}

/// What the second response to SESSION_SETUP comes to: it ends the logon, and has the signature of the keys behind it.
pub fn judge_final(d: &Dialog, m: &[u8]) -> Result<Result<Ended, Refusal>, AllocError>
    requires { length m.now < 2 ^ 60 }
    ensures { (n : ClientEnd) → ShowsTalking d.now n
        → IfOk result (λ r. JudgesFinal d.now.config n (is_some d.now.bound) d.now.session m.now r) }
{
    match due_header(m, SUCCESS) {
        Ok(header) => judge_final_form(d, header, m),
        Err(why) => Ok(Err(why)),
    }
}
