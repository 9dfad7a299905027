//! A dialog that hears.
ghost use Rattle.std.specs.Prelude.{◌≡◌, ◌≤◌, ◌<◌, ◌^◌, ℕ, true, false, length, is_some, nat_lt, Some, Ok, IfOk, OnErr};
ghost use Rattle.spec_exchange.specs.Client.{SaidNegotiate, SaidFirst, SaidSecond, AskedTree};
ghost use Rattle.wire_bytes.specs.declared.session_messages.refusal.Refusal.{Refusal as RefusalTold};
ghost use Rattle.wire_bytes.specs.declared.session_messages.refusal.Refusal.TheVariants as refusals;
ghost use Rattle.crypto_sessions.specs.session_keys.Sealing.{HasCipher};
ghost use Rattle.spec_world.specs.Ends.{ClientEnd};
ghost use Rattle.spec_world.specs.Dialog.{response_in};
ghost use Rattle.client_ends.specs.ends.Shown.{ShowsDialog, ShowsLine, ShowsTalking};
ghost use Rattle.client_ends.specs.declared.ends.dialog.Stage.TheVariants as stages;
ghost use Rattle.client_ends.specs.response_faults.Judging.{JudgesFinal, JudgesGreeting, JudgesInterim};
ghost use Rattle.client_ends.specs.declared.dialog_calls.heard.Heard.TheVariants as heards;
ghost use Rattle.client_ends.specs.dialog_calls.Ending.{IsLacking};
ghost use Rattle.client_ends.specs.dialog_calls.Turning.{DialogHears, HearsMessage, IsDialogRefused, JoinsAs};

use crate::dialog_calls::ending::{accept, bind, ready};
use crate::dialog_calls::going::{note, refuse, say_setup};
use crate::dialog_calls::heard::Heard;
use crate::ends::{Dialog, Stage};
use crate::line_calls::has_cipher;
use crate::response_faults::{
    Begun, Ended, Greeted, judge_final, judge_greeting, judge_interim, judge_tree,
};
use crate::tokens::first_token;
use crypto_sessions::{SealError, chain_law, unseal};
use std::alloc::AllocError;
use wire_bytes::{Bytes, Refusal};

/// A credit is left for the next request.
fn has_credit(d: &Dialog) -> bool
    ensures some { result ≡ nat_lt 0 d.now.line.purse.held }
    ensures held { result ≡ true → 1 ≤ d.now.line.purse.held }
{
    d.line.credits() > 0
}

/// NEGOTIATE was answered: a SESSION_SETUP goes out, with a first token.
fn take_greeting(d: &mut Dialog, told: &Greeted, m: &[u8]) -> Result<Heard, AllocError>
    ensures { (n : ClientEnd) (number : ℕ) → ShowsTalking d.old n → JudgesGreeting d.old.config n (is_some d.old.bound) m.now (Ok told.now)
        → IfOk result (λ h. HearsMessage (SaidNegotiate (is_some d.old.bound)) d.old n (response_in (Some m.now)) number d.new h) }
{
    chain_law();
    note(d, &told.header, m);
    d.chosen = told.chosen;
    // An attacker may zero the credits of this unsigned response: without the test the client would send a message id
    // that the server doesn't hold.
    let some = has_credit(d);
    if some {
        let token = first_token(d.line.alloc)?;
        let said = say_setup(d, token.as_slice(), Stage::SaidFirst)?;
        Ok(said)
    } else {
        Ok(refuse(d, Refusal::BadToken))
    }
}

/// The response to NEGOTIATE.
fn hear_greeting(d: &mut Dialog, m: &[u8]) -> Result<Heard, AllocError>
    ensures { (n : ClientEnd) (number : ℕ) → ShowsTalking d.old n
        → IfOk result (λ h. HearsMessage (SaidNegotiate (is_some d.old.bound)) d.old n (response_in (Some m.now)) number d.new h) }
{
    let told = judge_greeting(d, m)?;
    match told {
        Ok(told) => take_greeting(d, &told, m),
        Err(why) => Ok(refuse(d, why)),
    }
}

/// The logon goes on: a SESSION_SETUP goes out, with the answer to the interim token. The response tells the id of a session in
/// the making.
fn say_answer(d: &mut Dialog, told: &Begun, m: &[u8]) -> Result<Heard, AllocError>
    requires { length told.now.token < 65536 }
    ensures { (n : ClientEnd) (number : ℕ) → ShowsTalking d.old n → JudgesInterim d.old.config n (is_some d.old.bound) m.now (Ok told.now)
        → IfOk result (λ h. HearsMessage (SaidFirst (is_some d.old.bound)) d.old n (response_in (Some m.now)) number d.new h) }
{
    chain_law();
    note(d, &told.header, m);
    d.session = told.header.session;
    let some = has_credit(d);
    if some {
        let said = say_setup(d, told.token.as_slice(), Stage::SaidSecond)?;
        Ok(said)
    } else {
        Ok(refuse(d, Refusal::BadToken))
    }
}

/// The same of a token whose length fits its field, which the answer's does.
fn take_challenge(d: &mut Dialog, told: &Begun, m: &[u8]) -> Result<Heard, AllocError>
    ensures { (n : ClientEnd) (number : ℕ) → ShowsTalking d.old n → JudgesInterim d.old.config n (is_some d.old.bound) m.now (Ok told.now)
        → IfOk result (λ h. HearsMessage (SaidFirst (is_some d.old.bound)) d.old n (response_in (Some m.now)) number d.new h) }
{
    let size = told.token.len();
    if size < 65_536 {
        say_answer(d, told, m)
    } else {
        Ok(refuse(d, Refusal::BadToken))
    }
}

/// The interim response.
fn hear_interim(d: &mut Dialog, m: &[u8]) -> Result<Heard, AllocError>
    requires { length m.now < 2 ^ 60 }
    ensures { (n : ClientEnd) (number : ℕ) → ShowsTalking d.old n
        → IfOk result (λ h. HearsMessage (SaidFirst (is_some d.old.bound)) d.old n (response_in (Some m.now)) number d.new h) }
{
    let told = judge_interim(d, m)?;
    match told {
        Ok(told) => take_challenge(d, &told, m),
        Err(why) => Ok(refuse(d, why)),
    }
}

/// The logon has ended: the session is accepted, or the channel bound.
fn take_end(d: &mut Dialog, told: &Ended, m: &[u8], channel: u16) -> Result<Heard, AllocError>
    ensures { (n : ClientEnd) → ShowsTalking d.old n
        → JudgesFinal d.old.config n (is_some d.old.bound) d.old.session m.now (Ok told.now)
        → IfOk result (λ h. HearsMessage (SaidSecond (is_some d.old.bound)) d.old n (response_in (Some m.now)) channel d.new h) }
{
    // Not hashed as the responses before it: the keys are of the chain up to the last request, and sign this
    // response.
    d.line.pay_in(&told.header);
    let bound = d.bound.is_some();
    if bound {
        return Ok(bind(d, told, channel));
    }
    let some = has_credit(d);
    if some {
        accept(d, told)
    } else {
        Ok(refuse(d, Refusal::BadToken))
    }
}

/// The final response.
fn hear_final(d: &mut Dialog, m: &[u8], channel: u16) -> Result<Heard, AllocError>
    requires { length m.now < 2 ^ 60 }
    ensures { (n : ClientEnd) → ShowsTalking d.old n
        → IfOk result (λ h. HearsMessage (SaidSecond (is_some d.old.bound)) d.old n (response_in (Some m.now)) channel d.new h) }
{
    let told = judge_final(d, m)?;
    match told {
        Ok(told) => take_end(d, &told, m, channel),
        Err(why) => Ok(refuse(d, why)),
    }
}

/// The response to TREE_CONNECT, by its message: the channel is ready.
fn take_tree(d: &mut Dialog, m: &[u8]) -> Heard
    requires { length m.now < 2 ^ 60 }
    ensures { (n : ClientEnd) (number : ℕ) → ShowsLine d.old.line n
        → HearsMessage AskedTree d.old n (response_in (Some m.now)) number d.new result }
{
    match judge_tree(&d.line, m) {
        Ok(header) => {
            d.line.pay_in(&header);
            let session = d.session;
            ready(d, session, header.tree)
        }
        Err(why) => refuse(d, why),
    }
}

/// Whether a frame wasn't opened for want of memory.
fn is_lacking(why: SealError) -> bool
    ensures { IsLacking why result }
{
    match why {
        SealError::Memory => true,
        SealError::NotSealed => false,
        SealError::BadSize(_) => false,
        SealError::OtherSession(_) => false,
        SealError::BadTag => false,
    }
}

/// The same of a message that was opened.
fn take_opened(d: &mut Dialog, text: &Bytes) -> Heard
    requires { length text.now < 2 ^ 60 }
    ensures { (n : ClientEnd) (number : ℕ) → ShowsLine d.old.line n
        → HearsMessage AskedTree d.old n (response_in (Some text.now)) number d.new result }
{
    take_tree(d, text.as_slice())
}

/// A frame that doesn't open.
fn take_unopened(d: &mut Dialog, why: SealError) -> Result<Heard, AllocError>
    ensures refused { IfOk result (λ h. IsDialogRefused refusals.BadToken d.new h) }
    ensures lacking { IfOk result (λ h. IsLacking why false) }
{
    let lacks = is_lacking(why);
    if lacks {
        return Err(AllocError);
    }
    Ok(refuse(d, Refusal::BadToken))
}

/// The same of a frame, under keys of a cipher.
fn open_tree(d: &mut Dialog, frame: &[u8]) -> Result<Heard, AllocError>
    requires short { length frame.now < 2 ^ 60 }
    requires cipher { HasCipher d.old.line.keys }
    ensures { (n : ClientEnd) (number : ℕ) → ShowsLine d.old.line n → d.old.line.encrypts ≡ true
        → IfOk result (λ h. DialogHears AskedTree d.old n frame.now number d.new h) }
{
    match unseal(d.line.alloc, &d.line.keys, false, frame) {
        Ok(text) => Ok(take_opened(d, &text)),
        Err(why) => take_unopened(d, why),
    }
}

/// The same of a frame. Where a line seals it has a cipher.
fn hear_sealed(d: &mut Dialog, frame: &[u8]) -> Result<Heard, AllocError>
    requires { length frame.now < 2 ^ 60 }
    ensures { (n : ClientEnd) (number : ℕ) → ShowsLine d.old.line n → d.old.line.encrypts ≡ true
        → IfOk result (λ h. DialogHears AskedTree d.old n frame.now number d.new h) }
{
    let ciphered = has_cipher(&d.line.keys);
    if ciphered {
        open_tree(d, frame)
    } else {
        Ok(refuse(d, Refusal::BadToken))
    }
}

/// The response to TREE_CONNECT, which opens where the session's messages are sealed.
fn hear_tree(d: &mut Dialog, frame: &[u8]) -> Result<Heard, AllocError>
    requires { length frame.now < 2 ^ 60 }
    ensures { (n : ClientEnd) (number : ℕ) → ShowsLine d.old.line n
        → IfOk result (λ h. DialogHears AskedTree d.old n frame.now number d.new h) }
{
    let encrypts = d.line.encrypts;
    if encrypts {
        hear_sealed(d, frame)
    } else {
        Ok(take_tree(d, frame))
    }
}

/// A channel that is bound is ready.
fn joined(d: &mut Dialog) -> Heard
    ensures { (n : ClientEnd) → ShowsLine d.old.line n → JoinsAs d.old.bound n d.new result }
{
    match d.bound {
        Some(bound) => ready(d, bound.session, bound.tree),
        None => refuse(d, Refusal::BadToken),
    }
}

/// Hears a response, and tells what the dialog comes to. `channel` is the number that a bound channel's nonces carry. A
/// dialog that was refused answers so from then on, and one that gave its line away is over, and answers that its response
/// is none that was asked for: both stay as they are. A bound channel is ready without memory. A dialog that found no memory
/// isn't used again.
pub fn hear(d: &mut Dialog, message: &[u8], channel: u16) -> Result<Heard, AllocError>
    requires { length message.now < 2 ^ 60 }
    ensures heard { (n : ClientEnd) → ShowsDialog d.old n → IfOk result (λ h. DialogHears n.stage d.old n message.now channel d.new h) }
    ensures refused { (why : RefusalTold) → d.old.stage ≡ stages.Refused why
        → (result ≡ Ok (heards.Refused why)) × (d.new ≡ d.old) }
    ensures over { d.old.stage ≡ stages.Over → (result ≡ Ok (heards.Refused refusals.BadToken)) × (d.new ≡ d.old) }
    ensures joined { d.old.stage ≡ stages.Joined → OnErr result ⊥ }
{
    match d.stage {
        Stage::SaidNegotiate => hear_greeting(d, message),
        Stage::SaidFirst => hear_interim(d, message),
        Stage::SaidSecond => hear_final(d, message, channel),
        Stage::AskedTree => hear_tree(d, message),
        Stage::Joined => Ok(joined(d)),
        Stage::Refused(why) => Ok(Heard::Refused(why)),
        Stage::Over => Ok(Heard::Refused(Refusal::BadToken)),
    }
}
