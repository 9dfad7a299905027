//! The response to NEGOTIATE.
ghost use Rattle.std.specs.Prelude.{◌≡◌, ◌==◌, Bool, true, IfOk};
ghost use Rattle.spec_world.specs.Ends.{ClientEnd};
ghost use Rattle.spec_world.specs.Messages.{has_header, header_in};
ghost use Rattle.client_ends.specs.ends.Shown.{ShowsTalking};
ghost use Rattle.client_ends.specs.response_faults.Judging.{JudgesGreeting, answers_on};

use crate::dialog_responses::greeting;
use crate::ends::Dialog;
use crate::response_faults::form::{answers, due_header};
use spec_crypto::Chosen;
use spec_wire::Header;
use std::alloc::AllocError;
use wire_bytes::Refusal;

const SUCCESS: u32 = 0;

const NEGOTIATE: u16 = 0;

/// A NEGOTIATE that is answered with success: the response's header, and what was chosen.
#[derive(Clone, Copy)]
pub struct Greeted {
    pub header: Header,
    pub chosen: Chosen,
}

fn judge_body(d: &Dialog, header: Header, m: &[u8]) -> Result<Result<Greeted, Refusal>, AllocError>
    ensures { (n : ClientEnd) (bound : Bool) → ShowsTalking d.now n → has_header m.now ≡ true → header_in m.now ≡ header
        → (header.status == 0) ≡ true → answers_on n header 0 ≡ true → IfOk result (λ r. JudgesGreeting d.now.config n bound m.now r) }
{
    let told = greeting(d.line.alloc, &d.config, m)?;
    match told {
        Ok(chosen) => Ok(Ok(Greeted { header, chosen })),
        Err(why) => Ok(Err(why)),
    }
}

fn judge_form(d: &Dialog, header: Header, m: &[u8]) -> Result<Result<Greeted, Refusal>, AllocError>
    ensures { (n : ClientEnd) (bound : Bool) → ShowsTalking d.now n → has_header m.now ≡ true → header_in m.now ≡ header
        → (header.status == 0) ≡ true → IfOk result (λ r. JudgesGreeting d.now.config n bound m.now r) }
{
    let fits = answers(&d.line, &header, NEGOTIATE);
    if fits {
        judge_body(d, header, m)
    } else {
        Ok(Err(Refusal::BadToken))
    }
}

/// What the response to NEGOTIATE comes to, `m` being its message from the header on.
pub fn judge_greeting(d: &Dialog, m: &[u8]) -> Result<Result<Greeted, Refusal>, AllocError>
    ensures { (n : ClientEnd) (bound : Bool) → ShowsTalking d.now n → IfOk result (λ r. JudgesGreeting d.now.config n bound m.now r) }
{
    match due_header(m, SUCCESS) {
        Ok(header) => judge_form(d, header, m),
        Err(why) => Ok(Err(why)),
    }
}
