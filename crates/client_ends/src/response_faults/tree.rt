//! The response to TREE_CONNECT.
ghost use Rattle.std.specs.Prelude.{◌≡◌, ◌≤◌, ◌<◌, ◌^◌, ◌==◌, true, length};
ghost use Rattle.spec_world.specs.Ends.{ClientEnd};
ghost use Rattle.spec_world.specs.Messages.{has_header, header_in};
ghost use Rattle.client_ends.specs.declared.ends.config.ClientConfig.{ClientConfig};
ghost use Rattle.client_ends.specs.ends.Shown.{ShowsLine};
ghost use Rattle.client_ends.specs.response_faults.Judging.{JudgesTree, SignsTree, answers_on};

use crate::dialog_responses::tree_reads;
use crate::ends::Line;
use crate::response_faults::form::{answers, due_header};
use crypto_sessions::verify;
use spec_wire::Header;
use wire_bytes::Refusal;

const SUCCESS: u32 = 0;

const TREE_CONNECT: u16 = 3;

/// It is signed, where the line doesn't seal.
fn judge_signed(line: &Line, header: Header, m: &[u8]) -> Result<Header, Refusal>
    requires whole { 64 ≤ length m.now }
    requires short { length m.now < 2 ^ 60 }
    ensures { SignsTree line.now header m.now result }
{
    let encrypts = line.encrypts;
    if encrypts {
        return Ok(header);
    }
    let signed = verify(&line.keys.signing, m);
    if signed {
        Ok(header)
    } else {
        Err(Refusal::BadSignature)
    }
}

fn judge_body(line: &Line, header: Header, m: &[u8]) -> Result<Header, Refusal>
    requires whole { 64 ≤ length m.now }
    requires short { length m.now < 2 ^ 60 }
    ensures { (c : ClientConfig) (n : ClientEnd) → ShowsLine line.now n → has_header m.now ≡ true → header_in m.now ≡ header
        → (header.status == 0) ≡ true → answers_on n header 3 ≡ true → JudgesTree c n m.now result }
{
    let reads = tree_reads(m);
    if reads {
        judge_signed(line, header, m)
    } else {
        Err(Refusal::BadToken)
    }
}

fn judge_form(line: &Line, header: Header, m: &[u8]) -> Result<Header, Refusal>
    requires whole { 64 ≤ length m.now }
    requires short { length m.now < 2 ^ 60 }
    ensures { (c : ClientConfig) (n : ClientEnd) → ShowsLine line.now n → has_header m.now ≡ true → header_in m.now ≡ header
        → (header.status == 0) ≡ true → JudgesTree c n m.now result }
{
    let fits = answers(line, &header, TREE_CONNECT);
    if fits {
        judge_body(line, header, m)
    } else {
        Err(Refusal::BadToken)
    }
}

/// What the response to TREE_CONNECT comes to, `m` being its message, which was opened where the line seals.
pub fn judge_tree(line: &Line, m: &[u8]) -> Result<Header, Refusal>
    requires { length m.now < 2 ^ 60 }
    ensures { (c : ClientConfig) (n : ClientEnd) → ShowsLine line.now n → JudgesTree c n m.now result }
{
    match due_header(m, SUCCESS) {
        Ok(header) => judge_form(line, header, m),
        Err(why) => Err(why),
    }
}
