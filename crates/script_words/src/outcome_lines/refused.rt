// What is printed of a refused line.
ghost use Rattle.std.specs.Prelude.{◌≡◌, IfOk};
ghost use Rattle.std.specs.String.{string_bytes};
ghost use Rattle.script_words.specs.outcome_lines.Text as text;

use crate::Code;
use crate::text_lines::Refusal;
use std::alloc::{AllocError, Global};

/// What is printed of a refused line: its number from 1, and its code.
#[tactic(auto, unfolding(crate::specs::outcome_lines::Text::refusal_line))]
pub fn refusal_line(alloc: Global, refusal: &Refusal) -> Result<String, AllocError>
    ensures { IfOk result (λ shown. string_bytes shown ≡ text.refusal_line refusal.now) }
{
    let line = refusal.line;
    let code = code_text(alloc, refusal.code)?;
    format!(in alloc; "line {line} {code}\n")
}

fn code_text(alloc: Global, code: Code) -> Result<String, AllocError>
    ensures { IfOk result (λ shown. string_bytes shown ≡ text.code_text code) }
{
    match code {
        Code::BadLine => String::from_str(alloc, "bad-line"),
        Code::TooLong => String::from_str(alloc, "too-long"),
        Code::NoChannel(connection) => format!(in alloc; "no-channel {connection}"),
        Code::NothingThere(connection) => format!(in alloc; "nothing-there {connection}"),
        Code::InUse(connection) => format!(in alloc; "in-use {connection}"),
    }
}
