//! Why settings are refused.
ghost use Rattle.std.specs.Prelude.{◌≡◌, IfOk};
ghost use Rattle.std.specs.String.{string_bytes};
ghost use Rattle.serve_command.specs.Printing.{no_user_line, settings_line};

use script_words::{Refusal, refusal_line};
use std::alloc::{AllocError, Global};

/// Why settings are refused.
#[derive(Clone, Copy, Debug, Drop)]
pub enum SettingsRefusal {
    /// A line of them is.
    Line(Refusal),
    /// No line names a user, and the server would be reached from other machines; with the number of the line that is missing, behind
    /// the last one.
    NoUser(u64),
}

#[tactic(auto, unfolding(crate::specs::Printing::no_user_line))]
fn no_user_line(alloc: Global, line: u64) -> Result<String, AllocError>
    ensures { IfOk result (λ shown. string_bytes shown ≡ no_user_line line) }
{
    format!(in alloc; "line {line} no-user\n")
}

/// What is printed of refused settings.
pub(crate) fn settings_line(alloc: Global, refusal: &SettingsRefusal) -> Result<String, AllocError>
    ensures { IfOk result (λ shown. string_bytes shown ≡ settings_line refusal.now) }
{
    match refusal {
        SettingsRefusal::Line(refusal) => refusal_line(alloc, refusal),
        SettingsRefusal::NoUser(line) => no_user_line(alloc, *line),
    }
}
