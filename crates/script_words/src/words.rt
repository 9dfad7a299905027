// The words of a line.
ghost use Rattle.std.specs.Prelude.{◌≡◌, ◌≤◌, length};
ghost use Rattle.script_words.specs.Outcome.{OutcomeGives};
ghost use Rattle.script_words.specs.Words as words;

use crate::parts::{Reading, is, word};
use crate::pieces::Pieces;
use crate::values::{Code, Command, Fault, Given, Statement};
use crate::{events, operations, settings};
use std::alloc::Global;

/// What all the words of a line say, behind operations of which it is told whether each is a create, and behind settings. The first
/// faulty word from the left decides.
#[tactic(auto, unfolding(crate::specs::Words::statement))]
pub fn statement(
    alloc: Global,
    command: Command,
    creates: &[bool],
    given: &Given,
    mut line: Pieces<'_>,
) -> Result<Statement, Fault<Code>>
    requires { length creates.now ≤ 1048576 }
    ensures { OutcomeGives (λ s. s) result (words.statement command creates.now given.now line.entry) }
{
    let statement = said(alloc, command, creates, given, &mut line)?;
    if !line.is_empty() {
        return Err(Fault::Refused(Code::BadLine));
    }
    Ok(statement)
}

#[tactic(auto, unfolding(crate::specs::Words::line_part))]
fn said(
    alloc: Global,
    command: Command,
    creates: &[bool],
    given: &Given,
    line: &mut Pieces<'_>,
) -> Reading<Statement>
    requires { length creates.now ≤ 1048576 }
    ensures { OutcomeGives (λ s. (s, line.new)) result (words.line_part command creates.now given.now line.old) }
{
    let name = word(line)?;
    if is(name, "op") {
        operation(alloc, command, creates, line)
    } else if names_setting(name) {
        setting(alloc, command, given, name, line)
    } else {
        event(alloc, command, name, line)
    }
}

fn names_setting(name: &[u8]) -> bool
    ensures { result ≡ words.names_setting name.now }
{
    is(name, "cipher")
        || is(name, "signing")
        || is(name, "room")
        || is(name, "user")
        || is(name, "share")
        || is(name, "channels")
}

#[tactic(auto, unfolding(crate::specs::Words::operation))]
fn operation(
    alloc: Global,
    command: Command,
    creates: &[bool],
    line: &mut Pieces<'_>,
) -> Reading<Statement>
    requires { length creates.now ≤ 1048576 }
    ensures { OutcomeGives (λ s. (s, line.new)) result (words.operation command creates.now line.old) }
{
    if command.serves() {
        return Err(Fault::Refused(Code::BadLine));
    }
    let kind = operations::operation(alloc, creates, line)?;
    Ok(Statement::Operation(kind))
}

#[tactic(auto, unfolding(crate::specs::Words::setting))]
fn setting(
    alloc: Global,
    command: Command,
    given: &Given,
    name: &[u8],
    line: &mut Pieces<'_>,
) -> Reading<Statement>
    ensures { OutcomeGives (λ s. (s, line.new)) result (words.setting command given.now name.now line.old) }
{
    let setting = settings::setting(alloc, command, given, name, line)?;
    Ok(Statement::Setting(setting))
}

#[tactic(auto, unfolding(crate::specs::Words::event))]
fn event(alloc: Global, command: Command, name: &[u8], line: &mut Pieces<'_>) -> Reading<Statement>
    ensures { OutcomeGives (λ s. (s, line.new)) result (words.event command name.now line.old) }
{
    if !command.drills() {
        return Err(Fault::Refused(Code::BadLine));
    }
    let event = events::event(alloc, name, line)?;
    Ok(Statement::Event(event))
}
