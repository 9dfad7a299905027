// The lines of events.
ghost use Rattle.std.specs.Prelude.{◌≡◌};
ghost use Rattle.script_words.specs.Outcome.{OutcomeGives};
ghost use Rattle.script_words.specs.Events as events;
ghost use Rattle.script_words.specs.Parts as parts;

use crate::parts::{Reading, bytes, is, number, word};
use crate::pieces::Pieces;
use crate::values::{Code, Fault, ScriptEvent};
use std::alloc::Global;

/// The greatest frame, in bytes: no forged message is longer.
const LARGEST_FRAME: usize = 1_114_112;

/// The most milliseconds of one wait.
const LONGEST_WAIT: u64 = 1_000_000_000;

#[tactic(auto, unfolding(crate::specs::Events::event, crate::specs::Events::on_connection))]
pub(crate) fn event(alloc: Global, name: &[u8], line: &mut Pieces<'_>) -> Reading<ScriptEvent>
    ensures { OutcomeGives (λ e. (e, line.new)) result (events.event name.now line.old) }
{
    if is(name, "open") {
        Ok(ScriptEvent::Open(connection(line)?))
    } else if is(name, "push") {
        Ok(ScriptEvent::Push(connection(line)?))
    } else if is(name, "serve") {
        Ok(ScriptEvent::Serve(connection(line)?))
    } else if is(name, "take") {
        Ok(ScriptEvent::Take(connection(line)?))
    } else if is(name, "cut") {
        Ok(ScriptEvent::Cut(connection(line)?))
    } else if is(name, "drop") {
        Ok(ScriptEvent::Drop(connection(line)?))
    } else if is(name, "link") {
        Ok(ScriptEvent::Link(connection(line)?))
    } else {
        other(alloc, name, line)
    }
}

#[tactic(auto, unfolding(crate::specs::Events::other_event))]
fn other(alloc: Global, name: &[u8], line: &mut Pieces<'_>) -> Reading<ScriptEvent>
    ensures { OutcomeGives (λ e. (e, line.new)) result (events.other_event name.now line.old) }
{
    if is(name, "restart") {
        Ok(ScriptEvent::Restart)
    } else if is(name, "settle") {
        Ok(ScriptEvent::Settle)
    } else if is(name, "wait") {
        wait(line)
    } else if is(name, "crash") {
        crash(line)
    } else if is(name, "forge") {
        forge(alloc, line)
    } else if is(name, "flip") {
        flip(alloc, line)
    } else {
        Err(Fault::Refused(Code::BadLine))
    }
}

// A connection's number.
fn connection(line: &mut Pieces<'_>) -> Reading<u32>
    ensures { OutcomeGives (λ k. (k, line.new)) result (parts.number 255 line.old) }
{
    let number = number(255, line)?;
    Ok(number as u32)
}

#[tactic(auto, unfolding(crate::specs::Events::waits))]
fn wait(line: &mut Pieces<'_>) -> Reading<ScriptEvent>
    ensures { OutcomeGives (λ e. (e, line.new)) result (events.waits line.old) }
{
    let milliseconds = number(LONGEST_WAIT, line)? as u32;
    Ok(ScriptEvent::Wait(milliseconds))
}

#[tactic(auto, unfolding(crate::specs::Events::crashes))]
fn crash(line: &mut Pieces<'_>) -> Reading<ScriptEvent>
    ensures { OutcomeGives (λ e. (e, line.new)) result (events.crashes line.old) }
{
    let connection = connection(line)?;
    let kept = kept(line)?;
    Ok(ScriptEvent::Crash { connection, kept })
}

#[tactic(auto, unfolding(crate::specs::Events::kept, crate::specs::Events::kept_of))]
fn kept(line: &mut Pieces<'_>) -> Reading<bool>
    ensures { OutcomeGives (λ b. (b, line.new)) result (events.kept line.old) }
{
    let word = word(line)?;
    if is(word, "kept") {
        Ok(true)
    } else if is(word, "lost") {
        Ok(false)
    } else {
        Err(Fault::Refused(Code::BadLine))
    }
}

#[tactic(auto, unfolding(crate::specs::Events::up, crate::specs::Events::up_of))]
fn up(line: &mut Pieces<'_>) -> Reading<bool>
    ensures { OutcomeGives (λ b. (b, line.new)) result (events.up line.old) }
{
    let word = word(line)?;
    if is(word, "up") {
        Ok(true)
    } else if is(word, "down") {
        Ok(false)
    } else {
        Err(Fault::Refused(Code::BadLine))
    }
}

#[tactic(auto, unfolding(crate::specs::Events::forges))]
fn forge(alloc: Global, line: &mut Pieces<'_>) -> Reading<ScriptEvent>
    ensures { OutcomeGives (λ e. (e, line.new)) result (events.forges line.old) }
{
    let connection = connection(line)?;
    let up = up(line)?;
    let bytes = bytes(alloc, LARGEST_FRAME, line)?;
    Ok(ScriptEvent::Forge {
        connection,
        up,
        bytes,
    })
}

#[tactic(auto, unfolding(crate::specs::Events::flips))]
fn flip(alloc: Global, line: &mut Pieces<'_>) -> Reading<ScriptEvent>
    ensures { OutcomeGives (λ e. (e, line.new)) result (events.flips line.old) }
{
    let connection = connection(line)?;
    let up = up(line)?;
    let at = number(u64::from(u32::MAX), line)? as u32;
    let mask = bytes(alloc, LARGEST_FRAME, line)?;
    Ok(ScriptEvent::Flip {
        connection,
        up,
        at,
        mask,
    })
}
