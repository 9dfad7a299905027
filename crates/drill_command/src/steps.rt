// The steps of a run, a line each: what happened, on which connection, whose message it was, the status of a reply and whether the message
// acted; behind that how many bytes the message had, and how the connection stands.
use crate::script_run::{Happened, Notes, Step};
use std::alloc::{AllocError, Global};
use std::fmt::Write;

fn word_of(happened: Happened) -> &'static str {
    match happened {
        Happened::Submitted => "op",
        Happened::Opened => "open",
        Happened::Pushed => "push",
        Happened::Served => "serve",
        Happened::Taken => "take",
        Happened::Cut => "cut",
        Happened::Dropped => "drop",
        Happened::Restarted => "restart",
        Happened::Crashed => "crash",
        Happened::Forged => "forge",
        Happened::Flipped => "flip",
        Happened::Waited => "wait",
        Happened::Finished => "finish",
    }
}

fn client_word(step: &Step) -> &'static str {
    if step.ready {
        "ready"
    } else if step.client_open {
        "talks"
    } else {
        "closed"
    }
}

fn push_step(out: &mut String, step: &Step) -> Result<(), AllocError> {
    let word = word_of(step.happened);
    let connection = step.connection;
    let operation = step.operation;
    write!(out, "# {word} {connection} {operation} ")?;
    match step.note.status {
        Some(status) => write!(out, "{status:08x}")?,
        None => out.push_str("-")?,
    }
    let acted = if step.note.acted { "acted" } else { "-" };
    let ups = step.ups;
    let downs = step.downs;
    let client = client_word(step);
    let server = if step.server_open { "open" } else { "closed" };
    let bytes = step.bytes;
    writeln!(out, " {acted} {bytes} {ups} {downs} {client} {server}")
}

fn push_steps(out: &mut String, steps: &[Step]) -> Result<(), AllocError> {
    for step in steps {
        push_step(out, step)?;
    }
    Ok(())
}

/// All of them, where the run was watched.
pub(crate) fn steps_text(alloc: Global, notes: &Notes) -> Result<String, AllocError> {
    let mut out = String::new(alloc);
    match &notes.steps {
        Some(steps) => push_steps(&mut out, steps.as_slice())?,
        None => {}
    }
    Ok(out)
}
