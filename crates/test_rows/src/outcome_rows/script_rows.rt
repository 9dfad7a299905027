//! What a command reads of a text, scripts and settings: what is answered to a row, which is what was read, or the line that is refused.
use crate::words::{Fault, kept, push_digits, push_unescaped};
use client_values::OpKind;
use script_words::text_lines::{Script, Settings, script};
use script_words::{self, Code, Command, ScriptEvent, Statement, with_defaults};
use std::alloc::{AllocError, Global};
use std::fmt::Write;

/// Puts what is answered to a command that reads a text with its line ends written out.
pub fn push_read(said: &mut String, alloc: Global, command: &str, text: &str) -> Result<(), Fault> {
    let command = match command {
        "drill" => Command::Drill,
        "serve" => Command::Serve,
        _ => Command::Run,
    };
    let mut bytes = Vec::new(alloc);
    push_unescaped(&mut bytes, alloc, text)?;
    match script(alloc, command, &bytes) {
        Ok(script) => kept(push_script(said, alloc, script)),
        Err(script_words::Fault::Refused(refusal)) => {
            let code = match refusal.code {
                Code::BadLine => "bad-line",
                Code::TooLong => "too-long",
                _ => "another code",
            };
            Ok(write!(said, "line {} {code}", refusal.line)?)
        }
        Err(script_words::Fault::Memory) => Err(Fault::Memory),
    }
}

// The settings, and then each line with its number.
fn push_script(said: &mut String, alloc: Global, script: Script) -> Result<(), AllocError> {
    let settings = with_defaults(alloc, script.given)?;
    push_settings(said, &settings)?;
    for line in &script.lines {
        write!(said, "; {} ", line.number)?;
        push_statement(said, &line.statement)?;
    }
    Ok(())
}

// `CIPHER SIGNING ROOM SHARE CHANNELS NAME:PASSWORD..`
fn push_settings(said: &mut String, settings: &Settings) -> Result<(), AllocError> {
    let cipher = settings.cipher;
    let signing = settings.signing;
    let share = settings.share.as_str();
    write!(said, "{cipher:?} {signing:?} {} {share}", settings.room)?;
    write!(said, " {}", settings.channels)?;
    for user in settings.users.as_slice() {
        write!(said, " {}:{}", user.name.as_str(), user.password.as_str())?;
    }
    Ok(())
}

fn push_statement(said: &mut String, statement: &Statement) -> Result<(), AllocError> {
    match statement {
        Statement::Setting(_) => said.push_str("a setting"),
        Statement::Operation(kind) => push_operation(said, kind),
        Statement::Event(event) => push_event(said, event),
    }
}

// One of a few words, with the numbers behind it.
fn push_operation(said: &mut String, kind: &OpKind) -> Result<(), AllocError> {
    match kind {
        OpKind::Create { .. } => push_create(said, kind),
        OpKind::Write { create, at, bytes } => {
            write!(said, "write {create} {at} ")?;
            push_digits(said, bytes.as_slice())
        }
        OpKind::Rename { create, path } => write!(said, "rename {create} {}", path.as_str()),
        OpKind::Lock {
            create,
            at,
            length,
            exclusive,
        } => write!(said, "lock {create} {at} {length} {exclusive}"),
        OpKind::Read { create, at, length } => write!(said, "read {create} {at} {length}"),
        OpKind::SetEnd { create, length } => write!(said, "end {create} {length}"),
        OpKind::SetTime { create, time } => write!(said, "time {create} {time}"),
        OpKind::Unlock { create, at, length } => write!(said, "unlock {create} {at} {length}"),
        OpKind::Remove { create } => write!(said, "remove {create}"),
        OpKind::Flush { create } => write!(said, "flush {create}"),
        OpKind::Stat { create } => write!(said, "stat {create}"),
        OpKind::List { create } => write!(said, "list {create}"),
        OpKind::Close { create } => write!(said, "close {create}"),
    }
}

fn push_create(said: &mut String, kind: &OpKind) -> Result<(), AllocError> {
    match kind {
        OpKind::Create {
            path,
            access,
            share,
            disposition,
            persist,
            directory,
        } => {
            write!(said, "create {} {access:x} {share}", path.as_str())?;
            write!(said, " {disposition} {persist} {directory}")
        }
        _ => Ok(()),
    }
}

fn push_event(said: &mut String, event: &ScriptEvent) -> Result<(), AllocError> {
    match event {
        ScriptEvent::Forge {
            connection,
            up,
            bytes,
        } => {
            write!(said, "Forge {connection} {up} ")?;
            push_digits(said, bytes.as_slice())
        }
        ScriptEvent::Flip {
            connection,
            up,
            at,
            mask,
        } => {
            write!(said, "Flip {connection} {up} {at} ")?;
            push_digits(said, mask.as_slice())
        }
        ScriptEvent::Crash { connection, kept } => write!(said, "Crash {connection} {kept}"),
        other => write!(said, "{other:?}"),
    }
}
