// A line of a script that was made: its text, and what it says.
ghost use Rattle.std.specs.Prelude.{◌≡◌, ◌++◌, codes, replicate, IfOk, OnOk};
ghost use Rattle.std.specs.Int.{w32, to_le_bytes};
ghost use Rattle.std.specs.String.{string_bytes};
ghost use Rattle.client_values.specs.declared.operations.values.OpKind.TheVariants as kinds;
ghost use Rattle.script_words.specs.generator.Lines as lines;
ghost use Rattle.script_words.specs.declared.generator.lines.MadeLine.TheVariants as made;

use crate::Statement;
use crate::generator::events::MadeEvent;
use client_values::OpKind;
use std::alloc::{AllocError, Global};
use std::fmt::Write;
use wire_bytes::{Bytes, Text};

/// Reading and writing: FILE_READ_DATA, FILE_READ_ATTRIBUTES, FILE_WRITE_DATA, FILE_WRITE_ATTRIBUTES (MS-SMB2 2.2.13.1.1).
const READ_AND_WRITE: u32 = 0x183;

/// FILE_OPEN_IF (MS-SMB2 2.2.13).
const OPEN_IF: u32 = 3;

/// The range that is locked.
const LOCKED: u64 = 10;

/// How many bytes one line fills, and with what.
const FILLED: usize = 50;

const FILLED_WITH: u8 = 0x61;

/// How many bytes one line reads.
const READ: u32 = 200;

/// The length that a file gets.
const END: u64 = 100;

/// A line. `create` is the number of the create whose open is meant; what a write writes is a word, least byte first.
#[derive(Clone, Copy, Debug, PartialEq, Eq)]
pub enum MadeLine {
    Event(MadeEvent),
    Create { file: u32 },
    Write { create: u32, at: u32, word: u32 },
    Lock { create: u32 },
    Fill { create: u32, at: u32 },
    Read { create: u32 },
    End { create: u32 },
    Unlock { create: u32 },
    Close { create: u32 },
}

/// Adds a line's text.
pub fn push_line(alloc: Global, out: &mut String, line: &MadeLine) -> Result<(), AllocError>
    ensures { OnOk result (string_bytes out.new ≡ string_bytes out.old ++ (lines.line_text line.now ++ codes "\n")) }
{
    push_text(alloc, out, line)?;
    out.push_str("\n")
}

// Adds it without its end.
#[tactic(auto, unfolding(crate::specs::generator::Lines::line_text))]
fn push_text(alloc: Global, out: &mut String, line: &MadeLine) -> Result<(), AllocError>
    ensures { OnOk result (string_bytes out.new ≡ string_bytes out.old ++ lines.line_text line.now) }
{
    match *line {
        MadeLine::Event(event) => push_event(out, event),
        MadeLine::Create { file } => write!(out, "op create f{file} rw - openif persist"),
        MadeLine::Write { create, at, word } => push_write(alloc, out, create, at, word),
        MadeLine::Lock { create } => write!(out, "op lock {create} 0 10 exclusive"),
        MadeLine::Fill { create, at } => write!(out, "op fill {create} {at} 50 61"),
        MadeLine::Read { create } => write!(out, "op read {create} 0 200"),
        MadeLine::End { create } => write!(out, "op end {create} 100"),
        MadeLine::Unlock { create } => write!(out, "op unlock {create} 0 10"),
        MadeLine::Close { create } => write!(out, "op close {create}"),
    }
}

#[tactic(auto, unfolding(crate::specs::generator::Lines::line_text))]
fn push_write(
    alloc: Global,
    out: &mut String,
    create: u32,
    at: u32,
    word: u32,
) -> Result<(), AllocError>
    ensures { OnOk result (string_bytes out.new ≡ string_bytes out.old ++ lines.line_text (made.Write create at word)) }
{
    let digits = hex::encode(alloc, word.to_le_bytes())?;
    write!(out, "op write {create} {at} {digits}")
}

#[tactic(auto, unfolding(crate::specs::generator::Lines::event_text))]
fn push_event(out: &mut String, event: MadeEvent) -> Result<(), AllocError>
    ensures { OnOk result (string_bytes out.new ≡ string_bytes out.old ++ lines.event_text event) }
{
    match event {
        MadeEvent::Link(k) => write!(out, "link {k}"),
        MadeEvent::Push(k) => write!(out, "push {k}"),
        MadeEvent::Serve(k) => write!(out, "serve {k}"),
        MadeEvent::Cut(k) => write!(out, "cut {k}"),
        MadeEvent::Drop(k) => write!(out, "drop {k}"),
        MadeEvent::Restart => out.push_str("restart"),
        MadeEvent::Crash(true) => out.push_str("crash 0 kept"),
        MadeEvent::Crash(false) => out.push_str("crash 0 lost"),
        MadeEvent::Settle => out.push_str("settle"),
    }
}

// Beside `push_line`, because `gen` makes its lines twice, to write them and to run them, and keeps none.
/// What a line says.
pub fn statement_of(alloc: Global, line: &MadeLine) -> Result<Statement, AllocError>
    ensures { IfOk result (λ says. says ≡ lines.line_said line.now) }
{
    match *line {
        MadeLine::Event(event) => Ok(Statement::Event(event.event())),
        MadeLine::Create { file } => Ok(Statement::Operation(create_of(alloc, file)?)),
        MadeLine::Write { create, at, word } => {
            Ok(Statement::Operation(write_of(alloc, create, at, word)?))
        }
        MadeLine::Fill { create, at } => Ok(Statement::Operation(fill_of(alloc, create, at)?)),
        MadeLine::Lock { create } => Ok(Statement::Operation(OpKind::Lock {
            create,
            at: 0,
            length: LOCKED,
            exclusive: true,
        })),
        MadeLine::Unlock { create } => Ok(Statement::Operation(OpKind::Unlock {
            create,
            at: 0,
            length: LOCKED,
        })),
        MadeLine::Read { create } => Ok(Statement::Operation(OpKind::Read {
            create,
            at: 0,
            length: READ,
        })),
        MadeLine::End { create } => Ok(Statement::Operation(OpKind::SetEnd {
            create,
            length: END,
        })),
        MadeLine::Close { create } => Ok(Statement::Operation(OpKind::Close { create })),
    }
}

fn write_of(alloc: Global, create: u32, at: u32, word: u32) -> Result<OpKind, AllocError>
    ensures { IfOk result (λ kind. kind ≡ kinds.Write create at (to_le_bytes w32 word)) }
{
    let bytes = word.to_le_bytes();
    let held = Vec::from_slice(alloc, bytes.as_slice())?;
    Ok(OpKind::Write {
        create,
        at: u64::from(at),
        bytes: Bytes::from_vec(held),
    })
}

fn fill_of(alloc: Global, create: u32, at: u32) -> Result<OpKind, AllocError>
    ensures { IfOk result (λ kind. kind ≡ kinds.Write create at (replicate 50 0x61)) }
{
    let filled = vec![in alloc; FILLED_WITH; FILLED]?;
    Ok(OpKind::Write {
        create,
        at: u64::from(at),
        bytes: Bytes::from_vec(filled),
    })
}

fn create_of(alloc: Global, file: u32) -> Result<OpKind, AllocError>
    ensures { IfOk result (λ kind. kind ≡ lines.creates_file file) }
{
    let name = format!(in alloc; "f{file}")?;
    let path = Text::from_str(alloc, name.as_str())?;
    Ok(OpKind::Create {
        path,
        access: READ_AND_WRITE,
        share: 0,
        disposition: OPEN_IF,
        persist: true,
        directory: false,
    })
}
