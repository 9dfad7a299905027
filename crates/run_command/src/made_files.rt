//! The files that creates made, with the bytes that their own writes and ends gave them.
ghost use Rattle.std.specs.Prelude.{◌≡◌, ◌+◌, ◌<◌, ◌++◌, ◌∷◌, [], ℕ, List, length, map, option_map, slice_get, Some, IfOk, OnOk};
ghost use Rattle.spec_exchange.specs.Content.{effect, written};
ghost use Rattle.spec_exchange.specs.Operations.{content_op};
ghost use Rattle.client_values.specs.operations.Meaning.{op_of};
ghost use Rattle.client_values.specs.outcomes.Meaning.{outcome_of};
ghost use Rattle.store_files.specs.file_extents.Kept.{IsContent};
ghost use Rattle.run_command.specs.Listing.{AreNumbersOf, at_number};
ghost use Rattle.run_command.specs.MadeFiles as made;
ghost use Rattle.run_command.specs.MadeFiles.{AddsMade, AreByPath, BytesGoBy};

use crate::listing::list_at;
use client_values::{OpKind, Outcome};
use script_words::NumberList;
use std::alloc::{AllocError, Global};
use store_files::{Extents, StoredFile};
use wire_bytes::{Bytes, Text};

/// FILE_CREATED (MS-SMB2 2.2.14)
const CREATED: u32 = 2;

// ---- which files

fn was_created(outcome: &Outcome) -> bool
    ensures { result ≡ made.was_created (outcome_of outcome.now) }
{
    match outcome {
        Outcome::Action(action) => *action == CREATED,
        _ => false,
    }
}

/// The path of a file that a create asks for; none of a directory, or of another operation.
fn path_asked(op: &OpKind) -> Option<&Text>
    ensures { option_map (λ p. p.now) result ≡ made.path_asked op.now }
{
    match op {
        OpKind::Create {
            path,
            directory,
            ..
        } => {
            if *directory {
                return None;
            }
            Some(path)
        }
        _ => None,
    }
}

fn path_with<'a>(op: &'a OpKind, outcome: &Outcome) -> Option<&'a Text>
    ensures { option_map (λ p. p.now) result ≡ made.path_with op.now (Some outcome.now) }
{
    if was_created(outcome) {
        return path_asked(op);
    }
    None
}

fn path_behind<'a>(op: &'a OpKind, settled: &[Outcome], place: usize) -> Option<&'a Text>
    ensures { option_map (λ p. p.now) result
        ≡ made.path_with op.now (slice_get settled.now place) }
{
    match settled.get(place) {
        Some(outcome) => path_with(op, outcome),
        None => None,
    }
}

/// The path of the file that the operation at a place made.
fn path_at<'a>(ops: &'a [OpKind], settled: &[Outcome], place: usize) -> Option<&'a Text>
    ensures { option_map (λ p. p.now) result
        ≡ made.path_made (slice_get ops.now place) (slice_get settled.now place) }
{
    match ops.get(place) {
        Some(op) => path_behind(op, settled, place),
        None => None,
    }
}

// ---- their bytes

/// A write past the last place counts as memory that ran out.
fn write_at(content: &mut Extents, at: u64, bytes: &[u8]) -> Result<(), AllocError>
    ensures { OnOk result ((c : List ℕ) → IsContent content.old c → IsContent content.new (written at bytes.now c)) }
{
    let fits = at <= u64::MAX - bytes.len() as u64;
    if fits {
        return content.write(at, bytes);
    }
    Err(AllocError)
}

fn take_effect(content: &mut Extents, op: &OpKind) -> Result<(), AllocError>
    ensures { OnOk result ((c : List ℕ) → IsContent content.old c → IsContent content.new (effect (content_op (op_of op.now)) c)) }
{
    match op {
        OpKind::Write { at, bytes, .. } => write_at(content, *at, bytes.as_slice()),
        OpKind::SetEnd { length, .. } => {
            content.set_end(*length);
            Ok(())
        }
        _ => Ok(()),
    }
}

/// What the operation does where it succeeded.
fn go_by(content: &mut Extents, op: &OpKind, outcome: &Outcome) -> Result<(), AllocError>
    ensures { OnOk result (BytesGoBy (Some op.now) (Some outcome.now) content.old content.new) }
{
    if outcome.is_ok() {
        return take_effect(content, op);
    }
    Ok(())
}

fn go_with(
    content: &mut Extents,
    op: &OpKind,
    settled: &[Outcome],
    place: usize,
) -> Result<(), AllocError>
    ensures { OnOk result (BytesGoBy (Some op.now) (slice_get settled.now place) content.old content.new) }
{
    match settled.get(place) {
        Some(outcome) => go_by(content, op, outcome),
        None => Ok(()),
    }
}

/// The same of an operation by its number.
fn go_on(
    content: &mut Extents,
    ops: &[OpKind],
    settled: &[Outcome],
    number: u32,
) -> Result<(), AllocError>
    ensures { OnOk result (BytesGoBy (at_number ops.now number) (at_number settled.now number)
        content.old content.new) }
{
    if number == 0 {
        return Ok(());
    }
    let place = number as usize - 1;
    match ops.get(place) {
        Some(op) => go_with(content, op, settled, place),
        None => Ok(()),
    }
}

fn all_of(content: &Extents) -> Result<Bytes, AllocError>
    ensures { IfOk result (λ bytes. (c : List ℕ) → IsContent content.now c → bytes ≡ c) }
{
    let bytes = content.read(0, content.len())?;
    Ok(Bytes::from_vec(bytes))
}

/// What operations of these numbers make of no bytes, one after the other.
fn bytes_by(
    alloc: Global,
    ops: &[OpKind],
    settled: &[Outcome],
    numbers: &[u32],
) -> Result<Bytes, AllocError>
    ensures { IfOk result (λ bytes. bytes ≡ made.bytes_by ops.now settled.now numbers.now []) }
{
    let mut content = Extents::new(alloc);
    let mut left = numbers;
    while let Some((number, rest)) = left.split_first() {
        go_on(&mut content, ops, settled, *number)?;
        left = rest;
    }
    all_of(&content)
}

/// One file more, with what operations of these numbers make of no bytes.
fn push_made(
    alloc: Global,
    ops: &[OpKind],
    settled: &[Outcome],
    numbers: &[u32],
    files: &mut Vec<StoredFile>,
    path: &Text,
) -> Result<(), AllocError>
    ensures { OnOk result (files.new.items
        ≡ files.old.items ++ record { path = path.now; bytes = made.bytes_by ops.now settled.now numbers.now [] } ∷ []) }
{
    let bytes = bytes_by(alloc, ops, settled, numbers)?;
    let path = path.copy()?;
    files.push(StoredFile { path, bytes })?;
    Ok(())
}

/// The file of the operation at a place, where it made one.
fn add_file(
    alloc: Global,
    ops: &[OpKind],
    settled: &[Outcome],
    lists: &[NumberList],
    files: &mut Vec<StoredFile>,
    place: usize,
) -> Result<(), AllocError>
    requires { place + 1 < length lists.now }
    ensures { OnOk result (AddsMade ops.now settled.now lists.now place files.old.items files.new.items) }
{
    let numbers = list_at(lists, place + 1);
    match path_at(ops, settled, place) {
        Some(path) => push_made(alloc, ops, settled, numbers, files, path),
        None => Ok(()),
    }
}

/// Those of all operations, upwards by their creates' numbers.
fn made_of(
    alloc: Global,
    ops: &[OpKind],
    settled: &[Outcome],
    lists: &[NumberList],
) -> Result<Vec<StoredFile>, AllocError>
    requires { length lists.now ≡ length ops.now + 1 }
    ensures { IfOk result (λ files. (order : List ℕ) → AreNumbersOf ops.now order (length ops.now + 1) lists.now
        → files.items ≡ made.made_files ops.now settled.now order (length ops.now)) }
{
    let mut files = Vec::new(alloc);
    let mut place = 0;
    while place < ops.len() {
        add_file(alloc, ops, settled, lists, &mut files, place)?;
        place += 1;
    }
    Ok(files)
}

// ---- in which order

fn sort(files: &mut Vec<StoredFile>) -> Result<(), AllocError>
    ensures { OnOk result (AreByPath files.old.items files.new.items) }
{
    files.sort_by(|a, b| a.path.as_str().cmp(b.path.as_str()))
}

/// Those of all operations, in byte order of their paths.
pub(crate) fn files_of(
    alloc: Global,
    ops: &[OpKind],
    settled: &[Outcome],
    lists: &[NumberList],
) -> Result<Vec<StoredFile>, AllocError>
    requires { length lists.now ≡ length ops.now + 1 }
    ensures { IfOk result (λ files. (order : List ℕ) → AreNumbersOf ops.now order (length ops.now + 1) lists.now
        → AreByPath (made.made_files ops.now settled.now order (length ops.now)) files.items) }
{
    let mut files = made_of(alloc, ops, settled, lists)?;
    sort(&mut files)?;
    Ok(files)
}
