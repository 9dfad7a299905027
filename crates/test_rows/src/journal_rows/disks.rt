// What a journal stands on. Behind the calls' answers stand the disk's bytes or its count of faults, and what a recovery finds.
ghost use Rattle.std.specs.Prelude.{◌≡◌, IfOk};
ghost use Rattle.journal.specs.disk_journal.Entry.{IsEntryNew};

use crate::journal_rows::calls::push_calls;
use crate::words::{Fault, Words, kept, push_digits};
use base_machine::StdDisk;
use base_outside::{Disk, MemDisk};
use journal::Journal;
use std::alloc::{AllocError, Global};
use std::fmt::Write;
use std::fs::OpenOptions;
use wire_bytes::Bytes;

// How many calls a recovery makes at most.
const CALLS: usize = 24;

// A disk of no bytes whose call k fails where byte k of the plan is 1.
fn new_disk(alloc: Global, plan: &[u8]) -> Result<MemDisk, AllocError>
    ensures { IfOk result (λ d. IsEntryNew d.bytes (λ c. c ≡ d.bytes)) }
{
    let plan = Bytes::from_slice(alloc, plan)?;
    MemDisk::new(alloc, Bytes::new(alloc), plan)
}

// The same of these bytes.
fn disk_of(alloc: Global, bytes: &[u8], plan: &[u8]) -> Result<MemDisk, AllocError> {
    let plan = Bytes::from_slice(alloc, plan)?;
    MemDisk::new(alloc, Bytes::from_slice(alloc, bytes)?, plan)
}

/// `new -`: a journal that is made on an empty disk. `failing PLAN`: the same, and how many faults the disk counts. `of BYTES`: one that is
/// recovered from a disk. `each BYTES`: what such a one finds when a call failed.
pub fn push_in_memory(
    said: &mut String,
    alloc: Global,
    kind: &str,
    head: &mut Words<'_>,
    calls: &str,
) -> Result<(), Fault> {
    let bytes = head.bytes(alloc)?;
    match kind {
        "new" | "failing" => push_new(said, alloc, kind, &bytes, calls),
        "of" => push_found(said, alloc, &bytes, calls),
        "each" => push_failing(said, alloc, &bytes, calls),
        _ => Err(Fault::Other("an unknown word")),
    }
}

fn push_new(
    said: &mut String,
    alloc: Global,
    kind: &str,
    plan: &[u8],
    calls: &str,
) -> Result<(), Fault> {
    let mut disk = new_disk(alloc, plan)?;
    push_calls(said, alloc, Journal::create(alloc, &mut disk), calls)?;
    if kind == "failing" {
        write!(said, "; faults {}", disk.fault_count())?;
        return push_recovered(said, alloc, disk);
    }
    push_left(said, alloc, disk)
}

fn push_found(said: &mut String, alloc: Global, bytes: &[u8], calls: &str) -> Result<(), Fault> {
    let mut disk = disk_of(alloc, bytes, &[])?;
    push_calls(said, alloc, Journal::recover(alloc, &mut disk), calls)?;
    push_left(said, alloc, disk)
}

// What a disk is left with.
fn push_left(said: &mut String, alloc: Global, disk: MemDisk) -> Result<(), Fault> {
    said.push_str("; ")?;
    push_digits(said, disk.bytes())?;
    push_recovered(said, alloc, disk)
}

fn push_recovered<D: Disk + Drop>(said: &mut String, alloc: Global, disk: D) -> Result<(), Fault> {
    said.push_str(": ")?;
    push_calls(said, alloc, Journal::recover(alloc, disk), "bodies")
}

// A recovery that fails at any call of its disk leaves it, and the next one finds all bodies. More calls fail than the row says.
fn push_failing(said: &mut String, alloc: Global, bytes: &[u8], least: &str) -> Result<(), Fault> {
    let _ = fails_at(said, alloc, bytes, CALLS)?;
    let mut faults: u64 = 0;
    let mut found = String::new(alloc);
    for call in 0..CALLS {
        found.clear();
        if fails_at(&mut found, alloc, bytes, call)? {
            faults = faults.saturating_add(1);
        }
        if found.as_str() != said.as_str() {
            return Err(Fault::Other("a body is lost"));
        }
    }
    if faults <= Words::new(least).number() {
        return Err(Fault::Other("too few calls failed"));
    }
    Ok(())
}

// Whether the first recovery was told the disk's first fault, of this call. Puts the bodies that it finds, or the next one.
fn fails_at(said: &mut String, alloc: Global, bytes: &[u8], call: usize) -> Result<bool, Fault> {
    let mut plan = Vec::from_slice(alloc, &[0; CALLS])?;
    if let Some(byte) = plan.get_mut(call) {
        *byte = 1;
    }
    let mut disk = disk_of(alloc, bytes, &plan)?;
    push_calls(said, alloc, Journal::recover(alloc, &mut disk), "bodies")?;
    if said.as_str() != "DiskFault(1)" {
        return Ok(false);
    }
    said.clear();
    push_calls(said, alloc, Journal::recover(alloc, &mut disk), "bodies")?;
    Ok(true)
}

fn file_disk(rt: &HostRuntime, name: &str) -> Result<StdDisk, Fault> {
    let opened = OpenOptions::new()
        .read(true)
        .write(true)
        .create(true)
        .open(rt, name);
    match opened {
        Ok(file) => Ok(StdDisk::new(file)),
        Err(_) => Err(Fault::Other("no file")),
    }
}

/// `NAME BYTES`: a journal that is recovered from a file with these bytes, and again without a stop.
pub fn push_file(
    said: &mut String,
    rt: &HostRuntime,
    head: &mut Words<'_>,
    calls: &str,
) -> Result<(), Fault> {
    let name = head.next();
    let bytes = head.bytes(rt.alloc())?;
    write_file(rt, name, &bytes)?;
    push_device(said, rt, name, calls)?;
    push_recovered(said, rt.alloc(), file_disk(rt, name)?)
}

fn write_file(rt: &HostRuntime, name: &str, bytes: &[u8]) -> Result<(), Fault> {
    let mut disk = file_disk(rt, name)?;
    if disk.cut(0).is_err() || disk.write_at(0, bytes).is_err() {
        return Err(Fault::Other("a file that isn't written"));
    }
    Ok(())
}

/// A journal on a device, or a file.
pub fn push_device(
    said: &mut String,
    rt: &HostRuntime,
    path: &str,
    calls: &str,
) -> Result<(), Fault> {
    let disk = file_disk(rt, path)?;
    push_calls(said, rt.alloc(), Journal::recover(rt.alloc(), disk), calls)
}
