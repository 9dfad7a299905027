// The lines of operations.
ghost use Rattle.std.specs.Prelude.{◌≡◌, ◌≤◌, Some, MatchResult, length, replicate};
ghost use Rattle.script_words.specs.Outcome.{OutcomeGives};
ghost use Rattle.script_words.specs.Operations as operations;
ghost use Rattle.script_words.specs.Operations.{letters_of, access_mask, share_mask};
ghost use Rattle.script_words.specs.declared.values.Fault.TheVariants.{Memory};

use crate::parts::{Reading, byte, bytes, create, is, number, path, word};
use crate::pieces::Pieces;
use crate::values::{Code, Fault};
use client_values::OpKind;
use std::alloc::Global;
use wire_bytes::Bytes;

/// The greatest count of bytes that a line may write or ask for.
const MOST_BYTES: u32 = 1_048_577;

const READ: u32 = 0x81;

const WRITE: u32 = 0x102;

const DELETE: u32 = 0x1_0000;

#[tactic(auto, unfolding(crate::specs::Operations::operation))]
pub(crate) fn operation(alloc: Global, creates: &[bool], line: &mut Pieces<'_>) -> Reading<OpKind>
    requires { length creates.now ≤ 1048576 }
    ensures { OutcomeGives (λ kind. (kind, line.new)) result (operations.operation creates.now line.old) }
{
    let name = word(line)?;
    named(alloc, creates, name, line)
}

#[tactic(auto, unfolding(crate::specs::Operations::named_operation, crate::specs::Operations::on_open))]
fn named(alloc: Global, creates: &[bool], name: &[u8], line: &mut Pieces<'_>) -> Reading<OpKind>
    requires { length creates.now ≤ 1048576 }
    ensures { OutcomeGives (λ kind. (kind, line.new)) result (operations.named_operation creates.now name.now line.old) }
{
    if is(name, "remove") {
        let create = create(creates, line)?;
        Ok(OpKind::Remove { create })
    } else if is(name, "flush") {
        let create = create(creates, line)?;
        Ok(OpKind::Flush { create })
    } else if is(name, "stat") {
        let create = create(creates, line)?;
        Ok(OpKind::Stat { create })
    } else if is(name, "list") {
        let create = create(creates, line)?;
        Ok(OpKind::List { create })
    } else if is(name, "close") {
        let create = create(creates, line)?;
        Ok(OpKind::Close { create })
    } else {
        long(alloc, creates, name, line)
    }
}

// Those that have more words than a create's number.
#[tactic(auto, unfolding(crate::specs::Operations::long_operation))]
fn long(alloc: Global, creates: &[bool], name: &[u8], line: &mut Pieces<'_>) -> Reading<OpKind>
    requires { length creates.now ≤ 1048576 }
    ensures { OutcomeGives (λ kind. (kind, line.new)) result (operations.long_operation creates.now name.now line.old) }
{
    if is(name, "create") {
        creates_file(alloc, line)
    } else if is(name, "write") {
        write(alloc, creates, line)
    } else if is(name, "fill") {
        fill(alloc, creates, line)
    } else if is(name, "read") {
        read(creates, line)
    } else if is(name, "end") {
        set_end(creates, line)
    } else if is(name, "time") {
        set_time(creates, line)
    } else if is(name, "rename") {
        rename(alloc, creates, line)
    } else if is(name, "lock") {
        lock(creates, line)
    } else if is(name, "unlock") {
        unlock(creates, line)
    } else {
        Err(Fault::Refused(Code::BadLine))
    }
}

#[tactic(auto, unfolding(crate::specs::Operations::creates_file))]
fn creates_file(alloc: Global, line: &mut Pieces<'_>) -> Reading<OpKind>
    ensures { OutcomeGives (λ kind. (kind, line.new)) result (operations.creates_file line.old) }
{
    let path = path(alloc, line)?;
    let access = access(line)?;
    let share = share(line)?;
    let disposition = disposition(line)?;
    let (persist, directory) = kind(line)?;
    Ok(OpKind::Create {
        path,
        access,
        share,
        disposition,
        persist,
        directory,
    })
}

#[tactic(auto, unfolding(crate::specs::Operations::writes))]
fn write(alloc: Global, creates: &[bool], line: &mut Pieces<'_>) -> Reading<OpKind>
    requires { length creates.now ≤ 1048576 }
    ensures { OutcomeGives (λ kind. (kind, line.new)) result (operations.writes creates.now line.old) }
{
    let create = create(creates, line)?;
    let at = number(u64::MAX, line)?;
    let bytes = bytes(alloc, MOST_BYTES as usize, line)?;
    Ok(OpKind::Write { create, at, bytes })
}

#[tactic(auto, unfolding(crate::specs::Operations::fills))]
fn fill(alloc: Global, creates: &[bool], line: &mut Pieces<'_>) -> Reading<OpKind>
    requires { length creates.now ≤ 1048576 }
    ensures { OutcomeGives (λ kind. (kind, line.new)) result (operations.fills creates.now line.old) }
{
    let create = create(creates, line)?;
    let at = number(u64::MAX, line)?;
    let length = number(u64::from(MOST_BYTES), line)? as usize;
    let byte = byte(line)?;
    let bytes = filled(alloc, byte, length)?;
    Ok(OpKind::Write { create, at, bytes })
}

fn filled(alloc: Global, byte: u8, length: usize) -> Reading<Bytes>
    ensures { MatchResult result (λ bytes. bytes ≡ replicate length byte) (λ fault. fault ≡ Memory) }
{
    let bytes = vec![in alloc; byte; length]?;
    Ok(Bytes::from_vec(bytes))
}

#[tactic(auto, unfolding(crate::specs::Operations::reads))]
fn read(creates: &[bool], line: &mut Pieces<'_>) -> Reading<OpKind>
    requires { length creates.now ≤ 1048576 }
    ensures { OutcomeGives (λ kind. (kind, line.new)) result (operations.reads creates.now line.old) }
{
    let create = create(creates, line)?;
    let at = number(u64::MAX, line)?;
    let length = number(u64::from(MOST_BYTES), line)? as u32;
    Ok(OpKind::Read { create, at, length })
}

#[tactic(auto, unfolding(crate::specs::Operations::sets_end))]
fn set_end(creates: &[bool], line: &mut Pieces<'_>) -> Reading<OpKind>
    requires { length creates.now ≤ 1048576 }
    ensures { OutcomeGives (λ kind. (kind, line.new)) result (operations.sets_end creates.now line.old) }
{
    let create = create(creates, line)?;
    let length = number(u64::MAX, line)?;
    Ok(OpKind::SetEnd { create, length })
}

#[tactic(auto, unfolding(crate::specs::Operations::sets_time))]
fn set_time(creates: &[bool], line: &mut Pieces<'_>) -> Reading<OpKind>
    requires { length creates.now ≤ 1048576 }
    ensures { OutcomeGives (λ kind. (kind, line.new)) result (operations.sets_time creates.now line.old) }
{
    let create = create(creates, line)?;
    let time = number(u64::MAX, line)?;
    Ok(OpKind::SetTime { create, time })
}

#[tactic(auto, unfolding(crate::specs::Operations::renames))]
fn rename(alloc: Global, creates: &[bool], line: &mut Pieces<'_>) -> Reading<OpKind>
    requires { length creates.now ≤ 1048576 }
    ensures { OutcomeGives (λ kind. (kind, line.new)) result (operations.renames creates.now line.old) }
{
    let create = create(creates, line)?;
    let path = path(alloc, line)?;
    Ok(OpKind::Rename { create, path })
}

#[tactic(auto, unfolding(crate::specs::Operations::locks))]
fn lock(creates: &[bool], line: &mut Pieces<'_>) -> Reading<OpKind>
    requires { length creates.now ≤ 1048576 }
    ensures { OutcomeGives (λ kind. (kind, line.new)) result (operations.locks creates.now line.old) }
{
    let create = create(creates, line)?;
    let at = number(u64::MAX, line)?;
    let length = number(u64::MAX, line)?;
    let exclusive = exclusive(line)?;
    Ok(OpKind::Lock {
        create,
        at,
        length,
        exclusive,
    })
}

#[tactic(auto, unfolding(crate::specs::Operations::unlocks))]
fn unlock(creates: &[bool], line: &mut Pieces<'_>) -> Reading<OpKind>
    requires { length creates.now ≤ 1048576 }
    ensures { OutcomeGives (λ kind. (kind, line.new)) result (operations.unlocks creates.now line.old) }
{
    let create = create(creates, line)?;
    let at = number(u64::MAX, line)?;
    let length = number(u64::MAX, line)?;
    Ok(OpKind::Unlock { create, at, length })
}

#[tactic(auto, unfolding(crate::specs::Operations::exclusive, crate::specs::Operations::exclusive_of))]
fn exclusive(line: &mut Pieces<'_>) -> Reading<bool>
    ensures { OutcomeGives (λ b. (b, line.new)) result (operations.exclusive line.old) }
{
    let word = word(line)?;
    if is(word, "shared") {
        Ok(false)
    } else if is(word, "exclusive") {
        Ok(true)
    } else {
        Err(Fault::Refused(Code::BadLine))
    }
}

// What a create's letters allow: reading, writing and deleting.
#[derive(Drop)]
struct Letters {
    reads: bool,
    writes: bool,
    deletes: bool,
}

#[tactic(auto, unfolding(crate::specs::Operations::letters_of))]
fn letters_in(word: &[u8]) -> Option<Letters>
    ensures { result ≡ letters_of word.now }
{
    if is(word, "r") {
        three(true, false, false)
    } else if is(word, "w") {
        three(false, true, false)
    } else if is(word, "d") {
        three(false, false, true)
    } else if is(word, "rw") {
        three(true, true, false)
    } else if is(word, "rd") {
        three(true, false, true)
    } else if is(word, "wd") {
        three(false, true, true)
    } else if is(word, "rwd") {
        three(true, true, true)
    } else {
        None
    }
}

fn three(reads: bool, writes: bool, deletes: bool) -> Option<Letters>
    ensures { result ≡ Some (operations.three reads writes deletes) }
{
    Some(Letters {
        reads,
        writes,
        deletes,
    })
}

fn if_said(said: bool, mask: u32) -> u32
    ensures { result ≡ operations.if_said said mask }
{
    if said { mask } else { 0 }
}

#[tactic(auto, unfolding(crate::specs::Operations::access))]
fn access(line: &mut Pieces<'_>) -> Reading<u32>
    ensures { OutcomeGives (λ n. (n, line.new)) result (operations.access line.old) }
{
    let word = word(line)?;
    match letters_in(word) {
        Some(letters) => Ok(access_mask(&letters)),
        None => Err(Fault::Refused(Code::BadLine)),
    }
}

fn access_mask(letters: &Letters) -> u32
    ensures { result ≡ access_mask letters.now }
{
    if_said(letters.reads, READ) + if_said(letters.writes, WRITE) + if_said(letters.deletes, DELETE)
}

#[tactic(auto, unfolding(crate::specs::Operations::share))]
fn share(line: &mut Pieces<'_>) -> Reading<u32>
    ensures { OutcomeGives (λ n. (n, line.new)) result (operations.share line.old) }
{
    let word = word(line)?;
    if is(word, "-") {
        return Ok(0);
    }
    match letters_in(word) {
        Some(letters) => Ok(share_mask(&letters)),
        None => Err(Fault::Refused(Code::BadLine)),
    }
}

fn share_mask(letters: &Letters) -> u32
    ensures { result ≡ share_mask letters.now }
{
    if_said(letters.reads, 1) + if_said(letters.writes, 2) + if_said(letters.deletes, 4)
}

#[tactic(auto, unfolding(crate::specs::Operations::disposition, crate::specs::Operations::disposition_of))]
fn disposition(line: &mut Pieces<'_>) -> Reading<u32>
    ensures { OutcomeGives (λ n. (n, line.new)) result (operations.disposition line.old) }
{
    let word = word(line)?;
    if is(word, "supersede") {
        Ok(0)
    } else if is(word, "open") {
        Ok(1)
    } else if is(word, "create") {
        Ok(2)
    } else if is(word, "openif") {
        Ok(3)
    } else if is(word, "overwrite") {
        Ok(4)
    } else if is(word, "overwriteif") {
        Ok(5)
    } else {
        Err(Fault::Refused(Code::BadLine))
    }
}

// Whether the open outlives its session, and whether it is a directory's.
#[tactic(auto, unfolding(crate::specs::Operations::kind, crate::specs::Operations::kind_of))]
fn kind(line: &mut Pieces<'_>) -> Reading<(bool, bool)>
    ensures { OutcomeGives (λ k. (k, line.new)) result (operations.kind line.old) }
{
    let word = word(line)?;
    if is(word, "plain") {
        Ok((false, false))
    } else if is(word, "persist") {
        Ok((true, false))
    } else if is(word, "dir") {
        Ok((false, true))
    } else {
        Err(Fault::Refused(Code::BadLine))
    }
}
