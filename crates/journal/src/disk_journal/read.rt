// What stands on a disk, read gate by gate.
ghost use Rattle.std.specs.Prelude.{◌≡◌, ℕ, ◌+◌, ◌^◌, ◌<◌, ◌≤◌, List, [], ◌∷◌, length, take, drop, get_or, min, IsTrue, IfOk};
ghost use Rattle.spec_journal.specs.Castagnoli.{behind_bytes};
ghost use Rattle.spec_wire.specs.messages.Places.{le};
ghost use Rattle.base_outside.specs.streams.Faults.{CountsFault};
ghost use Rattle.spec_wire.specs.journal.Grammar.{magic};
ghost use Rattle.spec_wire.specs.journal.Moments.{Quiet};
ghost use Rattle.spec_journal.specs.Forms.{form_mark, sum_size};
ghost use Rattle.journal.specs.disk_journal.Read.{HeadShows, JournalShows, FitsBefore, FoundIn, IsWithin, ChecksMark, GivesBody};
ghost use Rattle.journal.specs.disk_journal.Read.{ReadCause, EntryAt, TellsLength, SumIs};

use crate::checksum::{Sum, sums_law};
use crate::disk_journal::form::sum_bytes;
use base_outside::{Disk, Failed};
use spec_journal::Form;
use std::alloc::{AllocError, Global};
use wire_bytes::Bytes;

// The first form's mark. The second one's differs in the eighth byte alone.
const MARK: [u8; 8] = *b"smb311j1";

// So many bytes are summed at once.
const PART: usize = 4096;

/// What stands at a gate: none but a closed one, an entry with a body of so many bytes, or an open gate
/// without an entry.
#[derive(Clone, Copy, PartialEq, Eq, Debug)]
pub(crate) enum Look {
    Closed,
    Entry(u32),
    NoEntry,
}

/// The form that a disk's first bytes tell, or the first of them that is no mark's.
#[derive(Clone, Copy, PartialEq, Eq, Debug)]
pub(crate) enum Header {
    Is(Form),
    Differs(u64),
}

/// How a disk stands: as so many bodies before the closed gate at a place, and so many bytes with that gate but without checksums; or as
/// no journal from a place on.
#[derive(Clone, Copy, PartialEq, Eq, Debug)]
pub enum Found {
    Behind {
        form: Form,
        gate: u64,
        used: u64,
        count: u64,
    },
    Broken(u64),
}

/// Why no body was read.
#[derive(Clone, Copy, PartialEq, Eq, Debug, Drop)]
pub(crate) enum NoBody {
    Memory,
    Failed,
    EndsEarly,
}

/// Fills a buffer from a place on. `false` where the disk ends before.
pub(crate) fn fill<D: Disk>(disk: &mut D, at: u64, into: &mut [u8]) -> Result<bool, Failed>
    requires { at + length into.old < 2 ^ 64 }
    ensures filled { D.told → at + length into.old ≤ length (D.seen disk.old)
        → IfOk result (λ whole. IsTrue whole × (into.new ≡ take (length into.new) (drop at (D.seen disk.old)))) }
    ensures quiet { Quiet D.told D.seen D.may_leave D.moment D.left_since disk.old disk.new }
    ensures cause { CountsFault (D.faults disk.old) (D.faults disk.new) result }
{
    let mut done = 0;
    while done < into.len() {
        let count = disk.read(at + done as u64, &mut into[done..])?;
        if count == 0 {
            return Ok(false);
        }
        done += count;
    }
    Ok(true)
}

/// The number that four bytes spell, the lowest first.
pub(crate) fn length_of(a: u8, b: u8, c: u8, d: u8) -> u32
    ensures { le 4 result ≡ a ∷ b ∷ c ∷ d ∷ [] }
{
    a as u32 + 256 * (b as u32) + 65_536 * (c as u32) + 16_777_216 * (d as u32)
}

// What the first bytes of so many tell of an entry.
fn judge(head: &[u8], form: Form, left: u64) -> Look
    requires some { 0 < left }
    requires front { length head.now ≡ min 5 left }
    ensures shows { (m : List ℕ) → length m ≡ left → take (length head.now) m ≡ head.now → HeadShows form m result }
    ensures fits { FitsBefore form 0 left result }
{
    if head[0] != 1 {
        return Look::Closed;
    }
    if head.len() < 5 {
        return Look::NoEntry;
    }
    let length = length_of(head[1], head[2], head[3], head[4]);
    let sum = sum_bytes(form);
    // The next gate has to be there too: it was synced with the entry, before this gate opened.
    if 5 + sum + length as u64 >= left {
        return Look::NoEntry;
    }
    Look::Entry(length)
}

fn read_head<D: Disk>(disk: &mut D, form: Form, gate: u64, end: u64) -> Result<Look, Failed>
    requires { gate < end }
    ensures shows { D.told → end ≡ length (D.seen disk.old) → IfOk result (λ l. HeadShows form (drop gate (D.seen disk.old)) l) }
    ensures fits { IfOk result (λ l. FitsBefore form gate end l) }
    ensures quiet { Quiet D.told D.seen D.may_leave D.moment D.left_since disk.old disk.new }
    ensures cause { CountsFault (D.faults disk.old) (D.faults disk.new) result }
{
    let left = end - gate;
    let count = left.min(5) as usize;
    let mut head = [0; 5];
    if fill(disk, gate, &mut head[..count])? {
        Ok(judge(&head[..count], form, left))
    } else {
        Ok(Look::NoEntry)
    }
}

// The number in four bytes, or `None` where the disk ends before.
fn read_number<D: Disk>(disk: &mut D, at: u64) -> Result<Option<u32>, Failed>
    requires { at + 4 < 2 ^ 64 }
    ensures tells { D.told → at + 4 ≤ length (D.seen disk.old) → IfOk result (λ o. TellsLength (take 4 (drop at (D.seen disk.old))) o) }
    ensures quiet { Quiet D.told D.seen D.may_leave D.moment D.left_since disk.old disk.new }
    ensures cause { CountsFault (D.faults disk.old) (D.faults disk.new) result }
{
    let mut head = [0; 4];
    if fill(disk, at, &mut head)? {
        Ok(Some(length_of(head[0], head[1], head[2], head[3])))
    } else {
        Ok(None)
    }
}

// Goes on with a checksum by as many bytes from a place on as the buffer has.
fn sum_part<D: Disk>(
    disk: &mut D,
    at: u64,
    buffer: &mut [u8],
    sum: &mut Sum,
) -> Result<bool, Failed>
    requires { at + length buffer.old < 2 ^ 64 }
    ensures summed { D.told → at + length buffer.old ≤ length (D.seen disk.old) → IfOk result (λ whole. IsTrue whole
        × (sum.new ≡ behind_bytes sum.old (take (length buffer.new) (drop at (D.seen disk.old))))) }
    ensures quiet { Quiet D.told D.seen D.may_leave D.moment D.left_since disk.old disk.new }
    ensures cause { CountsFault (D.faults disk.old) (D.faults disk.new) result }
{
    let whole = fill(disk, at, buffer)?;
    sum.add(buffer);
    Ok(whole)
}

// Goes on with a checksum by so many bytes from a place on. `false` where the disk ends before.
fn sum_range<D: Disk>(disk: &mut D, at: u64, count: u64, sum: &mut Sum) -> Result<bool, Failed>
    requires { at + count < 2 ^ 64 }
    ensures summed { D.told → at + count ≤ length (D.seen disk.old) → IfOk result (λ whole. IsTrue whole
        × (sum.new ≡ behind_bytes sum.old (take count (drop at (D.seen disk.old))))) }
    ensures quiet { Quiet D.told D.seen D.may_leave D.moment D.left_since disk.old disk.new }
    ensures cause { CountsFault (D.faults disk.old) (D.faults disk.new) result }
{
    sums_law();
    let mut buffer = [0; PART];
    let mut done = 0;
    while done < count {
        let part = (count - done).min(PART as u64) as usize;
        let whole = sum_part(disk, at + done, &mut buffer[..part], sum)?;
        if !whole {
            return Ok(false);
        }
        done += part as u64;
    }
    Ok(true)
}

// Whether the checksum behind a gate is that of the length before it and of the body, of so many bytes, behind it.
fn is_summed<D: Disk>(disk: &mut D, gate: u64, size: u32) -> Result<bool, Failed>
    requires { gate + 9 + size < 2 ^ 64 }
    ensures told { D.told → gate + 9 + size ≤ length (D.seen disk.old) → IfOk result (λ is. SumIs (drop (gate + 1) (D.seen disk.old)) size is) }
    ensures quiet { Quiet D.told D.seen D.may_leave D.moment D.left_since disk.old disk.new }
    ensures cause { CountsFault (D.faults disk.old) (D.faults disk.new) result }
{
    sums_law();
    let mut head = [0; 8];
    let front = fill(disk, gate + 1, &mut head)?;
    if !front {
        return Ok(false);
    }
    let told = length_of(head[4], head[5], head[6], head[7]);
    let mut sum = Sum::new();
    sum.add(&head[..4]);
    let back = sum_range(disk, gate + 9, size as u64, &mut sum)?;
    if !back {
        return Ok(false);
    }
    let value = sum.value();
    Ok(value == told)
}

// An entry stands only where its checksum does.
fn look_further<D: Disk>(
    disk: &mut D,
    form: Form,
    gate: u64,
    end: u64,
    look: Look,
) -> Result<Look, Failed>
    requires { FitsBefore form gate end look }
    ensures shows { D.told → end ≡ length (D.seen disk.old) → HeadShows form (drop gate (D.seen disk.old)) look
        → IfOk result (λ l. JournalShows form (drop gate (D.seen disk.old)) l) }
    ensures fits { IfOk result (λ l. FitsBefore form gate end l) }
    ensures quiet { Quiet D.told D.seen D.may_leave D.moment D.left_since disk.old disk.new }
    ensures cause { CountsFault (D.faults disk.old) (D.faults disk.new) result }
{
    match look {
        Look::Entry(size) => match form {
            Form::Plain => Ok(Look::Entry(size)),
            Form::Summed => {
                let same = is_summed(disk, gate, size)?;
                if same {
                    Ok(Look::Entry(size))
                } else {
                    Ok(Look::NoEntry)
                }
            }
        },
        Look::Closed => Ok(Look::Closed),
        Look::NoEntry => Ok(Look::NoEntry),
    }
}

fn read_gate<D: Disk>(disk: &mut D, form: Form, gate: u64, end: u64) -> Result<Look, Failed>
    requires { gate < end }
    ensures shows { D.told → end ≡ length (D.seen disk.old) → IfOk result (λ l. JournalShows form (drop gate (D.seen disk.old)) l) }
    ensures fits { IfOk result (λ l. FitsBefore form gate end l) }
    ensures quiet { Quiet D.told D.seen D.may_leave D.moment D.left_since disk.old disk.new }
    ensures cause { CountsFault (D.faults disk.old) (D.faults disk.new) result }
{
    let look = read_head(disk, form, gate, end)?;
    look_further(disk, form, gate, end, look)
}

// The form that the eighth byte tells behind the seven that both forms begin with.
fn form_of(last: u8) -> Header
    ensures { (m : List ℕ) → 8 ≤ length m → take 7 m ≡ take 7 magic → get_or m 7 0 ≡ last → ChecksMark m result }
{
    if last == b'1' {
        return Header::Is(Form::Plain);
    }
    if last == b'2' {
        return Header::Is(Form::Summed);
    }
    Header::Differs(7)
}

fn first_difference(head: &[u8]) -> Header
    requires { length head.now ≡ 8 }
    ensures { (m : List ℕ) → 8 ≤ length m → take 8 m ≡ head.now → ChecksMark m result }
{
    for i in 0..7usize {
        if head[i] != MARK[i] {
            return Header::Differs(i as u64);
        }
    }
    form_of(head[7])
}

fn check_mark<D: Disk>(disk: &mut D) -> Result<Header, Failed>
    ensures checks { D.told → 8 ≤ length (D.seen disk.old) → IfOk result (λ o. ChecksMark (D.seen disk.old) o) }
    ensures quiet { Quiet D.told D.seen D.may_leave D.moment D.left_since disk.old disk.new }
    ensures cause { CountsFault (D.faults disk.old) (D.faults disk.new) result }
{
    let mut head = [0; 8];
    if fill(disk, 0, &mut head)? {
        Ok(first_difference(&head))
    } else {
        Ok(Header::Differs(0))
    }
}

// From the first gate to one that is closed, or that stands before no entry.
fn scan<D: Disk>(disk: &mut D, form: Form, end: u64) -> Result<Found, Failed>
    requires { 8 < end }
    ensures found { D.told → end ≡ length (D.seen disk.old) → take 8 (D.seen disk.old) ≡ form_mark form
        → IfOk result (λ f. FoundIn (D.seen disk.old) f) }
    ensures bound { IfOk result (λ f. IsWithin end f) }
    ensures quiet { Quiet D.told D.seen D.may_leave D.moment D.left_since disk.old disk.new }
    ensures cause { CountsFault (D.faults disk.old) (D.faults disk.new) result }
{
    let sum = sum_bytes(form);
    let mut gate = 8;
    let mut used = 9;
    let mut count = 0;
    loop {
        match read_gate(disk, form, gate, end)? {
            Look::Closed => {
                return Ok(Found::Behind {
                    form,
                    gate,
                    used,
                    count,
                });
            }
            Look::NoEntry => return Ok(Found::Broken(gate)),
            Look::Entry(length) => {
                gate += 5 + sum + length as u64;
                used += 5 + length as u64;
                count += 1;
            }
        }
    }
}

/// How a disk of at least 9 bytes stands.
pub(crate) fn survey<D: Disk>(disk: &mut D, end: u64) -> Result<Found, Failed>
    requires { 8 < end }
    ensures found { D.told → end ≡ length (D.seen disk.old) → IfOk result (λ f. FoundIn (D.seen disk.old) f) }
    ensures bound { IfOk result (λ f. IsWithin end f) }
    ensures quiet { Quiet D.told D.seen D.may_leave D.moment D.left_since disk.old disk.new }
    ensures cause { CountsFault (D.faults disk.old) (D.faults disk.new) result }
{
    match check_mark(disk)? {
        Header::Differs(at) => Ok(Found::Broken(at)),
        Header::Is(form) => scan(disk, form, end),
    }
}

// A buffer of so many zeros.
fn zeros(alloc: Global, count: usize) -> Result<Vec<u8>, AllocError>
    ensures { IfOk result (λ v. length v.items ≡ count) }
{
    let mut buffer = Vec::new(alloc);
    buffer.resize(count, 0)?;
    Ok(buffer)
}

// So many bytes from a place on.
fn read_piece<D: Disk>(alloc: Global, disk: &mut D, at: u64, count: u32) -> Result<Bytes, NoBody>
    requires { at + count < 2 ^ 64 }
    ensures piece { D.told → at + count ≤ length (D.seen disk.old) → GivesBody (take count (drop at (D.seen disk.old))) result }
    ensures length { IfOk result (λ b. length b ≡ count) }
    ensures quiet { Quiet D.told D.seen D.may_leave D.moment D.left_since disk.old disk.new }
    ensures cause { ReadCause (D.faults disk.old) (D.faults disk.new) result }
{
    let Ok(mut buffer) = zeros(alloc, count as usize) else {
        return Err(NoBody::Memory);
    };
    match fill(disk, at, &mut buffer) {
        Ok(true) => Ok(Bytes::from_vec(buffer)),
        Ok(false) => Err(NoBody::EndsEarly),
        Err(_) => Err(NoBody::Failed),
    }
}

/// The body behind the gate at a place, of an entry that ends at most where `end` is. Its checksum was looked at when the gates were
/// read.
pub(crate) fn read_body<D: Disk>(
    alloc: Global,
    disk: &mut D,
    form: Form,
    gate: u64,
    end: u64,
) -> Result<Bytes, NoBody>
    requires { gate < end }
    ensures body { D.told → (front body rest : List ℕ) → EntryAt form gate end front body rest (D.seen disk.old) → GivesBody body result }
    ensures within { IfOk result (λ b. gate + 5 + sum_size form + length b ≤ end) }
    ensures quiet { Quiet D.told D.seen D.may_leave D.moment D.left_since disk.old disk.new }
    ensures cause { ReadCause (D.faults disk.old) (D.faults disk.new) result }
{
    let sum = sum_bytes(form);
    if end - gate < 5 + sum {
        return Err(NoBody::EndsEarly);
    }
    match read_number(disk, gate + 1) {
        Ok(Some(length)) => {
            if length as u64 > end - gate - 5 - sum {
                return Err(NoBody::EndsEarly);
            }
            read_piece(alloc, disk, gate + 5 + sum, length)
        }
        Ok(None) => Err(NoBody::EndsEarly),
        Err(_) => Err(NoBody::Failed),
    }
}
