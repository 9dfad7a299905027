ghost use Rattle.std.specs.Prelude.{◌≡◌, ◌<◌, ◌≤◌, ◌^◌, ◌/◌, true, IfOk, length};
ghost use Rattle.law_commands.specs.commands.Fitting.{AreElements};
ghost use Rattle.wire_commands.specs.values.Meaning.{command_of, message_of};
ghost use Rattle.spec_exchange.specs.Effects.{lock_records, recorded_index};
ghost use Rattle.spec_exchange.specs.Records.{origin_of};
ghost use Rattle.spec_exchange.specs.State.{LockRecord, Server};
ghost use Rattle.spec_exchange.specs.Status.{success};
ghost use Rattle.journal_bytes.specs.record_bytes.Meaning as journal;
ghost use Rattle.journal_bytes.specs.record_bytes.Meaning.{record_of, records_of};
ghost use Rattle.store_opens.specs.open_table.Rows.{open_of};
ghost use Rattle.store_opens.specs.open_table.Shown.{ShowsOpens};
ghost use Rattle.server_checks.specs.verdicts.Views.{elements_in};

use crate::owed_records::records::{no_record, one_record, origin_of};
use journal_bytes::{Record, Records};
use server_checks::is_slot;
use std::alloc::{AllocError, Global};
use store_opens::{Opens, Row};
use wire_bytes::Bytes;
use wire_commands::{Command, Element, Message, elements_bytes};

// The records of a LOCK that its open's slot keeps, of a persistent open.
pub(crate) fn lock_records(
    alloc: Global,
    opens: &Opens,
    m: &Message<'_>,
    id: u64,
    index: u32,
    number: u8,
    status: u32,
) -> Result<Records, AllocError>
    ensures { (s : Server) → ShowsOpens opens.now s → s.standing id ≡ true
        → IfOk result (λ rs. records_of rs
        ≡ lock_records s (message_of m.now) id index number status (elements_in (command_of m.now.command))) }
{
    match opens.row(id) {
        Some(row) => row_records(alloc, row, m, id, index, number, status),
        None => Ok(no_record(alloc)),
    }
}

// The records of a LOCK that is granted.
pub(crate) fn granted_records(
    alloc: Global,
    opens: &Opens,
    m: &Message<'_>,
    id: u64,
    index: u32,
    number: u8,
) -> Result<Records, AllocError>
    ensures { (s : Server) → ShowsOpens opens.now s → s.standing id ≡ true
        → IfOk result (λ rs. records_of rs
        ≡ lock_records s (message_of m.now) id index number success (elements_in (command_of m.now.command))) }
{
    lock_records(alloc, opens, m, id, index, number, 0)
}

// The same, with the row of its open.
fn row_records(
    alloc: Global,
    row: &Row,
    m: &Message<'_>,
    id: u64,
    index: u32,
    number: u8,
    status: u32,
) -> Result<Records, AllocError>
    ensures { (s : Server) → s.opened id ≡ open_of row.now
        → IfOk result (λ rs. records_of rs
        ≡ lock_records s (message_of m.now) id index number status (elements_in (command_of m.now.command))) }
{
    if !row.persistent {
        return Ok(no_record(alloc));
    }
    let one = lock_record(alloc, m, id, index, number, status)?;
    one_record(alloc, one)
}

fn lock_record(
    alloc: Global,
    m: &Message<'_>,
    id: u64,
    index: u32,
    number: u8,
    status: u32,
) -> Result<Record, AllocError>
    ensures { IfOk result (λ r. record_of r
        ≡ LockRecord (origin_of (message_of m.now)) id (recorded_index index) number status (elements_in (command_of m.now.command))) }
{
    let origin = origin_of(m);
    let index = recorded_index(index);
    let elements = element_bytes(alloc, elements_of(m))?;
    Ok(Record::Lock {
        origin,
        id,
        index,
        number,
        status,
        elements,
    })
}

// One that uses no slot is recorded with the index 0.
fn recorded_index(index: u32) -> u8
    ensures { result ≡ recorded_index index }
{
    if !is_slot(index) {
        return 0;
    }
    narrow(index)
}

fn narrow(index: u32) -> u8
    requires { index ≤ 64 }
    ensures { result ≡ index }
{
    index as u8
}

// The elements as a record has them.
fn element_bytes(alloc: Global, elements: &[Element]) -> Result<Bytes, AllocError>
    ensures { IfOk result (λ b. journal.elements_in (length b / 24) b ≡ elements.now) }
{
    read_elements(elements);
    elements_bytes(alloc, elements)
}

// Reads each element, so that its numbers are known to fit their fields.
fn read_elements(elements: &[Element])
    ensures { AreElements elements.now }
{
    for element in elements {
        read_element(element.at, element.length, element.flags);
    }
}

fn read_element(offset: u64, size: u64, flags: u32)
    ensures { (offset < 256 ^ 8) × (size < 256 ^ 8) × (flags < 256 ^ 4) }
{
    let _read = (offset, size, flags);
}

// The elements of a LOCK.
fn elements_of<'m>(m: &'m Message<'_>) -> &'m [Element]
    ensures { result.now ≡ elements_in (command_of m.now.command) }
{
    match &m.command {
        Command::Lock { elements, .. } => elements.as_slice(),
        _ => &[],
    }
}
