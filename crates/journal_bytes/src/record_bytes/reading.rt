//! Records read one after the other.
ghost use Rattle.std.specs.Prelude.{◌≡◌, ◌≤◌, length};
ghost use Rattle.spec_wire.specs.messages.Places.{number};
ghost use Rattle.journal_bytes.specs.record_bytes.Grammar.{IsRecordTimeout, OpenIsKept, opened_table, timeout_table, next_version, ReadsRecords};
ghost use Rattle.journal_bytes.specs.record_bytes.Reading.{TakesPart, ReadsRecord};

use crate::record_bytes::fault::{Fault, RecordError};
use crate::record_bytes::fixed::{
    read_epoch, read_expire, read_remove, read_set_basic, read_set_end, read_shut,
};
use crate::record_bytes::list::Records;
use crate::record_bytes::parts::{flag_of, read_text};
use crate::record_bytes::value::{NewOpen, Record};
use crate::record_bytes::variable::{
    create_fields, delete_fields, lock_fields, open_fields, rename_fields, version_field,
    write_fields,
};
use std::alloc::Global;
use wire_bytes::{Bytes, Cursor};

// A record, and the place behind it.
#[derive(Drop)]
pub(crate) struct Found {
    pub(crate) record: Record,
    pub(crate) end: usize,
}

fn read_timeout(cursor: &mut Cursor<'_>, version: u32) -> Result<u32, Fault>
    requires { cursor.old.at ≤ length cursor.old.bytes }
    ensures { TakesPart (timeout_table version) (IsRecordTimeout version) cursor.old cursor.new result }
{
    if version == 1 {
        return Ok(60_000);
    }
    Ok(cursor.get_u32()?)
}

#[tactic(auto, using(crate::proofs::record_bytes::Refusals::opens))]
fn read_opened(
    alloc: Global,
    cursor: &mut Cursor<'_>,
    version: u32,
) -> Result<Option<NewOpen>, Fault>
    ensures { TakesPart (opened_table version) (OpenIsKept version) cursor.old cursor.new result }
{
    let told = cursor.get_u8()?;
    if told == 0 {
        return Ok(None);
    }
    if told != 1 {
        return Err(Fault::Bad);
    }
    let fields = open_fields(cursor)?;
    let user = read_text(alloc, fields.user)?;
    let timeout = read_timeout(cursor, version)?;
    Ok(Some(NewOpen {
        id: fields.id,
        client: fields.client,
        guid: fields.guid,
        user,
        access: fields.access,
        share: fields.share,
        options: fields.options,
        timeout,
    }))
}

#[tactic(auto, using(crate::proofs::record_bytes::Refusals::creates))]
fn read_create(alloc: Global, m: &[u8], version: u32) -> Result<Found, Fault>
    requires { number 1 m.now 0 ≡ 2 }
    ensures { ReadsRecord version m.now result }
{
    let mut cursor = Cursor::new(m);
    let _kind = cursor.get_u8()?;
    let fields = create_fields(&mut cursor)?;
    let Some(directory) = flag_of(fields.directory) else {
        return Err(Fault::Bad);
    };
    let path = read_text(alloc, fields.path)?;
    let opened = read_opened(alloc, &mut cursor, version)?;
    Ok(Found {
        record: Record::Create {
            origin: fields.origin,
            action: fields.action,
            file: fields.file,
            path,
            attributes: fields.attributes,
            directory,
            time: fields.time,
            opened,
        },
        end: cursor.at(),
    })
}

#[tactic(auto, using(crate::proofs::record_bytes::Refusals::write_short))]
fn read_write(alloc: Global, m: &[u8], version: u32) -> Result<Found, Fault>
    requires { number 1 m.now 0 ≡ 3 }
    ensures { ReadsRecord version m.now result }
{
    let fields = write_fields(m)?;
    let end = 49 + fields.bytes.len();
    let bytes = Bytes::from_slice(alloc, fields.bytes)?;
    Ok(Found {
        record: Record::Write {
            origin: fields.origin,
            file: fields.file,
            at: fields.at,
            time: fields.time,
            bytes,
        },
        end,
    })
}

#[tactic(auto, using(crate::proofs::record_bytes::Refusals::delete_short, crate::proofs::record_bytes::Refusals::delete_flag))]
fn read_set_delete(m: &[u8], version: u32) -> Result<Found, Fault>
    requires { number 1 m.now 0 ≡ 6 }
    ensures { ReadsRecord version m.now result }
{
    let fields = delete_fields(m)?;
    let Some(marked) = flag_of(fields.marked) else {
        return Err(Fault::Bad);
    };
    Ok(Found {
        record: Record::SetDelete {
            origin: fields.origin,
            file: fields.file,
            marked,
        },
        end: 30,
    })
}

#[tactic(auto, using(crate::proofs::record_bytes::Refusals::rename_short, crate::proofs::record_bytes::Refusals::rename_text))]
fn read_rename(alloc: Global, m: &[u8], version: u32) -> Result<Found, Fault>
    requires { number 1 m.now 0 ≡ 7 }
    ensures { ReadsRecord version m.now result }
{
    let fields = rename_fields(m)?;
    let end = 39 + fields.path.len();
    let path = read_text(alloc, fields.path)?;
    Ok(Found {
        record: Record::Rename {
            origin: fields.origin,
            file: fields.file,
            replaced: fields.replaced,
            path,
        },
        end,
    })
}

#[tactic(auto, using(crate::proofs::record_bytes::Refusals::lock_short, crate::proofs::record_bytes::Refusals::lock_size))]
fn read_lock(alloc: Global, m: &[u8], version: u32) -> Result<Found, Fault>
    requires { number 1 m.now 0 ≡ 9 }
    ensures { ReadsRecord version m.now result }
{
    let fields = lock_fields(m)?;
    let end = 37 + fields.elements.len();
    let elements = Bytes::from_slice(alloc, fields.elements)?;
    Ok(Found {
        record: Record::Lock {
            origin: fields.origin,
            id: fields.id,
            index: fields.index,
            number: fields.number,
            status: fields.status,
            elements,
        },
        end,
    })
}

#[tactic(auto, using(crate::proofs::record_bytes::Refusals::version_short, crate::proofs::record_bytes::Refusals::version_other))]
fn read_version(m: &[u8], version: u32) -> Result<Found, Fault>
    requires { number 1 m.now 0 ≡ 11 }
    ensures { ReadsRecord version m.now result }
{
    let number = version_field(m)?;
    if number != 2 {
        return Err(Fault::Bad);
    }
    Ok(Found {
        record: Record::Version { number },
        end: 5,
    })
}

// The record that bytes begin with.
#[tactic(auto, using(crate::proofs::record_bytes::Told::too_short, crate::proofs::record_bytes::Told::no_bytes, crate::proofs::record_bytes::Told::is_known))]
fn read_record(alloc: Global, m: &[u8], version: u32) -> Result<Found, Fault>
    ensures { ReadsRecord version m.now result }
{
    let kind = Cursor::new(m).get_u8()?;
    // All twelve kinds in one function, since a proof costs by the function and hardly by its lines.
    match kind {
        1 => Ok(Found {
            record: read_epoch(m)?,
            end: 5,
        }),
        2 => read_create(alloc, m, version),
        3 => read_write(alloc, m, version),
        4 => Ok(Found {
            record: read_set_end(m)?,
            end: 45,
        }),
        5 => Ok(Found {
            record: read_set_basic(m)?,
            end: 65,
        }),
        6 => read_set_delete(m, version),
        7 => read_rename(alloc, m, version),
        8 => Ok(Found {
            record: read_remove(m)?,
            end: 29,
        }),
        9 => read_lock(alloc, m, version),
        10 => Ok(Found {
            record: read_shut(m)?,
            end: 29,
        }),
        11 => read_version(m, version),
        12 => Ok(Found {
            record: read_expire(m)?,
            end: 29,
        }),
        _ => Err(Fault::Bad),
    }
}

// The version behind a record.
fn next_version(version: u32, found: &Record) -> u32
    ensures { result ≡ next_version version found.now }
{
    match found {
        Record::Version { number } => *number,
        _ => version,
    }
}

/// The records of a body. Where the journal is of version 1, an open has no timeout on the disk and one of 60,000 ms
/// here, up to a Version record; behind it, and in any other version, it has its own. `BadRecord` has the place of the
/// first record that is none.
#[tactic(auto, using(crate::proofs::record_bytes::Walk::arrived))]
pub fn read_records(alloc: Global, body: &[u8], version: u32) -> Result<Records, RecordError>
    ensures { ReadsRecords (λ rs. rs) version body.now result }
{
    let mut records = Records::new(alloc);
    let mut at = 0;
    let mut reached = version;
    while at < body.len() {
        let found = match read_record(alloc, &body[at..], reached) {
            Ok(found) => found,
            Err(Fault::Memory) => return Err(RecordError::Memory),
            Err(Fault::Bad) => return Err(RecordError::BadRecord(at)),
        };
        at += found.end;
        reached = next_version(reached, &found.record);
        if records.push(found.record).is_err() {
            return Err(RecordError::Memory);
        }
    }
    Ok(records)
}
