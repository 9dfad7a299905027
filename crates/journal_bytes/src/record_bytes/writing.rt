//! Records written one behind the other, in version 2. Each is put as the table that the grammar has of it.
ghost use Rattle.std.specs.Prelude.{◌≡◌, [], ◌∷◌, ◌++◌, OnOk, IfOk, IsOk};
ghost use Rattle.spec_wire.specs.messages.Table.{Num, with_fields};
ghost use Rattle.spec_wire.specs.messages.Utf16.{utf16};
ghost use Rattle.journal_bytes.specs.record_bytes.Grammar.{kind, origin_table, text_table, opened_table, record_table};
ghost use Rattle.journal_bytes.specs.record_bytes.Grammar.{TextFits, OpenFits, WrittenRecordFits, WrittenRecordsFit, records_spelling};

use crate::record_bytes::putting::Put::{Byte, Flag, Guid, Long, Raw, Short, Wide};
use crate::record_bytes::putting::{Put, put_fields};
use crate::record_bytes::value::{NewOpen, Record};
use spec_exchange::values::Origin;
use std::alloc::{AllocError, Global};
use wire_bytes::{Bytes, Text, utf16_of};

pub(crate) fn put_text(alloc: Global, out: &mut Vec<u8>, text: &Text) -> Result<(), AllocError>
    requires { TextFits text.now }
    ensures { OnOk result (out.new.items ≡ with_fields out.old.items (text_table (utf16 text.now))) }
{
    let spelled = utf16_of(alloc, text.as_str())?;
    let units = spelled.as_slice();
    put_fields(out, &[Short(units.len() as u16), Raw(units)])
}

fn put_opened(alloc: Global, out: &mut Vec<u8>, opened: &Option<NewOpen>) -> Result<(), AllocError>
    requires { OpenFits opened.now }
    ensures { OnOk result (out.new.items ≡ with_fields out.old.items (opened_table 2 opened.now)) }
{
    let Some(open) = opened else {
        return put_fields(out, &[Byte(0)]);
    };
    put_fields(
        out,
        &[Byte(1), Wide(open.id), Guid(open.client), Guid(open.guid)],
    )?;
    put_text(alloc, out, &open.user)?;
    put_fields(
        out,
        &[
            Long(open.access),
            Long(open.share),
            Long(open.options),
            Long(open.timeout),
        ],
    )
}

// A record's kind, its origin and the file or the open that it is of.
fn put_front(out: &mut Vec<u8>, kind: u8, origin: &Origin, subject: u64) -> Result<(), AllocError>
    ensures { OnOk result (out.new.items ≡ with_fields out.old.items (Num 1 kind ∷ (origin_table origin.now ++ (Num 8 subject ∷ [])))) }
{
    put_fields(out, &[Byte(kind), Put::Origin(*origin), Wide(subject)])
}

fn put_create(alloc: Global, out: &mut Vec<u8>, r: &Record) -> Result<(), AllocError>
    requires kind { kind r.now ≡ 2 }
    requires fits { WrittenRecordFits r.now }
    ensures { OnOk result (out.new.items ≡ with_fields out.old.items (record_table 2 r.now)) }
{
    let Record::Create {
        origin,
        action,
        file,
        path,
        attributes,
        directory,
        time,
        opened,
    } = r
    else {
        unreachable!()
    };
    put_fields(
        out,
        &[Byte(2), Put::Origin(*origin), Long(*action), Wide(*file)],
    )?;
    put_text(alloc, out, path)?;
    put_fields(out, &[Long(*attributes), Flag(*directory), Wide(*time)])?;
    put_opened(alloc, out, opened)
}

fn put_write(out: &mut Vec<u8>, r: &Record) -> Result<(), AllocError>
    requires kind { kind r.now ≡ 3 }
    requires fits { WrittenRecordFits r.now }
    ensures { OnOk result (out.new.items ≡ with_fields out.old.items (record_table 2 r.now)) }
{
    let Record::Write {
        origin,
        file,
        at,
        time,
        bytes,
    } = r
    else {
        unreachable!()
    };
    let bytes = bytes.as_slice();
    let count = bytes.len() as u32;
    put_fields(
        out,
        &[
            Byte(3),
            Put::Origin(*origin),
            Wide(*file),
            Wide(*at),
            Wide(*time),
            Long(count),
            Raw(bytes),
        ],
    )
}

fn put_end(out: &mut Vec<u8>, r: &Record) -> Result<(), AllocError>
    requires { kind r.now ≡ 4 }
    ensures { OnOk result (out.new.items ≡ with_fields out.old.items (record_table 2 r.now)) }
{
    let Record::SetEnd {
        origin,
        file,
        length,
        time,
    } = r
    else {
        unreachable!()
    };
    put_fields(
        out,
        &[
            Byte(4),
            Put::Origin(*origin),
            Wide(*file),
            Wide(*length),
            Wide(*time),
        ],
    )
}

fn put_basic(out: &mut Vec<u8>, r: &Record) -> Result<(), AllocError>
    requires { kind r.now ≡ 5 }
    ensures { OnOk result (out.new.items ≡ with_fields out.old.items (record_table 2 r.now)) }
{
    let Record::SetBasic {
        origin,
        file,
        basic,
    } = r
    else {
        unreachable!()
    };
    put_front(out, 5, origin, *file)?;
    put_fields(
        out,
        &[
            Wide(basic.created),
            Wide(basic.accessed),
            Wide(basic.written),
            Wide(basic.changed),
            Long(basic.attributes),
        ],
    )
}

fn put_rename(alloc: Global, out: &mut Vec<u8>, r: &Record) -> Result<(), AllocError>
    requires kind { kind r.now ≡ 7 }
    requires fits { WrittenRecordFits r.now }
    ensures { OnOk result (out.new.items ≡ with_fields out.old.items (record_table 2 r.now)) }
{
    let Record::Rename {
        origin,
        file,
        replaced,
        path,
    } = r
    else {
        unreachable!()
    };
    put_fields(
        out,
        &[Byte(7), Put::Origin(*origin), Wide(*file), Wide(*replaced)],
    )?;
    put_text(alloc, out, path)
}

fn put_lock(out: &mut Vec<u8>, r: &Record) -> Result<(), AllocError>
    requires kind { kind r.now ≡ 9 }
    requires fits { WrittenRecordFits r.now }
    ensures { OnOk result (out.new.items ≡ with_fields out.old.items (record_table 2 r.now)) }
{
    let Record::Lock {
        origin,
        id,
        index,
        number,
        status,
        elements,
    } = r
    else {
        unreachable!()
    };
    let elements = elements.as_slice();
    let count = (elements.len() / 24) as u16;
    put_front(out, 9, origin, *id)?;
    put_fields(
        out,
        &[
            Byte(*index),
            Byte(*number),
            Long(*status),
            Short(count),
            Raw(elements),
        ],
    )
}

fn put_record(alloc: Global, out: &mut Vec<u8>, r: &Record) -> Result<(), AllocError>
    requires { WrittenRecordFits r.now }
    ensures { OnOk result (out.new.items ≡ with_fields out.old.items (record_table 2 r.now)) }
{
    match r {
        Record::Epoch { number } => put_fields(out, &[Byte(1), Long(*number)]),
        Record::Create { .. } => put_create(alloc, out, r),
        Record::Write { .. } => put_write(out, r),
        Record::SetEnd { .. } => put_end(out, r),
        Record::SetBasic { .. } => put_basic(out, r),
        Record::SetDelete {
            origin,
            file,
            marked,
        } => put_fields(
            out,
            &[Byte(6), Put::Origin(*origin), Wide(*file), Flag(*marked)],
        ),
        Record::Rename { .. } => put_rename(alloc, out, r),
        Record::Remove { origin, file } => put_front(out, 8, origin, *file),
        Record::Lock { .. } => put_lock(out, r),
        Record::Shut { origin, id } => put_front(out, 10, origin, *id),
        Record::Version { number } => put_fields(out, &[Byte(11), Long(*number)]),
        Record::Expire { origin, id } => put_front(out, 12, origin, *id),
    }
}

/// Writes records one behind the other, in version 2. `can_write` tells whether their texts, bytes and elements fit. Of no
/// records it takes no memory.
pub fn write_records(alloc: Global, records: &[Record]) -> Result<Bytes, AllocError>
    requires { WrittenRecordsFit records.now }
    ensures spelled { IfOk result (λ b. b ≡ records_spelling records.now) }
    ensures sure { records.now ≡ [] → IsOk result }
{
    let mut out = Vec::new(alloc);
    for r in records {
        put_record(alloc, &mut out, r)?;
    }
    Ok(Bytes::from_vec(out))
}
