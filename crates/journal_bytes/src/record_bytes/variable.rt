//! The fields of records that don't have always the same size, or whose bytes may tell no record. They borrow their bytes.
ghost use Rattle.std.specs.Prelude.{◌≡◌, ◌+◌, ◌*◌, ◌<◌, ◌≤◌, length, MatchResult};
ghost use Rattle.spec_wire.specs.messages.Places.{number};
ghost use Rattle.journal_bytes.specs.record_bytes.Reading.{StepsOver, ReadsFields, open_fields_table, create_fields_table};
ghost use Rattle.journal_bytes.specs.record_bytes.Reading.{write_fields_table, delete_fields_table, rename_fields_table};
ghost use Rattle.journal_bytes.specs.record_bytes.Reading.{lock_fields_table};

use crate::record_bytes::parts::read_origin;
use spec_exchange::values::Origin;
use wire_bytes::{Cursor, Short};

// Up to the byte that tells whether an open was made.
#[derive(Clone, Copy)]
pub(crate) struct CreateFields<'a> {
    pub(crate) origin: Origin,
    pub(crate) action: u32,
    pub(crate) file: u64,
    pub(crate) path: &'a [u8],
    pub(crate) attributes: u32,
    pub(crate) directory: u8,
    pub(crate) time: u64,
}

// Behind that byte, up to the timeout.
#[derive(Clone, Copy)]
pub(crate) struct OpenFields<'a> {
    pub(crate) id: u64,
    pub(crate) client: [u8; 16],
    pub(crate) guid: [u8; 16],
    pub(crate) user: &'a [u8],
    pub(crate) access: u32,
    pub(crate) share: u32,
    pub(crate) options: u32,
}

#[derive(Clone, Copy)]
pub(crate) struct WriteFields<'a> {
    pub(crate) origin: Origin,
    pub(crate) file: u64,
    pub(crate) at: u64,
    pub(crate) time: u64,
    pub(crate) bytes: &'a [u8],
}

#[derive(Clone, Copy)]
pub(crate) struct DeleteFields {
    pub(crate) origin: Origin,
    pub(crate) file: u64,
    pub(crate) marked: u8,
}

#[derive(Clone, Copy)]
pub(crate) struct RenameFields<'a> {
    pub(crate) origin: Origin,
    pub(crate) file: u64,
    pub(crate) replaced: u64,
    pub(crate) path: &'a [u8],
}

#[derive(Clone, Copy)]
pub(crate) struct LockFields<'a> {
    pub(crate) origin: Origin,
    pub(crate) id: u64,
    pub(crate) index: u8,
    pub(crate) number: u8,
    pub(crate) status: u32,
    pub(crate) elements: &'a [u8],
}

#[tactic(auto, using(spec_wire::proofs::messages::Numbers::lengths))]
pub(crate) fn create_fields<'a>(cursor: &mut Cursor<'a>) -> Result<CreateFields<'a>, Short>
    requires { cursor.old.at ≡ 1 }
    ensures { StepsOver create_fields_table (47 + number 2 cursor.old.bytes 33) cursor.old cursor.new result }
{
    let origin = read_origin(cursor)?;
    let action = cursor.get_u32()?;
    let file = cursor.get_u64()?;
    let length = cursor.get_u16()?;
    let path = cursor.take(length as usize)?;
    let attributes = cursor.get_u32()?;
    let directory = cursor.get_u8()?;
    let time = cursor.get_u64()?;
    Ok(CreateFields {
        origin,
        action,
        file,
        path,
        attributes,
        directory,
        time,
    })
}

#[tactic(auto, using(spec_wire::proofs::messages::Numbers::lengths))]
pub(crate) fn open_fields<'a>(cursor: &mut Cursor<'a>) -> Result<OpenFields<'a>, Short>
    ensures { StepsOver open_fields_table (54 + number 2 cursor.old.bytes (cursor.old.at + 40)) cursor.old cursor.new result }
{
    let id = cursor.get_u64()?;
    let client = cursor.get_array::<16>()?;
    let guid = cursor.get_array::<16>()?;
    let length = cursor.get_u16()?;
    let user = cursor.take(length as usize)?;
    let access = cursor.get_u32()?;
    let share = cursor.get_u32()?;
    let options = cursor.get_u32()?;
    Ok(OpenFields {
        id,
        client,
        guid,
        user,
        access,
        share,
        options,
    })
}

#[tactic(auto, using(spec_wire::proofs::messages::Numbers::lengths))]
pub(crate) fn write_fields(m: &[u8]) -> Result<WriteFields<'_>, Short>
    requires { number 1 m.now 0 ≡ 3 }
    ensures { ReadsFields write_fields_table m.now (49 + number 4 m.now 45) result }
{
    let mut cursor = Cursor::new(m);
    let _kind = cursor.get_u8()?;
    let origin = read_origin(&mut cursor)?;
    let file = cursor.get_u64()?;
    let at = cursor.get_u64()?;
    let time = cursor.get_u64()?;
    let length = cursor.get_u32()?;
    let bytes = cursor.take(length as usize)?;
    Ok(WriteFields {
        origin,
        file,
        at,
        time,
        bytes,
    })
}

pub(crate) fn delete_fields(m: &[u8]) -> Result<DeleteFields, Short>
    requires { number 1 m.now 0 ≡ 6 }
    ensures { ReadsFields delete_fields_table m.now 30 result }
{
    let mut cursor = Cursor::new(m);
    let _kind = cursor.get_u8()?;
    let origin = read_origin(&mut cursor)?;
    let file = cursor.get_u64()?;
    let marked = cursor.get_u8()?;
    Ok(DeleteFields {
        origin,
        file,
        marked,
    })
}

#[tactic(auto, using(spec_wire::proofs::messages::Numbers::lengths))]
pub(crate) fn rename_fields(m: &[u8]) -> Result<RenameFields<'_>, Short>
    requires { number 1 m.now 0 ≡ 7 }
    ensures { ReadsFields rename_fields_table m.now (39 + number 2 m.now 37) result }
{
    let mut cursor = Cursor::new(m);
    let _kind = cursor.get_u8()?;
    let origin = read_origin(&mut cursor)?;
    let file = cursor.get_u64()?;
    let replaced = cursor.get_u64()?;
    let length = cursor.get_u16()?;
    let path = cursor.take(length as usize)?;
    Ok(RenameFields {
        origin,
        file,
        replaced,
        path,
    })
}

#[tactic(auto, using(spec_wire::proofs::messages::Numbers::lengths))]
pub(crate) fn lock_fields(m: &[u8]) -> Result<LockFields<'_>, Short>
    requires { number 1 m.now 0 ≡ 9 }
    ensures { ReadsFields lock_fields_table m.now (37 + 24 * number 2 m.now 35) result }
{
    let mut cursor = Cursor::new(m);
    let _kind = cursor.get_u8()?;
    let origin = read_origin(&mut cursor)?;
    let id = cursor.get_u64()?;
    let index = cursor.get_u8()?;
    let number = cursor.get_u8()?;
    let status = cursor.get_u32()?;
    let count = cursor.get_u16()?;
    let elements = cursor.take(24 * count as usize)?;
    Ok(LockFields {
        origin,
        id,
        index,
        number,
        status,
        elements,
    })
}

// The version that a Version record tells.
pub(crate) fn version_field(m: &[u8]) -> Result<u32, Short>
    ensures { MatchResult result (λ v. (number 4 m.now 1 ≡ v) × (5 ≤ length m.now)) (λ _. length m.now < 5) }
{
    let mut cursor = Cursor::new(m);
    let _kind = cursor.get_u8()?;
    cursor.get_u32()
}
