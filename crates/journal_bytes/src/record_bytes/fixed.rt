//! Records of the kinds that have always the same size.
ghost use Rattle.std.specs.Prelude.{◌≡◌};
ghost use Rattle.spec_wire.specs.messages.Places.{number};
ghost use Rattle.journal_bytes.specs.record_bytes.Reading.{ReadsFixed};

use crate::record_bytes::parts::{read_basic, read_origin};
use crate::record_bytes::value::Record;
use wire_bytes::{Cursor, Short};

pub(crate) fn read_epoch(m: &[u8]) -> Result<Record, Short>
    requires { number 1 m.now 0 ≡ 1 }
    ensures { ReadsFixed m.now 5 result }
{
    let mut cursor = Cursor::new(m);
    let _kind = cursor.get_u8()?;
    let number = cursor.get_u32()?;
    Ok(Record::Epoch { number })
}

pub(crate) fn read_set_end(m: &[u8]) -> Result<Record, Short>
    requires { number 1 m.now 0 ≡ 4 }
    ensures { ReadsFixed m.now 45 result }
{
    let mut cursor = Cursor::new(m);
    let _kind = cursor.get_u8()?;
    let origin = read_origin(&mut cursor)?;
    let file = cursor.get_u64()?;
    let length = cursor.get_u64()?;
    let time = cursor.get_u64()?;
    Ok(Record::SetEnd {
        origin,
        file,
        length,
        time,
    })
}

pub(crate) fn read_set_basic(m: &[u8]) -> Result<Record, Short>
    requires { number 1 m.now 0 ≡ 5 }
    ensures { ReadsFixed m.now 65 result }
{
    let mut cursor = Cursor::new(m);
    let _kind = cursor.get_u8()?;
    let origin = read_origin(&mut cursor)?;
    let file = cursor.get_u64()?;
    let basic = read_basic(&mut cursor)?;
    Ok(Record::SetBasic {
        origin,
        file,
        basic,
    })
}

pub(crate) fn read_remove(m: &[u8]) -> Result<Record, Short>
    requires { number 1 m.now 0 ≡ 8 }
    ensures { ReadsFixed m.now 29 result }
{
    let mut cursor = Cursor::new(m);
    let _kind = cursor.get_u8()?;
    let origin = read_origin(&mut cursor)?;
    let file = cursor.get_u64()?;
    Ok(Record::Remove { origin, file })
}

pub(crate) fn read_shut(m: &[u8]) -> Result<Record, Short>
    requires { number 1 m.now 0 ≡ 10 }
    ensures { ReadsFixed m.now 29 result }
{
    let mut cursor = Cursor::new(m);
    let _kind = cursor.get_u8()?;
    let origin = read_origin(&mut cursor)?;
    let id = cursor.get_u64()?;
    Ok(Record::Shut { origin, id })
}

pub(crate) fn read_expire(m: &[u8]) -> Result<Record, Short>
    requires { number 1 m.now 0 ≡ 12 }
    ensures { ReadsFixed m.now 29 result }
{
    let mut cursor = Cursor::new(m);
    let _kind = cursor.get_u8()?;
    let origin = read_origin(&mut cursor)?;
    let id = cursor.get_u64()?;
    Ok(Record::Expire { origin, id })
}
