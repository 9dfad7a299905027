//! A record's fields, put behind bytes one after the other.
ghost use Rattle.std.specs.Prelude.{◌≡◌, OnOk};
ghost use Rattle.spec_wire.specs.messages.Table.{with_fields};
ghost use Rattle.journal_bytes.specs.record_bytes.Putting.{fields_of, table_of};

use spec_exchange::values::{Basic, Origin};
use std::alloc::AllocError;

/// A part of the table of a record or a piece: a number of 1, 2, 4, 8 or 16 bytes, the lowest first; a byte that tells yes or
/// no; a GUID; bytes as they are; the message that caused a record; a file's times.
#[derive(Clone, Copy)]
pub(crate) enum Put<'a> {
    Byte(u8),
    Short(u16),
    Long(u32),
    Wide(u64),
    Large(u128),
    Flag(bool),
    Guid([u8; 16]),
    Raw(&'a [u8]),
    Origin(Origin),
    Times(Basic),
}

#[tactic(auto, using(wire_bytes::proofs::byte_lists::Endian::le_8, wire_bytes::proofs::byte_lists::Endian::le_4))]
fn put_origin(out: &mut Vec<u8>, origin: &Origin) -> Result<(), AllocError>
    ensures { OnOk result (out.new.items ≡ with_fields out.old.items (fields_of (Put.Origin origin.now))) }
{
    out.extend_from_slice(&origin.session.to_le_bytes())?;
    out.extend_from_slice(&origin.connection.to_le_bytes())?;
    out.extend_from_slice(&origin.message.to_le_bytes())
}

#[tactic(auto, using(wire_bytes::proofs::byte_lists::Endian::le_8, wire_bytes::proofs::byte_lists::Endian::le_4))]
fn put_times(out: &mut Vec<u8>, basic: &Basic) -> Result<(), AllocError>
    ensures { OnOk result (out.new.items ≡ with_fields out.old.items (fields_of (Put.Times basic.now))) }
{
    out.extend_from_slice(&basic.created.to_le_bytes())?;
    out.extend_from_slice(&basic.accessed.to_le_bytes())?;
    out.extend_from_slice(&basic.written.to_le_bytes())?;
    out.extend_from_slice(&basic.changed.to_le_bytes())?;
    out.extend_from_slice(&basic.attributes.to_le_bytes())
}

#[tactic(auto, using(wire_bytes::proofs::byte_lists::Endian::le_is, wire_bytes::proofs::byte_lists::Endian::le_8, wire_bytes::proofs::byte_lists::Endian::le_4, wire_bytes::proofs::byte_lists::Endian::le_2, wire_bytes::proofs::byte_lists::Endian::le_1))]
fn put_one(out: &mut Vec<u8>, put: &Put<'_>) -> Result<(), AllocError>
    ensures { OnOk result (out.new.items ≡ with_fields out.old.items (fields_of put.now)) }
{
    match put {
        Put::Byte(number) => out.extend_from_slice(&number.to_le_bytes()),
        Put::Short(number) => out.extend_from_slice(&number.to_le_bytes()),
        Put::Long(number) => out.extend_from_slice(&number.to_le_bytes()),
        Put::Wide(number) => out.extend_from_slice(&number.to_le_bytes()),
        Put::Large(number) => out.extend_from_slice(&number.to_le_bytes()),
        Put::Flag(yes) => out.extend_from_slice(&(*yes as u8).to_le_bytes()),
        Put::Guid(guid) => out.extend_from_slice(guid),
        Put::Raw(bytes) => out.extend_from_slice(bytes),
        Put::Origin(origin) => put_origin(out, origin),
        Put::Times(basic) => put_times(out, basic),
    }
}

/// Puts the fields of a table behind bytes.
pub(crate) fn put_fields(out: &mut Vec<u8>, puts: &[Put<'_>]) -> Result<(), AllocError>
    ensures { OnOk result (out.new.items ≡ with_fields out.old.items (table_of puts.now)) }
{
    for put in puts {
        put_one(out, put)?;
    }
    Ok(())
}
