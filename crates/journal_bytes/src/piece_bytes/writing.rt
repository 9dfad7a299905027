//! Pieces written one behind the other, each put as the table that the grammar has of it. A file's bytes are copied once, into
//! the body. Where memory runs out a part of a piece may stand at the end.
ghost use Rattle.std.specs.Prelude.{◌≡◌, ◌<◌, ◌^◌, length, OnOk};
ghost use Rattle.law_snapshots.specs.snapshots.Pieces.{BasePiece, FilePiece, BytesPiece, OpenPiece, SlotPiece, RangePiece, GuidPiece};
ghost use Rattle.journal_bytes.specs.record_bytes.Grammar.{TextFits};
ghost use Rattle.journal_bytes.specs.piece_bytes.Grammar.{IsPut};
ghost use Rattle.journal_bytes.specs.piece_bytes.Meaning.{row_of};

use crate::piece_bytes::value::{FileFront, OpenFront};
use crate::record_bodies::{is_basic, is_long, is_text, is_wide};
use crate::record_bytes::Put::{Byte, Flag, Large, Long, Raw, Wide};
use crate::record_bytes::{Put, put_fields, put_text};
use spec_exchange::values::{Basic, Range};
use std::alloc::{AllocError, Global};
use wire_bytes::Text;

fn is_large(_number: u128)
    ensures { _number < 256 ^ 16 }
{}

// What the types of their fields say of an open's numbers. It does nothing when it runs.
fn are_open_numbers(id: u64, front: &OpenFront)
    ensures wide { (id < 256 ^ 8) × (front.now.file < 256 ^ 8) }
    ensures large { (front.now.client < 256 ^ 16) × (front.now.guid < 256 ^ 16) }
    ensures access { (front.now.access < 256 ^ 4) × (front.now.share < 256 ^ 4) × (front.now.options < 256 ^ 4) }
    ensures action { (front.now.action < 256 ^ 4) × (front.now.timeout < 256 ^ 4) }
{
    is_wide(id);
    is_wide(front.file);
    is_large(front.client);
    is_large(front.guid);
    is_long(front.access);
    is_long(front.share);
    is_long(front.options);
    is_long(front.action);
    is_long(front.timeout);
}

/// The numbers of a snapshot, and the root's times.
pub fn put_base(
    out: &mut Vec<u8>,
    version: u32,
    epoch: u32,
    given: u32,
    next_file: u64,
    times: &Basic,
) -> Result<(), AllocError>
    ensures { OnOk result (IsPut out.old.items (BasePiece version epoch given next_file times.now) out.new.items) }
{
    is_basic(times);
    put_fields(
        out,
        &[
            Byte(64),
            Long(version),
            Long(epoch),
            Long(given),
            Wide(next_file),
            Put::Times(*times),
        ],
    )
}

/// A file or directory. `is_short` tells whether a path fits.
#[tactic(auto, using(crate::proofs::piece_bytes::Writable::file_writable))]
pub fn put_file(
    alloc: Global,
    out: &mut Vec<u8>,
    file: u64,
    path: &Text,
    front: &FileFront,
) -> Result<(), AllocError>
    requires { TextFits path.now }
    ensures { OnOk result (IsPut out.old.items (FilePiece file path.now front.now.directory front.now.pending front.now.basic
        front.now.size front.now.stored) out.new.items) }
{
    is_text(path);
    is_basic(&front.basic);
    is_wide(file);
    is_wide(front.size);
    is_wide(front.stored);
    put_fields(
        out,
        &[
            Byte(65),
            Wide(file),
            Flag(front.directory),
            Flag(front.pending),
            Put::Times(front.basic),
            Wide(front.size),
            Wide(front.stored),
        ],
    )?;
    put_text(alloc, out, path)
}

/// Bytes of a file, fewer than 2^32.
pub fn put_bytes(out: &mut Vec<u8>, file: u64, at: u64, bytes: &[u8]) -> Result<(), AllocError>
    requires { length bytes.now < 4294967296 }
    ensures { OnOk result (IsPut out.old.items (BytesPiece file at bytes.now) out.new.items) }
{
    put_fields(
        out,
        &[
            Byte(66),
            Wide(file),
            Wide(at),
            Long(bytes.len() as u32),
            Raw(bytes),
        ],
    )
}

/// A persistent open. `is_short` tells whether its user's name fits.
#[tactic(auto, using(crate::proofs::piece_bytes::Writable::open_writable))]
pub fn put_open(
    alloc: Global,
    out: &mut Vec<u8>,
    id: u64,
    user: &Text,
    front: &OpenFront,
) -> Result<(), AllocError>
    requires { TextFits user.now }
    ensures { OnOk result (IsPut out.old.items (OpenPiece id (row_of user.now front.now)) out.new.items) }
{
    is_text(user);
    are_open_numbers(id, front);
    put_fields(
        out,
        &[
            Byte(67),
            Wide(id),
            Wide(front.file),
            Large(front.client),
            Large(front.guid),
            Long(front.access),
            Long(front.share),
            Long(front.options),
            Long(front.action),
            Long(front.timeout),
        ],
    )?;
    put_text(alloc, out, user)
}

/// What a lock slot of an open keeps.
pub fn put_slot(
    out: &mut Vec<u8>,
    id: u64,
    index: u8,
    number: u8,
    status: u32,
) -> Result<(), AllocError>
    ensures { OnOk result (IsPut out.old.items (SlotPiece id index number status) out.new.items) }
{
    put_fields(
        out,
        &[Byte(68), Wide(id), Byte(index), Byte(number), Long(status)],
    )
}

/// A range that an open locks.
#[tactic(auto, using(crate::proofs::piece_bytes::Writable::range_writable))]
pub fn put_range(out: &mut Vec<u8>, range: &Range) -> Result<(), AllocError>
    ensures { OnOk result (IsPut out.old.items (RangePiece range.now) out.new.items) }
{
    is_wide(range.owner);
    is_wide(range.at);
    is_wide(range.length);
    put_fields(
        out,
        &[
            Byte(69),
            Wide(range.owner),
            Wide(range.at),
            Wide(range.length),
            Flag(range.exclusive),
        ],
    )
}

/// The GUIDs of an open that expired.
pub fn put_guid(out: &mut Vec<u8>, client: u128, guid: u128) -> Result<(), AllocError>
    ensures { OnOk result (IsPut out.old.items (GuidPiece client guid) out.new.items) }
{
    put_fields(out, &[Byte(70), Large(client), Large(guid)])
}
