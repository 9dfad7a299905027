//! One piece, read at the front of bytes.
ghost use Rattle.std.specs.Prelude.{◌≡◌, ◌+◌, ◌<◌, ◌≤◌, length, MatchResult};
ghost use Rattle.spec_wire.specs.messages.Places.{number, bytes_at};
ghost use Rattle.spec_wire.specs.messages.Table.{Stands};
ghost use Rattle.journal_bytes.specs.record_bytes.Grammar.{basic_table};
ghost use Rattle.journal_bytes.specs.declared.record_bytes.fault.Fault.TheVariants as faults;
ghost use Rattle.journal_bytes.specs.piece_bytes.Reading.{ReadsTextAt, ReadsPiece};

use crate::piece_bytes::value::{FileFront, OpenFront, Piece};
use crate::record_bodies::guid_of;
use crate::record_bytes::{Fault, flag_of, read_text};
use spec_exchange::values::{Basic, Range};
use std::alloc::Global;
use wire_bytes::{Bytes, Text, array_at, u8_at, u16_at, u32_at, u64_at};

// A piece, and the place behind it.
#[derive(Drop)]
pub(crate) struct FoundPiece {
    pub(crate) piece: Piece,
    pub(crate) end: usize,
}

fn basic_at(m: &[u8], at: usize) -> Basic
    requires { at + 36 ≤ length m.now }
    ensures { Stands m.now at (basic_table result) }
{
    Basic {
        created: u64_at(m, at),
        accessed: u64_at(m, at + 8),
        written: u64_at(m, at + 16),
        changed: u64_at(m, at + 24),
        attributes: u32_at(m, at + 32),
    }
}

// So many bytes at a place.
#[tactic(auto, unfolding(spec_wire::specs::messages::Places::bytes_at))]
fn part_at(m: &[u8], at: usize, count: usize) -> Result<&[u8], Fault>
    requires { at ≤ length m.now }
    ensures { MatchResult result (λ b. (b.now ≡ bytes_at count m.now at) × (length b.now ≡ count) × (at + count ≤ length m.now))
        (λ e. (e ≡ faults.Bad) × (length m.now < at + count)) }
{
    if m.len() - at < count {
        return Err(Fault::Bad);
    }
    Ok(&m[at..at + count])
}

// The text that stands at a place behind its length.
#[tactic(auto, using(crate::proofs::piece_bytes::Told::text_short, crate::proofs::piece_bytes::Told::text_other))]
fn text_at(alloc: Global, m: &[u8], at: usize) -> Result<Text, Fault>
    requires { at + 2 ≤ length m.now }
    ensures { ReadsTextAt m.now at result }
{
    let count = u16_at(m, at);
    let units = part_at(m, at + 2, count as usize)?;
    read_text(alloc, units)
}

#[tactic(auto, using(crate::proofs::piece_bytes::Told::too_short))]
fn read_base(m: &[u8]) -> Result<FoundPiece, Fault>
    requires { number 1 m.now 0 ≡ 64 }
    ensures { ReadsPiece m.now result }
{
    if m.len() < 57 {
        return Err(Fault::Bad);
    }
    Ok(FoundPiece {
        piece: Piece::Base {
            version: u32_at(m, 1),
            epoch: u32_at(m, 5),
            given: u32_at(m, 9),
            next_file: u64_at(m, 13),
            times: basic_at(m, 21),
        },
        end: 57,
    })
}

#[tactic(auto, using(crate::proofs::piece_bytes::Told::too_short, crate::proofs::piece_bytes::Told::file_directory, crate::proofs::piece_bytes::Told::file_pending, crate::proofs::piece_bytes::Told::file_path))]
fn read_file(alloc: Global, m: &[u8]) -> Result<FoundPiece, Fault>
    requires { number 1 m.now 0 ≡ 65 }
    ensures { ReadsPiece m.now result }
{
    if m.len() < 65 {
        return Err(Fault::Bad);
    }
    let Some(directory) = flag_of(u8_at(m, 9)) else {
        return Err(Fault::Bad);
    };
    let Some(pending) = flag_of(u8_at(m, 10)) else {
        return Err(Fault::Bad);
    };
    let path = text_at(alloc, m, 63)?;
    let front = FileFront {
        directory,
        pending,
        basic: basic_at(m, 11),
        size: u64_at(m, 47),
        stored: u64_at(m, 55),
    };
    Ok(FoundPiece {
        piece: Piece::File {
            file: u64_at(m, 1),
            path,
            front,
        },
        end: 65 + u16_at(m, 63) as usize,
    })
}

#[tactic(auto, using(crate::proofs::piece_bytes::Told::too_short, crate::proofs::piece_bytes::Told::bytes_short))]
fn read_bytes(alloc: Global, m: &[u8]) -> Result<FoundPiece, Fault>
    requires { number 1 m.now 0 ≡ 66 }
    ensures { ReadsPiece m.now result }
{
    if m.len() < 21 {
        return Err(Fault::Bad);
    }
    let count = u32_at(m, 17) as usize;
    let part = part_at(m, 21, count)?;
    let bytes = Bytes::from_slice(alloc, part)?;
    Ok(FoundPiece {
        piece: Piece::Bytes {
            file: u64_at(m, 1),
            at: u64_at(m, 9),
            bytes,
        },
        end: 21 + count,
    })
}

#[tactic(auto, using(crate::proofs::piece_bytes::Told::too_short, crate::proofs::piece_bytes::Told::open_user))]
fn read_open(alloc: Global, m: &[u8]) -> Result<FoundPiece, Fault>
    requires { number 1 m.now 0 ≡ 67 }
    ensures { ReadsPiece m.now result }
{
    if m.len() < 71 {
        return Err(Fault::Bad);
    }
    let user = text_at(alloc, m, 69)?;
    let front = OpenFront {
        file: u64_at(m, 9),
        client: guid_of(&array_at::<16>(m, 17)),
        guid: guid_of(&array_at::<16>(m, 33)),
        access: u32_at(m, 49),
        share: u32_at(m, 53),
        options: u32_at(m, 57),
        action: u32_at(m, 61),
        timeout: u32_at(m, 65),
    };
    Ok(FoundPiece {
        piece: Piece::Open {
            id: u64_at(m, 1),
            user,
            front,
        },
        end: 71 + u16_at(m, 69) as usize,
    })
}

#[tactic(auto, using(crate::proofs::piece_bytes::Told::too_short))]
fn read_slot(m: &[u8]) -> Result<FoundPiece, Fault>
    requires { number 1 m.now 0 ≡ 68 }
    ensures { ReadsPiece m.now result }
{
    if m.len() < 15 {
        return Err(Fault::Bad);
    }
    Ok(FoundPiece {
        piece: Piece::Slot {
            id: u64_at(m, 1),
            index: u8_at(m, 9),
            number: u8_at(m, 10),
            status: u32_at(m, 11),
        },
        end: 15,
    })
}

#[tactic(auto, using(crate::proofs::piece_bytes::Told::too_short, crate::proofs::piece_bytes::Told::range_flag))]
fn read_range(m: &[u8]) -> Result<FoundPiece, Fault>
    requires { number 1 m.now 0 ≡ 69 }
    ensures { ReadsPiece m.now result }
{
    if m.len() < 26 {
        return Err(Fault::Bad);
    }
    let Some(exclusive) = flag_of(u8_at(m, 25)) else {
        return Err(Fault::Bad);
    };
    let range = Range {
        owner: u64_at(m, 1),
        at: u64_at(m, 9),
        length: u64_at(m, 17),
        exclusive,
    };
    Ok(FoundPiece {
        piece: Piece::Range { range },
        end: 26,
    })
}

#[tactic(auto, using(crate::proofs::piece_bytes::Told::too_short))]
fn read_guid(m: &[u8]) -> Result<FoundPiece, Fault>
    requires { number 1 m.now 0 ≡ 70 }
    ensures { ReadsPiece m.now result }
{
    if m.len() < 33 {
        return Err(Fault::Bad);
    }
    Ok(FoundPiece {
        piece: Piece::Guid {
            client: guid_of(&array_at::<16>(m, 1)),
            guid: guid_of(&array_at::<16>(m, 17)),
        },
        end: 33,
    })
}

/// The piece that bytes begin with.
#[tactic(auto, using(crate::proofs::piece_bytes::Told::no_bytes, crate::proofs::piece_bytes::Told::is_known))]
pub(crate) fn read_piece(alloc: Global, m: &[u8]) -> Result<FoundPiece, Fault>
    ensures { ReadsPiece m.now result }
{
    if m.is_empty() {
        return Err(Fault::Bad);
    }
    match u8_at(m, 0) {
        64 => read_base(m),
        65 => read_file(alloc, m),
        66 => read_bytes(alloc, m),
        67 => read_open(alloc, m),
        68 => read_slot(m),
        69 => read_range(m),
        70 => read_guid(m),
        _ => Err(Fault::Bad),
    }
}
