//! Parts of a record, read one after the other.
ghost use Rattle.std.specs.Prelude.{◌≡◌, Bool, MatchOption};
ghost use Rattle.journal_bytes.specs.record_bytes.Grammar.{flag, origin_table, basic_table};
ghost use Rattle.journal_bytes.specs.record_bytes.Reading.{StepsOver, ReadsText};

use crate::record_bytes::fault::Fault;
use spec_exchange::values::{Basic, Origin};
use std::alloc::Global;
use wire_bytes::{Cursor, Short, Text, TextError, text_of_utf16};

pub(crate) fn read_origin(cursor: &mut Cursor<'_>) -> Result<Origin, Short>
    ensures { StepsOver origin_table 20 cursor.old cursor.new result }
{
    let session = cursor.get_u64()?;
    let connection = cursor.get_u32()?;
    let message = cursor.get_u64()?;
    Ok(Origin {
        session,
        connection,
        message,
    })
}

pub(crate) fn read_basic(cursor: &mut Cursor<'_>) -> Result<Basic, Short>
    ensures { StepsOver basic_table 36 cursor.old cursor.new result }
{
    let created = cursor.get_u64()?;
    let accessed = cursor.get_u64()?;
    let written = cursor.get_u64()?;
    let changed = cursor.get_u64()?;
    let attributes = cursor.get_u32()?;
    Ok(Basic {
        created,
        accessed,
        written,
        changed,
        attributes,
    })
}

// A byte that tells yes or no.
#[tactic(auto, using(crate::proofs::record_bytes::Flags::no_flag))]
pub(crate) fn flag_of(byte: u8) -> Option<bool>
    ensures { MatchOption result ((b : Bool) → flag b ≡ byte → ⊥) (λ b. flag b ≡ byte) }
{
    match byte {
        0 => Some(false),
        1 => Some(true),
        _ => None,
    }
}

#[tactic(auto, using(crate::proofs::record_bytes::Flags::odd_text, crate::proofs::record_bytes::Flags::lone_text))]
pub(crate) fn read_text(alloc: Global, units: &[u8]) -> Result<Text, Fault>
    ensures { ReadsText units.now result }
{
    match text_of_utf16(alloc, units) {
        Ok(text) => {
            let _bytes = text.as_str().as_bytes();
            Ok(text)
        }
        Err(TextError::Memory) => Err(Fault::Memory),
        Err(TextError::OddLength(_)) => Err(Fault::Bad),
        Err(TextError::LoneSurrogate(_)) => Err(Fault::Bad),
    }
}
