ghost use Rattle.std.specs.Prelude.{◌≡◌, true, false, MatchResult};
ghost use Rattle.spec_wire.specs.messages.Table.{IsPart};
ghost use Rattle.spec_wire.specs.messages.Fault.{Reads};
ghost use Rattle.spec_wire.specs.messages.CreateContexts.{IsContext, HasLength, context_fault, is_outside, length_fault};
ghost use Rattle.spec_wire.specs.declared.messages.chain_error.ChainError.TheVariants.{Short};
ghost use Rattle.wire_bytes.specs.create_contexts.Parts.{due_of, context, ReadsFirst, ReadsLink};

use crate::byte_lists::{Cursor, fields_fit, u16_at, u32_at};
use crate::create_contexts::due::{Side, due_of};
use crate::headers::{is_badly_linked, piece_of};
use spec_wire::ChainError;

// A context that borrows its parts.
#[derive(Clone, Copy)]
pub struct Context<'a> {
    pub name: &'a [u8],
    pub value: &'a [u8],
}

// The context that a chain begins with, and how far the next one is, 0 where there is none.
#[derive(Clone, Copy)]
pub struct First<'a> {
    pub context: Context<'a>,
    pub next: usize,
}

// How far the next context is, as the fixed part of the first one tells.
fn next_of(m: &[u8]) -> Result<usize, ChainError>
    ensures { ReadsLink m.now result }
{
    let mut fixed = Cursor::new(m);
    let _fixed = fixed.take(16)?;
    let mut cursor = Cursor::new(m);
    let next = cursor.get_u32()? as usize;
    if is_badly_linked(m, next) {
        return Err(ChainError::BadNext);
    }
    Ok(next)
}

// A part of a context.
#[tactic(auto, unfolding(spec_wire::specs::messages::Places::bytes_at, spec_wire::specs::messages::CreateContexts::is_outside))]
fn part_of(m: &[u8], at: usize, len: usize) -> Result<&[u8], ChainError>
    ensures { MatchResult result (λ b. (is_outside m.now at len ≡ false) × IsPart m.now at len 16 b.now)
        (λ e. (is_outside m.now at len ≡ true) × (e ≡ Short)) }
{
    if len == 0 {
        return Ok(&m[..0]);
    }
    if at < 16 || at > m.len() || m.len() - at < len {
        return Err(ChainError::Short);
    }
    Ok(&m[at..at + len])
}

// Refuses data of another length than is due.
#[tactic(auto, unfolding(spec_wire::specs::messages::CreateContexts::length_fault))]
fn check_length(side: Side, name: &[u8], len: u32) -> Result<(), ChainError>
    ensures { Reads (length_fault (due_of side name.now) name.now len) (λ _. HasLength (due_of side name.now) len) (λ u. u) result }
{
    match due_of(side, name) {
        None => Ok(()),
        Some(due) => {
            if due.length == len {
                Ok(())
            } else {
                Err(ChainError::BadLength(due.name))
            }
        }
    }
}

// The context whose bytes these are.
#[tactic(auto, unfolding(spec_wire::specs::messages::CreateContexts::context_fault))]
fn context_of(side: Side, m: &[u8]) -> Result<Context<'_>, ChainError>
    ensures { Reads (context_fault (due_of side) m.now) (IsContext (due_of side) m.now) context result }
{
    fields_fit(m, &[4, 2, 2, 2, 2, 4])?;
    let name_at = u16_at(m, 4);
    let name_len = u16_at(m, 6);
    let value_at = u16_at(m, 10);
    let value_len = u32_at(m, 12);
    let name = part_of(m, name_at as usize, name_len as usize)?;
    let value = part_of(m, value_at as usize, value_len as usize)?;
    check_length(side, name, value_len)?;
    Ok(Context { name, value })
}

/// The context that a chain begins with, or its first break.
#[tactic(auto, using(crate::proofs::create_contexts::Links::first_faults), unfolding(spec_wire::specs::messages::CreateContexts::first_fault))]
pub fn first_context(side: Side, m: &[u8]) -> Result<First<'_>, ChainError>
    ensures { ReadsFirst side m.now result }
{
    let next = next_of(m)?;
    match context_of(side, piece_of(m, next)) {
        Ok(context) => Ok(First { context, next }),
        Err(error) => Err(error),
    }
}
