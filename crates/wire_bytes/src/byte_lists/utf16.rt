ghost use Rattle.std.specs.Prelude.{◌≡◌, ◌+◌, ◌-◌, ◌*◌, ◌%◌, ◌≤◌, ◌<◌, ◌++◌, length, take, IfOk, OnOk, OnErr, MatchOption};
ghost use Rattle.std.specs.Char.{IsScalar};
ghost use Rattle.spec_wire.specs.messages.Places.{number};
ghost use Rattle.spec_wire.specs.messages.Utf16.{units_of, utf16, IsHigh, IsLow, IsLone, ReadsUtf16};
ghost use Rattle.wire_bytes.specs.byte_lists.Pair.{IsBytePair};

use crate::byte_lists::bytes::Bytes;
use crate::byte_lists::out::Out;
use crate::byte_lists::place::u16_at;
use crate::byte_lists::text::Text;
use spec_wire::TextError;
use std::alloc::{AllocError, Global};

// Puts the units of a character.
fn put_units(out: &mut Out, character: char) -> Result<(), AllocError>
    ensures { OnOk result (out.new ≡ out.old ++ units_of character) }
{
    let code = character as u32;
    if code < 0x10000 {
        return out.put_u16(code as u16);
    }
    let over = code - 0x10000;
    out.put_u16((0xd800 + over / 0x400) as u16)?;
    out.put_u16((0xdc00 + over % 0x400) as u16)
}

/// A text in UTF-16, the lower byte of each unit first (RFC 2781).
pub fn utf16_of(alloc: Global, text: &str) -> Result<Bytes, AllocError>
    ensures { IfOk result (λ b. b ≡ utf16 text.now) }
{
    let mut out = Out::new(alloc);
    for character in text.chars() {
        put_units(&mut out, character)?;
    }
    Ok(out.finish())
}

// The code of the character whose two surrogates stand at a place, if two do.
#[tactic(auto, using(crate::proofs::byte_lists::Units::number_past))]
fn pair_at(bytes: &[u8], at: usize) -> Option<u32>
    requires inside { at + 2 ≤ length bytes.now }
    requires whole { (length bytes.now % 2 ≡ 0) × (at % 2 ≡ 0) }
    ensures { MatchOption result (IsHigh (number 2 bytes.now at) → IsLow (number 2 bytes.now (at + 2)) → ⊥)
        (λ code. IsBytePair bytes.now at code) }
{
    let high = u16_at(bytes, at) as u32;
    if high < 0xd800 || high >= 0xdc00 {
        return None;
    }
    if bytes.len() - at < 4 {
        return None;
    }
    let low = u16_at(bytes, at + 2) as u32;
    if low < 0xdc00 || low >= 0xe000 {
        return None;
    }
    Some(0x10000 + (high - 0xd800) * 0x400 + (low - 0xdc00))
}

// A character, and the place behind its units.
#[derive(Clone, Copy)]
struct Found {
    character: char,
    end: usize,
}

// The character at a place; `None` for a surrogate without a partner.
fn character_at(bytes: &[u8], at: usize) -> Option<Found>
    requires inside { at + 2 ≤ length bytes.now }
    requires whole { (length bytes.now % 2 ≡ 0) × (at % 2 ≡ 0) }
    ensures { MatchOption result (IsLone bytes.now at) (λ f. IsScalar f.character × (at < f.end)
        × (f.end ≤ length bytes.now) × (f.end % 2 ≡ 0) × (take f.end bytes.now ≡ take at bytes.now
        ++ units_of f.character)) }
{
    match pair_at(bytes, at) {
        Some(code) => {
            let character = char::from_u32(code)?;
            Some(Found {
                character,
                end: at + 4,
            })
        }
        None => {
            let character = char::from_u32(u16_at(bytes, at) as u32)?;
            Some(Found {
                character,
                end: at + 2,
            })
        }
    }
}

/// The text that bytes spell in UTF-16, the lower byte of each unit first (RFC 2781). `OddLength` has the
/// number of bytes, where it is odd; else `LoneSurrogate` has the place of the first surrogate without
/// a partner.
pub fn text_of_utf16(alloc: Global, bytes: &[u8]) -> Result<Text, TextError>
    ensures { ReadsUtf16 bytes.now result }
{
    let len = bytes.len();
    if len % 2 != 0 {
        return Err(TextError::OddLength(len));
    }
    let mut text = Text::new(alloc);
    let mut at = 0;
    while at < len {
        let Some(found) = character_at(bytes, at) else {
            return Err(TextError::LoneSurrogate(at));
        };
        text.push(found.character)?;
        at = found.end;
    }
    Ok(text)
}
