//! Target information: pairs up to the pair of the id 0.
ghost use Rattle.std.specs.Prelude.{◌≡◌, ◌≤◌, ◌<◌, ◌+◌, ◌^◌, length, MatchResult, None, Some};
ghost use Rattle.spec_wire.specs.messages.Places.{number};
ghost use Rattle.spec_crypto.specs.tokens.Pairs.{pair_in, end_at};
ghost use Rattle.spec_crypto.specs.tokens.Messages.{info_fault};
ghost use Rattle.crypto_sessions.specs.ntlmv2.Fronts.{IsPairFront, pair_lent};

use spec_crypto::NtlmError;
use wire_bytes::{Cursor, Short};

/// A pair's id and value, and what stands behind it.
#[derive(Clone, Copy)]
pub(crate) struct Pair<'a> {
    id: u16,
    value: &'a [u8],
    rest: &'a [u8],
}

/// What stands in front of pairs.
#[derive(Clone, Copy)]
pub(crate) enum Front<'a> {
    /// Too few bytes for a pair.
    Broken,
    End,
    One(Pair<'a>),
}

/// The id and the length of the pair in front.
fn told(bytes: &[u8]) -> Result<(u16, u16), Short>
    ensures { MatchResult result (λ t. (4 ≤ length bytes.now) × (t.0 ≡ number 2 bytes.now 0) × (t.1 ≡ number 2 bytes.now
        2)) (λ e. length bytes.now < 4) }
{
    let mut cursor = Cursor::new(bytes);
    let id = cursor.get_u16()?;
    let count = cursor.get_u16()?;
    Ok((id, count))
}

#[tactic(auto, using(spec_wire::proofs::messages::Numbers::lengths), unfolding(spec_wire::specs::messages::Places::bytes_at))]
fn front_of(bytes: &[u8]) -> Front<'_>
    ensures { IsPairFront bytes.now result }
{
    let (id, count) = match told(bytes) {
        Ok(told) => told,
        Err(_short) => return Front::Broken,
    };
    let size = 4 + count as usize;
    if id == 0 {
        return Front::End;
    }
    if bytes.len() < size {
        return Front::Broken;
    }
    Front::One(Pair {
        id,
        value: &bytes[4..size],
        rest: &bytes[size..],
    })
}

/// Each pair before the end pair fits, and there is an end pair; the bytes begin at this place of the message.
pub(crate) fn check_pairs(at: usize, bytes: &[u8]) -> Result<(), NtlmError>
    requires { at + length bytes.now < 2 ^ 63 }
    ensures { MatchResult result (λ _. info_fault at bytes.now ≡ None) (λ e. info_fault at bytes.now ≡ Some e) }
{
    let mut rest = bytes;
    let mut place = at;
    'pairs: loop {
        match front_of(rest) {
            Front::Broken => return Err(NtlmError::BadPairs(place)),
            Front::End => return Ok(()),
            Front::One(pair) => {
                place += 4 + pair.value.len();
                rest = pair.rest;
            }
        }
    }
}

/// The value of the first pair with this id.
pub(crate) fn pair_of(id: u16, bytes: &[u8]) -> Option<&[u8]>
    ensures { pair_lent result ≡ pair_in (length bytes.now) id bytes.now }
{
    let mut rest = bytes;
    'pairs: loop {
        match front_of(rest) {
            Front::Broken => return None,
            Front::End => return None,
            Front::One(pair) => {
                if pair.id == id {
                    return Some(pair.value);
                }
                rest = pair.rest;
            }
        }
    }
}

/// How many bytes stand before the end pair.
pub(crate) fn end_of(bytes: &[u8]) -> usize
    ensures same { result ≡ end_at (length bytes.now) bytes.now }
    ensures within { result ≤ length bytes.now }
{
    let mut rest = bytes;
    'pairs: loop {
        match front_of(rest) {
            Front::Broken => return bytes.len() - rest.len(),
            Front::End => return bytes.len() - rest.len(),
            Front::One(pair) => rest = pair.rest,
        }
    }
}
