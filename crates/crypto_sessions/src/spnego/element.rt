//! Elements of DER: a tag, a length and contents.
ghost use Rattle.std.specs.Prelude.{◌≡◌, ◌≤◌, ◌<◌, ◌+◌, ◌^◌, length, true, IfOk};
ghost use Rattle.spec_crypto.specs.tokens.Der.{long_length, length_in, element, comes, ends};
ghost use Rattle.crypto_sessions.specs.spnego.Pieces.{der_piece, parted, DerAnswers};

use spec_crypto::DerError;

/// Bytes of a token, and the place of the first of them in it.
#[derive(Clone, Copy)]
pub(crate) struct Piece<'a> {
    pub at: usize,
    pub bytes: &'a [u8],
}

/// An element's contents, and what stands behind it.
#[derive(Clone, Copy)]
pub(crate) struct Parted<'a> {
    pub contents: Piece<'a>,
    pub rest: Piece<'a>,
}

/// The number that `count` bytes from the second on spell, the highest first.
fn long_length_of(bytes: &[u8], count: usize) -> usize
    requires least { 1 ≤ count }
    requires most { count ≤ 4 }
    requires room { count < length bytes.now }
    ensures same { result ≡ long_length count bytes.now }
    ensures bound { result < 2 ^ 32 }
{
    if count == 1 {
        bytes[1] as usize
    } else if count == 2 {
        256 * bytes[1] as usize + bytes[2] as usize
    } else if count == 3 {
        65_536 * bytes[1] as usize + 256 * bytes[2] as usize + bytes[3] as usize
    } else {
        16_777_216 * bytes[1] as usize
            + 65_536 * bytes[2] as usize
            + 256 * bytes[3] as usize
            + bytes[4] as usize
    }
}

/// How many bytes the length in front takes, and the length.
#[tactic(auto, unfolding(spec_crypto::specs::tokens::Der::length_in))]
fn length_of(bytes: &[u8], at: usize) -> Result<(usize, usize), DerError>
    ensures same { result ≡ length_in (record { at = at; bytes = bytes.now }) }
    ensures bounds { IfOk result (λ x. (1 ≤ x.0) × (x.0 ≤ 5) × (x.1 < 2 ^ 32)) }
{
    if bytes.is_empty() {
        return Err(DerError::Truncated(at));
    }
    let first = bytes[0] as usize;
    if first < 128 {
        return Ok((1, first));
    }
    if first == 128 || first > 132 {
        return Err(DerError::BadLength(at));
    }
    if bytes.len() < first - 127 {
        return Err(DerError::Truncated(at));
    }
    Ok((first - 127, long_length_of(bytes, first - 128)))
}

impl<'a> Piece<'a> {
    pub(crate) fn whole(bytes: &'a [u8]) -> Piece<'a>
        ensures { (result.at ≡ 0) × (result.bytes.now ≡ bytes.now) }
    {
        Piece { at: 0, bytes }
    }
}

/// The element with this tag.
#[tactic(auto, unfolding(spec_crypto::specs::tokens::Der::element))]
pub(crate) fn element_of<'a>(tag: u8, p: &Piece<'a>) -> Result<Parted<'a>, DerError>
    requires { p.now.at + length p.now.bytes.now < 2 ^ 63 }
    ensures same { DerAnswers parted result (element tag (der_piece p.now)) }
    ensures bounds { IfOk result (λ e. (e.contents.at + length e.contents.bytes.now ≤ p.now.at + length p.now.bytes.now)
        × (e.rest.at + length e.rest.bytes.now ≤ p.now.at + length p.now.bytes.now) × (length e.rest.bytes.now < length
        p.now.bytes.now)) }
{
    let bytes = p.bytes;
    if bytes.is_empty() {
        return Err(DerError::Truncated(p.at));
    }
    if bytes[0] != tag {
        return Err(DerError::BadTag(p.at, bytes[0]));
    }
    let (told, count) = length_of(&bytes[1..], p.at + 1)?;
    let from = 1 + told;
    if bytes.len() < from + count {
        return Err(DerError::Truncated(p.at + 1));
    }
    Ok(Parted {
        contents: Piece {
            at: p.at + from,
            bytes: &bytes[from..from + count],
        },
        rest: Piece {
            at: p.at + from + count,
            bytes: &bytes[from + count..],
        },
    })
}

/// Whether an element with this tag comes next.
pub(crate) fn is_next(tag: u8, p: &Piece<'_>) -> bool
    ensures { result ≡ comes tag (der_piece p.now) }
{
    !p.bytes.is_empty() && p.bytes[0] == tag
}

/// Nothing is left.
#[tactic(auto, unfolding(spec_crypto::specs::tokens::Der::ends))]
pub(crate) fn end_of(p: &Piece<'_>) -> Result<(), DerError>
    ensures { DerAnswers (λ _. true) result (ends (der_piece p.now)) }
{
    if p.bytes.is_empty() {
        Ok(())
    } else {
        Err(DerError::Trailing(p.at))
    }
}
