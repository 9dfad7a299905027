//! The parts of SPNEGO's tokens.
ghost use Rattle.std.specs.Prelude.{◌≡◌, ◌<◌, ◌+◌, ◌^◌, ◌==◌, ◌||◌, if◌then◌else◌, length, true, IfOk};
ghost use Rattle.std.specs.Str.{bytes_eq};
ghost use Rattle.spec_crypto.specs.tokens.Spnego.{ntlmssp, byte_is, spnego_named, octets, passed, names_ntlm, begins_with_ntlm};
ghost use Rattle.spec_crypto.specs.tokens.Spnego.{names_in, mech_types, hints, state_in, mech_in};
ghost use Rattle.crypto_sessions.specs.spnego.Pieces.{der_piece, DerAnswers, Within};
ghost use Rattle.crypto_sessions.specs.spnego.Fields.{octets_view, names_view, mech_types_view, hints_view, state_view, mech_view};

use crate::spnego::element::{Piece, element_of, end_of, is_next};
use spec_crypto::DerError;

/// 1.3.6.1.4.1.311.2.2.10
pub(crate) const NTLMSSP: [u8; 10] = [0x2b, 6, 1, 4, 1, 0x82, 0x37, 2, 2, 10];

/// Byte `i` of contents, which is due there.
#[tactic(auto, unfolding(spec_crypto::specs::tokens::Spnego::byte_is))]
fn expect(i: usize, due: u8, p: &Piece<'_>) -> Result<(), DerError>
    requires place { i < length p.now.bytes.now }
    requires short { p.now.at + length p.now.bytes.now < 2 ^ 63 }
    ensures { DerAnswers (λ _. true) result (byte_is i due (der_piece p.now)) }
{
    if p.bytes[i] == due {
        Ok(())
    } else {
        Err(DerError::BadTag(p.at + i, p.bytes[i]))
    }
}

/// The length of contents, told at the place before.
fn expect_length(p: &Piece<'_>, count: usize, at: usize) -> Result<(), DerError>
    ensures { DerAnswers (λ _. true) result (if length p.now.bytes.now == count then Ok true else Err (DerError.BadLength at)) }
{
    if p.bytes.len() == count {
        Ok(())
    } else {
        Err(DerError::BadLength(at))
    }
}

/// Behind the object identifier of SPNEGO, 1.3.6.1.5.5.2.
#[tactic(auto, unfolding(spec_crypto::specs::tokens::Spnego::spnego_named))]
pub(crate) fn behind_name<'a>(p: &Piece<'a>) -> Result<Piece<'a>, DerError>
    requires { p.now.at + length p.now.bytes.now < 2 ^ 63 }
    ensures same { DerAnswers der_piece result (spnego_named (der_piece p.now)) }
    ensures bounds { IfOk result (λ r. Within p.now r) }
{
    let name = element_of(6, p)?;
    expect_length(&name.contents, 6, p.at + 1)?;
    expect(0, 0x2b, &name.contents)?;
    expect(1, 6, &name.contents)?;
    expect(2, 1, &name.contents)?;
    expect(3, 5, &name.contents)?;
    expect(4, 5, &name.contents)?;
    expect(5, 2, &name.contents)?;
    Ok(name.rest)
}

/// An OCTET STRING where there is one, and what stands behind it.
#[derive(Clone, Copy)]
pub(crate) struct OctetString<'a> {
    pub bytes: Option<&'a [u8]>,
    pub rest: Piece<'a>,
}

/// An element with this tag, where it comes next, of one OCTET STRING.
#[tactic(auto, unfolding(spec_crypto::specs::tokens::Spnego::octets))]
pub(crate) fn octets_of<'a>(tag: u8, p: &Piece<'a>) -> Result<OctetString<'a>, DerError>
    requires { p.now.at + length p.now.bytes.now < 2 ^ 63 }
    ensures same { DerAnswers octets_view result (octets tag (der_piece p.now)) }
    ensures bounds { IfOk result (λ x. Within p.now x.rest) }
{
    if !is_next(tag, p) {
        return Ok(OctetString {
            bytes: None,
            rest: *p,
        });
    }
    let field = element_of(tag, p)?;
    let string = element_of(4, &field.contents)?;
    end_of(&string.rest)?;
    Ok(OctetString {
        bytes: Some(string.contents.bytes),
        rest: field.rest,
    })
}

/// Behind an element with this tag, where it comes next.
#[tactic(auto, unfolding(spec_crypto::specs::tokens::Spnego::passed))]
pub(crate) fn pass<'a>(tag: u8, p: &Piece<'a>) -> Result<Piece<'a>, DerError>
    requires { p.now.at + length p.now.bytes.now < 2 ^ 63 }
    ensures same { DerAnswers der_piece result (passed tag (der_piece p.now)) }
    ensures bounds { IfOk result (λ r. Within p.now r) }
{
    if !is_next(tag, p) {
        return Ok(*p);
    }
    let field = element_of(tag, p)?;
    Ok(field.rest)
}

fn is_ntlm(bytes: &[u8]) -> bool
    ensures { result ≡ bytes_eq bytes.now ntlmssp }
{
    bytes == NTLMSSP.as_slice()
}

fn is_found(before: bool, bytes: &[u8]) -> bool
    ensures { result ≡ (before || bytes_eq bytes.now ntlmssp) }
{
    before || is_ntlm(bytes)
}

/// Whether one of the mechanisms is NTLMSSP.
fn find_ntlm(p: &Piece<'_>) -> Result<bool, DerError>
    requires { p.now.at + length p.now.bytes.now < 2 ^ 63 }
    ensures { DerAnswers (λ b. b) result (names_ntlm (length p.now.bytes.now) (der_piece p.now)) }
{
    let mut found = false;
    let mut rest = *p;
    'mechanisms: while !rest.bytes.is_empty() {
        let mechanism = match element_of(6, &rest) {
            Ok(mechanism) => mechanism,
            Err(e) => return Err(e),
        };
        found = is_found(found, mechanism.contents.bytes);
        rest = mechanism.rest;
    }
    Ok(found)
}

/// Whether the first mechanism is NTLMSSP.
#[tactic(auto, unfolding(spec_crypto::specs::tokens::Spnego::begins_with_ntlm))]
fn is_ntlm_first(p: &Piece<'_>) -> Result<bool, DerError>
    requires { p.now.at + length p.now.bytes.now < 2 ^ 63 }
    ensures { DerAnswers (λ b. b) result (begins_with_ntlm (der_piece p.now)) }
{
    if p.bytes.is_empty() {
        return Ok(false);
    }
    let mechanism = element_of(6, p)?;
    Ok(is_ntlm(mechanism.contents.bytes))
}

/// What the SEQUENCE of mechTypes names.
#[derive(Clone, Copy)]
pub(crate) struct ListNames {
    pub ntlm_first: bool,
    pub names_ntlm: bool,
}

#[tactic(auto, unfolding(spec_crypto::specs::tokens::Spnego::names_in))]
fn names_of(p: &Piece<'_>) -> Result<ListNames, DerError>
    requires { p.now.at + length p.now.bytes.now < 2 ^ 63 }
    ensures { DerAnswers names_view result (names_in (der_piece p.now)) }
{
    let list = element_of(0x30, p)?;
    let ntlm_first = is_ntlm_first(&list.contents)?;
    let names_ntlm = find_ntlm(&list.contents)?;
    end_of(&list.rest)?;
    Ok(ListNames {
        ntlm_first,
        names_ntlm,
    })
}

/// The mechTypes: their SEQUENCE, what it names, and what stands behind it.
#[derive(Clone, Copy)]
pub(crate) struct MechList<'a> {
    pub list: &'a [u8],
    pub names: ListNames,
    pub rest: Piece<'a>,
}

#[tactic(auto, unfolding(spec_crypto::specs::tokens::Spnego::mech_types))]
pub(crate) fn mech_types_of<'a>(p: &Piece<'a>) -> Result<MechList<'a>, DerError>
    requires { p.now.at + length p.now.bytes.now < 2 ^ 63 }
    ensures same { DerAnswers mech_types_view result (mech_types (der_piece p.now)) }
    ensures bounds { IfOk result (λ x. Within p.now x.rest) }
{
    let field = element_of(0xa0, p)?;
    let names = names_of(&field.contents)?;
    Ok(MechList {
        list: field.contents.bytes,
        names,
        rest: field.rest,
    })
}

/// Whether negHints come next, and what stands behind them.
#[derive(Clone, Copy)]
pub(crate) struct NegHints<'a> {
    pub present: bool,
    pub rest: Piece<'a>,
}

#[tactic(auto, unfolding(spec_crypto::specs::tokens::Spnego::hints))]
pub(crate) fn pass_hints<'a>(p: &Piece<'a>) -> Result<NegHints<'a>, DerError>
    requires { p.now.at + length p.now.bytes.now < 2 ^ 63 }
    ensures same { DerAnswers hints_view result (hints (der_piece p.now)) }
    ensures bounds { IfOk result (λ x. Within p.now x.rest) }
{
    if !is_next(0xa3, p) {
        return Ok(NegHints {
            present: false,
            rest: *p,
        });
    }
    let field = element_of(0xa3, p)?;
    if is_next(0x30, &field.contents) {
        Ok(NegHints {
            present: true,
            rest: field.rest,
        })
    } else {
        Ok(NegHints {
            present: false,
            rest: *p,
        })
    }
}

/// A negState where there is one, and what stands behind it.
#[derive(Clone, Copy)]
pub(crate) struct NegState<'a> {
    pub value: Option<u8>,
    pub rest: Piece<'a>,
}

#[tactic(auto, unfolding(spec_crypto::specs::tokens::Spnego::state_in))]
pub(crate) fn state_of<'a>(p: &Piece<'a>) -> Result<NegState<'a>, DerError>
    requires { p.now.at + length p.now.bytes.now < 2 ^ 63 }
    ensures same { DerAnswers state_view result (state_in (der_piece p.now)) }
    ensures bounds { IfOk result (λ x. Within p.now x.rest) }
{
    if !is_next(0xa0, p) {
        return Ok(NegState {
            value: None,
            rest: *p,
        });
    }
    let field = element_of(0xa0, p)?;
    let number = element_of(10, &field.contents)?;
    expect_length(&number.contents, 1, field.contents.at + 1)?;
    end_of(&number.rest)?;
    Ok(NegState {
        value: Some(number.contents.bytes[0]),
        rest: field.rest,
    })
}

/// Whether a supportedMech that comes next is NTLMSSP, and what stands behind it.
#[derive(Clone, Copy)]
pub(crate) struct SupportedMech<'a> {
    pub ntlm: bool,
    pub rest: Piece<'a>,
}

#[tactic(auto, unfolding(spec_crypto::specs::tokens::Spnego::mech_in))]
pub(crate) fn mech_of<'a>(p: &Piece<'a>) -> Result<SupportedMech<'a>, DerError>
    requires { p.now.at + length p.now.bytes.now < 2 ^ 63 }
    ensures same { DerAnswers mech_view result (mech_in (der_piece p.now)) }
    ensures bounds { IfOk result (λ x. Within p.now x.rest) }
{
    if !is_next(0xa1, p) {
        return Ok(SupportedMech {
            ntlm: false,
            rest: *p,
        });
    }
    let field = element_of(0xa1, p)?;
    let name = element_of(6, &field.contents)?;
    end_of(&name.rest)?;
    Ok(SupportedMech {
        ntlm: is_ntlm(name.contents.bytes),
        rest: field.rest,
    })
}
