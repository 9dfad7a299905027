//! The three messages, read and written.
ghost use Rattle.std.specs.Prelude.{◌≡◌, ◌<◌, ◌≤◌, ◌+◌, ◌^◌, ◌++◌, ◌==◌, nat_lt, if◌then◌else◌, length, drop, MatchResult};
ghost use Rattle.std.specs.Prelude.{None, Some, IfOk, OnOk, IsTrue, ◌↔◌};
ghost use Rattle.spec_wire.specs.messages.Places.{le, bytes_at};
ghost use Rattle.spec_wire.specs.messages.Table.{with_fields};
ghost use Rattle.spec_crypto.specs.tokens.Messages.{ntlm_signature, range_fault, info_fault, type3_places, type1_in, type2_in};
ghost use Rattle.spec_crypto.specs.tokens.Messages.{type3_in, type1_spelling, type2_spelling, type3_spelling, IsWritableType2};
ghost use Rattle.spec_crypto.specs.tokens.Messages.{IsWritableType3};
ghost use Rattle.crypto_sessions.specs.ntlmv2.Fixed.{IsFixed1, IsFixed2, IsFixed3, IsFieldTold, MatchKind};
ghost use Rattle.crypto_sessions.specs.ntlmv2.Views.{type2_view, type3_view, AreFieldsShort, NtlmReads};

use crate::ntlmv2::pairs::check_pairs;
use spec_crypto::{NtlmError, NtlmField, Type1};
use std::alloc::{AllocError, Global};
use wire_bytes::{Bytes, Out, Short, array_at, fields_fit, u16_at, u32_at};

/// `NTLMSSP` and a zero.
const SIGNATURE: [u8; 8] = *b"NTLMSSP\0";

/// The bytes of a type 3 before its parts.
const TYPE3: u32 = 88;

/// The CHALLENGE message of NTLM (MS-NLMP 2.2.1.2). Its parts are borrowed from the message.
#[derive(Clone, Copy, Debug, PartialEq, Eq)]
pub struct Type2<'a> {
    pub flags: u32,
    pub challenge: [u8; 8],
    pub target_name: &'a [u8],
    pub target_info: &'a [u8],
}

/// The AUTHENTICATE message of NTLM (MS-NLMP 2.2.1.3). Its parts are borrowed from the message.
#[derive(Clone, Copy, Debug, PartialEq, Eq)]
pub struct Type3<'a> {
    pub flags: u32,
    pub lm: &'a [u8],
    pub nt: &'a [u8],
    pub domain: &'a [u8],
    pub user: &'a [u8],
    pub workstation: &'a [u8],
    pub session_key: &'a [u8],
    pub mic: [u8; 16],
}

/// Where a part stands.
#[derive(Clone, Copy)]
struct Place {
    count: u16,
    at: u32,
}

/// The place of a part as eight bytes tell it.
fn place_at(m: &[u8], at: usize) -> Place
    requires { at + 8 ≤ length m.now }
    ensures { IsFieldTold m.now at result }
{
    Place {
        count: u16_at(m, at),
        at: u32_at(m, at + 4),
    }
}

/// The fixed part of a type 1, as far as it is needed.
#[derive(Clone, Copy)]
struct Fixed1 {
    signature: [u8; 8],
    kind: u32,
    flags: u32,
}

fn fixed1_of(m: &[u8]) -> Result<Fixed1, Short>
    ensures { MatchResult result (λ f. IsFixed1 m.now f) (λ e. length m.now < 16) }
{
    fields_fit(m, &[8, 4, 4])?;
    Ok(Fixed1 {
        signature: array_at::<8>(m, 0),
        kind: u32_at(m, 8),
        flags: u32_at(m, 12),
    })
}

/// The fixed part of a type 2.
#[derive(Clone, Copy)]
struct Fixed2 {
    signature: [u8; 8],
    kind: u32,
    target_name: Place,
    flags: u32,
    challenge: [u8; 8],
    target_info: Place,
}

fn fixed2_of(m: &[u8]) -> Result<Fixed2, Short>
    ensures { MatchResult result (λ f. IsFixed2 m.now f) (λ e. length m.now < 56) }
{
    fields_fit(m, &[8, 4, 8, 4, 8, 8, 8, 8])?;
    Ok(Fixed2 {
        signature: array_at::<8>(m, 0),
        kind: u32_at(m, 8),
        target_name: place_at(m, 12),
        flags: u32_at(m, 20),
        challenge: array_at::<8>(m, 24),
        target_info: place_at(m, 40),
    })
}

/// The fixed part of a type 3.
#[derive(Clone, Copy)]
struct Fixed3 {
    signature: [u8; 8],
    kind: u32,
    lm: Place,
    nt: Place,
    domain: Place,
    user: Place,
    workstation: Place,
    session_key: Place,
    flags: u32,
    mic: [u8; 16],
}

fn fixed3_of(m: &[u8]) -> Result<Fixed3, Short>
    ensures { MatchResult result (λ f. IsFixed3 m.now f) (λ e. length m.now < 88) }
{
    fields_fit(m, &[8, 4, 8, 8, 8, 8, 8, 8, 4, 8, 16])?;
    Ok(Fixed3 {
        signature: array_at::<8>(m, 0),
        kind: u32_at(m, 8),
        lm: place_at(m, 12),
        nt: place_at(m, 20),
        domain: place_at(m, 28),
        user: place_at(m, 36),
        workstation: place_at(m, 44),
        session_key: place_at(m, 52),
        flags: u32_at(m, 60),
        mic: array_at::<16>(m, 72),
    })
}

/// The signature is NTLM's and the type is this one.
fn check_kind(signature: &[u8; 8], told: u32, kind: u32) -> Result<(), NtlmError>
    ensures { MatchResult result (λ _. (signature.now ≡ ntlm_signature) × (told ≡ kind)) (λ e. MatchKind signature.now told kind e) }
{
    if *signature != SIGNATURE {
        Err(NtlmError::BadSignature)
    } else if told == kind {
        Ok(())
    } else {
        Err(NtlmError::BadType(told))
    }
}

/// A part of a message.
#[tactic(auto, unfolding(spec_crypto::specs::tokens::Messages::range_fault, spec_wire::specs::messages::Places::bytes_at))]
fn part_of(m: &[u8], place: Place, field: NtlmField) -> Result<&[u8], NtlmError>
    ensures same { MatchResult result (λ part. (range_fault m.now place.count place.at field ≡ None) × (part.now ≡
        bytes_at place.count m.now place.at)) (λ e. range_fault m.now place.count place.at field ≡ Some e) }
    ensures whole { IfOk result (λ part. length part.now ≡ place.count) }
    ensures short { IfOk result (λ part. length part.now < 65536) }
{
    let count = place.count as usize;
    let from = place.at as usize;
    if count == 0 {
        return Ok(&m[..0]);
    }
    if from + count > m.len() {
        return Err(NtlmError::OutOfRange(field));
    }
    Ok(&m[from..from + count])
}

/// The value of a type 1 (MS-NLMP 2.2.1.1), or the first break. It takes no memory.
#[tactic(auto, unfolding(spec_crypto::specs::tokens::Messages::start_fault))]
pub fn read_type1(m: &[u8]) -> Result<Type1, NtlmError>
    ensures { result ≡ type1_in m.now }
{
    let fixed = match fixed1_of(m) {
        Ok(fixed) => fixed,
        Err(_short) => return Err(NtlmError::BadSignature),
    };
    check_kind(&fixed.signature, fixed.kind, 1)?;
    Ok(Type1 { flags: fixed.flags })
}

/// The pairs of target information, where there is some.
fn check_info(place: Place, info: &[u8]) -> Result<(), NtlmError>
    requires { place.at + length info.now < 2 ^ 63 }
    ensures { MatchResult result (λ _. (if place.count == 0 then None else info_fault place.at info.now) ≡ None) (λ e.
        (if place.count == 0 then None else info_fault place.at info.now) ≡ Some e) }
{
    if place.count == 0 {
        return Ok(());
    }
    check_pairs(place.at as usize, info)
}

/// The value of a type 2 (MS-NLMP 2.2.1.2), or the first break. It takes no memory.
#[tactic(auto, unfolding(spec_crypto::specs::tokens::Messages::start_fault))]
pub fn read_type2(m: &[u8]) -> Result<Type2<'_>, NtlmError>
    ensures { NtlmReads type2_view result (type2_in m.now) }
{
    let fixed = match fixed2_of(m) {
        Ok(fixed) => fixed,
        Err(_short) => return Err(NtlmError::BadSignature),
    };
    check_kind(&fixed.signature, fixed.kind, 2)?;
    let target_name = part_of(m, fixed.target_name, NtlmField::TargetName)?;
    let target_info = part_of(m, fixed.target_info, NtlmField::TargetInfo)?;
    check_info(fixed.target_info, target_info)?;
    Ok(Type2 {
        flags: fixed.flags,
        challenge: fixed.challenge,
        target_name,
        target_info,
    })
}

/// The pairs of an NTLMv2 response, which begin behind its 44 bytes.
fn check_response(place: Place, nt: &[u8]) -> Result<(), NtlmError>
    requires whole { length nt.now ≡ place.count }
    requires short { place.at + length nt.now < 2 ^ 63 }
    ensures { MatchResult result (λ _. (if nat_lt place.count 44 then None else info_fault (place.at + 44) (drop 44
        nt.now)) ≡ None) (λ e. (if nat_lt place.count 44 then None else info_fault (place.at + 44) (drop 44 nt.now)) ≡
        Some e) }
{
    if place.count < 44 {
        return Ok(());
    }
    check_pairs(place.at as usize + 44, &nt[44..])
}

/// The value of a type 3 (MS-NLMP 2.2.1.3), or the first break. It takes no memory.
#[tactic(auto, unfolding(spec_crypto::specs::tokens::Messages::start_fault))]
pub fn read_type3(m: &[u8]) -> Result<Type3<'_>, NtlmError>
    ensures { NtlmReads type3_view result (type3_in m.now) }
{
    let fixed = match fixed3_of(m) {
        Ok(fixed) => fixed,
        Err(_short) => return Err(NtlmError::BadSignature),
    };
    check_kind(&fixed.signature, fixed.kind, 3)?;
    let lm = part_of(m, fixed.lm, NtlmField::Lm)?;
    let nt = part_of(m, fixed.nt, NtlmField::Nt)?;
    let domain = part_of(m, fixed.domain, NtlmField::Domain)?;
    let user = part_of(m, fixed.user, NtlmField::User)?;
    let workstation = part_of(m, fixed.workstation, NtlmField::Workstation)?;
    let session_key = part_of(m, fixed.session_key, NtlmField::SessionKey)?;
    check_response(fixed.nt, nt)?;
    Ok(Type3 {
        flags: fixed.flags,
        lm,
        nt,
        domain,
        user,
        workstation,
        session_key,
        mic: fixed.mic,
    })
}

/// The front of a message: its signature and its type.
fn put_start(out: &mut Out, kind: u32) -> Result<(), AllocError>
    ensures { OnOk result (out.new ≡ (out.old ++ ntlm_signature) ++ le 4 kind) }
{
    out.put_slice(&SIGNATURE)?;
    out.put_u32(kind)
}

/// Where a part stands.
fn put_place(out: &mut Out, part: &[u8], at: u32) -> Result<(), AllocError>
    requires { length part.now < 65536 }
    ensures { OnOk result (out.new ≡ ((out.old ++ le 2 (length part.now)) ++ le 2 (length part.now)) ++ le 4 at) }
{
    out.put_u16(part.len() as u16)?;
    out.put_u16(part.len() as u16)?;
    out.put_u32(at)
}

/// A type 1 of 40 bytes: its parts are empty, and the version is zero.
pub fn write_type1(alloc: Global, m: &Type1) -> Result<Bytes, AllocError>
    ensures { IfOk result (λ b. b ≡ type1_spelling m.now) }
{
    let mut out = Out::new(alloc);
    put_start(&mut out, 1)?;
    out.put_u32(m.flags)?;
    out.put_zeros(8)?;
    out.put_zeros(8)?;
    out.put_zeros(8)?;
    Ok(out.finish())
}

/// Whether each part of a type 2 fits its length field, so that `write_type2` takes it.
#[tactic(auto, using(crate::proofs::ntlmv2::Sizes::writable2))]
pub fn can_write_type2(m: &Type2<'_>) -> bool
    ensures exact { IsTrue result ↔ (length m.now.target_name.now < 65536) × (length m.now.target_info.now < 65536) }
    ensures fits { IsTrue result → IsWritableType2 (type2_view m.now) }
{
    let _flags = m.flags;
    if m.target_name.len() >= 65_536 {
        return false;
    }
    m.target_info.len() < 65_536
}

/// Whether each part of a type 3 fits its length field, so that `write_type3` takes it.
#[tactic(auto, using(crate::proofs::ntlmv2::Sizes::writable3))]
pub fn can_write_type3(m: &Type3<'_>) -> bool
    ensures exact { IsTrue result ↔ AreFieldsShort m.now }
    ensures fits { IsTrue result → IsWritableType3 (type3_view m.now) }
{
    let _flags = m.flags;
    if m.lm.len() >= 65_536 || m.nt.len() >= 65_536 || m.domain.len() >= 65_536 {
        return false;
    }
    if m.user.len() >= 65_536 || m.workstation.len() >= 65_536 {
        return false;
    }
    m.session_key.len() < 65_536
}

/// A type 2, whose parts stand behind its 56 bytes. Each part fits its length field.
#[tactic(auto, unfolding(spec_crypto::specs::tokens::Messages::type2_spelling))]
pub fn write_type2(alloc: Global, m: &Type2<'_>) -> Result<Bytes, AllocError>
    requires { IsWritableType2 (type2_view m.now) }
    ensures { IfOk result (λ b. b ≡ type2_spelling (type2_view m.now)) }
{
    let mut out = Out::new(alloc);
    put_start(&mut out, 2)?;
    put_place(&mut out, m.target_name, 56)?;
    out.put_u32(m.flags)?;
    out.put_slice(&m.challenge)?;
    out.put_zeros(8)?;
    put_place(&mut out, m.target_info, 56 + m.target_name.len() as u32)?;
    out.put_zeros(8)?;
    out.put_slice(m.target_name)?;
    out.put_slice(m.target_info)?;
    Ok(out.finish())
}

/// The places of a type 3's parts, one behind the other.
fn put_places(out: &mut Out, m: &Type3<'_>) -> Result<(), AllocError>
    requires { IsWritableType3 (type3_view m.now) }
    ensures { OnOk result (out.new ≡ with_fields out.old (type3_places (type3_view m.now))) }
{
    let nt_at = TYPE3 + m.lm.len() as u32;
    let domain_at = nt_at + m.nt.len() as u32;
    let user_at = domain_at + m.domain.len() as u32;
    let workstation_at = user_at + m.user.len() as u32;
    put_place(out, m.lm, TYPE3)?;
    put_place(out, m.nt, nt_at)?;
    put_place(out, m.domain, domain_at)?;
    put_place(out, m.user, user_at)?;
    put_place(out, m.workstation, workstation_at)?;
    put_place(
        out,
        m.session_key,
        workstation_at + m.workstation.len() as u32,
    )
}

/// A type 3, whose parts stand behind its 88 bytes in the order of the fields. Each part fits its length field.
#[tactic(auto, unfolding(spec_crypto::specs::tokens::Messages::type3_spelling))]
pub fn write_type3(alloc: Global, m: &Type3<'_>) -> Result<Bytes, AllocError>
    requires { IsWritableType3 (type3_view m.now) }
    ensures { IfOk result (λ b. b ≡ type3_spelling (type3_view m.now)) }
{
    let mut out = Out::new(alloc);
    put_start(&mut out, 3)?;
    put_places(&mut out, m)?;
    out.put_u32(m.flags)?;
    out.put_zeros(8)?;
    out.put_slice(&m.mic)?;
    out.put_slice(m.lm)?;
    out.put_slice(m.nt)?;
    out.put_slice(m.domain)?;
    out.put_slice(m.user)?;
    out.put_slice(m.workstation)?;
    out.put_slice(m.session_key)?;
    Ok(out.finish())
}
