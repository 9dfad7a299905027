//! The server's side: a challenge, and whether the answer is a user's logon.
ghost use Rattle.std.specs.Prelude.{◌≡◌, ◌≤◌, ◌<◌, ◌+◌, ◌++◌, true, Some, Err, length, take, drop, IfOk};
ghost use Rattle.std.specs.Str.{bytes_eq};
ghost use Rattle.spec_crypto.specs.tokens.Formulas.{utf16, upper, proof};
ghost use Rattle.spec_crypto.specs.tokens.Pairs.{pair};
ghost use Rattle.crypto_sessions.specs.ntlmv2.Judging.{user_of, exported_by, first_found, IsLogonKey, IsLogonPlace};
ghost use Rattle.crypto_sessions.specs.ntlmv2.Views.{type3_view, Judges};
ghost use Rattle.spec_crypto.specs.declared.tokens.ntlm.LogonError.TheVariants.{UnknownUser};
ghost use Rattle.spec_crypto.specs.tokens.Acceptor.{challenge_flags, server_info, ascii_byte, is_ascii_utf16, has_form};
ghost use Rattle.spec_crypto.specs.tokens.Acceptor.{exchanges, has_mic_bit, owes_mic};

use crate::ntlmv2::formulas::{base_key, exchanged_key_of, mic, ntowf_with, proof};
use crate::ntlmv2::messages::{Type2, Type3, read_type1, read_type3, write_type2};
use crate::ntlmv2::pairs::pair_of;
use crate::ntlmv2::text::{raised_of, upper_of, utf16_of};
use crate::ntlmv2::users::Users;
use crypto_ciphers::is_same;
use spec_crypto::{LogonError, NtlmError};
use std::alloc::{AllocError, Global};
use std::marker::Model;
use wire_bytes::{Bytes, FixedOut, Text};

/// `SMB311` and `smb311` in UTF-16.
const LARGE_NAME: [u8; 12] = [b'S', 0, b'M', 0, b'B', 0, b'3', 0, b'1', 0, b'1', 0];

const SMALL_NAME: [u8; 12] = [b's', 0, b'm', 0, b'b', 0, b'3', 0, b'1', 0, b'1', 0];

/// The password that is tried where no user has the told name. It opens nothing: what its trial gives is thrown away.
const STAND_IN: &str = "a password";

/// A logon in the making: its first two messages and the challenge.
#[derive(Debug, Drop)]
pub struct Acceptor {
    first: Bytes,
    second: Bytes,
    server: [u8; 8],
}

/// A user's logon.
#[derive(Debug, Drop)]
pub struct Logon {
    /// The user's name as it is configured.
    pub user: Text,
    /// The exported session key.
    pub key: [u8; 16],
    /// Whether the client chose the key, and sent it.
    pub exchanged: bool,
}

fn flags_for(flags: u32) -> u32
    ensures { result ≡ challenge_flags flags }
{
    0x0082_0204 | flags & 0x6008_8031
}

fn put_pair(out: &mut FixedOut<80>, id: u16, value: &[u8])
    requires { length out.old + (4 + length value.now) ≤ 80 }
    ensures grown { out.new ≡ out.old ++ pair id value.now }
    ensures len { length out.new ≡ length out.old + (4 + length value.now) }
{
    out.put_u16(id);
    out.put_u16(value.len() as u16);
    out.put_slice(value);
}

/// The names of this server, and the time.
fn info_at(now: u64) -> [u8; 80]
    ensures { result ≡ server_info now }
{
    let mut out = FixedOut::<80>::new();
    put_pair(&mut out, 2, &LARGE_NAME);
    put_pair(&mut out, 1, &LARGE_NAME);
    put_pair(&mut out, 4, &SMALL_NAME);
    put_pair(&mut out, 3, &SMALL_NAME);
    out.put_u16(7);
    out.put_u16(8);
    out.put_u64(now);
    out.put_u32(0);
    out.finish()
}

fn is_ascii_at(bytes: &[u8], k: usize) -> bool
    requires { k < length bytes.now }
    ensures { result ≡ ascii_byte bytes.now k }
{
    if k % 2 == 0 {
        bytes[k] < 128
    } else {
        bytes[k] == 0
    }
}

/// Whether the bytes are whole units of UTF-16, each of them ASCII.
fn is_ascii(bytes: &[u8]) -> bool
    ensures { result ≡ is_ascii_utf16 bytes.now }
{
    if bytes.len() % 2 != 0 {
        return false;
    }
    'bytes: for k in 0..bytes.len() {
        if !is_ascii_at(bytes, k) {
            return false;
        }
    }
    true
}

/// Whether a name, which is told in UTF-16 with A to Z in place of a to z, is this one.
fn is_name(alloc: Global, told: &[u8], name: &str) -> Result<bool, AllocError>
    ensures { IfOk result (λ b. b ≡ bytes_eq told.now (utf16 (upper name.now))) }
{
    let upper = upper_of(alloc, name)?;
    let spelled = utf16_of(alloc, upper.as_str())?;
    Ok(told == spelled.as_slice())
}

/// The first place that was found, once place k was looked at.
fn first_found(place: Option<usize>, found: bool, k: usize) -> Option<usize>
    ensures { result ≡ first_found place found k }
{
    match place {
        Some(first) => Some(first),
        None => { if found { Some(k) } else { None } }
    }
}

/// The place of the first user of a name in UTF-16. All users are looked at, also behind the one that was found, so that
/// the time doesn't tell whether there is one.
fn place_of(alloc: Global, users: &[(Text, Text)], name: &[u8]) -> Result<Option<usize>, AllocError>
    ensures { IfOk result (λ place. IsLogonPlace users.now name.now place) }
{
    let raised = raised_of(alloc, name)?;
    let told = raised.as_slice();
    let mut place = None;
    'users: for k in 0..users.len() {
        let found = is_name(alloc, told, users[k].0.as_str())?;
        place = first_found(place, found, k);
    }
    Ok(place)
}

#[tactic(auto, unfolding(spec_crypto::specs::tokens::Acceptor::exchanges))]
fn has_key_exchange(flags: u32) -> bool
    ensures { result ≡ exchanges flags }
{
    flags & 0x4000_0000 == 0x4000_0000
}

/// The flags that are needed, room for a proof and what it is of, and a key of 16 bytes where one is exchanged.
#[tactic(auto, unfolding(spec_crypto::specs::tokens::Acceptor::has_form))]
fn is_formed(m: &Type3<'_>) -> bool
    ensures { result ≡ has_form (type3_view m.now) }
{
    m.flags & 0x2008_0001 == 0x2008_0001
        && m.nt.len() >= 44
        && (!has_key_exchange(m.flags) || m.session_key.len() == 16)
}

/// Bit 2 of MsvAvFlags.
fn is_mic_bit_set(value: &[u8]) -> bool
    ensures { result ≡ has_mic_bit (Some value.now) }
{
    !value.is_empty() && value[0] / 2 % 2 == 1
}

/// Pair 6 of the client's target information says that there is a MIC.
#[tactic(auto, unfolding(spec_crypto::specs::tokens::Acceptor::owes_mic))]
fn is_mic_owed(m: &Type3<'_>) -> bool
    ensures { result ≡ owes_mic (type3_view m.now) }
{
    if m.nt.len() < 44 {
        return false;
    }
    match pair_of(6, &m.nt[44..]) {
        None => false,
        Some(value) => is_mic_bit_set(value),
    }
}

fn sixteen_of(bytes: &[u8]) -> [u8; 16]
    requires { 16 ≤ length bytes.now }
    ensures { result ≡ take 16 bytes.now }
{
    let mut front = [0; 16];
    front.copy_from_slice(&bytes[..16]);
    front
}

/// Whether two pieces of one length are the same. All of their bytes are looked at, because the time till a first
/// difference would tell a peer how many bytes of a guess were right.
#[tactic(auto, using(crate::proofs::session_keys::Halves::tested))]
fn is_equal(a: &[u8], b: &[u8]) -> bool
    requires { length a.now ≡ length b.now }
    ensures { result ≡ bytes_eq a.now b.now }
{
    is_same(a, b)
}

/// Whether a response begins with the proof of this key.
fn is_shown(key: &[u8; 16], server: &[u8; 8], nt: &[u8]) -> bool
    requires { 16 ≤ length nt.now }
    ensures { result ≡ bytes_eq (take 16 nt.now) (proof key.now server.now (drop 16 nt.now)) }
{
    is_equal(&nt[..16], &proof(key, server, &nt[16..]))
}

/// The exported key behind a response with this key's proof.
#[tactic(auto, using(std::proofs::lemmas::List::take_all))]
fn exported_key_of(key: &[u8; 16], m: &Type3<'_>) -> [u8; 16]
    requires shown { 16 ≤ length m.now.nt.now }
    requires sent { exchanges m.now.flags ≡ true → length m.now.session_key.now ≡ 16 }
    ensures { result ≡ exported_by key.now (type3_view m.now) }
{
    let base = base_key(key, &sixteen_of(m.nt));
    if has_key_exchange(m.flags) {
        exchanged_key_of(&base, &sixteen_of(m.session_key))
    } else {
        base
    }
}

/// The exported key, where the user's password gives the proof.
fn key_of(
    alloc: Global,
    user: &(Text, Text),
    server: &[u8; 8],
    m: &Type3<'_>,
) -> Result<Option<[u8; 16]>, AllocError>
    ensures { IfOk result (λ key. IsLogonKey (user_of user.now) server.now (type3_view m.now) key) }
{
    if !is_formed(m) {
        return Ok(None);
    }
    let key = ntowf_with(alloc, user.1.as_str(), user.0.as_str(), m.domain)?;
    if !is_shown(&key, server, m.nt) {
        return Ok(None);
    }
    Ok(Some(exported_key_of(&key, m)))
}

/// A name as it was told, each unit by its low byte.
fn told_name(alloc: Global, told: &[u8]) -> Result<Text, AllocError> {
    let mut name = Text::new(alloc);
    for k in 0..told.len() / 2 {
        name.push(told[2 * k] as char)?;
    }
    Ok(name)
}

/// The work of `key_of` where the password is wrong. No key comes of it, also where the stand-in's proof was sent.
fn try_stand_in(
    alloc: Global,
    name: &str,
    server: &[u8; 8],
    m: &Type3<'_>,
) -> Result<bool, AllocError> {
    if !is_formed(m) {
        return Ok(false);
    }
    let key = ntowf_with(alloc, STAND_IN, name, m.domain)?;
    Ok(is_shown(&key, server, m.nt))
}

/// The refusal of a name that no user has. It takes the work that a user's wrong password takes, so that the time
/// doesn't tell who is a user.
fn refuse_stranger(
    alloc: Global,
    name: &str,
    server: &[u8; 8],
    m: &Type3<'_>,
) -> Result<Logon, LogonError>
    ensures { Judges result (Err UnknownUser) }
{
    let _shown = try_stand_in(alloc, name, server, m)?;
    Err(LogonError::UnknownUser)
}

impl Model for Acceptor {
    ghost use Rattle.crypto_sessions.specs.ntlmv2.Judging.{AcceptorState};

    ghost Value = { AcceptorState };

    ghost view = { λ a. record { first = a.first; second = a.second; server = a.server } };
}

impl Acceptor {
    ghost use Rattle.spec_crypto.specs.tokens.Acceptor.{verdict, verdict_on};
    ghost use Rattle.std.specs.Prelude.{Some};
    ghost use Rattle.crypto_sessions.specs.ntlmv2.Views.{type3_view, Judges};
    ghost use Rattle.std.specs.Prelude.{◌≡◌, IfOk};
    ghost use Rattle.crypto_sessions.specs.ntlmv2.Judging.{user_of, has_mic, Challenges};

    /// The challenge to a type 1, of eight random bytes and a moment in units of 100 nanoseconds since 1601, and what
    /// is kept of both; or the type 1's first break.
    #[tactic(auto, using(crate::proofs::ntlmv2::Verdicts::unchallenged), unfolding(spec_crypto::specs::tokens::Acceptor::challenge))]
    pub fn challenge(
        alloc: Global,
        t1: &[u8],
        server: [u8; 8],
        now: u64,
    ) -> Result<(Acceptor, Bytes), NtlmError>
        ensures { Challenges t1.now server now result }
    {
        let first = read_type1(t1)?;
        let info = info_at(now);
        let message = write_type2(
            alloc,
            &Type2 {
                flags: flags_for(first.flags),
                challenge: server,
                target_name: &LARGE_NAME,
                target_info: &info,
            },
        )?;
        let kept = Bytes::from_slice(alloc, t1)?;
        let copy = message.copy()?;
        let acceptor = Acceptor {
            first: kept,
            second: copy,
            server,
        };
        Ok((acceptor, message))
    }

    /// Whether a type 3 has its MIC, where one is owed.
    fn has_its_mic(
        &self,
        alloc: Global,
        key: &[u8; 16],
        t3: &[u8],
        m: &Type3<'_>,
    ) -> Result<bool, AllocError>
        ensures { IfOk result (λ b. b ≡ has_mic key.now self.now.first self.now.second t3.now (type3_view m.now)) }
    {
        if !is_mic_owed(m) {
            return Ok(true);
        }
        let code = mic(
            alloc,
            key,
            self.first.as_slice(),
            self.second.as_slice(),
            t3,
        )?;
        Ok(is_equal(&m.mic, &code))
    }

    fn judge(
        &self,
        alloc: Global,
        user: &(Text, Text),
        t3: &[u8],
        m: &Type3<'_>,
    ) -> Result<Logon, LogonError>
        ensures { Judges result (verdict_on (Some (user_of user.now)) self.now.server self.now.first self.now.second
            t3.now (type3_view m.now)) }
    {
        let found = key_of(alloc, user, &self.server, m)?;
        let key = match found {
            None => return Err(LogonError::WrongProof),
            Some(key) => key,
        };
        // After the proof, because the MIC is under the exported key, which comes from the proof.
        let has_mic = self.has_its_mic(alloc, &key, t3, m)?;
        if !has_mic {
            return Err(LogonError::WrongMic);
        }
        let name = user.0.copy()?;
        Ok(Logon {
            user: name,
            key,
            exchanged: has_key_exchange(m.flags),
        })
    }

    /// The logon that a type 3 proves, or the first of `NotAscii`, `UnknownUser`, `WrongProof` and `WrongMic` that
    /// applies; a type 3 that doesn't read is `WrongProof`.
    pub fn check(&self, alloc: Global, users: &Users, t3: &[u8]) -> Result<Logon, LogonError>
        ensures { Judges result (verdict users.now.list self.now.server self.now.first self.now.second t3.now) }
    {
        let m = match read_type3(t3) {
            Err(_break) => return Err(LogonError::WrongProof),
            Ok(m) => m,
        };
        if !is_ascii(m.user) {
            return Err(LogonError::NotAscii);
        }
        let items = users.as_slice();
        // Before the search, because it is to be made of each name, also of a user's.
        let name = told_name(alloc, m.user)?;
        let found = place_of(alloc, items, m.user)?;
        match found {
            None => refuse_stranger(alloc, name.as_str(), &self.server, &m),
            Some(place) => self.judge(alloc, &items[place], t3, &m),
        }
    }
}
