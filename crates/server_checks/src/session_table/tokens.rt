//! The tokens of a logon (MS-SMB2 3.3.5.5.3): what one shows, and those that answer it. A token is SPNEGO's, or NTLM's message
//! alone where the server takes it.
ghost use Rattle.std.specs.Prelude.{◌≡◌, IfOk, OnOk, Ok, None, Some, option_map, option_copied};
ghost use Rattle.spec_crypto.specs.tokens.Tokens.{bare_init, bare_resp, begun_by, begun_by_message, begun_with, first_in, is_bare};
ghost use Rattle.spec_crypto.specs.tokens.Tokens.{is_unlisted, second_in, shown, shown_by, shown_message, shown_with};
ghost use Rattle.spec_crypto.specs.tokens.Tokens.{challenge_resp, challenge_token, final_resp, second_of, final_mic, final_token};
ghost use Rattle.spec_crypto.specs.tokens.Messages.{type1_in};
ghost use Rattle.spec_crypto.specs.tokens.Spnego.{resp_spelling};
ghost use Rattle.crypto_sessions.specs.spnego.Views.{TokenReads, init_view, resp_view};
ghost use Rattle.server_checks.specs.session_table.Logons.{begun_in, begun_of, pending_for, pending_made, pending_of, shown_of};
ghost use Rattle.server_checks.specs.session_table.Logons.{logon_of, IsBreak, IsRefusal};

use crate::session_table::row::InMaking;
use crypto_sessions::{
    Acceptor, InitToken, Logon, RespToken, Users, can_write_resp, read_init, read_resp, read_type1,
    sign_mech_list, write_resp,
};
use spec_crypto::{DerError, LogonError};
use std::alloc::{AllocError, Global};
use wire_bytes::Bytes;

/// What NTLM's messages begin with (MS-NLMP 2.2.1).
const SIGNATURE: [u8; 8] = *b"NTLMSSP\0";

/// What a first token begins: its list of mechanisms, which is empty where it is a type 1 alone, and its type 1.
#[derive(Drop, Debug)]
pub struct Begun {
    pub list: Bytes,
    pub first: Bytes,
}

/// What a token shows.
#[derive(Drop, Debug)]
pub enum TokenShown {
    Begins(Begun),
    /// It is neither a first token nor, where a logon is in the making, a second one.
    Bad,
    Refused,
    /// A logon, and whether the token has a MIC, so that the answer owes one.
    LoggedOn { logon: Logon, signs: bool },
}

/// What a token shows where this is in the making.
#[tactic(auto, unfolding(spec_crypto::specs::tokens::Tokens::shown))]
pub fn token_shown(
    alloc: Global,
    users: &Users,
    making: Option<&InMaking>,
    token: &[u8],
) -> Result<TokenShown, AllocError>
    ensures shown { IfOk result (λ v. shown_of v ≡ shown users.now (option_map pending_of (option_copied making.entry)) token.now) }
    ensures begun { IfOk result (λ v. begun_in v ≡ begun_by users.now.bare token.now) }
{
    if let Some(begun) = begun_in(alloc, users.is_bare(), token)? {
        return Ok(TokenShown::Begins(begun));
    }
    match making {
        Some(making) => second_shown(alloc, users, making, token),
        None => Ok(TokenShown::Bad),
    }
}

// What a first token begins, where it is one.
#[tactic(auto, unfolding(spec_crypto::specs::tokens::Tokens::begun_by))]
fn begun_in(alloc: Global, bare: bool, token: &[u8]) -> Result<Option<Begun>, AllocError>
    ensures { IfOk result (λ b. option_map begun_of b ≡ begun_by bare token.now) }
{
    match read_first(alloc, bare, token) {
        Ok(init) => Ok(begun_with(init)),
        Err(error) => {
            check_break(error)?;
            Ok(None)
        }
    }
}

// Whether a token is NTLM's message alone.
#[tactic(auto, unfolding(spec_crypto::specs::tokens::Tokens::is_bare))]
fn is_bare(token: &[u8]) -> bool
    ensures { result ≡ is_bare token.now }
{
    token.starts_with(&SIGNATURE)
}

// Whether a logon has no list of mechanisms, because its first token was a type 1 alone.
#[tactic(auto, unfolding(spec_crypto::specs::tokens::Tokens::is_unlisted))]
fn is_unlisted(list: &[u8]) -> bool
    ensures { result ≡ is_unlisted list.now }
{
    list.is_empty()
}

// A first token as it reads.
#[tactic(auto, unfolding(spec_crypto::specs::tokens::Tokens::first_in))]
fn read_first(alloc: Global, bare: bool, token: &[u8]) -> Result<InitToken, DerError>
    ensures { TokenReads init_view result (first_in bare token.now) }
{
    let alone = bare && is_bare(token);
    if alone {
        alone_init(alloc, token)
    } else {
        read_init(alloc, token)
    }
}

// A type 1 alone, as SPNEGO's token with no list would have it.
fn alone_init(alloc: Global, token: &[u8]) -> Result<InitToken, DerError>
    ensures { TokenReads init_view result (Ok (bare_init token.now)) }
{
    let first = Bytes::from_slice(alloc, token)?;
    Ok(InitToken {
        mech_list: Bytes::new(alloc),
        ntlm_first: true,
        token: Some(first),
        mic: None,
    })
}

// A second token as it reads, behind a first one with this list.
#[tactic(auto, unfolding(spec_crypto::specs::tokens::Tokens::second_in))]
fn read_second(alloc: Global, list: &[u8], token: &[u8]) -> Result<RespToken, DerError>
    ensures { TokenReads resp_view result (second_in list.now token.now) }
{
    if !is_unlisted(list) {
        return read_resp(alloc, token);
    }
    if !is_bare(token) {
        return Err(DerError::NoNtlm);
    }
    alone_resp(alloc, token)
}

// A type 3 alone, as SPNEGO's token without a MIC would have it.
fn alone_resp(alloc: Global, token: &[u8]) -> Result<RespToken, DerError>
    ensures { TokenReads resp_view result (Ok (bare_resp token.now)) }
{
    let third = Bytes::from_slice(alloc, token)?;
    Ok(RespToken {
        state: None,
        ntlm: true,
        token: Some(third),
        mic: None,
    })
}

// Memory that ran out is no break of a token.
fn check_break(error: DerError) -> Result<(), AllocError>
    ensures { OnOk result (IsBreak error) }
{
    match error {
        DerError::Memory => Err(AllocError),
        _ => Ok(()),
    }
}

fn begun_with(init: InitToken) -> Option<Begun>
    ensures { option_map begun_of result ≡ begun_with init.mech_list init.ntlm_first init.token }
{
    let InitToken {
        mech_list,
        ntlm_first,
        token,
        ..
    } = init;
    if !ntlm_first {
        return None;
    }
    match token {
        Some(first) => begun_with_message(mech_list, first),
        None => None,
    }
}

fn begun_with_message(list: Bytes, first: Bytes) -> Option<Begun>
    ensures { option_map begun_of result ≡ begun_by_message list first (type1_in first) }
{
    match read_type1(first.as_slice()) {
        Ok(_) => Some(Begun { list, first }),
        Err(_) => None,
    }
}

// What a second token shows.
fn second_shown(
    alloc: Global,
    users: &Users,
    making: &InMaking,
    token: &[u8],
) -> Result<TokenShown, AllocError>
    ensures shown { IfOk result (λ v. shown_of v ≡ shown_by users.now (Some (pending_of making.now)) token.now) }
    ensures begun { IfOk result (λ v. begun_in v ≡ None) }
{
    match read_second(alloc, making.list.as_slice(), token) {
        Ok(resp) => third_shown(alloc, users, making, resp),
        Err(error) => {
            check_break(error)?;
            Ok(TokenShown::Bad)
        }
    }
}

// What a second token that reads shows.
fn third_shown(
    alloc: Global,
    users: &Users,
    making: &InMaking,
    resp: RespToken,
) -> Result<TokenShown, AllocError>
    ensures shown { IfOk result (λ v. shown_of v ≡ shown_message users.now (pending_of making.now) resp.token resp.mic) }
    ensures begun { IfOk result (λ v. begun_in v ≡ None) }
{
    let RespToken { token, mic, .. } = resp;
    let Some(third) = token else {
        return Ok(TokenShown::Bad);
    };
    match making.acceptor.check(alloc, users, third.as_slice()) {
        Ok(logon) => Ok(logon_shown(making, logon, mic)),
        Err(error) => {
            check_refusal(error)?;
            Ok(TokenShown::Refused)
        }
    }
}

// Memory that ran out refuses no logon.
fn check_refusal(error: LogonError) -> Result<(), AllocError>
    ensures { OnOk result (IsRefusal error) }
{
    match error {
        LogonError::Memory => Err(AllocError),
        _ => Ok(()),
    }
}

// A MIC over the list, where there is one, is to be the client's; one that isn't there is accepted.
fn logon_shown(making: &InMaking, logon: Logon, mic: Option<Bytes>) -> TokenShown
    ensures shown { shown_of result ≡ shown_with making.now.list (logon_of logon) mic }
    ensures begun { begun_in result ≡ None }
{
    match mic {
        None => TokenShown::LoggedOn {
            logon,
            signs: false,
        },
        Some(code) => {
            let owed = sign_mech_list(&logon.key, true, logon.exchanged, making.list.as_slice());
            if code.as_slice() == owed.as_slice() {
                TokenShown::LoggedOn { logon, signs: true }
            } else {
                TokenShown::Refused
            }
        }
    }
}

/// The challenge to what a first token begins, of 8 random bytes and a moment, and the token that carries it.
#[tactic(auto, unfolding(spec_crypto::specs::tokens::Tokens::second_of))]
pub fn challenge_for(
    alloc: Global,
    begun: &Begun,
    fresh: [u8; 8],
    now: u64,
) -> Result<(Acceptor, Bytes), AllocError>
    ensures token { IfOk result (λ r. r.1 ≡ challenge_token begun.now.list (second_of (begun_of begun.now) fresh now)) }
    ensures kept { IfOk result (λ r. pending_made begun.now.list r.0 ≡ pending_for (begun_of begun.now) fresh now) }
{
    let Ok((acceptor, second)) = Acceptor::challenge(alloc, begun.first.as_slice(), fresh, now)
    else {
        return Err(AllocError);
    };
    let token = challenge_with(alloc, begun.list.as_slice(), second)?;
    Ok((acceptor, token))
}

// A type 2 as the token that carries it: itself, where the logon has no list.
#[tactic(auto, unfolding(spec_crypto::specs::tokens::Tokens::challenge_token))]
fn challenge_with(alloc: Global, list: &[u8], second: Bytes) -> Result<Bytes, AllocError>
    ensures { IfOk result (λ b. b ≡ challenge_token list.now second) }
{
    if is_unlisted(list) {
        return Ok(second);
    }
    challenge_answer(alloc, second)
}

fn challenge_answer(alloc: Global, second: Bytes) -> Result<Bytes, AllocError>
    ensures { IfOk result (λ b. b ≡ challenge_resp second) }
{
    let answer = RespToken {
        state: Some(1),
        ntlm: true,
        token: Some(second),
        mic: None,
    };
    written(alloc, &answer)
}

/// The token that ends a logon, with a MIC exactly where the client sent one; an empty one, where the logon has no list.
#[tactic(auto, unfolding(spec_crypto::specs::tokens::Tokens::final_token))]
pub fn final_for(
    alloc: Global,
    list: &[u8],
    logon: &Logon,
    signs: bool,
) -> Result<Bytes, AllocError>
    ensures { IfOk result (λ b. b ≡ final_token list.now (logon_of logon.now) signs) }
{
    if is_unlisted(list) {
        return Ok(Bytes::new(alloc));
    }
    final_answer(alloc, list, logon, signs)
}

fn final_answer(alloc: Global, list: &[u8], logon: &Logon, signs: bool) -> Result<Bytes, AllocError>
    ensures { IfOk result (λ b. b ≡ final_resp list.now (logon_of logon.now) signs) }
{
    let mic = mic_for(alloc, list, logon, signs)?;
    let answer = RespToken {
        state: Some(0),
        ntlm: false,
        token: None,
        mic,
    };
    written(alloc, &answer)
}

// The bytes of an answer. A type 2 and a MIC are always short enough for one.
fn written(alloc: Global, answer: &RespToken) -> Result<Bytes, AllocError>
    ensures { IfOk result (λ b. b ≡ resp_spelling (resp_view answer.now)) }
{
    if !can_write_resp(answer) {
        return Err(AllocError);
    }
    write_resp(alloc, answer)
}

// The server's MIC over the list, where one is owed.
fn mic_for(
    alloc: Global,
    list: &[u8],
    logon: &Logon,
    signs: bool,
) -> Result<Option<Bytes>, AllocError>
    ensures { IfOk result (λ code. code ≡ final_mic list.now (logon_of logon.now) signs) }
{
    if !signs {
        return Ok(None);
    }
    let code = sign_mech_list(&logon.key, false, logon.exchanged, list);
    Ok(Some(Bytes::from_slice(alloc, &code)?))
}
