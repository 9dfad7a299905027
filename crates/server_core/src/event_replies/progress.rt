//! What a SESSION_SETUP comes to on its connection.
ghost use Rattle.std.specs.Prelude.{◌≡◌, ◌==◌, if◌then◌else◌, MatchOption, None, Some};
ghost use Rattle.server_core.specs.event_replies.Told.{FinalTold, InterimTold, NoneTold, ProgressTold, lacks_own, refused_live, refused_progress};
ghost use Rattle.spec_exchange.specs.Status.{user_session_deleted};
ghost use Rattle.conn_core.specs.declared.conn.Progress.TheVariants.{Refused};
ghost use Rattle.wire_commands.specs.values.Meaning.{body_of};
ghost use Rattle.spec_commands.specs.ReplyBody.{seals_in};

use conn_core::Progress;
use server_effects::Answer;
use spec_crypto::Signer;
use wire_commands::Body;

const SUCCESS: u32 = 0;

const MORE_PROCESSING_REQUIRED: u32 = 0xc000_0016;

const USER_SESSION_DELETED: u32 = 0xc000_0203;

/// Of a SESSION_SETUP, before the server takes it.
#[derive(Clone, Copy, Drop)]
pub struct Logon {
    pub binds: bool,
    pub signed: bool,
    /// The own key of its session signed it, where it binds and the session is live.
    pub verified: bool,
    /// What its connection chose to sign with.
    pub algorithm: u16,
    /// With what the own key of its session signs, where that is live.
    pub signer: Option<Signer>,
}

fn seals(body: &Body) -> bool
    ensures { result ≡ seals_in (body_of body.now) }
{
    match body {
        Body::SetUp { sealed, channel: _ } => *sealed,
        _ => false,
    }
}

// In a binding the session signs, and else nobody does.
#[tactic(auto, using(crate::proofs::event_replies::Untold::no_signer))]
fn interim(logon: &Logon) -> Option<Progress>
    ensures { MatchOption result (NoneTold (InterimTold logon.now)) (λ p. InterimTold logon.now p) }
{
    if !logon.binds {
        return Some(Progress::Interim { signer: None });
    }
    match logon.signer {
        Some(signer) => Some(Progress::Interim {
            signer: Some(signer),
        }),
        None => None,
    }
}

#[tactic(auto, using(crate::proofs::event_replies::Untold::no_keys, crate::proofs::event_replies::Untold::no_number, crate::proofs::event_replies::Untold::no_cipher))]
fn final_of(answer: &Answer) -> Option<Progress>
    ensures { MatchOption result (NoneTold (FinalTold answer.now)) (λ p. FinalTold answer.now p) }
{
    let Some(keys) = answer.keys else {
        return None;
    };
    let Some(channel) = answer.channel else {
        return None;
    };
    if keys.cipher > 4 {
        return None;
    }
    let encrypts = seals(&answer.reply.body);
    Some(Progress::Final {
        keys,
        channel,
        encrypts,
    })
}

fn is_ill_signed(logon: &Logon) -> bool
    ensures { result ≡ lacks_own logon.now }
{
    !logon.signed || !logon.verified
}

fn binding_refused(logon: &Logon, status: u32) -> Progress
    ensures { result ≡ (if status == user_session_deleted then Refused None else refused_live logon.now logon.now.signer) }
{
    if status == USER_SESSION_DELETED {
        return Progress::Refused { signer: None };
    }
    let Some(own) = logon.signer else {
        return Progress::Stays;
    };
    if is_ill_signed(logon) {
        return Progress::Refused { signer: None };
    }
    let key = own.key;
    let signer = Signer {
        key,
        algorithm: logon.algorithm,
    };
    Progress::Refused {
        signer: Some(signer),
    }
}

// The own key of a live session signs the refusal of a binding, by what this connection chose. Where that key didn't sign the request,
// or the status tells that there is no such session, nobody does.
fn refused(logon: &Logon, status: u32) -> Progress
    ensures { result ≡ refused_progress logon.now status }
{
    if logon.binds {
        binding_refused(logon, status)
    } else {
        Progress::Stays
    }
}

fn setup_progress(logon: &Logon, answer: &Answer) -> Option<Progress>
    ensures { MatchOption result (NoneTold (ProgressTold (Some logon.now) answer.now)) (λ p. ProgressTold (Some logon.now) answer.now p) }
{
    if answer.reply.status == MORE_PROCESSING_REQUIRED {
        return interim(logon);
    }
    if answer.reply.status == SUCCESS {
        return final_of(answer);
    }
    Some(refused(logon, answer.reply.status))
}

/// What an answer comes to on its connection; none where it hasn't what that takes.
pub(crate) fn progress_for(logon: &Option<Logon>, answer: &Answer) -> Option<Progress>
    ensures { MatchOption result (NoneTold (ProgressTold logon.now answer.now)) (λ p. ProgressTold logon.now answer.now p) }
{
    match logon {
        Some(logon) => setup_progress(logon, answer),
        None => Some(Progress::Stays),
    }
}
