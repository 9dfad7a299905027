//! The beginning of a dialog.
ghost use Rattle.std.specs.Prelude.{◌≡◌, ◌≤◌, IfOk, None, Some};
ghost use Rattle.spec_world.specs.Ends.{ClientEnd, no_choice};
ghost use Rattle.client_ends.specs.dialog_requests.Dialogs.{CanOffer};
ghost use Rattle.client_ends.specs.ends.Shown.{EndShowsTalk};
ghost use Rattle.client_ends.specs.dialog_calls.Opening.{AreKeysOf, DialogBegins, CanBind, HasKeys, IsSpent};

use crate::dialog_requests::greeting_text;
use crate::ends::{Bound, ClientConfig, Dialog, Fresh, Line, Stage};
use crypto_sessions::Chain;
use spec_crypto::Chosen;
use std::alloc::{AllocError, Global};
use wire_bytes::Bytes;

/// Nothing is chosen: no cipher, and AES-CMAC.
fn no_choice_yet() -> Chosen
    ensures { result ≡ no_choice }
{
    Chosen {
        cipher: 0,
        signing: 1,
        signing_told: false,
    }
}

/// A line has the keys of the session that is bound to, if there is one.
fn take_bound(line: &mut Line, bound: &Option<Bound>)
    requires { CanBind bound.now }
    ensures talk { (n : ClientEnd) → EndShowsTalk line.old n → EndShowsTalk line.new n }
    ensures keys { AreKeysOf bound.now line.new.keys }
    ensures known { line.old.keys.cipher ≤ 4 → line.new.keys.cipher ≤ 4 }
{
    match *bound {
        Some(bound) => {
            line.keys = bound.keys;
        }
        None => {}
    }
}

/// A line on which one message of a dialog went out.
fn spent_line(alloc: Global) -> Result<Line, AllocError>
    ensures { IfOk result (λ line. IsSpent line) }
{
    let mut line = Line::new(alloc);
    line.reserve()?;
    line.spend(1, 0);
    Ok(line)
}

/// The same, with the keys of the session that is bound to, if there is one.
fn first_line(alloc: Global, bound: &Option<Bound>) -> Result<Line, AllocError>
    requires { CanBind bound.now }
    ensures { IfOk result (λ line. HasKeys bound.now line) }
{
    let mut line = spent_line(alloc)?;
    take_bound(&mut line, bound);
    Ok(line)
}

fn begin(
    alloc: Global,
    config: &ClientConfig,
    fresh: Fresh,
    previous: u64,
    bound: Option<Bound>,
) -> Result<(Dialog, Bytes), AllocError>
    requires offers { CanOffer config.now }
    requires binds { CanBind bound }
    ensures { IfOk result (λ d. DialogBegins config.now fresh previous bound d.0 d.1) }
{
    let greeting = greeting_text(alloc, config, &fresh.salt)?;
    let line = first_line(alloc, &bound)?;
    let config = config.copy(alloc)?;
    let mut chain = Chain::start();
    chain.take(greeting.as_slice());
    let dialog = Dialog {
        stage: Stage::SaidNegotiate,
        line,
        config,
        base: fresh.key,
        challenge: fresh.challenge,
        chosen: no_choice_yet(),
        chain,
        bound,
        previous,
        session: 0,
    };
    Ok((dialog, greeting))
}

/// Begins a dialog for a new session, and says its NEGOTIATE. `previous` is the last session that was accepted, or 0. What
/// is offered fits its contexts.
pub fn start(
    alloc: Global,
    config: &ClientConfig,
    fresh: Fresh,
    previous: u64,
) -> Result<(Dialog, Bytes), AllocError>
    requires { CanOffer config.now }
    ensures { IfOk result (λ d. DialogBegins config.now fresh previous None d.0 d.1) }
{
    begin(alloc, config, fresh, previous, None)
}

/// Begins a dialog that binds a further channel to a session, and says its NEGOTIATE.
pub fn start_bind(
    alloc: Global,
    config: &ClientConfig,
    fresh: Fresh,
    bound: Bound,
) -> Result<(Dialog, Bytes), AllocError>
    requires offers { CanOffer config.now }
    requires binds { CanBind (Some bound) }
    ensures { IfOk result (λ d. DialogBegins config.now fresh 0 (Some bound) d.0 d.1) }
{
    begin(alloc, config, fresh, 0, Some(bound))
}
