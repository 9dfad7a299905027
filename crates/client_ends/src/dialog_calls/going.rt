//! A dialog that goes on.
ghost use Rattle.std.specs.Prelude.{◌≡◌, ◌≤◌, ◌<◌, length, IfOk};
ghost use Rattle.spec_crypto.specs.sessions.Chain.{value_behind};
ghost use Rattle.spec_world.specs.Ends.{ClientEnd};
ghost use Rattle.spec_world.specs.Dialog.{paid_in};
ghost use Rattle.client_ends.specs.ends.Shown.{EndShowsTalk};
ghost use Rattle.client_ends.specs.dialog_calls.Turning.{IsDialogRefused, DialogSays, DialogStays, previous_in, session_in};

use crate::dialog_calls::heard::Heard;
use crate::dialog_requests::{Setup, setup_frame};
use crate::ends::{Dialog, Stage};
use spec_wire::Header;
use std::alloc::AllocError;
use wire_bytes::Refusal;

/// The dialog is refused, and answers so from then on.
pub(crate) fn refuse(d: &mut Dialog, why: Refusal) -> Heard
    ensures { IsDialogRefused why d.new result }
{
    d.stage = Stage::Refused(why);
    Heard::Refused(why)
}

/// The session that a SESSION_SETUP names: that of a binding, or the one in the making.
fn session_of(d: &Dialog) -> u64
    ensures { result ≡ session_in d.now.bound d.now.session }
{
    match d.bound {
        Some(bound) => bound.session,
        None => d.session,
    }
}

/// The session that a new one takes the place of.
fn previous_of(d: &Dialog) -> u64
    ensures { result ≡ previous_in d.now.bound d.now.previous }
{
    match d.bound {
        Some(_) => 0,
        None => d.previous,
    }
}

/// A SESSION_SETUP goes out with a token. A credit is held for it.
pub(crate) fn say_setup(d: &mut Dialog, token: &[u8], stage: Stage) -> Result<Heard, AllocError>
    requires token { length token.now < 65536 }
    requires held { 1 ≤ d.old.line.purse.held }
    ensures { IfOk result (λ h. DialogSays d.old token.now stage d.new h) }
{
    d.line.reserve()?;
    // Spent before the frame has its memory: a dialog that finds none isn't used again.
    let id = d.line.spend(1, 0);
    let setup = Setup {
        bound: d.bound.is_some(),
        previous: previous_of(d),
        token,
        id,
        session: session_of(d),
    };
    let frame = setup_frame(d.line.alloc, &d.line.keys.signing, &setup)?;
    d.chain.take(frame.as_slice());
    d.stage = stage;
    Ok(Heard::Say(frame))
}

/// A response's credits are paid in, and its message is hashed.
pub(crate) fn note(d: &mut Dialog, header: &Header, m: &[u8])
    ensures talk { (n : ClientEnd) → EndShowsTalk d.old.line n → EndShowsTalk d.new.line (paid_in n header.now) }
    ensures chain { d.new.chain ≡ value_behind d.old.chain m.now }
    ensures rest { DialogStays d.old d.new }
{
    d.line.pay_in(header);
    d.chain.take(m);
}
