//! The beginning of a connection.
ghost use Rattle.std.specs.Prelude.{◌≡◌, ◌+◌, ◌<◌, ◌^◌, IfOk, Some};
ghost use Rattle.client_ends.specs.dialog_calls.Opening.{DialogBegins};
ghost use Rattle.client_ends.specs.dialog_requests.Dialogs.{CanOffer};
ghost use Rattle.client_channels.specs.Draws.{IsFreshAt};
ghost use Rattle.client_channels.specs.channel_turns.Rounds.{bound_in, previous_in};
ghost use Rattle.client_channels.specs.channel_turns.Sides.{number_in};

use crate::draws::{draw, draw_8, draw_16};
use client_ends::{Bound, ClientConfig, Dialog, Fresh, start, start_bind};
use std::alloc::{AllocError, Global};
use wire_bytes::Bytes;

/// AES-256-GCM, the last of the ciphers (MS-SMB2 2.2.3.1.2).
const LAST_CIPHER: u16 = 4;

/// What a channel is to connect for: to make a session, or to be bound to one under a number.
#[derive(Clone, Copy)]
pub(crate) enum Aim {
    Make { previous: u64 },
    Bind { bound: Bound, number: u16 },
}

/// The number that the nonces of a bound channel carry; 0 of a session in the making.
pub(crate) fn number_of(aim: &Aim) -> u16
    ensures { result ≡ number_in aim.now }
{
    match aim {
        Aim::Make { previous: _ } => 0,
        Aim::Bind { bound: _, number } => *number,
    }
}

/// The session that a channel is to be bound to; 0 where it makes one.
pub(crate) fn session_of(aim: &Aim) -> u64 {
    match aim {
        Aim::Make { previous: _ } => 0,
        Aim::Bind { bound, number: _ } => bound.session,
    }
}

/// The salt, the challenge and the key of a dialog are three draws.
pub(crate) fn fresh_at(seed: &[u8; 32], channel: u8, draws: u64) -> Fresh
    requires { draws + 3 < 2 ^ 64 }
    ensures { IsFreshAt seed.now channel draws result }
{
    let channel = u32::from(channel);
    Fresh {
        salt: draw(seed, channel, draws),
        challenge: draw_8(seed, channel, draws + 1),
        key: draw_16(seed, channel, draws + 2),
    }
}

/// The dialog of a further channel, whose session has keys of a known cipher, or of none.
fn start_bound(
    alloc: Global,
    config: &ClientConfig,
    fresh: Fresh,
    bound: Bound,
) -> Result<(Dialog, Bytes), AllocError>
    requires { CanOffer config.now }
    ensures { IfOk result (λ d. DialogBegins config.now fresh 0 (Some bound) d.0 d.1) }
{
    let cipher = bound.keys.cipher;
    if cipher > LAST_CIPHER {
        return Err(AllocError);
    }
    start_bind(alloc, config, fresh, bound)
}

/// The dialog, and its NEGOTIATE.
pub(crate) fn dialog_for(
    alloc: Global,
    config: &ClientConfig,
    fresh: Fresh,
    aim: &Aim,
) -> Result<(Dialog, Bytes), AllocError>
    requires { CanOffer config.now }
    ensures { IfOk result (λ d. DialogBegins config.now fresh (previous_in aim.now) (bound_in aim.now) d.0 d.1) }
{
    match aim {
        Aim::Make { previous } => start(alloc, config, fresh, *previous),
        Aim::Bind { bound, number: _ } => start_bound(alloc, config, fresh, *bound),
    }
}
