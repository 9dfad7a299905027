// The ends of a connection, as they begin.
ghost use Rattle.std.specs.Prelude.{◌≡◌, ◌+◌, ◌<◌, ◌^◌, true, Option, None, Some, is_some, MatchResult};
ghost use Rattle.client_steps.specs.whole_client.Shown.{ShowsClient};
ghost use Rattle.client_ends.specs.dialog_calls.Opening.{DialogBegins};
ghost use Rattle.client_ends.specs.dialog_calls.Turning.{previous_in};
ghost use Rattle.client_rows.specs.session_state.Shown.{ClientShowsSession};
ghost use Rattle.spec_exchange.specs.Client.{Client};
ghost use Rattle.client_ends.specs.declared.ends.config.Bound.{Bound as Bind};
ghost use Rattle.client_ends.specs.declared.ends.config.Fresh.{Fresh as FreshBytes};
ghost use Rattle.client_ends.specs.dialog_requests.Dialogs.{CanOffer};
ghost use Rattle.world_steps.specs.opening.Opening.{IsBoundOf, IsFresh, OpeningMakes};
ghost use Rattle.world_steps.specs.Parts.{IsWorldMemory};

use crate::{Played, World, WorldError};
use client_ends::{Bound, ClientConfig, Dialog, Fresh, start, start_bind};
use client_rows::Session;
use conn_core::Conn;
use spec_crypto::Keys;
use std::alloc::Global;
use wire_bytes::Bytes;
use world_ends::{draw, draw_8, draw_16};

/// A dialog offers fewer ciphers and signing algorithms than this.
const OFFERS: usize = 32_767;

/// AES-256-GCM, the last of the ciphers (MS-SMB2 2.2.3.1.2).
const LAST_CIPHER: u16 = 4;

/// Both ends of a connection, and the client's first message.
#[derive(Drop)]
pub(crate) struct Begun {
    pub dialog: Dialog,
    pub greeting: Bytes,
    pub conn: Conn,
}

/// The client's three draws, from this one on.
fn fresh_at(seed: &[u8; 32], first: u64) -> Fresh
    requires { first + 4 < 2 ^ 64 }
    ensures { IsFresh seed.now first result }
{
    Fresh {
        salt: draw(seed, first),
        challenge: draw_8(seed, first + 1),
        key: draw_16(seed, first + 2),
    }
}

/// Whether what is offered fits its contexts.
fn can_offer(config: &ClientConfig) -> bool
    ensures { result ≡ true → CanOffer config.now }
{
    let ciphers = config.ciphers.as_slice().len();
    let signings = config.signings.as_slice().len();
    if ciphers >= OFFERS {
        return false;
    }
    if signings >= OFFERS {
        return false;
    }
    true
}

/// What a further channel is bound to, where the session is live.
fn session_bound(session: &Session, keys: Keys) -> Option<Bound>
    ensures { (c : Client) → ClientShowsSession session.now c → IsBoundOf keys c result }
{
    if session.is_live() {
        Some(Bound {
            session: session.id(),
            tree: session.tree(),
            keys,
        })
    } else {
        None
    }
}

/// The session that a further channel of a client is bound to, where one is live.
fn bound_of(client: &Played, keys: Keys) -> Option<Bound>
    ensures { (c : Client) → ShowsClient client.now c → IsBoundOf keys c result }
{
    session_bound(&client.client().table.session, keys)
}

/// The dialog of a new session, and its NEGOTIATE.
fn own_dialog(
    alloc: Global,
    config: &ClientConfig,
    fresh: Fresh,
    previous: u64,
) -> Result<(Dialog, Bytes), WorldError>
    requires { CanOffer config.now }
    ensures { MatchResult result (λ d. DialogBegins config.now fresh previous None d.0 d.1) (λ e. IsWorldMemory e) }
{
    match start(alloc, config, fresh, previous) {
        Ok(begun) => Ok(begun),
        Err(_) => Err(WorldError::Memory),
    }
}

/// The dialog of a further channel, whose session has keys of a known cipher, or of none.
fn bound_dialog(
    alloc: Global,
    config: &ClientConfig,
    fresh: Fresh,
    bound: Bound,
) -> Result<(Dialog, Bytes), WorldError>
    requires { CanOffer config.now }
    ensures { MatchResult result (λ d. DialogBegins config.now fresh 0 (Some bound) d.0 d.1) (λ e. IsWorldMemory e) }
{
    let cipher = bound.keys.cipher;
    if cipher > LAST_CIPHER {
        return Err(WorldError::Memory);
    }
    match start_bind(alloc, config, fresh, bound) {
        Ok(begun) => Ok(begun),
        Err(_) => Err(WorldError::Memory),
    }
}

fn dialog_for(
    alloc: Global,
    config: &ClientConfig,
    fresh: Fresh,
    previous: u64,
    bound: Option<Bound>,
) -> Result<(Dialog, Bytes), WorldError>
    requires { CanOffer config.now }
    ensures { MatchResult result (λ d. DialogBegins config.now fresh (previous_in bound previous) bound d.0 d.1) (λ e. IsWorldMemory e) }
{
    match bound {
        Some(bound) => bound_dialog(alloc, config, fresh, bound),
        None => own_dialog(alloc, config, fresh, previous),
    }
}

/// The dialog that begins, and its NEGOTIATE: a binding where a session is live.
fn first_dialog(
    alloc: Global,
    config: &ClientConfig,
    fresh: Fresh,
    previous: u64,
    bound: Option<Bound>,
) -> Result<(Dialog, Bytes), WorldError>
    ensures { MatchResult result (λ d. DialogBegins config.now fresh (previous_in bound previous) bound d.0 d.1) (λ e. IsWorldMemory e) }
{
    let offers = can_offer(config);
    if offers {
        dialog_for(alloc, config, fresh, previous, bound)
    } else {
        Err(WorldError::Memory)
    }
}

/// The server's end is made with the fourth draw.
fn with_conn(world: &World, k: u32, dialog: Dialog, greeting: Bytes) -> Result<Begun, WorldError>
    requires { world.now.draws + 4 < 2 ^ 64 }
    ensures { (fresh : FreshBytes) (bound : Option Bind) → IsFresh world.now.seed world.now.draws fresh
        → ((c : Client) → ShowsClient world.now.client c → IsBoundOf world.now.keys c bound)
        → (is_some bound ≡ true → 0 < world.now.numbers)
        → DialogBegins world.now.settings fresh (previous_in bound world.now.accepted) bound dialog greeting
        → MatchResult result (λ b. OpeningMakes world.now k b) (λ e. IsWorldMemory e) }
{
    match Conn::new(
        world.alloc,
        k,
        world.guid,
        draw(&world.seed, world.draws + 3),
    ) {
        Ok(conn) => Ok(Begun {
            dialog,
            greeting,
            conn,
        }),
        Err(_) => Err(WorldError::Memory),
    }
}

/// A session to which a channel is bound has channels already.
fn is_counted(bound: &Option<Bound>, numbers: u16) -> bool
    ensures { result ≡ true → is_some bound.now ≡ true → 0 < numbers }
{
    if numbers == 0 {
        return bound.is_none();
    }
    true
}

fn ends_with(world: &World, k: u32, fresh: Fresh, bound: Option<Bound>) -> Result<Begun, WorldError>
    requires { world.now.draws + 4 < 2 ^ 64 }
    ensures { IsFresh world.now.seed world.now.draws fresh
        → ((c : Client) → ShowsClient world.now.client c → IsBoundOf world.now.keys c bound)
        → (is_some bound ≡ true → 0 < world.now.numbers)
        → MatchResult result (λ b. OpeningMakes world.now k b) (λ e. IsWorldMemory e) }
{
    match first_dialog(world.alloc, &world.settings, fresh, world.accepted, bound) {
        Ok(begun) => with_conn(world, k, begun.0, begun.1),
        Err(why) => Err(why),
    }
}

/// Both ends of a connection, by four draws.
pub(crate) fn ends_of(world: &World, k: u32) -> Result<Begun, WorldError>
    requires { world.now.draws + 4 < 2 ^ 64 }
    ensures { MatchResult result (λ b. OpeningMakes world.now k b) (λ e. IsWorldMemory e) }
{
    let fresh = fresh_at(&world.seed, world.draws);
    let bound = bound_of(&world.client, world.keys);
    let counted = is_counted(&bound, world.numbers);
    if counted {
        ends_with(world, k, fresh, bound)
    } else {
        Err(WorldError::Memory)
    }
}
