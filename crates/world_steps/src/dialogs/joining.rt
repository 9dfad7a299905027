// A session is accepted, or a channel bound to one.
ghost use Rattle.world_ends.specs.declared.events.WorldError.TheVariants as errors;
ghost use Rattle.std.specs.Prelude.{◌≡◌, Err, [], is_some, MatchResult};
ghost use Rattle.client_ends.specs.dialog_calls.Turning.{DialogHears};
ghost use Rattle.client_ends.specs.declared.dialog_calls.heard.Heard.TheVariants as heards;
ghost use Rattle.client_ends.specs.ends.Shown.{ShowsDialog};
ghost use Rattle.spec_world.specs.Ends.{ClientEnd};
ghost use Rattle.world_steps.specs.Parts.{IsWorldMemory};
ghost use Rattle.world_steps.specs.dialogs.Turned.{TalkAccepts, TalkEnters, TalkJoins};

use crate::dialogs::ending::end_by;
use crate::dialogs::going::say_on;
use crate::dialogs::hearing::hear_frame;
use crate::opening::{Channel, Event, World, WorldError};
use client_ends::{Dialog, Heard, Line};
use spec_crypto::Keys;
use wire_bytes::Bytes;

/// A bound channel's line, its session and its tree.
#[derive(Drop)]
pub(crate) struct Joined {
    pub line: Line,
    pub session: u64,
    pub tree: u32,
}

/// A message that goes out is no line.
fn not_ready(_frame: Bytes) -> Result<Joined, WorldError>
    ensures { result ≡ Err errors.Memory }
{
    Err(WorldError::Memory)
}

fn joined_of(heard: Heard) -> Result<Joined, WorldError>
    ensures { MatchResult result (λ j. heard ≡ heards.Ready j.line j.session j.tree) (λ e. IsWorldMemory e) }
{
    match heard {
        Heard::Ready {
            line,
            session,
            tree,
        } => Ok(Joined {
            line,
            session,
            tree,
        }),
        Heard::Say(frame) => not_ready(frame),
        Heard::Accepted { tree_connect, .. } => not_ready(tree_connect),
        Heard::Refused(_) => Err(WorldError::Memory),
    }
}

/// A bound channel is ready at once: its dialog gives its line away at the next call.
fn join_of(dialog: &mut Dialog, number: u16) -> Result<Joined, WorldError>
    ensures { MatchResult result (λ j. (n : ClientEnd) → ShowsDialog dialog.old n
        → DialogHears n.stage dialog.old n [] number dialog.new (heards.Ready j.line j.session j.tree)) (λ e. IsWorldMemory e) }
{
    match hear_frame(dialog, &[], number) {
        Ok(heard) => joined_of(heard),
        Err(why) => Err(why),
    }
}

/// It has its number.
fn join_by(
    world: &mut World,
    k: u32,
    channel: u8,
    number: u16,
    mut dialog: Dialog,
    rest: Channel,
) -> Result<(), WorldError>
    ensures { MatchResult result (λ _. TalkJoins world.old k channel number dialog rest world.new) (λ e. IsWorldMemory e) }
{
    match join_of(&mut dialog, number) {
        Ok(joined) => {
            world.numbers = number;
            let ready = Event::Ready {
                channel,
                session: joined.session,
                tree: joined.tree,
            };
            end_by(world, k, ready, rest, joined.line)
        }
        Err(why) => Err(why),
    }
}

/// A session is accepted: its keys are the client's from now on, and its first channel is counted.
fn enter_by(
    world: &mut World,
    k: u32,
    dialog: Dialog,
    rest: Channel,
    keys: Keys,
    frame: Bytes,
) -> Result<(), WorldError>
    ensures { MatchResult result (λ _. TalkEnters world.old k dialog rest keys frame world.new) (λ e. IsWorldMemory e) }
{
    let encrypts = dialog.line.encrypts;
    let session = dialog.session;
    match say_on(&mut world.channels, k, rest, dialog, frame) {
        Ok(()) => {
            world.keys = keys;
            world.encrypts = encrypts;
            world.numbers = 1;
            world.accepted = session;
            Ok(())
        }
        Err(why) => Err(why),
    }
}

/// By whether its dialog binds a channel.
pub(crate) fn accept_by(
    world: &mut World,
    k: u32,
    channel: u8,
    number: u16,
    dialog: Dialog,
    rest: Channel,
    keys: Keys,
    frame: Bytes,
) -> Result<(), WorldError>
    ensures { MatchResult result (λ _. TalkAccepts (is_some dialog.bound) world.old k channel number dialog rest keys frame world.new)
        (λ e. IsWorldMemory e) }
{
    let bound = dialog.bound.is_some();
    if bound {
        join_by(world, k, channel, number, dialog, rest)
    } else {
        enter_by(world, k, dialog, rest, keys, frame)
    }
}
