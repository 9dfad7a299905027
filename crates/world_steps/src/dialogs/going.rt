// A dialog goes on: its next message goes up.
ghost use Rattle.std.specs.Prelude.{◌≡◌, MatchResult};
ghost use Rattle.world_steps.specs.Parts.{IsWorldMemory};
ghost use Rattle.world_steps.specs.dialogs.Turned.{TalkSaysOn, TalksOn};

use crate::opening::{Channel, ClientSide, WorldError, put_channel, say_up};
use client_ends::Dialog;
use wire_bytes::Bytes;

/// The connection, with its dialog and one frame more.
fn talks_on(mut rest: Channel, dialog: Dialog, frame: Bytes) -> Result<Channel, WorldError>
    ensures { MatchResult result (λ x. TalksOn rest dialog frame x) (λ e. IsWorldMemory e) }
{
    match say_up(&mut rest.up, 0, frame) {
        Ok(()) => {
            rest.client = ClientSide::Talks(dialog);
            Ok(rest)
        }
        Err(why) => Err(why),
    }
}

/// It stands in its place.
pub(crate) fn say_on(
    channels: &mut Vec<Channel>,
    k: u32,
    rest: Channel,
    dialog: Dialog,
    frame: Bytes,
) -> Result<(), WorldError>
    ensures { MatchResult result (λ _. TalkSaysOn rest dialog frame k channels.old.items channels.new.items) (λ e. IsWorldMemory e) }
{
    match talks_on(rest, dialog, frame) {
        Ok(channel) => {
            put_channel(channels, k, channel);
            Ok(())
        }
        Err(why) => Err(why),
    }
}
