// A connection is taken out, with its dialog and the front of what comes down to it.
ghost use Rattle.std.specs.Prelude.{◌≡◌, Err, MatchResult};
ghost use Rattle.world_ends.specs.declared.events.WorldError.TheVariants as errors;
ghost use Rattle.world_steps.specs.dialogs.Talking.{HasDialog, IsTalking, TakesOut};
ghost use Rattle.world_steps.specs.Parts.{IsWorldMemory};

use crate::opening::{Channel, ClientSide, WorldError};
use client_ends::{Dialog, Line};
use std::alloc::Global;
use std::mem;

/// A dialog, the frame that it hears, and the rest of its connection.
#[derive(Drop)]
pub(crate) struct Talk {
    pub dialog: Dialog,
    pub frame: Vec<u8>,
    pub rest: Channel,
}

/// A line is no dialog.
fn no_dialog(_line: Line) -> Result<Dialog, WorldError>
    ensures { result ≡ Err errors.Memory }
{
    Err(WorldError::Memory)
}

/// The client's end closes, and its dialog is told.
fn dialog_out(side: &mut ClientSide) -> Result<Dialog, WorldError>
    ensures { MatchResult result (λ d. HasDialog side.old d side.new) (λ e. IsWorldMemory e) }
{
    match mem::replace(side, ClientSide::Closed) {
        ClientSide::Talks(dialog) => Ok(dialog),
        ClientSide::Closed => Err(WorldError::Memory),
        ClientSide::Ready(line) => no_dialog(line),
    }
}

fn with_frame(mut rest: Channel, frame: Vec<u8>) -> Result<Talk, WorldError>
    ensures { MatchResult result (λ t. HasDialog rest.client t.dialog t.rest.client × (t.frame.items ≡ frame.items)
        × (t.rest.server ≡ rest.server)
        × (t.rest.up.items ≡ rest.up.items) × (t.rest.down.items ≡ rest.down.items)) (λ e. IsWorldMemory e) }
{
    match dialog_out(&mut rest.client) {
        Ok(dialog) => Ok(Talk {
            dialog,
            frame,
            rest,
        }),
        Err(why) => Err(why),
    }
}

fn talk_of(mut channel: Channel) -> Result<Talk, WorldError>
    ensures { MatchResult result (λ t. IsTalking channel t) (λ e. IsWorldMemory e) }
{
    match channel.down.pop_front() {
        Some(down) => with_frame(channel, down.bytes),
        None => Err(WorldError::Memory),
    }
}

/// One of which both ends are closed stands in its place meanwhile.
pub(crate) fn take_out(
    channels: &mut Vec<Channel>,
    alloc: Global,
    k: u32,
) -> Result<Talk, WorldError>
    ensures { MatchResult result (λ t. TakesOut channels.old.items k t channels.new.items) (λ e. IsWorldMemory e) }
{
    let at = k as usize;
    let within = at < channels.len();
    if within {
        // Taken out and put back later: a closed one stands in, so that each state in between shows its connections.
        let channel = mem::replace(&mut channels[at], Channel::new(alloc));
        talk_of(channel)
    } else {
        Err(WorldError::Memory)
    }
}
