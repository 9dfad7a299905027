// A dialog hears its frame.
ghost use Rattle.std.specs.Prelude.{◌≡◌, ◌+◌, ◌<◌, ◌^◌, true, length, is_some, MatchResult};
ghost use Rattle.client_ends.specs.dialog_calls.Turning.{DialogHears};
ghost use Rattle.client_ends.specs.ends.Shown.{ShowsDialog};
ghost use Rattle.spec_world.specs.Ends.{ClientEnd};
ghost use Rattle.world_steps.specs.Parts.{IsWorldMemory};
ghost use Rattle.world_steps.specs.dialogs.Talking.{IsTalkTurn, channel_number};

use crate::dialogs::fronting::Talk;
use crate::opening::{Channel, WorldError};
use client_ends::dialog_calls::hear;
use client_ends::{Bound, Dialog, Heard};

/// No frame is as long as this, which the ends of a connection ask of one.
const TOO_LONG: usize = 0x1000_0000_0000_0000;

/// What a dialog came to, and the rest of its connection.
#[derive(Drop)]
pub(crate) struct Turn {
    pub dialog: Dialog,
    pub heard: Heard,
    pub rest: Channel,
}

fn next_number(numbers: u16) -> Result<u16, WorldError>
    ensures { MatchResult result (λ n. (n ≡ numbers + 1) × (0 < numbers)) (λ e. IsWorldMemory e) }
{
    if numbers < 1 {
        return Err(WorldError::Memory);
    }
    match numbers.checked_add(1) {
        Some(number) => Ok(number),
        None => Err(WorldError::Memory),
    }
}

/// The number that a bound channel gets; 0 of a session in the making. It has 16 bits: behind 65,535 channels of a session there is
/// none, which counts as memory that ran out. A session to which a channel is bound has channels already.
pub(crate) fn number_for(bound: &Option<Bound>, numbers: u16) -> Result<u16, WorldError>
    ensures { MatchResult result (λ n. (n ≡ channel_number (is_some bound.now) numbers) × (is_some bound.now ≡ true → 0 < numbers))
        (λ e. IsWorldMemory e) }
{
    match bound {
        Some(_) => next_number(numbers),
        None => Ok(0),
    }
}

fn hear_short(dialog: &mut Dialog, frame: &[u8], number: u16) -> Result<Heard, WorldError>
    requires { length frame.now < 2 ^ 60 }
    ensures { MatchResult result (λ h. (n : ClientEnd) → ShowsDialog dialog.old n
        → DialogHears n.stage dialog.old n frame.now number dialog.new h) (λ e. IsWorldMemory e) }
{
    match hear(dialog, frame, number) {
        Ok(heard) => Ok(heard),
        Err(_) => Err(WorldError::Memory),
    }
}

/// A dialog hears a frame. One that is too long for the ends of a connection counts as memory that ran out.
pub(crate) fn hear_frame(
    dialog: &mut Dialog,
    frame: &[u8],
    number: u16,
) -> Result<Heard, WorldError>
    ensures { MatchResult result (λ h. (n : ClientEnd) → ShowsDialog dialog.old n
        → DialogHears n.stage dialog.old n frame.now number dialog.new h) (λ e. IsWorldMemory e) }
{
    let size = frame.len();
    if size < TOO_LONG {
        hear_short(dialog, frame, number)
    } else {
        Err(WorldError::Memory)
    }
}

/// What it comes to.
pub(crate) fn turn_of(talk: Talk, number: u16) -> Result<Turn, WorldError>
    ensures { MatchResult result (λ t. IsTalkTurn talk number t) (λ e. IsWorldMemory e) }
{
    let Talk {
        mut dialog,
        frame,
        rest,
    } = talk;
    match hear_frame(&mut dialog, frame.as_slice(), number) {
        Ok(heard) => Ok(Turn {
            dialog,
            heard,
            rest,
        }),
        Err(why) => Err(why),
    }
}
