// The frames of an answer go down.
ghost use Rattle.std.specs.Prelude.{OnOk};
ghost use Rattle.world_steps.specs.serving.Said.{SaysAll, SaysOne};

use crate::Down;
use crate::serving::parting::next_frame;
use std::alloc::{AllocError, Global};
use std::collections::VecDeque;

fn push_down(down: &mut VecDeque<Down>, place: u64, bytes: Vec<u8>) -> Result<(), AllocError>
    ensures { OnOk result (SaysOne down.old.items place bytes.items down.new.items) }
{
    down.push_back(Down { place, bytes })?;
    Ok(())
}

fn say_frame(
    alloc: Global,
    down: &mut VecDeque<Down>,
    place: u64,
    frame: &[u8],
) -> Result<(), AllocError>
    ensures { OnOk result (SaysOne down.old.items place frame.now down.new.items) }
{
    match Vec::from_slice(alloc, frame) {
        Ok(bytes) => push_down(down, place, bytes),
        Err(error) => Err(error),
    }
}

/// Each of them, beside the place of the message that they answer.
pub(crate) fn say_frames(
    alloc: Global,
    down: &mut VecDeque<Down>,
    place: u64,
    answer: &[u8],
) -> Result<(), AllocError>
    ensures { OnOk result (SaysAll down.old.items place answer.now down.new.items) }
{
    let mut rest = answer;
    while let Some(parted) = next_frame(rest) {
        say_frame(alloc, down, place, parted.frame)?;
        rest = parted.rest;
    }
    Ok(())
}
