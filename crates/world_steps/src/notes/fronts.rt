// Whose the messages are that are on their way.
use crate::beginning::{Channel, Down, Places, Up, World};
use std::collections::VecDeque;

/// A message's operation, which is 0 of a dialog's, and its bytes.
#[derive(Clone, Copy)]
pub(crate) struct Message {
    pub operation: u32,
    pub bytes: usize,
}

/// No message.
pub(crate) fn nothing() -> Message {
    Message {
        operation: 0,
        bytes: 0,
    }
}

fn op_of(token: u64) -> u32 {
    u32::try_from(token / 2).unwrap_or(0)
}

fn message_up(up: Option<&Up>) -> Message {
    match up {
        Some(up) => Message {
            operation: op_of(up.token),
            bytes: up.bytes.len(),
        },
        None => nothing(),
    }
}

/// The operation whose message the server took at a place.
fn served_at(places: &Places, place: u64) -> u32 {
    match places.served.get(place as usize) {
        Some(number) => *number,
        None => 0,
    }
}

fn message_down(places: &Places, down: Option<&Down>) -> Message {
    match down {
        Some(down) => Message {
            operation: served_at(places, down.place),
            bytes: down.bytes.len(),
        },
        None => nothing(),
    }
}

fn first_of(up: &VecDeque<Up>) -> Message {
    message_up(up.front())
}

fn last_of(up: &VecDeque<Up>) -> Message {
    message_up(up.back())
}

/// The front of what goes up on a connection.
pub(crate) fn first_up(channels: &[Channel], k: u32) -> Message {
    match channels.get(k as usize) {
        Some(channel) => first_of(&channel.up),
        None => nothing(),
    }
}

/// The last that went up.
pub(crate) fn last_up(channels: &[Channel], k: u32) -> Message {
    match channels.get(k as usize) {
        Some(channel) => last_of(&channel.up),
        None => nothing(),
    }
}

/// The front of what comes down.
pub(crate) fn first_down(world: &World, k: u32) -> Message {
    match world.channels.get(k as usize) {
        Some(channel) => message_down(&world.places, channel.down.front()),
        None => nothing(),
    }
}
