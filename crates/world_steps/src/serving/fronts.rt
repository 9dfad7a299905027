// The front of what goes up to the server, and the connection that takes it.
ghost use Rattle.std.specs.Prelude.{◌≡◌, slice_get, IfSome, OnOk};
ghost use Rattle.world_steps.specs.serving.Fronted.{FrontTaken, FrontGoesOn, fronted_in, is_fronted};
ghost use Rattle.world_steps.specs.Lists.{ChangedAt};

use crate::serving::saying::say_frames;
use crate::{Channel, Up};
use conn_core::Conn;
use std::alloc::{AllocError, Global};

/// A connection's end at the server, and the frame that it is about to take.
#[derive(Drop)]
pub(crate) struct Front {
    pub conn: Conn,
    pub up: Up,
}

fn is_up(channel: &Channel) -> bool
    ensures { result ≡ is_fronted channel.now }
{
    !channel.up.is_empty()
}

/// Whether something is on its way to the server there.
pub(crate) fn has_front(channels: &[Channel], k: u32) -> bool
    ensures { result ≡ fronted_in (slice_get channels.now k) }
{
    match channels.get(k as usize) {
        Some(channel) => is_up(channel),
        None => false,
    }
}

fn take_front(channel: &mut Channel) -> Option<Front>
    ensures { IfSome result (λ f. FrontTaken channel.old f channel.new) }
{
    match channel.server.take() {
        Some(conn) => match channel.up.pop_front() {
            Some(up) => Some(Front { conn, up }),
            None => None,
        },
        None => None,
    }
}

/// Both are taken from their connection, whose end at the server is closed until it goes on.
pub(crate) fn front_of(channels: &mut Vec<Channel>, k: u32) -> Option<Front>
    ensures { IfSome result (λ f. ChangedAt (λ x y. FrontTaken x f y) k channels.old.items channels.new.items) }
{
    let at = k as usize;
    let within = at < channels.len();
    if within {
        return take_front(&mut channels[at]);
    }
    None
}

fn go_on(
    channel: &mut Channel,
    alloc: Global,
    conn: Conn,
    place: u64,
    answer: &[u8],
) -> Result<(), AllocError>
    ensures { OnOk result (FrontGoesOn channel.old conn place answer.now channel.new) }
{
    channel.server = Some(conn);
    let heard = channel.is_client_open();
    if heard {
        return say_frames(alloc, &mut channel.down, place, answer);
    }
    Ok(())
}

/// The connection goes on, and the frames of its answer go down, where the client's end is open.
pub(crate) fn answer_on(
    channels: &mut Vec<Channel>,
    alloc: Global,
    k: u32,
    conn: Conn,
    place: u64,
    answer: &[u8],
) -> Result<(), AllocError>
    ensures { OnOk result (ChangedAt (λ x y. FrontGoesOn x conn place answer.now y) k channels.old.items channels.new.items) }
{
    let at = k as usize;
    let within = at < channels.len();
    if within {
        return go_on(&mut channels[at], alloc, conn, place, answer);
    }
    Err(AllocError)
}
