// Both ends stand on their connection, and the server hears of it.
ghost use Rattle.std.specs.Prelude.{◌≡◌, ◌<◌, ◌^◌, ◌==◌, if◌then◌else◌, length, IfOk, List, MatchResult, None, Some};
ghost use Rattle.spec_exchange.specs.State as model;
ghost use Rattle.spec_exchange.specs.Step.{step};
ghost use Rattle.spec_crypto.specs.tokens.Tokens.{Users};
ghost use Rattle.world_ends.specs.memory_server.Held.{HoldsBook};
ghost use Rattle.spec_world.specs.Ends.{Logons};
ghost use Rattle.world_steps.specs.opening.Opening.{OpeningEnters, IsOpened, IsOpeningSaid, SaysFirst, OpeningStands};
ghost use Rattle.world_steps.specs.opening.Putting.{Becomes};
ghost use Rattle.world_steps.specs.Lists.{ChangedAt};
ghost use Rattle.world_steps.specs.Parts.{BookTold, IsWorldMemory};

use crate::opening::beginning::Begun;
use crate::{Book, Channel, ClientSide, Up, WorldError, accept};
use base_outside::MemDisk;
use conn_core::Conn;
use std::alloc::{AllocError, Global};
use std::collections::VecDeque;
use wire_bytes::Bytes;

/// STATUS_SUCCESS (MS-ERREF 2.3.1)
const SUCCESS: u32 = 0;

/// No frame is as long as this, which the ends of a connection ask of one.
const TOO_LONG: usize = 0x1000_0000_0000_0000;

/// A frame below the ends' bound goes up.
fn say_short(up: &mut VecDeque<Up>, token: u64, frame: Bytes) -> Result<(), WorldError>
    requires { length frame < 2 ^ 60 }
    ensures { MatchResult result (λ _. IsOpeningSaid up.old.items token frame up.new.items) (λ e. IsWorldMemory e) }
{
    let said = Up {
        token,
        bytes: frame.into_vec(),
    };
    let pushed = up.push_back(said).is_ok();
    if pushed {
        Ok(())
    } else {
        Err(WorldError::Memory)
    }
}

/// A frame goes up, with the token of whose it is, as a line counts tokens. One that is too long for the ends of a connection
/// counts as memory that ran out.
pub fn say_up(up: &mut VecDeque<Up>, token: u64, frame: Bytes) -> Result<(), WorldError>
    ensures { MatchResult result (λ _. IsOpeningSaid up.old.items token frame up.new.items) (λ e. IsWorldMemory e) }
{
    let size = frame.len();
    if size < TOO_LONG {
        say_short(up, token, frame)
    } else {
        Err(WorldError::Memory)
    }
}

/// The client's first message goes up, where the server took the connection.
fn first_up(alloc: Global, greeting: Bytes, served: bool) -> Result<VecDeque<Up>, WorldError>
    ensures { MatchResult result (λ u. SaysFirst served greeting u.items) (λ e. IsWorldMemory e) }
{
    let mut up = VecDeque::new(alloc);
    if !served {
        return Ok(up);
    }
    match say_up(&mut up, 0, greeting) {
        Ok(()) => Ok(up),
        Err(why) => Err(why),
    }
}

/// A server that takes no more has no end.
fn first_server(conn: Conn, served: bool) -> Option<Conn>
    ensures { result ≡ (if served then Some conn else None) }
{
    if served { Some(conn) } else { None }
}

/// The connection, as it is open.
fn opened(alloc: Global, begun: Begun, served: bool) -> Result<Channel, WorldError>
    ensures { MatchResult result (λ x. IsOpened served begun x) (λ e. IsWorldMemory e) }
{
    match first_up(alloc, begun.greeting, served) {
        Ok(up) => Ok(Channel {
            client: ClientSide::Talks(begun.dialog),
            server: first_server(begun.conn, served),
            up,
            down: VecDeque::new(alloc),
        }),
        Err(why) => Err(why),
    }
}

/// A connection becomes this one.
pub fn put_channel(channels: &mut Vec<Channel>, k: u32, channel: Channel)
    ensures { ChangedAt (Becomes channel) k channels.old.items channels.new.items }
{
    let at = k as usize;
    let within = at < channels.len();
    if within {
        channels[at] = channel;
    }
}

fn place(
    channels: &mut Vec<Channel>,
    alloc: Global,
    k: u32,
    begun: Begun,
    served: bool,
) -> Result<(), WorldError>
    ensures { MatchResult result (λ _. OpeningStands served begun k channels.old.items channels.new.items) (λ e. IsWorldMemory e) }
{
    match opened(alloc, begun, served) {
        Ok(channel) => {
            put_channel(channels, k, channel);
            Ok(())
        }
        Err(why) => Err(why),
    }
}

/// The server hears that a connection is made: the status of its answer.
fn tell_accept(book: &mut Option<Book<MemDisk>>, moment: u64, k: u32) -> Result<u32, AllocError>
    ensures { IfOk result (λ status. (users : Users) (s : model.Server) (L : Logons) (records : List model.Record)
        → HoldsBook book.old users s L records → BookTold (step s moment (model.Accept k)) book.new users L records status) }
{
    match book {
        Some(book) => accept(book, moment, k),
        None => Err(AllocError),
    }
}

/// The server hears of the connection, and its ends stand on it.
pub(crate) fn enter(
    book: &mut Option<Book<MemDisk>>,
    channels: &mut Vec<Channel>,
    alloc: Global,
    moment: u64,
    k: u32,
    begun: Begun,
) -> Result<(), WorldError>
    ensures { MatchResult result (λ _. OpeningEnters book.old channels.old.items moment k begun book.new
        channels.new.items) (λ e. IsWorldMemory e) }
{
    match tell_accept(book, moment, k) {
        Ok(status) => place(channels, alloc, k, begun, status == SUCCESS),
        Err(_) => Err(WorldError::Memory),
    }
}
