// The server takes a frame.
ghost use Rattle.std.specs.Prelude.{MatchResult};
ghost use Rattle.world_steps.specs.serving.Heard.{ServeHears, IsServed, ServeNotes as IsNoted, ServesAll, ServesBook, TakesUp};
ghost use Rattle.world_steps.specs.Parts.{IsWorldMemory};

use crate::serving::fronts::{Front, front_of};
use crate::serving::noting::note_taken;
use crate::{Book, Channel, Note, Notes, Places, Played, WorldError};
use base_outside::MemDisk;
use conn_core::{Conn, Ended, Taken, take_own};
use wire_bytes::Bytes;

/// What the server made of a frame: an answer, or none where the connection ends; whether a message of it was taken, whether one acted,
/// and its note.
#[derive(Drop)]
pub(crate) struct Served {
    pub took: bool,
    pub acted: bool,
    pub note: Note,
    pub answer: Option<Bytes>,
}

/// The connection behind a frame, and its answer, with the place that its message got among those that the server took.
#[derive(Drop)]
pub(crate) struct Reply {
    pub conn: Conn,
    pub place: u64,
    pub answer: Option<Bytes>,
}

fn served_of(taken: Result<Taken, Ended>) -> Served
    ensures { IsServed taken result }
{
    match taken {
        Ok(taken) => Served {
            took: taken.took,
            acted: taken.note.acted,
            note: Note {
                status: taken.note.status,
                acted: taken.note.acted,
            },
            answer: Some(taken.bytes),
        },
        Err(ended) => Served {
            took: ended.took,
            acted: ended.acted,
            note: Note {
                status: None,
                acted: ended.acted,
            },
            answer: None,
        },
    }
}

/// A frame over the server. That an event, the frame or its answer found no memory ends the run, as a server that stopped does.
fn serve_frame(
    conn: &mut Conn,
    book: &mut Book<MemDisk>,
    now: u64,
    fresh: [u8; 8],
    frame: &[u8],
) -> Result<Served, WorldError>
    ensures { MatchResult result (λ s. ServesAll conn.old book.old now fresh frame.now conn.new book.new s) (λ e. IsWorldMemory e) }
{
    match take_own(conn, book, now, fresh, frame) {
        Some(taken) => Ok(served_of(taken)),
        None => Err(WorldError::Memory),
    }
}

fn serve_book(
    conn: &mut Conn,
    book: &mut Option<Book<MemDisk>>,
    now: u64,
    fresh: [u8; 8],
    frame: &[u8],
) -> Result<Served, WorldError>
    ensures { MatchResult result (λ s. ServesBook conn.old book.old now fresh frame.now conn.new book.new s) (λ e. IsWorldMemory e) }
{
    match book {
        Some(book) => serve_frame(conn, book, now, fresh, frame),
        None => Err(WorldError::Memory),
    }
}

/// The place of what was taken is noted.
fn note(
    places: &mut Places,
    notes: &mut Notes,
    client: &Played,
    token: u64,
    conn: Conn,
    served: Served,
) -> Result<Reply, WorldError>
    ensures { MatchResult result (λ r. IsNoted places.old client.now token conn served places.new r) (λ e. IsWorldMemory e) }
{
    let place = places.served.len() as u64;
    notes.last = served.note;
    match note_taken(places, client, token, served.took, served.acted) {
        Ok(()) => Ok(Reply {
            conn,
            place,
            answer: served.answer,
        }),
        Err(why) => Err(why),
    }
}

fn hear(
    book: &mut Option<Book<MemDisk>>,
    places: &mut Places,
    notes: &mut Notes,
    client: &Played,
    front: Front,
    now: u64,
    fresh: [u8; 8],
) -> Result<Reply, WorldError>
    ensures { MatchResult result (λ r. ServeHears book.old places.old client.now front now fresh book.new places.new r)
        (λ e. IsWorldMemory e) }
{
    let Front { mut conn, up } = front;
    match serve_book(&mut conn, book, now, fresh, up.bytes.as_slice()) {
        Ok(served) => note(places, notes, client, up.token, conn, served),
        Err(why) => Err(why),
    }
}

/// The server takes the front, whose place is noted. The connection's end at the server is closed until it goes on.
pub(crate) fn hear_front(
    book: &mut Option<Book<MemDisk>>,
    channels: &mut Vec<Channel>,
    places: &mut Places,
    notes: &mut Notes,
    client: &Played,
    k: u32,
    now: u64,
    fresh: [u8; 8],
) -> Result<Reply, WorldError>
    ensures { MatchResult result
        (λ r. TakesUp book.old channels.old.items places.old client.now k now fresh book.new channels.new.items places.new r)
        (λ e. IsWorldMemory e) }
{
    match front_of(channels, k) {
        Some(front) => hear(book, places, notes, client, front, now, fresh),
        None => Err(WorldError::Memory),
    }
}
