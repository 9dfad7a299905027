ghost use Rattle.std.specs.Prelude.{◌≡◌, ◌+◌, ◌%◌, ◌^◌};
ghost use Rattle.serve_turns.specs.shared_book.Words.{IsSameSeat, AreOfOneBook, IsSeatOf};

use serve_turns::shared_book::Book;
use serve_turns::{BookSeat, SharedBook};
use std::sync::Wait;
use std::test::Fail;
use std::thread::{self, Threads};

/// Adds each event to a sum, and replies the sum.
#[derive(Drop)]
struct Tally {
    sum: u64,
}

impl Book for Tally {
    type Event = u64;

    type Reply = u64;

    ghost use Rattle.std.specs.Prelude.{◌≡◌, ◌+◌, ◌%◌, ◌^◌};

    ghost steps = { λ from event reply to. (to.sum ≡ (from.sum + event) % 2 ^ 64) × (reply ≡ to.sum) };

    fn step(&mut self, event: u64) -> u64 {
        self.sum = self.sum.wrapping_add(event);
        self.sum
    }
}

/// What a call of `apply` gave.
#[derive(Clone, Copy)]
struct Note {
    place: u64,
    reply: u64,
}

/// Gives the book one event for each note.
fn add_each<W: Wait>(
    rt: &W,
    book: &SharedBook<Tally>,
    seat: &mut BookSeat<Tally>,
    event: u64,
    notes: &mut [Note],
)
    requires { IsSeatOf book.now seat.old }
    ensures { IsSameSeat seat.old seat.new }
{
    for note in notes.iter_mut() {
        let (reply, receipt) = book.apply(rt, seat, event);
        *note = Note {
            place: receipt.place,
            reply,
        };
    }
}

/// The same with what a thread takes along.
fn added<W: Wait>(
    rt: &W,
    book: &SharedBook<Tally>,
    mut seat: BookSeat<Tally>,
    event: u64,
    mut notes: Vec<Note>,
) -> (BookSeat<Tally>, Vec<Note>)
    requires { IsSeatOf book.now seat }
    ensures { AreOfOneBook seat result.0 }
{
    add_each(rt, book, &mut seat, event, notes.as_mut_slice());
    (seat, notes)
}

/// Two threads by a join.
fn by_join<R: Threads + Wait + Sync>(
    rt: &R,
    book: &SharedBook<Tally>,
    one: BookSeat<Tally>,
    two: BookSeat<Tally>,
    first: Vec<Note>,
    second: Vec<Note>,
) -> ((BookSeat<Tally>, Vec<Note>), (BookSeat<Tally>, Vec<Note>))
    requires { IsSeatOf book.now one × IsSeatOf book.now two }
    ensures { IsSeatOf book.now result.0.0 × IsSeatOf book.now result.1.0 }
{
    thread::join(
        rt,
        move || -> (BookSeat<Tally>, Vec<Note>)
            requires { IsSeatOf book.now one }
            ensures { AreOfOneBook one result.0 }
        { added(rt, book, one, 1, first) },
        move || -> (BookSeat<Tally>, Vec<Note>)
            requires { IsSeatOf book.now two }
            ensures { AreOfOneBook two result.0 }
        { added(rt, book, two, 10, second) },
    )
}

/// Whether the notes are of places that no earlier note had, where each seen place has its reply and its event.
fn take_in(seen: &mut [(u64, u64)], event: u64, notes: &[Note]) -> bool {
    for note in notes {
        match usize::try_from(note.place)
            .ok()
            .and_then(|at| seen.get_mut(at))
        {
            Some(place) if *place == (0, 0) => *place = (note.reply, event),
            _ => return false,
        }
    }
    true
}

/// Whether each reply is the one before it and the event.
fn replies_follow(opening: u64, seen: &[(u64, u64)]) -> bool {
    let mut sum = opening;
    for (reply, event) in seen {
        sum = sum.wrapping_add(*event);
        if sum != *reply {
            return false;
        }
    }
    true
}

const EACH: usize = 500;

#[test]
fn two_threads_share_one_history(rt: HostRuntime) -> Result<(), Fail> {
    let alloc = rt.alloc();
    let blank = Note { place: 0, reply: 0 };
    let first = vec![in alloc; blank; EACH]?;
    let second = vec![in alloc; blank; EACH]?;
    let mut seen = vec![in alloc; (0, 0); 2 * EACH]?;
    let (book, mut seat) = SharedBook::new(alloc, Tally { sum: 7 })?;
    let one = book.seat(&rt, &mut seat);
    let two = book.seat(&rt, &mut seat);
    let before = book.peek(&mut seat);
    let ((one, first), (two, second)) = by_join(&rt, &book, one, two, first, second);
    let after = book.peek(&mut seat);
    book.rejoin(&mut seat, one);
    book.rejoin(&mut seat, two);
    let last = book.close(&rt, seat);
    assert!(rt; take_in(seen.as_mut_slice(), 1, first.as_slice()));
    assert!(rt; take_in(seen.as_mut_slice(), 10, second.as_slice()));
    assert!(rt; replies_follow(7, seen.as_slice()));
    assert!(rt; before == 0 && after == 1000 && last.sum == 7 + 500 * 11);
    Ok(())
}
