//! The rule of the turns, and what each kind of step on the table tells its caller.
//!
//! The words are 0 the ticket to be drawn next, 1 the ticket being served, 2 the front, which is the
//! count of the history's entries, and 3 the number of the next seat.
use crate::shared_book::book::Book;
use crate::shared_book::view::{Slot, View};
use atomic_table::{Join, Play, Split, TableRule};
use std::marker::PhantomData;
use std::snapshot::Snapshot;

/// The rule, told the book's opening state when the table is made.
pub struct Turns<B> {
    book: PhantomData<B>,
}

impl<B: Book> TableRule<Slot<B, B::Event, B::Reply>, View<B, B::Event, B::Reply>, Snapshot<B>>
    for Turns<B> {
    ghost use Rattle.serve_turns.specs.shared_book.Turns.{Kept, first_view};

    ghost holds = { λ opening. Kept B.steps opening.value };

    ghost first = { λ opening. first_view opening.value };
}

/// Raises the ticket word, tried until it holds.
pub struct DrawTicket;

impl<B, E, R> Play<Slot<B, E, R>, View<B, E, R>> for DrawTicket {
    ghost use Rattle.serve_turns.specs.shared_book.Turns.{ticket_drawn};

    ghost then = { ticket_drawn };
}

/// Looks whether the own ticket is being served.
pub struct LookForTurn;

impl<B, E, R> Play<Slot<B, E, R>, View<B, E, R>> for LookForTurn {
    ghost use Rattle.serve_turns.specs.shared_book.Turns.{turn_looked_for};

    ghost then = { turn_looked_for };
}

/// Reads the front in the turn, and takes the book out.
pub struct TakeBook;

impl<B: Book> Play<Slot<B, B::Event, B::Reply>, View<B, B::Event, B::Reply>> for TakeBook {
    ghost use Rattle.serve_turns.specs.shared_book.Turns.{book_taken};

    ghost then = { book_taken B.steps };
}

/// Raises the front: the entry that lies in the slot joins the history.
pub struct AdvanceFront;

impl<B, E, R> Play<Slot<B, E, R>, View<B, E, R>> for AdvanceFront {
    ghost use Rattle.serve_turns.specs.shared_book.Turns.{front_advanced};

    ghost then = { front_advanced };
}

/// Gives the book back and serves the next ticket.
pub struct PassTurn;

impl<B, E, R> Play<Slot<B, E, R>, View<B, E, R>> for PassTurn {
    ghost use Rattle.serve_turns.specs.shared_book.Turns.{turn_passed};

    ghost then = { turn_passed };
}

/// Reads the front in no turn.
pub struct PeekAtFront;

impl<B: Book> Play<Slot<B, B::Event, B::Reply>, View<B, B::Event, B::Reply>> for PeekAtFront {
    ghost use Rattle.serve_turns.specs.shared_book.Turns.{front_peeked};

    ghost then = { front_peeked B.steps };
}

/// Raises the word of seats, tried until it holds: the number found is for a seat that is to be made.
pub struct DrawNumber;

impl<B, E, R> Play<Slot<B, E, R>, View<B, E, R>> for DrawNumber {
    ghost use Rattle.serve_turns.specs.shared_book.Turns.{number_drawn};

    ghost then = { number_drawn };
}

/// Makes a seat from another, and joins one to another.
pub struct ShareView;

impl<B, E, R> Split<View<B, E, R>> for ShareView {
    ghost use Rattle.serve_turns.specs.shared_book.Turns.{newcomer, parted};

    ghost left = { parted };

    ghost right = { newcomer };
}

impl<B, E, R> Join<View<B, E, R>> for ShareView {
    ghost use Rattle.serve_turns.specs.shared_book.Turns.{rejoined, spent_view};

    ghost both = { rejoined };

    ghost spent = { spent_view };
}
