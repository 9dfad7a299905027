//! What a seat knows, and what lies in the table's slot.
ghost use Rattle.std.specs.Prelude.{◌≡◌};
ghost use Rattle.serve_turns.specs.declared.shared_book.view.Slot.TheVariants.{Away};

use std::collections::LinkedList;
use std::snapshot::Snapshot;

/// One event of a history: which seat gave it, and what was replied.
pub struct Entry<E, R> {
    pub seat: u64,
    pub event: E,
    pub reply: R,
}

/// How far a seat has come in a turn. The number is its ticket.
pub enum Stage {
    /// It has no ticket.
    Idle,
    /// Others may come first.
    Waiting(u64),
    /// Its ticket is being served.
    Called(u64),
    /// It has read the front, and the book is out with it.
    Holding(u64),
    /// It has added its entry to the history.
    Advanced(u64),
}

/// What a seat knows. Contracts alone speak of it: no value of it is ever made.
pub struct View<B, E, R> {
    /// The book's opening state, or `None` once the seat has been joined to another.
    pub opening: Option<B>,
    /// Whether the seat has a number, and which.
    pub numbered: bool,
    pub number: u64,
    pub stage: Stage,
    /// The highest count of entries that the seat has seen.
    pub front: u64,
    /// The history as of the seat's last turn.
    pub history: LinkedList<Entry<E, R>>,
    /// The seat's own entries, each with its place in the history.
    pub own: LinkedList<(u64, Entry<E, R>)>,
    /// Histories of seats that were joined to this one.
    pub kept: LinkedList<LinkedList<Entry<E, R>>>,
    /// The seats that were joined to this one: the number of each, and its own entries.
    pub ended: LinkedList<(u64, LinkedList<(u64, Entry<E, R>)>)>,
    /// The number that was drawn for a seat which is about to be made from this one.
    pub drawn: Option<u64>,
    /// The numbers of all seats that were made from this one, or from one that was joined to it.
    pub made: LinkedList<u64>,
}

/// What lies in the slot. A step on the table can tell nothing but what lies there, so the event and the
/// reply that came last lie beside the book.
#[derive(Drop)]
pub enum Slot<B, E, R> {
    /// The book as it was opened.
    Opening(B),
    /// The book, the event that came last and its reply.
    After(B, Snapshot<E>, Snapshot<R>),
    /// The book is out with the seat whose turn it is.
    Away,
}

impl<B, E, R> Slot<B, E, R> {
    ghost use Rattle.serve_turns.specs.shared_book.Turns.{HasBook};

    pub(crate) fn into_book(self) -> B
        requires { (book : B) × HasBook book self }
        ensures { HasBook result self }
    {
        match self {
            Slot::Opening(book) => book,
            Slot::After(book, _, _) => book,
            Slot::Away => unreachable!(),
        }
    }

    // Lets go of the mark that the book was away.
    pub(crate) fn let_go(self)
        requires { self ≡ Away }
    {
        let Slot::Away = self else { unreachable!() };
    }
}
