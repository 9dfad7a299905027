//! The client's book, of which channels take turns.
use client_book::{ClientBook, Told, Turn};
use serve_turns::shared_book::Book;

/// A client's book that channels share, each by a seat of its own.
#[derive(Drop)]
pub struct ClientTurns {
    pub book: ClientBook,
}

impl Book for ClientTurns {
    type Event = Turn;

    type Reply = Told;

    ghost use Rattle.client_channels.specs.channel_turns.Sharing.{TurnSteps};

    ghost steps = { TurnSteps };

    fn step(&mut self, event: Turn) -> Told {
        self.book.step(event)
    }
}
