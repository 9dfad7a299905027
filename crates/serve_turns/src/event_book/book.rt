//! The server in its turns.
ghost use Rattle.serve_turns.specs.event_book.Steps.{EventSteps};

use crate::event_book::lasting::Lasting;
use crate::event_book::turn::{Answer, Asks, Turn, What};
use crate::shared_book::Book;
use base_outside::Standing;
use conn_core::{CheckedFrame, Reply, Serve, ServeError, Told, ask};
use server_checks::ServerEvent;
use std::alloc::Global;

/// A server whose connections take turns, one event each. In front of it the server may renew its journal.
#[derive(Drop)]
pub struct EventBook<S: Serve> {
    pub alloc: Global,
    pub server: S,
}

impl<S: Serve> EventBook<S> {
    ghost use Rattle.std.specs.Prelude.{◌≡◌, true};
    ghost use Rattle.conn_core.specs.served.Serving.{IsServerServed};
    ghost use Rattle.serve_turns.specs.event_book.Places.{is_asked};
    ghost use Rattle.serve_turns.specs.event_book.Steps.{AnswersMessage, AsksEvent, EventStepsFor, HearsEvent};

    /// A connection is made or lost.
    fn hear(&mut self, now: u64, event: ServerEvent<'_>) -> Answer
        requires { IsServerServed event }
        ensures { HearsEvent S.shows S.stopped S.faults self.old now event.entry result self.new }
    {
        Answer {
            frame: None,
            reply: Some(self.server.event(now, event)),
            standing: Standing::nothing(),
        }
    }

    /// What the server answers a message. One that has stopped doesn't look at it.
    fn answer(
        &mut self,
        now: u64,
        frame: &CheckedFrame,
        at: usize,
        told: &Told,
    ) -> Option<Result<Reply, ServeError>>
        requires { is_asked frame.now at ≡ true }
        ensures { AnswersMessage S.shows S.stopped S.faults self.old now frame.now at told.now result self.new }
    {
        let alloc = self.alloc;
        match self.server.stop_count() {
            Some(count) => Some(Err(ServeError::Stopped(count))),
            None => ask(&mut self.server, alloc, now, frame, at, told),
        }
    }

    /// A message came.
    fn take(&mut self, now: u64, asks: Asks) -> Answer
        ensures { AsksEvent S.shows S.stopped S.faults self.old now asks result self.new }
    {
        let Asks { frame, at, told } = asks;
        let reply = self.answer(now, &frame, at, &told);
        let standing = self.server.standing(told.connection);
        Answer {
            frame: Some(frame),
            reply,
            standing,
        }
    }

    /// The event of a turn.
    fn act(&mut self, event: Turn) -> Answer
        ensures { EventStepsFor S.shows S.stopped S.faults event.what self.old event result self.new }
    {
        let Turn { now, what } = event;
        match what {
            What::Accept(connection) => self.hear(now, ServerEvent::Accept { connection }),
            What::Message(asks) => self.take(now, asks),
            What::End(connection) => self.hear(now, ServerEvent::End { connection }),
        }
    }
}

impl<S: Lasting> EventBook<S> {
    ghost use Rattle.serve_turns.specs.event_book.Steps.{RenewsBook};

    /// What comes in front of an event.
    fn prepare(&mut self)
        ensures { RenewsBook S.shows S.stopped S.faults self.old self.new }
    {
        self.server.renew();
    }
}

impl<S: Lasting> Book for EventBook<S> {
    type Event = Turn;

    type Reply = Answer;

    ghost use Rattle.serve_turns.specs.event_book.Steps.{EventSteps};

    ghost steps = { λ old turn answer new. EventSteps S.shows S.stopped S.faults old turn answer new };

    fn step(&mut self, event: Turn) -> Answer {
        self.prepare();
        self.act(event)
    }
}
