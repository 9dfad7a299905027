ghost use Rattle.std.specs.Prelude.{◌≡◌};
ghost use Rattle.conn_core.specs.served.Replies as replies;

use crate::served::error::ServeError;
use crate::served::serve::Reply;
use std::alloc::{AllocError, Global};

/// The server's answers to a frame, one for each message that has an event, in their order.
#[derive(Drop)]
pub struct Replies {
    pub items: Vec<Result<Reply, ServeError>>,
}

fn lacks(answer: &Result<Reply, ServeError>) -> bool
    ensures { result ≡ replies.event_lacks answer.now }
{
    matches!(answer, Err(ServeError::Memory))
}

fn acts(answer: &Result<Reply, ServeError>) -> bool
    ensures { result ≡ replies.event_acts answer.now }
{
    match answer {
        Ok(reply) => reply.acted,
        Err(ServeError::Unanswered { acted }) => *acted,
        Err(ServeError::Memory) => false,
        Err(ServeError::Stopped(_)) => false,
    }
}

fn lacked_in(answers: &[Result<Reply, ServeError>]) -> bool
    ensures { result ≡ replies.some_lacked answers.now }
{
    for answer in answers {
        if lacks(answer) {
            return true;
        }
    }
    false
}

fn acted_in(answers: &[Result<Reply, ServeError>]) -> bool
    ensures { result ≡ replies.some_acted answers.now }
{
    for answer in answers {
        if acts(answer) {
            return true;
        }
    }
    false
}

impl Replies {
    ghost use Rattle.std.specs.Prelude.{◌≡◌, ◌≤◌, ◌++◌, ◌∷◌, [], vec_len, vec_capacity, IfOk, OnOk, OnErr};
    ghost use Rattle.conn_core.specs.served.Replies.{some_lacked, some_acted};

    /// No answers yet, with room for so many.
    pub fn with_room(alloc: Global, count: usize) -> Result<Replies, AllocError>
        ensures none { IfOk result (λ r. r.items.items ≡ []) }
        ensures room { IfOk result (λ r. count ≤ vec_capacity r.items) }
    {
        let items = Vec::with_capacity(alloc, count)?;
        Ok(Replies { items })
    }

    /// Adds an answer at the end. Where there is no memory nothing changes.
    pub fn push(&mut self, answer: Result<Reply, ServeError>) -> Result<(), AllocError>
        ensures ok { OnOk result (self.new.items.items ≡ self.old.items.items ++ answer ∷ []) }
        ensures err { OnErr result ((self.new.items.items ≡ self.old.items.items)
            × (vec_capacity self.old.items ≤ vec_len self.old.items)) }
        ensures room { vec_capacity self.old.items ≤ vec_capacity self.new.items }
    {
        self.items.push(answer)?;
        Ok(())
    }

    /// Whether an event found no memory.
    pub fn lacked(&self) -> bool
        ensures { result ≡ some_lacked self.now.items.items }
    {
        lacked_in(self.items.as_slice())
    }

    /// Whether a message acted.
    pub fn acted(&self) -> bool
        ensures { result ≡ some_acted self.now.items.items }
    {
        acted_in(self.items.as_slice())
    }

    /// How many bytes all bodies have.
    pub fn body_bytes(&self) -> usize {
        let mut count: usize = 0;
        for answer in self.items.as_slice() {
            if let Ok(reply) = answer {
                count = count.saturating_add(reply.body.len());
            }
        }
        count
    }
}
