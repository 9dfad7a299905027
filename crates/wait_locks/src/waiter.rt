//! A LOCK that may wait, as the list keeps it: all of its message, whose one element it owns.
ghost use Rattle.std.specs.Prelude.{◌≡◌, [], ◌∷◌, IfOk, IfSome, None};
ghost use Rattle.law_waiting.specs.held.Held as waits;
ghost use Rattle.spec_exchange.specs.Commands as asks;
ghost use Rattle.spec_exchange.specs.State.{Server};
ghost use Rattle.wait_locks.specs.Kept.{KeepsMessage, kept_message};
ghost use Rattle.wire_commands.specs.values.Meaning.{command_of, message_of};

use law_waiting::held_law;
use spec_exchange::values::Element;
use std::alloc::{AllocError, Global};
use wire_commands::{Command, Message};

/// A LOCK of one element, signed or sealed as owed.
#[derive(Clone, Copy, Debug)]
pub struct Waiter {
    pub connection: u32,
    pub client_guid: u128,
    pub session_id: u64,
    pub tree_id: u32,
    pub message_id: u64,
    pub channel_sequence: u16,
    pub replay: bool,
    pub file: u64,
    pub index: u32,
    pub number: u8,
    pub element: Element,
    pub async_id: u64,
    /// The number of its open's file, from the moment on at which it waits.
    pub on: u64,
}

impl Waiter {
    /// A message that may wait; of another there is none.
    pub fn of(message: &Message<'_>, async_id: u64) -> Option<Waiter>
        ensures some { IfSome result (λ w. KeepsMessage w (message_of message.now) async_id) }
        ensures none { result ≡ None → (s : Server) → waits.would_wait s (message_of message.now) ≡ None }
    {
        match &message.command {
            Command::Lock {
                file,
                index,
                number,
                elements,
            } => of_elements(
                message,
                *file,
                *index,
                *number,
                elements.as_slice(),
                async_id,
            ),
            _ => None,
        }
    }

    /// The same under this AsyncId.
    pub fn with_id(&self, async_id: u64) -> Waiter
        ensures { result ≡ record self.now { async_id = async_id } }
    {
        Waiter { async_id, ..*self }
    }

    /// The same on this file.
    pub fn on_file(&self, on: u64) -> Waiter
        ensures { result ≡ record self.now { on = on } }
    {
        Waiter { on, ..*self }
    }

    /// A copy of its message, for a step of the server. Its one element takes memory.
    pub fn message(&self, alloc: Global) -> Result<Message<'static>, AllocError>
        ensures { IfOk result (λ m. message_of m ≡ kept_message self.now) }
    {
        let mut elements = Vec::with_capacity(alloc, 1)?;
        elements.push_reserved(self.element);
        Ok(Message {
            connection: self.connection,
            client_guid: self.client_guid,
            session_id: self.session_id,
            tree_id: self.tree_id,
            message_id: self.message_id,
            channel_sequence: self.channel_sequence,
            replay: self.replay,
            fault: None,
            command: Command::Lock {
                file: self.file,
                index: self.index,
                number: self.number,
                elements,
            },
        })
    }
}

// Of a LOCK of these elements.
fn of_elements(
    message: &Message<'_>,
    file: u64,
    index: u32,
    number: u8,
    elements: &[Element],
    async_id: u64,
) -> Option<Waiter>
    requires { command_of message.now.command ≡ asks.Lock file index number elements.now }
    ensures some { IfSome result (λ w. KeepsMessage w (message_of message.now) async_id) }
    ensures none { result ≡ None → (s : Server) → waits.would_wait s (message_of message.now) ≡ None }
{
    match elements {
        [element] => of_element(message, file, index, number, *element, async_id),
        _ => None,
    }
}

// Of a LOCK of this one.
fn of_element(
    message: &Message<'_>,
    file: u64,
    index: u32,
    number: u8,
    element: Element,
    async_id: u64,
) -> Option<Waiter>
    requires { command_of message.now.command ≡ asks.Lock file index number (element ∷ []) }
    ensures some { IfSome result (λ w. KeepsMessage w (message_of message.now) async_id) }
    ensures none { result ≡ None → (s : Server) → waits.would_wait s (message_of message.now) ≡ None }
{
    held_law();
    if message.fault.is_some() {
        return None;
    }
    Some(Waiter {
        connection: message.connection,
        client_guid: message.client_guid,
        session_id: message.session_id,
        tree_id: message.tree_id,
        message_id: message.message_id,
        channel_sequence: message.channel_sequence,
        replay: message.replay,
        file,
        index,
        number,
        element,
        async_id,
        on: 0,
    })
}
