//! What a reply says to its operation.
ghost use Rattle.std.specs.Prelude.{◌≡◌, IfOk, IfSome};
ghost use Rattle.spec_commands.specs.ReplyOf.{reply_of as read_as};
ghost use Rattle.wire_commands.specs.values.Meaning.{client_command_of, reply_of as meant_by};
ghost use Rattle.client_book.specs.Reading.{IsCommandOf, IsResponseOf, Reads};

use client_ends::Answer;
use client_events::Played;
use std::alloc::{AllocError, Global};
use wire_bytes::{Bytes, Header};
use wire_commands::{ClientCommand, Reply, reply_of};

/// A response to a request that waits: the operation's number, and whether it answers the request to attach the operation's open in its
/// place.
#[derive(Drop)]
pub struct Response {
    pub number: u32,
    pub asking: bool,
    pub header: Header,
    pub message: Bytes,
}

/// Operations are counted in 32 bits.
pub(crate) fn response_of(answer: Answer) -> Option<Response>
    ensures { IfSome result (λ r. IsResponseOf answer r) }
{
    let asking = answer.token % 2 == 1;
    match u32::try_from(answer.token / 2) {
        Ok(number) => Some(Response {
            number,
            asking,
            header: answer.header,
            message: answer.message,
        }),
        Err(_) => None,
    }
}

fn read(
    alloc: Global,
    command: &ClientCommand<'_>,
    response: &Response,
) -> Result<Reply, AllocError>
    ensures { IfOk result (λ r. meant_by r ≡ read_as (client_command_of command.now) response.now.header response.now.message) }
{
    match reply_of(
        alloc,
        command,
        &response.header,
        response.message.as_slice(),
    ) {
        Ok(reply) => Ok(reply),
        Err(_) => Err(AllocError),
    }
}

fn command_for<'a>(
    client: &'a Played,
    alloc: Global,
    salt: u64,
    response: &Response,
) -> Result<ClientCommand<'a>, AllocError>
    ensures { IfOk result (λ q. IsCommandOf client.now salt response.now (client_command_of q)) }
{
    match client.request(alloc, response.number as usize, response.asking, salt) {
        Ok(command) => Ok(command),
        Err(_) => Err(AllocError),
    }
}

/// It reads by its operation's command, or by that of the request to attach.
pub(crate) fn reply_for(
    client: &Played,
    alloc: Global,
    salt: u64,
    response: &Response,
) -> Result<Reply, AllocError>
    ensures { IfOk result (λ r. Reads client.now salt response.now r) }
{
    match command_for(client, alloc, salt, response) {
        Ok(command) => read(alloc, &command, response),
        Err(why) => Err(why),
    }
}
