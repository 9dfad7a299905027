// What a response says to its operation.
ghost use Rattle.std.specs.Prelude.{◌≡◌, MatchResult};
ghost use Rattle.spec_commands.specs.ReplyOf.{reply_of as read_as};
ghost use Rattle.wire_commands.specs.values.Meaning.{client_command_of, reply_of as meant_by};
ghost use Rattle.world_steps.specs.Parts.{IsWorldMemory};
ghost use Rattle.world_steps.specs.taking.Replies.{IsTakeCommandFor, TakeReads};

use crate::sending::{Played, WorldError};
use crate::taking::hearing::Response;
use std::alloc::Global;
use wire_commands::{ClientCommand, Reply, reply_of};

fn read(
    alloc: Global,
    command: &ClientCommand<'_>,
    response: &Response,
) -> Result<Reply, WorldError>
    ensures { MatchResult result (λ r. meant_by r ≡ read_as (client_command_of command.now) response.now.header response.now.message)
        (λ e. IsWorldMemory e) }
{
    match reply_of(
        alloc,
        command,
        &response.header,
        response.message.as_slice(),
    ) {
        Ok(reply) => Ok(reply),
        Err(_) => Err(WorldError::Memory),
    }
}

fn command_for<'a>(
    client: &'a Played,
    alloc: Global,
    salt: u64,
    response: &Response,
) -> Result<ClientCommand<'a>, WorldError>
    ensures { MatchResult result (λ q. IsTakeCommandFor client.now salt response.now (client_command_of q)) (λ e. IsWorldMemory e) }
{
    match client.request(alloc, response.number as usize, response.asking, salt) {
        Ok(command) => Ok(command),
        Err(_) => Err(WorldError::Memory),
    }
}

/// It reads by its operation's command, or by that of the request to attach.
pub(crate) fn reply_for(
    client: &Played,
    alloc: Global,
    salt: u64,
    response: &Response,
) -> Result<Reply, WorldError>
    ensures { MatchResult result (λ r. TakeReads client.now salt response.now r) (λ e. IsWorldMemory e) }
{
    match command_for(client, alloc, salt, response) {
        Ok(command) => read(alloc, &command, response),
        Err(why) => Err(why),
    }
}
