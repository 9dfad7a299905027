ghost use Rattle.std.specs.Prelude.{◌≡◌, ◌≤◌};
ghost use Rattle.spec_commands.specs.BodyOf.{number_of_command};
ghost use Rattle.spec_commands.specs.Tables.{bit_if};
ghost use Rattle.wire_commands.specs.values.Meaning.{client_command_of};
ghost use Rattle.client_ends.specs.operation_requests.Requesting.{Requests};

use std::alloc::Global;
use wire_bytes::{Header, Request};
use wire_commands::{ClientCommand, WriteError, body_of};

/// SMB2_FLAGS_REPLAY_OPERATION
const REPLAY: u32 = 0x2000_0000;

/// What a request tells of its session and of its operation: SessionId, TreeId, ChannelSequence, whether it has the replay flag, its
/// CreditCharge, and whose it is.
#[derive(Clone, Copy, Debug, PartialEq, Eq)]
pub struct Heading {
    pub session: u64,
    pub tree: u32,
    pub sequence: u16,
    pub replay: bool,
    pub charge: u16,
    pub token: u64,
}

/// The number of a command that a line sends (MS-SMB2 2.2.1), 0 of another one.
pub fn number_of(command: &ClientCommand<'_>) -> u16
    ensures { result ≡ number_of_command (client_command_of command.now) }
{
    // Long by its commands alone: an arm is an equation that the checker computes, and a function costs the same to
    // prove whatever its length.
    match command {
        ClientCommand::TreeConnect { share: _ } => 3,
        ClientCommand::Create(_) => 5,
        ClientCommand::Close { file: _, query: _ } => 6,
        ClientCommand::Flush { file: _ } => 7,
        ClientCommand::Read {
            file: _,
            at: _,
            size: _,
            minimum: _,
            channel: _,
        } => 8,
        ClientCommand::Write {
            file: _,
            at: _,
            bytes: _,
            channel: _,
        } => 9,
        ClientCommand::Lock {
            file: _,
            index: _,
            number: _,
            elements: _,
        } => 10,
        ClientCommand::ListDirectory {
            file: _,
            class: _,
            restart: _,
            single: _,
            pattern: _,
            room: _,
        } => 14,
        ClientCommand::QueryFile {
            file: _,
            class: _,
            room: _,
        } => 16,
        ClientCommand::SetInfo {
            file: _,
            setting: _,
        } => 17,
        ClientCommand::Nothing => 0,
    }
}

#[tactic(auto, unfolding(spec_commands::specs::Tables::bit_if))]
fn replay_flag(replay: bool) -> u32
    ensures value { result ≡ bit_if replay 0x2000_0000 }
    ensures low { result ≤ 0x2000_0000 }
{
    if replay { REPLAY } else { 0 }
}

/// A header but for what the line puts into it.
fn header_of(heading: &Heading, command: u16) -> Header
    ensures flags { (result.flags ≡ bit_if heading.now.replay 0x2000_0000) × (result.flags ≤ 0x2000_0000) }
    ensures rest { (result.charge ≡ heading.now.charge) × (result.status ≡ heading.now.sequence) × (result.command ≡ command)
        × (result.tree ≡ heading.now.tree) × (result.session ≡ heading.now.session) }
{
    let flags = replay_flag(heading.replay);
    let sequence = u32::from(heading.sequence);
    Header {
        charge: heading.charge,
        status: sequence,
        command,
        credits: 0,
        flags,
        next: 0,
        message: 0,
        tree: heading.tree,
        session: heading.session,
        signature: [0; 16],
    }
}

/// The request of a command, under this heading. `Unwritable` comes exactly where a part of the command doesn't fit its field.
pub fn request_of(
    alloc: Global,
    heading: &Heading,
    command: &ClientCommand<'_>,
) -> Result<Request, WriteError>
    ensures { Requests heading.now (client_command_of command.now) result }
{
    match body_of(alloc, command) {
        Ok(body) => {
            let number = number_of(command);
            let header = header_of(heading, number);
            Ok(Request {
                header,
                body,
                token: heading.token,
            })
        }
        Err(why) => Err(why),
    }
}
