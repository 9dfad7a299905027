// What goes out at a push, as its request has it.
use crate::client_scripts::played::Plays;
use crate::words::{Fault, kept};
use client_events::Act;
use client_steps::Head;
use std::alloc::{AllocError, Global};
use std::fmt::Write;
use wire_commands::ClientCommand;

/// The random bytes of a run, of which no row tells.
const SALT: u64 = 7;

/// Puts what a push came to, with what goes out.
pub fn push_sent<P: Plays>(
    said: &mut String,
    alloc: Global,
    played: &P,
    act: Act,
) -> Result<(), Fault> {
    match act {
        Act::Sends(index) => push_request(said, alloc, played, index, false),
        Act::Asks(index) => push_request(said, alloc, played, index, true),
        Act::Nothing => kept(said.push_str("nothing")),
        Act::CloseChannels => kept(said.push_str("closes all")),
        Act::AllSettled => kept(said.push_str("done")),
        Act::CloseChannel => Err(Fault::Other("a push closes a channel")),
    }
}

fn push_request<P: Plays>(
    said: &mut String,
    alloc: Global,
    played: &P,
    index: usize,
    asking: bool,
) -> Result<(), Fault> {
    let word = if asking { "asks" } else { "sends" };
    write!(said, "{word} {index}")?;
    let head = played.head_at(index, asking)?;
    push_command(said, alloc, played, index, asking, head)?;
    kept(said.push_str(if head.replay { " replay" } else { "" }))
}

fn push_command<P: Plays>(
    said: &mut String,
    alloc: Global,
    played: &P,
    index: usize,
    asking: bool,
    head: Head,
) -> Result<(), Fault> {
    let command = played.request_at(alloc, index, asking, SALT)?;
    kept(push_named(said, &command, head))
}

// The FileId that a request names, the ChannelSequence, and the lock slot. A create names no open; a request to attach one does.
fn push_named(
    said: &mut String,
    command: &ClientCommand<'_>,
    head: Head,
) -> Result<(), AllocError> {
    match command {
        ClientCommand::Create(request) => match &request.reconnect {
            Some(reconnect) => push_file(said, reconnect.file, head),
            None => write!(said, " sequence {}", head.sequence),
        },
        ClientCommand::Write { file, .. }
        | ClientCommand::Read { file, .. }
        | ClientCommand::SetInfo { file, .. }
        | ClientCommand::Flush { file }
        | ClientCommand::QueryFile { file, .. }
        | ClientCommand::ListDirectory { file, .. }
        | ClientCommand::Close { file, .. } => push_file(said, *file, head),
        ClientCommand::Lock {
            file,
            index,
            number,
            ..
        } => write!(
            said,
            " file {file} sequence {} slot {index} {number}",
            head.sequence
        ),
        _ => said.push_str(" a request of no operation"),
    }
}

fn push_file(said: &mut String, file: u128, head: Head) -> Result<(), AllocError> {
    write!(said, " file {file} sequence {}", head.sequence)
}
