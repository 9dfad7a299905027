// Commands as a client sends them.
use crate::command_rows::{header_of, message_of};
use crate::words::{Fault, Words, push_digits};
use std::alloc::Global;
use wire_bytes::Text;
use wire_commands::{
    Body, ClientCommand, ClientCreate, ClientReconnect, Command, CreateRequest, Reconnect, body_of,
    reply_of,
};

/// A command that a server heard, as a client sends it; `None` where this project's doesn't.
pub fn sent_by_client(command: Command<'_>) -> Option<ClientCommand<'_>> {
    match command {
        Command::TreeConnect { share } => Some(ClientCommand::TreeConnect { share }),
        Command::Create(request) => Some(ClientCommand::Create(create_by_client(request))),
        Command::Close { file, query } => Some(ClientCommand::Close {
            file: file as u128,
            query,
        }),
        Command::Flush { file } => Some(ClientCommand::Flush { file: file as u128 }),
        Command::Read {
            file,
            at,
            size,
            minimum,
            channel,
        } => Some(ClientCommand::Read {
            file: file as u128,
            at,
            size,
            minimum,
            channel,
        }),
        Command::Write {
            file,
            at,
            bytes,
            channel,
        } => Some(ClientCommand::Write {
            file: file as u128,
            at,
            bytes,
            channel,
        }),
        Command::Lock {
            file,
            index,
            number,
            elements,
        } => Some(ClientCommand::Lock {
            file: file as u128,
            index,
            number,
            elements,
        }),
        other => asking_by_client(other),
    }
}

fn asking_by_client(command: Command<'_>) -> Option<ClientCommand<'_>> {
    match command {
        Command::ListDirectory {
            file,
            class,
            restart,
            single,
            pattern,
            room,
        } => Some(ClientCommand::ListDirectory {
            file: file as u128,
            class,
            restart,
            single,
            pattern,
            room,
        }),
        Command::QueryFile { file, class, room } => Some(ClientCommand::QueryFile {
            file: file as u128,
            class,
            room,
        }),
        Command::SetInfo { file, setting } => Some(ClientCommand::SetInfo {
            file: file as u128,
            setting,
        }),
        _ => None,
    }
}

fn create_by_client(request: CreateRequest) -> ClientCreate {
    ClientCreate {
        path: request.path,
        access: request.access,
        share: request.share,
        attributes: request.attributes,
        disposition: request.disposition,
        options: request.options,
        durable: request.durable,
        reconnect: reconnect_by_client(request.reconnect),
        maximal: request.maximal,
        disk_id: request.disk_id,
    }
}

fn reconnect_by_client(asked: Option<Reconnect>) -> Option<ClientReconnect> {
    match asked {
        Some(reconnect) => Some(ClientReconnect {
            file: reconnect.file as u128,
            guid: reconnect.guid,
        }),
        None => None,
    }
}

fn create_of_nothing<'a>(alloc: Global) -> ClientCommand<'a> {
    ClientCommand::Create(ClientCreate {
        path: Text::new(alloc),
        access: 0,
        share: 0,
        attributes: 0,
        disposition: 0,
        options: 0,
        durable: None,
        reconnect: None,
        maximal: false,
        disk_id: false,
    })
}

// `given RESPONSE`: behind the response to a CREATE, the request that writes `hello` into its open from place 7 on.
pub fn push_given_back(
    said: &mut String,
    alloc: Global,
    words: &mut Words<'_>,
) -> Result<(), Fault> {
    let body = words.bytes(alloc)?;
    let message = message_of(alloc, &body)?;
    let create = create_of_nothing(alloc);
    let heard = reply_of(alloc, &create, &header_of(5, 0), &message)?;
    let file = match &heard.body {
        Body::Created(created) => created.id,
        _ => return Err(Fault::Other("no success of a CREATE")),
    };
    let write = ClientCommand::Write {
        file,
        at: 7,
        bytes: b"hello",
        channel: 0,
    };
    match body_of(alloc, &write) {
        Ok(written) => Ok(push_digits(said, written.as_slice())?),
        Err(_) => Err(Fault::Other("it isn't written")),
    }
}
