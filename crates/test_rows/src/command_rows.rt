//! Requests and replies of commands, from bytes to values and back: what is answered to a row. Bytes are hexadecimal digits, `-` for none.

mod bodies;
mod sending;

use crate::words::{Fault, Words, push_digits};
use bodies::body_in;
use sending::{push_given_back, sent_by_client};
use spec_wire::Header;
use std::alloc::{AllocError, Global};
use std::fmt::Write;
use wire_bytes::{Bytes, split_compound};
use wire_commands::{
    Body, ClientCommand, Command, Element, Reply, Request, SetupRequest, Shows, Unjoined, body_of,
    elements_bytes, join_messages, reply_body, reply_of, request_of,
};

/// Puts what is answered to the words of a row.
pub fn push_answer(said: &mut String, alloc: Global, words: &mut Words<'_>) -> Result<(), Fault> {
    let kind = words.next();
    match kind {
        "elements" => push_elements(said, alloc, words),
        "given" => push_given_back(said, alloc, words),
        "joined" => push_joined(said, alloc, words),
        "logon" => push_logon(said, alloc, words),
        _ => push_request(said, alloc, kind, words),
    }
}

// `written COMMAND BODY`: a request that the client writes, `same` where its command is written so again. `heard COMMAND BODY`: which kind
// of request it is. `opens 9 BODY`: the open that a WRITE names to the server, 0 for none. `told COMMAND REQUEST STATUS BODY ..`: the bytes
// of a reply.
fn push_request(
    said: &mut String,
    alloc: Global,
    kind: &str,
    words: &mut Words<'_>,
) -> Result<(), Fault> {
    let number = words.short();
    let body = words.bytes(alloc)?;
    let header = header_of(number, words.small());
    let message = message_of(alloc, &body)?;
    match request_of(alloc, &header, &message)? {
        Some(Request::Command(command)) => match kind {
            "heard" => Ok(said.push_str("command")?),
            "opens" => Ok(push_open(said, &command)?),
            "written" => push_written(said, alloc, command, &body),
            _ => push_told(said, alloc, &Bytes::new(alloc), command, &header, words),
        },
        Some(Request::Negotiate) => Ok(said.push_str("negotiate")?),
        Some(Request::Echo { .. }) => Ok(said.push_str("echo")?),
        Some(Request::Setup(_)) => Ok(said.push_str("setup")?),
        None => Ok(said.push_str("nothing")?),
    }
}

fn push_open(said: &mut String, command: &Command<'_>) -> Result<(), AllocError> {
    match command {
        Command::Write { file, .. } => write!(said, "{file}"),
        _ => said.push_str("no WRITE"),
    }
}

fn push_written(
    said: &mut String,
    alloc: Global,
    command: Command<'_>,
    body: &[u8],
) -> Result<(), Fault> {
    let Some(sent) = sent_by_client(command) else {
        return Err(Fault::Other("no client sends it"));
    };
    match body_of(alloc, &sent) {
        Ok(again) if again.as_slice() == body => Ok(said.push_str("same")?),
        Ok(again) => Ok(push_digits(said, again.as_slice())?),
        Err(_) => Err(Fault::Other("it isn't written")),
    }
}

// The digits of a reply in tree 2 of session 3, whose body the words tell, and which a client hears with the header's status and session,
// where it sends such a command.
fn push_told(
    said: &mut String,
    alloc: Global,
    token: &Bytes,
    command: Command<'_>,
    header: &Header,
    words: &mut Words<'_>,
) -> Result<(), Fault> {
    let body = body_in(alloc, words)?;
    let reply = Reply {
        status: header.status,
        session_id: header.session,
        tree_id: header.tree,
        body,
    };
    match reply_body(alloc, token, &command, &reply) {
        Ok(written) => match sent_by_client(command) {
            Some(sent) => push_heard(said, alloc, &sent, header, written.as_slice()),
            None => Ok(push_digits(said, written.as_slice())?),
        },
        Err(_) => Err(Fault::Other("it isn't written")),
    }
}

fn push_heard(
    said: &mut String,
    alloc: Global,
    command: &ClientCommand<'_>,
    header: &Header,
    written: &[u8],
) -> Result<(), Fault> {
    let response = message_of(alloc, written)?;
    let heard = reply_of(alloc, command, header, &response)?;
    if heard.status != header.status || heard.session_id != header.session {
        return Err(Fault::Other("heard otherwise"));
    }
    Ok(push_digits(said, written)?)
}

// `logon TOKEN`: the bytes of the reply to a SESSION_SETUP that begins.
fn push_logon(said: &mut String, alloc: Global, words: &mut Words<'_>) -> Result<(), Fault> {
    let token = Bytes::from_vec(words.bytes(alloc)?);
    let setup = Command::Setup(SetupRequest {
        readable: true,
        binding: false,
        signed: false,
        verified: false,
        previous: 0,
        cipher: 2,
        signing: 1,
        shows: Shows::Begins,
    });
    push_told(
        said,
        alloc,
        &token,
        setup,
        &header_of(1, 0),
        &mut Words::new("setup"),
    )
}

// `elements OFFSET LENGTH FLAGS OFFSET LENGTH FLAGS`: the bytes of a LOCK's two elements.
fn push_elements(said: &mut String, alloc: Global, words: &mut Words<'_>) -> Result<(), Fault> {
    let first = element_in(words);
    let second = element_in(words);
    let bytes = elements_bytes(alloc, &[first, second])?;
    Ok(push_digits(said, bytes.as_slice())?)
}

fn element_in(words: &mut Words<'_>) -> Element {
    Element {
        at: words.number(),
        length: words.number(),
        flags: words.small(),
    }
}

// `joined COMMAND BODY COMMAND BODY`: where the two messages of a frame begin and end.
fn push_joined(said: &mut String, alloc: Global, words: &mut Words<'_>) -> Result<(), Fault> {
    let header = header_of(words.short(), 0);
    let body = words.bytes(alloc)?;
    let second = header_of(words.short(), 0);
    let other = words.bytes(alloc)?;
    let messages = [
        Unjoined {
            header,
            body: &body,
        },
        Unjoined {
            header: second,
            body: &other,
        },
    ];
    match join_messages(alloc, &messages) {
        Ok(frame) => push_spans(said, alloc, frame.as_slice()),
        Err(_) => Err(Fault::Other("it isn't written")),
    }
}

fn push_spans(said: &mut String, alloc: Global, frame: &[u8]) -> Result<(), Fault> {
    let Ok(spans) = split_compound(alloc, frame) else {
        return Err(Fault::Other("no frame"));
    };
    for span in spans.as_slice() {
        let comma = if said.is_empty() { "" } else { ", " };
        write!(said, "{comma}{}-{}", span.start, span.end)?;
    }
    Ok(())
}

// A message of a header, which no body looks at, and a body.
pub(crate) fn message_of(alloc: Global, body: &[u8]) -> Result<Vec<u8>, AllocError> {
    let mut message = Vec::from_slice(alloc, &[0; 64])?;
    message.extend_from_slice(body)?;
    Ok(message)
}

// The header of message 4 in tree 2 of session 3.
pub(crate) fn header_of(command: u16, status: u32) -> Header {
    Header {
        charge: 1,
        status,
        command,
        credits: 1,
        flags: 0,
        next: 0,
        message: 4,
        tree: 2,
        session: 3,
        signature: [0; 16],
    }
}
