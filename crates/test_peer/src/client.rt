//! A session in a share.
use crate::messages::Messages;
use base_outside::Link;
use client_ends::dialog_calls::hear as hear_dialog;
use client_ends::line_calls::hear;
use client_ends::{ClientConfig, Dialog, Fresh, Heading, Heard, Line, request_of, send, start};
use std::alloc::{AllocError, Global};
use wire_bytes::{Bytes, Numbers, Request, Text};
use wire_commands::{Body, ClientCommand, ClientCreate, Reply, reply_of};

/// The longest body of a request.
const LONGEST_BODY: usize = 1_113_996;

/// SMB2_FLAGS_REPLAY_OPERATION, the greatest flags of a request.
const REPLAY: u32 = 0x2000_0000;

/// FILE_READ_DATA and FILE_WRITE_DATA (MS-SMB2 2.2.13.1.1)
const READ_AND_WRITE: u32 = 3;

/// FILE_NON_DIRECTORY_FILE (MS-SMB2 2.2.13)
const NO_DIRECTORY: u32 = 0x40;

/// A client with a session in a share. Nothing waits for a reply. Each call is `None` where the link fails or ends, memory runs out, or
/// the answer is another one than was asked for; the client is then of no further use.
#[derive(Drop)]
pub struct Client<L: Link + Drop> {
    alloc: Global,
    messages: Messages<L>,
    line: Line,
    session: u64,
    tree: u32,
}

/// The user, the password and the share of a server without settings; AES-128-GCM and AES-CMAC.
pub fn plain_config(alloc: Global) -> Result<ClientConfig, AllocError> {
    Ok(ClientConfig {
        user: Text::from_str(alloc, "user")?,
        password: Text::from_str(alloc, "Password")?,
        share: Text::from_str(alloc, "data")?,
        ciphers: Numbers::from_slice(alloc, &[2])?,
        signings: Numbers::from_slice(alloc, &[1])?,
        guid: [9; 16],
    })
}

/// A dialog and its first message.
fn begun(alloc: Global, config: &ClientConfig, fresh: Fresh) -> Option<(Dialog, Bytes)> {
    if config.ciphers.as_slice().len() >= 32_767 {
        return None;
    }
    if config.signings.as_slice().len() >= 32_767 {
        return None;
    }
    start(alloc, config, fresh, 0).ok()
}

/// What a dialog comes to by the next message.
fn heard<L: Link + Drop>(messages: &mut Messages<L>, dialog: &mut Dialog) -> Option<Heard> {
    let message = messages.next()?;
    hear_dialog(dialog, message.as_slice(), 0).ok()
}

/// The frame of a request.
fn sent(line: &mut Line, request: &Request) -> Option<Bytes> {
    if request.body.len() > LONGEST_BODY {
        return None;
    }
    if request.header.flags > REPLAY {
        return None;
    }
    send(line, request).ok()
}

/// A CREATE for reading and writing.
fn create_request(alloc: Global, path: &str, disposition: u32) -> Option<ClientCreate> {
    Some(ClientCreate {
        path: Text::from_str(alloc, path).ok()?,
        access: READ_AND_WRITE,
        share: 0,
        attributes: 0,
        disposition,
        options: NO_DIRECTORY,
        durable: None,
        reconnect: None,
        maximal: false,
        disk_id: false,
    })
}

impl<L: Link + Drop> Client<L> {
    /// Makes a session in the share, with these random bytes.
    pub fn log_on(
        alloc: Global,
        link: L,
        config: &ClientConfig,
        fresh: Fresh,
    ) -> Option<Client<L>> {
        let mut messages = Messages::new(alloc, link);
        let (mut dialog, first) = begun(alloc, config, fresh)?;
        messages.say(first.as_slice())?;
        for _ in 0..4u8 {
            match heard(&mut messages, &mut dialog)? {
                Heard::Say(message) => messages.say(message.as_slice())?,
                Heard::Accepted { tree_connect, .. } => messages.say(tree_connect.as_slice())?,
                Heard::Ready {
                    line,
                    session,
                    tree,
                } => {
                    return Some(Client {
                        alloc,
                        messages,
                        line,
                        session,
                        tree,
                    });
                }
                Heard::Refused(_) => return None,
            }
        }
        None
    }

    /// What a command is answered.
    pub fn asked(&mut self, command: &ClientCommand<'_>) -> Option<Reply> {
        let heading = Heading {
            session: self.session,
            tree: self.tree,
            sequence: 0,
            replay: false,
            charge: 1,
            token: 2,
        };
        let request = request_of(self.alloc, &heading, command).ok()?;
        let frame = sent(&mut self.line, &request)?;
        self.messages.say(frame.as_slice())?;
        let reply = self.messages.next()?;
        let answer = hear(&mut self.line, reply.as_slice()).ok()?;
        reply_of(
            self.alloc,
            command,
            &answer.header,
            answer.message.as_slice(),
        )
        .ok()
    }

    /// Opens a file for reading and writing, by a CreateDisposition (MS-SMB2 2.2.13), and gives its open's id.
    pub fn create(&mut self, path: &str, disposition: u32) -> Option<u128> {
        let request = create_request(self.alloc, path, disposition)?;
        match self.asked(&ClientCommand::Create(request))?.body {
            Body::Created(created) => Some(created.id),
            _ => None,
        }
    }

    /// How many bytes are written into an open from a place on.
    pub fn write(&mut self, file: u128, at: u64, bytes: &[u8]) -> Option<u32> {
        let command = ClientCommand::Write {
            file,
            at,
            bytes,
            channel: 0,
        };
        match self.asked(&command)?.body {
            Body::Count { count } => Some(count),
            _ => None,
        }
    }

    /// At most so many bytes of an open from a place on.
    pub fn read(&mut self, file: u128, at: u64, size: u32) -> Option<Bytes> {
        let command = ClientCommand::Read {
            file,
            at,
            size,
            minimum: 0,
            channel: 0,
        };
        match self.asked(&command)?.body {
            Body::Content { bytes } => Some(bytes),
            _ => None,
        }
    }
}
