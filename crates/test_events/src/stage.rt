// A server, and the events of a row on it.
mod frames;

use crate::around::envelope_of;
use crate::event_calls::{
    Envelope, Fault, config, first_token, kept, second_token, setup_heard, setup_message,
};
use crate::event_server::Runs;
use crate::requests::{raw, request, write};
use crate::told::{push_answer, push_digits, push_later};
use crate::words::{has, number_of, number_or, option, payload, small, word};
use base_outside::Disk;
use conn_core::Conn;
use server_checks::ServerEvent;
use std::alloc::{AllocError, Global};
use std::fmt::Write;
use store_files::StoredFile;
use wait_locks::{CancelTarget, LaterList, OwnAnswer, WaitEvent};
use wire_bytes::Bytes;

// The first session of the first epoch.
const FIRST: u64 = 0x1_0000_0001;

// All bytes of a disk.
fn push_disk<D: Disk>(said: &mut String, alloc: Global, disk: &mut D) -> Result<(), Fault> {
    let length = disk.length().unwrap_or(1_000_000);
    if length >= 1_000_000 {
        return Err(Fault::Other);
    }
    let mut bytes = vec![in alloc; 0u8; length as usize]?;
    if disk.read(0, bytes.as_mut_slice()).is_err() {
        return Err(Fault::Other);
    }
    kept(push_digits(said, bytes.as_slice()))
}

// `PATH BYTES` for each file.
fn push_files(said: &mut String, files: &[StoredFile]) -> Result<(), AllocError> {
    if files.is_empty() {
        return said.push_str("none");
    }
    for file in files {
        if !said.is_empty() {
            said.push_str(", ")?;
        }
        write!(said, "{} ", file.path.as_str())?;
        push_digits(said, file.bytes.as_slice())?;
    }
    Ok(())
}

/// A server and the moment of its events, with connection 1 where frames came there, the last token that the server gave, the session
/// that this names, and what was answered last.
#[derive(Drop)]
pub struct Stage<S: Runs> {
    alloc: Global,
    room: u64,
    encrypts: bool,
    bare: bool,
    server: Option<S>,
    conn: Option<Conn>,
    now: u64,
    token: Bytes,
    session: u64,
    at_once: bool,
    said: String,
}

impl<S: Runs> Stage<S> {
    pub fn new(alloc: Global, room: u64, encrypts: bool, bare: bool) -> Stage<S> {
        Stage {
            alloc,
            room,
            encrypts,
            bare,
            server: None,
            conn: None,
            now: 5,
            token: Bytes::new(alloc),
            session: 0,
            at_once: false,
            said: String::new(alloc),
        }
    }

    /// What was answered last.
    pub fn said(&self) -> &str {
        self.said.as_str()
    }

    pub fn is_begun(&self) -> bool {
        self.server.is_some()
    }

    // Whether the last event succeeded, asks for the next token of a logon, or waits.
    fn is_done(&self) -> bool {
        let said = self.said.as_str();
        said.starts_with("ok") || said.starts_with("c0000016") || said.starts_with("00000103")
    }

    /// Begins on what a disk holds: `ok`, or why there is no server.
    pub fn begin(&mut self, disk: S::D) -> Result<(), Fault> {
        self.said.clear();
        self.conn = None;
        let config = config(self.alloc, self.room, self.encrypts, self.bare)?;
        match S::begin(self.alloc, disk, config) {
            Ok(server) => {
                self.server = Some(server);
                kept(self.said.push_str("ok"))
            }
            Err(error) => kept(write!(self.said, "{error:?}")),
        }
    }

    fn stopped(&mut self) -> Result<S::D, Fault> {
        match self.server.take() {
            Some(server) => Ok(server.stop()),
            None => Err(Fault::Other),
        }
    }

    // All bytes of the disk, on which the server is then gone.
    fn disk(&mut self) -> Result<(), Fault> {
        let mut disk = self.stopped()?;
        push_disk(&mut self.said, self.alloc, &mut disk)
    }

    fn files(&mut self) -> Result<(), Fault> {
        let Some(server) = &self.server else {
            return Err(Fault::Other);
        };
        let files = server.files()?;
        kept(push_files(&mut self.said, files.as_slice()))
    }

    fn event(&mut self, around: &Envelope, event: ServerEvent<'_>) -> Result<(), Fault> {
        self.heard(around, WaitEvent::Serves { event })
    }

    fn heard(&mut self, around: &Envelope, event: WaitEvent<'_>) -> Result<(), Fault> {
        let Some(server) = &mut self.server else {
            return Err(Fault::Other);
        };
        match server.event(self.now, self.at_once, event) {
            Ok(list) => {
                let starved = server.starved();
                self.listed(around, list, starved)
            }
            Err(error) => kept(write!(self.said, "{error:?}")),
        }
    }

    // The event's own answer, or `nothing`; then what waiters are told, and `, starved`.
    fn listed(&mut self, around: &Envelope, list: LaterList, starved: bool) -> Result<(), Fault> {
        let LaterList { own, finals } = list;
        match own {
            Some(own) => self.told(around, own)?,
            None => kept(self.said.push_str("nothing"))?,
        }
        for later in finals.iter() {
            kept(push_later(&mut self.said, later))?;
        }
        kept(self.said.push_str(if starved { ", starved" } else { "" }))
    }

    // Keeps the token of an answer, and the session that it names.
    fn told(&mut self, around: &Envelope, own: OwnAnswer) -> Result<(), Fault> {
        push_answer(&mut self.said, self.alloc, around, &own.answer)?;
        if own.async_id != 0 {
            write!(self.said, " async {}", own.async_id)?;
        }
        let OwnAnswer { answer, .. } = own;
        if !answer.token.is_empty() {
            self.session = answer.reply.session_id;
            self.token = answer.token;
        }
        Ok(())
    }

    // `cancel async=ID` or `cancel message=ID`.
    fn cancel(&mut self, words: &[&str]) -> Result<(), Fault> {
        let around = envelope_of(words, FIRST);
        let target = if option(words, "async").is_some() {
            CancelTarget::AsyncId(number_or(words, "async", 0))
        } else {
            CancelTarget::MessageId(around.message)
        };
        let connection = around.connection;
        self.heard(&around, WaitEvent::Cancels { connection, target })
    }

    // An event of a connection, which has no ids.
    fn bare(&mut self, event: ServerEvent<'_>) -> Result<(), Fault> {
        let mut around = Envelope::of(0);
        around.tree = 0;
        self.event(&around, event)
    }

    // A SESSION_SETUP with this token; the flag `cut` leaves only a part of its body.
    fn setup(&mut self, words: &[&str], session: u64, token: &[u8]) -> Result<(), Fault> {
        let around = envelope_of(words, session);
        let mut message = setup_message(self.alloc, &around, token)?;
        if has(words, "cut") {
            message.truncate(70);
        }
        let setup = setup_heard(self.alloc, &around, message.as_slice())?;
        self.event(&around, ServerEvent::Setup { setup })
    }

    fn first(&mut self, words: &[&str]) -> Result<(), Fault> {
        let token = first_token(self.alloc, has(words, "alone"))?;
        self.setup(words, 0, token.as_slice())
    }

    // The answer to the last challenge, of `User` or of `user=NAME:PASSWORD`; the flag `flip` changes its last byte, of the MIC, or of the key
    // where the token is a type 3 alone.
    fn second(&mut self, words: &[&str]) -> Result<(), Fault> {
        let named = option(words, "user").unwrap_or("User:Password");
        let (user, password) = named.split_once(":").unwrap_or((named, ""));
        let alone = has(words, "alone");
        let token = second_token(self.alloc, user, password, self.token.as_slice(), alone)?;
        let mut token = token.into_vec();
        if let Some(last) = token.last_mut()
            && has(words, "flip")
        {
            *last ^= 1;
        }
        self.setup(words, self.session, token.as_slice())
    }

    fn request(&mut self, words: &[&str]) -> Result<(), Fault> {
        let command = request(self.alloc, words)?;
        let around = envelope_of(words, FIRST);
        self.event(&around, around.event(command))
    }

    fn write(&mut self, words: &[&str]) -> Result<(), Fault> {
        let bytes = payload(self.alloc, word(words, 3))?;
        let around = envelope_of(words, FIRST);
        self.event(&around, around.event(write(words, bytes.as_slice())))
    }

    fn raw(&mut self, words: &[&str]) -> Result<(), Fault> {
        let body = payload(self.alloc, word(words, 2))?;
        let mut message = vec![in self.alloc; 0u8; 64]?;
        kept(message.extend_from_slice(body.as_slice()))?;
        let command = raw(self.alloc, words, message.as_slice())?;
        let around = envelope_of(words, FIRST);
        self.event(&around, around.event(command))
    }

    fn of_words(&mut self, words: &[&str]) -> Result<(), Fault> {
        match word(words, 0) {
            "accept" => self.bare(ServerEvent::Accept {
                connection: small(words, 1),
            }),
            "end" => self.bare(ServerEvent::End {
                connection: small(words, 1),
            }),
            "stop" => self.bare(ServerEvent::Stop),
            "first" => self.first(words),
            "second" => self.second(words),
            "bad" => self.setup(words, 0, &[0x60, 0]),
            "logon" => {
                self.first(words)?;
                self.said.clear();
                self.second(words)
            }
            "cancel" => self.cancel(words),
            "write" => self.write(words),
            "raw" => self.raw(words),
            "frame" | "answer" | "sealed" => {
                let bytes = payload(self.alloc, word(words, 1))?;
                self.frame(word(words, 0), bytes.as_slice())
            }
            _ => self.request(words),
        }
    }

    // What is answered to one event.
    fn single(&mut self, event: &str) -> Result<(), Fault> {
        let words: Vec<&str> = event.split(" ").collect(self.alloc)?;
        self.said.clear();
        self.at_once = has(&words, "at-once");
        self.of_words(&words)
    }

    // Events with ` & ` between them and this number for `#`, each behind another one, which succeeded.
    fn once(&mut self, events: &str, number: u64) -> Result<(), Fault> {
        let mut digits = String::new(self.alloc);
        write!(digits, "{number}")?;
        let events = events.replace(self.alloc, "#", digits.as_str())?;
        for event in events.as_str().split(" & ") {
            if !self.is_done() {
                return Err(Fault::Other);
            }
            self.single(event)?;
        }
        Ok(())
    }

    // `times COUNT EVENTS`: these, with ` & ` between them and the count from 1 on for `#`, so often. All but the last succeed.
    fn repeated(&mut self, rest: &str) -> Result<(), Fault> {
        let (count, events) = rest.split_once(" ").unwrap_or((rest, ""));
        self.said.push_str("ok")?;
        for i in 0..number_of(count) {
            self.once(events, i.saturating_add(1))?;
        }
        Ok(())
    }

    /// An event that succeeds.
    pub fn prepare(&mut self, event: &str) -> Result<(), Fault> {
        self.answer(event)?;
        if self.is_done() {
            Ok(())
        } else {
            Err(Fault::Other)
        }
    }

    /// What is answered to an event: one of the server, `times`, `begin`, `at MOMENT`, a `restart`, the `files`, or the `disk`.
    pub fn answer(&mut self, event: &str) -> Result<(), Fault> {
        self.said.clear();
        let (word, rest) = event.split_once(" ").unwrap_or((event, ""));
        match word {
            "at" => {
                self.now = number_of(rest);
                kept(self.said.push_str("ok"))
            }
            "times" => self.repeated(rest),
            // Connection 1 with a session of `User` and a tree of the share.
            "begin" => self.repeated("1 accept 1 & logon & connect data tree=0"),
            "restart" => {
                let disk = self.stopped()?;
                self.begin(disk)
            }
            "files" => self.files(),
            "disk" => self.disk(),
            _ => self.single(event),
        }
    }
}
