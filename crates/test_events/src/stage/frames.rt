// Frames on connection 1, as the server's end of a connection takes them. It has what a run draws whose seed is `worked logon`: the salt of
// its NEGOTIATE response is the draw 4, and the challenge of each logon begins the draw 6 (tools/worked_logon.py).
use crate::event_calls::{Fault, kept};
use crate::event_server::Runs;
use crate::stage::Stage;
use crate::told::push_digits;
use conn_core::{Conn, StepNote, Taken};
use crypto_sessions::{Keys, seal};
use std::alloc::Global;
use std::fmt::Write;
use wire_bytes::Bytes;

const SERVER: [u8; 16] = [
    32, 33, 34, 35, 36, 37, 38, 39, 40, 41, 42, 43, 44, 45, 46, 47,
];

const SALT: [u8; 32] = [
    55, 180, 50, 73, 187, 61, 241, 2, 50, 237, 152, 134, 192, 73, 201, 218, 228, 14, 165, 128, 15,
    179, 170, 33, 223, 15, 47, 239, 236, 76, 9, 31,
];

const CHALLENGE: [u8; 8] = [48, 165, 198, 80, 166, 42, 93, 113];

/// The longest text of a sealed frame.
const LONGEST: usize = 1_114_060;

// `ok` or the status of the last reply, ` acts` where a message acted; `nothing` where there is no reply.
fn push_note(said: &mut String, note: &StepNote) -> Result<(), Fault> {
    match note.status {
        None => said.push_str("nothing")?,
        Some(0) => said.push_str("ok")?,
        Some(status) => write!(said, "{status:08x}")?,
    }
    if note.acted {
        said.push_str(" acts")?;
    }
    Ok(())
}

// Sealed by a client that has these keys.
fn sealed(alloc: Global, keys: &Keys, text: &[u8]) -> Result<Bytes, Fault> {
    if keys.cipher < 1 || keys.cipher > 4 {
        return Err(Fault::Other);
    }
    if text.len() > LONGEST {
        return Err(Fault::Other);
    }
    kept(seal(alloc, keys, true, &[9; 16], text))
}

impl<S: Runs> Stage<S> {
    // The answer to a frame, where the connection goes on; else why it ends is said.
    fn taken(&mut self, frame: &[u8]) -> Result<Option<Taken>, Fault> {
        if self.conn.is_none() {
            self.conn = Some(Conn::new(self.alloc, 1, SERVER, SALT)?);
        }
        let (Some(server), Some(conn)) = (&mut self.server, &mut self.conn) else {
            return Err(Fault::Other);
        };
        match server.frame(conn, self.now, CHALLENGE, frame) {
            None => Err(Fault::Other),
            Some(Ok(taken)) => Ok(Some(taken)),
            Some(Err(ended)) => {
                write!(self.said, "{:?}", ended.why)?;
                Ok(None)
            }
        }
    }

    // The text as a frame under the keys of the connection.
    fn guarded(&self, text: &[u8]) -> Result<Bytes, Fault> {
        let Some(conn) = &self.conn else {
            return Err(Fault::Other);
        };
        match &conn.logon.keys {
            Some(keys) => sealed(self.alloc, keys, text),
            None => Err(Fault::Other),
        }
    }

    // What a frame comes to: where `whole` is asked for the digits of the answer, else its note.
    fn told_of(&mut self, frame: &[u8], whole: bool) -> Result<(), Fault> {
        match self.taken(frame)? {
            Some(taken) if whole => kept(push_digits(&mut self.said, taken.bytes.as_slice())),
            Some(taken) => push_note(&mut self.said, &taken.note),
            None => Ok(()),
        }
    }

    /// `frame` of bytes on connection 1, `answer` with the bytes of the answer, or `sealed` of a text under the connection's keys.
    pub fn frame(&mut self, word: &str, bytes: &[u8]) -> Result<(), Fault> {
        self.said.clear();
        if word == "sealed" {
            let frame = self.guarded(bytes)?;
            return self.told_of(frame.as_slice(), false);
        }
        self.told_of(bytes, word == "answer")
    }
}
