//! The program: `drill`, `gen` and `serve` by the words behind its name. It is a room because `main` and the one call
//! that it gives the machine to stand here. Nothing stands on it.
//!
//! The program: it does what the words behind its name ask, with the machine's input and output, net and clock, and the file
//! `smb311.journal` of its folder. What it draws comes from 32 bytes of the machine's source of random bytes.
#![tactic(auto)]

mod command;

use crate::command::{Ran, smb311};
use base_machine::{JournalFile, Shared, StdClock, StdNet, StdSink, StdSource};
use rand_chacha::ChaCha20Rng;
use rand_core::SeedableRng;
use std::alloc::AllocError;
use std::env;
use std::io::{Eprint, ErrorKind};
use std::net::{Net, TcpListener, TcpStream};
use std::process::ExitCode;
use std::random::RandomSource;
use std::rt::Env;
use std::sync::Wait;
use std::thread::Threads;
use std::time::Clock;

/// The status without random bytes. Then nothing is called.
const NO_RANDOM_BYTES: u8 = 1;

/// The status without memory for the words. Then nothing is called.
const NO_MEMORY: u8 = 8;

fn main(rt: HostRuntime) -> ExitCode {
    let mut seed = [0; 32];
    if rt.fill_bytes(&mut seed).is_err() {
        return ExitCode::from(NO_RANDOM_BYTES);
    }
    match words(&rt) {
        Ok(words) => ExitCode::from(status(&rt, &rt, words.as_slice(), seed)),
        Err(AllocError) => ExitCode::from(NO_MEMORY),
    }
}

// The words behind the program's name. Where one is not UTF-8 there are none, since no command has such a word.
fn words<R: Env + AllocGlobal>(rt: &R) -> Result<Vec<String>, AllocError> {
    match env::args(rt) {
        Ok(args) => args.skip(1).collect(rt.alloc()),
        Err(error) if error.kind() == ErrorKind::InvalidData => Ok(Vec::new(rt.alloc())),
        Err(_) => Err(AllocError),
    }
}

// What the one call answers that does all.
fn status<W>(rt: &W, host: &HostRuntime, words: &[String], seed: [u8; 32]) -> u8
where
    W: Wait + Threads + Sync + Net<Listener = TcpListener, Stream = TcpStream> + Clock + Eprint,
{
    let mut source = StdSource::new(host.stdin());
    let mut sink = StdSink::new(rt, host.stdout());
    let shared = Shared::new(host.alloc());
    // It opens nothing yet, so `drill`, `gen` and refused words make no file.
    let disk = JournalFile::new(rt, host, &shared);
    let (net, clock) = (StdNet::new(rt, &shared), StdClock::new(rt));
    let random = ChaCha20Rng::from_seed(seed);
    let ran = smb311(
        rt,
        host.alloc(),
        words,
        &mut source,
        &mut sink,
        disk,
        net,
        clock,
        random,
    );
    // Nothing listens any more when the end is told.
    let Ran {
        status,
        net: _,
        disk: _,
    } = ran;
    shared.tell_end(rt, status);
    status
}
