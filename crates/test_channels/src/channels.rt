// A client's channels against the command that serves.
ghost use Rattle.std.specs.Prelude.{IfOk};
ghost use Rattle.client_ends.specs.dialog_requests.Dialogs.{CanOffer};

use crate::calls::{AT, Served, serve_links};
use base_outside::{MemNet, Net};
use client_channels::{FreeGate, Gate, Ran, run_channels};
use client_ends::ClientConfig;
use client_events::Client;
use client_values::{OpKind, Outcome};
use std::alloc::{AllocError, Global};
use std::sync::Wait;
use std::sync::atomic::{AtomicU64, Ordering};
use std::test::Fail;
use std::thread::{self, Threads};
use wire_bytes::{Bytes, Numbers, Text};

/// How many turns a gate waits at most for the other channel, and how often it looks in each.
const TURNS: u32 = 1_000_000;

const LOOKS: u32 = 4_000;

/// GENERIC_READ and GENERIC_WRITE as FILE_READ_DATA, FILE_WRITE_DATA and what goes with them (MS-SMB2 2.2.13.1.1).
const READ_WRITE: u32 = 0x0012_019f;

/// FILE_CREATE (2.2.13)
const CREATE: u32 = 2;

fn client_config(alloc: Global) -> Result<ClientConfig, AllocError>
    ensures { IfOk result (λ config. CanOffer config) }
{
    let ciphers = Numbers::from_slice(alloc, &[2, 1, 4, 3])?;
    let signings = Numbers::from_slice(alloc, &[1, 2])?;
    Ok(ClientConfig {
        user: Text::from_str(alloc, "user")?,
        password: Text::from_str(alloc, "Password")?,
        share: Text::from_str(alloc, "data")?,
        ciphers,
        signings,
        guid: *b"smb311-client-01",
    })
}

fn create_of(alloc: Global, path: &str) -> Result<OpKind, AllocError> {
    Ok(OpKind::Create {
        path: Text::from_str(alloc, path)?,
        access: READ_WRITE,
        share: 0,
        disposition: CREATE,
        persist: false,
        directory: false,
    })
}

type Both = (Result<Served, AllocError>, Result<Client, AllocError>);

/// The client that so many channels leave of these operations.
fn run_client<W, N, G>(
    rt: &W,
    alloc: Global,
    net: N,
    channels: u32,
    ops: Vec<OpKind>,
    gate: &G,
) -> Result<Client, AllocError>
where
    W: Wait + Threads + Sync,
    N: Net + Drop + Send,
    G: Gate,
{
    let config = client_config(alloc)?;
    let ran = run_channels(rt, alloc, net, AT, channels, ops, &config, [9; 32], gate);
    let Ran { net: _net, client } = ran;
    client
}

/// A server and a client in two threads, over so many links and channels.
fn run_both<W, G>(
    rt: &W,
    alloc: Global,
    links: u32,
    channels: u32,
    ops: Vec<OpKind>,
    gate: &G,
) -> Result<Both, AllocError>
where
    W: Wait + Threads + Sync,
    G: Gate,
{
    let (ours, theirs) = MemNet::new(rt, alloc, links, Bytes::new(alloc), Bytes::new(alloc))?;
    Ok(thread::join(
        rt,
        move || serve_links(rt, alloc, links as usize, ours),
        move || run_client(rt, alloc, theirs, channels, ops, gate),
    ))
}

// Both ends by memory links: what is written over two channels is read, and each link has ended.
#[test]
fn two_channels_write_and_read(rt: HostRuntime) -> Result<(), Fail> {
    let alloc = rt.alloc();
    let mut ops = Vec::new(alloc);
    ops.push(create_of(alloc, "a.txt")?)?;
    ops.push(OpKind::Write {
        create: 1,
        at: 0,
        bytes: Bytes::from_slice(alloc, b"hello")?,
    })?;
    ops.push(OpKind::Read {
        create: 1,
        at: 0,
        length: 16,
    })?;
    ops.push(OpKind::Close { create: 1 })?;
    let (served, client) = run_both(&rt, alloc, 2, 2, ops, &FreeGate)?;
    let Served { ending, sink } = served?;
    let client = client?;
    let settled = client.table.settled.as_slice();
    assert_eq!(rt; settled.len(), 4);
    assert!(rt; matches!(settled[0], Outcome::Action(2)));
    assert!(rt; matches!(settled[1], Outcome::Count(5)));
    match &settled[2] {
        Outcome::Content(bytes) => assert_eq!(rt; bytes.as_slice(), b"hello".as_slice()),
        _ => assert!(rt; false),
    }
    assert!(rt; matches!(settled[3], Outcome::Done));
    assert_eq!(rt; ending as u8, 0);
    assert_eq!(rt;
        sink.bytes(),
        b"INFO connection 1 closed\nINFO connection 2 closed\n".as_slice()
    );
    Ok(())
}

/// The first channel waits for its fifth frame, the reply to its first operation, until the second has sent its fourth, which is its first
/// operation.
#[derive(Drop)]
struct Meeting {
    sent: AtomicU64,
    late: AtomicU64,
}

impl Meeting {
    fn sees(&self) -> bool {
        for _ in 0..LOOKS {
            if self.sent.load(Ordering::SeqCst) == 1 {
                return true;
            }
        }
        false
    }

    /// Waits until the second channel has come, at the latest behind all turns, which take seconds.
    fn comes(&self) -> bool {
        for _ in 0..TURNS {
            if self.sees() {
                return true;
            }
        }
        false
    }
}

impl Gate for Meeting {
    ghost bars = { λ gate channel turn. ⊥ };

    fn pass(&self, channel: u32, turn: u64) -> bool {
        if channel == 1 && turn == 3 {
            self.sent.store(1, Ordering::SeqCst);
        }
        if channel == 0 && turn == 4 && !self.comes() {
            self.late.store(1, Ordering::SeqCst);
        }
        true
    }
}

// A body that drives one channel after the other, or a server that serves one link after the other, lets the first wait in vain.
#[test]
fn two_channels_meet(rt: HostRuntime) -> Result<(), Fail> {
    let alloc = rt.alloc();
    let mut ops = Vec::new(alloc);
    ops.push(create_of(alloc, "a")?)?;
    ops.push(create_of(alloc, "b")?)?;
    let gate = Meeting {
        sent: AtomicU64::new(0),
        late: AtomicU64::new(0),
    };
    let (served, client) = run_both(&rt, alloc, 2, 2, ops, &gate)?;
    let Served {
        ending,
        sink: _sink,
    } = served?;
    let client = client?;
    let settled = client.table.settled.as_slice();
    assert_eq!(rt; settled.len(), 2);
    assert!(rt; matches!(settled[0], Outcome::Action(2)));
    assert!(rt; matches!(settled[1], Outcome::Action(2)));
    assert_eq!(rt; gate.late.load(Ordering::SeqCst), 0);
    assert_eq!(rt; ending as u8, 0);
    Ok(())
}
