//! The command.
ghost use Rattle.std.specs.Prelude.{◌≡◌, ℕ, List, Ok, IfOk};
ghost use Rattle.rand_core.specs.Stream.{fill_bytes};
ghost use Rattle.client_book.specs.Configuring.{IsClientOf};
ghost use Rattle.client_ends.specs.dialog_requests.Dialogs.{CanOffer};
ghost use Rattle.law_scripts.specs.script_setup.Scripts.{first_user};
ghost use Rattle.script_words.specs.text_lines.Script.{Read};
ghost use Rattle.script_words.specs.text_lines.Views.{read_of};
ghost use Rattle.run_command.specs.Asking.{WritesText};
ghost use Rattle.run_command.specs.Running.{GoesOn, IsReady, Leaves, RunEnds, RunsOver, ending_due};

use crate::asking::{asked, operations_of};
use crate::ending::Ending;
use crate::telling::{leaves_unknown, text_of};
use base_outside::{Address, Failed, Net, Sink, Source, write_all};
use client_book::client_config;
use client_channels::{FreeGate, Ran, run_channels};
use client_ends::ClientConfig;
use client_events::Client;
use client_values::OpKind;
use rand_core::Rng;
use script_words::text_lines::{Script, Settings};
use script_words::with_defaults;
use std::alloc::{AllocError, Global};
use std::sync::Wait;
use std::thread::Threads;

/// How the command ended, with the net.
#[derive(Drop)]
pub struct Finished<N> {
    pub ending: Ending,
    pub net: N,
}

/// What channels are given.
#[derive(Drop)]
pub struct Ready {
    pub config: ClientConfig,
    pub channels: u32,
    pub ops: Vec<OpKind>,
}

/// Reads settings and operations from a source, makes channels to a server at an address, and writes how each operation settled. It
/// draws the 32 bytes of a seed and behind them the client's GUID. Each ending has its cause: the source and the script are judged before
/// anything is sent.
pub fn run<W, S, O, N, R>(
    rt: &W,
    alloc: Global,
    at: Address,
    source: &mut S,
    sink: &mut O,
    net: N,
    random: &mut R,
) -> Finished<N>
where
    W: Wait + Threads + Sync,
    S: Source,
    O: Sink,
    N: Net + Drop + Send,
    R: Rng,
    ensures { RunEnds (RunsOver N.L.told N.L.given N.L.left N.L.written N.L.faults N.L.ended N.faults)
        (fill_bytes 32 (R.stream random.old)).0 (fill_bytes 16 (fill_bytes 32 (R.stream random.old)).1).0 (S.left source.old)
        (S.left source.new) (S.faults source.old) (S.faults source.new) (O.written sink.old) (O.written sink.new) (O.faults sink.old)
        (O.faults sink.new) net result.net result.ending }
{
    let seed = seed_from(random);
    let guid = guid_from(random);
    match asked(alloc, source, sink) {
        Ok(script) => run_script(rt, alloc, at, script, sink, net, seed, guid),
        Err(ending) => Finished { ending, net },
    }
}

fn seed_from<R: Rng>(random: &mut R) -> [u8; 32]
    ensures seed { result ≡ (fill_bytes 32 (R.stream random.old)).0 }
    ensures rest { R.stream random.new ≡ (fill_bytes 32 (R.stream random.old)).1 }
{
    let mut seed = [0; 32];
    random.fill_bytes(&mut seed);
    seed
}

fn guid_from<R: Rng>(random: &mut R) -> [u8; 16]
    ensures { result ≡ (fill_bytes 16 (R.stream random.old)).0 }
{
    let mut guid = [0; 16];
    random.fill_bytes(&mut guid);
    guid
}

/// The client logs on as the first user, which settings have. That they had none counts as memory that ran out.
fn first_client(
    alloc: Global,
    settings: &Settings,
    guid: [u8; 16],
) -> Result<ClientConfig, AllocError>
    ensures is { IfOk result (λ config. IsClientOf settings.now (first_user settings.now.users) guid config) }
    ensures offers { IfOk result (λ config. CanOffer config) }
{
    match settings.users.as_slice().split_first() {
        Some((user, _)) => client_config(alloc, settings, user, guid),
        None => Err(AllocError),
    }
}

/// What channels are given by a script that was read.
fn prepare(alloc: Global, asked: Script, guid: [u8; 16]) -> Result<Ready, AllocError>
    ensures is { IfOk result (λ ready. IsReady (read_of asked) guid ready) }
    ensures offers { IfOk result (λ ready. CanOffer ready.config) }
{
    let Script { given, lines } = asked;
    let settings = with_defaults(alloc, given)?;
    let config = first_client(alloc, &settings, guid)?;
    let ops = operations_of(alloc, lines)?;
    Ok(Ready {
        config,
        channels: settings.channels,
        ops,
    })
}

fn run_script<W, O, N>(
    rt: &W,
    alloc: Global,
    at: Address,
    asked: Script,
    sink: &mut O,
    net: N,
    seed: [u8; 32],
    guid: [u8; 16],
) -> Finished<N>
where
    W: Wait + Threads + Sync,
    O: Sink,
    N: Net + Drop + Send,
    ensures { GoesOn (RunsOver N.L.told N.L.given N.L.left N.L.written N.L.faults N.L.ended N.faults) seed guid (O.written sink.old)
        (O.written sink.new) (O.faults sink.old) (O.faults sink.new) (read_of asked) result.ending }
{
    match prepare(alloc, asked, guid) {
        Ok(ready) => run_ready(rt, alloc, at, ready, sink, net, seed),
        Err(AllocError) => Finished {
            ending: Ending::Memory,
            net,
        },
    }
}

fn run_ready<W, O, N>(
    rt: &W,
    alloc: Global,
    at: Address,
    ready: Ready,
    sink: &mut O,
    net: N,
    seed: [u8; 32],
) -> Finished<N>
where
    W: Wait + Threads + Sync,
    O: Sink,
    N: Net + Drop + Send,
    requires offers { CanOffer ready.config }
    ensures { (guid : List ℕ) (read : Read) → IsReady read guid ready
        → GoesOn (RunsOver N.L.told N.L.given N.L.left N.L.written N.L.faults N.L.ended N.faults) seed guid (O.written sink.old)
        (O.written sink.new) (O.faults sink.old) (O.faults sink.new) read result.ending }
{
    let Ready {
        config,
        channels,
        ops,
    } = ready;
    let ran = run_channels(rt, alloc, net, at, channels, ops, &config, seed, &FreeGate);
    let Ran { net, client } = ran;
    Finished {
        ending: told(alloc, &client, sink),
        net,
    }
}

/// Writes what channels left, and says how the command ends.
fn told<O: Sink>(alloc: Global, client: &Result<Client, AllocError>, sink: &mut O) -> Ending
    ensures { Leaves (O.written sink.old) (O.written sink.new) (O.faults sink.old) (O.faults sink.new) client.now result }
{
    match client {
        Ok(client) => told_of(alloc, client, sink),
        Err(_) => Ending::Memory,
    }
}

fn told_of<O: Sink>(alloc: Global, client: &Client, sink: &mut O) -> Ending
    ensures { Leaves (O.written sink.old) (O.written sink.new) (O.faults sink.old) (O.faults sink.new) (Ok client.now) result }
{
    // All text before a byte is written, so that where memory runs out nothing is.
    let table = &client.table;
    match text_of(
        alloc,
        table.dialogs.as_slice(),
        table.ops.as_slice(),
        table.settled.as_slice(),
        table.order.as_slice(),
    ) {
        Ok(text) => written(sink, text.as_str(), ending_due(client)),
        Err(AllocError) => Ending::Memory,
    }
}

fn ending_due(client: &Client) -> Ending
    ensures { result ≡ ending_due client.now }
{
    if leaves_unknown(client.table.settled.as_slice()) {
        return Ending::Unknown;
    }
    Ending::Done
}

/// Writes a text, behind which the command ends so.
fn written<O: Sink>(sink: &mut O, text: &str, due: Ending) -> Ending
    ensures { WritesText (O.written sink.old) (O.written sink.new) (O.faults sink.old) (O.faults sink.new) text.now due result }
{
    match write_all(sink, text.as_bytes()) {
        Ok(()) => due,
        Err(Failed) => Ending::SinkFailed,
    }
}
