// `run` as the words ask for it.
ghost use Rattle.std.specs.Prelude.{◌≡◌, map, None};
ghost use Rattle.std.specs.String.{string_bytes};
ghost use Rattle.rand_core.specs.Stream.{fill_bytes};
ghost use Rattle.run_command.specs.Running.{RunEnds, RunsOver};
ghost use Rattle.run_command.specs.declared.ending.Ending.{Ending as RunEnding};
ghost use Rattle.serve_command.specs.Printing.{Prints, usage_line};
ghost use Rattle.serve_command.specs.declared.ending.Ending.{Ending};
ghost use Rattle.serve_command.specs.declared.ending.Ending.TheVariants.{Usage};
ghost use Rattle.smb311.specs.command.Top.{Runs, run_said, run_status, serve_status};

use crate::command::words::run_said;
use base_outside::{Address, Net, Sink, Source};
use rand_core::Rng;
use run_command::{Finished, run};
use serve_command::usage;
use std::alloc::Global;
use std::sync::Wait;
use std::thread::Threads;

/// A status, and the net.
#[derive(Drop)]
pub(crate) struct Left<N> {
    pub status: u8,
    pub net: N,
}

/// Runs a script as the words say, or tells what the words are, and answers the status.
pub(crate) fn run_by<W, S, O, N, R>(
    rt: &W,
    alloc: Global,
    words: &[String],
    source: &mut S,
    sink: &mut O,
    net: N,
    random: R,
) -> Left<N>
where
    W: Wait + Threads + Sync,
    S: Source,
    O: Sink,
    N: Net + Drop + Send,
    R: Rng + Drop,
    ensures ends { Runs (RunsOver N.L.told N.L.given N.L.left N.L.written N.L.faults N.L.ended N.faults)
        (fill_bytes 32 (R.stream random)).0 (fill_bytes 16 (fill_bytes 32 (R.stream random)).1).0 net result.net
        (S.left source.old) (S.left source.new) (S.faults source.old) (S.faults source.new) (O.written sink.old) (O.written sink.new)
        (O.faults sink.old) (O.faults sink.new) (run_said (map string_bytes words.now)) result.status }
    ensures words_first { run_said (map string_bytes words.now) ≡ None → source.new ≡ source.old }
{
    match run_said(words) {
        Some(at) => run_at(rt, alloc, at, source, sink, net, random),
        None => run_nothing(sink, net),
    }
}

fn run_at<W, S, O, N, R>(
    rt: &W,
    alloc: Global,
    at: Address,
    source: &mut S,
    sink: &mut O,
    net: N,
    mut random: R,
) -> Left<N>
where
    W: Wait + Threads + Sync,
    S: Source,
    O: Sink,
    N: Net + Drop + Send,
    R: Rng + Drop,
    ensures { (ending : RunEnding) × (result.status ≡ run_status ending)
        × RunEnds (RunsOver N.L.told N.L.given N.L.left N.L.written N.L.faults N.L.ended N.faults)
        (fill_bytes 32 (R.stream random)).0 (fill_bytes 16 (fill_bytes 32 (R.stream random)).1).0 (S.left source.old) (S.left source.new)
        (S.faults source.old) (S.faults source.new) (O.written sink.old) (O.written sink.new) (O.faults sink.old) (O.faults sink.new) net
        result.net ending }
{
    let finished = run(rt, alloc, at, source, sink, net, &mut random);
    let Finished { ending, net } = finished;
    Left {
        status: ending as u8,
        net,
    }
}

fn run_nothing<O: Sink, N: Drop>(sink: &mut O, net: N) -> Left<N>
    ensures net { result.net ≡ net }
    ensures prints { (ending : Ending) × (result.status ≡ serve_status ending)
        × Prints (O.written sink.old) (O.written sink.new) (O.faults sink.old) (O.faults sink.new) usage_line Usage ending }
{
    let ending = usage(sink);
    Left {
        status: ending as u8,
        net,
    }
}
