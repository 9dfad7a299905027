// The command that runs a script at a server.
use crate::calls::{AT, Served, serve_links};
use base_outside::{MemNet, MemSink, MemSource, Net};
use rand_chacha::ChaCha20Rng;
use rand_core::SeedableRng;
use run_command::{Ending, Finished, run};
use std::alloc::{AllocError, Global};
use std::process::Abort;
use std::sync::Wait;
use std::test::Fail;
use std::thread::{self, Threads};
use test_peer::failing_at;
use wire_bytes::Bytes;

const SCRIPT: &str =
    "op create a.txt rw - create plain\nop write 1 0 68656c6c6f\nop read 1 0 16\nop close 1\n";

/// How the client's command ended, and what it printed.
#[derive(Drop)]
pub(crate) struct Told {
    pub ending: Ending,
    pub sink: MemSink,
}

/// The command on a script; call `k` of its source and of its sink fails where byte `k` of these is 1.
pub(crate) fn run_once<W, N>(
    rt: &W,
    alloc: Global,
    script: &str,
    source_fails: Bytes,
    sink_fails: Bytes,
    net: N,
) -> Result<Told, AllocError>
where
    W: Wait + Threads + Sync,
    N: Net + Drop + Send,
{
    let script = Bytes::from_slice(alloc, script.as_bytes())?;
    let mut source = MemSource::new(alloc, script, source_fails)?;
    let mut sink = MemSink::new(alloc, sink_fails)?;
    let mut random = ChaCha20Rng::from_seed([3; 32]);
    let finished = run(rt, alloc, AT, &mut source, &mut sink, net, &mut random);
    let Finished { ending, net: _net } = finished;
    Ok(Told { ending, sink })
}

// Both commands in one process, over two links in memory.
#[test]
fn a_script_runs_over_two_channels(rt: HostRuntime) -> Result<(), Fail> {
    let alloc = rt.alloc();
    let rt = &rt;
    let (ours, theirs) = MemNet::new(rt, alloc, 2, Bytes::new(alloc), Bytes::new(alloc))?;
    let (served, told) = thread::join(
        rt,
        move || serve_links(rt, alloc, 2, ours),
        move || run_once(
            rt,
            alloc,
            SCRIPT,
            Bytes::new(alloc),
            Bytes::new(alloc),
            theirs,
        ),
    );
    let Served { ending, sink } = served?;
    assert_eq!(rt; ending as u8, 0);
    assert_eq!(rt;
        sink.bytes(),
        b"INFO connection 1 closed\nINFO connection 2 closed\n".as_slice()
    );
    let Told { ending, sink } = told?;
    assert_eq!(rt; ending as u8, 0);
    assert_eq!(rt;
        sink.bytes(),
        b"1 ok created\n2 ok 5\n3 ok 68656c6c6f\n4 ok\norder 1 2 3\nfile a.txt 5 68656c6c6f\n".as_slice()
    );
    Ok(())
}

/// No call of an object that a run makes has this number.
const NEVER: usize = 99;

/// How it ends where no link can be had and these calls of its source and its sink fail, and what it prints.
fn ends_alone<W: Wait + Threads + Sync + Abort>(
    rt: &W,
    alloc: Global,
    script: &str,
    source_fails: usize,
    sink_fails: usize,
    status: u8,
    text: &str,
) -> Result<(), Fail> {
    let (net, _other) = MemNet::new(rt, alloc, 0, Bytes::new(alloc), Bytes::new(alloc))?;
    let source_fails = failing_at(alloc, source_fails)?;
    let sink_fails = failing_at(alloc, sink_fails)?;
    let Told { ending, sink } = run_once(rt, alloc, script, source_fails, sink_fails, net)?;
    assert_eq!(rt; ending as u8, status);
    assert_eq!(rt; sink.bytes(), text.as_bytes());
    Ok(())
}

#[test]
fn each_ending_has_its_cause(rt: HostRuntime) -> Result<(), Fail> {
    let alloc = rt.alloc();
    let create = "op create a rw - create plain\n";
    let given_up = "1 unknown gave-up 8\n";
    ends_alone(&rt, alloc, "", NEVER, NEVER, 0, "")?;
    ends_alone(&rt, alloc, create, NEVER, NEVER, 11, given_up)?;
    ends_alone(
        &rt,
        alloc,
        "channels 0\n",
        NEVER,
        NEVER,
        3,
        "line 1 bad-line\n",
    )?;
    // The source is read for what it has, and for its end; all text is one write.
    ends_alone(&rt, alloc, create, 0, NEVER, 4, "")?;
    ends_alone(&rt, alloc, create, 1, NEVER, 4, "")?;
    ends_alone(&rt, alloc, create, 2, NEVER, 11, given_up)?;
    ends_alone(&rt, alloc, create, NEVER, 0, 5, "")?;
    ends_alone(&rt, alloc, create, NEVER, 1, 11, given_up)
}
