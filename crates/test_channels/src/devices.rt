// A script of the client's command while a link fails.
use crate::calls::{Served, serve_links};
use crate::commands::{Told, run_once};
use base_outside::MemNet;
use std::alloc::{AllocError, Global};
use std::process::Abort;
use std::sync::Wait;
use std::test::Fail;
use std::thread::{self, Threads};
use test_peer::{FailingNet, failing_at};
use wire_bytes::Bytes;

/// An open that outlives its session, so that each operation can be asked for again.
const SCRIPT: &str =
    "op create a.txt rw - create persist\nop write 1 0 68656c6c6f\nop read 1 0 16\nop close 1\n";

/// More links than two channels need, so that a server that counts them ends only because nobody connects any more.
const LINKS: u32 = 12;

type Both = (Result<Served, AllocError>, Result<Told, AllocError>);

// A server and a client of two channels. The first link fails at its calls by these plans, at the server's end and at the client's.
fn while_a_link_fails<W: Wait + Threads + Sync>(
    rt: &W,
    alloc: Global,
    at_server: Bytes,
    at_client: Bytes,
) -> Result<Both, AllocError> {
    let (ours, theirs) = MemNet::new(rt, alloc, LINKS, Bytes::new(alloc), Bytes::new(alloc))?;
    let ours = FailingNet::new(alloc, ours, at_server);
    let theirs = FailingNet::new(alloc, theirs, at_client);
    Ok(thread::join(
        rt,
        move || serve_links(rt, alloc, LINKS as usize, ours),
        move || run_once(
            rt,
            alloc,
            SCRIPT,
            Bytes::new(alloc),
            Bytes::new(alloc),
            theirs,
        ),
    ))
}

// All is done all the same. In front of the outcomes may stand that a binding was refused, where its session had just gone.
fn is_done<W: Abort>(rt: &W, both: Both, call: usize) -> Result<(), Fail> {
    let (served, told) = both;
    let Served {
        ending,
        sink: _sink,
    } = served?;
    assert_eq!(rt; ending as u8, 7, "{call}");
    let Told { ending, sink } = told?;
    assert_eq!(rt; ending as u8, 0, "{call}");
    let outcomes =
        b"1 ok created\n2 ok 5\n3 ok 68656c6c6f\n4 ok\norder 1 2 3\nfile a.txt 5 68656c6c6f\n".as_slice();
    assert!(rt; sink.bytes().ends_with(outcomes), "{call}");
    Ok(())
}

// A dialog makes eight calls at each end, and an operation two.
#[test]
fn a_link_that_fails_at_the_server_loses_no_operation(rt: HostRuntime) -> Result<(), Fail> {
    let alloc = rt.alloc();
    for call in 0..17 {
        let failing = failing_at(alloc, call)?;
        let both = while_a_link_fails(&rt, alloc, failing, Bytes::new(alloc))?;
        is_done(&rt, both, call)?;
    }
    Ok(())
}

#[test]
fn a_link_that_fails_at_the_client_loses_no_operation(rt: HostRuntime) -> Result<(), Fail> {
    let alloc = rt.alloc();
    for call in 0..17 {
        let failing = failing_at(alloc, call)?;
        let both = while_a_link_fails(&rt, alloc, Bytes::new(alloc), failing)?;
        is_done(&rt, both, call)?;
    }
    Ok(())
}
