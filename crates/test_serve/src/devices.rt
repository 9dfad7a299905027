use crate::calls::{AT, Outcome, disk_with, empty_disk, served_alone, served_with};
use crate::files::{CREATE, OPEN, logged_on, while_one_creates};
use base_outside::{Link, MemNet, MemRenewal, MemSink, MemSource, Net};
use serve_command::Ending;
use std::alloc::{AllocError, Global};
use std::process::Abort;
use std::sync::Wait;
use std::test::Fail;
use std::thread::{self, Threads};
use test_peer::{Client, FailingNet, failing_at};
use wire_bytes::Bytes;

/// Whether a file was made, and how many bytes were written, as a peer was told.
type Told = (bool, Option<u32>);

// Makes a file and writes two bytes.
fn told_of<N: Net>(alloc: Global, net: &mut N, path: &str) -> Told {
    let Some(mut client) = logged_on(alloc, net) else {
        return (false, None);
    };
    let Some(file) = client.create(path, CREATE) else {
        return (false, None);
    };
    (true, client.write(file, 0, b"ab"))
}

// The same of two files, over a link each.
fn told_of_both<N: Net + Drop>(alloc: Global, mut net: N) -> (Told, Told) {
    let first = told_of(alloc, &mut net, "a");
    let second = told_of(alloc, &mut net, "b");
    (first, second)
}

// How long a file is that has at most 16 bytes, if it is there.
fn length_of<L: Link + Drop>(client: &mut Client<L>, path: &str) -> Option<usize> {
    let file = client.create(path, OPEN)?;
    match client.read(file, 0, 16) {
        Some(bytes) => Some(bytes.len()),
        None => Some(0),
    }
}

/// How long `a` and `b` are.
type Found = (Option<usize>, Option<usize>);

fn found_by<N: Net + Drop>(alloc: Global, mut net: N) -> Option<Found> {
    let mut client = logged_on(alloc, &mut net)?;
    let of_a = length_of(&mut client, "a");
    Some((of_a, length_of(&mut client, "b")))
}

// How a new server on a disk ends, and what a peer finds there.
fn found_on<W: Wait + Threads + Sync>(
    rt: &W,
    alloc: Global,
    disk: Option<MemRenewal>,
) -> Result<(Ending, Option<Found>), Fail> {
    let Some(disk) = disk else {
        return Err(Fail::new("no disk"));
    };
    let (ours, theirs) = MemNet::new(rt, alloc, 1, Bytes::new(alloc), Bytes::new(alloc))?;
    let (served, found) = thread::join(
        rt,
        move || served_alone(rt, alloc, 1, disk, ours),
        move || found_by(alloc, theirs),
    );
    let Outcome {
        ending,
        sink: _sink,
        disk: _disk,
    } = served?;
    Ok((ending, found))
}

type Both<T> = (Result<Outcome<MemRenewal>, AllocError>, T);

// Two links of which the first fails at the server's end.
fn while_a_link_fails<W: Wait + Threads + Sync>(
    rt: &W,
    alloc: Global,
    call: usize,
) -> Result<Both<(Told, Told)>, AllocError> {
    let disk = empty_disk(alloc)?;
    let (ours, theirs) = MemNet::new(rt, alloc, 2, Bytes::new(alloc), Bytes::new(alloc))?;
    let ours = FailingNet::new(alloc, ours, failing_at(alloc, call)?);
    Ok(thread::join(
        rt,
        move || served_alone(rt, alloc, 2, disk, ours),
        move || told_of_both(alloc, theirs),
    ))
}

// A peer asks six times: NEGOTIATE, two SESSION_SETUPs, TREE_CONNECT, CREATE and WRITE. So the server's end reads at its calls 0, 2 .. 10,
// answers behind each, and reads the peer's end at call 12.
fn a_link_fails<W: Wait + Threads + Sync + Abort>(
    rt: &W,
    alloc: Global,
    call: usize,
) -> Result<(), Fail> {
    let (served, told) = while_a_link_fails(rt, alloc, call)?;
    let Outcome { ending, sink, disk } = served?;
    assert_eq!(rt; ending, Ending::Done, "{call}");
    let lines = if call <= 12 {
        "ERROR connection 1 link-fault\nINFO connection 2 closed\n"
    } else {
        "INFO connection 1 closed\nINFO connection 2 closed\n"
    };
    assert_eq!(rt; sink.bytes(), lines.as_bytes(), "{call}");
    let written = if call <= 11 { None } else { Some(2) };
    assert_eq!(rt; told, ((call > 9, written), (true, Some(2))), "{call}");
    let length = if call <= 10 { 0 } else { 2 };
    let of_a = if call <= 8 { None } else { Some(length) };
    let found = (Ending::Done, Some((of_a, Some(2))));
    assert_eq!(rt; found_on(rt, alloc, disk)?, found, "{call}");
    Ok(())
}

// The connection ends, another goes on, and a new server finds what was acknowledged.
#[test]
fn a_link_that_fails_ends_its_connection(rt: HostRuntime) -> Result<(), Fail> {
    for call in 0..14 {
        a_link_fails(&rt, rt.alloc(), call)?;
    }
    Ok(())
}

// A start on an empty disk makes twelve calls. In front of the first event the journal is written anew by five: a draft, its mark, a body, a
// gate, and that it takes the journal's place. An event's records take four: their bytes, a sync, their gate, and a sync.
fn a_disk_fails<W: Wait + Threads + Sync + Abort>(
    rt: &W,
    alloc: Global,
    call: usize,
) -> Result<(), Fail> {
    let failing = failing_at(alloc, call)?;
    let disk = disk_with(alloc, Bytes::new(alloc), failing)?;
    let (served, created) = while_one_creates(rt, alloc, disk)?;
    let Outcome { ending, sink, disk } = served?;
    let due = if call <= 20 {
        Ending::DiskFailed
    } else {
        Ending::Done
    };
    assert_eq!(rt; ending, due, "{call}");
    let lines = if call <= 20 {
        ""
    } else {
        "INFO connection 1 closed\n"
    };
    assert_eq!(rt; sink.bytes(), lines.as_bytes(), "{call}");
    let answered = if call <= 16 { None } else { Some(call > 20) };
    assert_eq!(rt; created, answered, "{call}");
    // With its gate open the body stands, answered or not. Call 21 is the first one of the new server.
    let of_a = if call <= 19 { None } else { Some(0) };
    let found = if call <= 20 {
        (Ending::Done, Some((of_a, None)))
    } else {
        (Ending::DiskFailed, None)
    };
    assert_eq!(rt; found_on(rt, alloc, disk)?, found, "{call}");
    Ok(())
}

#[test]
fn a_disk_that_fails_ends_the_server_without_an_answer(rt: HostRuntime) -> Result<(), Fail> {
    for call in 0..22 {
        a_disk_fails(&rt, rt.alloc(), call)?;
    }
    Ok(())
}

// Call 0 of the server's side is to listen, 1 and 2 are to accept; the peer's calls 0 and 1 are to connect.
fn a_net_fails<W: Wait + Threads + Sync + Abort>(
    rt: &W,
    alloc: Global,
    call: usize,
) -> Result<(), Fail> {
    let disk = empty_disk(alloc)?;
    let failing = failing_at(alloc, call)?;
    let (ours, theirs) = MemNet::new(rt, alloc, 2, failing, Bytes::new(alloc))?;
    let (served, told) = thread::join(
        rt,
        move || served_alone(rt, alloc, 2, disk, ours),
        move || told_of_both(alloc, theirs),
    );
    let Outcome { ending, sink, disk } = served?;
    let due = if call <= 2 {
        Ending::NetFailed
    } else {
        Ending::Done
    };
    assert_eq!(rt; ending, due, "{call}");
    let lines = if call <= 2 {
        ""
    } else {
        "INFO connection 1 closed\nINFO connection 2 closed\n"
    };
    assert_eq!(rt; sink.bytes(), lines.as_bytes(), "{call}");
    let nothing = (false, None);
    let all = (true, Some(2));
    let first = if call <= 1 { nothing } else { all };
    let second = if call <= 2 { nothing } else { all };
    assert_eq!(rt; told, (first, second), "{call}");
    let of_a = if call <= 1 { None } else { Some(2) };
    let of_b = if call <= 2 { None } else { Some(2) };
    let found = (Ending::Done, Some((of_a, of_b)));
    assert_eq!(rt; found_on(rt, alloc, disk)?, found, "{call}");
    Ok(())
}

// Connections that were accepted before are served to their end.
#[test]
fn a_net_that_fails_ends_the_server(rt: HostRuntime) -> Result<(), Fail> {
    for call in 0..4 {
        a_net_fails(&rt, rt.alloc(), call)?;
    }
    Ok(())
}

/// How the command ends whose source and sink fail at these calls, where nobody can connect, and what it printed.
fn ended_with<W: Wait + Threads + Sync>(
    rt: &W,
    alloc: Global,
    settings: &str,
    source_fails: usize,
    sink_fails: usize,
) -> Result<(Ending, MemSink), AllocError> {
    let settings = Bytes::from_slice(alloc, settings.as_bytes())?;
    let mut source = MemSource::new(alloc, settings, failing_at(alloc, source_fails)?)?;
    let mut sink = MemSink::new(alloc, failing_at(alloc, sink_fails)?)?;
    let disk = empty_disk(alloc)?;
    let (net, _other) = MemNet::new(rt, alloc, 0, Bytes::new(alloc), Bytes::new(alloc))?;
    let (ending, _disk) = served_with(rt, alloc, AT, 1, &mut source, &mut sink, disk, net);
    Ok((ending, sink))
}

// The source is read twice, for what it has and for its end; a refused line is one write.
#[test]
fn a_source_or_a_sink_that_fails_ends_it(rt: HostRuntime) -> Result<(), Fail> {
    let alloc = rt.alloc();
    for call in 0..3 {
        let (ending, sink) = ended_with(&rt, alloc, "share data\n", call, 9)?;
        let due = if call <= 1 {
            Ending::SourceFailed
        } else {
            Ending::NetFailed
        };
        assert_eq!(rt; ending, due, "{call}");
        assert_eq!(rt; sink.bytes(), b"".as_slice(), "{call}");
    }
    for call in 0..2 {
        let (ending, sink) = ended_with(&rt, alloc, "share\n", 9, call)?;
        let due = if call == 0 {
            Ending::SinkFailed
        } else {
            Ending::Settings
        };
        assert_eq!(rt; ending, due, "{call}");
        let lines = if call == 0 { "" } else { "line 1 bad-line\n" };
        assert_eq!(rt; sink.bytes(), lines.as_bytes(), "{call}");
    }
    Ok(())
}
