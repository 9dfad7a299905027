use crate::calls::{AT, Outcome, empty_disk, served_alone};
use base_outside::{MemNet, MemRenewal, Net};
use serve_command::Ending;
use std::alloc::{AllocError, Global};
use std::process::Abort;
use std::sync::Wait;
use std::test::Fail;
use std::thread::{self, Threads};
use test_peer::{Client, Fresh, plain_config};
use wire_bytes::Bytes;

/// FILE_CREATE and FILE_OPEN (MS-SMB2 2.2.13)
pub(crate) const CREATE: u32 = 2;

pub(crate) const OPEN: u32 = 1;

pub(crate) fn logged_on<N: Net>(alloc: Global, net: &mut N) -> Option<Client<N::L>> {
    let link = net.connect(AT).ok()?;
    let config = plain_config(alloc).ok()?;
    let fresh = Fresh {
        salt: [1; 32],
        challenge: [2; 8],
        key: [3; 16],
    };
    Client::log_on(alloc, link, &config, fresh)
}

// Makes the file `a`, and says how many bytes were written into it.
fn writes<N: Net + Drop>(alloc: Global, mut net: N) -> Option<u32> {
    let mut client = logged_on(alloc, &mut net)?;
    let file = client.create("a", CREATE)?;
    client.write(file, 0, b"ab")
}

// Gives what stands in it.
fn reads<N: Net + Drop>(alloc: Global, mut net: N) -> Option<Bytes> {
    let mut client = logged_on(alloc, &mut net)?;
    let file = client.create("a", OPEN)?;
    client.read(file, 0, 16)
}

// Whether a file can be created; `None` where nobody logs on.
fn creates<N: Net + Drop>(alloc: Global, mut net: N) -> Option<bool> {
    let mut client = logged_on(alloc, &mut net)?;
    Some(client.create("a", CREATE).is_some())
}

type Both<T> = (Result<Outcome<MemRenewal>, AllocError>, Option<T>);

fn while_one_writes<W: Wait + Threads + Sync>(
    rt: &W,
    alloc: Global,
    disk: MemRenewal,
) -> Result<Both<u32>, AllocError> {
    let (ours, theirs) = MemNet::new(rt, alloc, 1, Bytes::new(alloc), Bytes::new(alloc))?;
    Ok(thread::join(
        rt,
        move || served_alone(rt, alloc, 1, disk, ours),
        move || writes(alloc, theirs),
    ))
}

pub(crate) fn while_one_reads<W: Wait + Threads + Sync>(
    rt: &W,
    alloc: Global,
    disk: MemRenewal,
) -> Result<Both<Bytes>, AllocError> {
    let (ours, theirs) = MemNet::new(rt, alloc, 1, Bytes::new(alloc), Bytes::new(alloc))?;
    Ok(thread::join(
        rt,
        move || served_alone(rt, alloc, 1, disk, ours),
        move || reads(alloc, theirs),
    ))
}

pub(crate) fn while_one_creates<W: Wait + Threads + Sync>(
    rt: &W,
    alloc: Global,
    disk: MemRenewal,
) -> Result<Both<bool>, AllocError> {
    let (ours, theirs) = MemNet::new(rt, alloc, 1, Bytes::new(alloc), Bytes::new(alloc))?;
    Ok(thread::join(
        rt,
        move || served_alone(rt, alloc, 1, disk, ours),
        move || creates(alloc, theirs),
    ))
}

pub(crate) fn is_done<W: Abort>(rt: &W, served: &Outcome<MemRenewal>) {
    assert_eq!(rt; served.ending, Ending::Done);
    assert_eq!(rt;
        served.sink.bytes(),
        b"INFO connection 1 closed\n".as_slice()
    );
}

#[test]
fn a_file_outlives_its_server(rt: HostRuntime) -> Result<(), Fail> {
    let alloc = rt.alloc();
    let disk = empty_disk(alloc)?;
    let (served, count) = while_one_writes(&rt, alloc, disk)?;
    let served = served?;
    assert_eq!(rt; count, Some(2));
    is_done(&rt, &served);
    let Outcome {
        ending: _,
        sink: _sink,
        disk,
    } = served;
    let Some(disk) = disk else {
        return Err(Fail::new("no disk"));
    };
    let (served, bytes) = while_one_reads(&rt, alloc, disk)?;
    is_done(&rt, &served?);
    assert_eq!(rt; bytes.ok_or("no bytes")?.as_slice(), b"ab".as_slice());
    Ok(())
}
