use crate::calls::{Outcome, disk_with, served_alone};
use crate::files::{CREATE, is_done, logged_on, while_one_reads};
use base_outside::{MemDisk, MemNet, MemRenewal, Net};
use std::alloc::{AllocError, Global};
use std::process::Abort;
use std::sync::Wait;
use std::test::Fail;
use std::thread::{self, Threads};
use wire_bytes::Bytes;

/// How often the file is overwritten, by so many bytes.
const TIMES: usize = 60;

const SIZE: usize = 1_000;

// Makes a file, writes it over and over, and says how often that was answered.
fn overwrites<N: Net + Drop>(alloc: Global, mut net: N) -> Option<usize> {
    let mut client = logged_on(alloc, &mut net)?;
    let file = client.create("a", CREATE)?;
    let mut done = 0usize;
    for time in 0..TIMES {
        let bytes = [time as u8; SIZE];
        if client.write(file, 0, &bytes)? as usize == SIZE {
            done = done.saturating_add(1);
        }
    }
    Some(done)
}

type Both<T> = (Result<Outcome<MemRenewal>, AllocError>, Option<T>);

fn while_one_overwrites<W: Wait + Threads + Sync>(
    rt: &W,
    alloc: Global,
    disk: MemRenewal,
) -> Result<Both<usize>, AllocError> {
    let (ours, theirs) = MemNet::new(rt, alloc, 1, Bytes::new(alloc), Bytes::new(alloc))?;
    Ok(thread::join(
        rt,
        move || served_alone(rt, alloc, 1, disk, ours),
        move || overwrites(alloc, theirs),
    ))
}

// The bytes that a server left, which ended as it should.
fn left_by<W: Abort>(rt: &W, alloc: Global, served: Outcome<MemRenewal>) -> Result<Bytes, Fail> {
    is_done(rt, &served);
    let Outcome {
        ending: _,
        sink: _sink,
        disk,
    } = served;
    let Some(disk) = disk else {
        return Err(Fail::new("no disk"));
    };
    Ok(Bytes::from_slice(alloc, disk.bytes())?)
}

// Without room for a draft the journal stays of its first form, and only grows. With room the next server writes it anew in front of its
// first event, and a third one finds what was written last.
#[test]
fn overwrites_go_where_the_journal_is_written_anew(rt: HostRuntime) -> Result<(), Fail> {
    let alloc = rt.alloc();
    let empty = MemDisk::new(alloc, Bytes::new(alloc), Bytes::new(alloc))?;
    let narrow = MemRenewal::new(alloc, empty, 0);
    let (served, count) = while_one_overwrites(&rt, alloc, narrow)?;
    assert_eq!(rt; count, Some(TIMES));
    let long = left_by(&rt, alloc, served?)?;
    assert!(rt; long.as_slice().starts_with(b"smb311j1"));
    assert!(rt; long.len() > TIMES * SIZE);
    let wide = disk_with(alloc, long, Bytes::new(alloc))?;
    let (served, bytes) = while_one_reads(&rt, alloc, wide)?;
    assert_eq!(rt; bytes.ok_or("no bytes")?.as_slice(), [59u8; 16].as_slice());
    let short = left_by(&rt, alloc, served?)?;
    assert!(rt; short.as_slice().starts_with(b"smb311j2"));
    let last = disk_with(alloc, short, Bytes::new(alloc))?;
    let (served, bytes) = while_one_reads(&rt, alloc, last)?;
    is_done(&rt, &served?);
    assert_eq!(rt; bytes.ok_or("no bytes")?.as_slice(), [59u8; 16].as_slice());
    Ok(())
}
