use crate::calls::{AT, Outcome, empty_disk, served_alone};
use crate::meeting::{MeetingNet, Replies};
use base_outside::{Failed, Link, MemNet, MemRenewal, Net};
use std::alloc::{AllocError, Global};
use std::sync::Wait;
use std::test::Fail;
use std::thread::{self, Threads};
use std::time;
use wire_bytes::Bytes;

/// A NEGOTIATE of 3.1.1 (MS-SMB2 2.2.3) behind its length, with the context PREAUTH_INTEGRITY_CAPABILITIES alone (2.2.3.1.1): SHA-512 and a
/// salt of 32 bytes.
const NEGOTIATE: &str = concat!(
    "00000096fe534d4240000000000000000000010000000000000000000000000000000000000000000000000000000000",
    "000000000000000000000000000000000000000024000100010000000000000001010101010101010101010101010101",
    "6800000001000000110300000100260000000000010020000100000102030405060708090a0b0c0d0e0f101112131415",
    "161718191a1b1c1d1e1f"
);

// True where a whole header of a response with STATUS_SUCCESS comes (MS-SMB2 2.2.1.2).
fn is_answered<L: Link>(link: &mut L) -> Result<bool, Failed> {
    let mut into = [0u8; 4096];
    let held = link.read(&mut into)?;
    let succeeded = into[12] == 0 && into[13] == 0 && into[14] == 0 && into[15] == 0;
    Ok(held > 68 && succeeded)
}

// Makes two links, says NEGOTIATE on each, and waits for the answer on the second and then for that on the first. Both end behind that.
fn meet<N: Net + Drop>(mut net: N, message: &[u8]) -> Result<(bool, bool), Failed> {
    let mut first = net.connect(AT)?;
    let mut second = net.connect(AT)?;
    first.write(message)?;
    second.write(message)?;
    let of_second = is_answered(&mut second)?;
    let of_first = is_answered(&mut first)?;
    Ok((of_first, of_second))
}

type Met = (
    Result<Outcome<MemRenewal>, AllocError>,
    Result<(bool, bool), Failed>,
);

fn in_two_threads<W: Wait + Threads + Sync + time::Clock>(
    rt: &W,
    alloc: Global,
    replies: &Replies,
    disk: MemRenewal,
    message: &[u8],
) -> Result<Met, AllocError> {
    let (ours, theirs) = MemNet::new(rt, alloc, 2, Bytes::new(alloc), Bytes::new(alloc))?;
    let ours = MeetingNet::new(rt, replies, ours, message.len());
    Ok(thread::join(
        rt,
        move || served_alone(rt, alloc, 2, disk, ours),
        move || meet(theirs, message),
    ))
}

// A body that serves one link after the other, in either order, lets one of them wait in vain.
#[test]
fn two_links_meet(rt: HostRuntime) -> Result<(), Fail> {
    let alloc = rt.alloc();
    let message = hex::decode(alloc, NEGOTIATE)?;
    let disk = empty_disk(alloc)?;
    let replies = Replies::new();
    let (served, met) = in_two_threads(&rt, alloc, &replies, disk, message.as_slice())?;
    let Outcome {
        ending,
        sink,
        disk: _disk,
    } = served?;
    assert!(rt; replies.are_in_time());
    assert_eq!(rt; met, Ok((true, true)));
    assert_eq!(rt; ending as u8, 0);
    assert_eq!(rt;
        sink.bytes(),
        b"INFO connection 1 closed\nINFO connection 2 closed\n".as_slice()
    );
    Ok(())
}

// Makes a link, says NEGOTIATE on it, waits for the answer, and ends it.
fn answered_alone<N: Net>(net: &mut N, message: &[u8]) -> Result<bool, Failed> {
    let mut link = net.connect(AT)?;
    link.write(message)?;
    is_answered(&mut link)
}

// The first link says nothing until three more have come, each behind one that has ended.
fn come_behind_ended<N: Net + Drop>(
    mut net: N,
    message: &[u8],
) -> Result<(bool, [bool; 3]), Failed> {
    let mut first = net.connect(AT)?;
    let second = answered_alone(&mut net, message)?;
    let third = answered_alone(&mut net, message)?;
    let fourth = answered_alone(&mut net, message)?;
    first.write(message)?;
    Ok((is_answered(&mut first)?, [second, third, fourth]))
}

// A body that forgets a connection behind which a third, or a fourth, was accepted leaves its line out.
#[test]
fn a_third_and_a_fourth_link_come_behind_ended_ones(rt: HostRuntime) -> Result<(), Fail> {
    let alloc = rt.alloc();
    let message = hex::decode(alloc, NEGOTIATE)?;
    let message = message.as_slice();
    let disk = empty_disk(alloc)?;
    let (ours, theirs) = MemNet::new(&rt, alloc, 4, Bytes::new(alloc), Bytes::new(alloc))?;
    let (served, came) = thread::join(
        &rt,
        || served_alone(&rt, alloc, 4, disk, ours),
        || come_behind_ended(theirs, message),
    );
    let Outcome {
        ending,
        sink,
        disk: _disk,
    } = served?;
    assert_eq!(rt; came, Ok((true, [true; 3])));
    assert_eq!(rt; ending as u8, 0);
    assert_eq!(rt;
        sink.bytes(),
        concat!(
            "INFO connection 1 closed\n",
            "INFO connection 2 closed\n",
            "INFO connection 3 closed\n",
            "INFO connection 4 closed\n"
        )
        .as_bytes()
    );
    Ok(())
}
