use crate::calls::{AT, Outcome, disk_with, served_alone, served_with};
use crate::full_disk::FullDisk;
use base_outside::{Address, MemNet, MemRenewal, MemSink, MemSource, Printed, Watch};
use serve_command::{config_in, usage};
use std::alloc::{AllocError, Global};
use std::process::Abort;
use std::sync::Wait;
use std::test::Fail;
use std::thread::Threads;
use wire_bytes::Bytes;

/// An address that other machines reach.
const OPEN: Address = Address {
    ip: 0x0a00_0001,
    port: 4450,
};

/// What is served with: the address, the settings, the bytes of the disk, and whether the first call of each outside thing fails.
#[derive(Clone, Copy)]
struct Outside<'a> {
    address: Address,
    settings: &'a str,
    disk: &'a str,
    source_fails: u8,
    sink_fails: u8,
    disk_fails: u8,
    net_fails: u8,
}

/// Nothing fails, no settings are given, and the disk is empty.
const CALM: Outside<'static> = Outside {
    address: AT,
    settings: "",
    disk: "",
    source_fails: 0,
    sink_fails: 0,
    disk_fails: 0,
    net_fails: 0,
};

fn bytes_of(alloc: Global, text: &str) -> Result<Bytes, AllocError> {
    Bytes::from_slice(alloc, text.as_bytes())
}

fn first_call(alloc: Global, fails: u8) -> Result<Bytes, AllocError> {
    Bytes::from_slice(alloc, &[fails])
}

fn source_of(alloc: Global, outside: &Outside<'_>) -> Result<MemSource, AllocError> {
    let failing = first_call(alloc, outside.source_fails)?;
    MemSource::new(alloc, bytes_of(alloc, outside.settings)?, failing)
}

fn disk_of(alloc: Global, outside: &Outside<'_>) -> Result<MemRenewal, AllocError> {
    let failing = first_call(alloc, outside.disk_fails)?;
    disk_with(alloc, bytes_of(alloc, outside.disk)?, failing)
}

// A side of a net over which no link can be opened.
fn net_of<'a, W: Wait + Sync>(
    rt: &'a W,
    alloc: Global,
    fails: u8,
) -> Result<MemNet<'a, W>, AllocError> {
    let failing = first_call(alloc, fails)?;
    let (net, _other) = MemNet::new(rt, alloc, 0, failing, Bytes::new(alloc))?;
    Ok(net)
}

// How the command ends that is to serve one link, and what it prints.
fn ended<W: Wait + Threads + Sync>(
    rt: &W,
    alloc: Global,
    outside: &Outside<'_>,
) -> Result<Outcome<MemRenewal>, AllocError> {
    let mut source = source_of(alloc, outside)?;
    let mut sink = MemSink::new(alloc, first_call(alloc, outside.sink_fails)?)?;
    let disk = disk_of(alloc, outside)?;
    let net = net_of(rt, alloc, outside.net_fails)?;
    let (ending, disk) = served_with(
        rt,
        alloc,
        outside.address,
        1,
        &mut source,
        &mut sink,
        disk,
        net,
    );
    Ok(Outcome { ending, sink, disk })
}

// Its status, and what it prints.
fn ends<W: Wait + Threads + Sync + Abort>(
    rt: &W,
    alloc: Global,
    outside: &Outside<'_>,
    status: u8,
    text: &str,
) -> Result<(), Fail> {
    let served = ended(rt, alloc, outside)?;
    assert_eq!(rt; served.ending as u8, status);
    assert_eq!(rt; served.sink.bytes(), text.as_bytes());
    Ok(())
}

#[test]
fn settings_and_what_is_printed_end_it(rt: HostRuntime) -> Result<(), Fail> {
    let refused = Outside {
        settings: "share data\nshare more\n",
        ..CALM
    };
    ends(&rt, rt.alloc(), &refused, 3, "line 2 bad-line\n")?;
    let unread = Outside {
        source_fails: 1,
        ..CALM
    };
    ends(&rt, rt.alloc(), &unread, 4, "")?;
    let unwritten = Outside {
        sink_fails: 1,
        ..refused
    };
    ends(&rt, rt.alloc(), &unwritten, 5, "")
}

// What refused settings print, at an address.
fn refuses<W: Wait + Threads + Sync + Abort>(
    rt: &W,
    alloc: Global,
    address: Address,
    settings: &str,
    text: &str,
) -> Result<(), Fail> {
    let outside = Outside {
        address,
        settings,
        ..CALM
    };
    ends(rt, alloc, &outside, 3, text)
}

#[test]
fn settings_are_refused_by_their_first_line(rt: HostRuntime) -> Result<(), Fail> {
    let alloc = rt.alloc();
    let refused =
        "user anna First\r|log loud|patience 0 900|patience 900|peers 257|log info |peers 2\t|tokens ntlm|tokens any any";
    for settings in refused.split('|') {
        refuses(&rt, alloc, AT, settings, "line 1 bad-line\n")?;
    }
    // A comment may have any character.
    refuses(
        &rt,
        alloc,
        AT,
        "#\t\nlog info\nlog info\n",
        "line 3 bad-line\n",
    )?;
    refuses(
        &rt,
        alloc,
        AT,
        "tokens any\ntokens spnego\n",
        "line 2 bad-line\n",
    )
}

#[test]
fn another_address_wants_a_user(rt: HostRuntime) -> Result<(), Fail> {
    let alloc = rt.alloc();
    refuses(&rt, alloc, OPEN, "", "line 1 no-user\n")?;
    refuses(&rt, alloc, OPEN, "share data\nlog warn", "line 3 no-user\n")?;
    refuses(&rt, alloc, OPEN, "share data\nroom\n", "line 2 bad-line\n")
}

fn watch_in(alloc: Global, settings: &str) -> Option<Watch> {
    match config_in(alloc, settings.as_bytes(), OPEN) {
        Ok(setup) => Some(setup.watch),
        Err(_) => None,
    }
}

#[test]
fn settings_tell_how_links_are_watched(rt: HostRuntime) -> Result<(), Fail> {
    let plain = Watch {
        printed: Printed::Nothing,
        logon: 30,
        idle: 900,
        peers: 128,
    };
    assert_eq!(rt; watch_in(rt.alloc(), "user anna First\n"), Some(plain));
    let told = Watch {
        printed: Printed::Warnings,
        logon: 1,
        idle: 86_400,
        peers: 256,
    };
    let settings = "log warn\npatience 1 86400\nuser anna First\npeers 256\n";
    assert_eq!(rt; watch_in(rt.alloc(), settings), Some(told));
    Ok(())
}

#[test]
fn the_disk_and_the_net_end_it(rt: HostRuntime) -> Result<(), Fail> {
    let broken = Outside {
        disk_fails: 1,
        ..CALM
    };
    ends(&rt, rt.alloc(), &broken, 6, "")?;
    let deaf = Outside {
        net_fails: 1,
        ..CALM
    };
    ends(&rt, rt.alloc(), &deaf, 7, "")?;
    // Nobody can connect.
    ends(&rt, rt.alloc(), &CALM, 7, "")?;
    let no_journal = Outside {
        disk: "hello, journal",
        ..CALM
    };
    ends(&rt, rt.alloc(), &no_journal, 9, "journal 0\n")
}

#[test]
fn a_full_journal_ends_it(rt: HostRuntime) -> Result<(), Fail> {
    let alloc = rt.alloc();
    let disk = FullDisk::new(alloc)?;
    let served = served_alone(&rt, alloc, 1, disk, net_of(&rt, alloc, 0)?)?;
    assert_eq!(rt; served.ending as u8, 10);
    assert_eq!(rt; served.sink.bytes(), b"".as_slice());
    Ok(())
}

#[test]
fn the_usage_is_told(rt: HostRuntime) -> Result<(), Fail> {
    let mut sink = MemSink::new(rt.alloc(), Bytes::new(rt.alloc()))?;
    assert_eq!(rt; usage(&mut sink) as u8, 2);
    assert_eq!(rt;
        sink.bytes(),
        b"usage: smb311 drill, gen SEED OPS, serve ADDR [COUNT LEVEL], run ADDR\n".as_slice()
    );
    Ok(())
}
