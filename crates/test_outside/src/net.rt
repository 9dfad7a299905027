use base_machine::{Shared, StdClock, StdNet, file_time};
use base_outside::{
    Address, Clock, Failed, Link, MemNet, Net, News, Printed, SentName, Standing, Watch,
};
use std::net::{Ipv4Addr, SocketAddr, TcpListener};
use std::sync::Wait;
use std::test::Fail;
use std::thread::{self, Threads};
use std::time::{Clock as MachineClock, Duration};
use wire_bytes::Bytes;

/// Writes a word and reads the answer to it, and then the end.
fn ask<L: Link>(link: &mut L) -> Result<[u8; 4], Failed> {
    let mut into = [0u8; 4];
    link.write(b"ping")?;
    link.read(&mut into)?;
    Ok(into)
}

/// Reads a word, and writes it backwards.
fn answer<L: Link>(link: &mut L) -> Result<[u8; 4], Failed> {
    let mut into = [0u8; 4];
    link.read(&mut into)?;
    into.reverse();
    link.write(&into)?;
    Ok(into)
}

/// Accepts a link, answers on it and says what it gives then.
fn serve<N: Net>(net: &mut N) -> Result<usize, Failed> {
    let mut link = net.accept()?;
    answer(&mut link)?;
    link.read(&mut [0u8; 4])
}

fn call<N: Net>(net: &mut N, to: Address) -> Result<[u8; 4], Failed> {
    let mut link = net.connect(to)?;
    ask(&mut link)
}

const AT: Address = Address {
    ip: 0x7f00_0001,
    port: 4450,
};

fn in_two_threads<W: Wait + Threads + Sync>(
    rt: &W,
    mut first: MemNet<'_, W>,
    mut second: MemNet<'_, W>,
) -> (
    (Result<usize, Failed>, Result<usize, Failed>),
    Result<[u8; 4], Failed>,
) {
    thread::join(
        rt,
        move || (serve(&mut first), serve(&mut first)),
        move || call(&mut second, AT),
    )
}

#[test]
fn a_net_joins_two_threads(rt: HostRuntime) -> Result<(), Fail> {
    let alloc = rt.alloc();
    let (first, second) = MemNet::new(&rt, alloc, 1, Bytes::new(alloc), Bytes::new(alloc))?;
    let (served, called) = in_two_threads(&rt, first, second);
    assert_eq!(rt; served, (Ok(0), Err(Failed)));
    assert_eq!(rt; called, Ok(*b"gnip"));
    Ok(())
}

#[test]
fn the_machine_is_a_net(rt: HostRuntime) -> Result<(), Fail> {
    let loopback = SocketAddr::new(Ipv4Addr::LOCALHOST.into(), 0);
    let port = TcpListener::bind(&rt, loopback)?.local_addr()?.port();
    let at = Address { ip: AT.ip, port };
    let shared = Shared::new(rt.alloc());
    let mut net = StdNet::new(&rt, &shared);
    assert!(rt; net.accept().is_err(), "it doesn't listen yet");
    assert_eq!(rt; net.listen(at), Ok(()));
    let mut mine = net.connect(at)?;
    let mut theirs = net.accept()?;
    assert_eq!(rt; mine.write(b"ping"), Ok(4));
    assert_eq!(rt; answer(&mut theirs), Ok(*b"gnip"));
    drop(theirs);
    let mut into = [0u8; 9];
    assert_eq!(rt; mine.read(&mut into), Ok(4));
    assert_eq!(rt; into, *b"gnip\0\0\0\0\0");
    assert_eq!(rt; mine.read(&mut into), Ok(0));
    assert_eq!(rt; mine.fault_count(), 0);
    drop(net);
    assert!(rt;
        StdNet::new(&rt, &shared).connect(at).is_err(),
        "nobody listens"
    );
    Ok(())
}

#[test]
fn clocks_count_from_1601(rt: HostRuntime) -> Result<(), Fail> {
    assert_eq!(rt; file_time(Duration::from_secs(0)), 116_444_736_000_000_000);
    assert_eq!(rt;
        file_time(Duration::new(1_172_163_600, 306_162_900)),
        128_166_372_003_061_629
    );
    let mut clock = StdClock::new(&rt);
    let then = clock.now();
    assert!(rt; then > 133_000_000_000_000_000, "it is later than 2022");
    assert!(rt; clock.now() >= then, "it doesn't go back");
    Ok(())
}

fn standing(session: Option<u64>, has_opens: bool) -> Standing {
    Standing {
        session,
        has_opens,
        used: 0,
        room: 0,
    }
}

// A peer that sends nothing is waited for as its connection stands, and one that was refused ten times is heard no more.
#[test]
fn a_silent_peer_is_not_waited_for(rt: HostRuntime) -> Result<(), Fail> {
    let loopback = SocketAddr::new(Ipv4Addr::LOCALHOST.into(), 0);
    let port = TcpListener::bind(&rt, loopback)?.local_addr()?.port();
    let at = Address { ip: AT.ip, port };
    let shared = Shared::new(rt.alloc());
    let mut net = StdNet::new(&rt, &shared);
    net.watch(&Watch {
        printed: Printed::Nothing,
        logon: 1,
        idle: 1,
        peers: 2,
    });
    assert_eq!(rt; net.listen(at), Ok(()));
    let mut into = [0u8; 4];
    let silent = net.connect(at)?;
    let mut link = net.accept()?;
    assert!(rt;
        link.read(&mut into).is_err(),
        "it has no session after a second"
    );
    link.note(&standing(Some(7), false), &News::Nothing);
    assert!(rt;
        link.read(&mut into).is_err(),
        "it has no open and sends nothing"
    );
    assert_eq!(rt; link.fault_count(), 2);
    drop(silent);
    link.note(&standing(Some(7), true), &News::Nothing);
    assert_eq!(rt; link.read(&mut into), Ok(0));
    let mut peer = net.connect(at)?;
    let mut refused = net.accept()?;
    let name = SentName {
        units: [0; 64],
        length: 0,
    };
    assert_eq!(rt; peer.write(b"ping"), Ok(4));
    for _ in 0..9 {
        refused.note(&standing(None, false), &News::Refused(name));
    }
    assert_eq!(rt; refused.read(&mut into), Ok(4));
    refused.note(&standing(None, false), &News::Refused(name));
    assert_eq!(rt; peer.write(b"ping"), Ok(4));
    assert!(rt; refused.read(&mut into).is_err(), "ten logons were refused");
    Ok(())
}

/// Says nothing for longer than its channel is waited for, and then a word.
fn speak_late<W: Wait + MachineClock, L: Link + Drop>(rt: &W, mut link: L) -> Result<L, Failed> {
    thread::sleep(rt, Duration::from_millis(1500));
    link.write(b"ping")?;
    Ok(link)
}

// A silent channel is judged by what its session holds when its time is over, whichever channel told that.
#[test]
fn a_silent_channel_stays_while_its_session_holds_an_open(rt: HostRuntime) -> Result<(), Fail> {
    let loopback = SocketAddr::new(Ipv4Addr::LOCALHOST.into(), 0);
    let port = TcpListener::bind(&rt, loopback)?.local_addr()?.port();
    let at = Address { ip: AT.ip, port };
    let shared = Shared::new(rt.alloc());
    let mut net = StdNet::new(&rt, &shared);
    net.watch(&Watch {
        printed: Printed::Nothing,
        logon: 1,
        idle: 1,
        peers: 4,
    });
    assert_eq!(rt; net.listen(at), Ok(()));
    let silent = net.connect(at)?;
    let mut first = net.accept()?;
    let _busy = net.connect(at)?;
    let mut second = net.accept()?;
    first.note(&standing(Some(7), false), &News::Nothing);
    second.note(&standing(Some(7), true), &News::Nothing);
    let mut into = [0u8; 4];
    let (read, said) = thread::join(&rt, || first.read(&mut into), || speak_late(&rt, silent));
    assert_eq!(rt; read, Ok(4));
    let _silent = said?;
    second.note(&standing(Some(7), false), &News::Nothing);
    assert!(rt;
        first.read(&mut into).is_err(),
        "the open was closed over the other channel"
    );
    first.note(&standing(Some(7), true), &News::Nothing);
    second.note(&standing(None, false), &News::Nothing);
    assert!(rt; first.read(&mut into).is_err(), "the session has ended");
    assert_eq!(rt; first.fault_count(), 2);
    Ok(())
}
