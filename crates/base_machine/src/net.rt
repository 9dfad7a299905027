// The edge to the standard library's network.
ghost use Rattle.std.specs.Prelude.{◌≡◌, false, IfSome};
ghost use Rattle.base_outside.specs.network.Link.{unsent};

use crate::link::StdLink;
use crate::log_lines::Stamped;
use crate::options::look_up_often;
use crate::shared::Shared;
use base_outside::{Address, Failed, Net, Watch};
use log::{error, info, warn};
use std::io::{Eprint, ErrorKind};
use std::net::{IpAddr, Ipv4Addr, SocketAddr, TcpListener, TcpStream};
use std::sync::{Arc, Wait};
use std::time::{Clock, Duration, Instant};
use std::{io, net, thread};

/// How many links are served at a time, as the server takes in.
const MOST_LINKS: usize = 256;

/// How often it is looked whether a link that gives way has left, a hundredth of a second apart.
const LOOKS: u32 = 500;

/// A stream that was accepted, and from where.
#[derive(Drop)]
struct Arrived {
    stream: Arc<TcpStream>,
    ip: u32,
    port: u16,
}

/// What a failed `accept` means.
#[derive(Clone, Copy)]
enum Trouble {
    /// Nobody came, or one who has gone again.
    Passing,
    /// The process or the system lacks something for now.
    Lacking,
    /// The listener is gone.
    Gone,
}

/// The network of the machine. That its links come from the address at which it listens, and lead to
/// the one that is asked for, is trusted.
#[derive(Drop)]
pub struct StdNet<'a, W: Wait + Clock + Eprint + Sync> {
    rt: &'a W,
    shared: &'a Shared,
    listener: Option<TcpListener>,
    listens_at: Option<Address>,
    accepted: u64,
    faults: u64,
}

fn log_of<'a, W: Wait + Clock + Eprint>(rt: &'a W, shared: &Shared) -> Stamped<'a, W> {
    Stamped::new(rt, shared.watch(rt).printed)
}

// The address in the standard library's form.
fn socket_address(address: Address) -> SocketAddr {
    SocketAddr::new(Ipv4Addr::from_bits(address.ip).into(), address.port)
}

// Each address of the listener's kind is one of IPv4.
fn ip_of(address: &SocketAddr) -> u32 {
    match address.ip() {
        IpAddr::V4(ip) => ip.to_bits(),
        IpAddr::V6(_) => 0,
    }
}

// By the numbers of the system's errors (Linux): EBADF 9, ENOMEM 12, EINVAL 22, ENFILE 23, EMFILE 24, ENOTSOCK 88, ENOBUFS 105.
fn trouble_of(error: &io::Error) -> Trouble {
    match error.raw_os_error() {
        Some(code) => {
            if code == 9 || code == 22 || code == 88 {
                return Trouble::Gone;
            }
            if code == 12 || code == 23 || code == 24 || code == 105 {
                return Trouble::Lacking;
            }
        }
        None => {}
    }
    match error.kind() {
        ErrorKind::WouldBlock | ErrorKind::Interrupted | ErrorKind::ConnectionAborted => {
            Trouble::Passing
        }
        _ => Trouble::Lacking,
    }
}

impl<'a, W: Wait + Clock + Eprint + Sync> StdNet<'a, W> {
    /// A net that doesn't listen yet and has not failed yet.
    pub fn new(rt: &'a W, shared: &'a Shared) -> StdNet<'a, W> {
        StdNet {
            rt,
            shared,
            listener: None,
            listens_at: None,
            accepted: 0,
            faults: 0,
        }
    }
}

// Makes place for one link more, where that many are served: one without a session gives way, and it is waited for, since its
// connection ends before the next one is taken in.
fn make_place<W: Wait + Clock>(rt: &W, shared: &Shared, ip: u32) {
    let (live, _) = shared.counts(rt, ip);
    if live < MOST_LINKS || !shared.give_way(rt) {
        return;
    }
    for _ in 0..LOOKS {
        let (live, _) = shared.counts(rt, ip);
        if live < MOST_LINKS {
            return;
        }
        thread::sleep(rt, Duration::from_millis(10));
    }
}

// Lets a stream in, or lets it go where there are too many from its address.
fn admitted<W: Wait + Clock + Eprint>(
    rt: &W,
    shared: &Shared,
    stream: TcpStream,
    from: &SocketAddr,
) -> Option<Arrived> {
    let ip = ip_of(from);
    let (_, same) = shared.counts(rt, ip);
    if same >= shared.watch(rt).peers as usize {
        let log = log_of(rt, shared);
        warn!(log; "too many connections from {}", Ipv4Addr::from_bits(ip));
        return None;
    }
    make_place(rt, shared, ip);
    let stream = Arc::new(shared.alloc, stream).ok()?;
    let port = from.port();
    Some(Arrived { stream, ip, port })
}

// The next stream that is let in; none where the listener is gone, or the journal's file has failed.
fn next_stream<W: Wait + Clock + Eprint>(
    rt: &W,
    shared: &Shared,
    listener: &TcpListener,
) -> Option<Arrived> {
    for _ in rt.forever() {
        if shared.has_failed(rt) {
            shared.shut_all(rt);
            return None;
        }
        match listener.accept() {
            Ok((stream, from)) => {
                if let Some(arrived) = admitted(rt, shared, stream, &from) {
                    return Some(arrived);
                }
            }
            Err(error) => match trouble_of(&error) {
                Trouble::Passing => {}
                Trouble::Lacking => thread::sleep(rt, Duration::from_millis(100)),
                Trouble::Gone => {
                    let log = log_of(rt, shared);
                    error!(log; "the listener is gone: {error}");
                    return None;
                }
            },
        }
    }
    unreachable!()
}

// The link of a stream that was let in, which is noted as served; none where there is no room to note it.
fn entered<'a, W: Wait + Clock + Eprint>(
    rt: &'a W,
    shared: &'a Shared,
    arrived: Arrived,
    number: u64,
) -> Option<StdLink<'a, W>>
    ensures fresh { IfSome result (λ link. (link.ended ≡ false) × (link.faults ≡ 0)) }
    ensures number { IfSome result (λ link. link.number ≡ number) }
{
    let Arrived { stream, ip, port } = arrived;
    let again = Arc::try_clone(&stream).ok()?;
    shared.enter(rt, number, ip, again).ok()?;
    let log = log_of(rt, shared);
    info!(log; "connection {number} from {}:{port}", Ipv4Addr::from_bits(ip));
    Some(StdLink::accepted(rt, shared, stream, number, ip))
}

// The next link that is let in, as the connection of this number.
fn next_link<'a, W: Wait + Clock + Eprint>(
    rt: &'a W,
    shared: &'a Shared,
    listener: &Option<TcpListener>,
    number: u64,
) -> Option<StdLink<'a, W>>
    ensures fresh { IfSome result (λ link. (link.ended ≡ false) × (link.faults ≡ 0)) }
    ensures number { IfSome result (λ link. link.number ≡ number) }
{
    let listener = listener.as_ref()?;
    for _ in rt.forever() {
        let arrived = next_stream(rt, shared, listener)?;
        if let Some(link) = entered(rt, shared, arrived, number) {
            return Some(link);
        }
    }
    unreachable!()
}

// A link over a stream that was connected from here.
fn made<'a, W: Wait + Clock + Eprint>(
    rt: &'a W,
    shared: &'a Shared,
    answer: io::Result<TcpStream>,
) -> Option<StdLink<'a, W>>
    ensures fresh { IfSome result (λ link. (link.ended ≡ false) × (link.faults ≡ 0)) }
    ensures number { IfSome result (λ link. link.number ≡ 0) }
{
    let stream = answer.ok()?;
    let stream = Arc::new(shared.alloc, stream).ok()?;
    Some(StdLink::connected(rt, shared, stream))
}

impl<'a, W> Net for StdNet<'a, W>
where
    W: Wait + Clock + Eprint + Sync + net::Net<Listener = TcpListener, Stream = TcpStream>,
{
    type L = StdLink<'a, W>;

    ghost listens_at = { λ n. n.listens_at };

    ghost accepted = { λ n. n.accepted };

    ghost sent = { λ _. unsent };

    ghost faults = { λ n. n.faults };

    fn listen(&mut self, at: Address) -> Result<(), Failed> {
        let address = socket_address(at);
        match self.rt.bind(address) {
            Ok(listener) => {
                look_up_often(&listener);
                self.listener = Some(listener);
                self.listens_at = Some(at);
                Ok(())
            }
            Err(error) => {
                let log = log_of(self.rt, self.shared);
                error!(log; "cannot listen at {address}: {error}");
                self.faults = self.faults.saturating_add(1);
                Err(Failed)
            }
        }
    }

    fn accept(&mut self) -> Result<StdLink<'a, W>, Failed> {
        let number = self.accepted.saturating_add(1);
        match next_link(self.rt, self.shared, &self.listener, number) {
            Some(link) => {
                self.accepted = number;
                Ok(link)
            }
            None => {
                self.faults = self.faults.saturating_add(1);
                Err(Failed)
            }
        }
    }

    fn connect(&mut self, to: Address) -> Result<StdLink<'a, W>, Failed> {
        let answer = self.rt.connect(socket_address(to));
        match made(self.rt, self.shared, answer) {
            Some(link) => Ok(link),
            None => {
                self.faults = self.faults.saturating_add(1);
                Err(Failed)
            }
        }
    }

    fn watch(&mut self, watch: &Watch) {
        let now = Instant::now(self.rt).ok();
        self.shared.begin(self.rt, watch, now);
    }

    fn ready(&mut self, files: u64, bytes: u64) {
        let log = log_of(self.rt, self.shared);
        let took = match self.shared.began(self.rt) {
            Some(began) => began.elapsed(self.rt).unwrap_or(Duration::ZERO).as_millis(),
            None => 0,
        };
        if let Some(at) = self.listens_at {
            let at = socket_address(at);
            let length = self.shared.length(self.rt);
            info!(log; "ready at {at} with {files} files and directories of {bytes} bytes from {length} of smb311.journal, read in {took} ms");
        }
    }
}
