// The edge to the standard library's TCP streams.
ghost use Rattle.std.specs.Prelude.{◌≡◌, ◌≤◌, length, false, IfOk};
ghost use Rattle.base_outside.specs.network.Link.{untold};

use crate::log_lines::Stamped;
use crate::options::keep_alive;
use crate::shared::{Shared, Store, fill_of};
use base_outside::{Failed, Link, News, SentName, Standing, is_end};
use log::{info, warn};
use std::alloc::{AllocError, Global};
use std::io::{Eprint, ErrorKind, Read, Write};
use std::net::{Ipv4Addr, TcpStream};
use std::sync::{Arc, Wait};
use std::time::{Clock, Duration, Instant};
use std::{io, thread};

/// How many refused logons end a connection.
const MOST_REFUSED: u32 = 10;

/// How a link that was accepted is watched.
#[derive(Clone, Copy)]
struct Watched {
    ip: u32,
    accepted: Option<Instant>,
    standing: Standing,
    refused: u32,
}

/// A link over a TCP stream. It tells nothing of the bytes: what a real peer sends and takes is
/// trusted. A write of no byte of a piece that has some is a fault. One that was accepted limits how long a read waits, by how its
/// connection stands: a read past that is a fault.
pub struct StdLink<'a, W: Wait + Clock + Eprint> {
    rt: &'a W,
    shared: &'a Shared,
    stream: Arc<TcpStream>,
    /// The connection's number, from 1; 0 where the link was connected from here.
    number: u64,
    watched: Option<Watched>,
    ended: bool,
    faults: u64,
}

/// Up to 32 units of a name, with a `?` for each that isn't a printable character of ASCII.
fn shown(alloc: Global, name: &SentName) -> Result<String, AllocError> {
    let mut text = String::new(alloc);
    let count = (name.length as usize).min(64);
    for pair in name.units[..count].chunks_exact(2) {
        match pair {
            [low, 0] if *low > 32 && *low < 127 => text.push(*low as char)?,
            _ => text.push('?')?,
        }
    }
    Ok(text)
}

// One read, again where a signal came between.
fn read_from(mut stream: &TcpStream, into: &mut [u8]) -> io::Result<usize>
    ensures { IfOk result (λ count. count ≤ length into.new) }
{
    for _ in 0..u64::MAX {
        match stream.read(into) {
            Ok(count) => return Ok(count),
            Err(error) => {
                if error.kind() != ErrorKind::Interrupted {
                    return Err(error);
                }
            }
        }
    }
    Err(io::Error::from(ErrorKind::Interrupted))
}

fn write_to(mut stream: &TcpStream, from: &[u8]) -> io::Result<usize>
    ensures { IfOk result (λ count. count ≤ length from.now) }
{
    for _ in 0..u64::MAX {
        match stream.write(from) {
            Ok(count) => return Ok(count),
            Err(error) => {
                if error.kind() != ErrorKind::Interrupted {
                    return Err(error);
                }
            }
        }
    }
    Err(io::Error::from(ErrorKind::Interrupted))
}

impl<'a, W: Wait + Clock + Eprint> StdLink<'a, W> {
    ghost use Rattle.std.specs.Prelude.{◌≡◌, false};

    /// A link that was connected from here, which waits without end.
    pub(crate) fn connected(rt: &'a W, shared: &'a Shared, stream: Arc<TcpStream>) -> StdLink<'a, W>
        ensures fresh { (result.ended ≡ false) × (result.faults ≡ 0) }
        ensures number { result.number ≡ 0 }
    {
        // Requests and replies alternate, so a small piece should not wait for more. A refused option is no fault.
        let _ = stream.set_nodelay(true);
        StdLink {
            rt,
            shared,
            stream,
            number: 0,
            watched: None,
            ended: false,
            faults: 0,
        }
    }

    /// A link that was accepted as the connection of this number, from this address.
    pub(crate) fn accepted(
        rt: &'a W,
        shared: &'a Shared,
        stream: Arc<TcpStream>,
        number: u64,
        ip: u32,
    ) -> StdLink<'a, W>
        ensures fresh { (result.ended ≡ false) × (result.faults ≡ 0) }
        ensures number { result.number ≡ number }
    {
        let _ = stream.set_nodelay(true);
        keep_alive(&stream);
        StdLink {
            rt,
            shared,
            stream,
            number,
            watched: Some(Watched {
                ip,
                accepted: Instant::now(rt).ok(),
                standing: Standing::nothing(),
                refused: 0,
            }),
            ended: false,
            faults: 0,
        }
    }

    // How long the next read may wait: no time where a connection without a session had its time.
    fn patience(&self, watched: &Watched) -> Duration {
        let watch = self.shared.watch(self.rt);
        if watched.standing.session.is_some() {
            return Duration::from_secs(u64::from(watch.idle));
        }
        let whole = Duration::from_secs(u64::from(watch.logon));
        match watched.accepted {
            Some(accepted) => match accepted.elapsed(self.rt) {
                Ok(past) => whole.saturating_sub(past),
                Err(_) => whole,
            },
            None => whole,
        }
    }

    // Whether a read that came to nothing in its time is begun anew: a session may come to have an open, or to have none any more, while
    // another of its channels is silent, so that is asked each time.
    fn goes_on(&self, error: &io::Error) -> bool {
        let is_late = matches!(error.kind(), ErrorKind::WouldBlock | ErrorKind::TimedOut);
        match &self.watched {
            Some(_) => is_late && self.shared.has_opens(self.rt, self.number),
            None => false,
        }
    }

    // A peer whose logons were refused too often waits before it is heard.
    fn delay(&self, watched: &Watched) {
        if watched.standing.session.is_some() {
            return;
        }
        if let Ok(now) = Instant::now(self.rt) {
            if self.shared.waits(self.rt, watched.ip, now) {
                thread::sleep(self.rt, Duration::from_secs(1));
            }
        }
    }

    // Sets how long the next read may wait, or refuses to read.
    fn ready(&self) -> io::Result<()> {
        if let Some(watched) = &self.watched {
            if watched.refused >= MOST_REFUSED {
                return Err(io::Error::from(ErrorKind::PermissionDenied));
            }
            self.delay(watched);
            let patience = self.patience(watched);
            if patience == Duration::ZERO {
                return Err(io::Error::from(ErrorKind::TimedOut));
            }
            self.stream.set_read_timeout(Some(patience))?;
        }
        Ok(())
    }

    fn received(&self, into: &mut [u8]) -> io::Result<usize>
        ensures { IfOk result (λ count. count ≤ length into.new) }
    {
        for _ in self.rt.forever() {
            self.ready()?;
            match read_from(&self.stream, into) {
                Ok(count) => return Ok(count),
                Err(error) => {
                    if !self.goes_on(&error) {
                        return Err(error);
                    }
                }
            }
        }
        unreachable!()
    }

    // Prints what is new, if it can be printed.
    fn tell(&self, watched: &Watched, news: &News) {
        let log = Stamped::new(self.rt, self.shared.watch(self.rt).printed);
        let number = self.number;
        let from = Ipv4Addr::from_bits(watched.ip);
        match news {
            News::Nothing => {}
            News::LoggedOn(name) => {
                if let Ok(name) = shown(self.shared.alloc, name) {
                    info!(log; "connection {number} from {from}: {name} has logged on");
                }
            }
            News::Bound(name) => {
                if let Ok(name) = shown(self.shared.alloc, name) {
                    info!(log; "connection {number} from {from}: a channel of a session of {name}");
                }
            }
            News::Refused(name) => {
                if let Ok(name) = shown(self.shared.alloc, name) {
                    warn!(log; "connection {number} from {from}: the logon of {name} was refused");
                }
            }
            News::Ended(word) => {
                if *word == "closed" {
                    info!(log; "connection {number} from {from}: ended, {word}");
                } else {
                    warn!(log; "connection {number} from {from}: ended, {word}");
                }
            }
        }
    }

    // Prints where the files begin to fill their room.
    fn tell_room(&self, standing: &Standing) {
        if standing.room > 0 {
            let fill = fill_of(standing.used, standing.room);
            if let Some(fill) = self.shared.filled(self.rt, Store::Room, fill) {
                let log = Stamped::new(self.rt, self.shared.watch(self.rt).printed);
                warn!(log; "the files have {} of their room of {} bytes", fill.word(), standing.room);
            }
        }
    }

    // What a connection's news means for the next reads.
    fn heard(&self, watched: &Watched, standing: &Standing, news: &News) -> Watched {
        self.tell(watched, news);
        self.tell_room(standing);
        if standing.session.is_some() || watched.standing.session.is_some() {
            self.shared.stands(self.rt, self.number, standing);
        }
        let mut next = *watched;
        next.standing = *standing;
        if let News::Refused(_) = news {
            next.refused = next.refused.saturating_add(1);
            if let Ok(now) = Instant::now(self.rt) {
                self.shared.refuse(self.rt, watched.ip, now);
            }
        }
        next
    }
}

impl<'a, W: Wait + Clock + Eprint> Drop for StdLink<'a, W> {
    fn drop(self) {
        let StdLink {
            rt,
            shared,
            stream: _stream,
            number,
            watched,
            ended: _,
            faults: _,
        } = self;
        if watched.is_some() {
            shared.leave(rt, number);
        }
    }
}

impl<'a, W: Wait + Clock + Eprint> Link for StdLink<'a, W> {
    ghost told = { ⊥ };

    ghost number = { λ l. l.number };

    ghost given = { λ _. untold };

    ghost left = { λ _. untold };

    ghost written = { λ _. untold };

    ghost ended = { λ l. l.ended };

    ghost faults = { λ l. l.faults };

    fn fault_count(&self) -> u64 {
        self.faults
    }

    fn read(&mut self, into: &mut [u8]) -> Result<usize, Failed> {
        match self.received(into) {
            Ok(count) => {
                self.ended = self.ended || is_end(count, into);
                Ok(count)
            }
            Err(_) => {
                self.faults = self.faults.saturating_add(1);
                Err(Failed)
            }
        }
    }

    fn write(&mut self, from: &[u8]) -> Result<usize, Failed> {
        if from.is_empty() {
            return Ok(0);
        }
        match write_to(&self.stream, from) {
            Ok(count) if count > 0 => Ok(count),
            _ => {
                self.faults = self.faults.saturating_add(1);
                Err(Failed)
            }
        }
    }

    fn note(&mut self, standing: &Standing, news: &News) {
        if let Some(watched) = self.watched {
            let next = self.heard(&watched, standing, news);
            self.watched = Some(next);
        }
    }
}
