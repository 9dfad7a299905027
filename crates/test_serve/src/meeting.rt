ghost use Rattle.std.specs.Prelude.{◌≡◌, false};
ghost use Rattle.base_outside.specs.network.Link.{is_link_end, unsent, untold};

use base_outside::{Address, Failed, Link, MemEnd, MemNet, Net};
use std::sync::Wait;
use std::sync::atomic::{AtomicU64, Ordering};
use std::time::Duration;
use std::{thread, time};

/// How often an end looks whether the other link has its reply.
const TURNS: u32 = 1_000_000;

/// Whether a whole reply was written to each of two links, and whether one waited for the other's in vain: 1 where it is so.
#[derive(Drop)]
pub(crate) struct Replies {
    first: AtomicU64,
    second: AtomicU64,
    late: AtomicU64,
}

impl Replies {
    pub(crate) fn new() -> Replies {
        Replies {
            first: AtomicU64::new(0),
            second: AtomicU64::new(0),
            late: AtomicU64::new(0),
        }
    }

    /// Neither link waited in vain.
    pub(crate) fn are_in_time(&self) -> bool {
        self.late.load(Ordering::SeqCst) == 0
    }

    fn of(&self, is_second: bool) -> &AtomicU64 {
        if is_second { &self.second } else { &self.first }
    }
}

fn is_end(count: usize, buffer: &[u8]) -> bool
    ensures { result ≡ is_link_end count buffer.now }
{
    count == 0 && !buffer.is_empty()
}

/// Waits until it is so, for so many turns. Each thousandth takes ten milliseconds, so that other threads get their turn.
fn comes<W: time::Clock>(rt: &W, reply: &AtomicU64) -> bool {
    for turn in 0..TURNS {
        if reply.load(Ordering::SeqCst) == 1 {
            return true;
        }
        if turn % 1_000 == 999 {
            thread::sleep(rt, Duration::from_millis(10));
        }
    }
    false
}

/// The server's end of one of two links. It gives so many bytes of what the peer sent, and the rest only where a whole reply was written
/// to the other link, at the latest behind so many turns; else the end of what the peer sends.
#[derive(Drop)]
pub(crate) struct MeetingEnd<'a, W: Wait + time::Clock> {
    rt: &'a W,
    replies: &'a Replies,
    link: MemEnd<'a, W>,
    is_second: bool,
    ahead: usize,
    ended: bool,
}

impl<'a, W: Wait + time::Clock> MeetingEnd<'a, W> {
    /// Whether the next bytes may be given.
    fn may_give(&self) -> bool {
        if self.ahead > 0 || comes(self.rt, self.replies.of(!self.is_second)) {
            return true;
        }
        self.replies.late.store(1, Ordering::SeqCst);
        false
    }
}

impl<'a, W: Wait + time::Clock> Link for MeetingEnd<'a, W> {
    ghost told = { ⊥ };

    ghost number = { λ e. e.link.number };

    ghost given = { λ _. untold };

    ghost left = { λ _. untold };

    ghost written = { λ _. untold };

    ghost ended = { λ e. e.ended };

    ghost faults = { λ e. e.link.faults };

    fn fault_count(&self) -> u64 {
        self.link.fault_count()
    }

    fn read(&mut self, into: &mut [u8]) -> Result<usize, Failed> {
        if !self.may_give() {
            self.ended = self.ended || is_end(0, into);
            return Ok(0);
        }
        match self.link.read(into) {
            Ok(count) => {
                self.ended = self.ended || is_end(count, into);
                self.ahead = self.ahead.saturating_sub(count);
                Ok(count)
            }
            Err(Failed) => Err(Failed),
        }
    }

    fn write(&mut self, from: &[u8]) -> Result<usize, Failed> {
        match self.link.write(from) {
            Ok(count) => {
                self.replies.of(self.is_second).store(1, Ordering::SeqCst);
                Ok(count)
            }
            Err(Failed) => Err(Failed),
        }
    }
}

/// An end that gives so many bytes ahead. It needs no bound on threads, which the check of a net's calls can't pass on.
fn meeting_end<'a, W: Wait + time::Clock>(
    rt: &'a W,
    replies: &'a Replies,
    link: MemEnd<'a, W>,
    is_second: bool,
    ahead: usize,
) -> MeetingEnd<'a, W>
    ensures { (result.ended ≡ false) × (result.link ≡ link.entry) }
{
    MeetingEnd {
        rt,
        replies,
        link,
        is_second,
        ahead,
        ended: false,
    }
}

/// The server's side of a net with two links that wait for each other: the first gives nothing until the second has a reply, and the
/// second nothing behind its first message until the first has one.
#[derive(Drop)]
pub(crate) struct MeetingNet<'a, W: Wait + Sync + time::Clock> {
    rt: &'a W,
    replies: &'a Replies,
    net: MemNet<'a, W>,
    message: usize,
    is_second: bool,
}

impl<'a, W: Wait + Sync + time::Clock> MeetingNet<'a, W> {
    /// The first message has so many bytes.
    pub(crate) fn new(
        rt: &'a W,
        replies: &'a Replies,
        net: MemNet<'a, W>,
        message: usize,
    ) -> MeetingNet<'a, W> {
        MeetingNet {
            rt,
            replies,
            net,
            message,
            is_second: false,
        }
    }
}

impl<'a, W: Wait + Sync + time::Clock> Net for MeetingNet<'a, W> {
    type L = MeetingEnd<'a, W>;

    ghost listens_at = { λ n. n.net.listens_at };

    ghost accepted = { λ n. n.net.accepted };

    ghost sent = { λ _. unsent };

    ghost faults = { λ n. n.net.faults };

    fn listen(&mut self, at: Address) -> Result<(), Failed> {
        self.net.listen(at)
    }

    fn accept(&mut self) -> Result<MeetingEnd<'a, W>, Failed> {
        match self.net.accept() {
            Ok(link) => {
                let ahead = if self.is_second { self.message } else { 0 };
                let end = meeting_end(self.rt, self.replies, link, self.is_second, ahead);
                self.is_second = true;
                Ok(end)
            }
            Err(Failed) => Err(Failed),
        }
    }

    fn connect(&mut self, to: Address) -> Result<MeetingEnd<'a, W>, Failed> {
        match self.net.connect(to) {
            Ok(link) => Ok(meeting_end(self.rt, self.replies, link, false, 0)),
            Err(Failed) => Err(Failed),
        }
    }
}
