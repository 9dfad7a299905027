//! What a net, its links and the journal's file know of each other while a server serves: how to watch, which links are served, who was
//! refused, and whether the journal's file has failed.
use crate::log_lines::Stamped;
use base_outside::{Printed, Standing, Watch};
use log::error;
use std::alloc::{AllocError, Global};
use std::io::Eprint;
use std::net::{Shutdown, TcpStream};
use std::sync::{Arc, Mutex, Wait};
use std::time::{Clock, Duration, Instant};

/// How many addresses are remembered from which logons were refused. Where more come, the one that was refused first is forgotten.
const MOST_ADDRESSES: usize = 1024;

/// How many refused logons in a minute make an address wait.
const MOST_REFUSED: u32 = 20;

/// A link that is served.
#[derive(Drop)]
struct Peer {
    number: u64,
    ip: u32,
    session: Option<u64>,
    // Whether that session has an open, by what was last heard over any of its channels.
    has_opens: bool,
    // The link's own stream, so that it can be shut from another thread.
    stream: Arc<TcpStream>,
}

/// The logons that were refused from an address, within a minute or since it has to wait.
#[derive(Clone, Copy)]
struct Refused {
    ip: u32,
    since: Instant,
    count: u32,
}

/// How full something was when that was last told: in quarters where three are full, and in tenths where nine are.
#[derive(Clone, Copy, PartialEq, Eq)]
pub(crate) enum Fill {
    Below,
    ThreeQuarters,
    NineTenths,
}

impl Fill {
    pub(crate) fn word(self) -> &'static str {
        match self {
            Fill::Below => "less than three quarters",
            Fill::ThreeQuarters => "three quarters",
            Fill::NineTenths => "nine tenths",
        }
    }
}

/// How full so many of so many are.
pub(crate) fn fill_of(used: u64, most: u64) -> Fill {
    let (used, most) = (u128::from(used), u128::from(most));
    if used * 10 >= most * 9 {
        Fill::NineTenths
    } else if used * 4 >= most * 3 {
        Fill::ThreeQuarters
    } else {
        Fill::Below
    }
}

/// What of the server's store may fill up.
#[derive(Clone, Copy, PartialEq, Eq)]
pub(crate) enum Store {
    Room,
    Journal,
}

#[derive(Drop)]
struct State {
    watch: Watch,
    /// When the server began to be made.
    began: Option<Instant>,
    has_failed: bool,
    peers: Vec<Peer>,
    refused: Vec<Refused>,
    room: Fill,
    journal: Fill,
    /// How long the journal's file was when that was last asked.
    length: u64,
}

/// What the adapters of one server share. Nothing is watched until a server says how.
#[derive(Drop)]
pub struct Shared {
    pub(crate) alloc: Global,
    state: Mutex<State>,
}

impl Shared {
    pub fn new(alloc: Global) -> Shared {
        Shared {
            alloc,
            state: Mutex::new(State {
                watch: Watch {
                    printed: Printed::Nothing,
                    logon: 30,
                    idle: 900,
                    peers: 128,
                },
                began: None,
                has_failed: false,
                peers: Vec::new(alloc),
                refused: Vec::new(alloc),
                room: Fill::Below,
                journal: Fill::Below,
                length: 0,
            }),
        }
    }

    pub(crate) fn begin<W: Wait>(&self, rt: &W, watch: &Watch, now: Option<Instant>) {
        let mut state = self.state.lock(rt);
        state.watch = *watch;
        state.began = now;
    }

    pub(crate) fn watch<W: Wait>(&self, rt: &W) -> Watch {
        self.state.lock(rt).watch
    }

    pub(crate) fn began<W: Wait>(&self, rt: &W) -> Option<Instant> {
        self.state.lock(rt).began
    }

    /// A call of the journal's file has failed, so the server takes no event any more.
    pub(crate) fn fail<W: Wait>(&self, rt: &W) {
        self.state.lock(rt).has_failed = true;
    }

    pub(crate) fn has_failed<W: Wait>(&self, rt: &W) -> bool {
        self.state.lock(rt).has_failed
    }

    /// A link is served from now on.
    pub(crate) fn enter<W: Wait>(
        &self,
        rt: &W,
        number: u64,
        ip: u32,
        stream: Arc<TcpStream>,
    ) -> Result<(), AllocError> {
        let peer = Peer {
            number,
            ip,
            session: None,
            has_opens: false,
            stream,
        };
        self.state.lock(rt).peers.push(peer)?;
        Ok(())
    }

    /// A link is served no more.
    pub(crate) fn leave<W: Wait>(&self, rt: &W, number: u64) {
        let mut state = self.state.lock(rt);
        let found = state.peers.iter().position(|peer| peer.number == number);
        if let Some(at) = found {
            if at < state.peers.len() {
                let _ = state.peers.remove(at);
            }
        }
    }

    /// How a link's connection stands. Whether its session has an open counts for each of the session's channels, and a session that the
    /// connection has no more has ended, with its opens.
    pub(crate) fn stands<W: Wait>(&self, rt: &W, number: u64, standing: &Standing) {
        let mut state = self.state.lock(rt);
        let mut before = None;
        for peer in state.peers.iter_mut() {
            if peer.number == number {
                before = peer.session;
                peer.session = standing.session;
            }
        }
        for peer in state.peers.iter_mut() {
            if peer.session == standing.session {
                peer.has_opens = standing.session.is_some() && standing.has_opens;
            } else if peer.session == before {
                peer.has_opens = false;
            }
        }
    }

    /// Whether the session of a link's connection has an open, by what was last heard over any of its channels.
    pub(crate) fn has_opens<W: Wait>(&self, rt: &W, number: u64) -> bool {
        let state = self.state.lock(rt);
        state
            .peers
            .iter()
            .any(|peer| peer.number == number && peer.has_opens)
    }

    /// Prints why the program ends with this status, where it is one of a server that prints lines.
    pub fn tell_end<W: Wait + Clock + Eprint>(&self, rt: &W, status: u8) {
        let why = match status {
            5 => "standard output failed",
            6 => "the journal's file failed, or another server has it",
            7 => "the network failed",
            8 => "memory ran out",
            9 => "smb311.journal is no journal",
            10 => "the journal has no room for one more start",
            _ => return,
        };
        let log = Stamped::new(rt, self.watch(rt).printed);
        error!(log; "ended with status {status}: {why}");
    }

    /// How many links are served, and how many of them from an address.
    pub(crate) fn counts<W: Wait>(&self, rt: &W, ip: u32) -> (usize, usize) {
        let state = self.state.lock(rt);
        let mut same = 0usize;
        for peer in state.peers.iter() {
            if peer.ip == ip {
                same = same.saturating_add(1);
            }
        }
        (state.peers.len(), same)
    }

    /// Shuts the oldest link whose connection has no session. It leaves when its thread has met that. False where there is none.
    pub(crate) fn give_way<W: Wait>(&self, rt: &W) -> bool {
        // Links stand in the order in which they came.
        let state = self.state.lock(rt);
        for peer in state.peers.iter() {
            if peer.session.is_none() {
                let _ = peer.stream.shutdown(Shutdown::Both);
                return true;
            }
        }
        false
    }

    /// Shuts all links.
    pub(crate) fn shut_all<W: Wait>(&self, rt: &W) {
        let state = self.state.lock(rt);
        for peer in state.peers.iter() {
            let _ = peer.stream.shutdown(Shutdown::Both);
        }
    }

    /// A logon from an address was refused.
    pub(crate) fn refuse<W: Wait>(&self, rt: &W, ip: u32, now: Instant) {
        let mut state = self.state.lock(rt);
        for refused in state.refused.iter_mut() {
            if refused.ip == ip {
                note_refusal(refused, now);
                return;
            }
        }
        if state.refused.len() >= MOST_ADDRESSES {
            let _ = state.refused.remove(0);
        }
        // Where there is no room, the address isn't remembered.
        let _ = state.refused.push(Refused {
            ip,
            since: now,
            count: 1,
        });
    }

    /// Whether an address has to wait, since too many logons from it were refused within a minute.
    pub(crate) fn waits<W: Wait>(&self, rt: &W, ip: u32, now: Instant) -> bool {
        let state = self.state.lock(rt);
        for refused in state.refused.iter() {
            if refused.ip == ip {
                return refused.count >= MOST_REFUSED
                    && now.duration_since(refused.since) < Duration::from_secs(60);
            }
        }
        false
    }

    /// Notes how full a store is. Something where it was less full when that was last told.
    pub(crate) fn filled<W: Wait>(&self, rt: &W, store: Store, fill: Fill) -> Option<Fill> {
        let mut state = self.state.lock(rt);
        let last = match store {
            Store::Room => state.room,
            Store::Journal => state.journal,
        };
        let is_more = match fill {
            Fill::Below => false,
            Fill::ThreeQuarters => last == Fill::Below,
            Fill::NineTenths => last != Fill::NineTenths,
        };
        match store {
            Store::Room => state.room = fill,
            // It grows until it is written anew, though not each write is at its end.
            Store::Journal => {
                if is_more {
                    state.journal = fill;
                }
            }
        }
        if is_more { Some(fill) } else { None }
    }

    /// The journal was written anew, and is so full then.
    pub(crate) fn renewed<W: Wait>(&self, rt: &W, fill: Fill) {
        self.state.lock(rt).journal = fill;
    }

    /// Notes how long the journal's file is.
    pub(crate) fn measured<W: Wait>(&self, rt: &W, length: u64) {
        self.state.lock(rt).length = length;
    }

    /// How long the journal's file was when that was last asked.
    pub(crate) fn length<W: Wait>(&self, rt: &W) -> u64 {
        self.state.lock(rt).length
    }
}

// One refusal more. A minute without one begins anew, and an address that waits does so from its last refusal on.
fn note_refusal(refused: &mut Refused, now: Instant) {
    let is_old = now.duration_since(refused.since) >= Duration::from_secs(60);
    if is_old {
        refused.count = 0;
    }
    refused.count = refused.count.saturating_add(1);
    if is_old || refused.count >= MOST_REFUSED {
        refused.since = now;
    }
}
