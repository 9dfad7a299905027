// The turns of a connection at a server that only counts them, and what its link hears.
use base_outside::{Failed, Link, MemClock, MemLink, News, SentName, Standing};
use conn_core::{Progress, Reply, Serve, ServeError};
use rand_chacha::ChaCha20Rng;
use rand_core::SeedableRng;
use serve_turns::{ConnEnd, Connections, Ended, EventBook, Lasting, Service, SharedBook};
use server_checks::ServerEvent;
use spec_crypto::Keys;
use std::alloc::Global;
use std::sync::Mutex;
use std::test::Fail;
use wire_bytes::Bytes;

/// A NEGOTIATE of 3.1.1 (MS-SMB2 2.2.3) behind its length, with the context PREAUTH_INTEGRITY_CAPABILITIES alone (2.2.3.1.1): SHA-512 and a
/// salt of 32 bytes.
pub(crate) const NEGOTIATE: &str = concat!(
    "00000096fe534d4240000000000000000000010000000000000000000000000000000000000000000000000000000000",
    "000000000000000000000000000000000000000024000100010000000000000001010101010101010101010101010101",
    "6800000001000000110300000100260000000000010020000100000102030405060708090a0b0c0d0e0f101112131415",
    "161718191a1b1c1d1e1f"
);

/// A SESSION_SETUP (MS-SMB2 2.2.5) behind its length, whose security buffer has two bytes and an AUTHENTICATE_MESSAGE (MS-NLMP 2.2.1.3) up
/// to its UserNameFields, with the name `user` behind these.
pub(crate) const SETUP: &str = concat!(
    "0000008efe534d424000000000000000010000000000000000000000010000000000000000000000000000000000",
    "00000000000000000000000000000000000000000000190000010000000000000000580036000000000000000000",
    "60824e544c4d5353500003000000000000000000000000000000000000000000000000000000080008002c000000",
    "7500730065007200"
);

/// STATUS_LOGON_FAILURE (MS-ERREF 2.3.1)
const LOGON_FAILURE: u32 = 0xc000_006d;

/// Counts the events of each kind, and answers each with STATUS_SUCCESS; each SESSION_SETUP behind the first ones with
/// STATUS_LOGON_FAILURE. The first ones bring these keys, if it has some.
#[derive(Drop)]
pub(crate) struct Counting {
    pub alloc: Global,
    pub accepts: u64,
    pub messages: u64,
    pub ends: u64,
    pub setups: u64,
    pub takes: u64,
    pub keys: Option<Keys>,
}

impl Counting {
    /// Of this many SESSION_SETUPs it takes each.
    pub(crate) fn new(alloc: Global, takes: u64) -> Counting {
        Counting {
            alloc,
            accepts: 0,
            messages: 0,
            ends: 0,
            setups: 0,
            takes,
            keys: None,
        }
    }

    /// What a SESSION_SETUP comes to.
    fn set_up(&mut self) -> (u32, Progress) {
        self.setups = self.setups.saturating_add(1);
        if self.setups > self.takes {
            return (LOGON_FAILURE, Progress::Stays);
        }
        match self.keys {
            Some(keys) => (
                0,
                Progress::Final {
                    keys,
                    channel: 1,
                    encrypts: true,
                },
            ),
            None => (0, Progress::Stays),
        }
    }

    /// The status of an event, and what its logon comes to.
    fn count(&mut self, event: &ServerEvent<'_>) -> (u32, Progress) {
        match event {
            ServerEvent::Accept { connection: _ } => self.accepts = self.accepts.saturating_add(1),
            ServerEvent::End { connection: _ } => self.ends = self.ends.saturating_add(1),
            ServerEvent::Message { message: _ } => self.messages = self.messages.saturating_add(1),
            ServerEvent::Setup { setup: _ } => return self.set_up(),
            ServerEvent::Stop => {}
        }
        (0, Progress::Stays)
    }
}

impl Serve for Counting {
    ghost use Rattle.std.specs.Prelude.{None};

    // It shows no state of the model, so nothing is said of its replies.
    ghost shows = { λ server users s L records. ⊥ };

    ghost stopped = { λ server. None };

    ghost faults = { λ server. 0 };

    fn event(&mut self, _now: u64, event: ServerEvent<'_>) -> Result<Reply, ServeError> {
        let (status, progress) = self.count(&event);
        Ok(Reply {
            status,
            session: 0,
            tree: 0,
            body: Bytes::new(self.alloc),
            file: None,
            progress,
            acted: false,
        })
    }

    fn stop_count(&self) -> Option<u64> {
        None
    }

    fn standing(&self, _connection: u32) -> Standing {
        Standing::nothing()
    }
}

impl Lasting for Counting {
    // It has no journal.
    fn renew(&mut self) {}
}

/// A link in memory that keeps how often it heard news, whose logon that was, how often one was refused, and how it ended.
#[derive(Drop)]
pub(crate) struct Listening {
    pub link: MemLink,
    pub notes: u64,
    pub logged_on: Option<SentName>,
    pub refused: u64,
    pub refused_last: Option<SentName>,
    pub word: &'static str,
}

impl Listening {
    pub(crate) fn new(link: MemLink) -> Listening {
        Listening {
            link,
            notes: 0,
            logged_on: None,
            refused: 0,
            refused_last: None,
            word: "",
        }
    }
}

impl Link for Listening {
    ghost use Rattle.std.specs.Prelude.{⊤};
    ghost use Rattle.base_outside.specs.network.Link.{unnumbered};

    ghost told = { ⊤ };

    ghost number = { λ _. unnumbered };

    ghost given = { λ l. l.link.given };

    ghost left = { λ l. l.link.left };

    ghost written = { λ l. l.link.written };

    ghost ended = { λ l. l.link.ended };

    ghost faults = { λ l. l.link.faults };

    fn fault_count(&self) -> u64 {
        self.link.fault_count()
    }

    fn read(&mut self, into: &mut [u8]) -> Result<usize, Failed> {
        self.link.read(into)
    }

    fn write(&mut self, from: &[u8]) -> Result<usize, Failed> {
        self.link.write(from)
    }

    fn note(&mut self, _standing: &Standing, news: &News) {
        self.notes = self.notes.saturating_add(1);
        match news {
            News::LoggedOn(name) => self.logged_on = Some(*name),
            News::Ended(word) => self.word = *word,
            News::Refused(name) => {
                self.refused = self.refused.saturating_add(1);
                self.refused_last = Some(*name);
            }
            News::Nothing | News::Bound(_) => {}
        }
    }
}

pub(crate) fn outside(alloc: Global) -> Connections<MemClock, ChaCha20Rng> {
    Connections {
        alloc,
        guid: [0; 16],
        clock: Mutex::new(MemClock::new(0)),
        random: Mutex::new(ChaCha20Rng::from_seed([7; 32])),
    }
}

/// A link whose peer sent a NEGOTIATE and a SESSION_SETUP, and ended.
fn link_with_setup(alloc: Global) -> Result<Listening, Fail> {
    let mut sent = hex::decode(alloc, NEGOTIATE)?;
    sent.extend_from_slice(&hex::decode(alloc, SETUP)?)?;
    Ok(Listening::new(MemLink::new(alloc, Bytes::from_vec(sent), Bytes::new(alloc))?))
}

pub(crate) fn no_turns(alloc: Global, takes: u64) -> EventBook<Counting> {
    EventBook {
        alloc,
        server: Counting::new(alloc, takes),
    }
}

/// The length of a name, its first letter and its fourth one.
pub(crate) fn ends_of(name: Option<SentName>) -> Option<(u8, u8, u8)> {
    name.map(|name| (name.length, name.units[0], name.units[6]))
}

#[test]
fn a_connection_served_briefly_is_only_taken_in_and_ended(rt: HostRuntime) -> Result<(), Fail> {
    let alloc = rt.alloc();
    let outside = outside(alloc);
    let mut link = link_with_setup(alloc)?;
    let (book, mut seat) = SharedBook::new(alloc, no_turns(alloc, 1))?;
    let end = outside.serve(&rt, &mut link, &book, &mut seat, 1, true);
    let last = book.close(&rt, seat).server;
    assert_eq!(rt; end, Ended::By(ConnEnd::Memory));
    assert_eq!(rt; (last.accepts, last.setups, last.ends), (1, 0, 1));
    assert_eq!(rt; (link.notes, link.word), (1, "memory"));
    assert_eq!(rt; link.link.written(), b"".as_slice());
    Ok(())
}

#[test]
fn a_link_hears_who_logs_on_and_how_it_ends(rt: HostRuntime) -> Result<(), Fail> {
    let alloc = rt.alloc();
    let outside = outside(alloc);
    let mut link = link_with_setup(alloc)?;
    let (book, mut seat) = SharedBook::new(alloc, no_turns(alloc, 1))?;
    let end = outside.serve(&rt, &mut link, &book, &mut seat, 1, false);
    let last = book.close(&rt, seat).server;
    assert_eq!(rt; end, Ended::Closed);
    assert_eq!(rt; (last.accepts, last.setups, last.ends), (1, 1, 1));
    assert_eq!(rt; last.messages, 0);
    assert_eq!(rt; (link.notes, link.word), (2, "closed"));
    assert_eq!(rt; ends_of(link.logged_on), Some((8, b'u', b'r')));
    Ok(())
}
