// A session with its channels (MS-SMB2 3.2.1.2, 3.2.1.3).
ghost use Rattle.std.specs.Prelude.{◌≡◌, ℕ, ◌+◌, ◌<◌, ◌==◌, ◌&&◌, nat_lt, true, false, if◌then◌else◌, replicate};
ghost use Rattle.spec_exchange.specs.Client.{Client as Shown, end_session, ends_at_cut, is_attached};
ghost use Rattle.spec_exchange.specs.ClientStep.{becomes_ready, cut_after, ready_after};
ghost use Rattle.spec_exchange.specs.Network.{Settings, start};
ghost use Rattle.client_rows.specs.session_state.Shown.{ClientShowsSession, cut_told, ready_at};
ghost use Rattle.client_rows.specs.session_state.Changes.{session_begun, bound, session_ended, session_lost};

/// How many channels there are; others are never ready.
pub const CHANNELS: u32 = 256;

/// The channel sequence that can't be raised any more.
const LAST_SEQUENCE: u16 = 32_767;

/// A client's session, or that it has none, and which channels are ready in it.
#[derive(Drop)]
pub struct Session {
    live: bool,
    /// Its SessionId.
    id: u64,
    /// Sessions count from 1.
    number: u32,
    /// Its TreeConnectId.
    tree: u32,
    /// Its ChannelSequence.
    sequence: u16,
    ready: [bool; 256],
    /// How many are ready.
    channels: u32,
}

/// What the cut of a channel comes to.
#[derive(Clone, Copy, Debug, PartialEq, Eq)]
pub enum Cut {
    /// The channel wasn't ready.
    Nothing,
    /// Other channels are ready still.
    Lost,
    /// The session ended with it.
    Ends,
}

fn none_ready() -> [bool; 256]
    ensures { result ≡ replicate 256 false }
{
    [false; 256]
}

/// One more, where there are fewer than 256.
fn more(channels: u32) -> u32
    ensures { channels < 256 → result ≡ channels + 1 }
{
    if channels < 256 {
        channels + 1
    } else {
        channels
    }
}

impl Session {
    /// No session yet. It takes no memory.
    pub fn new() -> Session
        ensures { (settings : Settings) → ClientShowsSession result (start settings).client }
    {
        Session {
            live: false,
            id: 0,
            number: 0,
            tree: 0,
            sequence: 0,
            ready: none_ready(),
            channels: 0,
        }
    }

    pub fn is_live(&self) -> bool
        ensures { (c : Shown) → ClientShowsSession self.now c → result ≡ c.live }
    {
        self.live
    }

    /// Its SessionId; that of the last one where there is none.
    pub fn id(&self) -> u64
        ensures { (c : Shown) → ClientShowsSession self.now c → result ≡ c.session }
    {
        self.id
    }

    /// Its number; the client counts its sessions from 1.
    pub fn number(&self) -> u32
        ensures { (c : Shown) → ClientShowsSession self.now c → result ≡ c.session_number }
    {
        self.number
    }

    /// Its TreeConnectId.
    pub fn tree(&self) -> u32
        ensures { (c : Shown) → ClientShowsSession self.now c → result ≡ c.tree }
    {
        self.tree
    }

    /// Its ChannelSequence, which each cut of a channel raises.
    pub fn sequence(&self) -> u16
        ensures { (c : Shown) → ClientShowsSession self.now c → result ≡ c.sequence }
    {
        self.sequence
    }

    /// How many channels are ready.
    pub fn channels(&self) -> u32
        ensures { (c : Shown) → ClientShowsSession self.now c → result ≡ c.channels }
    {
        self.channels
    }

    pub fn is_ready(&self, channel: u32) -> bool
        ensures shown { (c : Shown) → ClientShowsSession self.now c → result ≡ c.ready channel }
        ensures here { channel < 256 → result ≡ ready_at self.now channel }
        ensures within { result ≡ true → channel < 256 }
    {
        channel < CHANNELS && self.ready[channel as usize]
    }

    /// Whether an open is attached in this session, by the number of the session in which it was opened or attached last.
    pub fn is_attached(&self, attached: u32) -> bool
        ensures { (c : Shown) (create : ℕ) → ClientShowsSession self.now c → c.attached create ≡ attached → result ≡ is_attached c create }
    {
        self.live && attached == self.number
    }

    /// Whether a request that went out with this ChannelSequence is older than the last cut.
    pub fn is_behind(&self, sequence: u16) -> bool
        ensures { (c : Shown) → ClientShowsSession self.now c → result ≡ nat_lt sequence c.sequence }
    {
        sequence < self.sequence
    }

    /// The dialog of a channel that isn't ready ended well, in a session with these ids: the channel is ready in it, and the
    /// session begins where there is none. False where it can't be: another session is live, its id isn't above the last
    /// one's, or sessions were counted to the end. The channel isn't ready then, and nothing changes.
    pub fn ready(&mut self, channel: u32, session: u64, tree: u32) -> bool
        requires within { channel < 256 }
        requires apart { ready_at self.old channel ≡ false }
        ensures shown { (c : Shown) → ClientShowsSession self.old c → ClientShowsSession self.new (ready_after c channel session tree) }
        ensures told { (c : Shown) → ClientShowsSession self.old c → result ≡ becomes_ready c session }
        ensures refused { result ≡ false → self.new ≡ self.old }
    {
        if !self.takes(session) {
            return false;
        }
        if self.live {
            self.bind(channel);
        } else {
            self.begin(channel, session, tree);
        }
        true
    }

    /// Whether a channel may become ready in a session with this id.
    fn takes(&self, session: u64) -> bool
        ensures { result ≡ (if self.now.live then (session == self.now.id)
            else (nat_lt self.now.id session && nat_lt self.now.number 4294967295)) }
    {
        if self.live {
            session == self.id
        } else {
            self.id < session && self.number < u32::MAX
        }
    }

    fn bind(&mut self, channel: u32)
        requires within { channel < 256 }
        ensures is { self.new ≡ bound self.old channel self.new.channels }
        ensures counted { self.old.channels < 256 → self.new.channels ≡ self.old.channels + 1 }
    {
        self.ready[channel as usize] = true;
        self.channels = more(self.channels);
    }

    fn begin(&mut self, channel: u32, session: u64, tree: u32)
        requires within { channel < 256 }
        requires room { self.old.number < 4294967295 }
        ensures { self.new ≡ session_begun self.old channel session tree }
    {
        self.live = true;
        self.id = session;
        self.number += 1;
        self.tree = tree;
        self.sequence = 0;
        self.ready[channel as usize] = true;
        self.channels = 1;
    }

    /// A channel is cut. The session ends with its last ready one, or where its ChannelSequence can't be raised.
    pub fn cut(&mut self, channel: u32) -> Cut
        ensures shown { (c : Shown) → ClientShowsSession self.old c → ClientShowsSession self.new (cut_after c channel) }
        ensures told { (c : Shown) → ClientShowsSession self.old c → result ≡ cut_told c channel }
    {
        if !self.is_ready(channel) {
            return Cut::Nothing;
        }
        if self.is_last() {
            self.close();
            return Cut::Ends;
        }
        self.lose(channel);
        Cut::Lost
    }

    /// Whether the session ends with the next cut of a ready channel.
    fn is_last(&self) -> bool
        ensures shown { (c : Shown) (k : ℕ) → ClientShowsSession self.now c → k < 256 → ready_at self.now k ≡ true
            → result ≡ ends_at_cut c }
        ensures more { result ≡ false → 1 < self.now.channels }
        ensures below { result ≡ false → self.now.sequence < 32767 }
    {
        self.channels <= 1 || self.sequence >= LAST_SEQUENCE
    }

    fn lose(&mut self, channel: u32)
        requires within { channel < 256 }
        requires more { 1 < self.old.channels }
        requires below { self.old.sequence < 32767 }
        ensures { self.new ≡ session_lost self.old channel }
    {
        self.ready[channel as usize] = false;
        self.channels -= 1;
        self.sequence += 1;
    }

    /// The session ends, with all its channels.
    pub fn end(&mut self)
        ensures { (c : Shown) → ClientShowsSession self.old c → ClientShowsSession self.new (end_session c) }
    {
        self.close();
    }

    fn close(&mut self)
        ensures { self.new ≡ session_ended self.old }
    {
        self.live = false;
        self.ready = none_ready();
        self.channels = 0;
    }
}
