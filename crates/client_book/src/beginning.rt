//! What a channel without a connection is to do.
ghost use Rattle.std.specs.Prelude.{◌≡◌, ◌+◌, ◌==◌, ◌&&◌, if◌then◌else◌, false};
ghost use Rattle.client_rows.specs.session_state.Shown.{ClientShowsSession};
ghost use Rattle.client_steps.specs.whole_client.Shown.{ShowsClient};
ghost use Rattle.spec_exchange.specs.Client.{Client};
ghost use Rattle.client_book.specs.Beginning.{IsNextIn, behind_begun, bound_to as bind_to, is_settled, last_number, told_begun};
ghost use Rattle.client_book.specs.Beginning.{told_live, told_none};
ghost use Rattle.client_book.specs.declared.turn.Told.TheVariants.{Bind, Nothing};
ghost use Rattle.client_book.specs.Steps.{Begins, LeavesClient, shared_of};

use crate::book::ClientBook;
use crate::turn::Told;
use client_ends::Bound;
use client_rows::Session;
use spec_crypto::Keys;

/// What a channel is bound to.
fn bound_to(session: &Session, keys: Keys) -> Bound
    ensures told { (c : Client) → ClientShowsSession session.now c → (result.session ≡ c.session) × (result.tree ≡ c.tree) }
    ensures keys { result.keys ≡ keys }
{
    Bound {
        session: session.id(),
        tree: session.tree(),
        keys,
    }
}

fn is_shunned(session: &Session, shuns: u64) -> bool
    ensures { (c : Client) → ClientShowsSession session.now c → result ≡ (c.session == shuns) }
{
    session.id() == shuns
}

fn is_live(session: &Session) -> bool
    ensures { (c : Client) → ClientShowsSession session.now c → result ≡ c.live }
{
    session.is_live()
}

pub(crate) fn is_channel_0(channel: u8) -> bool
    ensures { result ≡ (channel == 0) }
{
    channel == 0
}

fn is_last(number: u16) -> bool
    ensures { result ≡ (number == last_number) }
{
    number == u16::MAX
}

fn both(a: bool, b: bool) -> bool
    ensures { result ≡ (a && b) }
{
    a && b
}

impl ClientBook {
    /// It is bound to the session that is live, under the next number. Behind the last number it waits for another session.
    fn bind(&mut self) -> Told
        ensures client { LeavesClient self.old self.new }
        ensures shared { shared_of self.new ≡ behind_begun result (shared_of self.old) }
        ensures next { IsNextIn result (shared_of self.old) }
        ensures told { (c : Client) → ShowsClient self.old.client c
            → result ≡ (if self.old.numbers == last_number then Nothing else Bind (bind_to c (shared_of self.old)) (self.old.numbers + 1)) }
    {
        let none = is_last(self.numbers);
        if none {
            return Told::Nothing;
        }
        let number = self.numbers + 1;
        self.numbers = number;
        let bound = bound_to(&self.client.client().table.session, self.keys);
        Told::Bind { bound, number }
    }

    /// In a live session.
    fn join(&mut self, shuns: u64) -> Told
        ensures client { LeavesClient self.old self.new }
        ensures shared { shared_of self.new ≡ behind_begun result (shared_of self.old) }
        ensures next { IsNextIn result (shared_of self.old) }
        ensures told { (c : Client) → ShowsClient self.old.client c → result ≡ told_live c (shared_of self.old) shuns }
    {
        let shunned = is_shunned(&self.client.client().table.session, shuns);
        if shunned {
            return Told::Nothing;
        }
        self.bind()
    }

    /// Where no session is live channel 0 makes one, and the others wait for it.
    fn wait(&self, channel: u8, settled: bool) -> Told
        ensures told { (c : Client) → settled ≡ is_settled c → result ≡ told_none c (shared_of self.now) channel }
        ensures shared { behind_begun result (shared_of self.now) ≡ shared_of self.now }
        ensures next { IsNextIn result (shared_of self.now) }
    {
        let finished = self.finished;
        if finished {
            return Told::Done;
        }
        let first = is_channel_0(channel);
        if first {
            return Told::Make {
                previous: self.accepted,
            };
        }
        let over = both(settled, self.opened);
        if over {
            return Told::Done;
        }
        Told::Nothing
    }

    fn begin_by(&mut self, settled: bool, channel: u8, first: bool, shuns: u64) -> Told
        ensures client { LeavesClient self.old self.new }
        ensures shared { shared_of self.new ≡ behind_begun result (shared_of self.old) }
        ensures next { IsNextIn result (shared_of self.old) }
        ensures told { (c : Client) → ShowsClient self.old.client c → settled ≡ is_settled c
            → result ≡ told_begun c (shared_of self.old) channel first shuns }
    {
        let done = both(settled, !first);
        if done {
            return Told::Done;
        }
        let live = is_live(&self.client.client().table.session);
        if live {
            return self.join(shuns);
        }
        self.wait(channel, settled)
    }

    /// A channel ends where every operation is settled and one of its dialogs has ended.
    pub(crate) fn begin(&mut self, channel: u8, first: bool, shuns: u64) -> Told
        requires { self.old.stopped ≡ false }
        ensures { Begins self.old channel first shuns result self.new }
    {
        let settled = self.client.is_settled();
        self.begin_by(settled, channel, first, shuns)
    }
}
