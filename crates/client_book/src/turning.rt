//! The turns of a client by their kinds.
ghost use Rattle.std.specs.Prelude.{◌≡◌, ◌||◌, ◌⊎◌, false};
ghost use Rattle.client_ends.specs.declared.line_calls.incoming.Answer.{Answer as Answered};
ghost use Rattle.client_steps.specs.whole_client.Shown.{ShowsClient};
ghost use Rattle.spec_exchange.specs.Client.{Client};
ghost use Rattle.client_book.specs.Reading.{IsResponseOf};
ghost use Rattle.client_book.specs.Steps.{Fails, Finishes, GivesUp, Goes, Hears, LeavesClient, Stops, StopsOr, TakesAs};
ghost use Rattle.client_book.specs.Steps.{TellsAct, TellsRequestOr, behind_ready, ended_on, failing, is_nothing, opened_by, shared_of};
ghost use Rattle.client_book.specs.declared.turn.Turn.TheVariants as turns;

use crate::asking::request_for;
use crate::book::{ClientBook, happen};
use crate::reading::{Response, reply_for, response_of};
use crate::turn::{Told, Turn};
use client_ends::Answer;
use client_events::{Act, Event};
use client_values::Why;
use spec_crypto::Keys;
use wire_bytes::Refusal;

/// So many connects that fail in a row end it all. MS-SMB2 has no number.
const MOST_FAILED: u32 = 8;

fn either(a: bool, b: bool) -> bool
    ensures { result ≡ (a || b) }
{
    a || b
}

/// Whether nothing is to be done.
pub fn is_nothing(told: &Told) -> bool
    ensures { result ≡ is_nothing told.now }
{
    match told {
        Told::Nothing => true,
        Told::Make { previous: _ } => false,
        Told::Bind {
            bound: _,
            number: _,
        } => false,
        Told::Send(_) => false,
        Told::Close => false,
        Told::Done => false,
        Told::Stop => false,
    }
}

impl ClientBook {
    /// From now on every turn is told to stop.
    pub(crate) fn stop(&mut self) -> Told
        ensures { Stops result self.new }
    {
        self.stopped = true;
        Told::Stop
    }

    /// The request of what goes out.
    fn send_number(&mut self, number: u32, asking: bool) -> Told
        ensures { TellsRequestOr self.old number asking result self.new }
    {
        match request_for(&self.client, self.alloc, self.salt, number, asking) {
            Ok(request) => Told::Send(request),
            Err(_) => self.stop(),
        }
    }

    /// Operations are counted in 32 bits.
    fn send(&mut self, number: usize, asking: bool) -> Told
        ensures { TellsRequestOr self.old number asking result self.new }
    {
        match u32::try_from(number) {
            Ok(number) => self.send_number(number, asking),
            Err(_) => self.stop(),
        }
    }

    /// What is told of an act.
    fn tell(&mut self, act: Act) -> Told
        ensures { Stops result self.new ⊎ ((self.new ≡ self.old) × TellsAct act self.old.client self.old.salt result) }
    {
        match act {
            Act::Nothing => Told::Nothing,
            Act::Sends(number) => self.send(number, false),
            Act::Asks(number) => self.send(number, true),
            Act::CloseChannel => Told::Close,
            Act::CloseChannels => Told::Close,
            Act::AllSettled => Told::Done,
        }
    }

    /// An event happens to the client.
    fn take(&mut self, event: Event) -> Told
        requires { self.old.stopped ≡ false }
        ensures { TakesAs self.old event result self.new }
    {
        match happen(&mut self.client, self.alloc, event) {
            Ok(act) => self.tell(act),
            Err(_) => self.stop(),
        }
    }

    fn respond(&mut self, channel: u8, response: &Response) -> Told
        requires { self.old.stopped ≡ false }
        ensures { (a : Answered) → IsResponseOf a response.now → StopsOr result self.new (Hears self.old channel a result self.new) }
    {
        match reply_for(&self.client, self.alloc, self.salt, response) {
            Ok(reply) => self.take(Event::Hear {
                channel,
                number: response.number,
                asking: response.asking,
                status: reply.status,
                body: reply.body,
            }),
            Err(_) => self.stop(),
        }
    }

    fn hear(&mut self, channel: u8, answer: Answer) -> Told
        requires { self.old.stopped ≡ false }
        ensures { StopsOr result self.new (Hears self.old channel answer result self.new) }
    {
        match response_of(answer) {
            Some(response) => self.respond(channel, &response),
            None => self.stop(),
        }
    }

    /// The first dialog of channel 0 has ended.
    fn open(&mut self, channel: u8)
        ensures client { LeavesClient self.old self.new }
        ensures shared { shared_of self.new ≡ opened_by channel (shared_of self.old) }
    {
        self.opened = either(self.opened, channel == 0);
    }

    /// A dialog of a channel has ended, and no connect has failed since.
    fn end_dialog(&mut self, channel: u8)
        ensures client { LeavesClient self.old self.new }
        ensures shared { shared_of self.new ≡ ended_on channel (shared_of self.old) }
    {
        self.failed = 0;
        self.open(channel);
    }

    /// One that names a session which has ended doesn't count as an end of the dialog.
    fn end_ready(&mut self, channel: u8, told: &Told)
        ensures client { LeavesClient self.old self.new }
        ensures shared { shared_of self.new ≡ behind_ready told.now channel (shared_of self.old) }
    {
        let nothing = is_nothing(told);
        if nothing {
            self.end_dialog(channel);
        }
    }

    fn ready(&mut self, channel: u8, session: u64, tree: u32) -> Told
        requires { self.old.stopped ≡ false }
        ensures { StopsOr result self.new (Goes self.old (turns.Ready channel session tree) result self.new) }
    {
        let told = self.take(Event::Ready {
            channel,
            session,
            tree,
        });
        self.end_ready(channel, &told);
        told
    }

    fn refused(&mut self, channel: u8, why: Refusal) -> Told
        requires { self.old.stopped ≡ false }
        ensures { StopsOr result self.new (Goes self.old (turns.Refused channel why) result self.new) }
    {
        let told = self.take(Event::Refused { channel, why });
        self.end_dialog(channel);
        told
    }

    /// All is given up.
    fn give(&mut self, why: Why) -> Told
        requires { self.old.stopped ≡ false }
        ensures { StopsOr result self.new (Finishes self.old why result self.new) }
    {
        let told = self.take(Event::Finish { why });
        self.finished = true;
        told
    }

    fn is_live(&self) -> bool
        ensures { (c : Client) → ShowsClient self.now.client c → result ≡ c.live }
    {
        self.client.client().table.session.is_live()
    }

    /// So many connects failed in a row: all is given up. Where a session is live other channels have it, and this one keeps away from it.
    fn give_up(&mut self) -> Told
        requires { self.old.stopped ≡ false }
        ensures { StopsOr result self.new (GivesUp self.old (shared_of self.old) result self.new) }
    {
        let live = self.is_live();
        if live {
            return Told::Close;
        }
        self.give(Why::GaveUp(MOST_FAILED))
    }

    fn count_failed(&mut self, channel: u8)
        ensures client { LeavesClient self.old self.new }
        ensures shared { shared_of self.new ≡ failing channel (shared_of self.old) }
    {
        self.failed = self.failed.saturating_add(1);
        self.open(channel);
    }

    /// A connect failed, and is tried again, or was the last one.
    fn fail(&mut self, channel: u8) -> Told
        requires { self.old.stopped ≡ false }
        ensures { StopsOr result self.new (Fails self.old channel result self.new) }
    {
        self.count_failed(channel);
        let few = self.failed < MOST_FAILED;
        if few {
            return Told::Nothing;
        }
        self.give_up()
    }

    fn accept(&mut self, session: u64, keys: Keys) -> Told
        requires { self.old.stopped ≡ false }
        ensures { Goes self.old (turns.Accept session keys) result self.new }
    {
        self.accepted = session;
        self.keys = keys;
        self.numbers = 1;
        Told::Nothing
    }

    fn leave(&mut self, _channel: u8) -> Told
        requires { self.old.stopped ≡ false }
        ensures { Goes self.old (turns.Leave _channel) result self.new }
    {
        self.failed = 0;
        Told::Nothing
    }

    /// A turn behind which memory is left.
    pub(crate) fn turn(&mut self, turn: Turn) -> Told
        requires { self.old.stopped ≡ false }
        ensures { StopsOr result self.new (Goes self.old turn result self.new) }
    {
        match turn {
            Turn::Submit { number, kind } => self.take(Event::Submit { number, kind }),
            Turn::Begin {
                channel,
                first,
                shuns,
            } => self.begin(channel, first, shuns),
            Turn::Failed { channel } => self.fail(channel),
            Turn::Accept { session, keys } => self.accept(session, keys),
            Turn::Ready {
                channel,
                session,
                tree,
            } => self.ready(channel, session, tree),
            Turn::Refused { channel, why } => self.refused(channel, why),
            Turn::Leave { channel } => self.leave(channel),
            Turn::Finish { why } => self.give(Why::NoSession(why)),
            Turn::Push { channel, credits } => self.take(Event::Push { channel, credits }),
            Turn::Hear { channel, answer } => self.hear(channel, answer),
            Turn::Cut { channel } => self.take(Event::Cut { channel }),
            Turn::Lack => self.stop(),
        }
    }
}
