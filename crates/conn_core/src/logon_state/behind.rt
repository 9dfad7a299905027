//! What a connection goes on with behind its replies.
ghost use Rattle.std.specs.Prelude.{◌≡◌, ◌++◌, ◌∷◌, ℕ, List, []};
ghost use Rattle.spec_crypto.specs.sessions.Chain.{chain};

use crate::conn::{Greeting, Logon, Progress};
use crate::message_replies::Answers;
use crate::negotiating::Hello;
use crate::reply_sealing::Said;
use crypto_sessions::{Chain, chain_law};

const SUCCESS: u32 = 0;

const NEGOTIATE: u16 = 0;

/// The logon behind the replies so far, and the number of a channel that was made, whose nonces begin anew.
#[derive(Drop)]
pub struct Behind {
    pub logon: Logon,
    pub channel: Option<u16>,
}

/// The chain behind a request and its response.
fn taken(before: Chain, request: &[u8], response: &[u8]) -> Chain
    ensures { (messages : List (List ℕ)) → chain messages ≡ before
        → chain (messages ++ request.now ∷ response.now ∷ []) ≡ result }
{
    chain_law();
    let mut chain = before;
    chain.take(request);
    chain.take(response);
    chain
}

impl Behind {
    ghost use Rattle.std.specs.Prelude.{◌≡◌, List, ℕ, Some, true, slice_get, option_copied};
    ghost use Rattle.spec_crypto.specs.sessions.Nonces.{NonceState};
    ghost use Rattle.spec_exchange.specs.Status.{success};
    ghost use Rattle.spec_world.specs.Ends.{ServerEnd};
    ghost use Rattle.spec_world.specs.Hearing as hearing;
    ghost use Rattle.spec_world.specs.Answering as answering;
    ghost use Rattle.conn_core.specs.declared.frame_messages.checked.Checked.{Checked};
    ghost use Rattle.conn_core.specs.frame_messages.Checking.{HasMessage, ShowsGoing};
    ghost use Rattle.conn_core.specs.negotiating.Greeting.{IsHello};
    ghost use Rattle.conn_core.specs.message_replies.Replying.{GreetsBy, HelloFor, IsSound, SettlesBy};
    ghost use Rattle.conn_core.specs.reply_sealing.Saying.{IsReplySaid, MovesAs};
    ghost use Rattle.conn_core.specs.logon_state.Behind.{IsHashed, ShowsBehind};

    /// A SESSION_SETUP's response moves the logon on: an interim one begins anew from NEGOTIATE.
    fn setup(&mut self, progress: Progress, request: &[u8], response: &[u8])
        ensures { (nonces : NonceState) (f : ServerEnd) (s : answering.SaidReply) → ShowsBehind nonces self.old f → MovesAs progress s
            → SettlesBy s.progress s.request s.keys → IsHashed progress s request.now
            → ShowsBehind nonces self.new (answering.server_end_moved f s response.now s.progress) }
    {
        match progress {
            Progress::Stays => (),
            Progress::Refused { .. } => (),
            Progress::Interim { .. } => {
                // Anew from NEGOTIATE, so that a logon's chain always has five messages.
                self.logon.making = Some(taken(self.logon.greeted(), request, response));
            }
            Progress::Final {
                keys,
                channel,
                encrypts,
            } => {
                self.logon.making = None;
                self.logon.keys = Some(keys);
                self.logon.encrypts = encrypts;
                self.channel = Some(channel);
            }
        }
    }

    /// A NEGOTIATE that was answered with success.
    fn negotiated(&mut self, hello: &Hello, request: &[u8], response: &[u8])
        ensures { (nonces : NonceState) (guid salt : List ℕ) (now : ℕ) (f : ServerEnd) (s : answering.SaidReply)
            → ShowsBehind nonces self.old f → IsHello guid salt now s.request.bytes hello.now → GreetsBy s
            → hearing.is_negotiate s.request.header ≡ true → s.header.status ≡ success → s.request.raw ≡ request.now
            → ShowsBehind nonces self.new (record f { greeting = answering.greeting_behind f.greeting s response.now }) }
    {
        self.logon.greeting = Some(Greeting {
            client: hello.client,
            chosen: hello.chosen,
            chain: taken(Chain::start(), request, response),
        });
    }

    /// Behind a success of a NEGOTIATE.
    fn greet(&mut self, hello: Option<&Hello>, request: &[u8], response: &[u8])
        ensures { (nonces : NonceState) (guid salt : List ℕ) (now : ℕ) (f : ServerEnd) (s : answering.SaidReply)
            → ShowsBehind nonces self.old f → HelloFor guid salt now s.request (option_copied hello.entry) → GreetsBy s
            → hearing.is_negotiate s.request.header ≡ true → s.header.status ≡ success → s.request.raw ≡ request.now
            → ShowsBehind nonces self.new (record f { greeting = answering.greeting_behind f.greeting s response.now }) }
    {
        match hello {
            Some(hello) => self.negotiated(hello, request, response),
            None => (),
        }
    }

    /// Behind the reply to a NEGOTIATE.
    fn greet_by(&mut self, said: &Said<'_>, hello: Option<&Hello>, request: &[u8], response: &[u8])
        ensures { (nonces : NonceState) (guid salt : List ℕ) (now : ℕ) (f : ServerEnd) (s : answering.SaidReply)
            → ShowsBehind nonces self.old f → IsReplySaid said.now s → HelloFor guid salt now s.request (option_copied hello.entry) → GreetsBy s
            → hearing.is_negotiate s.request.header ≡ true → s.request.raw ≡ request.now
            → ShowsBehind nonces self.new (record f { greeting = answering.greeting_behind f.greeting s response.now }) }
    {
        if said.header.status == SUCCESS {
            self.greet(hello, request, response);
        }
    }

    /// Behind a reply of these bytes.
    pub fn go_on(&mut self, said: &Said<'_>, answers: &Answers<'_>, response: &[u8])
        requires { HasMessage answers.now.asked.now said.now.at }
        ensures { (nonces : NonceState) (guid salt : List ℕ) (f : ServerEnd) (m : Checked) (s : answering.SaidReply)
            → ShowsBehind nonces self.old f → IsReplySaid said.now s → IsSound s
            → slice_get answers.now.asked.now.messages.items said.now.at ≡ Some m
            → ShowsGoing answers.now.asked.now.bytes.items m s.request
            → HelloFor guid salt answers.now.asked.now.moment s.request (option_copied answers.now.hello)
            → ShowsBehind nonces self.new (answering.server_end_behind f s response.now) }
    {
        let request = answers.asked.message(said.at);
        self.setup(said.progress, request, response);
        if answers.asked.checked(said.at).header.command == NEGOTIATE {
            self.greet_by(said, answers.hello, request, response);
        }
    }
}
