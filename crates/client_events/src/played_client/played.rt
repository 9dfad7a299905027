// A client to which events happen. It always shows a client of the model, for which what always holds does.
ghost use Rattle.std.specs.Prelude.{◌≡◌, ℕ, ◌==◌, ◌&&◌, not, true, false, if◌then◌else◌, map, IfOk, IfSome, IfNone, OnErr, OnOk};
ghost use Rattle.spec_exchange.specs.Network.{Settings, start};
ghost use Rattle.spec_exchange.specs.Operations.{Unsettled, reconnect_of as reconnecting, request_of as requesting};
ghost use Rattle.spec_exchange.specs.Client.{Client as Model, ask_message, create_for, finish, guid_for, is_taken, own_message};
ghost use Rattle.spec_exchange.specs.ClientStep.{some_unsettled};
ghost use Rattle.law_client.specs.table.Kept.{TableKept};
ghost use Rattle.wire_commands.specs.values.Meaning.{client_command_of};
ghost use Rattle.client_values.specs.outcomes.Meaning.{dialog_of, outcome_of, why_of};
ghost use Rattle.client_steps.specs.whole_client.Shown.{FitsClient, ShowsClient};
ghost use Rattle.client_events.specs.event_calls.Events.{KeepsShown, ClientEventLacks, ClientEventTells};
ghost use Rattle.client_steps.specs.sent_requests.Sent.{IsHead};
ghost use Rattle.client_events.specs.played_client.Holding.{PlayedComes, PlayedComesTo, PlayedHolds, PlayedSteps};

use crate::event_calls::{Act, Client, Event, step};
use crate::played_client::sent::{head_of, request_of};
use anyhow::{Result, bail};
use client_steps::Head;
use client_values::{Outcome, RefusedDialog, Why};
use std::alloc::{AllocError, Global};
use std::marker::Model;
use wire_commands::ClientCommand;

/// A client, in a state to which it can come.
#[derive(Drop)]
pub struct Played {
    client: Client,
}

impl Model for Played {
    ghost use Rattle.client_steps.specs.declared.whole_client.client.Client.{Client as Core};
    ghost use Rattle.client_steps.specs.contracts.whole_client.client.Client as core;
    ghost use Rattle.client_events.specs.played_client.Holding.{PlayedHolds};

    ghost Value = { Core };

    ghost coded = { core.the_row.coded };

    ghost view = { λ p. p.client };

    ghost invariant = { λ p. PlayedHolds p.client };
}

fn first(alloc: Global) -> Client
    ensures holds { PlayedHolds result }
    ensures shown { (settings : Settings) → ShowsClient result (start settings).client }
{
    Client::new(alloc)
}

fn both(a: bool, b: bool) -> bool
    ensures { result ≡ (a && b) }
{
    a && b
}

/// Whether a channel is ready already in the session with this id.
fn is_again(client: &Client, channel: u8, session: u64) -> bool
    ensures { (c : Model) → ShowsClient client.now c → result ≡ (c.ready channel && (session == c.session)) }
{
    let ready = client.table.session.is_ready(channel as u32);
    let own = client.table.session.id();
    both(ready, session == own)
}

fn is_live(client: &Client) -> bool
    ensures { (c : Model) → ShowsClient client.now c → result ≡ c.live }
{
    client.table.session.is_live()
}

/// Whether an event can come: a channel doesn't become ready twice in its session, and no client gives up in a live session.
fn may_come(client: &Client, event: &Event) -> bool
    ensures comes { result ≡ true → PlayedComes client.now event.now }
    ensures refuses { result ≡ false → (c : Model) → ShowsClient client.now c → TableKept c → PlayedComesTo c event.now → ⊥ }
{
    match event {
        Event::Submit { .. } => true,
        Event::Push { .. } => true,
        Event::Hear { .. } => true,
        Event::Cut { .. } => true,
        Event::Ready {
            channel,
            session,
            ..
        } => !is_again(client, *channel, *session),
        Event::Refused { .. } => true,
        // With a live session, a change that was given up could act after a later one, and the order would not be
        // legal.
        Event::Finish { .. } => !is_live(client),
    }
}

fn go(client: &mut Client, event: Event, alloc: Global) -> Result<Act, AllocError>
    requires holds { PlayedHolds client.old }
    requires comes { PlayedComes client.old event }
    ensures holds { PlayedHolds client.new }
    ensures shown { OnOk result (PlayedSteps client.old client.new event) }
    ensures told { IfOk result (ClientEventTells client.old event) }
    ensures kept { OnErr result (KeepsShown client.old client.new) }
    ensures lacks { OnErr result (ClientEventLacks client.old event) }
{
    match step(client, event, alloc) {
        Ok(act) => Ok(act),
        Err(error) => Err(error),
    }
}

fn look(client: &mut Client) -> bool
    requires holds { PlayedHolds client.old }
    ensures holds { PlayedHolds client.new }
    ensures shown { (c : Model) → ShowsClient client.old c → ShowsClient client.new c }
    ensures told { (c : Model) → ShowsClient client.old c → result ≡ not (some_unsettled c c.taken) }
{
    client.is_settled()
}

impl Played {
    /// No operations, no opens and no session. It takes no memory.
    pub fn new(alloc: Global) -> Played
        ensures { (settings : Settings) → ShowsClient result (start settings).client }
    {
        let client = first(alloc);
        Played { client }
    }

    pub fn client(&self) -> &Client
        ensures { result.now ≡ self.now }
    {
        &self.client
    }

    /// How an operation settled; none where it is unsettled, or wasn't taken.
    pub fn outcome(&self, number: u32) -> Option<&Outcome>
        ensures some { IfSome result (λ o. (c : Model) → ShowsClient self.now c
            → (is_taken c number ≡ true) × (c.outcome number ≡ outcome_of o.now)) }
        ensures none { IfNone result ((c : Model) → ShowsClient self.now c → is_taken c number ≡ true → c.outcome number ≡ Unsettled) }
    {
        self.client.outcome(number)
    }

    /// The numbers of the operations that a reply settled, in the order of the replies.
    pub fn order(&self) -> &[u32]
        ensures { (c : Model) → ShowsClient self.now c → c.order ≡ result.now }
    {
        self.client.order()
    }

    /// The dialogs that were refused, in the order in which they were.
    pub fn refusals(&self) -> &[RefusedDialog]
        ensures { (c : Model) → ShowsClient self.now c → c.refusals ≡ map dialog_of result.now }
    {
        self.client.refusals()
    }

    /// Whether every operation is settled. It goes on from where it looked last.
    pub fn is_settled(&mut self) -> bool
        ensures shown { (c : Model) → ShowsClient self.old c → ShowsClient self.new c }
        ensures told { (c : Model) → ShowsClient self.old c → result ≡ not (some_unsettled c c.taken) }
    {
        look(&mut self.client)
    }

    // By value, because a `Played` gives up only where no session is live: nothing happens to this client any more.
    /// The client ends, in a live session too: all that was taken and is unsettled is given up, and no event happens to it any more.
    pub fn end(self, why: Why) -> Client
        ensures fits { FitsClient result }
        ensures shown { (c : Model) → ShowsClient self c → ShowsClient result (finish c (why_of why)) }
    {
        let mut client = self.client;
        client.finish(why);
        client
    }

    /// What the client does at an event. An error where the event can't come, and where memory runs out; then nothing happened.
    pub fn step(&mut self, event: Event, alloc: Global) -> Result<Act>
        ensures shown { OnOk result (PlayedSteps self.old self.new event) }
        ensures told { IfOk result (ClientEventTells self.old event) }
        ensures kept { OnErr result (KeepsShown self.old self.new) }
        ensures lacks { OnErr result (PlayedComes self.old event → ClientEventLacks self.old event) }
    {
        if !may_come(&self.client, &event) {
            bail!("an event that can't come");
        }
        Ok(go(&mut self.client, event, alloc)?)
    }

    /// The header with which an operation goes out, or the request to attach its open in its place. An error where there is no such
    /// operation.
    pub fn head(&self, index: usize, asking: bool) -> Result<Head>
        ensures message { IfOk result (λ h. (c : Model) (k id : ℕ) → ShowsClient self.now c
            → IsHead h (if asking then ask_message c k id index else own_message c k id index)) }
        ensures none { OnErr result ((c : Model) → ShowsClient self.now c → is_taken c index ≡ false) }
    {
        head_of(&self.client, index, asking)
    }

    /// The request that goes out. `salt` are the eight random bytes of a run.
    pub fn request(
        &self,
        alloc: Global,
        index: usize,
        asking: bool,
        salt: u64,
    ) -> Result<ClientCommand<'_>>
        ensures { IfOk result (λ q. (c : Model) → ShowsClient self.now c → c.who.salt ≡ salt → client_command_of q
            ≡ (if asking then reconnecting (c.op (create_for c index)) (guid_for c (create_for c index)) (c.file (create_for c index))
            else requesting (c.op index) (guid_for c index) (c.file (create_for c index)) (c.slot_of index) (c.number_of index))) }
    {
        request_of(alloc, &self.client, index, asking, salt)
    }
}
