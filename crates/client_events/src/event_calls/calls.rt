// Each event but a response.
ghost use Rattle.std.specs.Prelude.{◌≡◌, ◌==◌, true, if◌then◌else◌, IfOk, OnErr, OnOk};
ghost use Rattle.spec_exchange.specs.Client.{Client as Model};
ghost use Rattle.spec_exchange.specs.ClientStep.{CloseChannel, CloseChannels, Nothing};
ghost use Rattle.client_steps.specs.pushing.Acts.{act_of as pushed_act};
ghost use Rattle.client_steps.specs.whole_client.Shown.{FitsClient, ShowsClient};
ghost use Rattle.client_rows.specs.session_state.Shown.{ready_at};
ghost use Rattle.client_events.specs.declared.event_calls.steps.Event.TheVariants as events;
ghost use Rattle.client_events.specs.event_calls.Events.{KeepsShown, ClientEventLacks, ShowsOne, TellsOne, act_at_cut, act_of};

use crate::event_calls::steps::Act;
use client_rows::Cut;
use client_steps::{Client, Pushed};
use client_values::{OpKind, Why};
use std::alloc::{AllocError, Global};
use wire_bytes::Refusal;

pub(crate) fn submit(
    client: &mut Client,
    number: u32,
    kind: OpKind,
    alloc: Global,
) -> Result<Act, AllocError>
    requires fits { FitsClient client.old }
    ensures fits { FitsClient client.new }
    ensures shown { OnOk result (ShowsOne client.old client.new (events.Submit number kind)) }
    ensures told { IfOk result (TellsOne client.old (events.Submit number kind)) }
    ensures kept { OnErr result (KeepsShown client.old client.new) }
    ensures lacks { OnErr result (ClientEventLacks client.old (events.Submit number kind)) }
{
    match client.submit(number, kind, alloc) {
        Ok(_) => Ok(Act::Nothing),
        Err(error) => Err(error),
    }
}

fn act_of_push(pushed: Pushed) -> Act
    ensures { act_of result ≡ pushed_act pushed }
{
    match pushed {
        Pushed::Nothing => Act::Nothing,
        Pushed::Goes { index, asking } => {
            if asking {
                Act::Asks(index)
            } else {
                Act::Sends(index)
            }
        }
        Pushed::CloseAll => Act::CloseChannels,
        Pushed::Done => Act::AllSettled,
    }
}

pub(crate) fn push(client: &mut Client, channel: u8, credits: u32) -> Act
    requires fits { FitsClient client.old }
    ensures fits { FitsClient client.new }
    ensures shown { ShowsOne client.old client.new (events.Push channel credits) }
    ensures told { TellsOne client.old (events.Push channel credits) result }
{
    act_of_push(client.push(channel, credits))
}

fn act_of_cut(cut: Cut) -> Act
    ensures { act_of result ≡ act_at_cut cut }
{
    match cut {
        Cut::Nothing => Act::Nothing,
        Cut::Lost => Act::Nothing,
        Cut::Ends => Act::CloseChannels,
    }
}

pub(crate) fn cut(client: &mut Client, channel: u8) -> Act
    requires fits { FitsClient client.old }
    ensures fits { FitsClient client.new }
    ensures shown { ShowsOne client.old client.new (events.Cut channel) }
    ensures told { TellsOne client.old (events.Cut channel) result }
{
    act_of_cut(client.cut(channel))
}

fn is_ready(client: &Client, channel: u8) -> bool
    ensures shown { (c : Model) → ShowsClient client.now c → result ≡ c.ready channel }
    ensures here { result ≡ ready_at client.now.table.session channel }
{
    client.table.session.is_ready(channel as u32)
}

fn is_own(client: &Client, session: u64) -> bool
    ensures { (c : Model) → ShowsClient client.now c → result ≡ (session == c.session) }
{
    let own = client.table.session.id();
    session == own
}

/// The connection stays where the channel is ready now.
fn act_where(stays: bool) -> Act
    ensures { act_of result ≡ (if stays then Nothing else CloseChannel) }
{
    if stays {
        Act::Nothing
    } else {
        Act::CloseChannel
    }
}

/// A ready channel can't become ready in another session.
pub(crate) fn ready(client: &mut Client, channel: u8, session: u64, tree: u32) -> Act
    requires fits { FitsClient client.old }
    ensures fits { FitsClient client.new }
    ensures shown { ShowsOne client.old client.new (events.Ready channel session tree) }
    ensures told { TellsOne client.old (events.Ready channel session tree) result }
    ensures stays { (c : Model) → ShowsClient client.old c → c.ready channel ≡ true → ShowsClient client.new c }
{
    if is_ready(client, channel) {
        let own = is_own(client, session);
        return act_where(own);
    }
    let stays = client.ready(channel, session, tree);
    act_where(stays)
}

pub(crate) fn refused(client: &mut Client, channel: u8, why: Refusal) -> Result<Act, AllocError>
    requires fits { FitsClient client.old }
    ensures fits { FitsClient client.new }
    ensures shown { OnOk result (ShowsOne client.old client.new (events.Refused channel why)) }
    ensures told { IfOk result (TellsOne client.old (events.Refused channel why)) }
    ensures kept { OnErr result (KeepsShown client.old client.new) }
{
    match client.refused(channel, why) {
        Ok(()) => Ok(Act::CloseChannel),
        Err(error) => Err(error),
    }
}

pub(crate) fn finish(client: &mut Client, why: Why) -> Act
    requires fits { FitsClient client.old }
    ensures fits { FitsClient client.new }
    ensures shown { ShowsOne client.old client.new (events.Finish why) }
    ensures told { TellsOne client.old (events.Finish why) result }
{
    client.finish(why);
    Act::Nothing
}
