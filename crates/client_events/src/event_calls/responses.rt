// A response is heard, by its status and its body.
ghost use Rattle.std.specs.Prelude.{◌≡◌, ◌<◌, false, if◌then◌else◌, length, option_map, slice_index_or, IfOk, OnErr, OnOk};
ghost use Rattle.spec_exchange.specs.Status.{success};
ghost use Rattle.spec_exchange.specs.Client.{Client as Model};
ghost use Rattle.spec_exchange.specs.ClientStep.{CloseChannels, Nothing};
ghost use Rattle.spec_exchange.specs.Operations.{value_in as value};
ghost use Rattle.wire_commands.specs.values.Meaning.{body_of};
ghost use Rattle.client_values.specs.declared.operations.values.OpKind.TheVariants as kinds;
ghost use Rattle.client_values.specs.declared.operations.shapes.Kind.TheVariants as shapes;
ghost use Rattle.client_values.specs.operations.Waiting.{kind_of};
ghost use Rattle.client_values.specs.operations.Meaning.{op_of, reply_of};
ghost use Rattle.client_steps.specs.whole_client.Shown.{FitsClient, ShowsClient};
ghost use Rattle.client_events.specs.declared.event_calls.steps.Event.TheVariants as events;
ghost use Rattle.client_events.specs.event_calls.Events.{KeepsShown, ClientEventLacks, ShowsStep, ClientEventTells, act_of};

use crate::event_calls::steps::Act;
use client_steps::{Client, Response, is_awaited};
use client_values::{OpKind, OpReply, id_in, value_in};
use std::alloc::{AllocError, Global};
use wire_commands::Body;

fn value_at(
    alloc: Global,
    ops: &[OpKind],
    place: usize,
    body: Body,
) -> Result<Option<OpReply>, AllocError>
    requires { place < length ops.now }
    ensures reads { IfOk result (λ v. option_map reply_of v
        ≡ value (op_of (slice_index_or ops.now place (kinds.Close 0))) (body_of body)) }
    ensures lacks { OnErr result (kind_of (op_of (slice_index_or ops.now place (kinds.Close 0))) ≡ shapes.List) }
{
    value_in(alloc, &ops[place], body)
}

/// What a success says of an operation that was taken.
fn reply_in(
    alloc: Global,
    client: &Client,
    index: usize,
    body: Body,
) -> Result<Option<OpReply>, AllocError>
    requires fits { FitsClient client.now }
    requires above { 0 < index }
    requires within { index < length client.now.table.rows.items }
    ensures reads { IfOk result (λ v. (c : Model) → ShowsClient client.now c → option_map reply_of v ≡ value (c.op index) (body_of body)) }
    ensures lacks { OnErr result ((c : Model) → ShowsClient client.now c → kind_of (c.op index) ≡ shapes.List) }
{
    value_at(alloc, &client.table.ops, index - 1, body)
}

/// What a response says of an operation that was taken, which only a success of the operation itself does.
fn said_in(
    alloc: Global,
    client: &Client,
    index: usize,
    asking: bool,
    status: u32,
    body: Body,
) -> Result<Option<OpReply>, AllocError>
    requires fits { FitsClient client.now }
    requires above { 0 < index }
    requires within { index < length client.now.table.rows.items }
    ensures reads { IfOk result (λ v. (c : Model) → ShowsClient client.now c → status ≡ success → asking ≡ false
        → option_map reply_of v ≡ value (c.op index) (body_of body)) }
    ensures lacks { OnErr result ((c : Model) → ShowsClient client.now c
        → (asking ≡ false) × (status ≡ success) × (kind_of (c.op index) ≡ shapes.List)) }
{
    if asking {
        return Ok(None);
    }
    if status == 0 {
        return reply_in(alloc, client, index, body);
    }
    Ok(None)
}

fn act_where(closes: bool) -> Act
    ensures { act_of result ≡ (if closes then CloseChannels else Nothing) }
{
    if closes {
        Act::CloseChannels
    } else {
        Act::Nothing
    }
}

/// The response to an operation that was taken.
fn hear_taken(
    client: &mut Client,
    channel: u8,
    index: usize,
    asking: bool,
    status: u32,
    body: Body,
    alloc: Global,
) -> Result<Act, AllocError>
    requires fits { FitsClient client.old }
    requires above { 0 < index }
    requires within { index < length client.old.table.rows.items }
    ensures fits { FitsClient client.new }
    ensures shown { OnOk result (ShowsStep client.old client.new (events.Hear channel index asking status body)) }
    ensures told { IfOk result (ClientEventTells client.old (events.Hear channel index asking status body)) }
    ensures kept { OnErr result (KeepsShown client.old client.new) }
    ensures lacks { OnErr result ((c : Model) → ShowsClient client.old c
        → (asking ≡ false) × (status ≡ success) × (kind_of (c.op index) ≡ shapes.List)) }
{
    let file = id_in(&body);
    match said_in(alloc, client, index, asking, status, body) {
        Ok(reply) => {
            let response = Response {
                status,
                reply,
                file,
            };
            let closes = client.hear(channel, index, asking, response);
            Ok(act_where(closes))
        }
        Err(error) => Err(error),
    }
}

/// A response that isn't awaited changes nothing, and isn't read.
pub(crate) fn hear(
    client: &mut Client,
    channel: u8,
    number: u32,
    asking: bool,
    status: u32,
    body: Body,
    alloc: Global,
) -> Result<Act, AllocError>
    requires fits { FitsClient client.old }
    ensures fits { FitsClient client.new }
    ensures shown { OnOk result (ShowsStep client.old client.new (events.Hear channel number asking status body)) }
    ensures told { IfOk result (ClientEventTells client.old (events.Hear channel number asking status body)) }
    ensures kept { OnErr result (KeepsShown client.old client.new) }
    ensures lacks { OnErr result (ClientEventLacks client.old (events.Hear channel number asking status body)) }
{
    let index = number as usize;
    // Asked before the body is read, because the names of a listing take memory.
    if !is_awaited(&client.table, channel, index, asking) {
        return Ok(Act::Nothing);
    }
    hear_taken(client, channel, index, asking, status, body, alloc)
}
