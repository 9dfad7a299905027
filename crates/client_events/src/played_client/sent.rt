// What goes out of an operation.
ghost use Rattle.std.specs.Prelude.{◌≡◌, ℕ, ◌<◌, nat_lt, length, true, false, if◌then◌else◌, IfOk, OnErr};
ghost use Rattle.spec_exchange.specs.Operations.{reconnect_of as reconnecting, request_of as requesting};
ghost use Rattle.spec_exchange.specs.Client.{Client as Model, ask_message, create_for, guid_for, is_taken, own_message};
ghost use Rattle.wire_commands.specs.values.Meaning.{client_command_of};
ghost use Rattle.client_steps.specs.whole_client.Shown.{FitsClient, ShowsClient};
ghost use Rattle.client_steps.specs.sent_requests.Sent.{IsHead};

use crate::event_calls::Client;
use anyhow::{Result, bail};
use client_steps::{Head, ask_head, ask_request, own_head, own_request};
use std::alloc::{AllocError, Global};
use wire_commands::ClientCommand;

fn has_row(client: &Client, index: usize) -> bool
    ensures { result ≡ nat_lt index (length client.now.table.rows.items) }
{
    index < client.table.rows.len()
}

fn has_op(client: &Client, index: usize) -> bool
    ensures above { result ≡ true → 0 < index }
    ensures within { result ≡ true → index < length client.now.table.rows.items }
    ensures none { result ≡ false → 0 < index → index < length client.now.table.rows.items → ⊥ }
{
    if index == 0 {
        return false;
    }
    has_row(client, index)
}

pub(crate) fn head_of(client: &Client, index: usize, asking: bool) -> Result<Head>
    requires fits { FitsClient client.now }
    ensures message { IfOk result (λ h. (c : Model) (k id : ℕ) → ShowsClient client.now c
        → IsHead h (if asking then ask_message c k id index else own_message c k id index)) }
    ensures none { OnErr result ((c : Model) → ShowsClient client.now c → is_taken c index ≡ false) }
{
    if !has_op(client, index) {
        bail!("no operation");
    }
    if asking {
        return Ok(ask_head(&client.table));
    }
    Ok(own_head(&client.table, index))
}

fn own<'a>(
    alloc: Global,
    client: &'a Client,
    index: usize,
    salt: u64,
) -> Result<ClientCommand<'a>, AllocError>
    requires fits { FitsClient client.now }
    requires above { 0 < index }
    requires within { index < length client.now.table.rows.items }
    ensures { IfOk result (λ q. (c : Model) → ShowsClient client.now c → c.who.salt ≡ salt → client_command_of q
        ≡ requesting (c.op index) (guid_for c index) (c.file (create_for c index)) (c.slot_of index) (c.number_of index)) }
{
    own_request(alloc, &client.table, &client.opened, index, salt)
}

fn ask<'a>(client: &'a Client, index: usize, salt: u64) -> Result<ClientCommand<'a>, AllocError>
    requires fits { FitsClient client.now }
    requires above { 0 < index }
    requires within { index < length client.now.table.rows.items }
    ensures { IfOk result (λ q. (c : Model) → ShowsClient client.now c → c.who.salt ≡ salt → client_command_of q
        ≡ reconnecting (c.op (create_for c index)) (guid_for c (create_for c index)) (c.file (create_for c index))) }
{
    ask_request(&client.table, &client.opened, index, salt)
}

/// The operation's own request, or the request to attach its open in its place (`asking`).
fn either<'a>(
    alloc: Global,
    client: &'a Client,
    index: usize,
    asking: bool,
    salt: u64,
) -> Result<ClientCommand<'a>, AllocError>
    requires fits { FitsClient client.now }
    requires above { 0 < index }
    requires within { index < length client.now.table.rows.items }
    ensures { IfOk result (λ q. (c : Model) → ShowsClient client.now c → c.who.salt ≡ salt → client_command_of q
        ≡ (if asking then reconnecting (c.op (create_for c index)) (guid_for c (create_for c index)) (c.file (create_for c index))
        else requesting (c.op index) (guid_for c index) (c.file (create_for c index)) (c.slot_of index) (c.number_of index))) }
{
    if asking {
        return ask(client, index, salt);
    }
    own(alloc, client, index, salt)
}

pub(crate) fn request_of<'a>(
    alloc: Global,
    client: &'a Client,
    index: usize,
    asking: bool,
    salt: u64,
) -> Result<ClientCommand<'a>>
    requires fits { FitsClient client.now }
    ensures { IfOk result (λ q. (c : Model) → ShowsClient client.now c → c.who.salt ≡ salt → client_command_of q
        ≡ (if asking then reconnecting (c.op (create_for c index)) (guid_for c (create_for c index)) (c.file (create_for c index))
        else requesting (c.op index) (guid_for c index) (c.file (create_for c index)) (c.slot_of index) (c.number_of index))) }
{
    if !has_op(client, index) {
        bail!("no operation");
    }
    Ok(either(alloc, client, index, asking, salt)?)
}
