//! CREATE.
ghost use Rattle.std.specs.Prelude.{◌≡◌, IfOk, OnErr, None, Some, option_map};
ghost use Rattle.spec_commands.specs.Clashes.{clash_in};
ghost use Rattle.spec_commands.specs.CommandOf;
ghost use Rattle.spec_commands.specs.Text.{text_in};
ghost use Rattle.spec_wire.specs.messages.Create.{create_request_fault};
ghost use Rattle.wire_commands.specs.values.Meaning;
ghost use Rattle.wire_bytes.specs.file_messages.Views.{message_create_request};

use crate::reading::clashes::clash_in;
use crate::reading::ids::{file_of, guid_of};
use crate::reading::status::{INVALID_PARAMETER, OBJECT_NAME_INVALID, unreadable};
use crate::reading::texts::text_in;
use crate::values::{Command, CreateRequest, Durable, Reconnect};
use law_commands::same_reading_law;
use spec_wire::{CreateContexts, Dh2c, Dh2q};
use std::alloc::{AllocError, Global};
use wire_bytes::{Text, read_chain, read_create_request};

// What the contexts say, where none breaks.
fn contexts_in(bytes: &[u8]) -> Option<CreateContexts>
    ensures { CommandOf.contexts_in bytes.now ≡ result }
{
    same_reading_law();
    match read_chain(bytes) {
        Ok(contexts) => Some(contexts),
        Err(_) => None,
    }
}

fn durable_of(asked: Option<Dh2q>) -> Option<Durable>
    ensures { option_map Meaning.durable_of result ≡ option_map CommandOf.durable_of asked }
{
    match asked {
        Some(q) => Some(Durable {
            timeout: q.timeout,
            persistent: q.persistent,
            guid: guid_of(&q.guid),
        }),
        None => None,
    }
}

fn reconnect_of(asked: Option<Dh2c>) -> Option<Reconnect>
    ensures { option_map Meaning.reconnect_of result ≡ option_map CommandOf.reconnect_of asked }
{
    match asked {
        Some(q) => Some(Reconnect {
            file: file_of(&q.file),
            guid: guid_of(&q.guid),
        }),
        None => None,
    }
}

// The command of a name and of contexts that read.
fn created<'a>(v: &wire_bytes::CreateRequest<'_>, path: Text, c: &CreateContexts) -> Command<'a>
    ensures { Meaning.command_of result ≡ CommandOf.created_of (message_create_request v.now) path c.now }
{
    Command::Create(CreateRequest {
        path,
        access: v.desired_access,
        share: v.share_access,
        attributes: v.file_attributes,
        disposition: v.create_disposition,
        options: v.create_options,
        durable: durable_of(c.dh2q),
        reconnect: reconnect_of(c.dh2c),
        maximal: c.mxac,
        disk_id: c.qfid,
    })
}

// The command of a name and of contexts that read, where these don't clash.
fn unclashed<'a>(
    alloc: Global,
    v: &wire_bytes::CreateRequest<'_>,
    path: Text,
    contexts: &CreateContexts,
) -> Result<Command<'a>, AllocError>
    requires { CommandOf.contexts_in v.now.contexts.now ≡ Some contexts.now }
    ensures { IfOk result (λ c. Meaning.command_of c ≡ CommandOf.unclashed (clash_in v.now.contexts.now)
        (CommandOf.created_of (message_create_request v.now) path contexts.now)) }
{
    if clash_in(alloc, v.contexts)? {
        return Ok(Command::Unreadable {
            status: INVALID_PARAMETER,
        });
    }
    Ok(created(v, path, contexts))
}

// What asks to attach, whose name isn't judged (3.3.5.9.12).
fn nameless<'a>(
    alloc: Global,
    v: &wire_bytes::CreateRequest<'_>,
    contexts: &CreateContexts,
) -> Result<Command<'a>, AllocError>
    requires { CommandOf.contexts_in v.now.contexts.now ≡ Some contexts.now }
    ensures { IfOk result (λ c. Meaning.command_of c ≡ CommandOf.create_of (message_create_request v.now) None (Some contexts.now)
        (clash_in v.now.contexts.now)) }
{
    if contexts.dh2c.is_none() {
        return Ok(Command::Unreadable {
            status: OBJECT_NAME_INVALID,
        });
    }
    unclashed(alloc, v, Text::new(alloc), contexts)
}

// Of a name that is no text.
fn create_without_text<'a>(
    alloc: Global,
    v: &wire_bytes::CreateRequest<'_>,
) -> Result<Command<'a>, AllocError>
    ensures { IfOk result (λ c. Meaning.command_of c ≡ CommandOf.create_of (message_create_request v.now) None
        (CommandOf.contexts_in v.now.contexts.now) (clash_in v.now.contexts.now)) }
{
    match contexts_in(v.contexts) {
        Some(contexts) => nameless(alloc, v, &contexts),
        None => Ok(Command::Unreadable {
            status: OBJECT_NAME_INVALID,
        }),
    }
}

// Of a name that is text.
fn create_with_text<'a>(
    alloc: Global,
    v: &wire_bytes::CreateRequest<'_>,
    path: Text,
) -> Result<Command<'a>, AllocError>
    ensures { IfOk result (λ c. Meaning.command_of c ≡ CommandOf.create_of (message_create_request v.now) (Some path)
        (CommandOf.contexts_in v.now.contexts.now) (clash_in v.now.contexts.now)) }
{
    match contexts_in(v.contexts) {
        Some(contexts) => unclashed(alloc, v, path, &contexts),
        None => Ok(Command::Unreadable {
            status: INVALID_PARAMETER,
        }),
    }
}

fn create_of<'a>(
    alloc: Global,
    v: &wire_bytes::CreateRequest<'_>,
) -> Result<Command<'a>, AllocError>
    ensures { IfOk result (λ c. Meaning.command_of c ≡ CommandOf.create_of (message_create_request v.now) (text_in v.now.name.now)
        (CommandOf.contexts_in v.now.contexts.now) (clash_in v.now.contexts.now)) }
{
    match text_in(alloc, v.name) {
        Ok(Some(path)) => create_with_text(alloc, v, path),
        Ok(None) => create_without_text(alloc, v),
        Err(error) => Err(error),
    }
}

#[tactic(auto, unfolding(spec_commands::specs::CommandOf::create_in), using(crate::proofs::reading::Unless::reads_or_breaks))]
pub(crate) fn create_in(alloc: Global, m: &[u8]) -> Result<Command<'_>, AllocError>
    ensures lacks { OnErr result (create_request_fault m.now ≡ None) }
    ensures reads { IfOk result (λ c. Meaning.command_of c ≡ CommandOf.create_in m.now) }
{
    match read_create_request(m) {
        Ok(v) => create_of(alloc, &v),
        Err(error) => Ok(unreadable(error)),
    }
}
