ghost use Rattle.std.specs.Prelude.{◌≡◌, ◌==◌, ◌&&◌, false, true, not, IfOk, Some, option_map, nat_le};
ghost use Rattle.wire_commands.specs.values.Meaning.{command_of, create_of, durable_of, message_of};
ghost use Rattle.spec_exchange.specs.Commands.{asks_directory};
ghost use Rattle.spec_exchange.specs.Effects.{create_records, final_attributes, is_persistent, new_file, new_open, next_open, timeout_of};
ghost use Rattle.spec_exchange.specs.Opens.{max_ids};
ghost use Rattle.spec_exchange.specs.Records.{origin_of};
ghost use Rattle.spec_exchange.specs.State.{CreateRecord, Server};
ghost use Rattle.store_files.specs.file_tree.Shown.{ShowsFiles};
ghost use Rattle.journal_bytes.specs.record_bytes.Meaning.{opened, record_of, records_of};
ghost use Rattle.store_opens.specs.open_table.Shown.{ShowsOpens};
ghost use Rattle.server_plan.specs.owed_records.Owing.{IsOwedCreate, IsThere};
ghost use Rattle.server_checks.specs.verdicts.Views.{create_in};
ghost use Rattle.server_checks.specs.session_table.Shown.{ShowsSessions};
ghost use Rattle.spec_wire.specs.messages.Places.{number_of};

use crate::owed_records::records::{no_record, one_record, origin_of};
use journal_bytes::{NewOpen, Record, Records};
use server_checks::session_table::Sessions;
use server_checks::{granted, has_bit, kept_attributes, made_attributes};
use std::alloc::{AllocError, Global};
use store_files::Tree;
use store_opens::Opens;
use wire_bytes::Text;
use wire_commands::{Command, CreateRequest, Durable, Message};

// The records of a CREATE that succeeds.
pub(crate) fn create_records(
    alloc: Global,
    opens: &Opens,
    tree: &Tree,
    sessions: &Sessions,
    m: &Message<'_>,
    found: Option<u64>,
    action: u32,
    now: u64,
) -> Result<Records, AllocError>
    ensures { (s : Server) → ShowsOpens opens.now s → ShowsFiles tree.now s → ShowsSessions sessions.now s
        → nat_le max_ids s.open_ids_given ≡ false → s.present m.now.session_id ≡ true → IsThere s found
        → IsOwedCreate (command_of m.now.command)
        → IfOk result (λ rs. records_of rs ≡ create_records s (message_of m.now) (create_in (command_of m.now.command)) found action now) }
{
    match &m.command {
        Command::Create(request) => {
            request_records(alloc, opens, tree, sessions, m, request, found, action, now)
        }
        _ => Ok(no_record(alloc)),
    }
}

// A plain open of what is there owes no record.
fn request_records(
    alloc: Global,
    opens: &Opens,
    tree: &Tree,
    sessions: &Sessions,
    m: &Message<'_>,
    request: &CreateRequest,
    found: Option<u64>,
    action: u32,
    now: u64,
) -> Result<Records, AllocError>
    ensures { (s : Server) → ShowsOpens opens.now s → ShowsFiles tree.now s → ShowsSessions sessions.now s
        → nat_le max_ids s.open_ids_given ≡ false → s.present m.now.session_id ≡ true → IsThere s found
        → IfOk result (λ rs. records_of rs ≡ create_records s (message_of m.now) (create_of request.now) found action now) }
{
    if owes_nothing(action, request.durable) {
        return Ok(no_record(alloc));
    }
    let file = new_file(tree, found);
    let access = granted(tree, file, request.access);
    let made = new_open(alloc, opens, sessions, m, request, access)?;
    let one = create_record(tree, m, request, found, action, now, made)?;
    one_record(alloc, one)
}

fn owes_nothing(action: u32, durable: Option<Durable>) -> bool
    ensures { result ≡ ((action == 1) && not (is_persistent (option_map durable_of durable))) }
{
    action == 1 && !is_persistent(durable)
}

fn is_persistent(durable: Option<Durable>) -> bool
    ensures { result ≡ is_persistent (option_map durable_of durable) }
{
    match durable {
        Some(durable) => durable.persistent,
        None => false,
    }
}

fn create_record(
    tree: &Tree,
    m: &Message<'_>,
    request: &CreateRequest,
    found: Option<u64>,
    action: u32,
    now: u64,
    made: Option<NewOpen>,
) -> Result<Record, AllocError>
    ensures { IfOk result (λ r. (s : Server) → ShowsFiles tree.now s → IsThere s found → record_of r
        ≡ CreateRecord (origin_of (message_of m.now)) action (new_file s found) request.now.path
        (final_attributes s (create_of request.now) found) (asks_directory (create_of request.now)) now (opened made)) }
{
    let origin = origin_of(m);
    let file = new_file(tree, found);
    let directory = has_bit(request.options, 0x1);
    let attributes = final_attributes(tree, request, found);
    let path = request.path.copy()?;
    Ok(Record::Create {
        origin,
        action,
        file,
        path,
        attributes,
        directory,
        time: now,
        opened: made,
    })
}

// What is found, or the number of the next file.
fn new_file(tree: &Tree, found: Option<u64>) -> u64
    ensures { (s : Server) → ShowsFiles tree.now s → result ≡ new_file s found }
{
    match found {
        Some(file) => file,
        None => tree.next_file(),
    }
}

// Those that the file has behind the CREATE.
fn final_attributes(tree: &Tree, request: &CreateRequest, found: Option<u64>) -> u32
    ensures { (s : Server) → ShowsFiles tree.now s → IsThere s found
        → result ≡ final_attributes s (create_of request.now) found }
{
    match found {
        Some(file) => kept_attributes(tree, request, file),
        None => made_attributes(request),
    }
}

// The persistent open that a CREATE makes, where it makes one, with this access.
fn new_open(
    alloc: Global,
    opens: &Opens,
    sessions: &Sessions,
    m: &Message<'_>,
    request: &CreateRequest,
    access: u32,
) -> Result<Option<NewOpen>, AllocError>
    ensures { (s : Server) → ShowsOpens opens.now s → ShowsSessions sessions.now s → nat_le max_ids s.open_ids_given ≡ false
        → s.present m.now.session_id ≡ true → IfOk result (λ o. opened o
        ≡ new_open s (message_of m.now) (create_of request.now) access (option_map durable_of request.now.durable)) }
{
    match request.durable {
        Some(durable) => durable_open(alloc, opens, sessions, m, request, durable, access),
        None => Ok(None),
    }
}

fn durable_open(
    alloc: Global,
    opens: &Opens,
    sessions: &Sessions,
    m: &Message<'_>,
    request: &CreateRequest,
    durable: Durable,
    access: u32,
) -> Result<Option<NewOpen>, AllocError>
    ensures { (s : Server) → ShowsOpens opens.now s → ShowsSessions sessions.now s → nat_le max_ids s.open_ids_given ≡ false
        → s.present m.now.session_id ≡ true
        → IfOk result (λ o. opened o ≡ new_open s (message_of m.now) (create_of request.now) access (Some (durable_of durable))) }
{
    if !durable.persistent {
        return Ok(None);
    }
    match opens.next_id() {
        Some(id) => persistent_open(alloc, sessions, m, request, durable, access, id),
        None => Ok(None),
    }
}

// The same, under this id.
fn persistent_open(
    alloc: Global,
    sessions: &Sessions,
    m: &Message<'_>,
    request: &CreateRequest,
    durable: Durable,
    access: u32,
    id: u64,
) -> Result<Option<NewOpen>, AllocError>
    ensures { (s : Server) → ShowsSessions sessions.now s → s.present m.now.session_id ≡ true → durable.persistent ≡ true
        → id ≡ next_open s
        → IfOk result (λ o. opened o ≡ new_open s (message_of m.now) (create_of request.now) access (Some (durable_of durable))) }
{
    let user = user_of(alloc, sessions, m.session_id)?;
    let client = guid_bytes(m.client_guid);
    let guid = guid_bytes(durable.guid);
    let timeout = timeout_of(durable.timeout);
    Ok(Some(NewOpen {
        id,
        client,
        guid,
        user,
        access,
        share: request.share,
        options: request.options,
        timeout,
    }))
}

// The bytes of a GUID, its first the lowest.
fn guid_bytes(guid: u128) -> [u8; 16]
    ensures { number_of result ≡ guid }
{
    guid.to_le_bytes()
}

// The user of a session that is there.
fn user_of(alloc: Global, sessions: &Sessions, session: u64) -> Result<Text, AllocError>
    ensures { (s : Server) → ShowsSessions sessions.now s → s.present session ≡ true → IfOk result (λ t. t ≡ s.user session) }
{
    match sessions.row(session) {
        Some(row) => row.user.copy(),
        None => Text::from_str(alloc, ""),
    }
}

/// DH2Q's timeout: 0 counts as a minute, more than five as five.
#[tactic(auto, unfolding(spec_exchange::specs::Effects::timeout_of))]
pub fn timeout_of(timeout: u32) -> u32
    ensures { result ≡ timeout_of timeout }
{
    if timeout == 0 {
        60_000
    } else if timeout > 300_000 {
        300_000
    } else {
        timeout
    }
}
