//! The reply that a client hears of a response, as far as it looks (MS-SMB2 3.2.5).
ghost use Rattle.std.specs.Prelude.{◌≡◌, ◌==◌, if◌then◌else◌, ℕ, Bool, List, Some, None, IfOk, OnErr, option_map};
ghost use Rattle.spec_exchange.specs.Status.{success};
ghost use Rattle.spec_exchange.specs.Commands as asks;
ghost use Rattle.spec_exchange.specs.State as says;
ghost use Rattle.spec_commands.specs.ReplyOf;
ghost use Rattle.spec_wire.specs.messages.Read.{read_response_fault};
ghost use Rattle.spec_wire.specs.messages.QueryDirectory.{query_directory_response_fault};
ghost use Rattle.wire_commands.specs.reading.Lacking.{ReplyLacks};
ghost use Rattle.wire_commands.specs.values.Meaning;

use crate::reading::heard_names::listing_in;
use crate::reading::ids::file_kept;
use crate::values::{Address, Body, ClientCommand, CreateReply, Info, Reply};
use spec_exchange::values::Basic;
use spec_wire::Header;
use std::alloc::{AllocError, Global};
use wire_bytes::{
    Bytes, Text, read_close_response, read_create_response, read_flush_response,
    read_lock_response, read_read_response, read_tree_connect_response, read_write_response,
};
use wire_info::{
    read_file_standard_information, read_query_directory_response, read_query_info_response,
    read_set_info_response,
};

// Of a file a client looks at its length alone.
pub(crate) fn of_length(size: u64) -> Info
    ensures { Meaning.info_of result ≡ ReplyOf.of_length size }
{
    Info {
        file: 0,
        is_directory: false,
        size,
        is_delete_pending: false,
        times: Basic {
            created: 0,
            accessed: 0,
            written: 0,
            changed: 0,
            attributes: 0,
        },
    }
}

#[tactic(auto, unfolding(spec_commands::specs::ReplyOf::body_in))]
fn tree_in(m: &[u8]) -> Option<Body>
    ensures { (share : List ℕ) → option_map Meaning.body_of result ≡ ReplyOf.body_in (asks.TreeConnect share) m.now }
{
    match read_tree_connect_response(m) {
        Ok(v) => Some(Body::Connected {
            kind: v.share_type,
            capabilities: v.capabilities,
            access: v.maximal_access,
        }),
        Err(_) => None,
    }
}

#[tactic(auto, unfolding(spec_commands::specs::ReplyOf::body_in))]
fn created_in(m: &[u8]) -> Option<Body>
    ensures { (r : asks.CreateRequest) → option_map Meaning.body_of result ≡ ReplyOf.body_in (asks.Create r) m.now }
{
    match read_create_response(m) {
        Ok(v) => Some(Body::Created(CreateReply {
            id: file_kept(&v.file_id),
            action: v.create_action,
            info: of_length(v.end_of_file),
            timeout: None,
            maximal: false,
            disk_id: false,
        })),
        Err(_) => None,
    }
}

// A response that tells a client nothing.
fn empty_if(reads: bool) -> Option<Body>
    ensures { option_map Meaning.body_of result ≡ (if reads then Some says.Empty else None) }
{
    if reads { Some(Body::Empty) } else { None }
}

#[tactic(auto, unfolding(spec_commands::specs::ReplyOf::body_in))]
fn content_in(alloc: Global, m: &[u8]) -> Result<Option<Body>, AllocError>
    ensures lacks { OnErr result (read_response_fault m.now ≡ None) }
    ensures hears { (file at size minimum channel : ℕ) → IfOk result
        (λ found. option_map Meaning.body_of found ≡ ReplyOf.body_in (asks.Read file at size minimum channel) m.now) }
{
    match read_read_response(m) {
        Ok(v) => match Bytes::from_slice(alloc, v.payload) {
            Ok(bytes) => Ok(Some(Body::Content { bytes })),
            Err(error) => Err(error),
        },
        Err(_) => Ok(None),
    }
}

#[tactic(auto, unfolding(spec_commands::specs::ReplyOf::body_in))]
fn count_in(m: &[u8]) -> Option<Body>
    ensures { (file at : ℕ) (bytes : List ℕ) (channel : ℕ) → option_map Meaning.body_of result
        ≡ ReplyOf.body_in (asks.Write file at bytes channel) m.now }
{
    match read_write_response(m) {
        Ok(v) => Some(Body::Count { count: v.count }),
        Err(_) => None,
    }
}

// Of a QUERY_INFO this client asks the class 5 alone (MS-FSCC 2.4.41).
fn standard_in(alloc: Global, output: &[u8]) -> Option<Body>
    ensures { option_map Meaning.body_of result ≡ ReplyOf.standard_in output.now }
{
    match read_file_standard_information(output) {
        Ok(v) => Some(Body::FileInfo {
            class: 5,
            path: Text::new(alloc),
            info: of_length(v.end_of_file),
            access: 0,
            options: 0,
            position: 0,
        }),
        Err(_) => None,
    }
}

#[tactic(auto, unfolding(spec_commands::specs::ReplyOf::body_in, spec_commands::specs::ReplyOf::file_in))]
fn file_in(alloc: Global, class: u8, m: &[u8]) -> Option<Body>
    ensures { (file room : ℕ) → option_map Meaning.body_of result ≡ ReplyOf.body_in (asks.QueryFile file class room) m.now }
{
    match read_query_info_response(m) {
        Ok(v) => {
            if class == 5 {
                return standard_in(alloc, v.output);
            }
            None
        }
        Err(_) => None,
    }
}

#[tactic(auto, unfolding(spec_commands::specs::ReplyOf::body_in))]
fn list_in(alloc: Global, class: u8, m: &[u8]) -> Result<Option<Body>, AllocError>
    ensures lacks { OnErr result (query_directory_response_fault m.now ≡ None) }
    ensures hears { (file : ℕ) (restart single : Bool) (pattern : List ℕ) (room : ℕ) → IfOk result
        (λ found. option_map Meaning.body_of found ≡ ReplyOf.body_in (asks.ListDirectory file class restart single pattern room)
        m.now) }
{
    match read_query_directory_response(m) {
        Ok(v) => listing_in(alloc, class, v.output),
        Err(_) => Ok(None),
    }
}

// What a success to a command says.
#[tactic(auto, unfolding(spec_commands::specs::ReplyOf::body_in))]
fn body_in(alloc: Global, command: &ClientCommand<'_>, m: &[u8]) -> Result<Option<Body>, AllocError>
    ensures lacks { OnErr result (ReplyLacks (Meaning.client_command_of command.now) m.now) }
    ensures hears { IfOk result
        (λ found. option_map Meaning.body_of found ≡ ReplyOf.body_in (Meaning.client_command_of command.now) m.now) }
{
    // Long by its commands alone: an arm names the reader of a response.
    match command {
        ClientCommand::TreeConnect { share: _ } => Ok(tree_in(m)),
        ClientCommand::Create(_) => Ok(created_in(m)),
        ClientCommand::Close { file: _, query: _ } => Ok(empty_if(read_close_response(m).is_ok())),
        ClientCommand::Flush { file: _ } => Ok(empty_if(read_flush_response(m).is_ok())),
        ClientCommand::Read { .. } => content_in(alloc, m),
        ClientCommand::Write { .. } => Ok(count_in(m)),
        ClientCommand::Lock { .. } => Ok(empty_if(read_lock_response(m).is_ok())),
        ClientCommand::ListDirectory {
            file: _,
            class,
            restart: _,
            single: _,
            pattern: _,
            room: _,
        } => list_in(alloc, *class, m),
        ClientCommand::QueryFile {
            file: _,
            class,
            room: _,
        } => Ok(file_in(alloc, *class, m)),
        ClientCommand::SetInfo { .. } => Ok(empty_if(read_set_info_response(m).is_ok())),
        ClientCommand::Nothing => Ok(None),
    }
}

// The body of a success that doesn't read, which no operation's success has.
fn other_body() -> Body
    ensures { Meaning.body_of result ≡ ReplyOf.other_body }
{
    Body::Interfaces {
        address: Address { ip: 0, port: 0 },
    }
}

fn body_of(
    alloc: Global,
    command: &ClientCommand<'_>,
    status: u32,
    m: &[u8],
) -> Result<Body, AllocError>
    ensures lacks { OnErr result ((status ≡ success) × ReplyLacks (Meaning.client_command_of command.now) m.now) }
    ensures hears { IfOk result (λ b. Meaning.body_of b
        ≡ (if status == success then ReplyOf.or_other (ReplyOf.body_in (Meaning.client_command_of command.now) m.now) else says.Empty)) }
{
    if status != 0 {
        return Ok(Body::Empty);
    }
    match body_in(alloc, command, m) {
        Ok(Some(body)) => Ok(body),
        Ok(None) => Ok(other_body()),
        Err(error) => Err(error),
    }
}

/// The reply that a client hears of the response `m`, which begins with this header, to its command (MS-SMB2 3.2.5).
/// A success whose body doesn't read as the command's response has the body `Interfaces`, which no operation's
/// success has. Of a file its length alone is told, of a listing the names. What a READ gave takes memory.
#[tactic(auto, unfolding(spec_commands::specs::ReplyOf::reply_of))]
pub fn reply_of(
    alloc: Global,
    command: &ClientCommand<'_>,
    header: &Header,
    m: &[u8],
) -> Result<Reply, AllocError>
    ensures lacks { OnErr result ((header.now.status ≡ success) × ReplyLacks (Meaning.client_command_of command.now) m.now) }
    ensures hears { IfOk result (λ r. Meaning.reply_of r ≡ ReplyOf.reply_of (Meaning.client_command_of command.now) header.now m.now) }
{
    match body_of(alloc, command, header.status, m) {
        Ok(body) => Ok(Reply {
            status: header.status,
            session_id: header.session,
            tree_id: header.tree,
            body,
        }),
        Err(error) => Err(error),
    }
}
