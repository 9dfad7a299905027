//! What the server writes behind a header for a reply to a command (MS-SMB2 3.3.5).
ghost use Rattle.std.specs.Prelude.{◌≡◌, ◌<◌, ◌^◌, ℕ, Bool, List, [], length, option_map, IfOk};
ghost use Rattle.spec_wire.specs.messages.QueryDirectory.{query_directory_response_spelling};
ghost use Rattle.spec_wire.specs.messages.QueryInfo.{query_info_response_spelling};
ghost use Rattle.spec_wire.specs.messages.Ioctl.{ioctl_response_spelling};
ghost use Rattle.spec_commands.specs.Tables.{bit_if};
ghost use Rattle.spec_exchange.specs.Commands as asks;
ghost use Rattle.spec_wire.specs.messages.CreateResponse.{create_response_spelling};
ghost use Rattle.spec_wire.specs.messages.Close.{close_response_spelling};
ghost use Rattle.spec_commands.specs.Ids;
ghost use Rattle.spec_commands.specs.ReplyBody;
ghost use Rattle.wire_commands.specs.values.Meaning;
ghost use Rattle.spec_commands.specs.Fits.{FitsSuccess, FitsReply};
ghost use Rattle.wire_commands.specs.writing.Writing.{BodyWrites};

use crate::values::{Body, Command, CreateReply, Info, Reply};
use crate::writing::fault::WriteError;
use crate::writing::ids::file_id;
use crate::writing::infos::{allocation, attributes_of, file_bytes};
use crate::writing::listing::listing_bytes;
use crate::writing::volume::{interface_bytes, object_id_bytes, volume_bytes};
use spec_wire::{Dh2qReply, DiskId, MaximalAccess, ReplyContexts};
use std::alloc::{AllocError, Global};
use wire_bytes::{
    Bytes, CloseResponse, CreateResponse, ErrorResponse, FlushResponse, LockResponse,
    LogoffResponse, ReadResponse, SessionSetupResponse, TreeConnectResponse, WriteResponse,
    write_close_response, write_create_response, write_error_response, write_flush_response,
    write_lock_response, write_logoff_response, write_read_response, write_reply_chain,
    write_session_setup_response, write_tree_connect_response, write_write_response,
};
use wire_info::{
    IoctlResponse, QueryDirectoryResponse, QueryInfoResponse, SetInfoResponse,
    write_ioctl_response, write_query_directory_response, write_query_info_response,
    write_set_info_response,
};

const SUCCESS: u32 = 0;

const MORE_PROCESSING_REQUIRED: u32 = 0xc000_0016;

// ENCRYPT_DATA is 4.
#[tactic(auto, unfolding(spec_commands::specs::Tables::bit_if))]
fn session_flags(body: &Body) -> u16
    ensures { result ≡ bit_if (ReplyBody.seals_in (Meaning.body_of body.now)) 4 }
{
    match body {
        Body::SetUp { sealed, channel: _ } => { if *sealed { 4 } else { 0 } }
        _ => 0,
    }
}

fn setup_body(alloc: Global, token: &Bytes, body: &Body) -> Result<Bytes, WriteError>
    ensures { (r : asks.SetupRequest) → BodyWrites (length token.now < 2 ^ 16)
        (ReplyBody.success_body token.now (asks.Setup r) (Meaning.body_of body.now)) result }
{
    let token = token.as_slice();
    if token.len() >= 0x1_0000 {
        return Err(WriteError::Unwritable);
    }
    let value = SessionSetupResponse {
        session_flags: session_flags(body),
        security: token,
    };
    Ok(write_session_setup_response(alloc, &value)?)
}

fn tree_body(alloc: Global, body: &Body) -> Result<Bytes, AllocError>
    ensures { (token share : List ℕ) → IfOk result
        (λ b. b ≡ ReplyBody.success_body token (asks.TreeConnect share) (Meaning.body_of body.now)) }
{
    match body {
        Body::Connected {
            kind,
            capabilities,
            access,
        } => {
            let value = TreeConnectResponse {
                share_type: *kind,
                share_flags: 0,
                capabilities: *capabilities,
                maximal_access: *access,
            };
            write_tree_connect_response(alloc, &value)
        }
        _ => Ok(Bytes::new(alloc)),
    }
}

fn timeout_told(timeout: Option<u32>) -> Option<Dh2qReply>
    ensures { result ≡ option_map ReplyBody.timeout_told timeout }
{
    match timeout {
        Some(timeout) => Some(Dh2qReply {
            timeout,
            persistent: true,
        }),
        None => None,
    }
}

// The access that everyone has.
fn access_told(asked: bool) -> Option<MaximalAccess>
    ensures { result ≡ ReplyBody.access_told asked }
{
    if asked {
        return Some(MaximalAccess {
            query_status: 0,
            maximal_access: 0x1f_01ff,
        });
    }
    None
}

// The volume's number is 1.
fn disk_id_told(asked: bool, file: u64) -> Option<DiskId>
    ensures { result ≡ ReplyBody.disk_id_told asked file }
{
    if asked {
        return Some(DiskId { file, volume: 1 });
    }
    None
}

#[tactic(auto, using(crate::proofs::writing::Contexts::told_short))]
fn created(alloc: Global, r: &CreateReply) -> Result<Bytes, AllocError>
    ensures { IfOk result (λ b. b ≡ create_response_spelling (ReplyBody.created_value (Meaning.created_of r.now))) }
{
    let told = ReplyContexts {
        dh2q: timeout_told(r.timeout),
        mxac: access_told(r.maximal),
        qfid: disk_id_told(r.disk_id, r.info.file),
    };
    let contexts = write_reply_chain(alloc, &told)?;
    let value = CreateResponse {
        oplock_level: 0,
        flags: 0,
        create_action: r.action,
        creation_time: r.info.times.created,
        last_access_time: r.info.times.accessed,
        last_write_time: r.info.times.written,
        change_time: r.info.times.changed,
        allocation_size: allocation(r.info.size),
        end_of_file: r.info.size,
        file_attributes: attributes_of(&r.info),
        file_id: file_id(r.id),
        contexts: contexts.as_slice(),
    };
    write_create_response(alloc, &value)
}

fn create_body(alloc: Global, body: &Body) -> Result<Bytes, AllocError>
    ensures { (token : List ℕ) (r : asks.CreateRequest) → IfOk result
        (λ b. b ≡ ReplyBody.success_body token (asks.Create r) (Meaning.body_of body.now)) }
{
    match body {
        Body::Created(reply) => created(alloc, reply),
        _ => Ok(Bytes::new(alloc)),
    }
}

// Flags say that times and lengths are told.
fn closed(alloc: Global, info: &Info) -> Result<Bytes, AllocError>
    ensures { IfOk result (λ b. b ≡ close_response_spelling (ReplyBody.closed_value (Meaning.info_of info.now))) }
{
    let value = CloseResponse {
        flags: 1,
        creation_time: info.times.created,
        last_access_time: info.times.accessed,
        last_write_time: info.times.written,
        change_time: info.times.changed,
        allocation_size: allocation(info.size),
        end_of_file: info.size,
        file_attributes: attributes_of(info),
    };
    write_close_response(alloc, &value)
}

fn untold(alloc: Global) -> Result<Bytes, AllocError>
    ensures { IfOk result (λ b. b ≡ close_response_spelling ReplyBody.untold_value) }
{
    let value = CloseResponse {
        flags: 0,
        creation_time: 0,
        last_access_time: 0,
        last_write_time: 0,
        change_time: 0,
        allocation_size: 0,
        end_of_file: 0,
        file_attributes: 0,
    };
    write_close_response(alloc, &value)
}

fn close_body(alloc: Global, body: &Body) -> Result<Bytes, AllocError>
    ensures { (token : List ℕ) (file : ℕ) (query : Bool) → IfOk result
        (λ b. b ≡ ReplyBody.success_body token (asks.Close file query) (Meaning.body_of body.now)) }
{
    match body {
        Body::Closed { info } => closed(alloc, info),
        Body::Empty => untold(alloc),
        _ => Ok(Bytes::new(alloc)),
    }
}

fn read_body(alloc: Global, body: &Body) -> Result<Bytes, WriteError>
    ensures { (token : List ℕ) (file at size minimum channel : ℕ)
        → BodyWrites (FitsSuccess token (asks.Read file at size minimum channel) (Meaning.body_of body.now))
        (ReplyBody.success_body token (asks.Read file at size minimum channel) (Meaning.body_of body.now)) result }
{
    match body {
        Body::Content { bytes } => {
            if bytes.len() >= 0x1_0000_0000 {
                return Err(WriteError::Unwritable);
            }
            let value = ReadResponse {
                data_remaining: 0,
                payload: bytes.as_slice(),
            };
            Ok(write_read_response(alloc, &value)?)
        }
        _ => Ok(Bytes::new(alloc)),
    }
}

fn write_body(alloc: Global, body: &Body) -> Result<Bytes, AllocError>
    ensures { (token : List ℕ) (file at : ℕ) (payload : List ℕ) (channel : ℕ) → IfOk result
        (λ b. b ≡ ReplyBody.success_body token (asks.Write file at payload channel) (Meaning.body_of body.now)) }
{
    match body {
        Body::Count { count } => {
            let value = WriteResponse {
                count: *count,
                remaining: 0,
            };
            write_write_response(alloc, &value)
        }
        _ => Ok(Bytes::new(alloc)),
    }
}

// The response to an IOCTL.
fn output_of_ioctl(alloc: Global, file: u64, code: u32, output: &Bytes) -> Result<Bytes, AllocError>
    requires { length output.now < 2 ^ 32 }
    ensures { IfOk result (λ b. b ≡ ioctl_response_spelling (record {
      ctl_code = code;
      file_id = Ids.file_id file;
      flags = 0;
      input = [];
      output = output.now;
    })) }
{
    let value = IoctlResponse {
        ctl_code: code,
        file_id: file_id(file as u128),
        flags: 0,
        input: &[],
        output: output.as_slice(),
    };
    write_ioctl_response(alloc, &value)
}

#[tactic(auto, using(crate::proofs::writing::Contexts::interface_short, crate::proofs::writing::Contexts::object_id_short))]
fn ioctl_body(alloc: Global, file: u64, code: u32, body: &Body) -> Result<Bytes, AllocError>
    ensures { (token : List ℕ) (room : ℕ) → IfOk result
        (λ b. b ≡ ReplyBody.success_body token (asks.Ioctl file code room) (Meaning.body_of body.now)) }
{
    match body {
        Body::Interfaces { address } => {
            let output = interface_bytes(alloc, address)?;
            output_of_ioctl(alloc, file, code, &output)
        }
        Body::ObjectId { file: number } => {
            let output = object_id_bytes(alloc, *number)?;
            output_of_ioctl(alloc, file, code, &output)
        }
        _ => Ok(Bytes::new(alloc)),
    }
}

// The response that carries a listing.
fn output_of_list(alloc: Global, output: &Bytes) -> Result<Bytes, WriteError>
    ensures { BodyWrites (length output.now < 2 ^ 32) (query_directory_response_spelling (record { output = output.now })) result }
{
    if output.len() >= 0x1_0000_0000 {
        return Err(WriteError::Unwritable);
    }
    let value = QueryDirectoryResponse {
        output: output.as_slice(),
    };
    Ok(write_query_directory_response(alloc, &value)?)
}

fn list_body(alloc: Global, body: &Body) -> Result<Bytes, WriteError>
    ensures { (token : List ℕ) (file class : ℕ) (restart single : Bool) (pattern : List ℕ) (room : ℕ)
        → BodyWrites (FitsSuccess token (asks.ListDirectory file class restart single pattern room) (Meaning.body_of body.now))
        (ReplyBody.success_body token (asks.ListDirectory file class restart single pattern room) (Meaning.body_of body.now))
        result }
{
    match body {
        Body::Listing { class, entries } => {
            let output = listing_bytes(alloc, *class, entries.as_slice())?;
            output_of_list(alloc, &output)
        }
        _ => Ok(Bytes::new(alloc)),
    }
}

// The response that carries information of a file or of the volume.
fn output_of_query(alloc: Global, output: &Bytes) -> Result<Bytes, WriteError>
    ensures { BodyWrites (length output.now < 2 ^ 32) (query_info_response_spelling (record { output = output.now })) result }
{
    if output.len() >= 0x1_0000_0000 {
        return Err(WriteError::Unwritable);
    }
    let value = QueryInfoResponse {
        output: output.as_slice(),
    };
    Ok(write_query_info_response(alloc, &value)?)
}

fn file_body(alloc: Global, body: &Body) -> Result<Bytes, WriteError>
    ensures { (token : List ℕ) (file class room : ℕ)
        → BodyWrites (FitsSuccess token (asks.QueryFile file class room) (Meaning.body_of body.now))
        (ReplyBody.success_body token (asks.QueryFile file class room) (Meaning.body_of body.now)) result }
{
    match body {
        Body::FileInfo {
            class,
            path,
            info,
            access,
            options,
            position,
        } => {
            let output = file_bytes(
                alloc,
                *class,
                path.as_str(),
                info,
                *access,
                *options,
                *position,
            )?;
            output_of_query(alloc, &output)
        }
        _ => Ok(Bytes::new(alloc)),
    }
}

fn volume_body(alloc: Global, body: &Body) -> Result<Bytes, WriteError>
    ensures { (token : List ℕ) (file class room : ℕ)
        → BodyWrites (FitsSuccess token (asks.QueryVolume file class room) (Meaning.body_of body.now))
        (ReplyBody.success_body token (asks.QueryVolume file class room) (Meaning.body_of body.now)) result }
{
    match body {
        Body::VolumeInfo { class, room, used } => {
            let output = volume_bytes(alloc, *class, *room, *used)?;
            output_of_query(alloc, &output)
        }
        _ => Ok(Bytes::new(alloc)),
    }
}

// The body of a success.
fn success_body(
    alloc: Global,
    token: &Bytes,
    command: &Command<'_>,
    body: &Body,
) -> Result<Bytes, WriteError>
    ensures { BodyWrites (FitsSuccess token.now (Meaning.command_of command.now) (Meaning.body_of body.now))
        (ReplyBody.success_body token.now (Meaning.command_of command.now) (Meaning.body_of body.now)) result }
{
    match command {
        Command::Unreadable { status: _ } => Ok(Bytes::new(alloc)),
        Command::Aside { status: _ } => Ok(write_logoff_response(alloc, &LogoffResponse)?),
        Command::Setup(_) => setup_body(alloc, token, body),
        Command::Logoff => Ok(write_logoff_response(alloc, &LogoffResponse)?),
        Command::TreeConnect { share: _ } => Ok(tree_body(alloc, body)?),
        Command::TreeDisconnect => Ok(write_logoff_response(alloc, &LogoffResponse)?),
        Command::Create(_) => Ok(create_body(alloc, body)?),
        Command::Close { file: _, query: _ } => Ok(close_body(alloc, body)?),
        Command::Flush { file: _ } => Ok(write_flush_response(alloc, &FlushResponse)?),
        Command::Read { .. } => read_body(alloc, body),
        Command::Write { .. } => Ok(write_body(alloc, body)?),
        Command::Lock { .. } => Ok(write_lock_response(alloc, &LockResponse)?),
        Command::Ioctl {
            file,
            code,
            room: _,
        } => Ok(ioctl_body(alloc, *file, *code, body)?),
        Command::ListDirectory { .. } => list_body(alloc, body),
        Command::QueryFile { .. } => file_body(alloc, body),
        Command::QueryVolume { .. } => volume_body(alloc, body),
        Command::SetInfo { .. } => Ok(write_set_info_response(alloc, &SetInfoResponse)?),
    }
}

// Whether a status has the response of its command: success, and the interim one of a SESSION_SETUP.
fn is_told(command: &Command<'_>, status: u32) -> bool
    ensures { result ≡ ReplyBody.is_told (Meaning.command_of command.now) status }
{
    match command {
        Command::Setup(_) => status == SUCCESS || status == MORE_PROCESSING_REQUIRED,
        _ => status == SUCCESS,
    }
}

/// The body that the server writes for a reply to a command, behind a header (MS-SMB2 3.3.5): for a success the
/// command's response, for any other status the error response. `token` is the token of a SESSION_SETUP's response
/// and counts there alone. `Unwritable` comes exactly where a part of the response is longer than its field can say: a
/// token of 2^16 bytes or more, 2^32 or more that were read, listed or told of a file, or a listed name of 2^31.
#[tactic(auto, unfolding(spec_commands::specs::ReplyBody::reply_body))]
pub fn reply_body(
    alloc: Global,
    token: &Bytes,
    command: &Command<'_>,
    reply: &Reply,
) -> Result<Bytes, WriteError>
    ensures { BodyWrites (FitsReply token.now (Meaning.command_of command.now) (Meaning.reply_of reply.now))
        (ReplyBody.reply_body token.now (Meaning.command_of command.now) (Meaning.reply_of reply.now)) result }
{
    if is_told(command, reply.status) {
        return success_body(alloc, token, command, &reply.body);
    }
    let value = ErrorResponse {
        error_context_count: 0,
        byte_count: 0,
    };
    Ok(write_error_response(alloc, &value)?)
}
