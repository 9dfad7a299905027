//! CREATE of a new open made ready (MS-SMB2 3.3.5.9): its row with room for it, and last its file, whose path is taken then.
ghost use Rattle.std.specs.Prelude.{◌≡◌, ◌<◌, ℕ, IfOk, MatchResult, None, Some};
ghost use Rattle.wire_commands.specs.values.Meaning.{command_of, create_of, message_of};
ghost use Rattle.spec_exchange.specs.State as says;
ghost use Rattle.spec_exchange.specs.State.{Server};
ghost use Rattle.spec_exchange.specs.Verdict.{Make};
ghost use Rattle.store_files.specs.file_tree.Shown.{ShowsFiles};
ghost use Rattle.server_effects.specs.reserved.Room.{RoomFor};
ghost use Rattle.server_checks.specs.Shown.{TablesShown};
ghost use Rattle.server_checks.specs.declared.tables.Tables.{Tables};
ghost use Rattle.server_effects.specs.Making.{FileFor, FileRoom, RowFor};
ghost use Rattle.server_plan.specs.reserving.Readies.{HasNoStep, HasRowRoom, IsReadyFor, VerdictReadies, TablesKeep};
ghost use Rattle.server_checks.specs.verdicts.Views.{create_in};

use crate::reserving::rows::new_row;
use server_checks::{Tables, empties, file_attributes, has_bit, made_attributes};
use server_effects::{FileReady, Ready};
use std::alloc::AllocError;
use store_opens::Row;
use wire_commands::{Command, CreateRequest, Message};

pub(crate) fn make_ready(
    t: &mut Tables,
    m: &Message<'_>,
    found: Option<u64>,
    action: u32,
    now: u64,
) -> Result<Ready, AllocError>
    ensures room { IfOk result (λ r. RoomFor t.new m.now.session_id m.now.connection r) }
    ensures shown { VerdictReadies t.old t.new (message_of m.now) now (Make (create_in (command_of m.now.command)) found action) result }
    ensures plain { IfOk result (λ r. HasNoStep r) }
    ensures kept { TablesKeep t.old t.new }
{
    match &m.command {
        Command::Create(request) => create_ready(t, m, request, found, action, now),
        _ => Err(AllocError),
    }
}

fn create_ready(
    t: &mut Tables,
    m: &Message<'_>,
    request: &CreateRequest,
    found: Option<u64>,
    action: u32,
    now: u64,
) -> Result<Ready, AllocError>
    ensures room { IfOk result (λ r. RoomFor t.new m.now.session_id m.now.connection r) }
    ensures shown { create_in (command_of m.now.command) ≡ create_of request.now
        → VerdictReadies t.old t.new (message_of m.now) now (Make (create_in (command_of m.now.command)) found action) result }
    ensures plain { IfOk result (λ r. HasNoStep r) }
    ensures kept { TablesKeep t.old t.new }
{
    match t.opens.next_id() {
        Some(_) => counted_ready(t, m, request, found, action, now),
        None => Err(AllocError),
    }
}

// The same, where an id is left.
fn counted_ready(
    t: &mut Tables,
    m: &Message<'_>,
    request: &CreateRequest,
    found: Option<u64>,
    action: u32,
    now: u64,
) -> Result<Ready, AllocError>
    requires { t.old.opens.given < 0xffff_ffff }
    ensures room { IfOk result (λ r. RoomFor t.new m.now.session_id m.now.connection r) }
    ensures shown { create_in (command_of m.now.command) ≡ create_of request.now
        → VerdictReadies t.old t.new (message_of m.now) now (Make (create_in (command_of m.now.command)) found action) result }
    ensures plain { IfOk result (λ r. HasNoStep r) }
    ensures kept { TablesKeep t.old t.new }
{
    match new_row(t, m, request, found, action) {
        Ok(row) => row_ready(t, request, found, row, now),
        Err(error) => Err(error),
    }
}

// The same, of this row.
fn row_ready(
    t: &mut Tables,
    request: &CreateRequest,
    found: Option<u64>,
    row: Row,
    now: u64,
) -> Result<Ready, AllocError>
    requires { t.old.opens.given < 0xffff_ffff }
    ensures room { (x k : ℕ) → IfOk result (λ r. RoomFor t.new x k r) }
    ensures shown { (s : Server) (m : says.Message) (action : ℕ) → create_in m.command ≡ create_of request.now → TablesShown t.old s
        → RowFor s m (create_of request.now) found action row
        → MatchResult result (λ r. IsReadyFor t.new s m now (Make (create_in m.command) found action) r) (λ _. TablesShown t.new s) }
    ensures plain { IfOk result (λ r. HasNoStep r) }
    ensures kept { TablesKeep t.old t.new }
{
    match t.opens.reserve(row.session, row.persistent) {
        Ok(()) => with_file(t, request, found, row, now),
        Err(error) => Err(error),
    }
}

// The same, where there is room for the row.
fn with_file(
    t: &mut Tables,
    request: &CreateRequest,
    found: Option<u64>,
    row: Row,
    now: u64,
) -> Result<Ready, AllocError>
    ensures room { (x k : ℕ) → HasRowRoom t.old row → IfOk result (λ r. RoomFor t.new x k r) }
    ensures shown { (s : Server) (m : says.Message) (action : ℕ) → create_in m.command ≡ create_of request.now → TablesShown t.old s
        → RowFor s m (create_of request.now) found action row
        → MatchResult result (λ r. IsReadyFor t.new s m now (Make (create_in m.command) found action) r) (λ _. TablesShown t.new s) }
    ensures plain { IfOk result (λ r. HasNoStep r) }
    ensures kept { t.new ≡ record t.old { tree = t.new.tree } }
{
    match file_ready(t, request, found, now) {
        Ok(file) => Ok(Ready::Make { file, row }),
        Err(error) => Err(error),
    }
}

fn file_ready(
    t: &mut Tables,
    request: &CreateRequest,
    found: Option<u64>,
    now: u64,
) -> Result<FileReady, AllocError>
    ensures room { IfOk result (λ f. FileRoom t.new f) }
    ensures shown { (s : Server) → ShowsFiles t.old.tree s
        → MatchResult result (λ f. FileFor t.new s (create_of request.now) found now f) (λ _. ShowsFiles t.new.tree s) }
    ensures kept { t.new ≡ record t.old { tree = t.new.tree } }
{
    match found {
        Some(file) => Ok(found_ready(request, file)),
        None => new_ready(t, request, now),
    }
}

fn found_ready(request: &CreateRequest, file: u64) -> FileReady
    ensures room { (t : Tables) → FileRoom t result }
    ensures shown { (t : Tables) (s : Server) (now : ℕ) → ShowsFiles t.tree s
        → FileFor t s (create_of request.now) (Some file) now result }
{
    if empties(request.disposition) {
        return FileReady::Emptied {
            file,
            attributes: file_attributes(request.attributes),
        };
    }
    FileReady::AsItIs { file }
}

fn new_ready(t: &mut Tables, request: &CreateRequest, now: u64) -> Result<FileReady, AllocError>
    ensures room { IfOk result (λ f. FileRoom t.new f) }
    ensures shown { (s : Server) → ShowsFiles t.old.tree s
        → MatchResult result (λ f. FileFor t.new s (create_of request.now) None now f) (λ _. ShowsFiles t.new.tree s) }
    ensures kept { t.new ≡ record t.old { tree = t.new.tree } }
{
    let directory = has_bit(request.options, 0x1);
    let path = request.path.as_str();
    let attributes = made_attributes(request);
    match t.tree.prepare_make(path, directory, attributes, now) {
        Ok(file) => Ok(FileReady::New { file }),
        Err(_) => Err(AllocError),
    }
}
