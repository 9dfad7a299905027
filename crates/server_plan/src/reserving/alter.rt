//! WRITE and SET_INFO made ready (MS-SMB2 3.3.5.13, 3.3.5.21): the memory for new bytes or new names.
ghost use Rattle.std.specs.Prelude.{◌≡◌, ℕ, true, IfOk, MatchResult, Option};
ghost use Rattle.wire_commands.specs.values.Meaning.{body_of, command_of, message_of};
ghost use Rattle.spec_exchange.specs.Effects.{change_acts};
ghost use Rattle.spec_exchange.specs.CheckOpen.{file_of};
ghost use Rattle.spec_exchange.specs.Files.{exists};
ghost use Rattle.spec_exchange.specs.State.{Server};
ghost use Rattle.spec_exchange.specs.Verdict as verdicts;
ghost use Rattle.store_files.specs.file_tree.Shown.{ShowsFiles};
ghost use Rattle.server_effects.specs.reserved.Room.{RoomFor};
ghost use Rattle.server_checks.specs.Shown.{TablesShown};
ghost use Rattle.server_effects.specs.Able.{AbleToChange};
ghost use Rattle.server_plan.specs.reserving.Readies.{HasNoStep, IsChangeReady, IsReadyFor, VerdictReadies, TablesKeep};
ghost use Rattle.server_checks.specs.verdicts.Views.{bytes_in, change_of, path_in};

use crate::owed_records::bytes_of;
use crate::reserving::acts::change_acts;
use crate::reserving::request::path_of;
use server_checks::{Change, Tables};
use server_effects::{ChangeReady, Ready};
use std::alloc::AllocError;
use wire_commands::{Body, Message};

pub(crate) fn alter_ready(
    t: &mut Tables,
    m: &Message<'_>,
    id: u64,
    change: Change,
    body: Body,
    now: u64,
) -> Result<Ready, AllocError>
    ensures room { IfOk result (λ r. RoomFor t.new m.now.session_id m.now.connection r) }
    ensures shown { VerdictReadies t.old t.new (message_of m.now) now
        (verdicts.Alter id (change_of (command_of m.now.command) change) (body_of body)) result }
    ensures plain { IfOk result (λ r. HasNoStep r) }
    ensures kept { TablesKeep t.old t.new }
{
    let file = t.file_of(id);
    match change_acts(t, m, file, &change, now) {
        Ok(acts) => altered_ready(t, m, id, file, change, body, acts),
        Err(error) => Err(error),
    }
}

// The same of its file, where it is known whether anything differs behind it.
fn altered_ready(
    t: &mut Tables,
    m: &Message<'_>,
    id: u64,
    file: u64,
    change: Change,
    body: Body,
    acts: bool,
) -> Result<Ready, AllocError>
    ensures room { IfOk result (λ r. RoomFor t.new m.now.session_id m.now.connection r) }
    ensures shown { (s : Server) (now : ℕ) → TablesShown t.old s → exists s file ≡ true → file ≡ file_of s id
        → AbleToChange s file (change_of (command_of m.now.command) change)
        → acts ≡ change_acts s file now (change_of (command_of m.now.command) change)
        → MatchResult result
        (λ r. IsReadyFor t.new s (message_of m.now) now
        (verdicts.Alter id (change_of (command_of m.now.command) change) (body_of body)) r)
        (λ _. TablesShown t.new s) }
    ensures plain { IfOk result (λ r. HasNoStep r) }
    ensures kept { TablesKeep t.old t.new }
{
    match change_ready(t, m, file, change) {
        Ok(change) => Ok(Ready::Alter {
            id,
            change,
            body,
            acts,
        }),
        Err(error) => Err(error),
    }
}

fn change_ready(
    t: &mut Tables,
    m: &Message<'_>,
    file: u64,
    change: Change,
) -> Result<ChangeReady, AllocError>
    ensures shown { (s : Server) → ShowsFiles t.old.tree s → exists s file ≡ true
        → AbleToChange s file (change_of (command_of m.now.command) change)
        → MatchResult result
        (λ r. IsChangeReady t.new s file (command_of m.now.command) (change_of (command_of m.now.command) change) r)
        (λ _. ShowsFiles t.new.tree s) }
    ensures kept { t.new ≡ record t.old { tree = t.new.tree } }
{
    match change {
        Change::PutBytes { at } => bytes_ready(t, m, file, at),
        Change::PutEnd { size } => Ok(ChangeReady::PutEnd { size }),
        Change::PutBasic { basic } => Ok(ChangeReady::PutBasic { basic }),
        Change::PutDeletePending { pending } => Ok(ChangeReady::PutDeletePending { pending }),
        Change::PutPath { .. } => path_ready(t, m, file),
        Change::PutNothing => Ok(ChangeReady::PutNothing),
    }
}

// No check lets a write of no bytes come so far.
fn bytes_ready(
    t: &mut Tables,
    m: &Message<'_>,
    file: u64,
    at: u64,
) -> Result<ChangeReady, AllocError>
    ensures shown { (s : Server) → ShowsFiles t.old.tree s → exists s file ≡ true
        → AbleToChange s file (verdicts.PutBytes at (bytes_in (command_of m.now.command)))
        → MatchResult result
        (λ r. IsChangeReady t.new s file (command_of m.now.command) (verdicts.PutBytes at (bytes_in (command_of m.now.command))) r)
        (λ _. ShowsFiles t.new.tree s) }
    ensures kept { t.new ≡ record t.old { tree = t.new.tree } }
{
    let bytes = bytes_of(m);
    if bytes.is_empty() {
        return Err(AllocError);
    }
    match t.tree.prepare_write(file, at, bytes) {
        Ok(bytes) => Ok(ChangeReady::PutBytes { bytes }),
        Err(_) => Err(AllocError),
    }
}

fn path_ready(t: &mut Tables, m: &Message<'_>, file: u64) -> Result<ChangeReady, AllocError>
    ensures shown { (s : Server) (replaced : Option ℕ) → ShowsFiles t.old.tree s → exists s file ≡ true
        → AbleToChange s file (verdicts.PutPath replaced (path_in (command_of m.now.command)))
        → MatchResult result
        (λ r. IsChangeReady t.new s file (command_of m.now.command) (verdicts.PutPath replaced (path_in (command_of m.now.command))) r)
        (λ _. ShowsFiles t.new.tree s) }
    ensures kept { t.new ≡ record t.old { tree = t.new.tree } }
{
    let to = path_of(m);
    match t.tree.prepare_rename(file, to, true) {
        Ok(moved) => Ok(ChangeReady::PutPath { moved }),
        Err(_) => Err(AllocError),
    }
}
