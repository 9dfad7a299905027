//! WRITE and SET_INFO (MS-SMB2 3.3.5.13, 3.3.5.21): a change of a file, for which there is memory.
ghost use Rattle.std.specs.Prelude.{◌≡◌, ℕ, true, List, [], Some};
ghost use Rattle.wire_commands.specs.values.Meaning.{body_of, command_of, message_of};
ghost use Rattle.spec_exchange.specs.CheckOpen.{file_of};
ghost use Rattle.spec_exchange.specs.Effects as effects;
ghost use Rattle.spec_exchange.specs.Effects.{apply, change_acts};
ghost use Rattle.spec_exchange.specs.Files.{exists};
ghost use Rattle.spec_exchange.specs.State.{Server};
ghost use Rattle.spec_exchange.specs.Verdict as verdicts;
ghost use Rattle.store_files.specs.file_tree.Shown.{ShowsFiles};
ghost use Rattle.store_opens.specs.open_table.Shown.{ShowsOpens};
ghost use Rattle.server_checks.specs.session_table.Logons.{LogonsStay};
ghost use Rattle.law_server.specs.tables.Fits.{Fits};
ghost use Rattle.server_checks.specs.verdicts.Views.{bytes_in};
ghost use Rattle.server_effects.specs.Able.{Able, AbleToChange, IsChangeOf};
ghost use Rattle.server_effects.specs.Carried.{Carried, IsEffectBare};
ghost use Rattle.server_effects.specs.Ready.{ChangeFor, FilesForChange, OthersShown};

use crate::answering::{Answer, answer_with};
use crate::reached::reach;
use server_checks::Tables;
use server_checks::status::SUCCESS;
use store_files::{Move, NewBytes};
use wire_commands::{Basic, Body, Command, Message};

/// A change of a file with its memory: bytes at a place; a new end, with its size in bytes; times (100 ns since 1601) and
/// attributes; whether the file is delete pending; a new path; or none.
#[derive(Drop)]
pub enum ChangeReady {
    PutBytes { bytes: NewBytes },
    PutEnd { size: u64 },
    PutBasic { basic: Basic },
    PutDeletePending { pending: bool },
    PutPath { moved: Move },
    PutNothing,
}

/// The file of an open is changed. `acts` tells whether anything differs behind it; `now` is in 100 ns since 1601.
pub fn alter(
    t: &mut Tables,
    m: &Message<'_>,
    id: u64,
    change: ChangeReady,
    body: Body,
    acts: bool,
    now: u64,
) -> Answer
    ensures shows { (s : Server) (c : verdicts.Change) → Fits s → OthersShown t.old s → FilesForChange t.old s change
        → Able s (message_of m.now) (verdicts.Alter id c (body_of body)) → ChangeFor t.old s (file_of s id) change c
        → acts ≡ change_acts s (file_of s id) now c
        → Carried t.new result (apply s (message_of m.now) now (verdicts.Alter id c (body_of body))) }
    ensures bare { IsEffectBare result }
    ensures config { t.new.config ≡ t.old.config }
    ensures logons { LogonsStay t.old.sessions t.new.sessions }
{
    change_file(t, m, id, change, now);
    reach(t, m, id);
    answer_with(t.alloc, m, SUCCESS, body, acts)
}

// Bytes and a new path have their file in what is ready.
fn change_file(t: &mut Tables, m: &Message<'_>, id: u64, change: ChangeReady, now: u64)
    ensures shows { (s : Server) (c : verdicts.Change) → ShowsOpens t.old.opens s → s.standing id ≡ true
        → exists s (file_of s id) ≡ true → AbleToChange s (file_of s id) c → ChangeFor t.old s (file_of s id) change c
        → IsChangeOf (command_of m.now.command) c → FilesForChange t.old s change
        → ShowsFiles t.new.tree (effects.change_file s (file_of s id) now c) }
    ensures kept { t.new ≡ record t.old { tree = t.new.tree } }
{
    match change {
        ChangeReady::PutBytes { bytes } => t.tree.finish_write(bytes, bytes_of(m), now),
        ChangeReady::PutEnd { size } => t.tree.end(t.opens.file_of(id), size, now),
        ChangeReady::PutBasic { basic } => t.tree.set_basic(t.opens.file_of(id), basic),
        ChangeReady::PutDeletePending { pending } => t.tree.mark(t.opens.file_of(id), pending),
        ChangeReady::PutPath { moved } => t.tree.finish_rename(moved),
        ChangeReady::PutNothing => {}
    }
}

/// The bytes of a WRITE; of another message none.
pub fn bytes_of<'a>(m: &'a Message<'_>) -> &'a [u8]
    ensures { result.now ≡ bytes_in (command_of m.now.command) }
{
    match &m.command {
        Command::Write { bytes, .. } => bytes,
        _ => &[],
    }
}
