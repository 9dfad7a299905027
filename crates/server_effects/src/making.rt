//! CREATE of a new open (MS-SMB2 3.3.5.9): its file is made, emptied, or stays as it is, and its row stands.
ghost use Rattle.std.specs.Prelude.{◌≡◌, ◌<◌, ℕ, Option};
ghost use Rattle.wire_commands.specs.values.Meaning.{command_of, message_of};
ghost use Rattle.spec_exchange.specs.Commands.{CreateRequest};
ghost use Rattle.spec_exchange.specs.Effects.{apply, file_made};
ghost use Rattle.spec_exchange.specs.State.{Server};
ghost use Rattle.spec_exchange.specs.Verdict.{Make};
ghost use Rattle.store_files.specs.file_tree.Shown.{ShowsFiles};
ghost use Rattle.store_opens.specs.open_table.Shown.{HasOpensRoom, HasRoomIn, next_of};
ghost use Rattle.server_checks.specs.session_table.Logons.{LogonsStay};
ghost use Rattle.law_server.specs.tables.Fits.{Fits};
ghost use Rattle.server_checks.specs.verdicts.Views.{create_in};
ghost use Rattle.server_effects.specs.Able.{Able, FoundIsFile};
ghost use Rattle.server_effects.specs.Carried.{Carried, IsEffectBare};
ghost use Rattle.server_effects.specs.Making.{FileFor, FileRoom, RowFor};
ghost use Rattle.server_effects.specs.Ready.{OthersShown};

use crate::answering::{Answer, acting};
use crate::creates::{asked, create_reply};
use server_checks::Tables;
use store_files::NewFile;
use store_opens::Row;
use wire_commands::Message;

/// What becomes of the file of a new open: it is made, emptied with new attributes, or stays as it is.
#[derive(Drop)]
pub enum FileReady {
    New { file: NewFile },
    Emptied { file: u64, attributes: u32 },
    AsItIs { file: u64 },
}

/// A new open stands, of a file that was made ready. The next id is its FileId, both halves; `now` is in 100 ns since 1601.
pub fn make(t: &mut Tables, m: &Message<'_>, file: FileReady, row: Row, now: u64) -> Answer
    requires file { FileRoom t.old file }
    requires row { HasOpensRoom t.old.opens × HasRoomIn t.old.opens row.session (next_of t.old.opens) row.persistent
        × (t.old.opens.given < 0xffff_ffff) }
    ensures shows { (s : Server) (found : Option ℕ) (action : ℕ) → Fits s → OthersShown t.old s
        → FileFor t.old s (create_in (command_of m.now.command)) found now file
        → RowFor s (message_of m.now) (create_in (command_of m.now.command)) found action row
        → Able s (message_of m.now) (Make (create_in (command_of m.now.command)) found action)
        → Carried t.new result (apply s (message_of m.now) now (Make (create_in (command_of m.now.command)) found action)) }
    ensures bare { IsEffectBare result }
    ensures config { t.new.config ≡ t.old.config }
    ensures logons { LogonsStay t.old.sessions t.new.sessions }
{
    let action = row.action;
    put_file(t, file, now);
    let id = t.opens.add(row);
    let body = create_reply(t, id, asked(m), action);
    acting(t.alloc, m, body)
}

fn put_file(t: &mut Tables, file: FileReady, now: u64)
    requires { FileRoom t.old file }
    ensures shows { (s : Server) (r : CreateRequest) (found : Option ℕ) → FoundIsFile s r found → FileFor t.old s r found now file
        → ShowsFiles t.new.tree (file_made s r found now) }
    ensures kept { t.new ≡ record t.old { tree = t.new.tree } }
{
    match file {
        FileReady::New { file } => {
            let _ = t.tree.finish_make(file);
        }
        FileReady::Emptied { file, attributes } => t.tree.empty(file, attributes, now),
        FileReady::AsItIs { .. } => {}
    }
}
