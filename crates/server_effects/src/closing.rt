//! CLOSE (MS-SMB2 3.3.5.10), and files that go with their last open, or can't (MS-FSA 2.1.5.5).
ghost use Rattle.std.specs.Prelude.{◌≡◌, ℕ, Some, true};
ghost use Rattle.wire_commands.specs.values.Meaning.{body_of, message_of};
ghost use Rattle.spec_exchange.specs.Commands.{deletes_on_close};
ghost use Rattle.spec_exchange.specs.Effects.{keep_closed};
ghost use Rattle.spec_exchange.specs.Files as files;
ghost use Rattle.spec_exchange.specs.Files.{exists};
ghost use Rattle.spec_exchange.specs.Opens.{drop_open, goes, is_kept_back, left_file, pending_behind};
ghost use Rattle.spec_exchange.specs.State.{Server};
ghost use Rattle.spec_exchange.specs.Verdict.{CloseOpen};
ghost use Rattle.server_checks.specs.session_table.Logons.{LogonsStay};
ghost use Rattle.server_checks.specs.Shown.{TablesShown};
ghost use Rattle.server_effects.specs.Carried.{EffectCarries, IsEffectBare};
ghost use Rattle.server_effects.specs.Closed.{closed_one};
ghost use Rattle.server_effects.specs.Fates.{fate_of};
ghost use Rattle.law_server.specs.tables.Fits.{Fits};

use crate::answering::{Answer, acting};
use crate::fates::Fate;
use server_checks::{Tables, deletes_on_close};
use wire_commands::{Body, Message};

/// The open leaves, and its file with it where it goes, or stays without its mark; its session keeps its CreateGuid as closed.
pub fn close_open(t: &mut Tables, m: &Message<'_>, id: u64, body: Body) -> Answer
    ensures shows { (now : ℕ) → EffectCarries t.old t.new result (message_of m.now) now (CloseOpen id (body_of body)) }
    ensures bare { IsEffectBare result }
    ensures config { t.new.config ≡ t.old.config }
    ensures logons { LogonsStay t.old.sessions t.new.sessions }
{
    close_one(t, id);
    acting(t.alloc, m, body)
}

/// The same, without an answer.
pub fn close_one(t: &mut Tables, id: u64)
    ensures shows { (s : Server) (session : ℕ) → Fits s → TablesShown t.old s → s.standing id ≡ true → s.session_of_open id ≡ Some session
        → TablesShown t.new (closed_one s session id) }
    ensures config { t.new.config ≡ t.old.config }
    ensures logons { LogonsStay t.old.sessions t.new.sessions }
{
    let file = t.opens.file_of(id);
    // In this order: the open's row tells whether it deletes on close, and its file goes only when no open is left.
    mark_behind(t, id);
    shut(t, id);
    part(t, file);
}

/// An open that deletes on close makes its file delete pending where it leaves.
pub fn mark_behind(t: &mut Tables, id: u64)
    ensures shows { (s : Server) → TablesShown t.old s → s.standing id ≡ true → TablesShown t.new (pending_behind s id) }
    ensures kept { t.new ≡ record t.old { tree = t.new.tree } }
{
    if !is_deleting(t, id) {
        return;
    }
    let file = t.opens.file_of(id);
    t.tree.mark(file, true);
}

fn is_deleting(t: &Tables, id: u64) -> bool
    ensures { (s : Server) → TablesShown t.now s → s.standing id ≡ true → result ≡ deletes_on_close (s.opened id).options }
{
    match t.opens.row(id) {
        Some(row) => deletes_on_close(row.options),
        None => false,
    }
}

// The open of a session leaves.
fn shut(t: &mut Tables, id: u64)
    ensures shows { (s : Server) (session : ℕ) → Fits s → TablesShown t.old s → s.standing id ≡ true → s.session_of_open id ≡ Some session
        → TablesShown t.new (keep_closed (drop_open s id) session (s.opened id).create_guid) }
    ensures kept { t.new ≡ record t.old { opens = t.new.opens } }
{
    let _ = t.opens.close(id);
}

/// A file goes that is delete pending and has no open; a directory in which something stands is delete pending no longer.
pub fn part(t: &mut Tables, file: u64)
    ensures shows { (s : Server) → TablesShown t.old s → exists s file ≡ true → TablesShown t.new (left_file s file) }
    ensures kept { t.new ≡ record t.old { tree = t.new.tree } }
{
    match fate(t, file) {
        Fate::Stays => {}
        Fate::Unmarked => t.tree.mark(file, false),
        Fate::Goes => remove(t, file),
    }
}

fn fate(t: &Tables, file: u64) -> Fate
    ensures { (s : Server) → TablesShown t.now s → exists s file ≡ true → result ≡ fate_of (is_kept_back s file) (goes s file) }
{
    if !t.is_pending(file) {
        return Fate::Stays;
    }
    if file == 0 {
        return Fate::Stays;
    }
    if t.opens.has_open(file) {
        return Fate::Stays;
    }
    if t.tree.is_full(file) {
        Fate::Unmarked
    } else {
        Fate::Goes
    }
}

fn remove(t: &mut Tables, file: u64)
    ensures shows { (s : Server) → TablesShown t.old s → exists s file ≡ true → goes s file ≡ true
        → TablesShown t.new (files.remove_file s file) }
    ensures kept { t.new ≡ record t.old { tree = t.new.tree } }
{
    match t.tree.remove(file) {
        Ok(()) => return,
        Err(_) => return,
    }
}
