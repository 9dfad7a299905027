//! LOCK (MS-SMB2 3.3.5.14).
ghost use Rattle.std.specs.Prelude.{◌≡◌, ℕ, map, true};
ghost use Rattle.wire_commands.specs.values.Meaning.{command_of, message_of};
ghost use Rattle.spec_exchange.specs.Effects as effects;
ghost use Rattle.spec_exchange.specs.Effects.{set_ranges};
ghost use Rattle.spec_exchange.specs.Opens.{file_has_open};
ghost use Rattle.spec_exchange.specs.State.{Server};
ghost use Rattle.spec_exchange.specs.Verdict.{KeepSlot, PutRanges};
ghost use Rattle.server_checks.specs.session_table.Logons.{LogonsStay};
ghost use Rattle.server_checks.specs.Shown.{TablesShown};
ghost use Rattle.server_effects.specs.Carried.{EffectCarries, IsEffectBare};
ghost use Rattle.server_checks.specs.verdicts.Views.{elements_in};
ghost use Rattle.store_opens.specs.share_modes.Locking.{range_of};

use crate::answering::{Answer, acting, quiet};
use crate::reached::reach;
use server_checks::Tables;
use server_checks::status::SUCCESS;
use store_opens::Range;
use wire_commands::{Body, Message};

/// A LOCK fails, and its slot keeps the status.
pub fn keep_slot(
    t: &mut Tables,
    m: &Message<'_>,
    id: u64,
    index: u32,
    number: u8,
    status: u32,
) -> Answer
    ensures shows { (now : ℕ) → EffectCarries t.old t.new result (message_of m.now) now
        (KeepSlot id index number status (elements_in (command_of m.now.command))) }
    ensures bare { IsEffectBare result }
    ensures config { t.new.config ≡ t.old.config }
    ensures logons { LogonsStay t.old.sessions t.new.sessions }
{
    reach(t, m, id);
    keep_in_slot(t, id, index, number, status);
    quiet(t.alloc, m, status, Body::Empty)
}

/// A LOCK succeeds: these are the ranges of its file, and its slot keeps the success.
pub fn put_ranges(
    t: &mut Tables,
    m: &Message<'_>,
    id: u64,
    index: u32,
    number: u8,
    ranges: Vec<Range>,
) -> Answer
    ensures shows { (now : ℕ) → EffectCarries t.old t.new result (message_of m.now) now
        (PutRanges id index number (map range_of ranges.items) (elements_in (command_of m.now.command))) }
    ensures bare { IsEffectBare result }
    ensures config { t.new.config ≡ t.old.config }
    ensures logons { LogonsStay t.old.sessions t.new.sessions }
{
    reach(t, m, id);
    let file = t.opens.file_of(id);
    put_in_file(t, file, ranges);
    keep_in_slot(t, id, index, number, SUCCESS);
    acting(t.alloc, m, Body::Empty)
}

// The slot of a LOCK, where its index names one, keeps its status.
fn keep_in_slot(t: &mut Tables, id: u64, index: u32, number: u8, status: u32)
    ensures shows { (s : Server) → TablesShown t.old s → s.standing id ≡ true
        → TablesShown t.new (effects.keep_slot s id index number status) }
    ensures kept { t.new ≡ record t.old { opens = t.new.opens } }
{
    if index == 0 {
        return;
    }
    if index > 64 {
        return;
    }
    t.opens.keep(id, index as u8, number, status);
}

fn put_in_file(t: &mut Tables, file: u64, ranges: Vec<Range>)
    ensures shows { (s : Server) → TablesShown t.old s → file_has_open s file ≡ true
        → TablesShown t.new (set_ranges s file (map range_of ranges.items)) }
    ensures kept { t.new ≡ record t.old { opens = t.new.opens } }
{
    t.opens.put_ranges(file, ranges);
}
