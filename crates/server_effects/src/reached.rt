//! Requests that came to their open (MS-SMB2 3.3.5.2.10): its channel sequence is theirs where that is newer.
ghost use Rattle.std.specs.Prelude.{◌≡◌, ℕ, true};
ghost use Rattle.wire_commands.specs.values.Meaning.{body_of, message_of};
ghost use Rattle.spec_exchange.specs.Effects.{reach};
ghost use Rattle.spec_exchange.specs.State.{Empty, Server};
ghost use Rattle.spec_exchange.specs.Verdict.{At, Behind, Show, Tell, TurnDown};
ghost use Rattle.store_opens.specs.open_table.Changes.{located_at, offset_at};
ghost use Rattle.server_checks.specs.session_table.Logons.{LogonsStay};
ghost use Rattle.server_checks.specs.Shown.{TablesShown};
ghost use Rattle.server_effects.specs.Carried.{EffectCarries, IsEffectBare};

use crate::answering::{Answer, quiet};
use server_checks::Tables;
use server_checks::status::SUCCESS;
use wire_bytes::Text;
use wire_commands::{Body, Message};

/// The request comes to its open.
pub fn reach(t: &mut Tables, m: &Message<'_>, id: u64)
    ensures shows { (s : Server) → TablesShown t.old s → s.standing id ≡ true → TablesShown t.new (reach s (message_of m.now) id) }
    ensures kept { t.new ≡ record t.old { opens = t.new.opens } }
{
    let _ = t.opens.offer(id, m.channel_sequence);
}

/// It fails, and nothing else changes.
pub fn turn_down(t: &mut Tables, m: &Message<'_>, id: u64, status: u32) -> Answer
    ensures shows { (now : ℕ) → EffectCarries t.old t.new result (message_of m.now) now (TurnDown id status) }
    ensures bare { IsEffectBare result }
    ensures config { t.new.config ≡ t.old.config }
    ensures logons { LogonsStay t.old.sessions t.new.sessions }
{
    reach(t, m, id);
    quiet(t.alloc, m, status, Body::Empty)
}

/// It succeeds, and nothing else changes.
pub fn tell(t: &mut Tables, m: &Message<'_>, id: u64, body: Body) -> Answer
    ensures shows { (now : ℕ) → EffectCarries t.old t.new result (message_of m.now) now (Tell id (body_of body)) }
    ensures bare { IsEffectBare result }
    ensures config { t.new.config ≡ t.old.config }
    ensures logons { LogonsStay t.old.sessions t.new.sessions }
{
    reach(t, m, id);
    quiet(t.alloc, m, SUCCESS, body)
}

/// A listing that goes on behind this name.
pub fn show(t: &mut Tables, m: &Message<'_>, id: u64, last: Option<Text>, body: Body) -> Answer
    ensures shows { (now : ℕ) → EffectCarries t.old t.new result (message_of m.now) now (Show id (Behind last) (body_of body)) }
    ensures bare { IsEffectBare result }
    ensures config { t.new.config ≡ t.old.config }
    ensures logons { LogonsStay t.old.sessions t.new.sessions }
{
    reach(t, m, id);
    locate(t, id, last);
    quiet(t.alloc, m, SUCCESS, body)
}

/// The open's position is this one.
pub fn seek(t: &mut Tables, m: &Message<'_>, id: u64, position: u64) -> Answer
    ensures shows { (now : ℕ) → EffectCarries t.old t.new result (message_of m.now) now (Show id (At position) Empty) }
    ensures bare { IsEffectBare result }
    ensures config { t.new.config ≡ t.old.config }
    ensures logons { LogonsStay t.old.sessions t.new.sessions }
{
    reach(t, m, id);
    place(t, id, position);
    quiet(t.alloc, m, SUCCESS, Body::Empty)
}

fn place(t: &mut Tables, id: u64, position: u64)
    ensures shows { (s : Server) → TablesShown t.old s → s.standing id ≡ true → TablesShown t.new (offset_at s id position) }
    ensures kept { t.new ≡ record t.old { opens = t.new.opens } }
{
    t.opens.set_position(id, position);
}

fn locate(t: &mut Tables, id: u64, last: Option<Text>)
    ensures shows { (s : Server) → TablesShown t.old s → s.standing id ≡ true → TablesShown t.new (located_at s id last) }
    ensures kept { t.new ≡ record t.old { opens = t.new.opens } }
{
    t.opens.set_location(id, last);
}
