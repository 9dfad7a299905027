//! One call a verdict.
ghost use Rattle.std.specs.Prelude.{◌≡◌};
ghost use Rattle.wire_commands.specs.values.Meaning.{command_of, message_of};
ghost use Rattle.spec_exchange.specs.Effects.{apply};
ghost use Rattle.spec_exchange.specs.State.{Server};
ghost use Rattle.law_server.specs.tables.Fits.{Fits};
ghost use Rattle.server_effects.specs.Able.{Able};
ghost use Rattle.server_effects.specs.Carried.{Carried};
ghost use Rattle.server_effects.specs.verdict_effects.Beside.{Beside};
ghost use Rattle.server_effects.specs.reserved.Room.{IsReadied, RoomFor};
ghost use Rattle.server_effects.specs.reserved.Readied.{readied};

use crate::reserved::Ready;
use crate::verdict_effects::sessions::{end_by_message, set_up};
use crate::{
    Answer, add_tree, alter, attach, close_open, drop_tree, keep_refusal, keep_slot, make,
    put_ranges, quiet, repeat, seek, show, tell, turn_down,
};
use server_checks::Tables;
use server_checks::status::SUCCESS;
use wire_commands::{Body, Message};

/// Carries a verdict on a message out that was made ready, at `now` (100 ns since 1601).
pub fn carry_out(t: &mut Tables, m: &Message<'_>, ready: Ready, now: u64) -> Answer
    requires { RoomFor t.old m.now.session_id m.now.connection ready }
    ensures shows { (s : Server) → Fits s → IsReadied t.old s (message_of m.now) now ready
        → Able s (message_of m.now) (readied (command_of m.now.command) ready)
        → Carried t.new result (apply s (message_of m.now) now (readied (command_of m.now.command) ready)) }
    ensures beside { Beside t.old t.new result (message_of m.now) ready }
    ensures config { t.new.config ≡ t.old.config }
{
    // Each arm is one call, since what the prover knows within an arm is lost where arms join.
    match ready {
        Ready::Refuse { status } => quiet(t.alloc, m, status, Body::Empty),
        Ready::Give { body } => quiet(t.alloc, m, SUCCESS, body),
        Ready::KeepRefusal { guid, status } => keep_refusal(t, m, guid, status),
        Ready::Repeat { id } => repeat(t, m, id),
        Ready::Attach { id } => attach(t, m, id),
        Ready::Make { file, row } => make(t, m, file, row, now),
        Ready::TurnDown { id, status } => turn_down(t, m, id, status),
        Ready::Tell { id, body } => tell(t, m, id, body),
        Ready::Show { id, last, body } => show(t, m, id, last, body),
        Ready::Seek { id, position } => seek(t, m, id, position),
        Ready::KeepSlot {
            id,
            index,
            number,
            status,
        } => keep_slot(t, m, id, index, number, status),
        Ready::PutRanges {
            id,
            index,
            number,
            ranges,
        } => put_ranges(t, m, id, index, number, ranges),
        Ready::Alter {
            id,
            change,
            body,
            acts,
        } => alter(t, m, id, change, body, acts, now),
        Ready::CloseOpen { id, body } => close_open(t, m, id, body),
        Ready::Setup { step } => set_up(t, m, step, now),
        Ready::EndSession { session, quiet } => end_by_message(t, m, session, quiet, now),
        Ready::AddTree { pipes } => add_tree(t, m, pipes),
        Ready::DropTree { opens } => drop_tree(t, m, opens.as_slice()),
    }
}
