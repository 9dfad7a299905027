//! Deadlines of opens that recovery found: what was made ready of an event without them is ready with them.
//!
//! The law is a public function with an empty body, whose contract is the statement.

ghost use Rattle.std.specs.Prelude.{ℕ};
ghost use Rattle.server_effects.specs.recovered_deadlines.Dated.{HasRoomYet};
ghost use Rattle.spec_exchange.specs.State.{Message, Server, ServerEvent};
ghost use Rattle.spec_exchange.specs.Step.{with_deadlines};
ghost use Rattle.spec_exchange.specs.Verdict.{Verdict};
ghost use Rattle.store_opens.specs.open_table.Shown.{ShowsOpens};
ghost use Rattle.store_opens.specs.declared.open_table.table.Opens.{Opens};
ghost use Rattle.server_checks.specs.declared.event_heard.asked.Asked.{Asked};
ghost use Rattle.server_checks.specs.Shown.{TablesShown};
ghost use Rattle.server_checks.specs.declared.tables.Tables.{Tables};
ghost use Rattle.server_effects.specs.Able.{Able};
ghost use Rattle.server_effects.specs.prepared_event.Prepared.{IsPrepared, RoomToCarry};
ghost use Rattle.server_effects.specs.declared.prepared_event.prepared.Prepared.{Prepared};
ghost use Rattle.server_effects.specs.reserved.Room.{IsReadied};
ghost use Rattle.server_effects.specs.declared.reserved.ready.Ready.{Ready};

/// Where each open without a session has got its first deadline, and the table of opens shows that: what could be carried out
/// can be, what was made ready or prepared is, and the tables show the state. Where the table of opens has its room yet, so has
/// what was prepared.
pub fn dated_effects_law()
    ensures able { (s : Server) (now : ℕ) (m : Message) (v : Verdict) → Able s m v → Able (with_deadlines s now) m v }
    ensures readied { (t : Tables) (u : Opens) (s : Server) (m : Message) (now : ℕ) (r : Ready) → IsReadied t s m now r
        → ShowsOpens u (with_deadlines s now) → IsReadied (record t { opens = u }) (with_deadlines s now) m now r }
    ensures shown { (t : Tables) (u : Opens) (s : Server) (now : ℕ) → TablesShown t s → ShowsOpens u (with_deadlines s now)
        → TablesShown (record t { opens = u }) (with_deadlines s now) }
    ensures prepared { (t : Tables) (u : Opens) (s : Server) (now : ℕ) (e : ServerEvent) (p : Prepared) → IsPrepared t s now e p
        → ShowsOpens u (with_deadlines s now) → IsPrepared (record t { opens = u }) (with_deadlines s now) now e p }
    ensures room { (t : Tables) (u : Opens) (a : Asked) (p : Prepared) → HasRoomYet t.opens u → RoomToCarry t a p
        → RoomToCarry (record t { opens = u }) a p }
{}

pub use crate::prepared_event::Prepared;
