//! The records of the journal go on standing for the server, event by event: what a restart would make of them agrees with its
//! files, its opens that outlive a session, and its counts.
//!
//! The law is a public function with an empty body but for the laws that it rests on; its contract is the statement.

ghost use Rattle.std.specs.Prelude.{ℕ, List, ◌++◌};
ghost use Rattle.spec_exchange.specs.State.{Record, Server, ServerEvent};
ghost use Rattle.spec_exchange.specs.Step.{step};
ghost use Rattle.law_records.specs.recovery.Recovers.{RecordRecovers};
ghost use Rattle.law_server.specs.tables.Fits.{Fits};
ghost use Rattle.spec_world.specs.Lacking.{Expires, alone_records};

use crate::deadlines::dated_law;
use crate::tables::keeps_law;

/// Of a server that fits together and whose state the records are told by their fold: so are those with the records of an event behind
/// them of the state behind it (`stepped`), whatever the event, the server's stop too; and so are those with the records of an expiry
/// that stands alone, where memory ran out for the event (`alone`), which leaves a state that fits together (`fits_alone`).
pub fn stands_law()
    ensures stepped { (rs : List Record) (s : Server) (now : ℕ) (e : ServerEvent) → Fits s → RecordRecovers rs s
        → RecordRecovers (rs ++ (step s now e).records) (step s now e).server }
    ensures alone { (rs : List Record) (s : Server) (now : ℕ) (e : ServerEvent) (t : Server) (o : ℕ) → Fits s → RecordRecovers rs s
        → Expires s now e t o → RecordRecovers (rs ++ alone_records s now e o) t }
    ensures fits_alone { (s : Server) (now : ℕ) (e : ServerEvent) (t : Server) (o : ℕ) → Fits s → Expires s now e t o → Fits t }
{
    dated_law();
    keeps_law();
}
