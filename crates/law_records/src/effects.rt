//! What the effect of an event leaves alone, and what stands behind the last step of a logon.
//!
//! Each law is a public function with an empty body, whose contract is the statement.

ghost use Rattle.std.specs.Prelude.{◌≡◌, ℕ};
ghost use Rattle.spec_exchange.specs.Check.{check};
ghost use Rattle.spec_exchange.specs.State.{Message, Server};
ghost use Rattle.spec_exchange.specs.Step.{Ruling, carried_out, expire, without_room};
ghost use Rattle.law_records.specs.effects.Making.{EndsMaking};

/// What an event does to the tables changes no count of the journal's bytes, and neither does an expiry: a body is counted
/// behind it. Neither changes how many bytes the records of events may fill.
pub fn carried_law()
    ensures counts { (s : Server) (now : ℕ) (r : Ruling) → (carried_out s now r).server.journal ≡ s.journal }
    ensures limits { (s : Server) (now : ℕ) (r : Ruling) → (carried_out s now r).server.limit ≡ s.limit }
    ensures expired { (s : Server) (o : ℕ) → (expire s o).journal ≡ s.journal }
    ensures limited { (s : Server) (o : ℕ) → (expire s o).limit ≡ s.limit }
{}

/// A message whose verdict begins a session or joins a channel to one names it, and its connection has that in the making
/// (MS-SMB2 3.3.5.5.3); so it is where no record fits.
pub fn making_law()
    ensures checked { (s : Server) (m : Message) → EndsMaking s m (check s m) }
    ensures lesser { (s : Server) (m : Message) → EndsMaking s m (without_room (check s m)) }
{}
