//! Deadlines of opens that recovery found: how the server rules on an event, and what the journal owes for it, is told from a
//! state in which they have none yet.
//!
//! The law is a public function with an empty body, whose contract is the statement.

ghost use Rattle.std.specs.Prelude.{◌≡◌, ℕ};
ghost use Rattle.spec_exchange.specs.Check.{check};
ghost use Rattle.spec_exchange.specs.State.{Message, Origin, Server, ServerEvent};
ghost use Rattle.spec_exchange.specs.Step.{Ruling, carried_out, expire, expire_records, ruling, with_deadlines};
ghost use Rattle.law_server.specs.tables.Fits.{Fits};

/// Where each open without a session has got its first deadline, the verdict on a message is the same as before, so is the
/// ruling on an event, so are the reply, whether it acted, the records that it owes and those of an open that expires; behind
/// that expiry the state is the one that the expiry leaves without them, and each other open gets its deadline there. What fitted
/// together does so yet.
pub fn dated_law()
    ensures checks { (s : Server) (now : ℕ) (m : Message) → check (with_deadlines s now) m ≡ check s m }
    ensures ruled { (s : Server) (now : ℕ) (e : ServerEvent) → ruling (with_deadlines s now) e ≡ ruling s e }
    ensures owed { (s : Server) (now : ℕ) (r : Ruling) → (carried_out (with_deadlines s now) now r).records
        ≡ (carried_out s now r).records }
    ensures told { (s : Server) (now : ℕ) (r : Ruling) → (carried_out (with_deadlines s now) now r).reply ≡ (carried_out s now r).reply }
    ensures acted { (s : Server) (now : ℕ) (r : Ruling) → (carried_out (with_deadlines s now) now r).acted ≡ (carried_out s now r).acted }
    ensures front { (s : Server) (now : ℕ) (g : Origin) (o : ℕ) → expire_records (with_deadlines s now) g o ≡ expire_records s g o }
    ensures expired { (s : Server) (now o : ℕ) → expire (with_deadlines s now) o ≡ with_deadlines (expire s o) now }
    ensures fits { (s : Server) (now : ℕ) → Fits s → Fits (with_deadlines s now) }
{}
