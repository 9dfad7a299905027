//! The bodies of two lists of records, put one behind the other.
//!
//! The law is a public function with an empty body, whose contract is the statement.

ghost use Rattle.std.specs.Prelude.{ℕ, List, ◌++◌};
ghost use Rattle.spec_exchange.specs.State as model;
ghost use Rattle.journal_bytes.specs.record_bodies.Body.{IsBodyOf};

/// The body of records with that of others behind it is the body of both, so that what an open's expiry owes and what the event
/// behind it owes may be spelled apart.
pub fn joined_law()
    ensures { (a b : List ℕ) (rs qs : List model.Record) → IsBodyOf a rs → IsBodyOf b qs → IsBodyOf (a ++ b) (rs ++ qs) }
{}
