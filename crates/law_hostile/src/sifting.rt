//! What a network that reorders and loses single messages leaves of the laws on once and newer: each record that they rest on stays
//! where a connection's lists become others with no other members, and with no more copies of any operation.
//!
//! The law is the contract of a public function that does nothing.

ghost use Rattle.law_hostile.specs.sifting.Sifting.{ConnectionsSift, SessionsSift, KindsSift, CreatesSift, LocksSift, NewestSifts};

/// Of the client's table and what waits (`connections`), the client's session and the server's (`sessions`), trees (`kinds`), creates
/// (`creates`), locks (`locks`) and pairs of session and sequence (`newest`).
pub fn lists_may_sift_law()
    ensures connections { ConnectionsSift }
    ensures sessions { SessionsSift }
    ensures kinds { KindsSift }
    ensures creates { CreatesSift }
    ensures locks { LocksSift }
    ensures newest { NewestSifts }
{}
