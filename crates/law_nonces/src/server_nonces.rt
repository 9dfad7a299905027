//! The law on nonces to the client: over every run of the exchange over bytes, tampered with or not, no two messages that
//! servers seal have one nonce in one session (MS-SMB2 2.2.41, 3.1.4.3).
//!
//! The law is a public function with an empty body, whose contract is the statement.

ghost use Rattle.spec_world.specs.Statements.{NoncesToClient};

/// Of all that servers sealed in a run.
pub fn nonces_to_client_law()
    ensures once { NoncesToClient }
{}
