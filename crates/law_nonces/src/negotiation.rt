//! The law on negotiation: over every run of the exchange over bytes, tampered with or not, a client accepts a session or a
//! channel only on a response that verifies under its own key, and then the server that signed it hashed the same five
//! messages, or two different lists that both hashed have one SHA-512, or no server of the run signed it
//! (MS-SMB2 3.1.4.4.1, 3.2.5.3, 3.3.5.5.3).
//!
//! The law is a public function with an empty body, whose contract is the statement.

ghost use Rattle.spec_world.specs.Statements.{Negotiation, FramesAreGuarded};

/// Of each final response that a client accepted in a run, and each that a server of the run signed.
pub fn negotiation_law()
    ensures negotiated { Negotiation }
{}

/// Nothing is taken without a fault that was neither sealed, nor signed where no sealing is owed, but a NEGOTIATE, a
/// SESSION_SETUP and an ECHO of SessionId 0; a binding SESSION_SETUP is refused by the model's checks unless its session signed it.
pub fn guarded_law()
    ensures guarded { FramesAreGuarded }
{}
