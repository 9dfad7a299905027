//! The final responses of a run of a network that repeats and redirects: what a server signs has no secret or that of one that it made, and
//! where nothing is forged a server that hashed the same messages made one of the same secret as each that a client accepts (MS-SMB2
//! 3.2.5.3, 3.3.5.5.3).
//!
//! Each law is the contract of a public function that does nothing.

ghost use Rattle.law_hostile.specs.finals.Finals.{AcceptedWasMade, MadeWasSigned, SignedWasMade};

/// Where nothing is sealed, what the server signed in a run has the exported key and the chain value of a final response that it made, or
/// no secret is known of it.
pub fn signed_was_made_law()
    ensures made { SignedWasMade }
{}

/// Where nothing is sealed, the server signed each final response that it made with its own exported key and chain value, for an opening of
/// a connection.
pub fn made_was_signed_law()
    ensures signed { MadeWasSigned }
{}

/// Where nothing is sealed and no message of a run is forged: of each final response that the client accepted the server made one with the
/// same exported key and chain value, over the same messages, or SHA-512 collides. That both have the same bytes isn't said.
pub fn accepted_was_made_law()
    ensures accepted { AcceptedWasMade }
{}
