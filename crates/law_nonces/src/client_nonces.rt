//! The law on nonces to the server: over every run of the exchange over bytes, tampered with or not, in which the client accepts no
//! two sessions of one id and binds no channel behind 65,535 of one session, no two messages that it seals have one nonce in one session
//! (MS-SMB2 2.2.41, 3.1.4.3). Without tampering the first of these premises is the model's own, and both directions are one law.
//!
//! Each law is the contract of a public function that does nothing.

ghost use Rattle.law_nonces.specs.client_nonces.Sent.{NoncesToServer, PlainNonces};

use crate::server_nonces::nonces_to_client_law;
use law_sessions::sessions_law;

/// Of all that the client sealed in a run.
pub fn nonces_to_server_law()
    ensures once { NoncesToServer }
{}

/// Of all that both ends sealed in a run without tampering of which each beginning is in step with the model.
pub fn plain_nonces_law()
    ensures once { PlainNonces }
{
    sessions_law();
    nonces_to_client_law();
    nonces_to_server_law();
}
