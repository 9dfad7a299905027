//! The law on negotiation over repeat runs: a client accepts a session or a channel only on a response that verifies under its own
//! key, and then the server that signed it hashed the same five messages, or two different lists have one SHA-512, or no server of
//! the run signed it (MS-SMB2 3.1.4.4.1, 3.2.5.3, 3.3.5.5.3).
//!
//! The law is the contract of a public function that does nothing.

ghost use Rattle.law_hostile.specs.negotiating.Negotiating.{RepeatNegotiation, SameTranscripts};

/// Of each final response that a client accepted in a repeat run, and each that a server of the run signed (`negotiated`). Where their
/// chain values agree, so do their transcripts, or SHA-512 collides (`transcripts`).
pub fn repeat_negotiation_law()
    ensures negotiated { RepeatNegotiation }
    ensures transcripts { SameTranscripts }
{}
