//! Which logons the exchange model's server lets seal.
//!
//! The law is a public function with an empty body, whose contract is the statement.

ghost use Rattle.law_answers.specs.sealing_logons.Sealed.{SealsHaveCiphers};

/// On every run, a reply that tells that messages are sealed, be it a new session's or a further channel's, is to a client that has
/// chosen a cipher (MS-SMB2 3.3.5.5.3).
pub fn logons_seal_law()
    ensures seals { SealsHaveCiphers }
{}
