//! What holds of every stream of RC4.
ghost use Rattle.spec_crypto.specs.ciphers.Rc4.{PiecesJoin, Deciphers};

/// Bytes in two pieces give what both in one give, and leave the same state.
pub fn pieces_join_law()
    ensures { PiecesJoin }
{}

/// What was enciphered is deciphered from the same state.
pub fn deciphers_law()
    ensures { Deciphers }
{}
