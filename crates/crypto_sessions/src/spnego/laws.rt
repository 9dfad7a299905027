//! A canonical spelling reads back.
ghost use Rattle.std.specs.Prelude.{◌≡◌, Ok};
ghost use Rattle.spec_crypto.specs.tokens.Spnego.{InitValue, RespValue, init_in, init_spelling, IsWritableInit, resp_in};
ghost use Rattle.spec_crypto.specs.tokens.Spnego.{resp_spelling, IsWritableResp};

pub fn init_law()
    ensures { (v : InitValue) → IsWritableInit v → init_in (init_spelling v) ≡ Ok v }
{}

pub fn resp_law()
    ensures { (v : RespValue) → IsWritableResp v → resp_in (resp_spelling v) ≡ Ok v }
{}
