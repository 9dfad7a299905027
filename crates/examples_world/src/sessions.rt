//! The chain, the keys, nonces, the choice of algorithms and SPNEGO's tokens on worked values, computed by the checker. The
//! values of hashes are Python's.
#![tactic(auto, unfolding(crate::specs::sessions::Computed::computed))]

ghost use Rattle.std.specs.Prelude.{◌≡◌, ℕ, [], ◌∷◌, true, false, replicate, Some, None, Ok, Err};
ghost use Rattle.spec_crypto.specs.sessions.Chain.{chain};
ghost use Rattle.spec_crypto.specs.sessions.Choice.{choice};
ghost use Rattle.spec_crypto.specs.declared.sessions.choice.ChooseError.TheVariants.{NoPreauth, NoHash};
ghost use Rattle.spec_crypto.specs.sessions.Derivation.{signing_key, to_server_key};
ghost use Rattle.spec_crypto.specs.sessions.Nonces.{nonce_of};
ghost use Rattle.spec_crypto.specs.sessions.Signing.{signature};
ghost use Rattle.spec_crypto.specs.declared.tokens.der.DerError.TheVariants.{Truncated, BadLength, BadTag, Trailing, NoNtlm};
ghost use Rattle.spec_crypto.specs.tokens.Acceptor.{challenge_flags};
ghost use Rattle.spec_crypto.specs.tokens.Messages.{type1_value};
ghost use Rattle.spec_crypto.specs.tokens.Spnego.{init_in, resp_in, init_spelling, resp_spelling, ntlm_list};

/// The chain over two messages.
pub fn chain_example()
    ensures { chain ((1 ∷ 2 ∷ 3 ∷ 4 ∷ 5 ∷ 6 ∷ 7 ∷ 8 ∷ []) ∷ (100 ∷ 101 ∷ 102 ∷ 103 ∷ 104 ∷ 105 ∷ 106 ∷ 107 ∷ 108 ∷ 109 ∷
        []) ∷ []) ≡ 52 ∷ 138 ∷ 51 ∷ 93 ∷ 12 ∷ 135 ∷ 173 ∷ 172 ∷ 152 ∷ 190 ∷ 184 ∷ 113 ∷ 39 ∷ 79 ∷ 104 ∷ 22 ∷ 82 ∷ 66 ∷
        138 ∷ 251 ∷ 254 ∷ 16 ∷ 255 ∷ 84 ∷ 175 ∷ 71 ∷ 14 ∷ 236 ∷ 133 ∷ 103 ∷ 189 ∷ 96 ∷ 28 ∷ 63 ∷ 250 ∷ 13 ∷ 149 ∷ 59 ∷
        77 ∷ 187 ∷ 209 ∷ 244 ∷ 48 ∷ 238 ∷ 239 ∷ 240 ∷ 56 ∷ 111 ∷ 26 ∷ 15 ∷ 154 ∷ 159 ∷ 233 ∷ 154 ∷ 153 ∷ 33 ∷ 150 ∷ 53 ∷
        122 ∷ 15 ∷ 56 ∷ 85 ∷ 243 ∷ 49 ∷ [] }
{}

/// A signing key and a cipher key of 256 bits, for the chain value of 64 zeros.
pub fn derivation_example()
    ensures signing { signing_key (0 ∷ 1 ∷ 2 ∷ 3 ∷ 4 ∷ 5 ∷ 6 ∷ 7 ∷ 8 ∷ 9 ∷ 10 ∷ 11 ∷ 12 ∷ 13 ∷ 14 ∷ 15 ∷ []) (0 ∷ 0 ∷ 0
        ∷ 0 ∷ 0 ∷ 0 ∷ 0 ∷ 0 ∷ 0 ∷ 0 ∷ 0 ∷ 0 ∷ 0 ∷ 0 ∷ 0 ∷ 0 ∷ 0 ∷ 0 ∷ 0 ∷ 0 ∷ 0 ∷ 0 ∷ 0 ∷ 0 ∷ 0 ∷ 0 ∷ 0 ∷ 0 ∷ 0 ∷ 0 ∷ 0
        ∷ 0 ∷ 0 ∷ 0 ∷ 0 ∷ 0 ∷ 0 ∷ 0 ∷ 0 ∷ 0 ∷ 0 ∷ 0 ∷ 0 ∷ 0 ∷ 0 ∷ 0 ∷ 0 ∷ 0 ∷ 0 ∷ 0 ∷ 0 ∷ 0 ∷ 0 ∷ 0 ∷ 0 ∷ 0 ∷ 0 ∷ 0 ∷ 0
        ∷ 0 ∷ 0 ∷ 0 ∷ 0 ∷ 0 ∷ []) ≡ 47 ∷ 171 ∷ 41 ∷ 60 ∷ 36 ∷ 7 ∷ 174 ∷ 224 ∷ 5 ∷ 64 ∷ 224 ∷ 43 ∷ 28 ∷ 73 ∷ 102 ∷ 51 ∷
        [] }
    ensures to_server { to_server_key (0 ∷ 1 ∷ 2 ∷ 3 ∷ 4 ∷ 5 ∷ 6 ∷ 7 ∷ 8 ∷ 9 ∷ 10 ∷ 11 ∷ 12 ∷ 13 ∷ 14 ∷ 15 ∷ []) (0 ∷ 0
        ∷ 0 ∷ 0 ∷ 0 ∷ 0 ∷ 0 ∷ 0 ∷ 0 ∷ 0 ∷ 0 ∷ 0 ∷ 0 ∷ 0 ∷ 0 ∷ 0 ∷ 0 ∷ 0 ∷ 0 ∷ 0 ∷ 0 ∷ 0 ∷ 0 ∷ 0 ∷ 0 ∷ 0 ∷ 0 ∷ 0 ∷ 0 ∷ 0
        ∷ 0 ∷ 0 ∷ 0 ∷ 0 ∷ 0 ∷ 0 ∷ 0 ∷ 0 ∷ 0 ∷ 0 ∷ 0 ∷ 0 ∷ 0 ∷ 0 ∷ 0 ∷ 0 ∷ 0 ∷ 0 ∷ 0 ∷ 0 ∷ 0 ∷ 0 ∷ 0 ∷ 0 ∷ 0 ∷ 0 ∷ 0 ∷ 0
        ∷ 0 ∷ 0 ∷ 0 ∷ 0 ∷ 0 ∷ 0 ∷ []) 4 ≡ 77 ∷ 138 ∷ 53 ∷ 14 ∷ 221 ∷ 131 ∷ 208 ∷ 19 ∷ 44 ∷ 217 ∷ 223 ∷ 223 ∷ 71 ∷ 36 ∷
        236 ∷ 177 ∷ 115 ∷ 110 ∷ 65 ∷ 74 ∷ 239 ∷ 114 ∷ 97 ∷ 149 ∷ 55 ∷ 157 ∷ 175 ∷ 211 ∷ 31 ∷ 28 ∷ 2 ∷ 114 ∷ [] }
{}

/// The challenge takes over of a first message's flags those that this server knows, sign 0x10, seal 0x20 and always sign 0x8000 too.
pub fn challenge_flags_example()
    ensures heard { (type1_value (78 ∷ 84 ∷ 76 ∷ 77 ∷ 83 ∷ 83 ∷ 80 ∷ 0 ∷ 1 ∷ 0 ∷ 0 ∷ 0 ∷ 183 ∷ 130 ∷ 8 ∷ 226 ∷ replicate 24 0)).flags
        ≡ 0xe208_82b7 }
    ensures all { challenge_flags 0xe208_82b7 ≡ 0x608a_8235 }
    ensures none { challenge_flags 0x0000_0002 ≡ 0x0082_0204 }
{}

/// The first known algorithm of each list, and what is missing.
pub fn choice_example()
    ensures usual { choice true true (9 ∷ 2 ∷ 1 ∷ 4 ∷ []) (0 ∷ 2 ∷ 1 ∷ []) ≡ Ok (record { cipher = 2; signing = 2; signing_told = true }) }
    ensures none { choice true true [] (0 ∷ []) ≡ Ok (record { cipher = 0; signing = 1; signing_told = false }) }
    ensures no_hash { choice true false (2 ∷ []) [] ≡ Err NoHash }
    ensures no_context { choice false true (2 ∷ []) [] ≡ Err NoPreauth }
{}

/// The third nonce of channel 513.
pub fn nonce_example()
    ensures { nonce_of (record { channel = 513; counter = 2 }) ≡ 2 ∷ 0 ∷ 0 ∷ 0 ∷ 0 ∷ 0 ∷ 0 ∷ 0 ∷ 1 ∷ 2 ∷ 0 ∷ 0 ∷ 0 ∷ 0 ∷ 0 ∷ 0 ∷ [] }
{}

/// The server's hint, both ways.
pub fn hint_example()
    ensures written { init_spelling (record { mech_list = ntlm_list; ntlm_first = true; token = None; mic = None }) ≡ 96
        ∷ 28 ∷ 6 ∷ 6 ∷ 43 ∷ 6 ∷ 1 ∷ 5 ∷ 5 ∷ 2 ∷ 160 ∷ 18 ∷ 48 ∷ 16 ∷ 160 ∷ 14 ∷ 48 ∷ 12 ∷ 6 ∷ 10 ∷ 43 ∷ 6 ∷ 1 ∷ 4 ∷ 1 ∷
        130 ∷ 55 ∷ 2 ∷ 2 ∷ 10 ∷ [] }
    ensures read { init_in (96 ∷ 28 ∷ 6 ∷ 6 ∷ 43 ∷ 6 ∷ 1 ∷ 5 ∷ 5 ∷ 2 ∷ 160 ∷ 18 ∷ 48 ∷ 16 ∷ 160 ∷ 14 ∷ 48 ∷ 12 ∷ 6 ∷ 10
        ∷ 43 ∷ 6 ∷ 1 ∷ 4 ∷ 1 ∷ 130 ∷ 55 ∷ 2 ∷ 2 ∷ 10 ∷ []) ≡ Ok (record {
          mech_list = ntlm_list;
          ntlm_first = true;
          token = None;
          mic = None;
        }) }
    ensures longer_form { init_in (96 ∷ 130 ∷ 0 ∷ 28 ∷ 6 ∷ 6 ∷ 43 ∷ 6 ∷ 1 ∷ 5 ∷ 5 ∷ 2 ∷ 160 ∷ 18 ∷ 48 ∷ 16 ∷ 160 ∷ 14 ∷
        48 ∷ 12 ∷ 6 ∷ 10 ∷ 43 ∷ 6 ∷ 1 ∷ 4 ∷ 1 ∷ 130 ∷ 55 ∷ 2 ∷ 2 ∷ 10 ∷ []) ≡ Ok (record {
          mech_list = ntlm_list;
          ntlm_first = true;
          token = None;
          mic = None;
        }) }
    ensures cut { init_in (96 ∷ 28 ∷ 6 ∷ 6 ∷ 43 ∷ 6 ∷ 1 ∷ 5 ∷ 5 ∷ 2 ∷ 160 ∷ 18 ∷ 48 ∷ 16 ∷ 160 ∷ 14 ∷ 48 ∷ 12 ∷ 6 ∷ 10 ∷
        43 ∷ 6 ∷ 1 ∷ 4 ∷ 1 ∷ 130 ∷ 55 ∷ 2 ∷ 2 ∷ []) ≡ Err (Truncated 1) }
    ensures followed { init_in (96 ∷ 28 ∷ 6 ∷ 6 ∷ 43 ∷ 6 ∷ 1 ∷ 5 ∷ 5 ∷ 2 ∷ 160 ∷ 18 ∷ 48 ∷ 16 ∷ 160 ∷ 14 ∷ 48 ∷ 12 ∷ 6 ∷
        10 ∷ 43 ∷ 6 ∷ 1 ∷ 4 ∷ 1 ∷ 130 ∷ 55 ∷ 2 ∷ 2 ∷ 10 ∷ 7 ∷ []) ≡ Err (Trailing 30) }
    ensures indefinite { init_in (96 ∷ 128 ∷ 6 ∷ 6 ∷ 43 ∷ 6 ∷ 1 ∷ 5 ∷ 5 ∷ 2 ∷ 160 ∷ 18 ∷ 48 ∷ 16 ∷ 160 ∷ 14 ∷ 48 ∷ 12 ∷
        6 ∷ 10 ∷ 43 ∷ 6 ∷ 1 ∷ 4 ∷ 1 ∷ 130 ∷ 55 ∷ 2 ∷ 2 ∷ 10 ∷ []) ≡ Err (BadLength 1) }
    ensures another_name { init_in (96 ∷ 28 ∷ 6 ∷ 6 ∷ 43 ∷ 6 ∷ 1 ∷ 5 ∷ 5 ∷ 3 ∷ 160 ∷ 18 ∷ 48 ∷ 16 ∷ 160 ∷ 14 ∷ 48 ∷ 12 ∷
        6 ∷ 10 ∷ 43 ∷ 6 ∷ 1 ∷ 4 ∷ 1 ∷ 130 ∷ 55 ∷ 2 ∷ 2 ∷ 10 ∷ []) ≡ Err (BadTag 9 3) }
    ensures another_mechanism { init_in (96 ∷ 28 ∷ 6 ∷ 6 ∷ 43 ∷ 6 ∷ 1 ∷ 5 ∷ 5 ∷ 2 ∷ 160 ∷ 18 ∷ 48 ∷ 16 ∷ 160 ∷ 14 ∷ 48 ∷
        12 ∷ 6 ∷ 10 ∷ 43 ∷ 6 ∷ 1 ∷ 4 ∷ 1 ∷ 130 ∷ 55 ∷ 2 ∷ 2 ∷ 11 ∷ []) ≡ Err NoNtlm }
{}

/// An answer with a state, the mechanism and a token, both ways.
pub fn answer_example()
    ensures written { resp_spelling (record { state = Some 1; ntlm = true; token = Some (255 ∷ []); mic = None }) ≡ 161
        ∷ 26 ∷ 48 ∷ 24 ∷ 160 ∷ 3 ∷ 10 ∷ 1 ∷ 1 ∷ 161 ∷ 12 ∷ 6 ∷ 10 ∷ 43 ∷ 6 ∷ 1 ∷ 4 ∷ 1 ∷ 130 ∷ 55 ∷ 2 ∷ 2 ∷ 10 ∷ 162 ∷ 3
        ∷ 4 ∷ 1 ∷ 255 ∷ [] }
    ensures read { resp_in (161 ∷ 26 ∷ 48 ∷ 24 ∷ 160 ∷ 3 ∷ 10 ∷ 1 ∷ 1 ∷ 161 ∷ 12 ∷ 6 ∷ 10 ∷ 43 ∷ 6 ∷ 1 ∷ 4 ∷ 1 ∷ 130 ∷
        55 ∷ 2 ∷ 2 ∷ 10 ∷ 162 ∷ 3 ∷ 4 ∷ 1 ∷ 255 ∷ []) ≡ Ok (record {
          state = Some 1;
          ntlm = true;
          token = Some (255 ∷
              []);
          mic = None;
        }) }
    ensures another_tag { resp_in (160 ∷ 26 ∷ 48 ∷ 24 ∷ 160 ∷ 3 ∷ 10 ∷ 1 ∷ 1 ∷ 161 ∷ 12 ∷ 6 ∷ 10 ∷ 43 ∷ 6 ∷ 1 ∷ 4 ∷ 1 ∷
        130 ∷ 55 ∷ 2 ∷ 2 ∷ 10 ∷ 162 ∷ 3 ∷ 4 ∷ 1 ∷ 255 ∷ []) ≡ Err (BadTag 0 160) }
{}

/// AES-CMAC of an ECHO of 68 bytes, header and all, by OpenSSL.
pub fn signature_example()
    ensures { signature (record { key = 1 ∷ 1 ∷ 1 ∷ 1 ∷ 1 ∷ 1 ∷ 1 ∷ 1 ∷ 1 ∷ 1 ∷ 1 ∷ 1 ∷ 1 ∷ 1 ∷ 1 ∷ 1 ∷ []; algorithm = 1 })
        (254 ∷ 83 ∷ 77 ∷ 66 ∷ 64 ∷ 0 ∷ 1 ∷ 0 ∷ 0 ∷ 0 ∷ 0 ∷ 0 ∷ 13 ∷ 0 ∷ 1 ∷ 0 ∷ 8 ∷ 0 ∷ 0 ∷ 0 ∷ 0 ∷ 0 ∷ 0 ∷ 0 ∷ 1
        ∷ 0 ∷ 0 ∷ 0 ∷ 0 ∷ 0 ∷ 0 ∷ 0 ∷ 0 ∷ 0 ∷ 0 ∷ 0 ∷ 0 ∷ 0 ∷ 0 ∷ 0 ∷ 0 ∷ 0 ∷ 0 ∷ 0 ∷ 0 ∷ 0 ∷ 0 ∷ 0 ∷ 0 ∷ 0 ∷ 0
        ∷ 0 ∷ 0 ∷ 0 ∷ 0 ∷ 0 ∷ 0 ∷ 0 ∷ 0 ∷ 0 ∷ 0 ∷ 0 ∷ 0 ∷ 0 ∷ 4 ∷ 0 ∷ 0 ∷ 0 ∷ [])
        ≡ 131 ∷ 179 ∷ 82 ∷ 127 ∷ 52 ∷ 246 ∷ 59 ∷ 77 ∷ 204 ∷ 33 ∷ 20 ∷ 249 ∷ 59 ∷ 255 ∷ 159 ∷ 49 ∷ [] }
{}
