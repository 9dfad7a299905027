//! A logon between a client and a server of this project's own.
ghost use Rattle.std.specs.Prelude.{◌≡◌, ℕ, List, true, length, Some, Ok};
ghost use Rattle.spec_crypto.specs.declared.tokens.ntlm.Type1.{Type1};
ghost use Rattle.spec_crypto.specs.tokens.Messages.{Type2Value, type1_in, type2_in, type3_in};
ghost use Rattle.spec_crypto.specs.tokens.Acceptor.{User, challenge_value, challenge, verdict};
ghost use Rattle.spec_crypto.specs.tokens.Answer.{Credentials, first_message, answer_with, answer_code, answered};
ghost use Rattle.law_crypto.specs.ntlm.Own.{IsClient, IsItsUser};

/// A challenge reads back as what it was made of: its pairs fit.
pub fn challenge_law()
    ensures { (first server second : List ℕ) (now : ℕ) (v : Type1) → length server ≡ 8 → type1_in first ≡ Ok v
        → challenge first server now ≡ Ok second → type2_in second ≡ Ok (challenge_value v server now) }
{}

/// The answer to any type 2 that reads, reads back as what it was made of: its pairs fit.
pub fn answer_law()
    ensures { (c : Credentials) (first second third : List ℕ) (v : Type2Value) → length c.challenge ≡ 8 → length c.key ≡ 16
        → type2_in second ≡ Ok v → answered c first second v ≡ Some third
        → type3_in third ≡ Ok (answer_with c v (answer_code c first second v)) }
{}

/// The server's verdict on a client's answer to its own challenge is the user's logon, with the key that the client chose.
pub fn own_logon_law()
    ensures { (c : Credentials) (users : List User) (u : User) (server second third : List ℕ) (now : ℕ) (v : Type2Value)
        → IsClient c → IsItsUser c users u → length server ≡ 8 → challenge first_message server now ≡ Ok second
        → type2_in second ≡ Ok v → answered c first_message second v ≡ Some third
        → verdict users server first_message second third ≡ Ok (record { user = u.name; key = c.key; exchanged = true }) }
{}
