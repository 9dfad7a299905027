//! That a logon's tokens are understood, and with it all that the laws of the exchange over bytes lean on, as one law: what is
//! signed verifies, what is sealed opens, what is spelled reads back (MS-SMB2 3.2.5.3, 3.3.5.5.3, MS-NLMP 3.1.5.1, 3.2.5.1).
//!
//! Each law is the contract of a public function that does nothing.

ghost use Rattle.law_ties.specs.wire_facts.Lawful.{WireFacts};
ghost use Rattle.law_runs.specs.logons.Facts.{TokenFacts};

use crypto_sessions::resp_law;
use law_crypto::{answer_law, challenge_law, own_logon_law};
use law_ties::{
    answered_law, ciphers_law, commands_law, greeting_law, headers_law, setups_law, trees_law,
};

/// The client's first token begins a logon. The server's challenge to it can be answered, and the answer shows what settings say:
/// the user's logon, with the client's own key, or a refusal. The client takes the server's last token. All of them fit their
/// fields.
pub fn tokens_law()
    ensures lawful { TokenFacts }
{
    resp_law();
    challenge_law();
    answer_law();
    own_logon_law();
}

/// All facts on bytes, of any settings that fit.
pub fn wire_facts_law()
    ensures lawful { WireFacts }
{
    ciphers_law();
    headers_law();
    commands_law();
    greeting_law();
    answered_law();
    setups_law();
    trees_law();
    tokens_law();
}
