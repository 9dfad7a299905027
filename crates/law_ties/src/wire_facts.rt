//! What the laws of the exchange over bytes lean on: that what is signed verifies, what is sealed opens, what is spelled
//! reads back, and that a logon's tokens are understood. The facts stand in `specs/` as one record. Those on ciphers, headers,
//! commands, NEGOTIATE, SESSION_SETUP and TREE_CONNECT are proved here, each as the contract of a public function that does
//! nothing; those on tokens are proved by `law_runs::logons`.

ghost use Rattle.law_ties.specs.wire_facts.Lawful.{AreCiphersLawful, AreHeadersLawful, AreCommandsLawful, AreSetupsLawful};
ghost use Rattle.law_ties.specs.wire_facts.Lawful.{AreFileIdsCarried, GreetingFacts, AnswerFacts, TreeFacts};

use law_commands::{dialog_request_law, file_ids_law, reply_law, request_law, share_law};
use law_crypto::{sealed_opens_law, signed_verifies_law};
use law_wire::{
    header_law, negotiate_request_law, negotiate_response_law, session_setup_request_law,
    session_setup_response_law, tree_connect_response_law,
};

/// SHA-512 gives 64 bytes, what is signed verifies, and what is sealed under a channel's nonce opens, is seen to be sealed and
/// fits a frame (MS-SMB2 3.1.4.1, 3.1.4.3).
pub fn ciphers_law()
    ensures lawful { AreCiphersLawful }
{
    signed_verifies_law();
    sealed_opens_law();
}

/// A message, signed or not, begins with its own header and is the only one of its frame; its first bytes are no sealed
/// frame's (MS-SMB2 2.2.1.2).
pub fn headers_law()
    ensures lawful { AreHeadersLawful }
{
    header_law();
}

/// A request of an operation, or the one that attaches its open, is heard as that command, and a success as that success,
/// behind a header that is signed or not; of another status nothing is heard but the header.
pub fn commands_law()
    ensures lawful { AreCommandsLawful }
{
    header_law();
    request_law();
    reply_law();
}

/// A request of an operation gives back the FileId that its client was told, whichever 16 bytes the server chose: they stand at the
/// place of its command (MS-SMB2 2.2.15 to 2.2.39), behind any header of 64 bytes.
pub fn file_ids_carried_law()
    ensures carried { AreFileIdsCarried }
{
    file_ids_law();
}

/// A SESSION_SETUP that the client sends, signed in a binding, is heard with its token, its session before it and what that
/// token shows; an interim or final response reads, with its token and SessionFlags (MS-SMB2 2.2.5, 2.2.6).
pub fn setups_law()
    ensures lawful { AreSetupsLawful }
{
    header_law();
    dialog_request_law();
    session_setup_request_law();
    session_setup_response_law();
}

/// The client's TREE_CONNECT names its share, and the response to it reads (MS-SMB2 2.2.9, 2.2.10).
pub fn trees_law()
    ensures lawful { TreeFacts }
{
    header_law();
    share_law();
    tree_connect_response_law();
}

/// The client's NEGOTIATE is answered with success, the server chooses what settings say, and hears the client's guid
/// (MS-SMB2 2.2.3, 3.3.5.4).
pub fn greeting_law()
    ensures heard { GreetingFacts }
{
    header_law();
    negotiate_request_law();
}

/// The server's response to it reads, with contexts and a hint that read, and chooses what the client offered; the client
/// then has the server's own choice (MS-SMB2 2.2.4, 3.2.5.2).
pub fn answered_law()
    ensures answered { AnswerFacts }
{
    header_law();
    negotiate_request_law();
    negotiate_response_law();
}
