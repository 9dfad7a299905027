//! Whose client each server's end has greeted in a run of a network that repeats and redirects.
//!
//! Each law is the contract of a public function that does nothing.

ghost use Rattle.law_hostile.specs.greeted.Greeted.{EndsGreetClient, RequestsAreTheClients};

use law_wire::negotiate_request_law;

/// Where the client offers no cipher, whatever the network gives to the server's ends: a NEGOTIATE that one answered with success told the
/// client's ClientGuid and its offer (`greet`), and what an end hears of a frame that the client put up has this ClientGuid, whichever end
/// it is given to, but for a NEGOTIATE (`own`; MS-SMB2 3.3.5.4).
pub fn ends_greet_client_law()
    ensures greet { EndsGreetClient }
    ensures own { RequestsAreTheClients }
{
    negotiate_request_law();
}
