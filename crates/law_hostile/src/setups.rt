//! Whose logons the server hears of in a run of a network that repeats and redirects.
//!
//! The law is the contract of a public function that does nothing.

ghost use Rattle.law_hostile.specs.setups.OwnSetups.{SetupsAreOwn};

use crypto_sessions::resp_law;
use law_wire::negotiate_request_law;

/// Where the client offers no cipher: each SESSION_SETUP that the client put up is heard, at whichever server's end it is given to and
/// whatever challenge stands there, as one of the client's ClientGuid and of the sequence 0; it shows the client's own user, or no logon
/// (MS-SMB2 3.3.5.5, MS-NLMP 3.2.5.1.2).
pub fn setups_are_own_law()
    ensures own { SetupsAreOwn }
{
    resp_law();
    negotiate_request_law();
}
