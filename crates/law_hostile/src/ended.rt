//! The server's sessions in a run of a network that repeats and redirects.
//!
//! Each law is the contract of a public function that does nothing.

ghost use Rattle.law_hostile.specs.ended.Acceptances.{AcceptedEndsBefore, AcceptedIsBegun};
ghost use Rattle.law_hostile.specs.ended.EndedSessions.{RepeatRecordsStand, RepeatSessionsStayOver};
ghost use Rattle.law_hostile.specs.ended.Orders.{AcceptedAreGiven, AcceptedIsNew};
ghost use Rattle.law_hostile.specs.ended.Requests.{DialogsNameSessions};

use crypto_sessions::resp_law;

/// Where the client offers no cipher, whatever the network gives to either end: the server's tables fit together, and its records stand for
/// it (`stand`); a session whose id was given and that no connection makes isn't made again, and one that is over is never there again, over
/// restarts too (`over`).
pub fn servers_stand_law()
    ensures stand { RepeatRecordsStand }
    ensures over { RepeatSessionsStayOver }
{}

/// Whatever the network gives to either end: the last message of an open dialog that waits for its new session's final response is a
/// SESSION_SETUP that names the session which the client waits for, and as the one before it the one that the client accepted last.
pub fn dialogs_name_sessions_law()
    ensures named { DialogsNameSessions }
{}

/// Where nothing is sealed, no message is forged and SHA-512 doesn't collide: of the session that the client accepted last the server gave
/// the id, no connection makes it any more, and it is the client's user's where it is there (`begun`); and by an event behind which the
/// client has accepted another session, the one that it accepted before is over (`before`; MS-SMB2 3.2.5.3, 3.3.5.5.3).
pub fn accepted_sessions_law()
    ensures begun { AcceptedIsBegun }
    ensures before { AcceptedEndsBefore }
{
    resp_law();
}

/// In such a run no session is accepted twice: by an event behind which the client counts another number of accepted sessions, it accepted one
/// more, which it never accepted before (`new`); and of each that it accepted the server gave the id, and no connection makes it any more
/// (`given`).
pub fn accepted_once_law()
    ensures new { AcceptedIsNew }
    ensures given { AcceptedAreGiven }
{
    resp_law();
}
