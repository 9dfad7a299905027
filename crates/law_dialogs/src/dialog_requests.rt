//! What keeps the two ends of each connection tied in the exchange over bytes, by the facts on bytes: a Serve of a dialog's NEGOTIATE
//! or SESSION_SETUP, and a Crash that keeps one.
//!
//! Each law is a public function, whose contract is the statement.

ghost use Rattle.law_dialogs.specs.dialog_requests.Serving.{DialogServesAreKept, DialogCrashesAreKept};

use law_wire::nothing_is_refused_law;

/// A Serve of a NEGOTIATE or a SESSION_SETUP leaves a tied world tied, where it is alone in its list, its reply fits its header, and the
/// session that it begins is none of which a signed message or a new session's success waits (MS-SMB2 3.3.5.4, 3.3.5.5).
pub fn dialog_serves_law()
    ensures kept { DialogServesAreKept }
{
    nothing_is_refused_law();
}

/// A Crash that keeps such a request leaves a tied world tied, by no fact on bytes.
pub fn dialog_crashes_law()
    ensures kept { DialogCrashesAreKept }
{
    nothing_is_refused_law();
}
