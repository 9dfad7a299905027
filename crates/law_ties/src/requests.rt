//! What keeps the two ends of each connection tied in the exchange over bytes, by the facts on bytes: an Open, a Push, a Serve of a line's
//! request, and a Crash that keeps one.
//!
//! Each law is a public function, whose contract is the statement.

ghost use Rattle.law_ties.specs.requests.Lines.{LineServesAreKept, LineCrashesAreKept};
ghost use Rattle.law_ties.specs.requests.Sending.{LineSendsAreKept};
ghost use Rattle.law_ties.specs.requests.Pushed.{PushesAreKept};
ghost use Rattle.law_ties.specs.requests.Opened.{OpensAreKept};

use law_wire::nothing_is_refused_law;

/// A Serve of a request behind a logon leaves a tied world tied, where its reply fits its fields and its frame (MS-SMB2 3.3.4.1).
pub fn line_serves_law()
    ensures kept { LineServesAreKept }
{
    nothing_is_refused_law();
}

/// A line's request that goes up leaves a tied world tied, where it is paid for, fits its fields and a frame, and reads back (MS-SMB2
/// 3.2.4.1).
pub fn line_sends_law()
    ensures kept { LineSendsAreKept }
{}

/// A Push leaves a tied world tied, where a ready channel is open with its dialog over, and what goes out fits.
pub fn pushes_law()
    ensures kept { PushesAreKept }
{}

/// A Crash that keeps a line's request leaves a tied world tied, by no fact on bytes.
pub fn line_crashes_law()
    ensures kept { LineCrashesAreKept }
{
    nothing_is_refused_law();
}

/// An Open leaves a tied world tied, where the client is the settings' and its NEGOTIATE fits a frame (MS-SMB2 3.2.4.2.2.2).
pub fn opens_law()
    ensures kept { OpensAreKept }
{}
