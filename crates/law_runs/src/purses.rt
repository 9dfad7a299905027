//! What the client's end of a connection holds in the exchange over bytes, without tampering: on a ready channel with
//! nothing on its way, all
//! 512 credits and a nonce, where a run has fewer than 2^54 pushes.
//!
//! The law is a public function, whose contract is the statement, which stands in `specs`.

ghost use Rattle.law_runs.specs.purses.Purse.{StillChannelsHaveAll};

use crate::untampered::plain_runs_law;
use law_wire::nothing_is_refused_law;

/// A request asks for 512 credits, and the server's window holds 512 ids at most (MS-SMB2 3.3.1.2): so behind each reply it is full, and
/// where nothing is on its way the client holds as much. Each push uses at most 512 ids and one nonce of 2^64.
pub fn purse_law()
    ensures full { StillChannelsHaveAll }
{
    nothing_is_refused_law();
    plain_runs_law();
}
