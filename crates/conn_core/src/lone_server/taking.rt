//! The connection's own step over a frame.
ghost use Rattle.std.specs.Prelude.{◌≡◌, ◌≤◌, ◌&&◌, List};
ghost use Rattle.spec_exchange.specs.State.{Record, Server};
ghost use Rattle.spec_crypto.specs.sessions.Nonces.{last_counter};
ghost use Rattle.spec_world.specs.Settings.{ServerSettings};
ghost use Rattle.spec_world.specs.Ends.{Logons, ServerEnd};
ghost use Rattle.conn_core.specs.Shown.{ShowsEnd};
ghost use Rattle.conn_core.specs.served.Serving.{Onward};
ghost use Rattle.conn_core.specs.lone_server.Own.{TakesOwn, goes_by, is_own_end, is_own_result};

use crate::conn::Conn;
use crate::end::ConnEnd;
use crate::served::Serve;
use crate::{Ended, Taken, take_frame};
use law_ties::{nothing_befell_law, own_step_law};

/// An end that the connection's own step has: neither memory that ran out nor a server that stopped.
fn is_own(why: &ConnEnd) -> bool
    ensures { result ≡ goes_by why.now }
{
    match why {
        ConnEnd::Memory => false,
        ConnEnd::Stopped(_) => false,
        ConnEnd::BadFrame => true,
        ConnEnd::OutsideWindow(_) => true,
        ConnEnd::SecondNegotiate => true,
        ConnEnd::Unsealable => true,
        ConnEnd::Spent => true,
        ConnEnd::Full => true,
        ConnEnd::LinkFault(_) => true,
    }
}

fn both(a: bool, b: bool) -> bool
    ensures { result ≡ (a && b) }
{
    a && b
}

fn is_own_ended(ended: &Ended) -> bool
    ensures { result ≡ is_own_end ended.now }
{
    both(!ended.lacked, is_own(&ended.why))
}

/// Whether what a frame came to is the connection's own: no event found no memory, and the server goes on.
fn is_own_taken(taken: &Result<Taken, Ended>) -> bool
    ensures { result ≡ is_own_result taken.now }
{
    match taken {
        Ok(taken) => !taken.lacked,
        Err(ended) => is_own_ended(ended),
    }
}

/// Takes a frame. `None` where memory ran out for an event, for the frame or for its answer, or the server has stopped: nothing is
/// told then, and neither the connection nor the server is used again.
pub fn take_own<S: Serve>(
    conn: &mut Conn,
    server: &mut S,
    now: u64,
    fresh: [u8; 8],
    frame: &[u8],
) -> Option<Result<Taken, Ended>>
    ensures { (z : ServerSettings) (s : Server) (L : Logons) (records : List Record) (f : ServerEnd)
        → S.shows server.old z.users s L records → ShowsEnd conn.old.id z.guid conn.old f → f.counter ≤ last_counter
        → TakesOwn (Onward (S.shows server.new z.users) (S.stopped server.old) (S.stopped server.new)) z conn.old.id now fresh s L records
        f frame.now conn.new result }
{
    own_step_law();
    nothing_befell_law();
    let taken = take_frame(conn, server, now, fresh, frame);
    let own = is_own_taken(&taken);
    if own {
        return Some(taken);
    }
    None
}
