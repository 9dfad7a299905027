//! How a connection ended.
ghost use Rattle.std.specs.Prelude.{◌≡◌};
ghost use Rattle.serve_turns.specs.connection_turns.Ending.{ended_by, ended_of, failure_of, has_lost, is_stop, refusal_of, stops_behind, told_end};

use crate::link_serving::Ended;
use conn_core::{ConnEnd, Reply, ServeError};

/// STATUS_SUCCESS (MS-ERREF 2.3.1)
const SUCCESS: u32 = 0;

/// The same end, as it is told of a served connection.
fn told_end(why: ConnEnd) -> crate::link_serving::ConnEnd
    ensures { result ≡ told_end why }
{
    match why {
        ConnEnd::BadFrame => crate::link_serving::ConnEnd::BadFrame,
        ConnEnd::OutsideWindow(id) => crate::link_serving::ConnEnd::OutsideWindow(id),
        ConnEnd::SecondNegotiate => crate::link_serving::ConnEnd::SecondNegotiate,
        ConnEnd::Unsealable => crate::link_serving::ConnEnd::Unsealable,
        ConnEnd::Spent => crate::link_serving::ConnEnd::Spent,
        ConnEnd::Full => crate::link_serving::ConnEnd::Full,
        ConnEnd::LinkFault(count) => crate::link_serving::ConnEnd::LinkFault(count),
        ConnEnd::Stopped(count) => crate::link_serving::ConnEnd::Stopped(count),
        ConnEnd::Memory => crate::link_serving::ConnEnd::Memory,
    }
}

/// It ended as the server or the link said.
pub(crate) fn by(why: ConnEnd) -> Ended
    ensures { result ≡ ended_by why }
{
    Ended::By(told_end(why))
}

/// Why a connection is not taken in behind its first turn.
pub(crate) fn refusal_of(reply: &Option<Result<Reply, ServeError>>) -> Option<ConnEnd>
    ensures { result ≡ refusal_of reply.now }
{
    match reply {
        Some(Ok(reply)) if reply.status == SUCCESS => None,
        Some(Ok(_)) => Some(ConnEnd::Full),
        Some(Err(ServeError::Stopped(count))) => Some(ConnEnd::Stopped(*count)),
        Some(Err(ServeError::Memory)) => Some(ConnEnd::Memory),
        Some(Err(ServeError::Unanswered { acted: _ })) => Some(ConnEnd::Memory),
        None => Some(ConnEnd::Memory),
    }
}

/// Whether an event was carried out whose reply is lost.
pub(crate) fn has_lost(reply: &Option<Result<Reply, ServeError>>) -> bool
    ensures { result ≡ has_lost reply.now }
{
    matches!(reply, Some(Err(ServeError::Unanswered { acted: _ })))
}

/// What a turn fails with behind which nothing more comes.
fn failure_of(reply: &Option<Result<Reply, ServeError>>) -> Option<ConnEnd>
    ensures { result ≡ failure_of reply.now }
{
    match reply {
        Some(Ok(_)) => None,
        Some(Err(ServeError::Stopped(count))) => Some(ConnEnd::Stopped(*count)),
        Some(Err(ServeError::Memory)) => Some(ConnEnd::Memory),
        Some(Err(ServeError::Unanswered { acted: _ })) => Some(ConnEnd::Memory),
        None => Some(ConnEnd::Memory),
    }
}

/// Behind its last turn: where the peer ended it, that turn may have failed.
pub(crate) fn ended(why: Option<ConnEnd>, last: &Option<Result<Reply, ServeError>>) -> Ended
    ensures { result ≡ ended_of why last.now }
{
    match (why, failure_of(last)) {
        (Some(why), _) => by(why),
        (None, Some(why)) => by(why),
        (None, None) => Ended::Closed,
    }
}

fn is_stop(why: crate::link_serving::ConnEnd) -> bool
    ensures { result ≡ is_stop why }
{
    match why {
        crate::link_serving::ConnEnd::BadFrame
        | crate::link_serving::ConnEnd::OutsideWindow(_)
        | crate::link_serving::ConnEnd::SecondNegotiate
        | crate::link_serving::ConnEnd::Unsealable
        | crate::link_serving::ConnEnd::Spent
        | crate::link_serving::ConnEnd::Full
        | crate::link_serving::ConnEnd::LinkFault(_)
        | crate::link_serving::ConnEnd::Memory => false,
        crate::link_serving::ConnEnd::Stopped(_) => true,
    }
}

/// Whether no further link is to be accepted behind it: the server takes nothing more.
pub(crate) fn stops_behind(end: Ended) -> bool
    ensures { result ≡ stops_behind end }
{
    match end {
        Ended::Closed => false,
        Ended::By(why) => is_stop(why),
    }
}
