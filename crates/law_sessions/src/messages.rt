//! Laws of the exchange model: what holds of every run of one client and one server, whatever the network loses.
//!
//! Each law is a public function with an empty body; its contract is the statement. The definitions that it cites stand
//! in the crate of definitions below and, where they say what holds between the client's table and the connections, in
//! this crate's `specs`.

ghost use Rattle.std.specs.Prelude.{List};
ghost use Rattle.spec_exchange.specs.Network.{Event, Settings, run, start};
ghost use Rattle.spec_exchange.specs.Runs.{acts};
ghost use Rattle.spec_exchange.specs.Statements.{SettledStays};
ghost use Rattle.law_sessions.specs.messages.Connections.{Connections};

/// On every run the client's table and the connections fit together: a connection carries one message or reply of an
/// operation at most; what an open one carries is outstanding there, as the client noted; each copy is its operation's
/// own request; an operation that settled has nothing outstanding; what never went out never acted; and a create, lock
/// or unlock of which no copy is unanswered hasn't acted while its copy waits.
pub fn connections_law()
    ensures fit { (settings : Settings) (events : List Event)
        → Connections (run events (start settings)).client (run events (start settings)).conns
        (acts events (start settings)) }
{}

/// What settled stays as it settled: no event behind it changes the outcome. (A number that isn't taken yet is unsettled.)
pub fn settled_stays_law()
    ensures stays { SettledStays }
{}
