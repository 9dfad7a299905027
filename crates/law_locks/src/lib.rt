//! Each create, lock and unlock acts once at most, and once where it was acknowledged, on every run of the model. It is
//! a room because it is a sentence of the headline with a long proof. The laws on outcomes and on runs over bytes stand
//! on it.
//!
//! Laws of the exchange model on acts: each create, lock and unlock acts once at most, once where it was acknowledged, and
//! never where it was refused, on every run of one client and one server, whatever the network loses and whenever the
//! server starts anew.
//!
//! The law is a public function with an empty body, whose contract is the statement; what holds of locks in every world of
//! a run stands in `specs`.
#![tactic(auto)]

ghost use Rattle.std.specs.Prelude.{List};
ghost use Rattle.spec_exchange.specs.Network.{Event, Settings, run, start};
ghost use Rattle.spec_exchange.specs.Runs.{acts};
ghost use Rattle.spec_exchange.specs.Statements.{ExactlyOnce};
ghost use Rattle.law_locks.specs.Locks.{Locks};

/// On every run, behind every event (`once`): a create, lock or unlock acts once at most; exactly once where it settled
/// Ok; and never where it settled Refused, NoSlot or NoOpen, nor in any later event. Losses, retries on other channels and
/// in new sessions, full disks, closes, expiry, restarts and crashes are among the events. And in every world of a run the
/// client's lock slots, the copies that wait and what the server's opens keep fit together (`fit`): while a copy of a lock
/// waits whose session is there, its slot is its own; and what its open's slot keeps for its number says whether it acted.
pub fn exactly_once_law()
    ensures once { ExactlyOnce }
    ensures fit { (settings : Settings) (events : List Event)
        → Locks (run events (start settings)).client (run events (start settings)).conns
        (run events (start settings)).server (acts events (start settings)) }
{}
