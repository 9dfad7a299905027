//! Each create acts once at most, and once where it was acknowledged, on every run of the model. It is a room because
//! it is a sentence of the headline with a long proof. The laws on locks, on order and on runs over bytes stand on it.
//!
//! Laws of the exchange model on creates: each acts once at most, once where it was acknowledged, and never where it was
//! refused, on every run of one client and one server, whatever the network loses and whenever the server starts anew.
//!
//! The law is a public function with an empty body, whose contract is the statement; what holds of creates in every world
//! of a run stands in `specs`.
#![tactic(auto)]

ghost use Rattle.std.specs.Prelude.{◌≡◌, ℕ, ◌≤◌, true, List, ◌++◌};
ghost use Rattle.spec_exchange.specs.Operations.{is_create, is_ok};
ghost use Rattle.spec_exchange.specs.Network.{Event, Settings, run, start};
ghost use Rattle.spec_exchange.specs.Runs.{acts, never_acted};
ghost use Rattle.law_creates.specs.Creates.{Creates, seen};

/// On every run a create acts once at most (`at_most`), exactly once where it settled Ok (`acknowledged`), and never where
/// it settled Refused, NoSlot or NoOpen, nor in any later event (`never`): over losses, retries on other channels and in
/// new sessions, closes, expiry, restarts and crashes. And in every world of a run the client's table, what waits and what
/// the server keeps of opens, guids and refusals fit together (`fit`): the guid of a create names an open only where the
/// create acted, which stands and has that guid; while a create is unsettled, what tells that it acted is kept; and the
/// open that an acknowledged create names is the one that its guid names, as long as that stands.
pub fn creates_law()
    ensures at_most { (settings : Settings) (events : List Event) (g : ℕ)
        → is_create ((run events (start settings)).client.op g) ≡ true → acts events (start settings) g ≤ 1 }
    ensures acknowledged { (settings : Settings) (events : List Event) (g : ℕ)
        → is_create ((run events (start settings)).client.op g) ≡ true
        → is_ok ((run events (start settings)).client.outcome g) ≡ true → acts events (start settings) g ≡ 1 }
    ensures never { (settings : Settings) (events more : List Event) (g : ℕ)
        → is_create ((run events (start settings)).client.op g) ≡ true
        → never_acted ((run events (start settings)).client.outcome g) ≡ true → acts (events ++ more) (start settings) g
        ≡ 0 }
    ensures fit { (settings : Settings) (events : List Event)
        → Creates (run events (start settings)).client (run events (start settings)).conns
        (seen (run events (start settings)).server) (acts events (start settings)) }
{}
