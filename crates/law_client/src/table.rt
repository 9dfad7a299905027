//! Laws of the client's table: what its choice of an operation leans on.
//!
//! Each law is a public function with an empty body; its contract is the statement.

ghost use Rattle.std.specs.Prelude.{◌≡◌, ℕ, ◌<◌, ◌≤◌, false, List};
ghost use Rattle.spec_exchange.specs.Operations.{is_unsettled};
ghost use Rattle.spec_exchange.specs.Client.{Client, waits};
ghost use Rattle.spec_exchange.specs.ClientStep.{ClientEvent, client_after};
ghost use Rattle.spec_exchange.specs.Network.{Settings, start};
ghost use Rattle.law_client.specs.table.Kept.{TableKept, IsTimely};

/// It holds at the beginning, and each event keeps it, where the client gives up only while no session is live: an
/// operation's create is a lower create; an unsettled operation's create is unsettled or Ok; what is outstanding is
/// unsettled; what is outstanding or was sent has its create Ok.
pub fn kept_law()
    ensures first { (settings : Settings) → TableKept (start settings).client }
    ensures next { (c : Client) (e : ClientEvent) → TableKept c → IsTimely c e → TableKept (client_after c e) }
{}

/// What is settled waits for nothing: each lower one of its open that holds it up is settled too.
pub fn settled_law()
    ensures { (c : Client) (g : ℕ) → TableKept c → 0 < g → g ≤ c.taken → is_unsettled (c.outcome g) ≡ false → waits c g g ≡ false }
{}
