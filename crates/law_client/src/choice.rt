//! The client's choice of an operation, told by what holds operations up.
//!
//! The law is a public function with an empty body; its contract is the statement.

ghost use Rattle.std.specs.Prelude.{◌≡◌, ℕ, ◌+◌, ◌<◌, ◌≤◌, true, List, None};
ghost use Rattle.spec_exchange.specs.Client.{Client};
ghost use Rattle.spec_exchange.specs.Schedules.{choose};
ghost use Rattle.law_client.specs.table.Kept.{TableKept};
ghost use Rattle.law_client.specs.choice.Choosing.{ChoiceGoes, ChoiceStays, chosen};

/// Of a client whose table keeps its parts: where each operation from one on stays, none is chosen; else the first that goes
/// is, with its slot, or it is found to have none and the choice goes on behind it.
pub fn choice_law()
    ensures none { (c : Client) (k credits from m : ℕ) (slotless : List ℕ) → TableKept c → 0 < from → from + m ≡ c.taken + 1
        → ((g : ℕ) → from ≤ g → g ≤ c.taken → ChoiceStays c credits g)
        → choose c k credits slotless from m ≡ record { slotless = slotless; pick = None } }
    ensures first { (c : Client) (k credits from d g n : ℕ) (slotless : List ℕ) → TableKept c → c.ready k ≡ true → 0 < from
        → from + d ≡ g → g + n ≡ c.taken → ((x : ℕ) → from ≤ x → x < g → ChoiceStays c credits x) → ChoiceGoes c credits g
        → choose c k credits slotless from (d + (n + 1)) ≡ chosen c k credits slotless g n }
{}
