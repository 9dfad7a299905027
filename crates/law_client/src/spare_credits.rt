//! Credits beyond what the dearest operation costs make no difference to a client's choice.
//!
//! The law is a public function with an empty body; its contract is the statement.

ghost use Rattle.std.specs.Prelude.{◌≡◌, ℕ, ◌+◌, ◌<◌, ◌≤◌, true, List};
ghost use Rattle.spec_exchange.specs.Operations.{keeps_limits};
ghost use Rattle.spec_exchange.specs.Client.{Client};
ghost use Rattle.spec_exchange.specs.Schedules.{choose, cost};

/// An operation that keeps the limits costs 17 credits at most. Where none of those that are looked at costs more, the choice with 17
/// credits or more is the choice with any other number from 17 on.
pub fn choice_credits_law()
    ensures costs { (c : Client) (g : ℕ) → keeps_limits (c.op g) ≡ true → cost c g ≤ 17 }
    ensures same { (c : Client) (k m n from count : ℕ) (slotless : List ℕ)
        → ((g : ℕ) → from ≤ g → g < from + count → cost c g ≤ 17) → 17 ≤ m → 17 ≤ n
        → choose c k m slotless from count ≡ choose c k n slotless from count }
{}
