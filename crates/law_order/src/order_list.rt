//! The order of an open, from a list of the places that stand in it.
//!
//! The law is a public function with an empty body; its contract is the statement.

ghost use Rattle.std.specs.Prelude.{◌≡◌, ℕ, ◌+◌, ◌<◌, ◌≤◌, List, map};
ghost use Rattle.spec_exchange.specs.Order.{Account, is_entry, order_from};
ghost use Rattle.spec_exchange.specs.Table.{has};
ghost use Rattle.law_order.specs.order_list.Rising.{ArePlacesBelow, RisesFrom};

/// A rising list of places from one on, of `k` places those that are entries of the open, tells its order among these.
pub fn members_order_law()
    ensures { (a : Account) (o from k : ℕ) (ns : List ℕ) → RisesFrom from ns → ArePlacesBelow (from + k) ns
        → ((n : ℕ) → from ≤ n → n < from + k → has n ns ≡ is_entry a o n) → map (λ n. a.log.who n) ns ≡ order_from a o from k }
{}
