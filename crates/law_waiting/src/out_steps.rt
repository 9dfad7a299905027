//! What goes out on a connection whose LOCKs wait.

ghost use Rattle.std.specs.Prelude.{◌≡◌, ℕ, true, List, Option};
ghost use Rattle.law_waiting.specs.out_steps.OutRuns.{OutTurn, is_in_order, opened, written_by};
ghost use Rattle.law_waiting.specs.out_steps.OutStep.{Speaks};

/// Over every list of events, whoever hands them in and whatever befalls them: no final response goes out before its interim one, and
/// for each interim one at most one does.
pub fn order_law<C, A, R, E>()
    ensures { (z : Speaks C A R E) (c : C) (turns : List (OutTurn A R E)) (id : ℕ)
        → is_in_order id 0 (written_by z (opened c) turns) ≡ true }
{}
