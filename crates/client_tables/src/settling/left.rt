// Whether an operation is left that isn't settled.
ghost use Rattle.std.specs.Prelude.{◌≡◌, ℕ, ◌<◌, ◌≤◌, nat_lt, true, List, length};
ghost use Rattle.spec_exchange.specs.Client.{Client};
ghost use Rattle.spec_exchange.specs.ClientStep.{some_unsettled};
ghost use Rattle.spec_exchange.specs.Schedules.{cost};
ghost use Rattle.client_rows.specs.operation_rows.Rows.{stands};
ghost use Rattle.client_rows.specs.Shown.{RowShowsPlaces};
ghost use Rattle.client_tables.specs.settling.Shown.{AreSettledBelow};

use client_rows::Row;

/// The lowest unsettled operation from one on, below which all are settled; where there is none, a number without a row, which is
/// the next one to be taken where it looks from a row on.
pub fn first_left(rows: &[Row], from: usize) -> usize
    requires above { 0 < from }
    requires settled { AreSettledBelow rows.now from }
    ensures above { from ≤ result }
    ensures settled { AreSettledBelow rows.now result }
    ensures inside { from ≤ length rows.now → result ≤ length rows.now }
    ensures stands { result < length rows.now → stands rows.now result ≡ true }
    ensures left { (c : Client) → RowShowsPlaces rows.now c.taken c.op c.outcome (λ g. cost c g)
        → some_unsettled c c.taken ≡ nat_lt result (length rows.now) }
{
    let mut at = from;
    while at < rows.len() {
        if rows[at].unsettled {
            return at;
        }
        at += 1;
    }
    at
}
