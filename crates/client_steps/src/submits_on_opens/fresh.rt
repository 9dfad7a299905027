// A row that never went out.
ghost use Rattle.std.specs.Prelude.{◌≡◌};
ghost use Rattle.client_steps.specs.submits_on_opens.Rows.{fresh_row};

use client_rows::Row;
use client_values::Shape;

/// The row of an operation that never went out. Its links and its part of the list are those that it gets as it is taken. `cost` is
/// in credits (MS-SMB2 3.2.4.1.5).
pub fn new_row(shape: &Shape, cost: u8, create: u32, open: u32, unsettled: bool) -> Row
    ensures { result ≡ fresh_row shape.now cost create «open» unsettled }
{
    Row {
        kind: shape.kind,
        unsettled,
        firm: false,
        sent: false,
        asking: false,
        unanswered: false,
        charge: shape.charge,
        cost,
        slot: 0,
        slot_number: 0,
        sequence: 0,
        outstanding_on: None,
        create,
        open,
        holders: 0,
        holders_end: 0,
        lower: 0,
        change: 0,
        filled: 0,
        dear: 0,
    }
}
