// What an open keeps of its operations is what a new row has to show.
ghost use Rattle.std.specs.Prelude.{ℕ, List};
ghost use Rattle.client_rows.specs.declared.operation_rows.row.Row.{Row};
ghost use Rattle.client_rows.specs.operation_rows.Rows.{kind};
ghost use Rattle.client_rows.specs.operation_rows.Taking.{IsRowNew};
ghost use Rattle.client_rows.specs.declared.open_marks.marks.Marks.{Marks};
ghost use Rattle.client_rows.specs.open_marks.Marked.{IsMarked};
ghost use Rattle.client_rows.specs.open_marks.Marks.{fills_by_shape, holds_by_shape};

/// A row whose links are its open's marks, and whose list is what `list_holders` lists, is new as rows ask: whatever it waits
/// for is settled, or leads to a listed one, or stands in the chain of its kind.
pub fn new_law()
    ensures { (rows : List Row) (at size : ℕ → ℕ) (create n : ℕ) (m : Marks) (written locked : ℕ → ℕ) (old holders : List ℕ)
        → IsMarked rows at size create n m written locked old holders
        → IsRowNew (holds_by_shape (kind rows) at size) (λ x. fills_by_shape (kind rows) size x) rows holders n }
{}
