// What an open keeps stays true where operations settle, are lost, are sent or are priced anew.
ghost use Rattle.std.specs.Prelude.{◌≡◌, ℕ, false, List};
ghost use Rattle.client_rows.specs.declared.operation_rows.row.Row.{Row};
ghost use Rattle.client_rows.specs.operation_rows.Rows.{kind, owner, stands};
ghost use Rattle.client_rows.specs.declared.open_marks.marks.Marks.{Marks};
ghost use Rattle.client_tables.specs.opens.Opened.{ShowsOpen};

/// What a client keeps of an open it keeps still where each row has the create and the kind that it had, and none that was
/// settled is unsettled: so where operations settle, are sent, are lost with their channel, or cost something else.
pub fn opens_law()
    ensures { (old new : List Row) (at size : ℕ → ℕ) (create n : ℕ) (m : Marks) (written locked : ℕ → ℕ)
        → ((g : ℕ) → owner new g ≡ owner old g) → ((g : ℕ) → kind new g ≡ kind old g)
        → ((g : ℕ) → stands old g ≡ false → stands new g ≡ false)
        → ShowsOpen old at size create n m written locked → ShowsOpen new at size create n m written locked }
{}
