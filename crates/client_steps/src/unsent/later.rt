// The operations of each open, upwards.
ghost use Rattle.std.specs.Prelude.{◌≡◌, ◌+◌, ◌<◌, ◌≤◌, ◌^◌, true, List, length, slice_set, ◌∷◌, [], ◌++◌};
ghost use Rattle.std.specs.Prelude.{vec_len, vec_capacity};
ghost use Rattle.client_rows.specs.declared.operation_rows.row.Row.{Row};
ghost use Rattle.client_rows.specs.operation_rows.Rows.{owner};
ghost use Rattle.client_rows.specs.open_marks.Marks.{IsHighest};
ghost use Rattle.client_steps.specs.unsent.Ascending.{Ascends};

fn link(later: &mut Vec<u32>, last: u32, number: u32)
    requires { last < length later.old.items }
    ensures { later.new.items ≡ slice_set later.old.items last number }
{
    later[last as usize] = number;
}

/// One operation more, for which there is room. `last`: the highest one of its open so far; 0 where it is the first.
pub fn add_later(later: &mut Vec<u32>, last: u32)
    requires room { vec_len later.old < vec_capacity later.old }
    requires few { length later.old.items < 2 ^ 32 }
    requires within { last ≤ length later.old.items }
    ensures ascends { (rows : List Row) (row : Row) → Ascends rows later.old.items
        → IsHighest (owner rows) (λ h. true) row.create (length rows) last → Ascends (rows ++ row ∷ []) later.new.items }
    ensures count { length later.new.items ≡ length later.old.items + 1 }
{
    let number = later.len() as u32;
    later.push_reserved(0);
    if last != 0 {
        link(later, last, number);
    }
}
