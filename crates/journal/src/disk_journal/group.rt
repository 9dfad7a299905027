// Entries that are gathered in memory, to be put behind one closed gate.
ghost use Rattle.std.specs.Prelude.{◌≡◌, ℕ, ◌+◌, ◌≤◌, ◌<◌, ◌^◌, List, [], ◌∷◌, ◌++◌, length, OnErr, OnOk, vec_capacity};
ghost use Rattle.journal.specs.disk_journal.Group.{IsGroup};

use crate::disk_journal::journal::put_behind;
use spec_journal::Form;
use std::alloc::AllocError;

// The most bytes around a body: its length, a checksum and a gate.
const AROUND_ONE: usize = 9;

// Opens the gate at the end, if there is one.
fn open_last(group: &mut Vec<u8>)
    ensures opened { (front : List ℕ) (last : ℕ) → group.old.items ≡ front ++ last ∷ [] → group.new.items ≡ front ++ 1 ∷ [] }
    ensures none { group.old.items ≡ [] → group.new.items ≡ [] }
    ensures long { length group.new.items ≡ length group.old.items }
    ensures room { vec_capacity group.new ≡ vec_capacity group.old }
{
    let count = group.len();
    if count > 0 {
        group[count - 1] = 1;
    }
}

/// Puts an entry behind those that are gathered; the gate between opens. Where memory runs out they stay as they are.
pub(crate) fn gather_entry(group: &mut Vec<u8>, form: Form, body: &[u8]) -> Result<(), AllocError>
    requires { length body.now < 2 ^ 32 }
    ensures gathered { (more : List (List ℕ)) → IsGroup form more group.old.items
        → OnOk result (IsGroup form (more ++ body.now ∷ []) group.new.items) }
    ensures kept { OnErr result (group.new.items ≡ group.old.items) }
    ensures room { vec_capacity group.old ≤ vec_capacity group.new }
    ensures full { OnErr result (vec_capacity group.old < length group.old.items + length body.now + 9) }
{
    group.reserve(body.len() + AROUND_ONE)?;
    open_last(group);
    match put_behind(group, form, body) {
        Ok(()) => Ok(()),
        Err(_) => unreachable!(),
    }
}
