// All numbers in some order, and the place of each.
ghost use Rattle.std.specs.Prelude.{◌≡◌, ℕ, ◌+◌, ◌<◌, ◌≤◌, ◌^◌, length, take, slice_index, slice_set, ◌∷◌, [], ◌++◌, OnOk};
ghost use Rattle.std.specs.Prelude.{vec_len, vec_capacity};

use std::alloc::AllocError;

/// Makes room for one number more. The numbers stay, and where memory runs out too.
pub fn make_room(order: &mut Vec<u32>, places: &mut Vec<u32>) -> Result<(), AllocError>
    ensures ordered { order.new.items ≡ order.old.items }
    ensures placed { places.new.items ≡ places.old.items }
    ensures room { OnOk result ((vec_len order.new < vec_capacity order.new) × (vec_len places.new < vec_capacity places.new)) }
{
    order.reserve(1)?;
    places.reserve(1)?;
    Ok(())
}

/// One number more, the last of all, for which there is room.
pub fn add_last(order: &mut Vec<u32>, places: &mut Vec<u32>)
    requires few { length places.old.items < 2 ^ 32 }
    requires ordered { vec_len order.old < vec_capacity order.old }
    requires placed { vec_len places.old < vec_capacity places.old }
    ensures order { order.new.items ≡ order.old.items ++ length places.old.items ∷ [] }
    ensures places { places.new.items ≡ places.old.items ++ length places.old.items ∷ [] }
{
    let number = places.len() as u32;
    order.push_reserved(number);
    places.push_reserved(number);
}

/// The numbers at two places change places.
pub fn swap_in(order: &mut Vec<u32>, places: &mut Vec<u32>, i: usize, j: usize)
    requires i { i < length order.old.items }
    requires j { j < length order.old.items }
    requires few { length order.old.items < 2 ^ 32 }
    requires a { slice_index order.old.items i < length places.old.items }
    requires b { slice_index order.old.items j < length places.old.items }
    ensures order { order.new.items
        ≡ slice_set (slice_set order.old.items i (slice_index order.old.items j)) j (slice_index order.old.items i) }
    ensures places { places.new.items
        ≡ slice_set (slice_set places.old.items (slice_index order.old.items i) j) (slice_index order.old.items j) i }
{
    swap(order, places, i, j);
}

/// The numbers at two places of slices change places.
fn swap(order: &mut [u32], places: &mut [u32], i: usize, j: usize)
    requires i { i < length order.old }
    requires j { j < length order.old }
    requires few { length order.old < 2 ^ 32 }
    requires a { slice_index order.old i < length places.old }
    requires b { slice_index order.old j < length places.old }
    ensures order { order.new ≡ slice_set (slice_set order.old i (slice_index order.old j)) j (slice_index order.old i) }
    ensures places { places.new ≡ slice_set (slice_set places.old (slice_index order.old i) j) (slice_index order.old j) i }
    ensures ordered { length order.new ≡ length order.old }
    ensures placed { length places.new ≡ length places.old }
{
    let a = order[i];
    let b = order[j];
    order[i] = b;
    order[j] = a;
    places[a as usize] = j as u32;
    places[b as usize] = i as u32;
}

/// The first numbers.
pub fn front(order: &Vec<u32>, count: usize) -> &[u32]
    requires { count ≤ length order.now.items }
    ensures { result.now ≡ take count order.now.items }
{
    &order[..count]
}
