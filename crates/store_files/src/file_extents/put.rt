ghost use Rattle.std.specs.Prelude.{◌≡◌, ◌+◌, ◌-◌, ◌<◌, ◌≤◌, ◌++◌, List, ℕ, length, take, drop, Option, None, Some, Vec, vec_items};
ghost use Rattle.std.specs.Prelude.{IsSome, IfSome, false, ◌≢◌};
ghost use Rattle.std.specs.Ordering.{nat_cmp};
ghost use Rattle.std.specs.BTreeMap.{get};
ghost use Rattle.spec_exchange.specs.Content.{written, is_empty};
ghost use Rattle.store_files.specs.file_extents.Shown.{Shows};
ghost use Rattle.store_files.specs.file_extents.Ready.{IsPiecePart, IsAway};

use crate::file_extents::cut::remove_inside;
use crate::file_extents::write::Inside;
use std::alloc::Global;
use std::collections::BTreeMap;

// The first bytes of a slice, all where there are no more.
fn front(bytes: &[u8], count: usize) -> &[u8]
    ensures { result.now ≡ take count bytes.now }
{
    &bytes[..count.min(bytes.len())]
}

// What stands behind the first bytes of a slice.
fn behind(bytes: &[u8], count: usize) -> &[u8]
    ensures { result.now ≡ drop count bytes.now }
{
    &bytes[count.min(bytes.len())..]
}

/// Puts a part of the bytes into the piece in which it falls.
pub fn put_part(pieces: &mut BTreeMap<u64, Vec<u8>>, part: Option<Inside>, bytes: &[u8])
    ensures others { (k : ℕ) → IsAway part k → get nat_cmp pieces.new k ≡ get nat_cmp pieces.old k }
    ensures shown { (at x y : ℕ) (c : List ℕ) → IsPiecePart (λ k. get nat_cmp pieces.old k) part at x y → at ≤ x → y ≤ at + length bytes.now
        → Shows vec_items (λ k. get nat_cmp pieces.old k) c → Shows vec_items (λ k. get nat_cmp pieces.new k)
        (written x (take (y - x) (drop (x - at) bytes.now)) c) }
{
    match part {
        Some(part) => put_inside(
            pieces,
            part.place,
            part.offset,
            front(behind(bytes, part.first), part.count),
        ),
        None => {}
    }
}

// Puts bytes in the place of as many that a piece has.
fn put_inside(pieces: &mut BTreeMap<u64, Vec<u8>>, place: u64, offset: usize, bytes: &[u8])
    ensures others { (k : ℕ) → k ≢ place → get nat_cmp pieces.new k ≡ get nat_cmp pieces.old k }
    ensures shown { (c : List ℕ) → 0 < length bytes.now → IsSome (get nat_cmp pieces.old place)
        → IfSome (get nat_cmp pieces.old place) (λ p. offset + length bytes.now ≤ length p.items)
        → Shows vec_items (λ k. get nat_cmp pieces.old k) c → Shows vec_items (λ k. get nat_cmp pieces.new k)
        (written (place + offset) bytes.now c) }
{
    if let Some(piece) = pieces.get_mut(&place) {
        overwrite(piece, offset, bytes);
    }
}

// Puts bytes in the place of as many, where there are so many.
fn overwrite(bytes: &mut Vec<u8>, at: usize, from: &[u8])
    ensures { at + length from.now ≤ length bytes.old.items → bytes.new.items ≡ take at bytes.old.items ++
        (from.now ++ drop (at + length from.now) bytes.old.items) }
{
    if at <= bytes.len() && from.len() <= bytes.len() - at {
        bytes[at..at + from.len()].copy_from_slice(from);
    }
}

/// Puts a new piece between two places, and takes away those that begin there. Answers how many bytes these had.
/// It takes memory only where none begins at the first place.
pub fn put_middle(pieces: &mut BTreeMap<u64, Vec<u8>>, from: u64, until: u64, bytes: Vec<u8>) -> u64
    ensures before { (k : ℕ) → k < from → get nat_cmp pieces.new k ≡ get nat_cmp pieces.old k }
    ensures behind { (k : ℕ) → until ≤ k → get nat_cmp pieces.new k ≡ get nat_cmp pieces.old k }
    ensures shown { (c : List ℕ) → length bytes.items ≡ until - from
        → (from < until → IsSome (get nat_cmp pieces.old from))
        → (from < until → (k : ℕ) (p : Vec ℕ Global) → get nat_cmp pieces.old k ≡ Some p → k < from → k + length p.items ≤ from)
        → ((k : ℕ) (p : Vec ℕ Global) → get nat_cmp pieces.old k ≡ Some p → from ≤ k → k < until → k + length p.items ≤ until)
        → Shows vec_items (λ k. get nat_cmp pieces.old k) c → Shows vec_items (λ k. get nat_cmp pieces.new k) (written from bytes.items c) }
{
    if from >= until {
        return 0;
    }
    // First, so that pieces never overlap. The one at `from` stays, since its key is what `fill` needs.
    let removed = remove_inside(pieces, from, until);
    let replaced = fill(pieces, from, bytes);
    removed.saturating_add(replaced)
}

// Puts a piece where nothing else lies but what it covers at its own place. Answers how many bytes this had.
fn fill(pieces: &mut BTreeMap<u64, Vec<u8>>, place: u64, bytes: Vec<u8>) -> u64
    ensures others { (k : ℕ) → k ≢ place → get nat_cmp pieces.new k ≡ get nat_cmp pieces.old k }
    ensures shown { (c : List ℕ) → is_empty bytes.items ≡ false → IsSome (get nat_cmp pieces.old place)
        → ((k : ℕ) (p : Vec ℕ Global) → get nat_cmp pieces.old k ≡ Some p → k < place → k + length p.items ≤ place)
        → ((k : ℕ) (p : Vec ℕ Global) → get nat_cmp pieces.old k ≡ Some p → k ≤ place → k + length p.items ≤ place + length bytes.items)
        → ((k : ℕ) → IsSome (get nat_cmp pieces.old k) → place < k → place + length bytes.items ≤ k)
        → Shows vec_items (λ k. get nat_cmp pieces.old k) c → Shows vec_items (λ k. get nat_cmp pieces.new k)
        (written place bytes.items c) }
{
    match pieces.insert(place, bytes) {
        Ok(Some(piece)) => return piece.len() as u64,
        Ok(None) => return 0,
        Err(_) => return 0,
    }
}
