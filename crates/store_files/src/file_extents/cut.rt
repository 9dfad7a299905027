ghost use Rattle.std.specs.Prelude.{◌≡◌, ◌+◌, ◌-◌, ◌<◌, ◌≤◌, List, ℕ, length, take, Option, None, Some, Vec, vec_items, IsSome, IfSome};
ghost use Rattle.std.specs.Prelude.{IfNone, ◌≢◌};
ghost use Rattle.std.specs.Ordering.{nat_cmp};
ghost use Rattle.std.specs.BTreeMap.{get, btree_map_len};
ghost use Rattle.store_files.specs.file_extents.Shown.{Shows, Reaches, Agrees};

use crate::file_extents::seek::{floor, next_from};
use std::alloc::Global;
use std::collections::BTreeMap;

// The number of bytes of a piece that was taken away.
fn size_of(piece: Option<Vec<u8>>) -> u64 {
    match piece {
        Some(piece) => piece.len() as u64,
        None => 0,
    }
}

/// Takes away each piece that begins at `n` or behind it. Answers how many bytes they had.
pub fn remove_from(pieces: &mut BTreeMap<u64, Vec<u8>>, n: u64) -> u64
    ensures gone { (k : ℕ) → n ≤ k → get nat_cmp pieces.new k ≡ None }
    ensures kept { (c : List ℕ) → length c ≡ n → Reaches vec_items (λ k. get nat_cmp pieces.old k) c
        → Reaches vec_items (λ k. get nat_cmp pieces.new k) c }
{
    let mut removed: u64 = 0;
    while let Some(place) = next_from(pieces, n) {
        removed = removed.saturating_add(remove_past(pieces, place, n));
    }
    removed
}

// Takes away a piece that begins behind `n`.
fn remove_past(pieces: &mut BTreeMap<u64, Vec<u8>>, place: u64, n: u64) -> u64
    requires { (n ≤ place) × IsSome (get nat_cmp pieces.old place) }
    ensures fewer { btree_map_len pieces.new < btree_map_len pieces.old }
    ensures kept { (c : List ℕ) → length c ≡ n → Reaches vec_items (λ k. get nat_cmp pieces.old k) c
        → Reaches vec_items (λ k. get nat_cmp pieces.new k) c }
{
    let piece = pieces.remove(&place);
    size_of(piece)
}

/// Cuts the last piece where it goes on behind `n`. Answers by how many bytes.
pub fn trim_last(pieces: &mut BTreeMap<u64, Vec<u8>>, n: u64) -> u64
    requires { (k : ℕ) → n ≤ k → get nat_cmp pieces.old k ≡ None }
    ensures { (c : List ℕ) → length c ≡ n → Reaches vec_items (λ k. get nat_cmp pieces.old k) c
        → Shows vec_items (λ k. get nat_cmp pieces.new k) c }
{
    let Some((place, _)) = floor(pieces, n) else {
        return 0;
    };
    trim_at(pieces, place, n)
}

// Cuts the last piece where it goes on behind `n`.
fn trim_at(pieces: &mut BTreeMap<u64, Vec<u8>>, place: u64, n: u64) -> u64
    requires { (place ≤ n) × IsSome (get nat_cmp pieces.old place) × ((q : ℕ) → IsSome (get nat_cmp pieces.old q) → q ≤ place) }
    ensures { (c : List ℕ) → length c ≡ n → Reaches vec_items (λ k. get nat_cmp pieces.old k) c
        → Shows vec_items (λ k. get nat_cmp pieces.new k) c }
{
    match pieces.get_mut(&place) {
        Some(piece) => cut_piece(piece, (n - place) as usize),
        None => 0,
    }
}

// Keeps the first bytes, and gives memory back where less than half of it is used.
pub fn cut_piece(piece: &mut Vec<u8>, count: usize) -> u64
    ensures { piece.new.items ≡ take count piece.old.items }
{
    let before = piece.len();
    piece.truncate(count);
    let after = piece.len();
    // Not against the length before: a file that is halved again and again would keep all of its memory.
    if after < piece.capacity() / 2 {
        piece.shrink_to_fit();
    }
    (before - after) as u64
}

// Where the first piece begins that begins behind `from` and before `end`.
fn next_inside(pieces: &BTreeMap<u64, Vec<u8>>, from: u64, end: u64) -> Option<u64>
    requires { from < end }
    ensures some { IfSome result (λ k. (from < k) × (k < end)) }
    ensures is { IfSome result (λ k. IsSome (get nat_cmp pieces.now k)) }
    ensures none { IfNone result ((k : ℕ) → from < k → k < end → get nat_cmp pieces.now k ≡ None) }
{
    match next_from(pieces, from + 1) {
        Some(place) => {
            if place < end {
                return Some(place);
            }
            None
        }
        None => None,
    }
}

// Takes away a piece between two places: zeros in its place.
fn remove_one(pieces: &mut BTreeMap<u64, Vec<u8>>, place: u64, from: u64, end: u64) -> u64
    requires { (from < place) × (place < end) × IsSome (get nat_cmp pieces.old place) }
    ensures fewer { btree_map_len pieces.new < btree_map_len pieces.old }
    ensures others { (k : ℕ) → k ≢ place → get nat_cmp pieces.new k ≡ get nat_cmp pieces.old k }
    ensures gone { get nat_cmp pieces.new place ≡ None }
    ensures kept { (b c : List ℕ) → ((p : Vec ℕ Global) → get nat_cmp pieces.old place ≡ Some p → place + length p.items ≤ end)
        → Agrees from (end - from) b c → Shows vec_items (λ k. get nat_cmp pieces.old k) b → (a : List ℕ) × Agrees from (end - from) a c
        × Shows vec_items (λ k. get nat_cmp pieces.new k) a }
{
    let piece = pieces.remove(&place);
    size_of(piece)
}

/// Takes away each piece that begins behind `from` and before `end`. Answers how many bytes they had.
pub fn remove_inside(pieces: &mut BTreeMap<u64, Vec<u8>>, from: u64, end: u64) -> u64
    requires { from < end }
    ensures gone { (k : ℕ) → from < k → k < end → get nat_cmp pieces.new k ≡ None }
    ensures others { (k : ℕ) → k ≤ from → get nat_cmp pieces.new k ≡ get nat_cmp pieces.old k }
    ensures behind { (k : ℕ) → end ≤ k → get nat_cmp pieces.new k ≡ get nat_cmp pieces.old k }
    ensures kept { (c : List ℕ) → ((k : ℕ) (p : Vec ℕ Global) → get nat_cmp pieces.old k ≡ Some p → from < k → k < end
        → k + length p.items ≤ end) → Shows vec_items (λ k. get nat_cmp pieces.old k) c → (a : List ℕ) × Agrees from (end - from) a c
        × Shows vec_items (λ k. get nat_cmp pieces.new k) a }
{
    let mut removed: u64 = 0;
    while let Some(place) = next_inside(pieces, from, end) {
        removed = removed.saturating_add(remove_one(pieces, place, from, end));
    }
    removed
}
