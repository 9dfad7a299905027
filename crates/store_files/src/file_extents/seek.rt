ghost use Rattle.std.specs.Prelude.{◌≡◌, ◌+◌, ◌≤◌, ◌<◌, ℕ, List, length, Vec, vec_items, IsSome, IfSome, IfNone};
ghost use Rattle.store_files.specs.file_extents.Shown.{Shows};
ghost use Rattle.std.specs.Ordering.{nat_cmp};
ghost use Rattle.std.specs.BTreeMap.{get};
ghost use Rattle.std.specs.Prelude.{None, Some};

use std::alloc::Global;
use std::collections::BTreeMap;

/// The last piece that begins at a place or before it.
pub fn floor(pieces: &BTreeMap<u64, Vec<u8>>, at: u64) -> Option<(u64, &Vec<u8>)>
    ensures piece { IfSome result (λ e. get nat_cmp pieces.now e.0 ≡ Some e.1.now) }
    ensures before { IfSome result (λ e. e.0 ≤ at) }
    ensures last { IfSome result (λ e. (q : ℕ) → q ≤ at → IsSome (get nat_cmp pieces.now q) → q ≤ e.0) }
    ensures none { IfNone result ((q : ℕ) → q ≤ at → get nat_cmp pieces.now q ≡ None) }
{
    match pieces.range(..=at).next_back() {
        Some((place, piece)) => Some((*place, piece)),
        None => None,
    }
}

/// Where the first piece begins that begins at a place or behind it.
pub fn next_from(pieces: &BTreeMap<u64, Vec<u8>>, at: u64) -> Option<u64>
    ensures piece { IfSome result (λ k. IsSome (get nat_cmp pieces.now k)) }
    ensures behind { IfSome result (λ k. at ≤ k) }
    ensures first { IfSome result (λ k. (q : ℕ) → at ≤ q → IsSome (get nat_cmp pieces.now q) → k ≤ q) }
    ensures none { IfNone result ((q : ℕ) → at ≤ q → get nat_cmp pieces.now q ≡ None) }
{
    match pieces.range(at..).next() {
        Some((place, _)) => Some(*place),
        None => None,
    }
}

/// Where a gap that goes on at a place ends, as far as `end`.
pub fn gap_end(pieces: &BTreeMap<u64, Vec<u8>>, at: u64, end: u64) -> u64
    requires { at < end }
    ensures goes { (at < result) × (result ≤ end) }
    ensures free { (k : ℕ) → IsSome (get nat_cmp pieces.now k) → at < k → result ≤ k }
{
    match next_from(pieces, at + 1) {
        Some(place) => place.min(end),
        None => end,
    }
}

/// The piece that has a place.
pub fn covering(pieces: &BTreeMap<u64, Vec<u8>>, at: u64) -> Option<(u64, &Vec<u8>)>
    ensures piece { IfSome result (λ e. get nat_cmp pieces.now e.0 ≡ Some e.1.now) }
    ensures inside { IfSome result (λ e. (e.0 ≤ at) × (at < e.0 + length e.1.now.items)) }
    ensures none { IfNone result ((c : List ℕ) → Shows vec_items (λ k. get nat_cmp pieces.now k) c → (k : ℕ) (p : Vec ℕ Global)
        → get nat_cmp pieces.now k ≡ Some p → k ≤ at → k + length p.items ≤ at) }
{
    match floor(pieces, at) {
        Some((place, piece)) => {
            if at - place < piece.len() as u64 {
                return Some((place, piece));
            }
            None
        }
        None => None,
    }
}
