//! A file's bytes part by part, so that what has none isn't told.
ghost use Rattle.std.specs.Prelude.{◌≡◌, ◌+◌, ◌-◌, ◌<◌, ◌≤◌, List, ℕ, length, take, drop, Some, None, Vec, IsSome, IfSome, IfNone, true, false, min};
ghost use Rattle.std.specs.Prelude.{◌==◌, not};
ghost use Rattle.std.specs.Ordering.{nat_cmp};
ghost use Rattle.std.specs.BTreeMap.{get};
ghost use Rattle.store_files.specs.file_extents.Kept.{IsContent};
ghost use Rattle.store_files.specs.file_extents.Parts.{up_to, IsFilePart, AreEmpty, IsFilled};

use crate::file_extents::extents::Extents;
use crate::file_extents::seek::{covering, next_from};
use std::alloc::Global;
use std::collections::BTreeMap;

impl Extents {
    /// The next bytes that a piece has from a place on, at most `most` of them, and where they stand. What lies between is
    /// 0. None where all bytes from there on are 0 and no piece has them.
    pub fn part_from(&self, at: u64, most: usize) -> Option<(u64, &[u8])>
        requires { 0 < most }
        ensures sized { IfSome result (λ e. (at ≤ e.0) × (0 < length e.1.now) × (length e.1.now ≤ most)) }
        ensures some { IfSome result (λ e. (c : List ℕ) → IsContent self.now c → IsFilePart c at most e.0 e.1.now) }
        ensures none { IfNone result ((c : List ℕ) → IsContent self.now c → up_to at c ≡ c) }
    {
        match covering(&self.pieces, at) {
            Some((place, piece)) => {
                let offset = (at - place) as usize;
                return Some((at, cut(piece, offset, most)));
            }
            None => return self.first_from(at, most),
        }
    }

    // The first bytes of the first piece that has some and begins at a place or behind it.
    fn first_from(&self, at: u64, most: usize) -> Option<(u64, &[u8])>
        requires { 0 < most }
        ensures sized { IfSome result (λ e. (at ≤ e.0) × (0 < length e.1.now) × (length e.1.now ≤ most)) }
        ensures some { IfSome result (λ e. (c : List ℕ) → IsContent self.now c
            → ((k : ℕ) (p : Vec ℕ Global) → get nat_cmp self.now.pieces k ≡ Some p → k ≤ at → k + length p.items ≤ at)
            → IsFilePart c at most e.0 e.1.now) }
        ensures none { IfNone result ((c : List ℕ) → IsContent self.now c
            → ((k : ℕ) (p : Vec ℕ Global) → get nat_cmp self.now.pieces k ≡ Some p → k ≤ at → k + length p.items ≤ at)
            → up_to at c ≡ c) }
    {
        match self.filled_from(at) {
            Some(place) => match self.pieces.get(&place) {
                Some(piece) => return Some((place, cut(piece, 0, most))),
                None => return None,
            },
            None => return None,
        }
    }

    // Where the first piece begins that has bytes, from a place on.
    fn filled_from(&self, at: u64) -> Option<u64>
        ensures some { IfSome result (λ k. (at ≤ k) × IsFilled (get nat_cmp self.now.pieces k)
            × AreEmpty (λ q. get nat_cmp self.now.pieces q) at k) }
        ensures none { IfNone result ((c : List ℕ) (k : ℕ) → IsContent self.now c
            → AreEmpty (λ q. get nat_cmp self.now.pieces q) at k) }
    {
        let end = self.len();
        let mut from = at;
        while from < end {
            let Some(place) = next_from(&self.pieces, from) else {
                return None;
            };
            if is_filled(&self.pieces, place) {
                return Some(place);
            }
            from = place.saturating_add(1);
        }
        None
    }
}

// A piece has bytes.
fn is_filled(pieces: &BTreeMap<u64, Vec<u8>>, place: u64) -> bool
    ensures filled { result ≡ true → IsFilled (get nat_cmp pieces.now place) }
    ensures empty { result ≡ false → (p : Vec ℕ Global) → get nat_cmp pieces.now place ≡ Some p → length p.items ≡ 0 }
{
    match pieces.get(&place) {
        Some(piece) => !piece.is_empty(),
        None => false,
    }
}

// Some bytes of a piece from an offset on.
fn cut(piece: &Vec<u8>, offset: usize, most: usize) -> &[u8]
    requires { offset ≤ length piece.now.items }
    ensures is { result.now ≡ take most (drop offset piece.now.items) }
    ensures sized { length result.now ≡ min most (length piece.now.items - offset) }
{
    let count = (piece.len() - offset).min(most);
    &piece[offset..offset + count]
}
