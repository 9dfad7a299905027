ghost use Rattle.std.specs.Prelude.{◌≡◌, ◌+◌, ◌-◌, ◌<◌, ◌≤◌, List, ℕ, length, Option, None, Some, Vec, vec_items, IsSome, IfSome, IfNone};
ghost use Rattle.std.specs.Prelude.{IfOk, take, drop, OnOk, OnErr, ◌≢◌};
ghost use Rattle.std.specs.Ordering.{nat_cmp};
ghost use Rattle.std.specs.BTreeMap.{get};
ghost use Rattle.store_files.specs.file_extents.Shown.{Shows};
ghost use Rattle.store_files.specs.file_extents.Ready.{IsPlan, IsPieceLeft, IsRight, left_end, right_begin};

use crate::file_extents::seek::{covering, floor};
use std::alloc::{AllocError, Global};
use std::collections::BTreeMap;

/// The part of a write that falls into a piece which stands: its bytes from `first` on, `count` of them, go into the
/// piece at `place`, from its byte `offset` on.
#[derive(Clone, Copy)]
pub struct Inside {
    pub place: u64,
    pub offset: usize,
    pub first: usize,
    pub count: usize,
}

/// Where a write falls: into a piece that begins before it, from `from` to `until` into a new piece, and into one that
/// goes on behind its end.
#[derive(Clone, Copy)]
pub struct Plan {
    pub left: Option<Inside>,
    pub from: u64,
    pub until: u64,
    pub right: Option<Inside>,
    pub end: u64,
}

/// A write for which there is memory.
#[derive(Drop)]
pub struct Prepared {
    pub plan: Plan,
    pub middle: Vec<u8>,
}

/// Where a write from `at` to `end` falls.
pub fn plan_of(pieces: &BTreeMap<u64, Vec<u8>>, at: u64, end: u64) -> Plan
    requires { at < end }
    ensures order { (at ≤ result.from) × (result.from ≤ result.until) × (result.until ≤ end) × (result.end ≡ end) }
    ensures planned { (c : List ℕ) → Shows vec_items (λ k. get nat_cmp pieces.now k) c
        → IsPlan (λ k. get nat_cmp pieces.now k) result at end }
{
    let left = left_part(pieces, at, end);
    let from = left_end(left, at, end);
    let right = right_part(pieces, at, from, end);
    let until = right_begin(right, from, end);
    Plan {
        left,
        from,
        until,
        right,
        end,
    }
}

// Where the part ends that falls into the piece which has the place.
fn left_end(part: Option<Inside>, at: u64, end: u64) -> u64
    requires { (at ≤ end) × IfSome part (λ p. at + p.count ≤ end) }
    ensures is { result ≡ left_end part at }
    ensures order { (at ≤ result) × (result ≤ end) }
{
    match part {
        Some(part) => at + part.count as u64,
        None => at,
    }
}

// Where the part begins that falls into a piece which goes on behind the end.
fn right_begin(part: Option<Inside>, from: u64, end: u64) -> u64
    requires { (from ≤ end) × IfSome part (λ p. (from ≤ p.place) × (p.place < end)) }
    ensures is { result ≡ right_begin part end }
    ensures order { (from ≤ result) × (result ≤ end) }
{
    match part {
        Some(part) => part.place,
        None => end,
    }
}

// What falls into the piece that has the place.
fn left_part(pieces: &BTreeMap<u64, Vec<u8>>, at: u64, end: u64) -> Option<Inside>
    requires { at < end }
    ensures inside { IfSome result (λ p. (0 < p.count) × (at + p.count ≤ end)) }
    ensures left { (c : List ℕ) → Shows vec_items (λ k. get nat_cmp pieces.now k) c
        → IsPieceLeft (λ k. get nat_cmp pieces.now k) result at end }
{
    let Some((place, piece)) = covering(pieces, at) else {
        return None;
    };
    let offset = (at - place) as usize;
    let count = (piece.len() - offset).min((end - at) as usize);
    Some(Inside {
        place,
        offset,
        first: 0,
        count,
    })
}

// What falls into a piece that goes on behind the end.
fn right_part(pieces: &BTreeMap<u64, Vec<u8>>, at: u64, from: u64, end: u64) -> Option<Inside>
    requires { (at < end) × (at ≤ from) × (from ≤ end) }
    ensures inside { IfSome result (λ p. (from ≤ p.place) × (p.place < end)) }
    ensures right { (c : List ℕ) → Shows vec_items (λ k. get nat_cmp pieces.now k) c
        → IsRight (λ k. get nat_cmp pieces.now k) result at from end }
{
    let Some((place, piece)) = floor(pieces, end - 1) else {
        return None;
    };
    if place < from || piece.len() as u64 <= end - place {
        return None;
    }
    let first = (place - at) as usize;
    let count = (end - place) as usize;
    Some(Inside {
        place,
        offset: 0,
        first,
        count,
    })
}

/// The bytes of a write that go into a new piece.
pub fn middle_of(alloc: Global, plan: Plan, at: u64, bytes: &[u8]) -> Result<Vec<u8>, AllocError>
    requires { (at ≤ plan.from) × (plan.from ≤ plan.until) × (plan.until ≤ at + length bytes.now) }
    ensures { IfOk result (λ v. v.items ≡ take (plan.until - plan.from) (drop (plan.from - at) bytes.now)) }
{
    let first = (plan.from - at) as usize;
    let count = (plan.until - plan.from) as usize;
    Vec::from_slice(alloc, &bytes[first..first + count])
}

/// An empty piece where the new one is to begin, so that it can be put there without more memory.
pub fn mark(
    pieces: &mut BTreeMap<u64, Vec<u8>>,
    plan: Plan,
    alloc: Global,
) -> Result<(), AllocError>
    ensures shown { (at end : ℕ) (c : List ℕ) → IsPlan (λ k. get nat_cmp pieces.old k) plan at end
        → Shows vec_items (λ k. get nat_cmp pieces.old k) c → Shows vec_items (λ k. get nat_cmp pieces.new k) c }
    ensures ok { OnOk result ((at end : ℕ) → IsPlan (λ k. get nat_cmp pieces.old k) plan at end
        → IsPlan (λ k. get nat_cmp pieces.new k) plan at end × (plan.from < plan.until → IsSome (get nat_cmp pieces.new plan.from))) }
{
    if plan.from >= plan.until || pieces.contains_key(&plan.from) {
        return Ok(());
    }
    put_empty(pieces, plan, Vec::new(alloc))
}

// Puts an empty piece where the new one is to begin.
fn put_empty(
    pieces: &mut BTreeMap<u64, Vec<u8>>,
    plan: Plan,
    piece: Vec<u8>,
) -> Result<(), AllocError>
    requires { (plan.from < plan.until) × (get nat_cmp pieces.old plan.from ≡ None) × (length piece.items ≡ 0) }
    ensures shown { (at end : ℕ) (c : List ℕ) → IsPlan (λ k. get nat_cmp pieces.old k) plan at end
        → Shows vec_items (λ k. get nat_cmp pieces.old k) c → Shows vec_items (λ k. get nat_cmp pieces.new k) c }
    ensures ok { OnOk result ((at end : ℕ) → IsPlan (λ k. get nat_cmp pieces.old k) plan at end
        → IsPlan (λ k. get nat_cmp pieces.new k) plan at end × (plan.from < plan.until → IsSome (get nat_cmp pieces.new plan.from))) }
{
    match pieces.insert(plan.from, piece) {
        Ok(_) => return Ok(()),
        Err(_) => return Err(AllocError),
    }
}
