//! Keys by byte, each with what it tells of the bytes from it on.
ghost use Rattle.std.specs.Prelude.{◌≡◌, ℕ, ◌+◌, ◌-◌, ◌<◌, ◌≤◌, ◌^◌, true, None, Some, OnOk, IfSome, IfNone, IsSome, ◌⊎◌};
ghost use Rattle.std.specs.Ordering.{nat_cmp};
ghost use Rattle.std.specs.BTreeMap.{get};
ghost use Rattle.base_lists.specs.range_index.Tops.{look, range_told, top_in};

use std::alloc::AllocError;
use std::collections::BTreeMap;

/// All bytes up to the next key.
const ALL: u32 = u32::MAX;

/// What a key tells.
#[derive(Clone, Copy)]
pub struct Reach {
    /// The number that covers its byte and those behind it, as far as they go and up to the next key.
    pub number: u32,
    /// How many bytes behind its own the number covers. The greatest u32 stands for all.
    pub more: u32,
}

/// A key, and what it tells.
#[derive(Clone, Copy)]
pub struct Key {
    /// Its byte.
    pub at: u64,
    /// What it tells.
    pub reach: Reach,
}

/// The last key at a byte or before it.
fn floor(tops: &BTreeMap<u64, Reach>, at: u64) -> Option<Key>
    ensures key { IfSome result (λ k. get nat_cmp tops.now k.at ≡ Some k.reach) }
    ensures before { IfSome result (λ k. k.at ≤ at) }
    ensures last { IfSome result (λ k. (q : ℕ) → q ≤ at → IsSome (get nat_cmp tops.now q) → q ≤ k.at) }
    ensures none { IfNone result ((q : ℕ) → q ≤ at → get nat_cmp tops.now q ≡ None) }
{
    match tops.range(..=at).next_back() {
        Some((key, reach)) => Some(Key {
            at: *key,
            reach: *reach,
        }),
        None => None,
    }
}

/// The number that a key tells of the byte so many behind it, or 0.
fn tell(reach: Reach, far: u64) -> u32
    ensures { result ≡ range_told reach far }
{
    if reach.more == ALL || far <= u64::from(reach.more) {
        reach.number
    } else {
        0
    }
}

/// The number of the last range that covers a byte, or 0.
pub fn top_of(tops: &BTreeMap<u64, Reach>, at: u64) -> u32
    ensures { result ≡ top_in (λ q. get nat_cmp tops.now q) at }
{
    match floor(tops, at) {
        Some(key) => tell(key.reach, at - key.at),
        None => 0,
    }
}

/// What is left of what a key tells so many bytes behind it.
fn rest(reach: Reach, far: u64) -> Reach
    ensures { (f : ℕ) → range_told result f ≡ range_told reach (f + far) }
{
    if reach.more == ALL {
        reach
    } else if far <= u64::from(reach.more) {
        Reach {
            number: reach.number,
            more: reach.more - far as u32,
        }
    } else {
        Reach {
            number: 0,
            more: ALL,
        }
    }
}

/// What a key at a byte tells where nothing changes by it.
fn rest_at(tops: &BTreeMap<u64, Reach>, at: u64) -> Reach
    ensures { (f : ℕ) → range_told result f ≡ look (λ q. get nat_cmp tops.now q) at f }
{
    match floor(tops, at) {
        Some(key) => rest(key.reach, at - key.at),
        None => Reach {
            number: 0,
            more: ALL,
        },
    }
}

/// The first key behind a byte, up to the last one.
pub fn key_behind(tops: &BTreeMap<u64, Reach>, at: u64, last: u64) -> Option<Key>
    ensures key { IfSome result (λ k. get nat_cmp tops.now k.at ≡ Some k.reach) }
    ensures behind { IfSome result (λ k. (at < k.at) × (k.at ≤ last)) }
    ensures first { IfSome result (λ k. (q : ℕ) → at < q → IsSome (get nat_cmp tops.now q) → k.at ≤ q) }
    ensures none { IfNone result ((q : ℕ) → at < q → q ≤ last → get nat_cmp tops.now q ≡ None) }
{
    if at >= last {
        return None;
    }
    match tops.range(at + 1..).next() {
        Some((key, reach)) => {
            if *key > last {
                return None;
            }
            Some(Key {
                at: *key,
                reach: *reach,
            })
        }
        None => None,
    }
}

/// A key at a byte, by which nothing changes.
pub fn divide(tops: &mut BTreeMap<u64, Reach>, at: u64) -> Result<(), AllocError>
    ensures same { (x : ℕ) → top_in (λ q. get nat_cmp tops.new q) x ≡ top_in (λ q. get nat_cmp tops.old q) x }
    ensures key { OnOk result (IsSome (get nat_cmp tops.new at)) }
    ensures others { (q : ℕ) → (q ≡ at → ⊥) → get nat_cmp tops.new q ≡ get nat_cmp tops.old q }
{
    let reach = rest_at(tops, at);
    match tops.insert(at, reach) {
        Ok(_) => Ok(()),
        Err(_) => Err(AllocError),
    }
}

/// A key behind a range, by which nothing changes, where the range's own key can't tell that it ends: some range covers the byte
/// behind it, or it is too long.
pub fn divide_behind(tops: &mut BTreeMap<u64, Reach>, at: u64, size: u64) -> Result<(), AllocError>
    ensures same { (x : ℕ) → top_in (λ q. get nat_cmp tops.new q) x ≡ top_in (λ q. get nat_cmp tops.old q) x }
    ensures key { OnOk result (at + size < 2 ^ 64 → get nat_cmp tops.new (at + size) ≡ None
        → (top_in (λ q. get nat_cmp tops.old q) (at + size) ≡ 0) × (size ≤ 4294967295)) }
    ensures others { (q : ℕ) → (q ≡ at + size → ⊥) → get nat_cmp tops.new q ≡ get nat_cmp tops.old q }
{
    let Some(end) = at.checked_add(size) else {
        return Ok(());
    };
    if size <= u64::from(ALL) && top_of(tops, end) == 0 {
        return Ok(());
    }
    divide(tops, end)
}

/// What the key of a range of a byte or more tells.
pub fn reach_over(size: u64, number: u32) -> Reach
    requires some { 0 < size }
    ensures own { (f : ℕ) → f < size → range_told result f ≡ number }
    ensures behind { size ≤ 4294967295 → (f : ℕ) → size ≤ f → range_told result f ≡ 0 }
{
    if size > u64::from(ALL) {
        return Reach { number, more: ALL };
    }
    Reach {
        number,
        more: (size - 1) as u32,
    }
}

/// A key that is there tells something else.
pub fn put(tops: &mut BTreeMap<u64, Reach>, at: u64, reach: Reach)
    requires there { IsSome (get nat_cmp tops.old at) }
    ensures key { get nat_cmp tops.new at ≡ Some reach }
    ensures others { (q : ℕ) → (q ≡ at → ⊥) → get nat_cmp tops.new q ≡ get nat_cmp tops.old q }
{
    // The key is there, so that this takes no memory.
    let _ = tops.insert(at, reach);
}

/// No keys behind a byte, up to the last one.
pub fn drop_behind(tops: &mut BTreeMap<u64, Reach>, at: u64, last: u64)
    ensures none { (q : ℕ) → at < q → q ≤ last → get nat_cmp tops.new q ≡ None }
    ensures others { (q : ℕ) → (q ≤ at) ⊎ (last < q) → get nat_cmp tops.new q ≡ get nat_cmp tops.old q }
{
    while let Some(key) = key_behind(tops, at, last) {
        tops.remove(&key.at);
    }
}

/// Whether there is a key at a byte that tells a number.
pub fn has_key(tops: &BTreeMap<u64, Reach>, at: u64, number: u32) -> bool
    ensures { result ≡ true → (r : Reach) × (get nat_cmp tops.now at ≡ Some r) × (r.number ≡ number) }
{
    match tops.get(&at) {
        Some(reach) => reach.number == number,
        None => false,
    }
}

/// The number of the byte before one, or 0.
fn number_below(tops: &BTreeMap<u64, Reach>, at: u64) -> u32
    ensures first { at ≡ 0 → result ≡ 0 }
    ensures other { 0 < at → result ≡ top_in (λ q. get nat_cmp tops.now q) (at - 1) }
{
    if at == 0 {
        return 0;
    }
    top_of(tops, at - 1)
}

/// A key that is there tells no range any more, and goes where the byte before it has none either.
pub fn forget_key(tops: &mut BTreeMap<u64, Reach>, at: u64)
    requires there { IsSome (get nat_cmp tops.old at) }
    ensures none { (f : ℕ) → look (λ q. get nat_cmp tops.new q) at f ≡ 0 }
    ensures others { (q : ℕ) → (q ≡ at → ⊥) → get nat_cmp tops.new q ≡ get nat_cmp tops.old q }
{
    if number_below(tops, at) == 0 {
        tops.remove(&at);
    } else {
        put(
            tops,
            at,
            Reach {
                number: 0,
                more: ALL,
            },
        );
    }
}
