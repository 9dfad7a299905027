ghost use Rattle.std.specs.Prelude.{◌≡◌, MatchResult, Some, None, position, if◌then◌else◌};
ghost use Rattle.spec_exchange.specs.Content.{meets};
ghost use Rattle.store_opens.specs.share_modes.Locking.{first_conflict, locking_wraps, first_wrapping};
ghost use Rattle.store_opens.specs.share_modes.Locking.{locking_granted, released, is_equal, without_first};
ghost use Rattle.store_opens.specs.share_modes.Locking.{Stands, RefusedBy, read_conflict, write_conflict};

use crate::share_modes::lists::Range;
use crate::share_modes::ranges::RangeError;

#[tactic(auto, unfolding(spec_exchange::specs::Content::meets))]
fn meets(range: &Range, at: u64, length: u64) -> bool
    ensures { result ≡ meets range.now.at range.now.length at length }
{
    let begins = u128::from(range.at);
    let ends = begins + u128::from(range.length);
    let from = u128::from(at);
    let until = from + u128::from(length);
    begins.max(from) < ends.min(until)
}

// It passes the last byte that a range may name.
fn wraps(range: &Range) -> bool
    ensures { result ≡ locking_wraps range.now }
{
    let at = range.at;
    let length = range.length;
    u128::from(at) + u128::from(length) > 0x1_0000_0000_0000_0000
}

pub fn first_wrapping(ranges: &[Range]) -> Option<Range>
    ensures { result ≡ first_wrapping ranges.now }
{
    for range in ranges {
        if wraps(range) {
            return Some(*range);
        }
    }
    None
}

// The first range that keeps another from standing.
fn first_conflict(ranges: &[Range], wanted: &Range) -> Option<Range>
    ensures { result ≡ first_conflict ranges.now wanted.now }
{
    for range in ranges {
        if meets(range, wanted.at, wanted.length) && (range.exclusive || wanted.exclusive) {
            return Some(*range);
        }
    }
    None
}

/// The ranges that stand, with the wanted ones behind them.
pub fn granted(mut all: Vec<Range>, wanted: &[Range]) -> Result<Vec<Range>, RangeError>
    ensures { MatchResult result (λ v. locking_granted all.items wanted.now ≡ Stands v.items)
        (λ e. RefusedBy e (locking_granted all.items wanted.now)) }
{
    for range in wanted {
        if let Some(standing) = first_conflict(&all, range) {
            return Err(RangeError::NotGranted(standing));
        }
        if all.push(*range).is_err() {
            return Err(RangeError::Memory);
        }
    }
    Ok(all)
}

// The same bytes of the same open.
fn is_equal(range: &Range, wanted: &Range) -> bool
    ensures { result ≡ is_equal range.now wanted.now }
{
    range.owner == wanted.owner && range.at == wanted.at && range.length == wanted.length
}

// The place of the first range of these bytes of the same open.
fn place_of(ranges: &[Range], wanted: &Range) -> Option<usize>
    ensures { result ≡ position (λ r. is_equal r wanted.now) ranges.now }
{
    ranges.iter().position(|range| is_equal(range, wanted))
}

// Takes the first range of these bytes of the same open, where there is one.
fn take_first(all: &mut Vec<Range>, wanted: &Range) -> bool
    ensures { (if result then Some all.new.items else None) ≡ without_first all.old.items wanted.now }
{
    match place_of(all, wanted) {
        Some(i) => {
            let _ = all.remove(i);
            true
        }
        None => false,
    }
}

/// The ranges that stand, without the first that equals each wanted one.
pub fn released(mut all: Vec<Range>, wanted: &[Range]) -> Result<Vec<Range>, RangeError>
    ensures { MatchResult result (λ v. released all.items wanted.now ≡ Stands v.items) (λ e. RefusedBy e (released all.items wanted.now)) }
{
    for range in wanted {
        if !take_first(&mut all, range) {
            return Err(RangeError::NotLocked(*range));
        }
    }
    Ok(all)
}

/// The first range that keeps a read out.
pub fn read_conflict(ranges: &[Range], owner: u64, at: u64, length: u64) -> Option<Range>
    ensures { result ≡ read_conflict ranges.now owner at length }
{
    for range in ranges {
        if meets(range, at, length) && range.exclusive && range.owner != owner {
            return Some(*range);
        }
    }
    None
}

/// The first range that keeps a write out.
pub fn write_conflict(ranges: &[Range], owner: u64, at: u64, length: u64) -> Option<Range>
    ensures { result ≡ write_conflict ranges.now owner at length }
{
    for range in ranges {
        if meets(range, at, length) && (range.owner != owner || !range.exclusive) {
            return Some(*range);
        }
    }
    None
}
