ghost use Rattle.std.specs.Prelude.{◌≡◌};
ghost use Rattle.store_opens.specs.share_modes.Locking.{locking_count_owned, has_too_many, leaves_too_many};

use crate::share_modes::lists::Range;

// How many of the ranges are this open's.
fn count_owned(owner: u64, ranges: &[Range]) -> usize
    ensures { result ≡ locking_count_owned owner ranges.now }
{
    let mut count = 0;
    for range in ranges {
        if range.owner == owner {
            count += 1;
        }
    }
    count
}

// An open would have more than 1,024 of the ranges that stand and are wanted.
fn has_too_many(standing: &[Range], wanted: &[Range], owner: u64) -> bool
    ensures { result ≡ has_too_many standing.now wanted.now owner }
{
    count_owned(owner, standing) as u128 + count_owned(owner, wanted) as u128 > 1024
}

// Some open would. Ranges of one open that follow each other are counted once.
pub fn leaves_too_many(standing: &[Range], wanted: &[Range]) -> bool
    ensures { result ≡ leaves_too_many standing.now wanted.now wanted.now }
{
    let mut counted = None;
    for range in wanted {
        if counted != Some(range.owner) {
            if has_too_many(standing, wanted, range.owner) {
                return true;
            }
            counted = Some(range.owner);
        }
    }
    false
}
