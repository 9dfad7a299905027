use crate::share_modes::lists::{Range, RangeList};
use crate::share_modes::owners::leaves_too_many;
use crate::share_modes::walk::{first_wrapping, granted, read_conflict, released, write_conflict};
use std::alloc::{AllocError, Global};
use std::marker::Model;
use thiserror::Error;

/// Why a call on the ranges of a file is refused: with the standing range that conflicts, or the wanted one that isn't
/// locked or passes the last byte. The ranges are then as before.
#[derive(Debug, PartialEq, Eq, Drop, Error)]
pub enum RangeError {
    #[error("memory ran out")]
    Memory,
    #[error("the range conflicts with one that is locked, {0:?}")]
    NotGranted(Range),
    #[error("the range {0:?} is not locked")]
    NotLocked(Range),
    #[error("the bytes are locked by {0:?}")]
    Conflict(Range),
    #[error("the range {0:?} passes the last byte that a range may name")]
    BadRange(Range),
    #[error("an open would have more than 1,024 ranges")]
    TooMany,
}

impl From<AllocError> for RangeError {
    ghost use Rattle.std.specs.Prelude.{◌≡◌};
    ghost use Rattle.store_opens.specs.declared.share_modes.ranges.RangeError.TheVariants.{Memory};

    ghost from_gives = { λ e r. r ≡ Memory };

    fn from(_: AllocError) -> RangeError {
        RangeError::Memory
    }
}

/// The ranges of a file that its opens lock, in the order in which they were granted.
#[derive(Drop)]
pub struct Ranges {
    items: Vec<Range>,
    alloc: Global,
}

impl Model for Ranges {
    ghost use Rattle.std.specs.Prelude.{List};
    ghost use Rattle.store_opens.specs.declared.share_modes.lists.Range.{Range};

    ghost Value = { List Range };

    ghost view = { λ r. r.items.items };
}

impl Ranges {
    ghost use Rattle.std.specs.Prelude.{◌≡◌, [], ◌∷◌, ◌++◌, None, Some, IfErr, OnOk, OnErr, MatchResult, filter, not, ◌==◌};
    ghost use Rattle.store_opens.specs.share_modes.Locking.{lock_outcome, unlock_outcome, Stands, RefusedBy, IsConflict};
    ghost use Rattle.store_opens.specs.share_modes.Locking.{read_conflict, write_conflict};

    /// No ranges. It takes no memory.
    pub fn new(alloc: Global) -> Ranges
        ensures { result ≡ [] }
    {
        Ranges {
            items: Vec::new(alloc),
            alloc,
        }
    }

    pub fn as_slice(&self) -> &[Range]
        ensures { result.now ≡ self.now }
    {
        self.items.as_slice()
    }

    /// Locks all of the wanted ranges, or none.
    pub fn lock(&mut self, wanted: &RangeList) -> Result<(), RangeError>
        ensures ok { OnOk result (lock_outcome self.old wanted.now ≡ Stands self.new) }
        ensures err { IfErr result (λ e. (self.new ≡ self.old) × RefusedBy e (lock_outcome self.old wanted.now)) }
    {
        let items = self.after_lock(wanted.as_slice())?;
        self.items = items;
        Ok(())
    }

    /// Gives up all of the wanted ranges, or none. Of equal ones it takes the first.
    pub fn unlock(&mut self, wanted: &RangeList) -> Result<(), RangeError>
        ensures ok { OnOk result (unlock_outcome self.old wanted.now ≡ Stands self.new) }
        ensures err { IfErr result (λ e. (self.new ≡ self.old) × RefusedBy e (unlock_outcome self.old wanted.now)) }
    {
        let items = self.after_unlock(wanted.as_slice())?;
        self.items = items;
        Ok(())
    }

    /// What a lock would leave. A caller that is to write it down first puts it in place with `replace`.
    pub fn after_lock(&self, wanted: &[Range]) -> Result<Vec<Range>, RangeError>
        ensures { MatchResult result (λ v. lock_outcome self.now wanted.now ≡ Stands v.items)
            (λ e. RefusedBy e (lock_outcome self.now wanted.now)) }
    {
        if leaves_too_many(self.as_slice(), wanted) {
            return Err(RangeError::TooMany);
        }
        if let Some(range) = first_wrapping(wanted) {
            return Err(RangeError::BadRange(range));
        }
        granted(Vec::from_slice(self.alloc, self.as_slice())?, wanted)
    }

    /// What an unlock would leave.
    pub fn after_unlock(&self, wanted: &[Range]) -> Result<Vec<Range>, RangeError>
        ensures { MatchResult result (λ v. unlock_outcome self.now wanted.now ≡ Stands v.items)
            (λ e. RefusedBy e (unlock_outcome self.now wanted.now)) }
    {
        if let Some(range) = first_wrapping(wanted) {
            return Err(RangeError::BadRange(range));
        }
        released(Vec::from_slice(self.alloc, self.as_slice())?, wanted)
    }

    /// Puts ranges in the place of those that stand. It takes no memory.
    pub fn replace(&mut self, ranges: Vec<Range>)
        ensures { self.new ≡ ranges.items }
    {
        self.items = ranges;
    }

    /// One more range stands behind the others. Where memory runs out they are as before.
    pub fn push(&mut self, range: Range) -> Result<(), AllocError>
        ensures ok { OnOk result (self.new ≡ self.old ++ range ∷ []) }
        ensures err { OnErr result (self.new ≡ self.old) }
    {
        match self.items.push(range) {
            Ok(()) => return Ok(()),
            Err(_) => return Err(AllocError),
        }
    }

    /// Gives up all ranges of an open. It takes no memory.
    pub fn release_all(&mut self, owner: u64)
        ensures { self.new ≡ filter (λ r. not (r.owner == owner)) self.old }
    {
        self.items.retain(|range| range.owner != owner);
    }

    /// Whether an open may read the bytes: `Conflict` with the first exclusive range of another. It takes no memory.
    pub fn may_read(&self, owner: u64, at: u64, length: u64) -> Result<(), RangeError>
        ensures { MatchResult result (λ _. read_conflict self.now owner at length ≡ None)
            (λ e. IsConflict e (read_conflict self.now owner at length)) }
    {
        match read_conflict(self.as_slice(), owner, at, length) {
            None => Ok(()),
            Some(range) => Err(RangeError::Conflict(range)),
        }
    }

    /// Whether an open may write the bytes: `Conflict` with the first range of another, or shared one of its own.
    pub fn may_write(&self, owner: u64, at: u64, length: u64) -> Result<(), RangeError>
        ensures { MatchResult result (λ _. write_conflict self.now owner at length ≡ None)
            (λ e. IsConflict e (write_conflict self.now owner at length)) }
    {
        match write_conflict(self.as_slice(), owner, at, length) {
            None => Ok(()),
            Some(range) => Err(RangeError::Conflict(range)),
        }
    }
}
