//! The ranges that a LOCK names, and the statuses of what is refused (MS-SMB2 2.2.26, 3.3.5.14).
ghost use Rattle.std.specs.Prelude.{◌≡◌, IfOk, map};
ghost use Rattle.spec_exchange.specs.Ranges.{ranges_of};
ghost use Rattle.store_opens.specs.share_modes.Answers.{AllOf};
ghost use Rattle.store_opens.specs.share_modes.Locking.{range_of};
ghost use Rattle.server_checks.specs.verdicts.Looks.{element_range, told_by};

use crate::verdicts::status::{
    FILE_LOCK_CONFLICT, INSUFFICIENT_RESOURCES, INVALID_LOCK_RANGE, LOCK_NOT_GRANTED,
    RANGE_NOT_LOCKED,
};
use std::alloc::{AllocError, Global};
use store_opens::{Range, RangeError};
use wire_commands::Element;

#[tactic(auto, using(crate::proofs::verdicts::Named::named, crate::proofs::verdicts::Named::owned))]
/// The ranges of an open that the elements of a LOCK name.
pub fn ranges_of(alloc: Global, id: u64, elements: &[Element]) -> Result<Vec<Range>, AllocError>
    ensures { IfOk result (λ v. (map range_of v.items ≡ ranges_of id elements.now) × AllOf id v.items) }
{
    elements.iter().map(|one| range_of(id, one)).collect(alloc)
}

fn range_of(id: u64, one: &Element) -> Range
    ensures { result ≡ element_range id one.now }
{
    Range {
        owner: id,
        at: one.at,
        length: one.length,
        exclusive: one.flags == 0x2 || one.flags == 0x12,
    }
}

/// The status of a refusal; none where memory ran out.
pub fn status_of(error: &RangeError) -> Option<u32>
    ensures { result ≡ told_by error.now }
{
    match error {
        RangeError::Memory => None,
        RangeError::NotGranted(_) => Some(LOCK_NOT_GRANTED),
        RangeError::NotLocked(_) => Some(RANGE_NOT_LOCKED),
        RangeError::Conflict(_) => Some(FILE_LOCK_CONFLICT),
        RangeError::BadRange(_) => Some(INVALID_LOCK_RANGE),
        RangeError::TooMany => Some(INSUFFICIENT_RESOURCES),
    }
}
