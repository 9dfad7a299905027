//! The body that records make in the journal.
ghost use Rattle.std.specs.Prelude.{◌≡◌, [], IfOk, IsOk};
ghost use Rattle.journal_bytes.specs.record_bodies.Body.{IsBody};

use crate::record_bodies::typed::are_typed;
use crate::record_bytes::{Records, can_write, write_records};
use std::alloc::{AllocError, Global};
use wire_bytes::Bytes;

/// The body of records in version 2 of the journal; empty of none, which want no memory. Of records that `can_write`
/// refuses the answer is that memory ran out; no message from the wire makes such.
pub fn spelled(alloc: Global, records: &Records) -> Result<Bytes, AllocError>
    ensures told { IfOk result (λ b. IsBody b records.now) }
    ensures sure { records.now ≡ [] → IsOk result }
{
    let records = records.as_slice();
    if !can_write(records) {
        return Err(AllocError);
    }
    are_typed(records);
    match write_records(alloc, records) {
        Ok(body) => Ok(body),
        Err(error) => Err(error),
    }
}
