//! What a recovery writes down first.
ghost use Rattle.std.specs.Prelude.{◌≡◌, ◌≤◌, IfOk, drop, length};
ghost use Rattle.spec_exchange.specs.Fold.{epoch_records};
ghost use Rattle.spec_exchange.specs.State.{Server};
ghost use Rattle.journal_bytes.specs.record_bytes.Meaning.{records_of};
ghost use Rattle.server_core.specs.Opening.{versions_of};

use crate::durable_state::Durable;
use journal_bytes::{Record, Records};
use std::alloc::{AllocError, Global};

/// The next epoch, in a journal of version 1 behind the record of version 2. Behind 2^32 - 1 epochs, which no journal holds,
/// the answer is that memory ran out.
pub fn epoch_records(state: &Durable) -> Result<Records, AllocError>
    ensures { IfOk result (λ rs. (s : Server) → s.version ≡ state.now.version → s.epoch ≡ state.now.epoch
        → records_of rs ≡ epoch_records s) }
{
    let epoch = state.epoch;
    if epoch == u32::MAX {
        return Err(AllocError);
    }
    let mut records = versions(state.alloc, state.version)?;
    // The epoch is the upper half of each id, so that a restart gives none a second time.
    records.push(Record::Epoch { number: epoch + 1 })?;
    Ok(records)
}

// In a journal of version 1 the record of version 2, and else none.
fn versions(alloc: Global, version: u32) -> Result<Records, AllocError>
    ensures { IfOk result (λ rs. rs ≡ versions_of version) }
{
    let mut records = Records::new(alloc);
    if version != 1 {
        return Ok(records);
    }
    records.push(Record::Version { number: 2 })?;
    Ok(records)
}

/// The records behind the first of them; none, where there aren't as many.
pub(crate) fn behind(all: &[Record], count: usize) -> &[Record]
    ensures { count ≤ length all.now → result.now ≡ drop count all.now }
{
    &all[count.min(all.len())..]
}
