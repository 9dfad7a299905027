//! Records followed one after the other.
ghost use Rattle.std.specs.Prelude.{◌≡◌, true, OnOk};
ghost use Rattle.spec_exchange.specs.Fold.{fold_from};
ghost use Rattle.spec_exchange.specs.State.{Server};
ghost use Rattle.journal_bytes.specs.record_bytes.Meaning.{records_of};
ghost use Rattle.server_core.specs.durable_state.Durable.{DurableShown};
ghost use Rattle.law_server.specs.tables.Fits.{Fits, all_sound};

use crate::durable_state::durable::Durable;
use journal_bytes::Record;
use std::alloc::AllocError;

impl Durable {
    /// Follows records that are at hand. Where memory runs out a part of them was applied.
    pub fn with_records(&mut self, records: &[Record]) -> Result<(), AllocError>
        ensures { (s : Server) → Fits s → DurableShown self.old s → all_sound (records_of records.now) ≡ true
            → OnOk result (DurableShown self.new (fold_from s (records_of records.now))) }
    {
        for record in records {
            self.with_record(record)?;
        }
        Ok(())
    }
}
