ghost use Rattle.std.specs.Prelude.{◌≡◌, ◌∷◌, [], IfOk};
ghost use Rattle.wire_commands.specs.values.Meaning.{message_of};
ghost use Rattle.spec_exchange.specs.Records.{origin_of};
ghost use Rattle.journal_bytes.specs.record_bytes.Meaning.{record_of, records_of};

use journal_bytes::{Origin, Record, Records};
use std::alloc::{AllocError, Global};
use wire_commands::Message;

/// The message that caused a record.
pub fn origin_of(m: &Message<'_>) -> Origin
    ensures { result ≡ origin_of (message_of m.now) }
{
    Origin {
        session: m.session_id,
        connection: m.connection,
        message: m.message_id,
    }
}

pub(crate) fn no_record(alloc: Global) -> Records
    ensures { records_of result ≡ [] }
{
    Records::new(alloc)
}

pub(crate) fn one_record(alloc: Global, one: Record) -> Result<Records, AllocError>
    ensures { IfOk result (λ rs. records_of rs ≡ record_of one ∷ []) }
{
    let records = vec![in alloc; one]?;
    Ok(Records::from_vec(records))
}
