//! The status of a request that can't be carried out for its bytes (MS-ERREF 2.3.1).
ghost use Rattle.std.specs.Prelude.{◌≡◌};
ghost use Rattle.spec_exchange.specs.Commands as asks;
ghost use Rattle.spec_commands.specs.CommandOf.{status_of};
ghost use Rattle.wire_commands.specs.values.Meaning;

use crate::values::Command;
use spec_wire::MessageError;

pub(crate) const INVALID_INFO_CLASS: u32 = 0xc000_0003;

pub(crate) const INVALID_PARAMETER: u32 = 0xc000_000d;

pub(crate) const OBJECT_NAME_INVALID: u32 = 0xc000_0033;

pub(crate) const NOT_SUPPORTED: u32 = 0xc000_00bb;

pub(crate) fn status_of(error: MessageError) -> u32
    ensures { result ≡ status_of error }
{
    match error {
        MessageError::BadClass(_) => INVALID_INFO_CLASS,
        MessageError::Short(_) => INVALID_PARAMETER,
        MessageError::BadSize(_) => INVALID_PARAMETER,
        MessageError::BadOffset(_) => INVALID_PARAMETER,
        MessageError::BadCount(_) => INVALID_PARAMETER,
    }
}

// The command of a body that doesn't read.
pub(crate) fn unreadable<'a>(error: MessageError) -> Command<'a>
    ensures { Meaning.command_of result ≡ asks.Unreadable (status_of error) }
{
    Command::Unreadable {
        status: status_of(error),
    }
}
