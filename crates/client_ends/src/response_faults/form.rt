//! The form of a response.
ghost use Rattle.std.specs.Prelude.{◌≡◌, ◌≤◌, ◌==◌, ◌&&◌, length, OnOk};
ghost use Rattle.spec_world.specs.Ends.{ClientEnd};
ghost use Rattle.spec_world.specs.Dialog.{is_dialogs};
ghost use Rattle.client_ends.specs.ends.Shown.{EndShowsTalk};
ghost use Rattle.client_ends.specs.response_faults.Judging.{DueBy, IsResponseDue, answers_on};

use crate::dialog_responses::is_response;
use crate::ends::{Line, heard_header};
use spec_wire::Header;
use wire_bytes::Refusal;

/// A header whose status is the one that is due.
fn due_of(header: Header, due: u32) -> Result<Header, Refusal>
    ensures { IsResponseDue due header result }
{
    let status = header.status;
    if status == due {
        Ok(header)
    } else {
        Err(Refusal::Status(status))
    }
}

/// The header of a message whose status is the one that is due.
pub(crate) fn due_header(m: &[u8], due: u32) -> Result<Header, Refusal>
    ensures due { DueBy due m.now result }
    ensures long { OnOk result (64 ≤ length m.now) }
{
    match heard_header(m) {
        Some(header) => due_of(header, due),
        None => Err(Refusal::BadToken),
    }
}

/// Whether a request of the dialog waits under an id.
fn waits(line: &Line, id: u64) -> bool
    ensures { (n : ClientEnd) → EndShowsTalk line.now n → result ≡ is_dialogs (n.awaited id) }
{
    match line.token_for(id) {
        Some(token) => token == 0,
        None => false,
    }
}

/// Whether a header has this command, and a request of the dialog waits for it.
fn is_asked(line: &Line, header: &Header, command: u16) -> bool
    ensures { (n : ClientEnd) → EndShowsTalk line.now n
        → result ≡ ((header.now.command == command) && is_dialogs (n.awaited header.now.message)) }
{
    let same = header.command == command;
    if same {
        waits(line, header.message)
    } else {
        false
    }
}

/// Whether a header is that of the response to the dialog's request of this command.
pub(crate) fn answers(line: &Line, header: &Header, command: u16) -> bool
    ensures { (n : ClientEnd) → EndShowsTalk line.now n → result ≡ answers_on n header.now command }
{
    let responds = is_response(header);
    if responds {
        is_asked(line, header, command)
    } else {
        false
    }
}
