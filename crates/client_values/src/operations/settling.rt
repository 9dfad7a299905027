// What a response does to the operation that it answers: the settling table (MS-SMB2 3.2.5).
ghost use Rattle.std.specs.Prelude.{◌≡◌, ◌==◌, not, ◌&&◌, ◌||◌, if◌then◌else◌};
ghost use Rattle.spec_exchange.specs.Operations.{is_change};
ghost use Rattle.spec_exchange.specs.Status.{file_not_available};
ghost use Rattle.spec_exchange.specs.Settling.{GoesAgain, refused, refuses_all, was_closed, may_have_acted};
ghost use Rattle.client_values.specs.operations.Meaning.{op_of};
ghost use Rattle.client_values.specs.operations.Verdicts.{comes_to};

use crate::operations::values::OpKind;

const NO_MEMORY: u32 = 0xc000_0017;

const OBJECT_NAME_NOT_FOUND: u32 = 0xc000_0034;

const FILE_LOCK_CONFLICT: u32 = 0xc000_0054;

const DISK_FULL: u32 = 0xc000_007f;

const FILE_CLOSED: u32 = 0xc000_0128;

const DUPLICATE_OBJECTID: u32 = 0xc000_022a;

const FILE_NOT_AVAILABLE: u32 = 0xc000_0467;

/// What another status than success comes to.
#[derive(Clone, Copy, Debug, PartialEq, Eq)]
pub enum Verdict {
    Refused,
    /// A close that an unanswered copy did already.
    Closed,
    Unknown,
    /// It goes out again.
    GoesAgain,
}

/// A refusal that an unanswered copy can't have been spared: it refused every copy.
fn refuses_all(op: &OpKind, status: u32) -> bool
    ensures { result ≡ refuses_all (op_of op.now) status }
{
    // A CreateGuid or a lock slot keeps one answer for all copies, but never NO_MEMORY or a lock's DISK_FULL. A write
    // that had acted would succeed now: the check on replays comes before those on ranges and room.
    if op.is_create() {
        status != NO_MEMORY
    } else if op.is_lock() {
        status != NO_MEMORY && status != DISK_FULL
    } else {
        op.is_write() && (status == FILE_LOCK_CONFLICT || status == DISK_FULL)
    }
}

/// A close that an unanswered copy did already.
fn was_closed(op: &OpKind, asking: bool, status: u32) -> bool
    ensures { result ≡ was_closed (op_of op.now) asking status }
{
    let already = if asking {
        OBJECT_NAME_NOT_FOUND
    } else {
        FILE_CLOSED
    };
    op.is_close() && status == already
}

/// The open, or a create's guid, may have expired.
fn may_have_acted(op: &OpKind, asking: bool, status: u32) -> bool
    ensures { result ≡ may_have_acted (op_of op.now) asking status }
{
    if asking {
        status == OBJECT_NAME_NOT_FOUND
    } else {
        op.is_create() && status == DUPLICATE_OBJECTID
    }
}

/// What another status than success comes to, of an operation, or of a request to attach its open in its place (`asking`):
/// whether a copy of the operation is unanswered, and whether its last copy has an older channel sequence than the session.
pub fn judge(op: &OpKind, asking: bool, unanswered: bool, is_older: bool, status: u32) -> Verdict
    ensures { comes_to result status
        ≡ (if not asking && (is_change (op_of op.now) && ((status == file_not_available) && is_older)) then GoesAgain
        else refused (op_of op.now) asking unanswered status) }
{
    // The order counts. With no copy unanswered, a status speaks of the only copy that there was. An expired
    // CreateGuid comes before what refuses all copies, among which it would count.
    if !asking && op.is_change() && status == FILE_NOT_AVAILABLE && is_older {
        Verdict::GoesAgain
    } else if !unanswered {
        Verdict::Refused
    } else if was_closed(op, asking, status) {
        Verdict::Closed
    } else if may_have_acted(op, asking, status) {
        Verdict::Unknown
    } else if refuses_all(op, status) {
        Verdict::Refused
    } else {
        Verdict::Unknown
    }
}
