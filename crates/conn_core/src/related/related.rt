//! Related messages (MS-SMB2 3.2.4.1.4, 3.3.5.2.7.2).
ghost use Rattle.std.specs.Prelude.{◌≡◌, ◌≤◌, ℕ, List, IfSome, None, Some, Ok, option_map};
ghost use Rattle.spec_wire.specs.messages.Bare.{bare_fault};
ghost use Rattle.spec_commands.specs.CommandOf;
ghost use Rattle.spec_world.specs.Hearing as hearing;
ghost use Rattle.spec_world.specs.Related as related;
ghost use Rattle.conn_core.specs.related.Carrying as carrying;
ghost use Rattle.conn_core.specs.related.Carrying.{carry_of, file_told, handed_before, follows, status_before, IsCarried, RelatedCarries};

use crate::frame_messages::Checked;
use crate::served::{Reply, ServeError};
use spec_wire::MessageError;
use wire_bytes::read_echo_request;
use wire_commands::file_id;

const SUCCESS: u32 = 0;

/// STATUS_INVALID_PARAMETER (MS-ERREF 2.3.1)
const INVALID_PARAMETER: u32 = 0xc000_000d;

/// STATUS_INVALID_INFO_CLASS
const INVALID_INFO_CLASS: u32 = 0xc000_0003;

/// STATUS_NO_MEMORY
const NO_MEMORY: u32 = 0xc000_0017;

const CREATE: u16 = 5;

/// The flag of a related request (MS-SMB2 2.2.1.2).
const RELATED: u32 = 4;

/// What a message hands on to a related one.
#[derive(Clone, Copy, Debug, PartialEq, Eq)]
pub struct Carry {
    /// Of the last CREATE of the chain so far, success where it has none.
    pub status: u32,
    pub session: u64,
    pub tree: u32,
    /// A FileId.
    pub file: [u8; 16],
}

/// The 16 bytes by which an IOCTL names no open.
const NAMES_NONE: [u8; 16] = [0xff; 16];

/// Where a request names its open, counted from its header (MS-SMB2 2.2.15 to 2.2.39).
#[tactic(auto, unfolding(spec_world::specs::Related::file_place))]
fn file_place(command: u16) -> Option<usize>
    ensures value { result ≡ related.file_place command }
    ensures near { IfSome result (λ place. place ≤ 88) }
{
    match command {
        6 => Some(72),
        7 => Some(72),
        8 => Some(80),
        9 => Some(80),
        10 => Some(72),
        11 => Some(72),
        14 => Some(72),
        16 => Some(88),
        17 => Some(80),
        _ => None,
    }
}

/// 16 bytes at a place, zeros where there is no room for them.
#[tactic(auto, using(crate::proofs::related::Files::named_there, crate::proofs::related::Files::named_not))]
fn file_at(message: &[u8], place: usize) -> [u8; 16]
    requires { place ≤ 88 }
    ensures { result ≡ related.file_at place message.now }
{
    if message.len() < place + 16 {
        return [0; 16];
    }
    let mut file = [0; 16];
    file.copy_from_slice(&message[place..place + 16]);
    file
}

/// Only an unrelated request names no open by 16 bytes FF: a related one is handed zeros.
fn handed_on(file: [u8; 16]) -> [u8; 16]
    ensures { result ≡ related.handed_on file }
{
    if file == NAMES_NONE { [0; 16] } else { file }
}

/// The related flag on a frame's first message breaks its form, where it isn't refused before.
#[tactic(auto, unfolding(spec_exchange::specs::Commands::has_bit))]
pub fn breaks_form(checked: &Checked) -> bool
    ensures { result ≡ carrying.breaks_form checked.now }
{
    checked.fault.is_none() && !checked.related && checked.header.flags / RELATED % 2 == 1
}

/// Only what names an open fails with a CREATE.
pub(crate) fn can_follow(checked: &Checked, before: &Carry) -> bool
    ensures { result ≡ follows checked.now before.now }
{
    file_place(checked.header.command).is_none() || before.status == SUCCESS
}

/// The status of the last CREATE in front of a message in its chain, which begins at a message that isn't related.
fn create_before(before: &Option<Carry>, checked: &Checked) -> u32
    ensures { result ≡ status_before before.now checked.now }
{
    match before {
        None => SUCCESS,
        Some(before) => {
            if checked.related {
                before.status
            } else {
                SUCCESS
            }
        }
    }
}

/// And behind it, where it was answered with this status.
fn create_behind(before: &Option<Carry>, checked: &Checked, status: u32) -> u32
    ensures { (message : List ℕ) (c : hearing.Checked) → IsCarried checked.now message c
        → result ≡ related.create_behind (option_map carry_of before.now) c status }
{
    if checked.header.command == CREATE {
        status
    } else {
        create_before(before, checked)
    }
}

/// The FileId that was handed to a message in its chain, 16 zeros where none was.
fn file_before(before: &Option<Carry>, checked: &Checked) -> [u8; 16]
    ensures { result ≡ handed_before before.now checked.now }
{
    match before {
        None => [0; 16],
        Some(before) => {
            if checked.related {
                before.file
            } else {
                [0; 16]
            }
        }
    }
}

/// The FileId that a request names; of one that can name none, as an ECHO, the one that was handed to it.
fn file_past(before: &Option<Carry>, checked: &Checked, message: &[u8]) -> [u8; 16]
    ensures { (c : hearing.Checked) → IsCarried checked.now message.now c
        → result ≡ related.file_past (option_map carry_of before.now) c }
{
    match file_place(checked.header.command) {
        Some(place) => handed_on(file_at(message, place)),
        None => file_before(before, checked),
    }
}

/// Behind a message that has no ids of its own, of this status.
fn carried_past(before: &Option<Carry>, checked: &Checked, message: &[u8], status: u32) -> Carry
    ensures { (c : hearing.Checked) → IsCarried checked.now message.now c
        → carry_of result ≡ related.carried_past (option_map carry_of before.now) c status }
{
    Carry {
        status: create_behind(before, checked, status),
        session: checked.header.session,
        tree: checked.header.tree,
        file: file_past(before, checked, message),
    }
}

fn status_of(error: MessageError) -> u32
    ensures { result ≡ CommandOf.status_of error }
{
    match error {
        MessageError::BadClass(_) => INVALID_INFO_CLASS,
        MessageError::Short(_) => INVALID_PARAMETER,
        MessageError::BadSize(_) => INVALID_PARAMETER,
        MessageError::BadOffset(_) => INVALID_PARAMETER,
        MessageError::BadCount(_) => INVALID_PARAMETER,
    }
}

/// The status of a message whose body says nothing: what the connection found, else whether it reads.
pub fn bare_status(fault: Option<u32>, message: &[u8]) -> u32
    ensures { result ≡ CommandOf.echo_status fault (bare_fault message.now) }
{
    if let Some(status) = fault {
        return status;
    }
    match read_echo_request(message) {
        Ok(_) => SUCCESS,
        Err(error) => status_of(error),
    }
}

/// Behind an ECHO or a CANCEL.
pub(crate) fn behind_none(before: &Option<Carry>, checked: &Checked, message: &[u8]) -> Carry
    ensures { (c : hearing.Checked) → IsCarried checked.now message.now c
        → RelatedCarries (option_map carry_of before.now) c None result }
{
    carried_past(before, checked, message, SUCCESS)
}

/// The FileId behind an answer: of the open that it tells, else as behind a message without one.
fn file_behind(
    before: &Option<Carry>,
    checked: &Checked,
    message: &[u8],
    file: Option<u128>,
) -> [u8; 16]
    ensures { (c : hearing.Checked) → IsCarried checked.now message.now c
        → result ≡ file_told (option_map carry_of before.now) c file }
{
    match file {
        Some(file) => file_id(file),
        None => file_past(before, checked, message),
    }
}

/// Behind an answer.
fn behind_reply(before: &Option<Carry>, checked: &Checked, message: &[u8], reply: &Reply) -> Carry
    ensures { (c : hearing.Checked) → IsCarried checked.now message.now c
        → RelatedCarries (option_map carry_of before.now) c (Some (Ok reply.now)) result }
{
    Carry {
        status: create_behind(before, checked, reply.status),
        session: reply.session,
        tree: reply.tree,
        file: file_behind(before, checked, message, reply.file),
    }
}

/// Behind an event. One that has no reply hands on NO_MEMORY.
pub(crate) fn behind_answer(
    before: &Option<Carry>,
    checked: &Checked,
    message: &[u8],
    answer: &Result<Reply, ServeError>,
) -> Carry
    ensures { (c : hearing.Checked) → IsCarried checked.now message.now c
        → RelatedCarries (option_map carry_of before.now) c (Some answer.now) result }
{
    match answer {
        Ok(reply) => behind_reply(before, checked, message, reply),
        Err(_) => carried_past(before, checked, message, NO_MEMORY),
    }
}

/// Puts 16 bytes at a place, where there is room for them.
#[tactic(auto, using(crate::proofs::related::Files::put_there, crate::proofs::related::Files::put_not))]
fn put_at(place: usize, file: &[u8; 16], message: &mut [u8])
    requires { place ≤ 88 }
    ensures { message.new ≡ related.with_file_at (Some place) file.now message.old }
{
    if message.len() < place + 16 {
        return;
    }
    message[place..place + 16].copy_from_slice(file);
}

/// Puts a FileId into a request that has room for one.
pub(crate) fn put_file(command: u16, file: &[u8; 16], message: &mut [u8])
    ensures { message.new ≡ related.with_file command file.now message.old }
{
    match file_place(command) {
        Some(place) => put_at(place, file, message),
        None => (),
    }
}
