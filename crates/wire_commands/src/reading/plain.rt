//! Requests that carry no text.
ghost use Rattle.std.specs.Prelude.{◌≡◌};
ghost use Rattle.spec_commands.specs.CommandOf.{logoff_in, tree_disconnect_in, close_in, flush_in, read_in, write_in, ioctl_in};
ghost use Rattle.wire_commands.specs.values.Meaning;

use crate::reading::ids::{file_of, has_bit};
use crate::reading::status::unreadable;
use crate::values::Command;
use wire_bytes::{
    read_close_request, read_flush_request, read_logoff_request, read_read_request,
    read_tree_disconnect_request, read_write_request,
};
use wire_info::read_ioctl_request;

#[tactic(auto, unfolding(spec_commands::specs::CommandOf::logoff_in), using(crate::proofs::reading::Unless::reads_or_breaks))]
pub(crate) fn logoff_in(m: &[u8]) -> Command<'_>
    ensures { Meaning.command_of result ≡ logoff_in m.now }
{
    match read_logoff_request(m) {
        Ok(_) => Command::Logoff,
        Err(error) => unreadable(error),
    }
}

#[tactic(auto, unfolding(spec_commands::specs::CommandOf::tree_disconnect_in), using(crate::proofs::reading::Unless::reads_or_breaks))]
pub(crate) fn tree_disconnect_in(m: &[u8]) -> Command<'_>
    ensures { Meaning.command_of result ≡ tree_disconnect_in m.now }
{
    match read_tree_disconnect_request(m) {
        Ok(_) => Command::TreeDisconnect,
        Err(error) => unreadable(error),
    }
}

#[tactic(auto, unfolding(spec_commands::specs::CommandOf::close_in), using(crate::proofs::reading::Unless::reads_or_breaks))]
pub(crate) fn close_in(m: &[u8]) -> Command<'_>
    ensures { Meaning.command_of result ≡ close_in m.now }
{
    match read_close_request(m) {
        Ok(v) => Command::Close {
            file: file_of(&v.file_id),
            query: has_bit(v.flags as u32, 1),
        },
        Err(error) => unreadable(error),
    }
}

#[tactic(auto, unfolding(spec_commands::specs::CommandOf::flush_in), using(crate::proofs::reading::Unless::reads_or_breaks))]
pub(crate) fn flush_in(m: &[u8]) -> Command<'_>
    ensures { Meaning.command_of result ≡ flush_in m.now }
{
    match read_flush_request(m) {
        Ok(v) => Command::Flush {
            file: file_of(&v.file_id),
        },
        Err(error) => unreadable(error),
    }
}

#[tactic(auto, unfolding(spec_commands::specs::CommandOf::read_in), using(crate::proofs::reading::Unless::reads_or_breaks))]
pub(crate) fn read_in(m: &[u8]) -> Command<'_>
    ensures { Meaning.command_of result ≡ read_in m.now }
{
    match read_read_request(m) {
        Ok(v) => Command::Read {
            file: file_of(&v.file_id),
            at: v.offset,
            size: v.length,
            minimum: v.minimum_count,
            channel: v.channel,
        },
        Err(error) => unreadable(error),
    }
}

#[tactic(auto, unfolding(spec_commands::specs::CommandOf::write_in), using(crate::proofs::reading::Unless::reads_or_breaks))]
pub(crate) fn write_in(m: &[u8]) -> Command<'_>
    ensures { Meaning.command_of result ≡ write_in m.now }
{
    match read_write_request(m) {
        Ok(v) => Command::Write {
            file: file_of(&v.file_id),
            at: v.offset,
            bytes: v.payload,
            channel: v.channel,
        },
        Err(error) => unreadable(error),
    }
}

#[tactic(auto, unfolding(spec_commands::specs::CommandOf::ioctl_in), using(crate::proofs::reading::Unless::reads_or_breaks))]
pub(crate) fn ioctl_in(m: &[u8]) -> Command<'_>
    ensures { Meaning.command_of result ≡ ioctl_in m.now }
{
    match read_ioctl_request(m) {
        Ok(v) => Command::Ioctl {
            file: file_of(&v.file_id),
            code: v.ctl_code,
            room: v.max_output_response,
        },
        Err(error) => unreadable(error),
    }
}
