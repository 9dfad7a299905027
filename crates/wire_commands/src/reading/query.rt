//! QUERY_DIRECTORY and QUERY_INFO.
ghost use Rattle.std.specs.Prelude.{◌≡◌, ◌||◌, None, IfOk, OnErr};
ghost use Rattle.spec_exchange.specs.Commands.{has_bit};
ghost use Rattle.spec_commands.specs.CommandOf;
ghost use Rattle.spec_commands.specs.Text.{text_in};
ghost use Rattle.spec_wire.specs.messages.QueryDirectory.{query_directory_request_fault};
ghost use Rattle.wire_commands.specs.values.Meaning;
ghost use Rattle.wire_info.specs.info_messages.Views.{query_directory_request, query_info_request};

use crate::reading::ids::{file_of, has_bit};
use crate::reading::status::{INVALID_PARAMETER, NOT_SUPPORTED, OBJECT_NAME_INVALID, unreadable};
use crate::reading::texts::text_in;
use crate::values::Command;
use std::alloc::{AllocError, Global};
use wire_info::{
    QueryDirectoryRequest, QueryInfoRequest, read_query_directory_request, read_query_info_request,
};

// Restart is 1, reopen 0x10.
fn begins_anew(flags: u8) -> bool
    ensures { result ≡ (has_bit flags 0x1 || has_bit flags 0x10) }
{
    has_bit(flags as u32, 0x1) || has_bit(flags as u32, 0x10)
}

fn list_of<'a>(alloc: Global, v: &QueryDirectoryRequest<'_>) -> Result<Command<'a>, AllocError>
    ensures { IfOk result (λ c. Meaning.command_of c ≡ CommandOf.list_of (query_directory_request v.now) (text_in v.now.name.now)) }
{
    match text_in(alloc, v.name) {
        Ok(Some(pattern)) => Ok(Command::ListDirectory {
            file: file_of(&v.file_id),
            class: v.file_information_class,
            restart: begins_anew(v.flags),
            single: has_bit(v.flags as u32, 0x2),
            pattern,
            room: v.output_buffer_length,
        }),
        Ok(None) => Ok(Command::Unreadable {
            status: OBJECT_NAME_INVALID,
        }),
        Err(error) => Err(error),
    }
}

#[tactic(auto, unfolding(spec_commands::specs::CommandOf::list_in), using(crate::proofs::reading::Unless::reads_or_breaks))]
pub(crate) fn list_in(alloc: Global, m: &[u8]) -> Result<Command<'_>, AllocError>
    ensures lacks { OnErr result (query_directory_request_fault m.now ≡ None) }
    ensures reads { IfOk result (λ c. Meaning.command_of c ≡ CommandOf.list_in m.now) }
{
    match read_query_directory_request(m) {
        Ok(v) => list_of(alloc, &v),
        Err(error) => Ok(unreadable(error)),
    }
}

// Type 1 is a file, 2 a volume; security (3), quotas (4) and extended attributes (classes 7 and 15 of a file) aren't
// supported.
fn query_of<'a>(v: &QueryInfoRequest<'_>) -> Command<'a>
    ensures { Meaning.command_of result ≡ CommandOf.query_of (query_info_request v.now) }
{
    let class = v.file_info_class;
    // The reader of the request knows class 15, so that it is NOT_SUPPORTED and not INVALID_INFO_CLASS.
    let left_out = class == 15;
    match v.info_type {
        1 => {
            if left_out {
                return Command::Unreadable {
                    status: NOT_SUPPORTED,
                };
            }
            Command::QueryFile {
                file: file_of(&v.file_id),
                class,
                room: v.output_buffer_length,
            }
        }
        2 => Command::QueryVolume {
            file: file_of(&v.file_id),
            class,
            room: v.output_buffer_length,
        },
        3 | 4 => Command::Unreadable {
            status: NOT_SUPPORTED,
        },
        _ => Command::Unreadable {
            status: INVALID_PARAMETER,
        },
    }
}

#[tactic(auto, unfolding(spec_commands::specs::CommandOf::query_in), using(crate::proofs::reading::Unless::reads_or_breaks))]
pub(crate) fn query_in(m: &[u8]) -> Command<'_>
    ensures { Meaning.command_of result ≡ CommandOf.query_in m.now }
{
    match read_query_info_request(m) {
        Ok(v) => query_of(&v),
        Err(error) => unreadable(error),
    }
}
