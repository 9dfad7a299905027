ghost use Rattle.std.specs.Prelude.{◌≡◌, ◌∷◌, [], IfOk};
ghost use Rattle.wire_commands.specs.values.Meaning.{command_of, message_of, setting_of};
ghost use Rattle.spec_exchange.specs.Effects.{change_records};
ghost use Rattle.spec_exchange.specs.Records.{origin_of};
ghost use Rattle.spec_exchange.specs.State.{BasicRecord, DeleteRecord, EndRecord, RenameRecord, WriteRecord};
ghost use Rattle.spec_exchange.specs.Table.{number_or_zero};
ghost use Rattle.journal_bytes.specs.record_bytes.Meaning.{records_of};
ghost use Rattle.server_checks.specs.verdicts.Views.{bytes_in, change_of, path_in, path_in_setting};

use crate::owed_records::records::{no_record, one_record, origin_of};
use journal_bytes::{Basic, Record, Records};
use server_checks::Change;
use std::alloc::{AllocError, Global};
use wire_bytes::{Bytes, Text};
use wire_commands::{Command, Message, Setting};

// The records of a WRITE or a SET_INFO that succeeds.
pub(crate) fn change_records(
    alloc: Global,
    m: &Message<'_>,
    file: u64,
    change: &Change,
    now: u64,
) -> Result<Records, AllocError>
    ensures { IfOk result (λ rs. records_of rs
        ≡ change_records (message_of m.now) file now (change_of (command_of m.now.command) change.now)) }
{
    match change {
        Change::PutBytes { at } => written(alloc, m, file, *at, now),
        Change::PutPath { replaced } => renamed(alloc, m, file, *replaced),
        Change::PutEnd { size } => ended(alloc, m, file, *size, now),
        Change::PutBasic { basic } => told_basic(alloc, m, file, *basic),
        Change::PutDeletePending { pending } => marked_record(alloc, m, file, *pending),
        Change::PutNothing => Ok(no_record(alloc)),
    }
}

fn written(
    alloc: Global,
    m: &Message<'_>,
    file: u64,
    at: u64,
    now: u64,
) -> Result<Records, AllocError>
    ensures { IfOk result (λ rs. records_of rs
        ≡ WriteRecord (origin_of (message_of m.now)) file at now (bytes_in (command_of m.now.command)) ∷ []) }
{
    let origin = origin_of(m);
    let bytes = Bytes::from_slice(alloc, bytes_of(m))?;
    one_record(
        alloc,
        Record::Write {
            origin,
            file,
            at,
            time: now,
            bytes,
        },
    )
}

fn renamed(
    alloc: Global,
    m: &Message<'_>,
    file: u64,
    replaced: Option<u64>,
) -> Result<Records, AllocError>
    ensures { IfOk result (λ rs. records_of rs
        ≡ RenameRecord (origin_of (message_of m.now)) file (number_or_zero replaced) (path_in (command_of m.now.command)) ∷ []) }
{
    let origin = origin_of(m);
    let replaced = number_or_zero(replaced);
    let path = Text::from_str(alloc, path_of(m))?;
    one_record(
        alloc,
        Record::Rename {
            origin,
            file,
            replaced,
            path,
        },
    )
}

fn ended(
    alloc: Global,
    m: &Message<'_>,
    file: u64,
    size: u64,
    now: u64,
) -> Result<Records, AllocError>
    ensures { IfOk result (λ rs. records_of rs ≡ EndRecord (origin_of (message_of m.now)) file size now ∷ []) }
{
    let origin = origin_of(m);
    one_record(
        alloc,
        Record::SetEnd {
            origin,
            file,
            length: size,
            time: now,
        },
    )
}

fn told_basic(
    alloc: Global,
    m: &Message<'_>,
    file: u64,
    basic: Basic,
) -> Result<Records, AllocError>
    ensures { IfOk result (λ rs. records_of rs ≡ BasicRecord (origin_of (message_of m.now)) file basic ∷ []) }
{
    let origin = origin_of(m);
    one_record(
        alloc,
        Record::SetBasic {
            origin,
            file,
            basic,
        },
    )
}

fn marked_record(
    alloc: Global,
    m: &Message<'_>,
    file: u64,
    marked: bool,
) -> Result<Records, AllocError>
    ensures { IfOk result (λ rs. records_of rs ≡ DeleteRecord (origin_of (message_of m.now)) file marked ∷ []) }
{
    let origin = origin_of(m);
    one_record(
        alloc,
        Record::SetDelete {
            origin,
            file,
            marked,
        },
    )
}

// The root's number, 0, where no file is replaced.
fn number_or_zero(file: Option<u64>) -> u64
    ensures { result ≡ number_or_zero file }
{
    match file {
        Some(file) => file,
        None => 0,
    }
}

/// The bytes of a WRITE.
pub fn bytes_of<'a>(m: &Message<'a>) -> &'a [u8]
    ensures { result.now ≡ bytes_in (command_of m.now.command) }
{
    match &m.command {
        Command::Write { bytes, .. } => bytes,
        _ => &[],
    }
}

/// The path of a RENAME.
pub fn path_of<'m>(m: &'m Message<'_>) -> &'m str
    ensures { result.now ≡ path_in (command_of m.now.command) }
{
    match &m.command {
        Command::SetInfo { setting, .. } => path_in(setting),
        _ => "",
    }
}

fn path_in(setting: &Setting) -> &str
    ensures { result.now ≡ path_in_setting (setting_of setting.now) }
{
    match setting {
        Setting::Rename { path, .. } => path.as_str(),
        _ => "",
    }
}
