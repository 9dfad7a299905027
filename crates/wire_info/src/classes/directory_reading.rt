ghost use Rattle.spec_wire.specs.messages.Fault.{Reads};
ghost use Rattle.spec_wire.specs.messages.Directory.{SpellsDirectoryEntry, directory_entry_fault};
ghost use Rattle.spec_wire.specs.declared.messages.directory_class.DirectoryClass.TheVariants as classes;
ghost use Rattle.wire_info.specs.classes.Views.{directory_entry};

use crate::classes::directory_entry::DirectoryEntry;
use spec_wire::DirectoryClass;
use wire_bytes::{MessageError, Part, fields_fit, part_of, u32_at, u64_at};

fn read_directory(m: &[u8]) -> Result<DirectoryEntry<'_>, MessageError>
    ensures { Reads (directory_entry_fault classes.Directory m.now) (SpellsDirectoryEntry classes.Directory m.now) directory_entry result }
{
    fields_fit(m, &[4, 4, 8, 8, 8, 8, 8, 8, 4, 4])?;
    let creation_time = u64_at(m, 8);
    let last_access_time = u64_at(m, 16);
    let last_write_time = u64_at(m, 24);
    let change_time = u64_at(m, 32);
    let end_of_file = u64_at(m, 40);
    let allocation_size = u64_at(m, 48);
    let file_attributes = u32_at(m, 56);
    let name_len = u32_at(m, 60);
    let name = part_of(m, 64, name_len as usize, 64, Part::Name)?;
    Ok(DirectoryEntry {
        creation_time,
        last_access_time,
        last_write_time,
        change_time,
        end_of_file,
        allocation_size,
        file_attributes,
        file_id: 0,
        name,
    })
}

fn read_full_directory(m: &[u8]) -> Result<DirectoryEntry<'_>, MessageError>
    ensures { Reads (directory_entry_fault classes.FullDirectory m.now) (SpellsDirectoryEntry classes.FullDirectory
        m.now) directory_entry result }
{
    fields_fit(m, &[4, 4, 8, 8, 8, 8, 8, 8, 4, 4, 4])?;
    let creation_time = u64_at(m, 8);
    let last_access_time = u64_at(m, 16);
    let last_write_time = u64_at(m, 24);
    let change_time = u64_at(m, 32);
    let end_of_file = u64_at(m, 40);
    let allocation_size = u64_at(m, 48);
    let file_attributes = u32_at(m, 56);
    let name_len = u32_at(m, 60);
    let name = part_of(m, 68, name_len as usize, 68, Part::Name)?;
    Ok(DirectoryEntry {
        creation_time,
        last_access_time,
        last_write_time,
        change_time,
        end_of_file,
        allocation_size,
        file_attributes,
        file_id: 0,
        name,
    })
}

fn read_both_directory(m: &[u8]) -> Result<DirectoryEntry<'_>, MessageError>
    ensures { Reads (directory_entry_fault classes.BothDirectory m.now) (SpellsDirectoryEntry classes.BothDirectory
        m.now) directory_entry result }
{
    fields_fit(m, &[4, 4, 8, 8, 8, 8, 8, 8, 4, 4, 4, 1, 1, 24])?;
    let creation_time = u64_at(m, 8);
    let last_access_time = u64_at(m, 16);
    let last_write_time = u64_at(m, 24);
    let change_time = u64_at(m, 32);
    let end_of_file = u64_at(m, 40);
    let allocation_size = u64_at(m, 48);
    let file_attributes = u32_at(m, 56);
    let name_len = u32_at(m, 60);
    let name = part_of(m, 94, name_len as usize, 94, Part::Name)?;
    Ok(DirectoryEntry {
        creation_time,
        last_access_time,
        last_write_time,
        change_time,
        end_of_file,
        allocation_size,
        file_attributes,
        file_id: 0,
        name,
    })
}

fn read_names(m: &[u8]) -> Result<DirectoryEntry<'_>, MessageError>
    ensures { Reads (directory_entry_fault classes.Names m.now) (SpellsDirectoryEntry classes.Names m.now) directory_entry result }
{
    fields_fit(m, &[4, 4, 4])?;
    let name_len = u32_at(m, 8);
    let name = part_of(m, 12, name_len as usize, 12, Part::Name)?;
    Ok(DirectoryEntry {
        creation_time: 0,
        last_access_time: 0,
        last_write_time: 0,
        change_time: 0,
        end_of_file: 0,
        allocation_size: 0,
        file_attributes: 0,
        file_id: 0,
        name,
    })
}

fn read_id_both_directory(m: &[u8]) -> Result<DirectoryEntry<'_>, MessageError>
    ensures { Reads (directory_entry_fault classes.IdBothDirectory m.now) (SpellsDirectoryEntry classes.IdBothDirectory
        m.now) directory_entry result }
{
    fields_fit(m, &[4, 4, 8, 8, 8, 8, 8, 8, 4, 4, 4, 1, 1, 24, 2, 8])?;
    let creation_time = u64_at(m, 8);
    let last_access_time = u64_at(m, 16);
    let last_write_time = u64_at(m, 24);
    let change_time = u64_at(m, 32);
    let end_of_file = u64_at(m, 40);
    let allocation_size = u64_at(m, 48);
    let file_attributes = u32_at(m, 56);
    let name_len = u32_at(m, 60);
    let file_id = u64_at(m, 96);
    let name = part_of(m, 104, name_len as usize, 104, Part::Name)?;
    Ok(DirectoryEntry {
        creation_time,
        last_access_time,
        last_write_time,
        change_time,
        end_of_file,
        allocation_size,
        file_attributes,
        file_id,
        name,
    })
}

fn read_id_full_directory(m: &[u8]) -> Result<DirectoryEntry<'_>, MessageError>
    ensures { Reads (directory_entry_fault classes.IdFullDirectory m.now) (SpellsDirectoryEntry classes.IdFullDirectory
        m.now) directory_entry result }
{
    fields_fit(m, &[4, 4, 8, 8, 8, 8, 8, 8, 4, 4, 4, 4, 8])?;
    let creation_time = u64_at(m, 8);
    let last_access_time = u64_at(m, 16);
    let last_write_time = u64_at(m, 24);
    let change_time = u64_at(m, 32);
    let end_of_file = u64_at(m, 40);
    let allocation_size = u64_at(m, 48);
    let file_attributes = u32_at(m, 56);
    let name_len = u32_at(m, 60);
    let file_id = u64_at(m, 72);
    let name = part_of(m, 80, name_len as usize, 80, Part::Name)?;
    Ok(DirectoryEntry {
        creation_time,
        last_access_time,
        last_write_time,
        change_time,
        end_of_file,
        allocation_size,
        file_attributes,
        file_id,
        name,
    })
}

/// Reads the entry that `m` begins with, laid out by its class (MS-FSCC 2.4). What the class doesn't tell is
/// 0. Where the next entry is, is passed over: `first_entry` tells it.
pub fn read_directory_entry(
    class: DirectoryClass,
    m: &[u8],
) -> Result<DirectoryEntry<'_>, MessageError>
    ensures { Reads (directory_entry_fault class m.now) (SpellsDirectoryEntry class m.now) directory_entry result }
{
    match class {
        DirectoryClass::Directory => read_directory(m),
        DirectoryClass::FullDirectory => read_full_directory(m),
        DirectoryClass::BothDirectory => read_both_directory(m),
        DirectoryClass::Names => read_names(m),
        DirectoryClass::IdBothDirectory => read_id_both_directory(m),
        DirectoryClass::IdFullDirectory => read_id_full_directory(m),
    }
}
