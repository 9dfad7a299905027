ghost use Rattle.std.specs.Prelude.{◌≡◌, ◌+◌, ◌<◌, ◌^◌, ◌++◌, if◌then◌else◌, length, OnOk};
ghost use Rattle.spec_wire.specs.messages.Places.{gap_to_8, le};
ghost use Rattle.spec_wire.specs.messages.Table.{with_fields};
ghost use Rattle.spec_wire.specs.messages.Directory.{directory_entry_whole, directory_entry_size, entry_size};
ghost use Rattle.spec_wire.specs.declared.messages.directory_class.DirectoryClass.TheVariants as classes;
ghost use Rattle.wire_info.specs.classes.Views.{directory_entry};
ghost use Rattle.wire_info.specs.classes.Listing.{entry_if};

use crate::classes::directory_entry::DirectoryEntry;
use spec_wire::DirectoryClass;
use std::alloc::AllocError;
use wire_bytes::{Out, gap_before};

fn put_directory(out: &mut Out, v: &DirectoryEntry<'_>, next: u32) -> Result<(), AllocError>
    requires { length v.now.name.now < 2 ^ 32 }
    ensures { OnOk result (out.new ≡ with_fields out.old (directory_entry_whole classes.Directory (directory_entry v.now) next)) }
{
    out.put_u32(next)?;
    out.put_u32(0)?;
    out.put_u64(v.creation_time)?;
    out.put_u64(v.last_access_time)?;
    out.put_u64(v.last_write_time)?;
    out.put_u64(v.change_time)?;
    out.put_u64(v.end_of_file)?;
    out.put_u64(v.allocation_size)?;
    out.put_u32(v.file_attributes)?;
    out.put_u32(v.name.len() as u32)?;
    out.put_slice(v.name)
}

fn put_full_directory(out: &mut Out, v: &DirectoryEntry<'_>, next: u32) -> Result<(), AllocError>
    requires { length v.now.name.now < 2 ^ 32 }
    ensures { OnOk result (out.new ≡ with_fields out.old (directory_entry_whole classes.FullDirectory (directory_entry v.now) next)) }
{
    out.put_u32(next)?;
    out.put_u32(0)?;
    out.put_u64(v.creation_time)?;
    out.put_u64(v.last_access_time)?;
    out.put_u64(v.last_write_time)?;
    out.put_u64(v.change_time)?;
    out.put_u64(v.end_of_file)?;
    out.put_u64(v.allocation_size)?;
    out.put_u32(v.file_attributes)?;
    out.put_u32(v.name.len() as u32)?;
    out.put_u32(0)?;
    out.put_slice(v.name)
}

fn put_both_directory(out: &mut Out, v: &DirectoryEntry<'_>, next: u32) -> Result<(), AllocError>
    requires { length v.now.name.now < 2 ^ 32 }
    ensures { OnOk result (out.new ≡ with_fields out.old (directory_entry_whole classes.BothDirectory (directory_entry v.now) next)) }
{
    out.put_u32(next)?;
    out.put_u32(0)?;
    out.put_u64(v.creation_time)?;
    out.put_u64(v.last_access_time)?;
    out.put_u64(v.last_write_time)?;
    out.put_u64(v.change_time)?;
    out.put_u64(v.end_of_file)?;
    out.put_u64(v.allocation_size)?;
    out.put_u32(v.file_attributes)?;
    out.put_u32(v.name.len() as u32)?;
    out.put_u32(0)?;
    out.put_u8(0)?;
    out.put_u8(0)?;
    out.put_zeros(24)?;
    out.put_slice(v.name)
}

fn put_names(out: &mut Out, v: &DirectoryEntry<'_>, next: u32) -> Result<(), AllocError>
    requires { length v.now.name.now < 2 ^ 32 }
    ensures { OnOk result (out.new ≡ with_fields out.old (directory_entry_whole classes.Names (directory_entry v.now) next)) }
{
    out.put_u32(next)?;
    out.put_u32(0)?;
    out.put_u32(v.name.len() as u32)?;
    out.put_slice(v.name)
}

fn put_id_both_directory(out: &mut Out, v: &DirectoryEntry<'_>, next: u32) -> Result<(), AllocError>
    requires { length v.now.name.now < 2 ^ 32 }
    ensures { OnOk result (out.new ≡ with_fields out.old (directory_entry_whole classes.IdBothDirectory (directory_entry v.now) next)) }
{
    out.put_u32(next)?;
    out.put_u32(0)?;
    out.put_u64(v.creation_time)?;
    out.put_u64(v.last_access_time)?;
    out.put_u64(v.last_write_time)?;
    out.put_u64(v.change_time)?;
    out.put_u64(v.end_of_file)?;
    out.put_u64(v.allocation_size)?;
    out.put_u32(v.file_attributes)?;
    out.put_u32(v.name.len() as u32)?;
    out.put_u32(0)?;
    out.put_u8(0)?;
    out.put_u8(0)?;
    out.put_zeros(24)?;
    out.put_u16(0)?;
    out.put_u64(v.file_id)?;
    out.put_slice(v.name)
}

fn put_id_full_directory(out: &mut Out, v: &DirectoryEntry<'_>, next: u32) -> Result<(), AllocError>
    requires { length v.now.name.now < 2 ^ 32 }
    ensures { OnOk result (out.new ≡ with_fields out.old (directory_entry_whole classes.IdFullDirectory (directory_entry v.now) next)) }
{
    out.put_u32(next)?;
    out.put_u32(0)?;
    out.put_u64(v.creation_time)?;
    out.put_u64(v.last_access_time)?;
    out.put_u64(v.last_write_time)?;
    out.put_u64(v.change_time)?;
    out.put_u64(v.end_of_file)?;
    out.put_u64(v.allocation_size)?;
    out.put_u32(v.file_attributes)?;
    out.put_u32(v.name.len() as u32)?;
    out.put_u32(0)?;
    out.put_u32(0)?;
    out.put_u64(v.file_id)?;
    out.put_slice(v.name)
}

// An entry written with the place of the next one, counted from it.
fn put_entry(
    out: &mut Out,
    class: DirectoryClass,
    v: &DirectoryEntry<'_>,
    next: u32,
) -> Result<(), AllocError>
    requires { length v.now.name.now < 2 ^ 32 }
    ensures { OnOk result (out.new ≡ with_fields out.old (directory_entry_whole class (directory_entry v.now) next)) }
{
    match class {
        DirectoryClass::Directory => put_directory(out, v, next),
        DirectoryClass::FullDirectory => put_full_directory(out, v, next),
        DirectoryClass::BothDirectory => put_both_directory(out, v, next),
        DirectoryClass::Names => put_names(out, v, next),
        DirectoryClass::IdBothDirectory => put_id_both_directory(out, v, next),
        DirectoryClass::IdFullDirectory => put_id_full_directory(out, v, next),
    }
}

fn fixed_size(class: DirectoryClass) -> usize
    ensures value { result ≡ entry_size class }
    ensures small { result < 105 }
{
    match class {
        DirectoryClass::Directory => 64,
        DirectoryClass::FullDirectory => 68,
        DirectoryClass::BothDirectory => 94,
        DirectoryClass::Names => 12,
        DirectoryClass::IdBothDirectory => 104,
        DirectoryClass::IdFullDirectory => 80,
    }
}

/// How many bytes an entry takes, without the padding behind it.
pub fn directory_entry_size(class: DirectoryClass, v: &DirectoryEntry<'_>) -> usize
    requires { length v.now.name.now < 2 ^ 31 }
    ensures { result ≡ directory_entry_size class (directory_entry v.now) }
{
    fixed_size(class) + v.name.len()
}

/// Adds an entry at the end of a listing, where more follow or none. Its name must be shorter than 2^31
/// bytes.
pub fn put_directory_entry(
    out: &mut Out,
    class: DirectoryClass,
    v: &DirectoryEntry<'_>,
    more: bool,
) -> Result<(), AllocError>
    requires { length v.now.name.now < 2 ^ 31 }
    ensures { OnOk result (out.new ≡ out.old ++ entry_if more class (directory_entry v.now)) }
{
    if !more {
        return put_entry(out, class, v, 0);
    }
    let size = directory_entry_size(class, v);
    let gap = gap_before(1, size);
    put_entry(out, class, v, size as u32 + gap as u32)?;
    out.put_zeros(gap)
}
