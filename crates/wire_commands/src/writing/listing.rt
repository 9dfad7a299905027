//! The entries of a listing (MS-FSCC 2.4).
ghost use Rattle.std.specs.Prelude.{◌≡◌, ◌+◌, ◌<◌, ◌^◌, nat_lt, Bool, map, length};
ghost use Rattle.spec_wire.specs.messages.Directory.{listing_spelling};
ghost use Rattle.spec_wire.specs.messages.Utf16.{utf16};
ghost use Rattle.wire_info.specs.classes.Views.{directory_entry};
ghost use Rattle.wire_info.specs.classes.Listing.{entry_if};
ghost use Rattle.spec_exchange.specs.State as says;
ghost use Rattle.spec_commands.specs.Infos;
ghost use Rattle.spec_commands.specs.Tables;
ghost use Rattle.wire_commands.specs.values.Meaning;
ghost use Rattle.spec_commands.specs.Fits.{AreListed, AreListedIn};
ghost use Rattle.wire_commands.specs.writing.Writing.{BodyWrites, BodyPuts, FullEntry};

use crate::values::{Info, Named, directory_class};
use crate::writing::fault::WriteError;
use crate::writing::infos::{allocation, attributes_of};
use std::alloc::Global;
use wire_bytes::{Bytes, Out, utf16_of};
use wire_info::{DirectoryClass, DirectoryEntry, put_directory_entry};

// An entry of a class that tells more than names, with the number of the file or 0.
fn full_entry<'a>(info: &Info, file: u64, name: &'a [u8]) -> DirectoryEntry<'a>
    ensures { FullEntry (directory_entry result) (Meaning.info_of info.now) file name.now }
{
    DirectoryEntry {
        creation_time: info.times.created,
        last_access_time: info.times.accessed,
        last_write_time: info.times.written,
        change_time: info.times.changed,
        end_of_file: info.size,
        allocation_size: allocation(info.size),
        file_attributes: attributes_of(info),
        file_id: file,
        name,
    }
}

fn only_name(name: &[u8]) -> DirectoryEntry<'_>
    ensures { directory_entry result ≡ Infos.only_name name.now }
{
    DirectoryEntry {
        creation_time: 0,
        last_access_time: 0,
        last_write_time: 0,
        change_time: 0,
        end_of_file: 0,
        allocation_size: 0,
        file_attributes: 0,
        file_id: 0,
        name,
    }
}

// The entry of a file whose name is these bytes in UTF-16.
#[tactic(auto, using(crate::proofs::writing::Listed::told_entries))]
fn entry_of<'a>(class: DirectoryClass, info: &Info, name: &'a [u8]) -> DirectoryEntry<'a>
    ensures told { (n : says.Named) (more : Bool) → n.info ≡ Meaning.info_of info.now → utf16 n.name ≡ name.now
        → entry_if more class (directory_entry result) ≡ entry_if more class (Infos.entry_of class n) }
    ensures name { result.name.now ≡ name.now }
{
    match class {
        DirectoryClass::Names => only_name(name),
        DirectoryClass::IdBothDirectory => full_entry(info, info.file, name),
        DirectoryClass::IdFullDirectory => full_entry(info, info.file, name),
        DirectoryClass::Directory => full_entry(info, 0, name),
        DirectoryClass::FullDirectory => full_entry(info, 0, name),
        DirectoryClass::BothDirectory => full_entry(info, 0, name),
    }
}

// One entry behind others, with whether more follow.
fn put_named(
    alloc: Global,
    out: &mut Out,
    class: DirectoryClass,
    named: &Named,
    more: bool,
) -> Result<(), WriteError>
    ensures { BodyPuts (length (utf16 named.now.name) < 2 ^ 31)
        (entry_if more class (Infos.entry_of class (Meaning.named_of named.now))) out.old out.new result }
{
    let name = utf16_of(alloc, named.name.as_str())?;
    if name.len() >= 0x8000_0000 {
        return Err(WriteError::Unwritable);
    }
    let entry = entry_of(class, &named.info, name.as_slice());
    put_directory_entry(out, class, &entry, more)?;
    Ok(())
}

pub(crate) fn has_more(at: usize, count: usize) -> bool
    requires { at < count }
    ensures { result ≡ nat_lt (at + 1) count }
{
    at + 1 < count
}

fn entries_bytes(
    alloc: Global,
    class: DirectoryClass,
    entries: &[Named],
) -> Result<Bytes, WriteError>
    ensures { BodyWrites (AreListed (map Meaning.named_of entries.now))
        (listing_spelling class (Infos.entries_of class (map Meaning.named_of entries.now))) result }
{
    let mut out = Out::new(alloc);
    for at in 0..entries.len() {
        let more = has_more(at, entries.len());
        match put_named(alloc, &mut out, class, &entries[at], more) {
            Ok(()) => (),
            Err(error) => return Err(error),
        }
    }
    Ok(out.finish())
}

/// The entries of a listing by their class; no bytes where it is no class of a listing.
#[tactic(auto, unfolding(spec_commands::specs::Infos::listing_bytes))]
pub(crate) fn listing_bytes(
    alloc: Global,
    class: u8,
    entries: &[Named],
) -> Result<Bytes, WriteError>
    ensures { BodyWrites (AreListedIn (Tables.directory_class class) (map Meaning.named_of entries.now))
        (Infos.listing_bytes class (map Meaning.named_of entries.now)) result }
{
    match directory_class(class) {
        Some(class) => entries_bytes(alloc, class, entries),
        None => Ok(Bytes::new(alloc)),
    }
}
