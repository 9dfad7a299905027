//! What a success tells of the volume, of the server's interface and of a file's object id (MS-FSCC 2.1.3.1, 2.5, MS-SMB2
//! 2.2.32.5).
ghost use Rattle.std.specs.Prelude.{◌≡◌, IfOk, ◌∷◌, []};
ghost use Rattle.spec_wire.specs.messages.Utf16.{utf16};
ghost use Rattle.spec_commands.specs.Infos;
ghost use Rattle.spec_wire.specs.messages.VolumeClasses.{file_fs_volume_information_spelling, file_fs_size_information_spelling};
ghost use Rattle.spec_wire.specs.messages.VolumeClasses.{file_fs_device_information_spelling};
ghost use Rattle.spec_wire.specs.messages.VolumeClasses.{file_fs_attribute_information_spelling};
ghost use Rattle.spec_wire.specs.messages.VolumeClasses.{file_fs_full_size_information_spelling};
ghost use Rattle.spec_wire.specs.messages.VolumeClasses.{file_fs_sector_size_information_spelling};
ghost use Rattle.wire_commands.specs.values.Meaning;

use crate::values::Address;
use crate::writing::ids::object_id;
use std::alloc::{AllocError, Global};
use wire_bytes::{Bytes, utf16_of};
use wire_info::{
    FileFsAttributeInformation, FileFsDeviceInformation, FileFsFullSizeInformation,
    FileFsSectorSizeInformation, FileFsSizeInformation, FileFsVolumeInformation, NetworkInterface,
    ObjectIdBuffer, write_file_fs_attribute_information, write_file_fs_device_information,
    write_file_fs_full_size_information, write_file_fs_sector_size_information,
    write_file_fs_size_information, write_file_fs_volume_information, write_network_interface,
    write_object_id_buffer,
};

// The volume's number is 1, and it has no label.
fn volume(alloc: Global) -> Result<Bytes, AllocError>
    ensures { IfOk result (λ b. b ≡ file_fs_volume_information_spelling Infos.volume_value) }
{
    let value = FileFsVolumeInformation {
        volume_creation_time: 0,
        volume_serial_number: 1,
        supports_objects: 0,
        label: &[],
    };
    write_file_fs_volume_information(alloc, &value)
}

fn sizes(alloc: Global, room: u64, used: u64) -> Result<Bytes, AllocError>
    ensures { IfOk result (λ b. b ≡ file_fs_size_information_spelling (Infos.sizes_of room used)) }
{
    let value = FileFsSizeInformation {
        total_allocation_units: room / 4096,
        available_allocation_units: room.saturating_sub(used) / 4096,
        sectors_per_allocation_unit: 8,
        bytes_per_sector: 512,
    };
    write_file_fs_size_information(alloc, &value)
}

fn full_sizes(alloc: Global, room: u64, used: u64) -> Result<Bytes, AllocError>
    ensures { IfOk result (λ b. b ≡ file_fs_full_size_information_spelling (Infos.full_sizes_of room used)) }
{
    let available = room.saturating_sub(used) / 4096;
    let value = FileFsFullSizeInformation {
        total_allocation_units: room / 4096,
        caller_available_allocation_units: available,
        actual_available_allocation_units: available,
        sectors_per_allocation_unit: 8,
        bytes_per_sector: 512,
    };
    write_file_fs_full_size_information(alloc, &value)
}

// A disk that is mounted.
fn device(alloc: Global) -> Result<Bytes, AllocError>
    ensures { IfOk result (λ b. b ≡ file_fs_device_information_spelling (record { device_type = 7; characteristics = 0x20 })) }
{
    let value = FileFsDeviceInformation {
        device_type: 7,
        characteristics: 0x20,
    };
    write_file_fs_device_information(alloc, &value)
}

// Names keep their case, 2, and are Unicode, 4. `NTFS` is 8 bytes in UTF-16.
#[tactic(auto, unfolding(spec_wire::specs::messages::Utf16::utf16, spec_wire::specs::messages::Places::le, spec_exchange::specs::Texts::chars))]
fn ntfs() -> [u8; 8]
    ensures { result ≡ utf16 (78 ∷ 84 ∷ 70 ∷ 83 ∷ []) }
{
    [78, 0, 84, 0, 70, 0, 83, 0]
}

fn attributes(alloc: Global) -> Result<Bytes, AllocError>
    ensures { IfOk result (λ b. b ≡ file_fs_attribute_information_spelling Infos.file_system) }
{
    let name = ntfs();
    let value = FileFsAttributeInformation {
        file_system_attributes: 6,
        maximum_component_name_length: 1024,
        name: &name,
    };
    write_file_fs_attribute_information(alloc, &value)
}

// Sectors of 512 bytes on a disk whose own have 4,096, at which device (1) and partition (2) are aligned.
fn sectors(alloc: Global) -> Result<Bytes, AllocError>
    ensures { IfOk result (λ b. b ≡ file_fs_sector_size_information_spelling Infos.sectors) }
{
    let value = FileFsSectorSizeInformation {
        logical_bytes_per_sector: 512,
        physical_bytes_per_sector_for_atomicity: 4096,
        physical_bytes_per_sector_for_performance: 4096,
        file_system_effective_physical_bytes_per_sector_for_atomicity: 4096,
        flags: 3,
        byte_offset_for_sector_alignment: 0,
        byte_offset_for_partition_alignment: 0,
    };
    write_file_fs_sector_size_information(alloc, &value)
}

/// What a QUERY_INFO of the volume answers by its class: 1, 3, 4, 5, 11, and 7 for any other. `room` and `used` count bytes.
#[tactic(auto, unfolding(spec_commands::specs::Infos::volume_bytes))]
pub(crate) fn volume_bytes(
    alloc: Global,
    class: u8,
    room: u64,
    used: u64,
) -> Result<Bytes, AllocError>
    ensures { IfOk result (λ b. b ≡ Infos.volume_bytes class room used) }
{
    match class {
        1 => volume(alloc),
        3 => sizes(alloc, room, used),
        4 => device(alloc),
        5 => attributes(alloc),
        11 => sectors(alloc),
        _ => full_sizes(alloc, room, used),
    }
}

/// The one interface of the server, of IPv4 at 10 Gbit/s. The address has its highest byte first; the port is reserved.
#[tactic(auto, unfolding(spec_commands::specs::Infos::interface_bytes))]
pub(crate) fn interface_bytes(alloc: Global, address: &Address) -> Result<Bytes, AllocError>
    ensures { IfOk result (λ b. b ≡ Infos.interface_bytes (Meaning.address_of address.now)) }
{
    let ip = address.ip;
    let value = NetworkInterface {
        next: 0,
        if_index: 1,
        capability: 0,
        link_speed: 10_000_000_000,
        family: 2,
        port: [0, 0],
        address: [
            (ip / 0x100_0000) as u8,
            (ip / 0x1_0000 % 256) as u8,
            (ip / 256 % 256) as u8,
            (ip % 256) as u8,
        ],
    };
    write_network_interface(alloc, &value)
}

/// An object id, of which 16 zeros say that the volume has none.
#[tactic(auto, unfolding(spec_commands::specs::Infos::object_id_bytes, spec_wire::specs::messages::Places::le))]
pub(crate) fn object_id_bytes(alloc: Global, file: u64) -> Result<Bytes, AllocError>
    ensures { IfOk result (λ b. b ≡ Infos.object_id_bytes file) }
{
    let value = ObjectIdBuffer {
        object_id: object_id(file),
        birth_volume_id: [0; 16],
        birth_object_id: object_id(file),
    };
    write_object_id_buffer(alloc, &value)
}
