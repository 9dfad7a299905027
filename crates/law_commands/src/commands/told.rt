ghost use Rattle.std.specs.Prelude.{◌≡◌, ◌^◌, ◌∷◌, ◌<◌, ◌++◌, ℕ, Bool, true, false, List, [], length, None, Some};
ghost use Rattle.spec_wire.specs.messages.Utf16.{utf16};
ghost use Rattle.spec_wire.specs.messages.Ioctl.{ioctl_response_fault, ioctl_response_in};
ghost use Rattle.spec_wire.specs.messages.QueryInfo.{query_info_response_fault, query_info_response_in};
ghost use Rattle.spec_wire.specs.messages.Interfaces.{network_interface_fault, network_interface_in};
ghost use Rattle.spec_wire.specs.messages.ObjectIds.{object_id_buffer_fault, object_id_buffer_in};
ghost use Rattle.spec_wire.specs.messages.FileClasses as files;
ghost use Rattle.spec_wire.specs.messages.VolumeClasses as volumes;
ghost use Rattle.spec_exchange.specs.Commands.{Close, Ioctl, QueryFile, QueryVolume};
ghost use Rattle.spec_exchange.specs.State.{Info, Address, Closed, Empty, Interfaces, ObjectId, FileInfo, VolumeInfo};
ghost use Rattle.spec_commands.specs.Infos as infos;
ghost use Rattle.spec_commands.specs.ReplyBody.{success_body, interfaces_value, object_id_value};
ghost use Rattle.spec_commands.specs.ReplyOf.{body_in};
ghost use Rattle.law_commands.specs.commands.Fitting.{IsInfo};

use law_wire::{
    close_response_law, file_access_information_law, file_alignment_information_law,
    file_all_information_law, file_basic_information_law, file_ea_information_law,
    file_fs_attribute_information_law, file_fs_device_information_law,
    file_fs_full_size_information_law, file_fs_sector_size_information_law,
    file_fs_size_information_law, file_fs_volume_information_law, file_internal_information_law,
    file_mode_information_law, file_name_information_law, file_network_open_information_law,
    file_position_information_law, file_stream_information_law, ioctl_response_law,
    network_interface_law, object_id_buffer_law, query_info_response_law,
};

/// What this client doesn't look at reads back all the same by the tables of the messages: the output of a QUERY_INFO's
/// response, and an IOCTL's response. A CLOSE's times and lengths are passed over.
pub fn output_law()
    ensures volume { (header rest token : List ℕ) (file class room told size used : ℕ) → length header ≡ 64
        → let m = header ++ (success_body token (QueryVolume file class room) (VolumeInfo told size used) ++ rest)
        in (query_info_response_fault m ≡ None)
        × ((query_info_response_in m).output ≡ infos.volume_bytes told size used) }
    ensures file { (header rest token : List ℕ) (file class room told : ℕ) (path : List ℕ) (info : Info)
        (access options position : ℕ) → length header ≡ 64 → length (infos.file_bytes told path info access options position) < 256 ^ 4
        → let m = header ++ (success_body token (QueryFile file class room) (FileInfo told path info access options position)
        ++ rest) in (query_info_response_fault m ≡ None)
        × ((query_info_response_in m).output ≡ infos.file_bytes told path info access options position) }
    ensures ioctl { (header rest token : List ℕ) (file code room : ℕ) (address : Address) → length header ≡ 64
        → code < 256 ^ 4
        → let m = header ++ (success_body token (Ioctl file code room) (Interfaces address) ++ rest)
        in (ioctl_response_fault m ≡ None) × (ioctl_response_in m ≡ interfaces_value file code address) }
    ensures object_id { (header rest token : List ℕ) (file code room number : ℕ) → length header ≡ 64
        → code < 256 ^ 4
        → let m = header ++ (success_body token (Ioctl file code room) (ObjectId number) ++ rest)
        in (ioctl_response_fault m ≡ None) × (ioctl_response_in m ≡ object_id_value file code number) }
    ensures close { (header rest token : List ℕ) (file : ℕ) (query : Bool) (info : Info) → length header ≡ 64
        → IsInfo info
        → body_in (Close file query) (header ++ (success_body token (Close file query) (Closed info) ++ rest))
        ≡ Some Empty }
{
    query_info_response_law();
    ioctl_response_law();
    close_response_law();
}

/// The output reads as the class that it tells: of a volume 1, 3, 4, 5, 7 and 11, of a file 4, 6, 7, 8, 9, 14, 16, 17, 18, 22
/// and 34 (5 is what this client asks, by `reply_law`), and of an IOCTL the interface or the object id.
pub fn class_law()
    ensures volume { (room used : ℕ)
        → (volumes.file_fs_volume_information_fault (infos.volume_bytes 1 room used) ≡ None)
        × (volumes.file_fs_volume_information_in (infos.volume_bytes 1 room used) ≡ infos.volume_value) }
    ensures size { (room used : ℕ) → room < 256 ^ 8
        → (volumes.file_fs_size_information_fault (infos.volume_bytes 3 room used) ≡ None)
        × (volumes.file_fs_size_information_in (infos.volume_bytes 3 room used) ≡ infos.sizes_of room used) }
    ensures device { (room used : ℕ)
        → (volumes.file_fs_device_information_fault (infos.volume_bytes 4 room used) ≡ None)
        × (volumes.file_fs_device_information_in (infos.volume_bytes 4 room used)
        ≡ record { device_type = 7; characteristics = 0x20 }) }
    ensures system { (room used : ℕ)
        → (volumes.file_fs_attribute_information_fault (infos.volume_bytes 5 room used) ≡ None)
        × (volumes.file_fs_attribute_information_in (infos.volume_bytes 5 room used) ≡ infos.file_system) }
    ensures full_size { (room used : ℕ) → room < 256 ^ 8
        → (volumes.file_fs_full_size_information_fault (infos.volume_bytes 7 room used) ≡ None)
        × (volumes.file_fs_full_size_information_in (infos.volume_bytes 7 room used) ≡ infos.full_sizes_of room used) }
    ensures sectors { (room used : ℕ)
        → (volumes.file_fs_sector_size_information_fault (infos.volume_bytes 11 room used) ≡ None)
        × (volumes.file_fs_sector_size_information_in (infos.volume_bytes 11 room used) ≡ infos.sectors) }
    ensures basic { (path : List ℕ) (i : Info) (access options position : ℕ) → IsInfo i
        → (files.file_basic_information_fault (infos.file_bytes 4 path i access options position) ≡ None)
        × (files.file_basic_information_in (infos.file_bytes 4 path i access options position) ≡ infos.basic_of i) }
    ensures internal { (path : List ℕ) (i : Info) (access options position : ℕ) → IsInfo i
        → (files.file_internal_information_fault (infos.file_bytes 6 path i access options position) ≡ None)
        × (files.file_internal_information_in (infos.file_bytes 6 path i access options position)
        ≡ record { index_number = i.file }) }
    ensures all { (path : List ℕ) (i : Info) (access options position : ℕ) → IsInfo i → length (utf16 (92 ∷ path)) < 256 ^ 4
        → access < 256 ^ 4 → position < 256 ^ 8
        → (files.file_all_information_fault (infos.file_bytes 18 path i access options position) ≡ None)
        × (files.file_all_information_in (infos.file_bytes 18 path i access options position)
        ≡ infos.all_of path i access options position) }
    ensures network_open { (path : List ℕ) (i : Info) (access options position : ℕ) → IsInfo i
        → (files.file_network_open_information_fault (infos.file_bytes 34 path i access options position) ≡ None)
        × (files.file_network_open_information_in (infos.file_bytes 34 path i access options position)
        ≡ infos.network_open_of i) }
    ensures attributes { (path : List ℕ) (i : Info) (access options position : ℕ)
        → (files.file_ea_information_fault (infos.file_bytes 7 path i access options position) ≡ None)
        × (files.file_ea_information_in (infos.file_bytes 7 path i access options position) ≡ record { ea_size = 0 }) }
    ensures access { (path : List ℕ) (i : Info) (access options position : ℕ) → access < 256 ^ 4
        → (files.file_access_information_fault (infos.file_bytes 8 path i access options position) ≡ None)
        × (files.file_access_information_in (infos.file_bytes 8 path i access options position)
        ≡ record { access_flags = access }) }
    ensures mode { (path : List ℕ) (i : Info) (access options position : ℕ)
        → (files.file_mode_information_fault (infos.file_bytes 16 path i access options position) ≡ None)
        × (files.file_mode_information_in (infos.file_bytes 16 path i access options position) ≡ record { mode = 0 }) }
    ensures alignment { (path : List ℕ) (i : Info) (access options position : ℕ)
        → (files.file_alignment_information_fault (infos.file_bytes 17 path i access options position) ≡ None)
        × (files.file_alignment_information_in (infos.file_bytes 17 path i access options position)
        ≡ record { alignment_requirement = 0 }) }
    ensures position { (path : List ℕ) (i : Info) (access options position : ℕ) → position < 256 ^ 8
        → (files.file_position_information_fault (infos.file_bytes 14 path i access options position) ≡ None)
        × (files.file_position_information_in (infos.file_bytes 14 path i access options position)
        ≡ record { current_byte_offset = position }) }
    ensures name { (path : List ℕ) (i : Info) (access options position : ℕ) → length (utf16 (92 ∷ path)) < 256 ^ 4
        → (files.file_name_information_fault (infos.file_bytes 9 path i access options position) ≡ None)
        × (files.file_name_information_in (infos.file_bytes 9 path i access options position)
        ≡ record { name = utf16 (92 ∷ path) }) }
    ensures stream { (path : List ℕ) (i : Info) (access options position : ℕ) → IsInfo i → i.is_directory ≡ false
        → (files.file_stream_information_fault (infos.file_bytes 22 path i access options position) ≡ None)
        × (files.file_stream_information_in (infos.file_bytes 22 path i access options position) ≡ infos.stream_of i) }
    ensures no_stream { (path : List ℕ) (i : Info) (access options position : ℕ) → i.is_directory ≡ true
        → infos.file_bytes 22 path i access options position ≡ [] }
    ensures interface { (address : Address) → address.ip < 256 ^ 4
        → (network_interface_fault (infos.interface_bytes address) ≡ None)
        × (network_interface_in (infos.interface_bytes address) ≡ infos.interface_of address) }
    ensures object_id { (file : ℕ) → (object_id_buffer_fault (infos.object_id_bytes file) ≡ None)
        × (object_id_buffer_in (infos.object_id_bytes file) ≡ infos.object_id_of file) }
{
    file_fs_volume_information_law();
    file_fs_size_information_law();
    file_fs_device_information_law();
    file_fs_attribute_information_law();
    file_fs_full_size_information_law();
    file_fs_sector_size_information_law();
    file_basic_information_law();
    file_internal_information_law();
    file_all_information_law();
    file_network_open_information_law();
    file_ea_information_law();
    file_access_information_law();
    file_mode_information_law();
    file_alignment_information_law();
    file_position_information_law();
    file_name_information_law();
    file_stream_information_law();
    network_interface_law();
    object_id_buffer_law();
}
