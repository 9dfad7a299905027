ghost use Rattle.std.specs.Prelude.{◌≡◌, ◌≤◌, ◌+◌, ◌++◌, ◌==◌, max, ℕ, false, List, length, Some};
ghost use Rattle.spec_wire.specs.declared.messages.header.Header.{Header};
ghost use Rattle.spec_wire.specs.messages.Ioctl.{IoctlRequestValue, IsWritableIoctlRequest, ioctl_request_spelling};
ghost use Rattle.spec_wire.specs.messages.QueryInfo.{QueryInfoRequestValue, IsWritableQueryInfoRequest, query_info_request_spelling};
ghost use Rattle.spec_exchange.specs.Commands.{Ioctl, QueryFile, QueryVolume};
ghost use Rattle.spec_exchange.specs.Operations.{charge};
ghost use Rattle.spec_commands.specs.Ids.{file_of};
ghost use Rattle.spec_commands.specs.CommandOf.{Told, command_of};

use law_wire::{ioctl_request_law, query_info_request_law};

/// Requests that other clients write are heard as their values: an IOCTL, a QUERY_INFO of the volume, and one of a file in any
/// class but that of extended attributes, where their headers
/// pay for their bytes.
pub fn other_request_law()
    ensures ioctl { (t : Told) (h : Header) (header rest : List ℕ) (v : IoctlRequestValue) → length header ≡ 64
        → IsWritableIoctlRequest v → h.command ≡ 11
        → charge (max (length v.input + length v.output) (v.max_input_response + v.max_output_response)) ≤ h.charge
        → command_of t h (header ++ (ioctl_request_spelling v ++ rest))
        ≡ Some (Ioctl (file_of v.file_id) v.ctl_code v.max_output_response) }
    ensures volume { (t : Told) (h : Header) (header rest : List ℕ) (v : QueryInfoRequestValue)
        → length header ≡ 64 → IsWritableQueryInfoRequest v → h.command ≡ 16 → v.info_type ≡ 2
        → charge (max (length v.input) v.output_buffer_length) ≤ h.charge
        → command_of t h (header ++ (query_info_request_spelling v ++ rest))
        ≡ Some (QueryVolume (file_of v.file_id) v.file_info_class v.output_buffer_length) }
    ensures file { (t : Told) (h : Header) (header rest : List ℕ) (v : QueryInfoRequestValue) → length header ≡ 64
        → IsWritableQueryInfoRequest v → h.command ≡ 16 → v.info_type ≡ 1
        → (v.file_info_class == 15) ≡ false
        → charge (max (length v.input) v.output_buffer_length) ≤ h.charge
        → command_of t h (header ++ (query_info_request_spelling v ++ rest))
        ≡ Some (QueryFile (file_of v.file_id) v.file_info_class v.output_buffer_length) }
{
    ioctl_request_law();
    query_info_request_law();
}
