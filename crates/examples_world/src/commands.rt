//! What bytes ask and tell, computed by the checker on bytes that were laid out by hand from the standard's tables.
#![tactic(auto, unfolding(crate::specs::commands::Computed::computed))]

ghost use Rattle.std.specs.Prelude.{◌≡◌, ℕ, [], ◌∷◌, ◌++◌, true, false, Some, None};
ghost use Rattle.spec_exchange.specs.Commands.{Close, Read, Write, ListDirectory, TreeConnect, Create, Unreadable, SetInfo};
ghost use Rattle.spec_exchange.specs.Commands.{SetPosition, SetMode};
ghost use Rattle.spec_exchange.specs.State.{Count, Empty, Listing};
ghost use Rattle.spec_commands.specs.Charges.{payload};
ghost use Rattle.spec_commands.specs.CommandOf.{command_of};
ghost use Rattle.spec_commands.specs.BodyOf.{body_of};
ghost use Rattle.spec_commands.specs.Ids.{file_kept};
ghost use Rattle.spec_commands.specs.ReplyBody.{reply_body};
ghost use Rattle.spec_commands.specs.ReplyOf.{reply_of};
ghost use Rattle.spec_wire.specs.messages.Places.{le};
ghost use Rattle.spec_commands.specs.Infos.{attributes_of, interface_bytes, object_id_bytes, file_bytes, volume_bytes};
ghost use Rattle.examples_world.specs.commands.Samples.{header_of, charged, a_read, told, zeros, a_create, replied, two_names, with_attributes, a_plain_create, creating, a_context, an_attaching, old_ask, old_again, maximal, disk, a_unit, half_a_pair, with_size};

/// A CLOSE that asks for times and lengths (MS-SMB2 2.2.15).
pub fn close_example()
    ensures asked { command_of told (header_of 6 0) (zeros ++ 24 ∷ 0 ∷ 1 ∷ 0 ∷ 0 ∷ 0 ∷ 0 ∷ 0 ∷ 5 ∷ 0 ∷ 0 ∷ 0 ∷ 0 ∷ 0 ∷ 0 ∷ 0 ∷ 5
        ∷ 0 ∷ 0 ∷ 0 ∷ 0 ∷ 0 ∷ 0 ∷ 0 ∷ []) ≡ Some (Close 5 true) }
    ensures written { body_of (Close 5 true)
        ≡ 24 ∷ 0 ∷ 1 ∷ 0 ∷ 0 ∷ 0 ∷ 0 ∷ 0 ∷ 5 ∷ 0 ∷ 0 ∷ 0 ∷ 0 ∷ 0 ∷ 0 ∷ 0 ∷ 5 ∷ 0 ∷ 0 ∷ 0 ∷ 0 ∷ 0 ∷ 0 ∷ 0 ∷ [] }
{}

/// The FileId of the halves 1 and 3 is kept as 1 and twice 2^64, that of the halves 3 and 2 as 3 and 2^64 - 1 times 2^64 (2.2.14.1). A
/// CLOSE gives the first one back as its 16 bytes, and names no open by them here.
pub fn file_ids_example()
    ensures above { file_kept (1 ∷ 0 ∷ 0 ∷ 0 ∷ 0 ∷ 0 ∷ 0 ∷ 0 ∷ 3 ∷ 0 ∷ 0 ∷ 0 ∷ 0 ∷ 0 ∷ 0 ∷ 0 ∷ []) ≡ 0x2_0000_0000_0000_0001 }
    ensures below { file_kept (3 ∷ 0 ∷ 0 ∷ 0 ∷ 0 ∷ 0 ∷ 0 ∷ 0 ∷ 2 ∷ 0 ∷ 0 ∷ 0 ∷ 0 ∷ 0 ∷ 0 ∷ 0 ∷ [])
        ≡ 0xffff_ffff_ffff_ffff_0000_0000_0000_0003 }
    ensures same { file_kept (5 ∷ 0 ∷ 0 ∷ 0 ∷ 0 ∷ 0 ∷ 0 ∷ 0 ∷ 5 ∷ 0 ∷ 0 ∷ 0 ∷ 0 ∷ 0 ∷ 0 ∷ 0 ∷ []) ≡ 5 }
    ensures given_back { body_of (Close 0x2_0000_0000_0000_0001 true)
        ≡ 24 ∷ 0 ∷ 1 ∷ 0 ∷ 0 ∷ 0 ∷ 0 ∷ 0 ∷ 1 ∷ 0 ∷ 0 ∷ 0 ∷ 0 ∷ 0 ∷ 0 ∷ 0 ∷ 3 ∷ 0 ∷ 0 ∷ 0 ∷ 0 ∷ 0 ∷ 0 ∷ 0 ∷ [] }
    ensures unknown { command_of told (header_of 6 0) (zeros ++ 24 ∷ 0 ∷ 1 ∷ 0 ∷ 0 ∷ 0 ∷ 0 ∷ 0 ∷ 1 ∷ 0 ∷ 0 ∷ 0 ∷ 0 ∷ 0 ∷ 0 ∷ 0 ∷ 3
        ∷ 0 ∷ 0 ∷ 0 ∷ 0 ∷ 0 ∷ 0 ∷ 0 ∷ []) ≡ Some (Close 0 true) }
{}

/// A TREE_CONNECT to `\\s\d` names the share d (2.2.9).
pub fn tree_connect_example()
    ensures { command_of told (header_of 3 0) (zeros ++ 9 ∷ 0 ∷ 0 ∷ 0 ∷ 72 ∷ 0 ∷ 10 ∷ 0 ∷ 92 ∷ 0 ∷ 92 ∷ 0 ∷ 115 ∷ 0 ∷ 92
        ∷ 0 ∷ 100 ∷ 0 ∷ []) ≡ Some (TreeConnect (100 ∷ [])) }
{}

/// A CREATE of `a` with a DH2Q (2.2.13, 2.2.13.2.11).
pub fn create_example()
    ensures asked { command_of told (header_of 5 0) (zeros ++ 57 ∷ 0 ∷ 0 ∷ 0 ∷ 2 ∷ 0 ∷ 0 ∷ 0 ∷ 0 ∷ 0 ∷ 0 ∷ 0 ∷ 0 ∷ 0 ∷ 0 ∷ 0 ∷ 0
        ∷ 0 ∷ 0 ∷ 0 ∷ 0 ∷ 0 ∷ 0 ∷ 0 ∷ 2 ∷ 1 ∷ 0 ∷ 0 ∷ 0 ∷ 0 ∷ 0 ∷ 0 ∷ 1 ∷ 0 ∷ 0 ∷ 0 ∷ 3 ∷ 0 ∷ 0 ∷ 0 ∷ 64 ∷ 0 ∷ 0 ∷ 0
        ∷ 120 ∷ 0 ∷ 2 ∷ 0 ∷ 128 ∷ 0 ∷ 0 ∷ 0 ∷ 56 ∷ 0 ∷ 0 ∷ 0 ∷ 97 ∷ 0 ∷ 0 ∷ 0 ∷ 0 ∷ 0 ∷ 0 ∷ 0 ∷ 0 ∷ 0 ∷ 0 ∷ 0 ∷ 16 ∷ 0
        ∷ 4 ∷ 0 ∷ 0 ∷ 0 ∷ 24 ∷ 0 ∷ 32 ∷ 0 ∷ 0 ∷ 0 ∷ 68 ∷ 72 ∷ 50 ∷ 81 ∷ 0 ∷ 0 ∷ 0 ∷ 0 ∷ 0 ∷ 0 ∷ 0 ∷ 0 ∷ 2 ∷ 0 ∷ 0 ∷ 0
        ∷ 0 ∷ 0 ∷ 0 ∷ 0 ∷ 0 ∷ 0 ∷ 0 ∷ 0 ∷ 7 ∷ 0 ∷ 0 ∷ 0 ∷ 0 ∷ 0 ∷ 0 ∷ 0 ∷ 0 ∷ 0 ∷ 0 ∷ 0 ∷ 0 ∷ 0 ∷ 0 ∷ 0 ∷ [])
        ≡ Some (Create a_create) }
    ensures written { body_of (Create a_create)
        ≡ 57 ∷ 0 ∷ 0 ∷ 0 ∷ 2 ∷ 0 ∷ 0 ∷ 0 ∷ 0 ∷ 0 ∷ 0 ∷ 0 ∷ 0 ∷ 0 ∷ 0 ∷ 0 ∷ 0 ∷ 0 ∷ 0 ∷ 0 ∷ 0 ∷ 0 ∷ 0 ∷ 0 ∷ 2 ∷ 1 ∷ 0 ∷ 0
        ∷ 0 ∷ 0 ∷ 0 ∷ 0 ∷ 1 ∷ 0 ∷ 0 ∷ 0 ∷ 3 ∷ 0 ∷ 0 ∷ 0 ∷ 64 ∷ 0 ∷ 0 ∷ 0 ∷ 120 ∷ 0 ∷ 2 ∷ 0 ∷ 128 ∷ 0 ∷ 0 ∷ 0 ∷ 56 ∷ 0
        ∷ 0 ∷ 0 ∷ 97 ∷ 0 ∷ 0 ∷ 0 ∷ 0 ∷ 0 ∷ 0 ∷ 0 ∷ 0 ∷ 0 ∷ 0 ∷ 0 ∷ 16 ∷ 0 ∷ 4 ∷ 0 ∷ 0 ∷ 0 ∷ 24 ∷ 0 ∷ 32 ∷ 0 ∷ 0 ∷ 0 ∷ 68
        ∷ 72 ∷ 50 ∷ 81 ∷ 0 ∷ 0 ∷ 0 ∷ 0 ∷ 0 ∷ 0 ∷ 0 ∷ 0 ∷ 2 ∷ 0 ∷ 0 ∷ 0 ∷ 0 ∷ 0 ∷ 0 ∷ 0 ∷ 0 ∷ 0 ∷ 0 ∷ 0 ∷ 7 ∷ 0 ∷ 0 ∷ 0
        ∷ 0 ∷ 0 ∷ 0 ∷ 0 ∷ 0 ∷ 0 ∷ 0 ∷ 0 ∷ 0 ∷ 0 ∷ 0 ∷ 0 ∷ [] }
{}

/// Two contexts of one name are refused, whichever name it is, and DH2C beside DHnQ or DHnC (3.3.5.9.12). Other contexts stand
/// together: without DH2C those of the first version are passed over.
pub fn clashing_contexts_example()
    ensures twice { command_of told (header_of 5 0) (creating a_unit 48 (a_context 24 maximal ++ a_context 0 maximal))
        ≡ Some (Unreadable 0xc000000d) }
    ensures unknown_twice { command_of told (header_of 5 0) (creating a_unit 48 (a_context 24 (1 ∷ 2 ∷ 3 ∷ 4 ∷ [])
        ++ a_context 0 (1 ∷ 2 ∷ 3 ∷ 4 ∷ []))) ≡ Some (Unreadable 0xc000000d) }
    ensures apart { command_of told (header_of 5 0) (creating a_unit 48 (a_context 24 maximal ++ a_context 0 disk))
        ≡ Some (Create (a_plain_create true true)) }
    ensures asked { command_of told (header_of 5 0) (creating a_unit 88 (an_attaching 64 ++ a_context 0 old_ask))
        ≡ Some (Unreadable 0xc000000d) }
    ensures attached { command_of told (header_of 5 0) (creating a_unit 88 (a_context 24 old_again ++ an_attaching 0))
        ≡ Some (Unreadable 0xc000000d) }
    ensures passed { command_of told (header_of 5 0) (creating a_unit 48 (a_context 24 old_ask ++ a_context 0 old_again))
        ≡ Some (Create (a_plain_create false false)) }
{}

/// A name that is no text is told before contexts that clash, and with DH2C it isn't looked at.
pub fn clash_behind_a_name_example()
    ensures name { command_of told (header_of 5 0) (creating half_a_pair 48 (a_context 24 maximal ++ a_context 0 maximal))
        ≡ Some (Unreadable 0xc0000033) }
    ensures attaching { command_of told (header_of 5 0) (creating half_a_pair 88 (an_attaching 64 ++ a_context 0 old_ask))
        ≡ Some (Unreadable 0xc000000d) }
    ensures twice { command_of told (header_of 5 0) (creating half_a_pair 128 (an_attaching 64 ++ an_attaching 0))
        ≡ Some (Unreadable 0xc000000d) }
{}

/// What is left out, an unknown class, a short body and a CANCEL (2.2.35, 2.2.37, 2.2.30).
pub fn unreadable_example()
    ensures notify { command_of told (header_of 15 0) zeros ≡ Some (Unreadable 0xc00000bb) }
    ensures attributes { command_of told (header_of 16 0) (zeros ++ 41 ∷ 0 ∷ 1 ∷ 15 ∷ 64 ∷ 0 ∷ 0 ∷ 0 ∷ 0 ∷ 0 ∷ 0 ∷ 0 ∷ 0 ∷ 0 ∷ 0 ∷ 0
        ∷ 0 ∷ 0 ∷ 0 ∷ 0 ∷ 0 ∷ 0 ∷ 0 ∷ 0 ∷ 5 ∷ 0 ∷ 0 ∷ 0 ∷ 0 ∷ 0 ∷ 0 ∷ 0 ∷ 5 ∷ 0 ∷ 0 ∷ 0 ∷ 0 ∷ 0 ∷ 0 ∷ 0 ∷ [])
        ≡ Some (Unreadable 0xc00000bb) }
    ensures unknown { command_of told (header_of 16 0) (zeros ++ 41 ∷ 0 ∷ 1 ∷ 99 ∷ 64 ∷ 0 ∷ 0 ∷ 0 ∷ 0 ∷ 0 ∷ 0 ∷ 0 ∷ 0 ∷ 0 ∷ 0 ∷ 0
        ∷ 0 ∷ 0 ∷ 0 ∷ 0 ∷ 0 ∷ 0 ∷ 0 ∷ 0 ∷ 5 ∷ 0 ∷ 0 ∷ 0 ∷ 0 ∷ 0 ∷ 0 ∷ 0 ∷ 5 ∷ 0 ∷ 0 ∷ 0 ∷ 0 ∷ 0 ∷ 0 ∷ 0 ∷ [])
        ≡ Some (Unreadable 0xc0000003) }
    ensures short { command_of told (header_of 7 0) zeros ≡ Some (Unreadable 0xc000000d) }
    ensures cancel { command_of told (header_of 12 0) zeros ≡ None }
{}

/// A position and a mode that are set (2.2.39, MS-FSCC 2.4.35, 2.4.26): a mode's bits are passed over, and a position is 8 bytes.
pub fn further_settings_example()
    ensures position { command_of told (header_of 17 0) (zeros ++ 33 ∷ 0 ∷ 1 ∷ 14 ∷ 8 ∷ 0 ∷ 0 ∷ 0 ∷ 96 ∷ 0 ∷ 0 ∷ 0 ∷ 0 ∷ 0 ∷ 0 ∷ 0 ∷ 5 ∷ 0 ∷ 0 ∷ 0 ∷ 0 ∷ 0 ∷ 0 ∷ 0 ∷ 5 ∷ 0 ∷ 0
        ∷ 0 ∷ 0 ∷ 0 ∷ 0 ∷ 0 ∷ 9 ∷ 0 ∷ 0 ∷ 0 ∷ 0 ∷ 0 ∷ 0 ∷ 0 ∷ [])
        ≡ Some (SetInfo 5 (SetPosition 9)) }
    ensures position_written { body_of (SetInfo 5 (SetPosition 9))
        ≡ 33 ∷ 0 ∷ 1 ∷ 14 ∷ 8 ∷ 0 ∷ 0 ∷ 0 ∷ 96 ∷ 0 ∷ 0 ∷ 0 ∷ 0 ∷ 0 ∷ 0 ∷ 0 ∷ 5 ∷ 0 ∷ 0 ∷ 0 ∷ 0 ∷ 0 ∷ 0 ∷ 0 ∷ 5 ∷ 0 ∷ 0
        ∷ 0 ∷ 0 ∷ 0 ∷ 0 ∷ 0 ∷ 9 ∷ 0 ∷ 0 ∷ 0 ∷ 0 ∷ 0 ∷ 0 ∷ 0 ∷ [] }
    ensures short { command_of told (header_of 17 0) (zeros ++ 33 ∷ 0 ∷ 1 ∷ 14 ∷ 7 ∷ 0 ∷ 0 ∷ 0 ∷ 96 ∷ 0 ∷ 0 ∷ 0 ∷ 0 ∷ 0 ∷ 0 ∷ 0 ∷ 5 ∷ 0 ∷ 0 ∷ 0 ∷ 0 ∷ 0 ∷ 0 ∷ 0 ∷ 5 ∷ 0 ∷ 0
        ∷ 0 ∷ 0 ∷ 0 ∷ 0 ∷ 0 ∷ 9 ∷ 0 ∷ 0 ∷ 0 ∷ 0 ∷ 0 ∷ 0 ∷ [])
        ≡ Some (Unreadable 0xc000000d) }
    ensures mode { command_of told (header_of 17 0) (zeros ++ 33 ∷ 0 ∷ 1 ∷ 16 ∷ 4 ∷ 0 ∷ 0 ∷ 0 ∷ 96 ∷ 0 ∷ 0 ∷ 0 ∷ 0 ∷ 0 ∷ 0 ∷ 0 ∷ 5 ∷ 0 ∷ 0 ∷ 0 ∷ 0 ∷ 0 ∷ 0 ∷ 0 ∷ 5 ∷ 0 ∷ 0
        ∷ 0 ∷ 0 ∷ 0 ∷ 0 ∷ 0 ∷ 2 ∷ 0 ∷ 0 ∷ 0 ∷ [])
        ≡ Some (SetInfo 5 SetMode) }
    ensures mode_written { body_of (SetInfo 5 SetMode)
        ≡ 33 ∷ 0 ∷ 1 ∷ 16 ∷ 4 ∷ 0 ∷ 0 ∷ 0 ∷ 96 ∷ 0 ∷ 0 ∷ 0 ∷ 0 ∷ 0 ∷ 0 ∷ 0 ∷ 5 ∷ 0 ∷ 0 ∷ 0 ∷ 0 ∷ 0 ∷ 0 ∷ 0 ∷ 5 ∷ 0 ∷ 0
        ∷ 0 ∷ 0 ∷ 0 ∷ 0 ∷ 0 ∷ 0 ∷ 0 ∷ 0 ∷ 0 ∷ [] }
{}

/// What the further classes tell of a file `a` of 5 bytes and of a directory (MS-FSCC 2.4.12, 2.4.1, 2.1.7, 2.4.35, 2.4.26, 2.4.3,
/// 2.4.43), and of a volume's sectors (2.5.7).
pub fn further_answers_example()
    ensures attributes { file_bytes 7 (97 ∷ []) (with_size false 5) 0x12019f 2 9 ≡ 0 ∷ 0 ∷ 0 ∷ 0 ∷ [] }
    ensures access { file_bytes 8 (97 ∷ []) (with_size false 5) 0x12019f 2 9 ≡ 159 ∷ 1 ∷ 18 ∷ 0 ∷ [] }
    ensures name { file_bytes 9 (97 ∷ []) (with_size false 5) 0x12019f 2 9 ≡ 4 ∷ 0 ∷ 0 ∷ 0 ∷ 92 ∷ 0 ∷ 97 ∷ 0 ∷ [] }
    ensures position { file_bytes 14 (97 ∷ []) (with_size false 5) 0x12019f 2 9 ≡ 9 ∷ 0 ∷ 0 ∷ 0 ∷ 0 ∷ 0 ∷ 0 ∷ 0 ∷ [] }
    ensures mode { file_bytes 16 (97 ∷ []) (with_size false 5) 0x12019f 2 9 ≡ 0 ∷ 0 ∷ 0 ∷ 0 ∷ [] }
    ensures alignment { file_bytes 17 (97 ∷ []) (with_size false 5) 0x12019f 2 9 ≡ 0 ∷ 0 ∷ 0 ∷ 0 ∷ [] }
    ensures stream { file_bytes 22 (97 ∷ []) (with_size false 5) 0x12019f 2 9
        ≡ 0 ∷ 0 ∷ 0 ∷ 0 ∷ 14 ∷ 0 ∷ 0 ∷ 0 ∷ 5 ∷ 0 ∷ 0 ∷ 0 ∷ 0 ∷ 0 ∷ 0 ∷ 0 ∷ 0 ∷ 16 ∷ 0 ∷ 0 ∷ 0 ∷ 0 ∷ 0 ∷ 0 ∷ 58 ∷ 0 ∷ 58
        ∷ 0 ∷ 36 ∷ 0 ∷ 68 ∷ 0 ∷ 65 ∷ 0 ∷ 84 ∷ 0 ∷ 65 ∷ 0 ∷ [] }
    ensures no_stream { file_bytes 22 (97 ∷ []) (with_size true 0) 0x12019f 2 9 ≡ [] }
    ensures sectors { volume_bytes 11 4096 0
        ≡ 0 ∷ 2 ∷ 0 ∷ 0 ∷ 0 ∷ 16 ∷ 0 ∷ 0 ∷ 0 ∷ 16 ∷ 0 ∷ 0 ∷ 0 ∷ 16 ∷ 0 ∷ 0 ∷ 3 ∷ 0 ∷ 0 ∷ 0 ∷ 0 ∷ 0 ∷ 0 ∷ 0 ∷ 0 ∷ 0 ∷ 0
        ∷ 0 ∷ [] }
{}

/// A READ of 65,537 bytes costs two credits, and one of 65,536 or of none costs one, for which 0 stands too (3.1.5.2, 3.3.5.2.5).
pub fn read_charge_example()
    ensures under { command_of told (charged 8 1) (a_read 65537) ≡ Some (Unreadable 0xc000000d) }
    ensures enough { command_of told (charged 8 2) (a_read 65537) ≡ Some (Read 5 0 65537 0 0) }
    ensures one { command_of told (charged 8 1) (a_read 65536) ≡ Some (Read 5 0 65536 0 0) }
    ensures counted { command_of told (charged 8 0) (a_read 65536) ≡ Some (Read 5 0 65536 0 0) }
    ensures none { command_of told (charged 8 0) (a_read 0) ≡ Some (Read 5 0 0 0 0) }
    ensures most { command_of told (charged 8 15) (a_read 1048576) ≡ Some (Unreadable 0xc000000d) }
    ensures paid { command_of told (charged 8 16) (a_read 1048576) ≡ Some (Read 5 0 1048576 0 0) }
{}

/// What the others move: the greater of what they carry and what they ask for, of an IOCTL two sums; it comes before the class.
pub fn other_charges_example()
    ensures unknown { command_of told (charged 16 1) (zeros ++ 41 ∷ 0 ∷ 1 ∷ 99 ∷ le 4 65537 ++ le 12 0 ++ le 4 0 ++ le 8 5 ++ le 8 5)
        ≡ Some (Unreadable 0xc000000d) }
    ensures carried { payload 16 (zeros ++ le 4 0 ++ le 4 7 ++ le 4 0 ++ le 4 65537) ≡ 65537 }
    ensures sums { payload 11 (zeros ++ le 28 0 ++ le 4 3 ++ le 4 40 ++ le 4 0 ++ le 4 60000 ++ le 4 50) ≡ 60003 }
    ensures asked { payload 11 (zeros ++ le 28 0 ++ le 4 3 ++ le 4 60000 ++ le 4 0 ++ le 4 4 ++ le 4 50) ≡ 60050 }
    ensures list { payload 14 (zeros ++ le 28 0 ++ le 4 65537) ≡ 65537 }
    ensures write { payload 9 (zeros ++ le 4 0 ++ le 4 65537) ≡ 65537 }
    ensures set { payload 17 (zeros ++ le 4 0 ++ le 4 65537) ≡ 65537 }
    ensures lock { payload 10 (zeros ++ le 4 0 ++ le 4 65537) ≡ 0 }
    ensures short { payload 8 (zeros ++ 49 ∷ []) ≡ 0 }
{}

/// The response to a WRITE of three bytes (2.2.22).
pub fn write_reply_example()
    ensures written { reply_body [] (Write 5 0 (1 ∷ 2 ∷ 3 ∷ []) 0) (replied 0 (Count 3))
        ≡ 17 ∷ 0 ∷ 0 ∷ 0 ∷ 3 ∷ 0 ∷ 0 ∷ 0 ∷ 0 ∷ 0 ∷ 0 ∷ 0 ∷ 0 ∷ 0 ∷ 0 ∷ 0 ∷ [] }
    ensures heard { reply_of (Write 5 0 (1 ∷ 2 ∷ 3 ∷ []) 0) (header_of 9 0) (zeros ++ 17 ∷ 0 ∷ 0 ∷ 0 ∷ 3 ∷ 0 ∷ 0 ∷ 0 ∷ 0 ∷ 0 ∷ 0
        ∷ 0 ∷ 0 ∷ 0 ∷ 0 ∷ 0 ∷ []) ≡ replied 0 (Count 3) }
    ensures refused { reply_body [] (Write 5 0 (1 ∷ 2 ∷ 3 ∷ []) 0) (replied 0xc0000054 Empty) ≡ 9 ∷ 0 ∷ 0 ∷ 0 ∷ 0 ∷ 0 ∷ 0 ∷ 0 ∷ 0 ∷ [] }
{}

/// A listing of names, class 12 (2.2.34, MS-FSCC 2.4.28).
pub fn listing_example()
    ensures written { reply_body [] (ListDirectory 5 12 true false (42 ∷ []) 1024) (replied 0 (Listing 12 two_names))
        ≡ 9 ∷ 0 ∷ 72 ∷ 0 ∷ 32 ∷ 0 ∷ 0 ∷ 0 ∷ 16 ∷ 0 ∷ 0 ∷ 0 ∷ 0 ∷ 0 ∷ 0 ∷ 0 ∷ 2 ∷ 0 ∷ 0 ∷ 0 ∷ 46 ∷ 0 ∷ 0 ∷ 0 ∷ 0 ∷ 0 ∷ 0
        ∷ 0 ∷ 0 ∷ 0 ∷ 0 ∷ 0 ∷ 4 ∷ 0 ∷ 0 ∷ 0 ∷ 97 ∷ 0 ∷ 98 ∷ 0 ∷ [] }
    ensures heard { reply_of (ListDirectory 5 12 true false (42 ∷ []) 1024) (header_of 14 0)
        (zeros ++ 9 ∷ 0 ∷ 72 ∷ 0 ∷ 32 ∷ 0 ∷ 0 ∷ 0 ∷ 16 ∷ 0 ∷ 0 ∷ 0 ∷ 0 ∷ 0 ∷ 0 ∷ 0 ∷ 2 ∷ 0 ∷ 0 ∷ 0 ∷ 46 ∷ 0 ∷ 0 ∷ 0 ∷ 0
        ∷ 0 ∷ 0 ∷ 0 ∷ 0 ∷ 0 ∷ 0 ∷ 0 ∷ 4 ∷ 0 ∷ 0 ∷ 0 ∷ 97 ∷ 0 ∷ 98 ∷ 0 ∷ []) ≡ replied 0 (Listing 12 two_names) }
{}

/// FileAttributes as they are told (MS-FSCC 2.6): a directory that was made NORMAL is a DIRECTORY; a file that was set DIRECTORY
/// and ARCHIVE is an ARCHIVE; NORMAL beside ARCHIVE is left out, and alone it stays.
pub fn attributes_example()
    ensures directory { attributes_of (with_attributes true 0x80) ≡ 0x10 }
    ensures file { attributes_of (with_attributes false 0x30) ≡ 0x20 }
    ensures archive { attributes_of (with_attributes false 0xa0) ≡ 0x20 }
    ensures normal { attributes_of (with_attributes false 0x90) ≡ 0x80 }
{}

/// An interface at 10.0.0.7, whose port is 0 whatever port the server has (MS-SMB2 2.2.32.5.1.1).
pub fn interface_example()
    ensures { interface_bytes (record { ip = 0x0a000007; port = 445 })
        ≡ (0 ∷ 0 ∷ 0 ∷ 0 ∷ 1 ∷ 0 ∷ 0 ∷ 0 ∷ 0 ∷ 0 ∷ 0 ∷ 0 ∷ 0 ∷ 0 ∷ 0 ∷ 0 ∷ 0 ∷ 228 ∷ 11 ∷ 84 ∷ 2 ∷ 0 ∷ 0 ∷ 0 ∷ 2 ∷ 0
        ∷ 0 ∷ 0 ∷ 10 ∷ 0 ∷ 0 ∷ 7 ∷ []) ++ le 120 0 }
{}

/// The object id of the file 300: its number and the volume's, no id of the volume, the same id, no domain (MS-FSCC 2.1.3.1). The
/// root's isn't all zeros.
pub fn object_id_example()
    ensures file { object_id_bytes 300
        ≡ (44 ∷ 1 ∷ 0 ∷ 0 ∷ 0 ∷ 0 ∷ 0 ∷ 0 ∷ 1 ∷ 0 ∷ 0 ∷ 0 ∷ 0 ∷ 0 ∷ 0 ∷ 0 ∷ []) ++ (le 16 0
        ++ ((44 ∷ 1 ∷ 0 ∷ 0 ∷ 0 ∷ 0 ∷ 0 ∷ 0 ∷ 1 ∷ 0 ∷ 0 ∷ 0 ∷ 0 ∷ 0 ∷ 0 ∷ 0 ∷ []) ++ le 16 0)) }
    ensures root { object_id_bytes 0
        ≡ le 8 0 ++ (1 ∷ le 7 0 ++ (le 16 0 ++ (le 8 0 ++ (1 ∷ le 7 0 ++ le 16 0)))) }
{}
