//! FileIds, ObjectIds and CreateGuids as bytes.
ghost use Rattle.std.specs.Prelude.{◌≡◌};
ghost use Rattle.spec_commands.specs.Ids.{file_id, guid_id, object_id};

use wire_bytes::FixedOut;

/// 2^64
const HALF: u128 = 0x1_0000_0000_0000_0000;

/// A FileId (MS-SMB2 2.2.14.1) of an id: its lower half, and that with its upper half on it, modulo 2^64. Of an id below
/// 2^64 both halves are the id.
#[tactic(auto, using(crate::proofs::writing::Halves::file_halves))]
pub fn file_id(file: u128) -> [u8; 16]
    ensures { result ≡ file_id file }
{
    let low = file % HALF;
    let high = (low + file / HALF) % HALF;
    let mut out = FixedOut::<16>::new();
    out.put_u64(low as u64);
    out.put_u64(high as u64);
    out.finish()
}

// An ObjectId: the file's number, and the volume's.
#[tactic(auto, unfolding(spec_commands::specs::Ids::object_id))]
pub(crate) fn object_id(file: u64) -> [u8; 16]
    ensures { result ≡ object_id file }
{
    let mut out = FixedOut::<16>::new();
    out.put_u64(file);
    out.put_u64(1);
    out.finish()
}

// A CreateGuid of 16 bytes, the lowest first.
#[tactic(auto, using(crate::proofs::writing::Halves::guid_halves))]
pub(crate) fn guid_id(guid: u128) -> [u8; 16]
    ensures { result ≡ guid_id guid }
{
    let mut out = FixedOut::<16>::new();
    out.put_u64((guid % HALF) as u64);
    out.put_u64((guid / HALF) as u64);
    out.finish()
}
