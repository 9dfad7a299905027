//! FileIds, CreateGuids and flags as numbers.
ghost use Rattle.std.specs.Prelude.{◌≡◌, ◌<◌};
ghost use Rattle.spec_exchange.specs.Commands.{has_bit};
ghost use Rattle.spec_commands.specs.Ids.{file_of, guid_of, file_kept};

use wire_bytes::halves_of;

/// 2^64
const HALF: u128 = 0x1_0000_0000_0000_0000;

// The open that a FileId names: its id stands there twice, and 0 is no open's.
pub(crate) fn file_of(id: &[u8; 16]) -> u64
    ensures { result ≡ file_of id.now }
{
    let both = u128::from_le_bytes(*id);
    let low = both % HALF;
    let high = both / HALF;
    if low == high { low as u64 } else { 0 }
}

// What a client keeps of a FileId: its first half, and above it what the second is more than the first, modulo 2^64.
#[tactic(auto, unfolding(spec_commands::specs::Ids::file_kept))]
pub(crate) fn file_kept(id: &[u8; 16]) -> u128
    ensures { result ≡ file_kept id.now }
{
    match halves_of(id) {
        Ok(halves) => {
            let low = halves.low as u128;
            let above = (halves.high as u128 + (HALF - low)) % HALF;
            low + HALF * above
        }
        Err(_short) => 0,
    }
}

// The number of a CreateGuid, its first byte the lowest.
pub(crate) fn guid_of(id: &[u8; 16]) -> u128
    ensures { result ≡ guid_of id.now }
{
    u128::from_le_bytes(*id)
}

// Whether flags have a bit.
#[tactic(auto, unfolding(spec_exchange::specs::Commands::has_bit))]
pub(crate) fn has_bit(flags: u32, bit: u32) -> bool
    requires { 0 < bit }
    ensures { result ≡ has_bit flags bit }
{
    flags / bit % 2 == 1
}
