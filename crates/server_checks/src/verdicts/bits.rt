//! Numbers of a request that are made of bits, and what its disposition asks (MS-SMB2 2.2.13).
ghost use Rattle.std.specs.Prelude.{◌≡◌, ◌<◌, ◌||◌, bit_or, if◌then◌else◌};
ghost use Rattle.spec_exchange.specs.CheckCreate.{action_of, action_on_found, empties, makes_file, makes_missing};
ghost use Rattle.spec_exchange.specs.Commands.{deletes_on_close, has_bit};
ghost use Rattle.spec_exchange.specs.Opens.{bits_if, mapped, writes};
ghost use Rattle.wire_commands.specs.values.Meaning.{create_of};

use wire_commands::CreateRequest;

/// Whether the number has this bit.
#[tactic(auto, unfolding(spec_exchange::specs::Commands::has_bit))]
pub fn has_bit(number: u32, bit: u32) -> bool
    requires { 0 < bit }
    ensures { result ≡ has_bit number bit }
{
    number / bit % 2 == 1
}

/// The option FILE_DELETE_ON_CLOSE (MS-SMB2 2.2.13).
#[tactic(auto, unfolding(spec_exchange::specs::Commands::deletes_on_close))]
pub fn deletes_on_close(options: u32) -> bool
    ensures { result ≡ deletes_on_close options }
{
    has_bit(options, 0x1000)
}

/// Generic access as what it stands for (MS-SMB2 2.2.13.1).
#[tactic(auto, unfolding(spec_exchange::specs::Opens::mapped))]
pub fn mapped(access: u32) -> u32
    ensures { result ≡ mapped access }
{
    let read = bits_if(has_bit(access, 0x8000_0000), 0x12_0089);
    let write = bits_if(has_bit(access, 0x4000_0000), 0x12_0116);
    let execute = bits_if(has_bit(access, 0x2000_0000), 0x12_00a0);
    let all = bits_if(asks_all(access), 0x1f_01ff);
    access % 0x200_0000 | (read | (write | (execute | all)))
}

// GENERIC_ALL or MAXIMUM_ALLOWED.
fn asks_all(access: u32) -> bool
    ensures { result ≡ (has_bit access 0x1000_0000 || has_bit access 0x200_0000) }
{
    has_bit(access, 0x1000_0000) || has_bit(access, 0x200_0000)
}

#[tactic(auto, unfolding(spec_exchange::specs::Opens::bits_if))]
fn bits_if(is_set: bool, bits: u32) -> u32
    ensures { result ≡ bits_if is_set bits }
{
    if is_set { bits } else { 0 }
}

/// An access to write (MS-SMB2 2.2.13.1.1): FILE_WRITE_DATA or FILE_APPEND_DATA.
#[tactic(auto, unfolding(spec_exchange::specs::Opens::writes))]
pub fn writes(access: u32) -> bool
    ensures { result ≡ writes access }
{
    has_bit(access, 0x2) || has_bit(access, 0x4)
}

/// A create of this disposition empties what it finds.
pub fn empties(disposition: u32) -> bool
    ensures { result ≡ empties disposition }
{
    disposition == 0 || disposition >= 4
}

/// A create of this disposition makes what it doesn't find.
pub fn makes_missing(disposition: u32) -> bool
    ensures { result ≡ makes_missing disposition }
{
    disposition != 1 && disposition != 4
}

/// A create makes a file or directory, where it finds none.
pub fn makes_file(request: &CreateRequest, found: Option<u64>) -> bool
    ensures { result ≡ makes_file (create_of request.now) found }
{
    match found {
        Some(_) => false,
        None => makes_missing(request.disposition),
    }
}

/// The access that sharing looks at: a create that empties a file asks for write access too.
pub fn shared_access(disposition: u32, access: u32) -> u32
    ensures { result ≡ (if empties disposition then bit_or access 0x2 else access) }
{
    if empties(disposition) {
        access | 0x2
    } else {
        access
    }
}

/// The action of a success: superseded 0, opened 1, created 2, overwritten 3 (MS-SMB2 2.2.14).
pub fn action_of(request: &CreateRequest, found: Option<u64>) -> u32
    ensures { result ≡ action_of (create_of request.now) found }
{
    match found {
        Some(_) => action_on_found(request.disposition),
        None => 2,
    }
}

fn action_on_found(disposition: u32) -> u32
    ensures { result ≡ action_on_found disposition }
{
    if disposition == 0 {
        return 0;
    }
    if disposition >= 4 {
        return 3;
    }
    1
}
