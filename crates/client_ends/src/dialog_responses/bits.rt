//! Flags of headers and of SESSION_SETUP.
ghost use Rattle.std.specs.Prelude.{◌≡◌, ◌<◌, ◌==◌, ◌&&◌, not};
ghost use Rattle.spec_exchange.specs.Commands.{has_bit as has_bit_of};
ghost use Rattle.client_ends.specs.line_calls.Interim.{is_pending as pending_due};
ghost use Rattle.spec_world.specs.Dialog.{is_response as response_due};

use spec_wire::Header;

/// STATUS_PENDING (MS-ERREF 2.3.1)
const PENDING: u32 = 0x0000_0103;

#[tactic(auto, unfolding(spec_exchange::specs::Commands::has_bit))]
fn has_bit(number: u32, bit: u32) -> bool
    requires { 0 < bit }
    ensures { result ≡ has_bit_of number bit }
{
    number / bit % 2 == 1
}

/// SMB2_FLAGS_SERVER_TO_REDIR
pub fn is_response(header: &Header) -> bool
    ensures { result ≡ response_due header.now }
{
    has_bit(header.flags, 1)
}

/// SMB2_FLAGS_ASYNC_COMMAND, with STATUS_PENDING: an interim response
pub fn is_pending(header: &Header) -> bool
    ensures { result ≡ pending_due header.now }
{
    let later = has_bit(header.flags, 2);
    if later {
        header.status == PENDING
    } else {
        false
    }
}

fn has_flag(flags: u16, flag: u32) -> bool
    requires { 0 < flag }
    ensures { result ≡ has_bit_of flags flag }
{
    has_bit(u32::from(flags), flag)
}

/// SMB2_SESSION_FLAG_ENCRYPT_DATA
pub fn seals(flags: u16) -> bool
    ensures { result ≡ has_bit_of flags 4 }
{
    has_flag(flags, 4)
}

/// Whether SessionFlags are such as this client takes (MS-SMB2 2.2.6): it is neither a guest nor anonymous, and nothing is
/// to be sealed without a cipher.
pub fn flags_fit(flags: u16, cipher: u16) -> bool
    ensures { result ≡ (not (has_bit_of flags 1) && (not (has_bit_of flags 2) && not (has_bit_of flags 4 && (cipher == 0)))) }
{
    let guest = has_flag(flags, 1);
    if guest {
        return false;
    }
    let anonymous = has_flag(flags, 2);
    if anonymous {
        return false;
    }
    let sealing = has_flag(flags, 4);
    if sealing { cipher != 0 } else { true }
}
