ghost use Rattle.std.specs.Prelude.{◌≡◌};
ghost use Rattle.spec_wire.specs.messages.Header.{header_spelling};

use crate::byte_lists::FixedOut;
use spec_wire::Header;

/// The canonical spelling of a header (MS-SMB2 2.2.1). Its reserved bytes are 0.
pub fn write_header(h: &Header) -> [u8; 64]
    ensures { result ≡ header_spelling h.now }
{
    let mut out = FixedOut::<64>::new();
    out.put_slice(&[0xfe, b'S', b'M', b'B']);
    out.put_u16(64);
    out.put_u16(h.charge);
    out.put_u32(h.status);
    out.put_u16(h.command);
    out.put_u16(h.credits);
    out.put_u32(h.flags);
    out.put_u32(h.next);
    out.put_u64(h.message);
    out.put_u32(0);
    out.put_u32(h.tree);
    out.put_u64(h.session);
    out.put_slice(&h.signature);
    out.finish()
}
