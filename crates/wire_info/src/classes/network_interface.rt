ghost use Rattle.std.specs.Prelude.{◌≡◌, IfOk};
ghost use Rattle.spec_wire.specs.messages.Fault.{Reads};
ghost use Rattle.spec_wire.specs.messages.Interfaces.{SpellsNetworkInterface, network_interface_fault, network_interface_spelling};

use spec_wire::NetworkInterface;
use std::alloc::{AllocError, Global};
use wire_bytes::{
    Bytes, FixedOut, MessageError, Out, array_at, fields_fit, u16_at, u32_at, u64_at,
};

/// Reads the entry that `m` begins with.
pub fn read_network_interface(m: &[u8]) -> Result<NetworkInterface, MessageError>
    ensures { Reads (network_interface_fault m.now) (SpellsNetworkInterface m.now) (λ v. v) result }
{
    fields_fit(m, &[4, 4, 4, 4, 8, 2, 2, 4, 120])?;
    let next = u32_at(m, 0);
    let if_index = u32_at(m, 4);
    let capability = u32_at(m, 8);
    let link_speed = u64_at(m, 16);
    let family = u16_at(m, 24);
    let port = array_at::<2>(m, 26);
    let address = array_at::<4>(m, 28);
    Ok(NetworkInterface {
        next,
        if_index,
        capability,
        link_speed,
        family,
        port,
        address,
    })
}

/// The canonical spelling of the NetworkInterface.
pub fn write_network_interface(alloc: Global, v: &NetworkInterface) -> Result<Bytes, AllocError>
    ensures { IfOk result (λ b. b ≡ network_interface_spelling v.now) }
{
    let mut fixed = FixedOut::<26>::new();
    fixed.put_u32(v.next);
    fixed.put_u32(v.if_index);
    fixed.put_u32(v.capability);
    fixed.put_u32(0);
    fixed.put_u64(v.link_speed);
    fixed.put_u16(v.family);
    let mut out = Out::new(alloc);
    out.put_slice(&fixed.finish())?;
    out.put_slice(&v.port)?;
    out.put_slice(&v.address)?;
    out.put_zeros(120)?;
    Ok(out.finish())
}
