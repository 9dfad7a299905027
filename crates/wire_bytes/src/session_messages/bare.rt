ghost use Rattle.std.specs.Prelude.{◌≡◌, IfOk};
ghost use Rattle.spec_wire.specs.messages.Fault.{Reads};
ghost use Rattle.spec_wire.specs.messages.Bare.{SpellsBare, bare_fault, bare_spelling};

use crate::byte_lists::{Bytes, Out, fields_fit, u16_at};
use crate::headers::MessageError;
use spec_wire::{
    EchoRequest, EchoResponse, LogoffRequest, LogoffResponse, TreeDisconnectRequest,
    TreeDisconnectResponse,
};
use std::alloc::{AllocError, Global};

// Reads a message that tells nothing behind the header of `m`.
fn read_bare(m: &[u8]) -> Result<(), MessageError>
    ensures { Reads (bare_fault m.now) (λ _. SpellsBare m.now) (λ v. v) result }
{
    fields_fit(m, &[64, 2, 2])?;
    let size = u16_at(m, 64);
    if size != 4 {
        return Err(MessageError::BadSize(size));
    }
    Ok(())
}

// The canonical spelling of a message that tells nothing, which stands behind a header.
fn write_bare(alloc: Global) -> Result<Bytes, AllocError>
    ensures { IfOk result (λ b. b ≡ bare_spelling) }
{
    let mut out = Out::new(alloc);
    out.put_u16(4)?;
    out.put_u16(0)?;
    Ok(out.finish())
}

/// Reads the LOGOFF request that stands behind the header of `m`.
pub fn read_logoff_request(m: &[u8]) -> Result<LogoffRequest, MessageError>
    ensures { Reads (bare_fault m.now) (λ _. SpellsBare m.now) (λ v. v) result }
{
    read_bare(m)?;
    Ok(LogoffRequest)
}

/// The canonical spelling of the LOGOFF request, which stands behind a header.
pub fn write_logoff_request(alloc: Global, _v: &LogoffRequest) -> Result<Bytes, AllocError>
    ensures { IfOk result (λ b. b ≡ bare_spelling) }
{
    write_bare(alloc)
}

/// Reads the LOGOFF response that stands behind the header of `m`.
pub fn read_logoff_response(m: &[u8]) -> Result<LogoffResponse, MessageError>
    ensures { Reads (bare_fault m.now) (λ _. SpellsBare m.now) (λ v. v) result }
{
    read_bare(m)?;
    Ok(LogoffResponse)
}

/// The canonical spelling of the LOGOFF response, which stands behind a header.
pub fn write_logoff_response(alloc: Global, _v: &LogoffResponse) -> Result<Bytes, AllocError>
    ensures { IfOk result (λ b. b ≡ bare_spelling) }
{
    write_bare(alloc)
}

/// Reads the TREE_DISCONNECT request that stands behind the header of `m`.
pub fn read_tree_disconnect_request(m: &[u8]) -> Result<TreeDisconnectRequest, MessageError>
    ensures { Reads (bare_fault m.now) (λ _. SpellsBare m.now) (λ v. v) result }
{
    read_bare(m)?;
    Ok(TreeDisconnectRequest)
}

/// The canonical spelling of the TREE_DISCONNECT request, which stands behind a header.
pub fn write_tree_disconnect_request(
    alloc: Global,
    _v: &TreeDisconnectRequest,
) -> Result<Bytes, AllocError>
    ensures { IfOk result (λ b. b ≡ bare_spelling) }
{
    write_bare(alloc)
}

/// Reads the TREE_DISCONNECT response that stands behind the header of `m`.
pub fn read_tree_disconnect_response(m: &[u8]) -> Result<TreeDisconnectResponse, MessageError>
    ensures { Reads (bare_fault m.now) (λ _. SpellsBare m.now) (λ v. v) result }
{
    read_bare(m)?;
    Ok(TreeDisconnectResponse)
}

/// The canonical spelling of the TREE_DISCONNECT response, which stands behind a header.
pub fn write_tree_disconnect_response(
    alloc: Global,
    _v: &TreeDisconnectResponse,
) -> Result<Bytes, AllocError>
    ensures { IfOk result (λ b. b ≡ bare_spelling) }
{
    write_bare(alloc)
}

/// Reads the ECHO request that stands behind the header of `m`.
pub fn read_echo_request(m: &[u8]) -> Result<EchoRequest, MessageError>
    ensures { Reads (bare_fault m.now) (λ _. SpellsBare m.now) (λ v. v) result }
{
    read_bare(m)?;
    Ok(EchoRequest)
}

/// The canonical spelling of the ECHO request, which stands behind a header.
pub fn write_echo_request(alloc: Global, _v: &EchoRequest) -> Result<Bytes, AllocError>
    ensures { IfOk result (λ b. b ≡ bare_spelling) }
{
    write_bare(alloc)
}

/// Reads the ECHO response that stands behind the header of `m`.
pub fn read_echo_response(m: &[u8]) -> Result<EchoResponse, MessageError>
    ensures { Reads (bare_fault m.now) (λ _. SpellsBare m.now) (λ v. v) result }
{
    read_bare(m)?;
    Ok(EchoResponse)
}

/// The canonical spelling of the ECHO response, which stands behind a header.
pub fn write_echo_response(alloc: Global, _v: &EchoResponse) -> Result<Bytes, AllocError>
    ensures { IfOk result (λ b. b ≡ bare_spelling) }
{
    write_bare(alloc)
}
