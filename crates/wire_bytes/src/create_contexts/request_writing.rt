ghost use Rattle.std.specs.Prelude.{◌≡◌, ◌++◌, [], IfOk, OnOk};
ghost use Rattle.spec_wire.specs.messages.Table.{with_fields};
ghost use Rattle.spec_wire.specs.messages.CreateContexts.{dh2q_table, dh2c_table, dh2q_asked, dh2c_asked, asked, mxac, qfid};
ghost use Rattle.spec_wire.specs.messages.CreateContexts.{create_contexts_spelling};
ghost use Rattle.wire_bytes.specs.create_contexts.Parts.{context_pieces, context_some};

use crate::byte_lists::{Bytes, FixedOut, Out};
use crate::create_contexts::values::flags_of;
use crate::create_contexts::writing::put_context;
use spec_wire::{CreateContexts, Dh2c, Dh2q};
use std::alloc::{AllocError, Global};

fn dh2q_bytes(q: &Dh2q) -> [u8; 32]
    ensures { result ≡ with_fields [] (dh2q_table q.now) }
{
    let mut out = FixedOut::<32>::new();
    out.put_u32(q.timeout);
    out.put_u32(flags_of(q.persistent));
    out.put_u64(0);
    out.put_slice(&q.guid);
    out.finish()
}

fn dh2c_bytes(q: &Dh2c) -> [u8; 36]
    ensures { result ≡ with_fields [] (dh2c_table q.now) }
{
    let mut out = FixedOut::<36>::new();
    out.put_slice(&q.file);
    out.put_slice(&q.guid);
    out.put_u32(flags_of(q.persistent));
    out.finish()
}

fn put_dh2q(alloc: Global, chain: &mut Out, q: &Option<Dh2q>, more: bool) -> Result<(), AllocError>
    ensures { OnOk result (chain.new ≡ chain.old ++ context_pieces more (dh2q_asked q.now)) }
{
    match q {
        None => Ok(()),
        Some(q) => put_context(alloc, chain, b"DH2Q", &dh2q_bytes(q), more),
    }
}

fn put_dh2c(alloc: Global, chain: &mut Out, q: &Option<Dh2c>, more: bool) -> Result<(), AllocError>
    ensures { OnOk result (chain.new ≡ chain.old ++ context_pieces more (dh2c_asked q.now)) }
{
    match q {
        None => Ok(()),
        Some(q) => put_context(alloc, chain, b"DH2C", &dh2c_bytes(q), more),
    }
}

fn put_asked(
    alloc: Global,
    chain: &mut Out,
    wanted: bool,
    name: &[u8; 4],
    more: bool,
) -> Result<(), AllocError>
    ensures { OnOk result (chain.new ≡ chain.old ++ context_pieces more (asked wanted name.now)) }
{
    if wanted {
        put_context(alloc, chain, name, &[], more)
    } else {
        Ok(())
    }
}

// Whether contexts follow DH2C.
fn has_after_dh2c(c: &CreateContexts) -> bool
    ensures { result ≡ context_some (asked c.now.mxac mxac ++ asked c.now.qfid qfid) }
{
    if c.mxac { true } else { c.qfid }
}

// Whether contexts follow DH2Q.
fn has_after_dh2q(c: &CreateContexts) -> bool
    ensures { result ≡ context_some (dh2c_asked c.now.dh2c ++ (asked c.now.mxac mxac ++ asked c.now.qfid qfid)) }
{
    match c.dh2c {
        Some(_) => true,
        None => has_after_dh2c(c),
    }
}

/// The canonical spelling of the create contexts of a CREATE request (MS-SMB2 2.2.13.2): DH2Q, DH2C,
/// MxAc, QFid, those that are there, with the least padding between them.
pub fn write_chain(alloc: Global, c: &CreateContexts) -> Result<Bytes, AllocError>
    ensures { IfOk result (λ b. b ≡ create_contexts_spelling c.now) }
{
    let after_dh2q = has_after_dh2q(c);
    let after_dh2c = has_after_dh2c(c);
    let mut chain = Out::new(alloc);
    put_dh2q(alloc, &mut chain, &c.dh2q, after_dh2q)?;
    put_dh2c(alloc, &mut chain, &c.dh2c, after_dh2c)?;
    put_asked(alloc, &mut chain, c.mxac, b"MxAc", c.qfid)?;
    put_asked(alloc, &mut chain, c.qfid, b"QFid", false)?;
    Ok(chain.finish())
}
