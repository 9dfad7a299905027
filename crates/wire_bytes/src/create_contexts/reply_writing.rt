ghost use Rattle.std.specs.Prelude.{◌≡◌, ◌++◌, [], length, IfOk, OnOk};
ghost use Rattle.spec_wire.specs.messages.Table.{with_fields};
ghost use Rattle.spec_wire.specs.messages.CreateContexts.{dh2q_reply_table, maximal_access_table, disk_id_table, dh2q_told};
ghost use Rattle.spec_wire.specs.messages.CreateContexts.{mxac_told, qfid_told, reply_contexts_spelling};
ghost use Rattle.wire_bytes.specs.create_contexts.Parts.{context_pieces, context_some};

use crate::byte_lists::{Bytes, FixedOut, Out};
use crate::create_contexts::values::flags_of;
use crate::create_contexts::writing::put_context;
use spec_wire::{Dh2qReply, DiskId, MaximalAccess, ReplyContexts};
use std::alloc::{AllocError, Global};

fn dh2q_bytes(q: &Dh2qReply) -> [u8; 8]
    ensures { result ≡ with_fields [] (dh2q_reply_table q.now) }
{
    let mut out = FixedOut::<8>::new();
    out.put_u32(q.timeout);
    out.put_u32(flags_of(q.persistent));
    out.finish()
}

fn maximal_access_bytes(a: &MaximalAccess) -> [u8; 8]
    ensures { result ≡ with_fields [] (maximal_access_table a.now) }
{
    let mut out = FixedOut::<8>::new();
    out.put_u32(a.query_status);
    out.put_u32(a.maximal_access);
    out.finish()
}

fn put_dh2q(
    alloc: Global,
    chain: &mut Out,
    q: &Option<Dh2qReply>,
    more: bool,
) -> Result<(), AllocError>
    ensures { OnOk result (chain.new ≡ chain.old ++ context_pieces more (dh2q_told q.now)) }
{
    match q {
        None => Ok(()),
        Some(q) => put_context(alloc, chain, b"DH2Q", &dh2q_bytes(q), more),
    }
}

fn put_mxac(
    alloc: Global,
    chain: &mut Out,
    access: &Option<MaximalAccess>,
    more: bool,
) -> Result<(), AllocError>
    ensures { OnOk result (chain.new ≡ chain.old ++ context_pieces more (mxac_told access.now)) }
{
    match access {
        None => Ok(()),
        Some(a) => put_context(alloc, chain, b"MxAc", &maximal_access_bytes(a), more),
    }
}

#[tactic(auto, using(crate::proofs::create_contexts::Lengths::lengths))]
fn disk_id_bytes(alloc: Global, id: &DiskId) -> Result<Bytes, AllocError>
    ensures value { IfOk result (λ b. b ≡ with_fields [] (disk_id_table id.now)) }
    ensures size { IfOk result (λ b. length b ≡ 32) }
{
    let mut out = Out::new(alloc);
    out.put_u64(id.file)?;
    out.put_u64(id.volume)?;
    out.put_zeros(16)?;
    Ok(out.finish())
}

fn put_qfid(
    alloc: Global,
    chain: &mut Out,
    id: &Option<DiskId>,
    more: bool,
) -> Result<(), AllocError>
    ensures { OnOk result (chain.new ≡ chain.old ++ context_pieces more (qfid_told id.now)) }
{
    match id {
        None => Ok(()),
        Some(id) => {
            let value = disk_id_bytes(alloc, id)?;
            put_context(alloc, chain, b"QFid", value.as_slice(), more)
        }
    }
}

// Whether QFid follows MxAc.
fn has_after_mxac(c: &ReplyContexts) -> bool
    ensures { result ≡ context_some (qfid_told c.now.qfid) }
{
    match c.qfid {
        Some(_) => true,
        None => false,
    }
}

// Whether contexts follow DH2Q.
fn has_after_dh2q(c: &ReplyContexts) -> bool
    ensures { result ≡ context_some (mxac_told c.now.mxac ++ qfid_told c.now.qfid) }
{
    match c.mxac {
        Some(_) => true,
        None => has_after_mxac(c),
    }
}

/// The canonical spelling of the create contexts of a CREATE response (MS-SMB2 2.2.14.2): DH2Q, MxAc,
/// QFid, those that are there, with the least padding between them.
pub fn write_reply_chain(alloc: Global, c: &ReplyContexts) -> Result<Bytes, AllocError>
    ensures { IfOk result (λ b. b ≡ reply_contexts_spelling c.now) }
{
    let after_dh2q = has_after_dh2q(c);
    let after_mxac = has_after_mxac(c);
    let mut chain = Out::new(alloc);
    put_dh2q(alloc, &mut chain, &c.dh2q, after_dh2q)?;
    put_mxac(alloc, &mut chain, &c.mxac, after_mxac)?;
    put_qfid(alloc, &mut chain, &c.qfid, false)?;
    Ok(chain.finish())
}
