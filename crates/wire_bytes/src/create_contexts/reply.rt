ghost use Rattle.std.specs.Prelude.{◌≡◌, ◌<◌, length, if◌then◌else◌, true, Some, None, MatchResult};
ghost use Rattle.spec_wire.specs.messages.CreateContexts.{first_fault, is_named, dh2q, dh2q_reply_in, mxac, maximal_access_in};
ghost use Rattle.spec_wire.specs.messages.CreateContexts.{qfid, disk_id_in, reply_due, reply_of, both_replies, no_replies};
ghost use Rattle.spec_wire.specs.messages.CreateContexts.{HasLength, ReadsReplyContexts};
ghost use Rattle.wire_bytes.specs.create_contexts.Parts.{context, FirstReplySays};

use crate::byte_lists::{Short, fields_fit, u32_at, u64_at};
use crate::create_contexts::context::{Context, first_context};
use crate::create_contexts::due::{Side, is_named};
use crate::create_contexts::values::{first, is_persistent};
use crate::headers::items_behind;
use spec_wire::{ChainError, Dh2qReply, DiskId, MaximalAccess, ReplyContexts};

fn dh2q_reply_in(value: &[u8]) -> Result<Dh2qReply, Short>
    ensures { MatchResult result (λ q. q ≡ dh2q_reply_in value.now) (λ _. length value.now < 8) }
{
    fields_fit(value, &[4, 4])?;
    let timeout = u32_at(value, 0);
    let flags = u32_at(value, 4);
    Ok(Dh2qReply {
        timeout,
        persistent: is_persistent(flags),
    })
}

fn maximal_access_in(value: &[u8]) -> Result<MaximalAccess, Short>
    ensures { MatchResult result (λ a. a ≡ maximal_access_in value.now) (λ _. length value.now < 8) }
{
    fields_fit(value, &[4, 4])?;
    let query_status = u32_at(value, 0);
    let maximal_access = u32_at(value, 4);
    Ok(MaximalAccess {
        query_status,
        maximal_access,
    })
}

fn disk_id_in(value: &[u8]) -> Result<DiskId, Short>
    ensures { MatchResult result (λ d. d ≡ disk_id_in value.now) (λ _. length value.now < 32) }
{
    fields_fit(value, &[8, 8, 16])?;
    let file = u64_at(value, 0);
    let volume = u64_at(value, 8);
    Ok(DiskId { file, volume })
}

fn dh2q_of(c: &Context<'_>) -> Result<Option<Dh2qReply>, Short>
    ensures { MatchResult result (λ q. q ≡ (if is_named c.now.name.now dh2q then Some (dh2q_reply_in c.now.value.now)
        else None)) (λ _. (is_named c.now.name.now dh2q ≡ true) × (length c.now.value.now < 8)) }
{
    if !is_named(c.name, b"DH2Q") {
        return Ok(None);
    }
    let q = dh2q_reply_in(c.value)?;
    Ok(Some(q))
}

fn mxac_of(c: &Context<'_>) -> Result<Option<MaximalAccess>, Short>
    ensures { MatchResult result
        (λ a. a ≡ (if is_named c.now.name.now mxac then Some (maximal_access_in c.now.value.now) else None))
        (λ _. (is_named c.now.name.now mxac ≡ true) × (length c.now.value.now < 8)) }
{
    if !is_named(c.name, b"MxAc") {
        return Ok(None);
    }
    let access = maximal_access_in(c.value)?;
    Ok(Some(access))
}

fn qfid_of(c: &Context<'_>) -> Result<Option<DiskId>, Short>
    ensures { MatchResult result (λ d. d ≡ (if is_named c.now.name.now qfid then Some (disk_id_in c.now.value.now) else
        None)) (λ _. (is_named c.now.name.now qfid ≡ true) × (length c.now.value.now < 32)) }
{
    if !is_named(c.name, b"QFid") {
        return Ok(None);
    }
    let id = disk_id_in(c.value)?;
    Ok(Some(id))
}

// What one context says. Data that are as long as is due are never too short.
#[tactic(auto, unfolding(spec_wire::specs::messages::CreateContexts::reply_due, spec_wire::specs::messages::CreateContexts::is_named))]
fn reply_of(c: &Context<'_>) -> Result<ReplyContexts, Short>
    ensures { MatchResult result (λ r. r ≡ reply_of (context c.now)) (λ _. HasLength (reply_due c.now.name.now)
        (length c.now.value.now) → ⊥) }
{
    let dh2q = dh2q_of(c)?;
    let mxac = mxac_of(c)?;
    let qfid = qfid_of(c)?;
    Ok(ReplyContexts { dh2q, mxac, qfid })
}

fn both_replies(a: &ReplyContexts, b: &ReplyContexts) -> ReplyContexts
    ensures { result ≡ both_replies a.now b.now }
{
    ReplyContexts {
        dh2q: first(a.dh2q, b.dh2q),
        mxac: first(a.mxac, b.mxac),
        qfid: first(a.qfid, b.qfid),
    }
}

fn no_replies() -> ReplyContexts
    ensures { result ≡ no_replies }
{
    ReplyContexts {
        dh2q: None,
        mxac: None,
        qfid: None,
    }
}

// What the context says that a chain begins with, and how far the next one is.
#[derive(Clone, Copy)]
struct FirstReply {
    said: ReplyContexts,
    next: usize,
}

fn first_reply(m: &[u8]) -> Result<FirstReply, ChainError>
    ensures { MatchResult result (λ f. FirstReplySays m.now f.said f.next) (λ e. first_fault reply_due m.now ≡ Some e) }
{
    let first = match first_context(Side::Reply, m) {
        Ok(first) => first,
        Err(error) => return Err(error),
    };
    match reply_of(&first.context) {
        Ok(said) => Ok(FirstReply {
            said,
            next: first.next,
        }),
        Err(_short) => Err(ChainError::Short),
    }
}

/// Reads the create contexts of a CREATE response (MS-SMB2 2.2.14.2); no bytes are no contexts. It takes
/// no memory, so `Memory` never comes.
pub fn read_reply_chain(bytes: &[u8]) -> Result<ReplyContexts, ChainError>
    ensures { ReadsReplyContexts bytes.now result }
{
    let mut found = no_replies();
    if bytes.is_empty() {
        return Ok(found);
    }
    let mut rest = bytes;
    loop {
        let head = match first_reply(rest) {
            Ok(head) => head,
            Err(error) => return Err(error),
        };
        found = both_replies(&found, &head.said);
        if head.next == 0 {
            return Ok(found);
        }
        rest = items_behind(rest, head.next);
    }
}
