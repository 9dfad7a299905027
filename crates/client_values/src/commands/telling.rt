// What a success tells of the operation that it answers (MS-SMB2 3.2.5).
ghost use Rattle.std.specs.Prelude.{◌≡◌, ◌∷◌, [], ◌++◌, ◌||◌, map, option_map, IfOk, OnErr, OnOk};
ghost use Rattle.spec_exchange.specs.Content.{same_bytes};
ghost use Rattle.spec_exchange.specs.Operations.{value_in, id_in, names_in, action_in, count_in, content_in, length_in};
ghost use Rattle.spec_exchange.specs.Operations.{listing_in, nothing_in};
ghost use Rattle.wire_commands.specs.values.Meaning.{body_of, named_of};
ghost use Rattle.client_values.specs.declared.operations.shapes.Kind.TheVariants as kinds;
ghost use Rattle.client_values.specs.operations.Waiting.{kind_of};
ghost use Rattle.client_values.specs.operations.Meaning.{op_of, reply_of};
ghost use Rattle.client_values.specs.commands.Telling.{reply_told};

use crate::operations::{OpKind, OpReply, TextList};
use std::alloc::{AllocError, Global};
use wire_bytes::Text;
use wire_commands::{Body, Named};

/// The open's id that a create's success names, else 0.
pub fn id_in(body: &Body) -> u128
    ensures { result ≡ id_in (body_of body.now) }
{
    match body {
        Body::Created(created) => created.id,
        _ => 0,
    }
}

/// What a success says of an operation, where its body is the operation's. It takes memory for the names of a directory
/// alone.
pub fn value_in(alloc: Global, kind: &OpKind, body: Body) -> Result<Option<OpReply>, AllocError>
    ensures reads { IfOk result (λ v. option_map reply_of v ≡ value_in (op_of kind.now) (body_of body)) }
    ensures lacks { OnErr result (kind_of (op_of kind.now) ≡ kinds.List) }
{
    match kind {
        OpKind::Create { .. } => Ok(action_in(body)),
        OpKind::Write { .. } => Ok(count_in(body)),
        OpKind::Read { .. } => Ok(content_in(body)),
        OpKind::Stat { .. } => Ok(length_in(body)),
        OpKind::List { .. } => listing_in(alloc, body),
        _ => Ok(nothing_in(body)),
    }
}

fn action_in(body: Body) -> Option<OpReply>
    ensures { option_map reply_of result ≡ action_in (body_of body) }
{
    match body {
        Body::Created(created) => Some(OpReply::Action(created.action)),
        _ => None,
    }
}

fn count_in(body: Body) -> Option<OpReply>
    ensures { option_map reply_of result ≡ count_in (body_of body) }
{
    match body {
        Body::Count { count } => Some(OpReply::Count(count)),
        _ => None,
    }
}

fn content_in(body: Body) -> Option<OpReply>
    ensures { option_map reply_of result ≡ content_in (body_of body) }
{
    match body {
        Body::Content { bytes } => Some(OpReply::Content(bytes)),
        _ => None,
    }
}

fn length_in(body: Body) -> Option<OpReply>
    ensures { option_map reply_of result ≡ length_in (body_of body) }
{
    match body {
        Body::FileInfo { info, .. } => Some(OpReply::Length(info.size)),
        _ => None,
    }
}

fn listing_in(alloc: Global, body: Body) -> Result<Option<OpReply>, AllocError>
    ensures { IfOk result (λ v. option_map reply_of v ≡ listing_in (body_of body)) }
{
    match body {
        Body::Listing { entries, .. } => {
            let names = names_in(alloc, entries)?;
            Ok(Some(OpReply::Names(names)))
        }
        _ => Ok(None),
    }
}

fn nothing_in(body: Body) -> Option<OpReply>
    ensures { option_map reply_of result ≡ nothing_in (body_of body) }
{
    match body {
        Body::Empty => Some(OpReply::Done),
        _ => None,
    }
}

fn is_same(a: &[u8], b: &[u8]) -> bool
    ensures { result ≡ same_bytes a.now b.now }
{
    a == b
}

/// Whether it names the directory itself or the one above it.
fn is_dots(name: &str) -> bool
    ensures { result ≡ (same_bytes name.now (46 ∷ []) || same_bytes name.now (46 ∷ 46 ∷ [])) }
{
    is_same(name.as_bytes(), b".") || is_same(name.as_bytes(), b"..")
}

fn put_name(names: &mut TextList, name: Text) -> Result<(), AllocError>
    ensures { OnOk result (names.new ≡ names.old ++ reply_told name) }
{
    if !is_dots(name.as_str()) {
        names.push(name)?;
    }
    Ok(())
}

/// The names of a listing, without those of the directory itself and of the one above it.
#[tactic(auto, using(crate::proofs::commands::Names::listed_more))]
fn names_in(alloc: Global, entries: Vec<Named>) -> Result<TextList, AllocError>
    ensures { IfOk result (λ v. v ≡ names_in (map named_of entries.items)) }
{
    let mut names = TextList::new(alloc);
    for entry in entries {
        let Named { name, info: _ } = entry;
        put_name(&mut names, name)?;
    }
    Ok(names)
}
