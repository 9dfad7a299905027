// Whether a place stands in the order of an open.
ghost use Rattle.std.specs.Prelude.{◌≡◌, ◌<◌, ◌-◌, nat_le, slice_get, IfOk};
ghost use Rattle.spec_exchange.specs.Order.{is_at};
ghost use Rattle.spec_exchange.specs.Runs.{account};
ghost use Rattle.spec_world.specs.Settings.{WorldSettings};
ghost use Rattle.spec_world.specs.World as bytes;
ghost use Rattle.world_ends.specs.results.Ended.{ShowsEnded};
ghost use Rattle.world_ends.specs.results.Listing.{ListingTellsOpen, born_in, on_in, create_under, placed_in};

use crate::Marks;
use crate::results::ending::EndedWorld;
use client_values::OpKind;
use std::alloc::AllocError;

/// The create on whose open a read, a write or an end is; none of another operation.
fn create_of(kind: &OpKind) -> Option<u32>
    ensures { result ≡ create_under kind.now }
{
    match kind {
        OpKind::Write { create, .. } => Some(*create),
        OpKind::Read { create, .. } => Some(*create),
        OpKind::SetEnd { create, .. } => Some(*create),
        _ => None,
    }
}

/// Of an operation by its number.
fn create_at(ops: &[OpKind], number: u32) -> Option<u32>
    requires above { 0 < number }
    ensures { result ≡ on_in (slice_get ops.now (number - 1)) }
{
    match ops.get(number as usize - 1) {
        Some(kind) => create_of(kind),
        None => None,
    }
}

/// An operation's place: that of its first message that acted, else of the one whose reply settled it.
fn place_of(marks: &[Marks], number: u32) -> Option<u64>
    ensures { result ≡ placed_in (slice_get marks.now number) }
{
    match marks.get(number as usize) {
        Some(marks) => match marks.first {
            Some(first) => Some(first),
            None => marks.by,
        },
        None => None,
    }
}

/// Whether it is this one.
fn is_placed(marks: &[Marks], number: u32, place: u64) -> bool
    ensures { result ≡ is_at place (placed_in (slice_get marks.now number)) }
{
    match place_of(marks, number) {
        Some(other) => other == place,
        None => false,
    }
}

/// Whether a create acted before a place.
pub(crate) fn is_born(marks: &[Marks], create: u32, place: u64) -> bool
    ensures { result ≡ nat_le (born_in (slice_get marks.now create)) place }
{
    match marks.get(create as usize) {
        Some(marks) => marks.birth <= place,
        None => true,
    }
}

/// The create of whose open the message's operation stands in the order at this place; none where it doesn't. That a message without an
/// operation has a place in an order counts as memory that ran out.
pub(crate) fn open_at(
    world: &EndedWorld,
    number: u32,
    place: u64,
) -> Result<Option<u32>, AllocError>
    ensures { IfOk result (λ told. (z : WorldSettings) (w : bytes.World) → ShowsEnded z world.now w
        → ListingTellsOpen (account w.values) number place told) }
{
    if !is_placed(&world.places.marks, number, place) {
        return Ok(None);
    }
    if number == 0 {
        return Err(AllocError);
    }
    Ok(create_at(&world.client.table.ops, number))
}
