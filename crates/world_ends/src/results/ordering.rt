// The order of each open, in one walk over the places.
ghost use Rattle.std.specs.Prelude.{◌≡◌, IfOk, OnOk, Some};
ghost use Rattle.spec_exchange.specs.Runs.{account};
ghost use Rattle.spec_world.specs.Settings.{WorldSettings};
ghost use Rattle.spec_world.specs.World as bytes;
ghost use Rattle.world_ends.specs.results.Ended.{ShowsEnded};
ghost use Rattle.world_ends.specs.results.Listing.{AddsAt, AreBare, AreOrders, ListingNotes, NotesAll, ListingPuts};

use crate::results::ending::EndedWorld;
use crate::results::entries::{is_born, open_at};
use std::alloc::{AllocError, Global};

/// The reads, writes and ends of an open, in the order of their places.
#[derive(Drop)]
pub struct Order {
    pub numbers: Vec<u32>,
}

impl Order {
    ghost use Rattle.std.specs.Prelude.{◌++◌, ◌∷◌, []};

    fn new(alloc: Global) -> Order
        ensures { result.numbers.items ≡ [] }
    {
        Order {
            numbers: Vec::new(alloc),
        }
    }

    fn add(&mut self, number: u32) -> Result<(), AllocError>
        ensures { OnOk result (self.new.numbers.items ≡ self.old.numbers.items ++ number ∷ []) }
    {
        Ok(self.numbers.push(number)?)
    }
}

/// So many without an operation.
fn bare(alloc: Global, count: usize) -> Result<Vec<Order>, AllocError>
    ensures { IfOk result (λ v. AreBare count v.items) }
{
    let mut orders = Vec::with_capacity(alloc, count)?;
    let mut at = 0;
    while at < count {
        orders.push(Order::new(alloc))?;
        at += 1;
    }
    Ok(orders)
}

/// An operation is the next one of a create's open; of no create nothing changes.
fn add_at(orders: &mut Vec<Order>, create: u32, number: u32) -> Result<(), AllocError>
    ensures { OnOk result (AddsAt create number orders.old.items orders.new.items) }
{
    let at = create as usize;
    let within = at < orders.len();
    if within {
        return orders[at].add(number);
    }
    Ok(())
}

/// An operation's place is an entry of this create's open, unless it is older.
fn put_on(
    world: &EndedWorld,
    orders: &mut Vec<Order>,
    place: u64,
    number: u32,
    create: u32,
) -> Result<(), AllocError>
    ensures { OnOk result (ListingPuts world.now place number (Some create) orders.old.items orders.new.items) }
{
    if is_born(&world.places.marks, create, place) {
        return add_at(orders, create, number);
    }
    Ok(())
}

fn put(
    world: &EndedWorld,
    orders: &mut Vec<Order>,
    place: u64,
    number: u32,
    told: Option<u32>,
) -> Result<(), AllocError>
    ensures { OnOk result (ListingPuts world.now place number told orders.old.items orders.new.items) }
{
    match told {
        Some(create) => put_on(world, orders, place, number, create),
        None => Ok(()),
    }
}

/// The message at a place is one of this operation.
fn note(
    world: &EndedWorld,
    orders: &mut Vec<Order>,
    place: u64,
    number: u32,
) -> Result<(), AllocError>
    ensures { OnOk result (ListingNotes world.now place number orders.old.items orders.new.items) }
{
    let told = open_at(world, number, place)?;
    put(world, orders, place, number, told)
}

fn note_all(world: &EndedWorld, orders: &mut Vec<Order>) -> Result<(), AllocError>
    ensures { OnOk result (NotesAll world.now orders.old.items orders.new.items) }
{
    let served = world.places.served.as_slice();
    for place in 0..served.len() {
        note(world, orders, place as u64, served[place])?;
    }
    Ok(())
}

/// By the number of its create, the order of each open. It looks once at each message that the server took.
pub fn orders(world: &EndedWorld) -> Result<Vec<Order>, AllocError>
    ensures { IfOk result (λ v. (z : WorldSettings) (w : bytes.World) → ShowsEnded z world.now w
        → AreOrders w.values.client.taken (account w.values) v.items) }
{
    let mut orders = bare(world.alloc, world.places.marks.len())?;
    note_all(world, &mut orders)?;
    Ok(orders)
}
