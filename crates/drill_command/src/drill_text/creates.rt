// The orders of creates that are printed.
ghost use Rattle.std.specs.Prelude.{◌≡◌, ◌+◌, ◌<◌, ◌++◌, ◌∷◌, [], length, slice_get, Some, IfOk, IfSome, OnOk};
ghost use Rattle.spec_exchange.specs.Network.{World as Values};
ghost use Rattle.spec_exchange.specs.Order.{order_of as order_in};
ghost use Rattle.spec_exchange.specs.Runs.{account};
ghost use Rattle.drill_command.specs.drill_text.Ordered.{AddsOrder, IsToldBy, ordered_in, ordered_with};
ghost use Rattle.drill_command.specs.drill_text.Text.{orders_to};
ghost use Rattle.world_ends.specs.results.Listing.{AreOrders};

use client_values::{OpKind, Outcome};
use script_words::{CreateOrder, NumberList, has_order};
use std::alloc::{AllocError, Global};
use world_ends::Order;

fn is_ordered_with(op: &OpKind, settled: &[Outcome], place: usize) -> bool
    ensures { result ≡ ordered_with op.now (slice_get settled.now place) }
{
    match settled.get(place) {
        Some(outcome) => has_order(op, outcome),
        None => false,
    }
}

/// Whether the order of the operation at a place is printed.
fn is_ordered(ops: &[OpKind], settled: &[Outcome], place: usize) -> bool
    ensures { result ≡ ordered_in (slice_get ops.now place) (slice_get settled.now place) }
{
    match ops.get(place) {
        Some(op) => is_ordered_with(op, settled, place),
        None => false,
    }
}

/// The number of the operation at a place.
fn number_at(place: usize) -> Option<u32>
    ensures { IfSome result (λ number. number ≡ place + 1) }
{
    if place < u32::MAX as usize {
        return Some(place as u32 + 1);
    }
    None
}

fn order_with(alloc: Global, create: u32, numbers: &[u32]) -> Result<CreateOrder, AllocError>
    ensures { IfOk result (λ order. order ≡ record { create = create; numbers = numbers.now }) }
{
    let numbers = NumberList::from_slice(alloc, numbers)?;
    Ok(CreateOrder { create, numbers })
}

fn order_at(told: &[Order], at: usize) -> &Order
    requires { at < length told.now }
    ensures { slice_get told.now at ≡ Some result.now }
{
    &told[at]
}

/// The order of one create.
fn order_of(alloc: Global, told: &[Order], create: u32) -> Result<CreateOrder, AllocError>
    ensures { IfOk result (λ order. (w : Values) → AreOrders w.client.taken (account w) told.now
        → order ≡ record { create = create; numbers = order_in (account w) create }) }
{
    let at = create as usize;
    let within = at < told.len();
    if within {
        return order_with(alloc, create, order_at(told, at).numbers.as_slice());
    }
    Err(AllocError)
}

fn push_order(
    alloc: Global,
    told: &[Order],
    orders: &mut Vec<CreateOrder>,
    create: u32,
) -> Result<(), AllocError>
    ensures { OnOk result ((w : Values) → AreOrders w.client.taken (account w) told.now
        → orders.new.items ≡ orders.old.items ++ record { create = create; numbers = order_in (account w) create } ∷ []) }
{
    let order = order_of(alloc, told, create)?;
    orders.push(order)?;
    Ok(())
}

/// The order of the operation at a place, where it is printed. A place without a number counts as memory that ran out.
fn add_order(
    alloc: Global,
    ordered: bool,
    told: &[Order],
    orders: &mut Vec<CreateOrder>,
    place: usize,
) -> Result<(), AllocError>
    ensures { OnOk result (AddsOrder ordered told.now orders.old.items place orders.new.items) }
{
    if !ordered {
        return Ok(());
    }
    match number_at(place) {
        Some(create) => push_order(alloc, told, orders, create),
        None => Err(AllocError),
    }
}

/// Those of all operations, upwards by their numbers.
pub(crate) fn orders_of(
    alloc: Global,
    ops: &[OpKind],
    settled: &[Outcome],
    told: &[Order],
) -> Result<Vec<CreateOrder>, AllocError>
    ensures { IfOk result (λ orders. (w : Values) → IsToldBy w ops.now settled.now → AreOrders w.client.taken (account w) told.now
        → orders.items ≡ orders_to w w.client.taken) }
{
    let mut orders = Vec::new(alloc);
    let mut place = 0;
    while place < ops.len() {
        let ordered = is_ordered(ops, settled, place);
        add_order(alloc, ordered, told, &mut orders, place)?;
        place += 1;
    }
    Ok(orders)
}
