//! Of each create the reads, writes and ends of its open, in the order of their responses.
ghost use Rattle.std.specs.Prelude.{◌≡◌, ◌+◌, ◌<◌, ◌≤◌, ◌++◌, ◌∷◌, [], ℕ, List, length, map, slice_get, Some, IfOk, IfSome, OnOk};
ghost use Rattle.spec_exchange.specs.Operations.{Op};
ghost use Rattle.client_values.specs.operations.Meaning.{op_of};
ghost use Rattle.client_values.specs.outcomes.Meaning.{outcome_of};
ghost use Rattle.run_command.specs.Listing.{AreNumbersOf, ListsMore, ListsNext, at_number, has_order_in, has_order_with, listed_in, listed_on, receipt_orders};
ghost use Rattle.run_command.specs.Listing.{AddsReceipt};

use client_values::{OpKind, Outcome};
use script_words::{CreateOrder, NumberList, has_order};
use std::alloc::{AllocError, Global};

/// The create on whose open a read, a write or an end is.
fn listed_on(kind: &OpKind) -> Option<u32>
    ensures { result ≡ listed_on kind.now }
{
    match kind {
        OpKind::Write { create, .. } => Some(*create),
        OpKind::Read { create, .. } => Some(*create),
        OpKind::SetEnd { create, .. } => Some(*create),
        _ => None,
    }
}

/// The same of an operation by its number.
fn listed_at(ops: &[OpKind], number: u32) -> Option<u32>
    ensures { result ≡ listed_in (at_number ops.now number) }
{
    if number == 0 {
        return None;
    }
    match ops.get(number as usize - 1) {
        Some(kind) => listed_on(kind),
        None => None,
    }
}

/// So many lists without a number.
fn bare(alloc: Global, count: usize) -> Result<Vec<NumberList>, AllocError>
    ensures { IfOk result (λ v. (ops : List OpKind) → AreNumbersOf ops [] count v.items) }
{
    let mut lists = Vec::with_capacity(alloc, count)?;
    let mut at = 0;
    while at < count {
        lists.push(NumberList::new(alloc))?;
        at += 1;
    }
    Ok(lists)
}

/// The list of a create has a number more; of no create nothing changes.
fn add_at(lists: &mut Vec<NumberList>, create: u32, number: u32) -> Result<(), AllocError>
    ensures { OnOk result (ListsMore create number lists.old.items lists.new.items) }
{
    let at = create as usize;
    let within = at < lists.len();
    if within {
        return lists[at].push(number);
    }
    Ok(())
}

fn add(ops: &[OpKind], lists: &mut Vec<NumberList>, number: u32) -> Result<(), AllocError>
    ensures { OnOk result (ListsNext ops.now number lists.old.items lists.new.items) }
{
    match listed_at(ops, number) {
        Some(create) => add_at(lists, create, number),
        None => Ok(()),
    }
}

/// By the number of its create, what of an order is on each open. It looks once at each number.
pub(crate) fn lists_of(
    alloc: Global,
    ops: &[OpKind],
    order: &[u32],
) -> Result<Vec<NumberList>, AllocError>
    ensures { IfOk result (λ v. AreNumbersOf ops.now order.now (length ops.now + 1) v.items) }
{
    let mut lists = bare(alloc, ops.len() + 1)?;
    for place in 0..order.len() {
        add(ops, &mut lists, order[place])?;
    }
    Ok(lists)
}

/// What a create's list holds; none where it has no list.
pub(crate) fn list_at(lists: &[NumberList], create: usize) -> &[u32]
    requires { create < length lists.now }
    ensures { slice_get lists.now create ≡ Some result.now }
{
    lists[create].as_slice()
}

fn is_ordered_with(op: &OpKind, settled: &[Outcome], place: usize) -> bool
    ensures { result ≡ has_order_with op.now (slice_get settled.now place) }
{
    match settled.get(place) {
        Some(outcome) => has_order(op, outcome),
        None => false,
    }
}

/// Whether the order of the operation at a place is printed.
fn is_ordered(ops: &[OpKind], settled: &[Outcome], place: usize) -> bool
    ensures { result ≡ has_order_in (slice_get ops.now place) (slice_get settled.now place) }
{
    match ops.get(place) {
        Some(op) => is_ordered_with(op, settled, place),
        None => false,
    }
}

/// The number of the operation at a place. One without a number of 32 bits counts as memory that ran out.
pub(crate) fn number_at(place: usize) -> Result<u32, AllocError>
    ensures { IfOk result (λ number. number ≡ place + 1) }
{
    if place < u32::MAX as usize {
        return Ok(place as u32 + 1);
    }
    Err(AllocError)
}

fn add_order(
    alloc: Global,
    ordered: bool,
    lists: &[NumberList],
    orders: &mut Vec<CreateOrder>,
    place: usize,
) -> Result<(), AllocError>
    requires { place + 1 < length lists.now }
    ensures { OnOk result (AddsReceipt ordered lists.now place orders.old.items orders.new.items) }
{
    if !ordered {
        return Ok(());
    }
    let create = number_at(place)?;
    let numbers = NumberList::from_slice(alloc, list_at(lists, place + 1))?;
    orders.push(CreateOrder { create, numbers })?;
    Ok(())
}

/// The orders of all operations, upwards by their numbers.
pub(crate) fn orders_of(
    alloc: Global,
    ops: &[OpKind],
    settled: &[Outcome],
    lists: &[NumberList],
) -> Result<Vec<CreateOrder>, AllocError>
    requires { length lists.now ≡ length ops.now + 1 }
    ensures { IfOk result (λ orders. (order : List ℕ) → AreNumbersOf ops.now order (length ops.now + 1) lists.now
        → orders.items ≡ receipt_orders ops.now settled.now order (length ops.now)) }
{
    let mut orders = Vec::new(alloc);
    let mut place = 0;
    while place < ops.len() {
        let ordered = is_ordered(ops, settled, place);
        add_order(alloc, ordered, lists, &mut orders, place)?;
        place += 1;
    }
    Ok(orders)
}
