// The orders of creates.
ghost use Rattle.std.specs.Prelude.{◌≡◌, ◌++◌, IfOk, OnOk};
ghost use Rattle.std.specs.List.{flat_map};
ghost use Rattle.std.specs.String.{string_bytes};
ghost use Rattle.spec_exchange.specs.Commands.{has_bit};
ghost use Rattle.spec_exchange.specs.Opens.{denies_writers};
ghost use Rattle.client_values.specs.operations.Meaning.{op_of};
ghost use Rattle.client_values.specs.outcomes.Meaning.{outcome_of};
ghost use Rattle.script_words.specs.outcome_lines.Text as text;

use base_lists::ListOf;
use client_values::{OpKind, Outcome};
use std::alloc::{AllocError, Global};
use std::fmt::Write;

/// Numbers of operations.
pub type NumberList = ListOf<u32>;

/// A create, and the writes, ends and reads of its open in the order in which the server took them.
#[derive(Drop)]
pub struct CreateOrder {
    pub create: u32,
    pub numbers: NumberList,
}

/// Whether an operation's order is printed: it is a create that settled Ok, and its share access lacks writing, so that what other
/// opens do leaves the bytes of its file.
pub fn has_order(op: &OpKind, outcome: &Outcome) -> bool
    ensures { result ≡ text.has_order (op_of op.now) (outcome_of outcome.now) }
{
    match op {
        OpKind::Create { share, .. } => outcome.is_ok() && keeps_writers_out(*share),
        _ => false,
    }
}

#[tactic(auto, unfolding(spec_exchange::specs::Opens::denies_writers))]
fn keeps_writers_out(share: u32) -> bool
    ensures { result ≡ denies_writers share }
{
    !shares_writing(share)
}

// FILE_SHARE_WRITE (MS-SMB2 2.2.13).
#[tactic(auto, unfolding(spec_exchange::specs::Commands::has_bit))]
fn shares_writing(share: u32) -> bool
    ensures { result ≡ has_bit share 0x2 }
{
    share / 2 % 2 == 1
}

/// Adds a line for each order.
pub(crate) fn push_orders(
    alloc: Global,
    out: &mut String,
    orders: &[CreateOrder],
) -> Result<(), AllocError>
    ensures { OnOk result (string_bytes out.new ≡ string_bytes out.old ++ flat_map text.order_line orders.now) }
{
    for order in orders {
        push_order(alloc, out, order)?;
    }
    Ok(())
}

#[tactic(auto, unfolding(crate::specs::outcome_lines::Text::order_line))]
fn push_order(alloc: Global, out: &mut String, order: &CreateOrder) -> Result<(), AllocError>
    ensures { OnOk result (string_bytes out.new ≡ string_bytes out.old ++ text.order_line order.now) }
{
    let create = order.create;
    let numbers = numbers_text(alloc, order.numbers.as_slice())?;
    writeln!(out, "order {create}{numbers}")
}

fn numbers_text(alloc: Global, numbers: &[u32]) -> Result<String, AllocError>
    ensures { IfOk result (λ shown. string_bytes shown ≡ flat_map text.behind_space numbers.now) }
{
    let mut shown = String::new(alloc);
    for number in numbers {
        push_number(&mut shown, *number)?;
    }
    Ok(shown)
}

fn push_number(out: &mut String, number: u32) -> Result<(), AllocError>
    ensures { OnOk result (string_bytes out.new ≡ string_bytes out.old ++ text.behind_space number) }
{
    write!(out, " {number}")
}
