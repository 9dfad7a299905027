// What a new operation waits for is listed, and its bytes are covered; or neither is.
ghost use Rattle.std.specs.Prelude.{◌≡◌, ◌<◌, length, OnOk, OnErr, IfOk};
ghost use Rattle.client_rows.specs.operation_rows.Rows.{stands};
ghost use Rattle.base_lists.specs.range_index.Shown.{top};
ghost use Rattle.base_lists.specs.range_index.Tops.{RangeGoesOn};
ghost use Rattle.client_rows.specs.open_marks.Marks.{ListsHolders, mark_of, top_of};
ghost use Rattle.client_tables.specs.opens.Opened.{OpenBehind, OpenStays};

use crate::opens::covering::cover;
use crate::opens::opening::Open;
use client_rows::{Row, list_holders};
use client_values::Shape;
use std::alloc::AllocError;

/// Where an operation's part of the list begins and ends.
#[derive(Clone, Copy)]
pub struct Stretch {
    pub begin: u32,
    pub end: u32,
}

fn length_of(holders: &Vec<u32>) -> usize
    ensures { result ≡ length holders.now.items }
{
    holders.len()
}

/// A length as a number of 32 bits. A list that is longer is as one for which there is no memory.
fn number_of(length: usize) -> Result<u32, AllocError>
    ensures { IfOk result (λ n. n ≡ length) }
{
    if length > u32::MAX as usize {
        return Err(AllocError);
    }
    Ok(length as u32)
}

/// Lists what a new operation waits for.
fn list(
    rows: &[Row],
    opened: &Open,
    shape: &Shape,
    holders: &mut Vec<u32>,
) -> Result<Stretch, AllocError>
    requires close { opened.now.marks.close < length rows.now }
    requires mark { mark_of shape.now.kind opened.now.marks < length rows.now }
    ensures begins { IfOk result (λ s. s.begin ≡ length holders.old.items) }
    ensures ends { IfOk result (λ s. s.end ≡ length holders.new.items) }
    ensures listed { OnOk result (ListsHolders (stands rows.now) opened.now.marks.close (mark_of shape.now.kind opened.now.marks)
        (λ x. top_of shape.now.kind (top opened.now.written) (top opened.now.locked) x) shape.now.at shape.now.size holders.old.items
        holders.new.items) }
    ensures goes { RangeGoesOn holders.old.items holders.new.items }
{
    let begin = number_of(length_of(holders))?;
    list_holders(
        rows,
        &opened.marks,
        &opened.written,
        &opened.locked,
        shape.kind,
        shape.at,
        shape.size,
        holders,
    )?;
    let end = number_of(length_of(holders))?;
    Ok(Stretch { begin, end })
}

fn list_and_cover(
    rows: &[Row],
    opened: &mut Open,
    shape: &Shape,
    number: u32,
    holders: &mut Vec<u32>,
) -> Result<Stretch, AllocError>
    requires close { opened.old.marks.close < length rows.now }
    requires mark { mark_of shape.now.kind opened.old.marks < length rows.now }
    ensures begins { IfOk result (λ s. s.begin ≡ length holders.old.items) }
    ensures ends { IfOk result (λ s. s.end ≡ length holders.new.items) }
    ensures listed { OnOk result (ListsHolders (stands rows.now) opened.old.marks.close (mark_of shape.now.kind opened.old.marks)
        (λ x. top_of shape.now.kind (top opened.old.written) (top opened.old.locked) x) shape.now.at shape.now.size holders.old.items
        holders.new.items) }
    ensures goes { RangeGoesOn holders.old.items holders.new.items }
    ensures marks { opened.new.marks ≡ opened.old.marks }
    ensures covers { OnOk result (OpenBehind shape.now.kind (top opened.old.written) (top opened.new.written) (top opened.old.locked)
        (top opened.new.locked) shape.now.at shape.now.size number) }
    ensures stays { OnErr result (OpenStays (top opened.old.written) (top opened.new.written) × OpenStays (top opened.old.locked)
        (top opened.new.locked)) }
{
    // Listed first: once its own bytes are covered, it would find itself.
    let stretch = list(rows, opened, shape, holders)?;
    cover(
        shape.kind,
        shape.at,
        shape.size,
        number,
        &mut opened.written,
        &mut opened.locked,
    )?;
    Ok(stretch)
}

/// Lists what a new operation waits for, and covers its bytes. Where memory runs out the list is as it was, and the open too.
pub fn note(
    rows: &[Row],
    opened: &mut Open,
    shape: &Shape,
    number: u32,
    holders: &mut Vec<u32>,
) -> Result<Stretch, AllocError>
    requires close { opened.old.marks.close < length rows.now }
    requires mark { mark_of shape.now.kind opened.old.marks < length rows.now }
    ensures begins { IfOk result (λ s. s.begin ≡ length holders.old.items) }
    ensures ends { IfOk result (λ s. s.end ≡ length holders.new.items) }
    ensures listed { OnOk result (ListsHolders (stands rows.now) opened.old.marks.close (mark_of shape.now.kind opened.old.marks)
        (λ x. top_of shape.now.kind (top opened.old.written) (top opened.old.locked) x) shape.now.at shape.now.size holders.old.items
        holders.new.items) }
    ensures goes { RangeGoesOn holders.old.items holders.new.items }
    ensures marks { opened.new.marks ≡ opened.old.marks }
    ensures covers { OnOk result (OpenBehind shape.now.kind (top opened.old.written) (top opened.new.written) (top opened.old.locked)
        (top opened.new.locked) shape.now.at shape.now.size number) }
    ensures stays { OnErr result (OpenStays (top opened.old.written) (top opened.new.written) × OpenStays (top opened.old.locked)
        (top opened.new.locked)) }
    ensures kept { OnErr result (holders.new.items ≡ holders.old.items) }
{
    let begin = length_of(holders);
    match list_and_cover(rows, opened, shape, number, holders) {
        Ok(stretch) => Ok(stretch),
        Err(error) => {
            holders.truncate(begin);
            Err(error)
        }
    }
}
