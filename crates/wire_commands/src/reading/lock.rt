//! LOCK.
ghost use Rattle.std.specs.Prelude.{◌≡◌, ◌/◌, ◌≤◌, length, drop, None, IfOk, OnErr};
ghost use Rattle.spec_commands.specs.CommandOf;
ghost use Rattle.spec_wire.specs.messages.Lock.{lock_request_fault};
ghost use Rattle.wire_commands.specs.values.Meaning;
ghost use Rattle.wire_bytes.specs.file_messages.Views.{lock_request};

use crate::reading::ids::file_of;
use crate::reading::status::unreadable;
use crate::values::Command;
use spec_exchange::values::Element;
use std::alloc::{AllocError, Global};
use wire_bytes::{LockRequest, lock_element_at, read_lock_request};

// The bytes behind an element.
fn behind(locks: &[u8]) -> &[u8]
    requires { 24 ≤ length locks.now }
    ensures { result.now ≡ drop 24 locks.now }
{
    &locks[24..]
}

// The elements that bytes hold, 24 bytes each.
#[tactic(auto, using(crate::proofs::reading::Elements::elements_go_on, crate::proofs::reading::Elements::elements_end))]
fn elements_in(alloc: Global, locks: &[u8]) -> Result<Vec<Element>, AllocError>
    ensures { IfOk result (λ v. v.items ≡ CommandOf.elements_in (length locks.now / 24) locks.now) }
{
    let mut elements = Vec::new(alloc);
    let mut rest = locks;
    loop {
        let Some(found) = lock_element_at(rest, 0) else {
            return Ok(elements);
        };
        elements.push(Element {
            at: found.offset,
            length: found.length,
            flags: found.flags,
        })?;
        rest = behind(rest);
    }
}

fn lock_of<'a>(alloc: Global, v: &LockRequest<'_>) -> Result<Command<'a>, AllocError>
    ensures { IfOk result (λ c. Meaning.command_of c ≡ CommandOf.lock_of (lock_request v.now)) }
{
    let elements = elements_in(alloc, v.locks)?;
    Ok(Command::Lock {
        file: file_of(&v.file_id),
        index: v.lock_sequence / 16,
        number: (v.lock_sequence % 16) as u8,
        elements,
    })
}

#[tactic(auto, unfolding(spec_commands::specs::CommandOf::lock_in), using(crate::proofs::reading::Unless::reads_or_breaks))]
pub(crate) fn lock_in(alloc: Global, m: &[u8]) -> Result<Command<'_>, AllocError>
    ensures lacks { OnErr result (lock_request_fault m.now ≡ None) }
    ensures reads { IfOk result (λ c. Meaning.command_of c ≡ CommandOf.lock_in m.now) }
{
    match read_lock_request(m) {
        Ok(v) => lock_of(alloc, &v),
        Err(error) => Ok(unreadable(error)),
    }
}
