// A journal that is written anew in a draft, which then takes its disk's place.
ghost use Rattle.std.specs.Prelude.{◌≡◌, ◌⊎◌, ℕ, ◌+◌, ◌≤◌, ◌<◌, ◌^◌, List, [], ◌∷◌, ◌++◌, length, OnOk, OnErr, vec_capacity};
ghost use Rattle.base_outside.specs.streams.Disk.{Only};
ghost use Rattle.base_outside.specs.streams.Steps.{IfDone, IfNoRoom};
ghost use Rattle.base_outside.specs.streams.Faults.{CountsFault};
ghost use Rattle.spec_journal.specs.Forms.{form_entry, form_front, form_mark};
ghost use Rattle.spec_journal.specs.declared.form.Form.TheVariants as forms;
ghost use Rattle.spec_wire.specs.journal.Moments.{LeavesOnly, Quiet};

use crate::disk_journal::journal::push_sum;
use base_outside::{DiskStep, Failed, Renewal};
use spec_journal::Form;
use std::alloc::AllocError;
use std::marker::Model;

/// How far a draft has come. A contract sees where the gate behind its bodies will stand, how many bytes it will use with that gate but
/// for checksums, and how many bodies it has.
#[derive(Drop)]
pub struct Rewrite {
    pub(crate) gate: u64,
    pub(crate) used: u64,
    pub(crate) count: u64,
}

impl Model for Rewrite {
    ghost use Rattle.std.specs.Prelude.{◌+◌, ◌*◌, ◌≤◌, ◌^◌};
    ghost use Rattle.journal.specs.disk_journal.Rewrite.{RewriteState};

    ghost Value = { RewriteState };

    ghost view = { λ r. record { gate = r.gate; used = r.used; count = r.count } };

    ghost invariant = { λ r. (8 ≤ r.gate) × (r.used ≤ r.gate + 1) × (r.gate + 1 ≤ 2 * r.used) × (r.count + 9 ≤ r.used) × (r.used ≤ 2 ^ 30) };
}

impl Rewrite {
    ghost use Rattle.std.specs.Prelude.{◌≡◌};

    // Of no bodies: the mark, and the gate that will stand behind it.
    pub(crate) fn new() -> Rewrite
        ensures { result ≡ record { gate = 8; used = 9; count = 0 } }
    {
        Rewrite {
            gate: 8,
            used: 9,
            count: 0,
        }
    }
}

/// Begins a draft with the mark of the second form.
pub(crate) fn begin_marked<D: Renewal>(disk: &mut D) -> Result<DiskStep, Failed>
    ensures begun { D.told → IfDone result (D.drafted disk.new ≡ form_mark forms.Summed) }
    ensures quiet { Quiet D.told D.seen D.may_leave D.moment D.left_since disk.old disk.new }
    ensures cause { CountsFault (D.faults disk.old) (D.faults disk.new) result }
{
    match disk.begin_draft() {
        Ok(DiskStep::Done) => put_quiet(disk, b"smb311j2"),
        Ok(DiskStep::NoRoom) => Ok(DiskStep::NoRoom),
        Err(failed) => Err(failed),
    }
}

/// Writes bytes at the draft's end.
pub(crate) fn put_quiet<D: Renewal>(disk: &mut D, from: &[u8]) -> Result<DiskStep, Failed>
    ensures put { D.told → IfDone result (D.drafted disk.new ≡ D.drafted disk.old ++ from.now) }
    ensures quiet { Quiet D.told D.seen D.may_leave D.moment D.left_since disk.old disk.new }
    ensures cause { CountsFault (D.faults disk.old) (D.faults disk.new) result }
{
    disk.put_draft(from)
}

/// Puts a closed gate behind the draft, which then takes the disk's place.
pub(crate) fn close_and_adopt<D: Renewal>(disk: &mut D) -> Result<DiskStep, Failed>
    ensures adopted { D.told → IfDone result ((D.seen disk.new ≡ D.drafted disk.old ++ 0 ∷ []) × Only (D.seen disk.new) (D.may_leave disk.new)) }
    ensures given_up { IfNoRoom result (Quiet D.told D.seen D.may_leave D.moment D.left_since disk.old disk.new) }
    ensures any_moment { D.told → LeavesOnly D.moment D.left_since disk.old disk.new
        (λ c. D.may_leave disk.old c ⊎ (c ≡ D.drafted disk.old ++ 0 ∷ [])) }
    ensures cause { CountsFault (D.faults disk.old) (D.faults disk.new) result }
{
    match put_quiet(disk, &[0]) {
        Ok(DiskStep::Done) => disk.adopt(),
        Ok(DiskStep::NoRoom) => Ok(DiskStep::NoRoom),
        Err(failed) => Err(failed),
    }
}

/// An open gate and the entry behind it, with its checksum.
#[tactic(auto, using(wire_bytes::proofs::byte_lists::Endian::le_4))]
pub(crate) fn fill_opened(buffer: &mut Vec<u8>, body: &[u8]) -> Result<(), AllocError>
    requires { length body.now < 2 ^ 32 }
    ensures filled { OnOk result (buffer.new.items ≡ 1 ∷ form_entry forms.Summed body.now) }
    ensures room { vec_capacity buffer.old ≤ vec_capacity buffer.new }
    ensures full { OnErr result (vec_capacity buffer.old < length body.now + 9) }
{
    let front = (body.len() as u32).to_le_bytes();
    buffer.clear();
    buffer.push(1)?;
    buffer.extend_from_slice(&front)?;
    push_sum(buffer, Form::Summed, &front, body)?;
    buffer.extend_from_slice(body)?;
    Ok(())
}
