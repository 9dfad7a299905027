// A new journal.
ghost use Rattle.std.specs.Prelude.{◌≡◌, [], ◌∷◌, ◌++◌, replicate, OnOk};
ghost use Rattle.base_outside.specs.streams.Disk.{Only};
ghost use Rattle.base_outside.specs.streams.Faults.{CountsFault};
ghost use Rattle.spec_wire.specs.journal.Grammar.{magic};
ghost use Rattle.spec_journal.specs.Forms.{StandsFor};
ghost use Rattle.spec_wire.specs.journal.Moments.{LeavesOnly};
ghost use Rattle.journal.specs.disk_journal.Entry.{IsEntryShort, IsEntryNew};

use base_outside::{Disk, Failed};

// Zeros where the magic will stand, and then a closed gate behind them.
fn blank<D: Disk>(disk: &mut D) -> Result<(), Failed>
    ensures done { D.told → IsEntryNew (D.seen disk.old) (D.may_leave disk.old)
        → OnOk result ((D.seen disk.new ≡ replicate 8 0 ++ 0 ∷ []) × Only (D.seen disk.new) (D.may_leave disk.new)) }
    ensures any_moment { D.told → IsEntryNew (D.seen disk.old) (D.may_leave disk.old) → LeavesOnly D.moment D.left_since
        disk.old disk.new IsEntryShort }
    ensures cause { CountsFault (D.faults disk.old) (D.faults disk.new) result }
{
    disk.write_at(0, &[0; 8])?;
    disk.sync()?;
    disk.write_at(8, &[0])?;
    disk.sync()?;
    Ok(())
}

fn write_magic<D: Disk>(disk: &mut D) -> Result<(), Failed>
    ensures done { D.told → D.seen disk.old ≡ replicate 8 0 ++ 0 ∷ [] → Only (D.seen disk.old) (D.may_leave disk.old)
        → OnOk result ((D.seen disk.new ≡ magic ++ 0 ∷ []) × Only (D.seen disk.new) (D.may_leave disk.new)) }
    ensures any_moment { D.told → D.seen disk.old ≡ replicate 8 0 ++ 0 ∷ [] → Only (D.seen disk.old) (D.may_leave disk.old)
        → LeavesOnly D.moment D.left_since disk.old disk.new IsEntryShort }
    ensures cause { CountsFault (D.faults disk.old) (D.faults disk.new) result }
{
    disk.write_at(0, b"smb311j1")?;
    disk.sync()?;
    Ok(())
}

/// Makes a new journal of a disk of at most 9 bytes on which nothing waits for a sync. A crash at any
/// moment leaves a disk that stands for no bodies. `Failed` comes only where the count of faults rose.
pub fn prepare<D: Disk>(disk: &mut D) -> Result<(), Failed>
    requires { D.told → IsEntryNew (D.seen disk.old) (D.may_leave disk.old) }
    ensures done { OnOk result (D.told → (D.seen disk.new ≡ magic ++ 0 ∷ []) × Only (D.seen disk.new) (D.may_leave disk.new)) }
    ensures any_moment { D.told → LeavesOnly D.moment D.left_since disk.old disk.new (λ c. StandsFor c []) }
    ensures cause { CountsFault (D.faults disk.old) (D.faults disk.new) result }
{
    // The disk never has more than 9 bytes here, and so few stand for no bodies whatever they are.
    blank(disk)?;
    write_magic(disk)
}
