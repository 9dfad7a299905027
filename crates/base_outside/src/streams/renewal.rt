// A disk that is written anew beside itself.
ghost use Rattle.std.specs.Prelude.{◌≡◌, ◌⊎◌, ℕ, List, [], ◌++◌};
ghost use Rattle.base_outside.specs.streams.Disk.{Only, Elapses};
ghost use Rattle.base_outside.specs.streams.Steps.{IfDone, IfNoRoom};
ghost use Rattle.base_outside.specs.streams.Faults.{CountsFault};

use crate::streams::{Disk, DiskStep, Failed};

/// A disk with a draft beside it that may take its place, at once or not at all.
///
/// A step on the draft changes nothing of the disk: what a read gives, and what a crash may leave. While the draft takes its place a crash
/// leaves what it could leave before, or what the draft holds; once it has, nothing else. That there is no room is no fault: then the
/// draft is given up, and its room goes back to the disk.
pub trait Renewal: Disk {
    /// What the draft holds, where the disk tells it.
    ghost drafted: { Self → List ℕ };

    /// Begins a draft without bytes, in place of one that was left.
    fn begin_draft(&mut self) -> Result<DiskStep, Failed>
        ensures begun { IfDone result (Self.told → drafted self.new ≡ []) }
        ensures seen { Self.told → Self.seen self.new ≡ Self.seen self.old }
        ensures crash { (c : List ℕ) → Self.may_leave self.new c → Self.may_leave self.old c }
        ensures time { Elapses (Self.moment self.old) (Self.moment self.new) (Self.left_since self.old) (Self.left_since self.new)
            (Self.may_leave self.new) }
        ensures cause { CountsFault (Self.faults self.old) (Self.faults self.new) result };

    /// Writes bytes at the draft's end.
    fn put_draft(&mut self, from: &[u8]) -> Result<DiskStep, Failed>
        ensures put { IfDone result (Self.told → drafted self.new ≡ drafted self.old ++ from.now) }
        ensures seen { Self.told → Self.seen self.new ≡ Self.seen self.old }
        ensures crash { (c : List ℕ) → Self.may_leave self.new c → Self.may_leave self.old c }
        ensures time { Elapses (Self.moment self.old) (Self.moment self.new) (Self.left_since self.old) (Self.left_since self.new)
            (Self.may_leave self.new) }
        ensures cause { CountsFault (Self.faults self.old) (Self.faults self.new) result };

    /// The draft takes the disk's place. Where there is no room the disk stays as it was.
    fn adopt(&mut self) -> Result<DiskStep, Failed>
        ensures adopted { IfDone result (Self.told → (Self.seen self.new ≡ drafted self.old)
            × Only (Self.seen self.new) (Self.may_leave self.new)) }
        ensures given_up { IfNoRoom result ((Self.told → Self.seen self.new ≡ Self.seen self.old)
            × ((c : List ℕ) → Self.may_leave self.new c → Self.may_leave self.old c)) }
        ensures seen { Self.told → (Self.seen self.new ≡ Self.seen self.old) ⊎ (Self.seen self.new ≡ drafted self.old) }
        ensures crash { (c : List ℕ) → Self.may_leave self.new c → Self.may_leave self.old c ⊎ (Self.told → c ≡ drafted self.old) }
        ensures time { Elapses (Self.moment self.old) (Self.moment self.new) (Self.left_since self.old) (Self.left_since self.new)
            (Self.may_leave self.new) }
        ensures cause { CountsFault (Self.faults self.old) (Self.faults self.new) result };
}

impl<D: Renewal> Renewal for &mut D {
    ghost drafted = { λ d. D.drafted d.now };

    fn begin_draft(&mut self) -> Result<DiskStep, Failed> {
        (**self).begin_draft()
    }

    fn put_draft(&mut self, from: &[u8]) -> Result<DiskStep, Failed> {
        (**self).put_draft(from)
    }

    fn adopt(&mut self) -> Result<DiskStep, Failed> {
        (**self).adopt()
    }
}
