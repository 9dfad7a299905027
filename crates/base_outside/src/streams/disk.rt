// Where bytes stay.
ghost use Rattle.std.specs.Prelude.{◌≡◌, ◌⊎◌, ℕ, ◌≤◌, List, length, take, IfOk, OnOk};
ghost use Rattle.base_outside.specs.streams.Disk.{ReadsAt, WritesAt, Torn, CutShort, Follows, Only, Elapses};
ghost use Rattle.base_outside.specs.streams.Faults.{CountsFault};

use crate::streams::Failed;

/// Bytes that outlive the program, as a file.
///
/// Between two syncs each written range and what lies past the old end may hold any bytes after a
/// crash, and a cut is done, in part or whole, or not done; other bytes stay. After a sync that succeeds
/// a crash leaves what a read gives. `Failed` comes only where the count of faults rose.
pub trait Disk {
    /// Whether disks of this kind tell their bytes.
    ghost told: { Type 0 };

    /// What a read gives, where the disk tells it.
    ghost seen: { Self → List ℕ };

    /// What a crash at this moment may leave.
    ghost may_leave: { Self → List ℕ → Type 0 };

    /// The moment, as a number that never falls.
    ghost moment: { Self → ℕ };

    /// What a crash at some moment from that one on may have left, during a call or between two.
    ghost left_since: { Self → ℕ → List ℕ → Type 0 };

    /// How often the disk has failed. It never falls.
    ghost faults: { Self → ℕ };

    /// The count of faults.
    fn fault_count(&self) -> u64
        ensures { result ≡ faults self.now };

    /// How many bytes the disk holds.
    fn length(&mut self) -> Result<u64, Failed>
        ensures value { IfOk result (λ count. told → count ≡ length (seen self.old)) }
        ensures seen { told → seen self.new ≡ seen self.old }
        ensures crash { (c : List ℕ) → may_leave self.new c → may_leave self.old c }
        ensures time { Elapses (moment self.old) (moment self.new) (left_since self.old) (left_since self.new) (may_leave self.new) }
        ensures cause { CountsFault (faults self.old) (faults self.new) result };

    /// Reads some bytes from a place on into the front of a buffer and says how many. 0 for a buffer
    /// that is not empty is the end.
    fn read(&mut self, at: u64, into: &mut [u8]) -> Result<usize, Failed>
        ensures bound { IfOk result (λ count. count ≤ length into.new) }
        ensures bytes { IfOk result (λ count. told → ReadsAt (seen self.old) at count into.new) }
        ensures seen { told → seen self.new ≡ seen self.old }
        ensures crash { (c : List ℕ) → may_leave self.new c → may_leave self.old c }
        ensures time { Elapses (moment self.old) (moment self.new) (left_since self.old) (left_since self.new) (may_leave self.new) }
        ensures cause { CountsFault (faults self.old) (faults self.new) result };

    /// Writes all of a piece over what is there and past the end.
    fn write_at(&mut self, at: u64, from: &[u8]) -> Result<(), Failed>
        ensures written { OnOk result (told → WritesAt (seen self.old) at from.now (seen self.new)) }
        ensures crash { Follows (Torn at (length from.now)) (may_leave self.old) (may_leave self.new) }
        ensures time { Elapses (moment self.old) (moment self.new) (left_since self.old) (left_since self.new) (may_leave self.new) }
        ensures cause { CountsFault (faults self.old) (faults self.new) result };

    /// Cuts what lies behind so many bytes. It never lengthens.
    fn cut(&mut self, length: u64) -> Result<(), Failed>
        ensures cut { OnOk result (told → seen self.new ≡ take length (seen self.old)) }
        ensures crash { Follows (CutShort length) (may_leave self.old) (may_leave self.new) }
        ensures time { Elapses (moment self.old) (moment self.new) (left_since self.old) (left_since self.new) (may_leave self.new) }
        ensures cause { CountsFault (faults self.old) (faults self.new) result };

    /// After it a crash leaves what a read gives.
    fn sync(&mut self) -> Result<(), Failed>
        ensures durable { OnOk result (told → Only (seen self.old) (may_leave self.new)) }
        ensures seen { told → seen self.new ≡ seen self.old }
        ensures crash { (c : List ℕ) → may_leave self.new c → may_leave self.old c }
        ensures time { Elapses (moment self.old) (moment self.new) (left_since self.old) (left_since self.new) (may_leave self.new) }
        ensures cause { CountsFault (faults self.old) (faults self.new) result };

    /// This moment is one of those since an earlier one.
    ghost counts_now: { (disk : Self) (t : ℕ) (c : List ℕ) → t ≤ moment disk → may_leave disk c → left_since disk t c };

    /// Since this moment there is no other.
    ghost only_now: { (disk : Self) (c : List ℕ) → left_since disk (moment disk) c → may_leave disk c };

    /// What a read gives is one of the things that a crash may leave.
    ghost seen_may_stay: { (disk : Self) → told → may_leave disk (seen disk) };
}

impl<D: Disk> Disk for &mut D {
    ghost told = { D.told };

    ghost seen = { λ d. D.seen d.now };

    ghost may_leave = { λ d. D.may_leave d.now };

    ghost moment = { λ d. D.moment d.now };

    ghost left_since = { λ d. D.left_since d.now };

    ghost faults = { λ d. D.faults d.now };

    ghost counts_now = { λ d t c le now. D.counts_now d.now t c le now };

    ghost only_now = { λ d c left. D.only_now d.now c left };

    ghost seen_may_stay = { λ d told. D.seen_may_stay d.now told };

    fn fault_count(&self) -> u64 {
        (**self).fault_count()
    }

    fn length(&mut self) -> Result<u64, Failed> {
        (**self).length()
    }

    fn read(&mut self, at: u64, into: &mut [u8]) -> Result<usize, Failed> {
        (**self).read(at, into)
    }

    fn write_at(&mut self, at: u64, from: &[u8]) -> Result<(), Failed> {
        (**self).write_at(at, from)
    }

    fn cut(&mut self, length: u64) -> Result<(), Failed> {
        (**self).cut(length)
    }

    fn sync(&mut self) -> Result<(), Failed> {
        (**self).sync()
    }
}
