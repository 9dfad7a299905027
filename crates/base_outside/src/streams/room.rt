// A disk that tells where it has no room.
ghost use Rattle.std.specs.Prelude.{◌≡◌, ℕ, List, length};
ghost use Rattle.base_outside.specs.streams.Disk.{WritesAt, Torn, Follows, Elapses};
ghost use Rattle.base_outside.specs.streams.Faults.{CountsFault};
ghost use Rattle.base_outside.specs.streams.Steps.{IfDone, IfNoRoom};

use crate::streams::{Disk, Failed};

/// How a step on a disk ended that didn't fail.
#[derive(Clone, Copy, PartialEq, Eq, Debug)]
pub enum DiskStep {
    Done,
    /// The disk has no room for it, or a quota or a limit allows no more.
    NoRoom,
}

/// A disk that tells where it has no room. That is no fault.
pub trait TellsRoom: Disk {
    /// Writes all of a piece over what is there and past the end. Where there is no room, it may be there in part.
    fn write_if_room(&mut self, at: u64, from: &[u8]) -> Result<DiskStep, Failed>
        ensures written { IfDone result (Self.told → WritesAt (Self.seen self.old) at from.now (Self.seen self.new)) }
        ensures part { IfNoRoom result (Self.told → Torn at (length from.now) (Self.seen self.old) (Self.seen self.new)) }
        ensures crash { Follows (Torn at (length from.now)) (Self.may_leave self.old) (Self.may_leave self.new) }
        ensures time { Elapses (Self.moment self.old) (Self.moment self.new) (Self.left_since self.old) (Self.left_since self.new)
            (Self.may_leave self.new) }
        ensures cause { CountsFault (Self.faults self.old) (Self.faults self.new) result };
}

impl<D: TellsRoom> TellsRoom for &mut D {
    fn write_if_room(&mut self, at: u64, from: &[u8]) -> Result<DiskStep, Failed> {
        (**self).write_if_room(at, from)
    }
}
