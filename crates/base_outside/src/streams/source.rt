// Where bytes come from.
ghost use Rattle.std.specs.Prelude.{ℕ, ◌≤◌, List, Option, length, IfOk};
ghost use Rattle.std.specs.Io.KnownBytes.{ReadConsumes};
ghost use Rattle.base_outside.specs.streams.Faults.{CountsFault};

use crate::streams::Failed;

/// A source of bytes, as a file or the standard input.
pub trait Source {
    /// The bytes that reads have yet to give, where the source tells them.
    ghost left: { Self → Option (List ℕ) };

    /// How often the source has failed. It never falls.
    ghost faults: { Self → ℕ };

    /// Reads some bytes into the front of a buffer and says how many.
    ///
    /// 0 for a buffer that is not empty is the end of the input. `Failed` comes only where the
    /// count of faults rose, and takes no byte.
    fn read(&mut self, into: &mut [u8]) -> Result<usize, Failed>
        ensures bound { IfOk result (λ count. count ≤ length into.new) }
        ensures bytes { ReadConsumes (left self.old) (left self.new) result into.new }
        ensures cause { CountsFault (faults self.old) (faults self.new) result };
}
