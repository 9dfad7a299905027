// Where bytes go.
ghost use Rattle.std.specs.Prelude.{◌≡◌, ℕ, ◌<◌, ◌≤◌, List, Option, length, IfOk};
ghost use Rattle.std.specs.Io.KnownBytes.{WriteAppends};
ghost use Rattle.base_outside.specs.streams.Faults.{CountsFault};

use crate::network::Printed;
use crate::streams::Failed;

/// A sink of bytes, as a file or the standard output.
pub trait Sink {
    /// The bytes that it has taken so far, where the sink tells them.
    ghost written: { Self → Option (List ℕ) };

    /// How often the sink has failed. It never falls.
    ghost faults: { Self → ℕ };

    /// Writes some bytes from the front of a piece and says how many, at least one where the piece
    /// is not empty. `Failed` comes only where the count of faults rose, and writes no byte.
    fn write(&mut self, from: &[u8]) -> Result<usize, Failed>
        ensures bound { IfOk result (λ count. count ≤ length from.now) }
        ensures progress { IfOk result (λ count. 0 < length from.now → 0 < count) }
        ensures bytes { WriteAppends (written self.old) (written self.new) result from.now }
        ensures cause { CountsFault (faults self.old) (faults self.new) result };

    /// Hears which line of the settings is refused, and which lines of a log these settings ask for, so that it may also be told where the
    /// log is read. It takes no byte and does not fail.
    fn explain(&mut self, _printed: Printed, _refusal: &str)
        ensures bytes { written self.new ≡ written self.old }
        ensures calm { faults self.new ≡ faults self.old }
    {}
}
