// What is connected with a peer.
ghost use Rattle.std.specs.Prelude.{◌≡◌, ◌++◌, ℕ, ◌<◌, ◌≤◌, Bool, List, length, take, IfOk, OnErr};
ghost use Rattle.base_outside.specs.streams.Faults.{CountsFault};
ghost use Rattle.base_outside.specs.network.Link.{LinkGives, ended_after};

use crate::network::{News, Standing};
use crate::streams::Failed;

/// A stream of bytes from a peer and one to it, as a TCP connection.
///
/// `Failed` comes only where the count of faults rose in that call. A call that fails gives and takes
/// no byte.
pub trait Link {
    /// Whether links of this kind tell their bytes.
    ghost told: { Type 0 };

    /// Which of the links that its net accepted it is, from 1. It never changes. A link that no net accepted has the number 0.
    ghost number: { Self → ℕ };

    /// All bytes that reads gave so far, where the link tells them.
    ghost given: { Self → List ℕ };

    /// The bytes that reads have yet to give, where the link tells them.
    ghost left: { Self → List ℕ };

    /// All bytes that it took so far, where it tells them.
    ghost written: { Self → List ℕ };

    /// Whether a read gave the end.
    ghost ended: { Self → Bool };

    /// How often the link has failed. It never falls.
    ghost faults: { Self → ℕ };

    /// The count of faults.
    fn fault_count(&self) -> u64
        ensures { result ≡ faults self.now };

    /// Reads some bytes into the front of a buffer and says how many. 0 for a buffer that is not empty
    /// is the end of what the peer sends.
    fn read(&mut self, into: &mut [u8]) -> Result<usize, Failed>
        ensures bound { IfOk result (λ count. count ≤ length into.new) }
        ensures bytes { IfOk result (λ count. told → LinkGives (left self.old) count into.new (left self.new)) }
        ensures given { IfOk result (λ count. told → given self.new ≡ given self.old ++ take count into.new) }
        ensures failed { OnErr result (told → (left self.new ≡ left self.old) × (given self.new ≡ given self.old)) }
        ensures written { told → written self.new ≡ written self.old }
        ensures number { number self.new ≡ number self.old }
        ensures end { ended self.new ≡ ended_after (ended self.old) result into.new }
        ensures cause { CountsFault (faults self.old) (faults self.new) result };

    /// Writes some bytes from the front of a piece and says how many, at least one where the piece is
    /// not empty.
    fn write(&mut self, from: &[u8]) -> Result<usize, Failed>
        ensures bound { IfOk result (λ count. count ≤ length from.now) }
        ensures progress { IfOk result (λ count. 0 < length from.now → 0 < count) }
        ensures bytes { IfOk result (λ count. told → written self.new ≡ written self.old ++ take count from.now) }
        ensures failed { OnErr result (told → written self.new ≡ written self.old) }
        ensures given { told → (left self.new ≡ left self.old) × (given self.new ≡ given self.old) }
        ensures number { number self.new ≡ number self.old }
        ensures end { ended self.new ≡ ended self.old }
        ensures cause { CountsFault (faults self.old) (faults self.new) result };

    /// Hears how its connection stands, so that it may limit how long a read waits for a peer that holds nothing. It gives and takes no
    /// byte and does not fail.
    fn note(&mut self, _standing: &Standing, _news: &News)
        ensures bytes { told → (left self.new ≡ left self.old) × (given self.new ≡ given self.old)
            × (written self.new ≡ written self.old) }
        ensures number { number self.new ≡ number self.old }
        ensures end { ended self.new ≡ ended self.old }
        ensures calm { faults self.new ≡ faults self.old }
    {}
}
