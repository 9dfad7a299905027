// Where links come from.
ghost use Rattle.std.specs.Prelude.{◌≡◌, ◌+◌, ◌-◌, ◌^◌, ℕ, min, false, List, [], ◌∷◌, ◌++◌, Option, Some, IfOk, OnOk, OnErr};
ghost use Rattle.base_outside.specs.declared.streams.address.Address.{Address};
ghost use Rattle.base_outside.specs.streams.Faults.{CountsFault};
ghost use Rattle.base_outside.specs.network.Link.{IsLinkUnused};

use crate::network::{Link, Watch};
use crate::streams::{Address, Failed};

/// What peers connect with, as the network of a machine.
///
/// `Failed` comes only where the count of faults rose in that call. A call that fails leaves where the
/// net listens, how many links it accepted, and what their peers send.
pub trait Net {
    type L: Link + Send + Drop;

    /// Where the net was last told to listen, if it was.
    ghost listens_at: { Self → Option Address };

    /// How many links it accepted. The count stands still at 2^64 - 1.
    ghost accepted: { Self → ℕ };

    /// Of each link that it accepted, in that order, all bytes that its peer sends, where links tell their bytes.
    ghost sent: { Self → List (List ℕ) };

    /// How often the net has failed. It never falls.
    ghost faults: { Self → ℕ };

    /// Waits for peers at an address from now on.
    fn listen(&mut self, at: Address) -> Result<(), Failed>
        ensures place { OnOk result (listens_at self.new ≡ Some at) }
        ensures failed { OnErr result (listens_at self.new ≡ listens_at self.old) }
        ensures accepted { accepted self.new ≡ accepted self.old }
        ensures sent { Self.L.told → sent self.new ≡ sent self.old }
        ensures cause { CountsFault (faults self.old) (faults self.new) result };

    /// The next link that a peer connects, where the net listens. Its number is how many links the net has accepted with it. It has no
    /// fault and gave and took nothing yet.
    fn accept(&mut self) -> Result<Self::L, Failed>
        ensures fresh { IfOk result (λ link. (Self.L.ended link ≡ false) × (Self.L.faults link ≡ 0)) }
        ensures unused { IfOk result (λ link. IsLinkUnused Self.L.told (Self.L.given link) (Self.L.written link)) }
        ensures accepted { OnOk result (accepted self.new ≡ min (accepted self.old + 1) (2 ^ 64 - 1)) }
        ensures number { IfOk result (λ link. Self.L.number link ≡ min (accepted self.old + 1) (2 ^ 64 - 1)) }
        ensures sent { IfOk result (λ link. Self.L.told → sent self.new ≡ sent self.old ++ Self.L.left link ∷ []) }
        ensures failed { OnErr result ((accepted self.new ≡ accepted self.old) × (Self.L.told → sent self.new ≡ sent self.old)) }
        ensures place { listens_at self.new ≡ listens_at self.old }
        ensures cause { CountsFault (faults self.old) (faults self.new) result };

    /// A link to the peer that listens at an address, with no fault, that gave and took nothing yet. It has the number 0.
    fn connect(&mut self, to: Address) -> Result<Self::L, Failed>
        ensures fresh { IfOk result (λ link. (Self.L.ended link ≡ false) × (Self.L.faults link ≡ 0)) }
        ensures unused { IfOk result (λ link. IsLinkUnused Self.L.told (Self.L.given link) (Self.L.written link)) }
        ensures accepted { accepted self.new ≡ accepted self.old }
        ensures number { IfOk result (λ link. Self.L.number link ≡ 0) }
        ensures sent { Self.L.told → sent self.new ≡ sent self.old }
        ensures place { listens_at self.new ≡ listens_at self.old }
        ensures cause { CountsFault (faults self.old) (faults self.new) result };

    /// Hears how to watch over the links that it accepts.
    fn watch(&mut self, _watch: &Watch)
        ensures place { listens_at self.new ≡ listens_at self.old }
        ensures accepted { accepted self.new ≡ accepted self.old }
        ensures sent { Self.L.told → sent self.new ≡ sent self.old }
        ensures calm { faults self.new ≡ faults self.old }
    {}

    /// Hears that a server is ready, and how many files with how many bytes it found.
    fn ready(&mut self, _files: u64, _bytes: u64)
        ensures place { listens_at self.new ≡ listens_at self.old }
        ensures accepted { accepted self.new ≡ accepted self.old }
        ensures sent { Self.L.told → sent self.new ≡ sent self.old }
        ensures calm { faults self.new ≡ faults self.old }
    {}
}
