//! A server that outlasts its journal.

use conn_core::Serve;

/// A server that may renew its journal in front of an event.
pub trait Lasting: Serve {
    ghost use Rattle.std.specs.Prelude.{◌≡◌, ℕ, List, Option, None, Some};
    ghost use Rattle.spec_crypto.specs.tokens.Tokens.{Users};
    ghost use Rattle.spec_exchange.specs.State as model;
    ghost use Rattle.spec_world.specs.Ends.{Logons};
    ghost use Rattle.conn_core.specs.served.Serving.{StopsAtFault};
    ghost use Rattle.serve_turns.specs.event_book.Renewing.{RenewedTo};

    /// Renews the journal where the server finds that it is time. What it shows is as before, but for the bytes that the journal takes
    /// and the records in it. It stops only where its disk fails in that, at its count of faults then, which rose, and else that count
    /// stays; one that had stopped stays as it is, its disk too.
    fn renew(&mut self)
        ensures renewed { (users : Users) (s : model.Server) (L : Logons) (records : List model.Record)
            → Self.shows self.old users s L records → Self.stopped self.old ≡ None
            → RenewedTo (Self.shows self.new users) (Self.stopped self.new) s L records }
        ensures fault { (users : Users) (s : model.Server) (L : Logons) (records : List model.Record)
            → Self.shows self.old users s L records → Self.stopped self.old ≡ None → (count : ℕ) → Self.stopped self.new ≡ Some count
            → StopsAtFault (Self.faults self.old) (Self.faults self.new) count }
        ensures calm { (users : Users) (s : model.Server) (L : Logons) (records : List model.Record)
            → Self.shows self.old users s L records → Self.stopped self.old ≡ None → Self.stopped self.new ≡ None
            → Self.faults self.new ≡ Self.faults self.old }
        ensures stays { (count : ℕ) → Self.stopped self.old ≡ Some count → self.new ≡ self.old };
}
