ghost use Rattle.spec_exchange.specs.Check.{check};
ghost use Rattle.spec_exchange.specs.State.{Message, Server};
ghost use Rattle.spec_exchange.specs.Step.{without_room};
ghost use Rattle.server_effects.specs.Able.{Able};
ghost use Rattle.law_server.specs.tables.Fits.{Fits};

/// What the checks of a message come to can be carried out, and so can what stands in its place where its records find no
/// room in the journal.
pub fn able_law()
    ensures able { (s : Server) (m : Message) → Fits s → Able s m (check s m) }
    ensures lesser { (s : Server) (m : Message) → Fits s → Able s m (without_room (check s m)) }
{}
