ghost use Rattle.spec_exchange.specs.Check.{check};
ghost use Rattle.spec_exchange.specs.State.{Message, Server};
ghost use Rattle.spec_exchange.specs.Step.{without_room};
ghost use Rattle.law_server.specs.tables.Fits.{Fits};
ghost use Rattle.server_plan.specs.owed_records.Owing.{Owing};

/// The records of what the checks come to can be told, and so can those of what stands in its place where they don't fit.
pub fn owing_law()
    ensures checked { (s : Server) (m : Message) → Fits s → Owing s m (check s m) }
    ensures without_room { (s : Server) (m : Message) → Fits s → Owing s m (without_room (check s m)) }
{}
