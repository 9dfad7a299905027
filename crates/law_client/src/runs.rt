//! What always holds of the client of a world: the law of `law_client::table` over each run, with the dialogs of its channels.

ghost use Rattle.std.specs.Prelude.{List};
ghost use Rattle.spec_exchange.specs.Network.{Event, Settings, World, happens, run, start};
ghost use Rattle.law_client.specs.table.Kept.{TableKept};

/// Whatever happens in a world, what always holds of a client's table holds of its client: each event keeps it, and so does each run.
pub fn run_kept_law()
    ensures next { (w : World) (e : Event) → TableKept w.client → TableKept (happens w e).client }
    ensures each { (settings : Settings) (events : List Event) → TableKept (run events (start settings)).client }
{}
