//! What holds over every list of calls.
ghost use Rattle.spec_wire.specs.credits.Calls.{EachIdOnce};
ghost use Rattle.spec_wire.specs.credits.Exchange.{NothingIsRefused};

/// Over every list of calls on a new window each id is taken at most once.
pub fn each_id_once_law()
    ensures { EachIdOnce }
{}

/// Over a connection that loses nothing the window holds what the purse spends: at each moment the ids that
/// it holds are those of the requests and the grants on their way and those of the purse.
pub fn nothing_is_refused_law()
    ensures { NothingIsRefused }
{}
