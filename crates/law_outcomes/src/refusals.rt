//! The law of the exchange model on refusals: a write or end that settled Refused under an open that denies writers never
//! acted, on every run of one client and one server, whatever the network loses and whenever the server starts anew.
//!
//! The law is a public function with an empty body, whose contract is the statement; what holds of refusals in every world
//! of a run stands in `specs`.

ghost use Rattle.std.specs.Prelude.{List};
ghost use Rattle.spec_exchange.specs.Network.{Event, Settings, run, start};
ghost use Rattle.law_outcomes.specs.refusals.Refusals.{RefusedNeverActs, Refusals};

/// Under the open of a create that settled Ok and whose share access lacks writing, a write or end that settled Refused, by
/// whatever status, acted at no event of the run and acts at none that comes behind (`never`). A retried write whose first
/// copy acted unheard is no such: its second copy would change nothing, which the server answers with success before it
/// looks at ranges, the room or the journal. And in every world of a run (`fit`) a write to which FILE_LOCK_CONFLICT or
/// DISK_FULL waits, and an edit that settled Refused, has no place at which it first acted.
pub fn refused_edits_law()
    ensures never { RefusedNeverActs }
    ensures fit { (settings : Settings) (events : List Event) → Refusals (run events (start settings)) }
{}
