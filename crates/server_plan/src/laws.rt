//! What a plan leans on and what is had of it.
ghost use Rattle.std.specs.Prelude.{ℕ};
ghost use Rattle.spec_exchange.specs.State.{Server, ServerEvent};
ghost use Rattle.spec_exchange.specs.Step as steps;
ghost use Rattle.law_server.specs.tables.Fits.{Fits};
ghost use Rattle.server_plan.specs.Plans.{OwingOf, PlanFor};
ghost use Rattle.server_plan.specs.declared.plan.Plan.{Plan};
ghost use Rattle.server_plan.specs.rulings.Rulings.{AbleToRule, ruling_of};

use crate::owed_records::owing_law;
use crate::rulings::ruling_law;

/// The records of the ruling on an event can be told in a state that fits, with room or without; those of a planned ruling can
/// be told, and it can be carried out.
pub fn plan_law()
    ensures ruled { (s : Server) (e : ServerEvent) → Fits s → OwingOf s (steps.ruling s e) }
    ensures lesser { (s : Server) (e : ServerEvent) → Fits s → OwingOf s (steps.ruling_without_room (steps.ruling s e)) }
    ensures owing { (p : Plan) (s : Server) (now : ℕ) (e : ServerEvent) → Fits s → PlanFor p s now e
        → OwingOf s (ruling_of e p.ruling) }
    ensures able { (p : Plan) (s : Server) (now : ℕ) (e : ServerEvent) → Fits s → PlanFor p s now e
        → AbleToRule s (ruling_of e p.ruling) }
{
    owing_law();
    ruling_law();
}
