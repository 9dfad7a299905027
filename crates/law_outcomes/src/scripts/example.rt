//! A script whose premises are met, computed.

ghost use Rattle.std.specs.Prelude.{◌≡◌, true, false};
ghost use Rattle.spec_exchange.specs.Operations.{is_ok};
ghost use Rattle.spec_exchange.specs.Network.{start};
ghost use Rattle.law_answers.specs.completeness.Completeness.{course_of};
ghost use Rattle.law_outcomes.specs.scripts.Examples.{known, stranger, create_and_write};
ghost use Rattle.law_outcomes.specs.scripts.Scripts.{is_quiet_script, has_given_up};

/// The premises are met: a create and a write settle Ok, and nothing is given up. Of a client whose logon is refused the same
/// script gives all up.
#[tactic(auto, unfolding(crate::specs::scripts::Computed::computed))]
pub fn premises_example()
    ensures quiet { is_quiet_script create_and_write ≡ true }
    ensures kept { has_given_up (course_of known create_and_write).events (start known) ≡ false }
    ensures counted { (course_of known create_and_write).world.client.session_number ≡ 1 }
    ensures settled { is_ok ((course_of known create_and_write).world.client.outcome 2) ≡ true }
    ensures given_up { has_given_up (course_of stranger create_and_write).events (start stranger) ≡ true }
{}
