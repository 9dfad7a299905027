//! Rules worked by hand.
ghost use Rattle.std.specs.Prelude.{◌≡◌, Some, None};
ghost use Rattle.access_lists.specs.Decide.{decided, maximal};
ghost use Rattle.access_lists.specs.Examples.{pay_rules, two_denials, ann, bob, pay_x, pay_upper, payroll, public};

/// `allow Ann rwd pay` and `deny * rw pay`: rule 2 denies Bob to read and to write `pay\x`, in whatever case, and nobody what lies
/// elsewhere.
#[tactic(auto, unfolding(crate::specs::Examples::computed))]
pub fn rules_example()
    ensures bob_reads { decided pay_rules bob pay_x 1 ≡ Some 2 }
    ensures bob_writes_and_deletes { decided pay_rules bob pay_upper 6 ≡ Some 2 }
    ensures bob_deletes { decided pay_rules bob pay_x 4 ≡ None }
    ensures ann_reads { decided pay_rules ann pay_x 7 ≡ None }
    ensures another_name { decided pay_rules bob payroll 7 ≡ None }
    ensures bob_has { maximal pay_rules bob pay_x ≡ 0x1f00d8 }
    ensures bob_has_all { maximal pay_rules bob public ≡ 0x1f01ff }
{}

/// `deny * w pay` and `deny * rd -`: of two rules that deny the least is told, and the root's rule bears on all.
#[tactic(auto, unfolding(crate::specs::Examples::computed))]
pub fn least_rule_example()
    ensures reads_and_writes { decided two_denials bob pay_x 3 ≡ Some 1 }
    ensures reads { decided two_denials bob pay_x 1 ≡ Some 2 }
    ensures reads_and_deletes { decided two_denials bob pay_x 5 ≡ Some 2 }
    ensures has_elsewhere { maximal two_denials bob public ≡ 0x1e019e }
{}
