//! Laws of the exchange model on outcomes: what settles an operation, and what a run without losses leaves.
//!
//! Each law is a public function with an empty body; its contract is the statement, which stands in `specs`.

ghost use Rattle.law_outcomes.specs.outcomes.Outcomes.{SuccessReads, NeverUnread, CausesTold, AllAnswered};

/// On every run, a success that waits for an operation's own message reads as the operation's: its body is the one that
/// the operation is answered with (`reads`). And no outcome is unknown by a success (`unread`).
pub fn reads_law()
    ensures reads { SuccessReads }
    ensures unread { NeverUnread }
{}

/// On every run each operation without a slot or an open has its cause. NoSlot came at a push: behind those before it in the
/// push's list the lock or unlock could go out, it never had, and no slot of its open was free. NoOpen came at an event: the
/// operation was unsettled before it, and behind it the operation hadn't gone out and its create gave no open any more. That
/// had settled otherwise than Ok, or a close of it had settled Ok, or its plain open's session had ended.
pub fn causes_law()
    ensures causes { CausesTold }
{}

/// On a run on which the client cuts no ready channel and gives nothing up for a refused logon while an operation is
/// unsettled, no operation's outcome is unknown; drops, restarts and crashes may be among the events. Each operation is
/// unsettled, or without a slot or an open, or Ok or Refused; and then there is the Serve, which the world before it met, at
/// which the server took a message of its own, or the DH2C in its place, and the reply of the server's step there is what it
/// settled with: Ok with what that success replied, or Refused with that status.
pub fn lossless_law()
    ensures answered { AllAnswered }
{}
