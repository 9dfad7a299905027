//! Laws of the exchange model on the program's loops over the channels: how long draining and linking take, and that
//! a schedule which ends in settling leaves no operation open.
//!
//! Each law is a public function with an empty body; its contract is the statement, which stands in `specs`.

ghost use Rattle.law_answers.specs.completeness.Completeness.{DrainSuffices, LinkSuffices, SessionFound, SettleSettles};

/// The bounds of the two inner loops never cut them short: behind draining a channel, wherever a schedule has led, an end
/// of it is closed or nothing waits there; and behind linking one, an end of it is closed or it is ready.
pub fn bounds_law()
    ensures drain { DrainSuffices }
    ensures link { LinkSuffices }
{}

/// On every run the server finds the session of whatever it takes on a ready channel both of whose ends are open: it never
/// answers USER_SESSION_DELETED there.
pub fn session_found_law()
    ensures found { SessionFound }
{}

/// A schedule that ends in settling leaves no operation unsettled: so the bound on its rounds never cuts them short. The
/// one premise is that the client has counted fewer sessions than 32 bits hold: beyond those no session can begin, and
/// settling would go on for ever.
pub fn settle_law()
    ensures settles { SettleSettles }
{}
