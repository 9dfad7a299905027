//! The headline of one script in the exchange over bytes: each create, lock and unlock of the script's run acts at most
//! once, and once where it
//! was acknowledged; no write acts behind a newer channel sequence of its open; a file under an open that denies writers is one
//! connection's; and a client accepts a session only on the negotiation bytes that the server had, a SHA-512 collision or a forged
//! signature. What a program that drives a script calls for the sentence that it ends with.
//!
//! The law is a public function, whose contract is the statement, which stands in `specs`.

ghost use Rattle.law_scripts.specs.headline.Headline.{Headline};

use law_locks::exactly_once_law;
use law_nonces::negotiation_law;
use law_order::{newer_law, one_connection_law};
use law_replies::{course_runs_law, courses_are_short_law, plain_courses_law};
use law_runs::steps_law;

/// Of the run of any script, with settings that fit; the last sentence also of one with a forge or a flip, and of any settings.
pub fn headline_law()
    ensures holds { Headline }
{
    course_runs_law();
    courses_are_short_law();
    plain_courses_law();
    exactly_once_law();
    newer_law();
    one_connection_law();
    negotiation_law();
    steps_law();
}
