//! Which statuses the exchange model's server answers, and that a CREATE that it doesn't refuse tells an open.
//!
//! Each law is a public function with an empty body, whose contract is the statement.

ghost use Rattle.law_answers.specs.statuses.Statuses.{StatusesFit};
ghost use Rattle.law_answers.specs.statuses.Creates.{CreatesTell};

/// On every run, a reply's status fits the 4 bytes of its field (MS-SMB2 2.2.1.2), whatever waits at the front: what the server keeps
/// of refused creates and of locks does too, and so does what its journal holds.
pub fn statuses_fit_law()
    ensures fit { StatusesFit }
{}

/// On every run, the success of a CREATE tells an open (2.2.14): no refusal that the server keeps for a CreateGuid is a success.
pub fn creates_tell_law()
    ensures tell { CreatesTell }
{}
