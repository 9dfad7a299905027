//! Laws of the exchange model: no write or set-info acts after a newer pair of session and sequence reached its open, and
//! a file under an open that denies writers is one connection's.
//!
//! Each law is a public function with an empty body; its contract is the statement.

ghost use Rattle.spec_exchange.specs.Statements.{Newer, OneConnection};

/// Where a write or set-info acts on an open, no pair that reached this open before is newer than the message's: on every
/// run, of one client and one server, whatever the network loses.
pub fn newer_law()
    ensures newer { Newer }
{}

/// For each create that settled Ok and whose share access denies other writers: the reads, writes and ends of its open, in
/// the order of their places (an operation's is that of its first message that acted, else of the one whose reply settled
/// it), replay from the file's bytes behind the create's act to its bytes now, or before the open left. Each Ok reply and
/// each END_OF_FILE is what the bytes at its turn say; each operation stands in the order at most once, and each that
/// settled as Ok or Refused does; whatever had settled so before another was first sent stands before it. And while that
/// open stands, the bytes at the end are its file's. On every run, of one client and one server, whatever the network loses
/// and however often the server restarts.
pub fn one_connection_law()
    ensures legal { OneConnection }
{}
