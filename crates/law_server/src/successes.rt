//! What the exchange model's server tells with the success of a request that names an open.
//!
//! The law is a public function with an empty body, whose contract is the statement.

ghost use Rattle.law_server.specs.successes.Bodies.{BodiesAreTold};

/// Whatever waits at the front, a WRITE's success tells that all bytes were written, a READ's at most as many bytes as were asked
/// for and as one may ask for, a QUERY_INFO's of a file and a QUERY_DIRECTORY's are of the class that was asked for, and the success of
/// a SET_INFO, a LOCK, a FLUSH, and of a CLOSE that asks for nothing, has no body.
pub fn bodies_are_told_law()
    ensures told { BodiesAreTold }
{}
