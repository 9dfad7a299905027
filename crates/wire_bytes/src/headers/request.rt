use crate::byte_lists::Bytes;
use spec_wire::Header;

/// A request that is to be sent: its header, its body, and the sender's own name for it, which is twice
/// the number of the operation that it is for.
#[derive(Drop, Debug)]
pub struct Request {
    pub header: Header,
    pub body: Bytes,
    pub token: u64,
}
