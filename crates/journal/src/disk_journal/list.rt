use base_lists::ListOf;
use wire_bytes::Bytes;

/// The bodies of a journal, one after the other.
pub type BytesList = ListOf<Bytes>;
