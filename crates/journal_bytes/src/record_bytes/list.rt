use crate::record_bytes::value::Record;
use base_lists::ListOf;

/// Records in their order.
pub type Records = ListOf<Record>;
