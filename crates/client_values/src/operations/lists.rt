use base_lists::ListOf;
use wire_bytes::Text;

/// Names of a directory.
pub type TextList = ListOf<Text>;
