use thiserror::Error;

/// A call on an outside object failed, and the object's count of faults says so.
#[derive(Clone, Copy, PartialEq, Eq, Debug, Drop, Error)]
#[error("a call of a source, a sink or a disk failed")]
pub struct Failed;
