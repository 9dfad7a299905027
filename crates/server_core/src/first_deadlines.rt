//! What was prepared of an event is carried out, behind the first deadlines of the opens that a recovery found (MS-SMB2 3.3.5).

mod dating;

pub use dating::carry_dated;
