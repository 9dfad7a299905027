//! What was prepared of an event is carried out (MS-SMB2 3.3.5, 3.3.7.1). None of it takes memory, and none of it can fail.

mod acts;

pub use acts::carry_event;
