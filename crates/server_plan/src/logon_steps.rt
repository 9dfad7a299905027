//! Definitions alone: a step of a logon that was made ready of an event has its token, and its challenge or its keys
//! (MS-SMB2 3.3.5.5.3).
