//! What message ids and credits mean (MS-SMB2 3.2.4.1.2, 3.2.4.1.5, 3.3.1.1, 3.3.1.2): the ids that a
//! server's window holds, the credits in a client's purse, and both over lists of calls.
//!
//! The definitions stand in `specs/`. There is no code here.
