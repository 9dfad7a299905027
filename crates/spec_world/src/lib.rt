//! The exchange over bytes: both ends of a connection with keys, window and nonces, the dialogs that make a session, a
//! network that changes frames, and what is said of runs (MS-SMB2 3.2, 3.3). It is a room because the headline is
//! stated in its words. The laws on runs, both ends of a connection, and the programs stand on it.
//!
//! The exchange over bytes: both ends of a connection with their keys, window and nonces, what a frame is read as
//! and answered with, the dialogs, every event of a network that may also change what it carries, and what is said
//! of runs (MS-SMB2 3.2, 3.3). Definitions alone.
#![tactic(auto)]
