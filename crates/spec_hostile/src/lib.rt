//! A network that repeats, reorders and redirects what both ends of the exchange over bytes ever sent: its events and
//! runs, what the ends signed, what it is to take a message that nobody signed for that place, and the statement on such
//! runs. It is a room of its own because no room on the network that only loses stands on it. Its law stands on it.
//!
//! Definitions alone.
#![tactic(auto)]
