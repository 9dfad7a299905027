//! The model of the exchange between one client and one server: commands are values, connections are lists, and the
//! server, the client, the journal's records and the network are steps (MS-SMB2 3.2, 3.3). It is one room because it is
//! what a reader has to believe of the headline, and it needs no bytes. All laws on acts, and the code of the server,
//! the client and the journal stand on it.
//!
//! The model of the exchange between one client and one server of SMB 3.1.1: definitions alone.
//!
//! Commands are values and not bytes, and connections are lists. The model says what the server, the client
//! and the network between them do at each event, and what the once theorem states about every run.
#![tactic(auto)]

pub mod values;
