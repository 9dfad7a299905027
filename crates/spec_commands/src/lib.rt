//! Which command of the model a request's bytes are, and which bytes a reply of the model has (MS-SMB2 2.2). It is a
//! room because it is where the definitions of bytes meet the model of values. The exchange over bytes, the laws on
//! commands, and the code that reads and writes them stand on it.
//!
//! What bytes ask and tell in the words of the exchange's model (MS-SMB2 2.2): the command of a request
//! and the bytes of a client's commands, the bytes of a reply and the reply that a client hears.
//! Definitions alone.
#![tactic(auto)]
