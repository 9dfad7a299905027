//! Requests and replies between bytes and the values of the exchange's model, for both ends.

pub use crate::reading::{heard_as, reply_of, request_of};
pub use crate::values::{
    Address, Basic, Body, ClientCommand, ClientCreate, ClientReconnect, Command, CreateReply,
    CreateRequest, Durable, Element, Info, Message, Named, Reconnect, Reply, Request, Setting,
    SetupForm, SetupRequest, Shows,
};
pub use crate::writing::{
    Unjoined, WriteError, body_of, elements_bytes, file_id, join_messages, joined_law, reply_body,
};
