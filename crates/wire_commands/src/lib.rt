//! Commands and replies as values, read from messages and written into them, and how long a reply can be. It is a room
//! because it is where bytes become values in code. The server's and the client's code stands on it.
#![tactic(auto)]

mod commands;
mod reading;
mod reply_shapes;
mod values;
mod writing;

pub use reading::{heard_as, reply_of, request_of};
pub use reply_shapes::{no_setup, room_for, shape_of};
pub use values::{
    Address, Basic, Body, ClientCommand, ClientCreate, ClientReconnect, Command, CreateReply,
    CreateRequest, Durable, Element, Info, Message, Named, Reconnect, Reply, Request, Setting,
    SetupForm, SetupRequest, Shows, directory_class,
};
pub use writing::{
    Unjoined, WriteError, body_of, elements_bytes, file_id, join_messages, joined_law, reply_body,
};
