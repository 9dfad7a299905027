//! The values that requests and replies stand for, which the code that reads them and the code that writes them share.

mod classes;
mod client;
mod command;
mod reply;
mod request;
mod setup;

pub use classes::directory_class;
pub use client::{ClientCommand, ClientCreate, ClientReconnect};
pub use command::{Command, CreateRequest, Durable, Reconnect, Setting};
pub use reply::{Address, Body, CreateReply, Info, Named, Reply};
pub use request::{Message, Request};
pub use setup::{SetupForm, SetupRequest, Shows};
pub use spec_exchange::values::{Basic, Element};
