//! Both ends and what is on its way between them, step by step. It is a room because each event of the exchange over
//! bytes is one function here. The command `drill` stands on it.
//!
//! The steps of a world: one function an event, and what they share.
#![tactic(auto)]

mod beginning;
mod cutting;
mod dialogs;
pub mod events;
mod finishing;
mod happening;
mod moments;
pub mod notes;
mod noting;
mod opening;
mod parting;
mod restarting;
mod sending;
mod serving;
mod submitting;
mod taking;
mod tampering;

pub use beginning::{Happened, WorldEvent, begin};
pub use cutting::{
    close_by, close_client, close_clients, closes_all, cut, cut_end, is_open, is_ready, leave,
};
pub use dialogs::take_talk;
pub use events::{go, take};
pub use finishing::{finish, is_live};
pub use happening::{happen, taken_by};
pub use moments::{later, wait};
pub use notes::{begin_step, is_watched, keep_step, watch};
pub use noting::mark;
pub use opening::{open, put_channel, say_up};
pub use parting::{close_server, drop_end, drop_server, is_served};
pub use restarting::{restart, restart_server};
pub use sending::push;
pub use serving::{crash, serve};
pub use submitting::submit;
pub use taking::take_line;
pub use tampering::{Change, is_coming, tamper};
pub use world_ends::{
    Act, Book, Channel, Client, ClientSide, Down, Event, Marks, Note, Notes, Places, Played, Up,
    World, WorldError, accept,
};
