//! How a world in code begins: a client without operations, a server on an empty disk, and 256 connections of which both ends are closed.

mod beginning;

pub use beginning::begin;
pub use world_ends::{
    Channel, ClientSide, Down, Happened, Note, Notes, Places, Step, Up, World, WorldError,
    WorldEvent,
};
