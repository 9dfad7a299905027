//! What the server of a drill is set up with by the settings of its script.

mod setting;

pub use setting::{plain_settings, server_config};
