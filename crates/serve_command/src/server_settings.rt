//! What a server is told: the words of its command, and its settings.

mod marking;
mod own;
mod refusal;
mod settings;
mod words;

pub use refusal::SettingsRefusal;
pub(crate) use refusal::settings_line;
pub(crate) use settings::printed_by;
pub use settings::{Setup, config_in};
pub use words::{Bound, Said, address, read_words};
