//! The bytes of requests and responses, and of frames of several messages.

mod fault;
mod ids;
mod infos;
mod joining;
mod listing;
mod replying;
mod spelling;
mod volume;

pub use fault::WriteError;
pub use ids::file_id;
pub use joining::{Unjoined, join_messages, joined_law};
pub use replying::reply_body;
pub use spelling::{body_of, elements_bytes};
