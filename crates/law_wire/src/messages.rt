//! Laws of the wire grammar over its definitions alone: a message has at most one value; what is
//! spelled breaks nothing, and where nothing breaks a value stands; a canonical spelling, whatever
//! follows it, reads back. Each law is the contract of a function that does nothing.

mod bare;
mod close;
mod compound;
mod create;
mod create_response;
mod error;
mod flush;
mod frames;
mod header;
mod lock;
mod lock_response;
mod negotiate;
mod offer;
mod read;
mod session_setup;
mod table;
mod text;
mod tree_connect;
mod write;

pub use bare::bare_law;
pub use close::{close_request_law, close_response_law};
pub use compound::compound_law;
pub use create::create_request_law;
pub use create_response::create_response_law;
pub use error::error_response_law;
pub use flush::{flush_request_law, flush_response_law};
pub use frames::frames_law;
pub use header::header_law;
pub use lock::{lock_element_law, lock_request_law};
pub use lock_response::lock_response_law;
pub use negotiate::{negotiate_request_law, negotiate_response_law};
pub use offer::offer_law;
pub use read::{read_request_law, read_response_law};
pub use session_setup::{session_setup_request_law, session_setup_response_law};
pub use table::{number_law, part_law, table_law};
pub use text::text_law;
pub use tree_connect::{tree_connect_request_law, tree_connect_response_law};
pub use write::{write_request_law, write_response_law};
