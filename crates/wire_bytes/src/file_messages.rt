//! The messages on files, both ways. A reader takes a whole message with its header; a writer gives the
//! body behind it. Offsets count from the header.

mod close_request;
mod close_response;
mod create;
mod create_request;
mod create_response;
mod flush_request;
mod flush_response;
mod lock;
mod lock_request;
mod lock_response;
mod read;
mod read_request;
mod read_response;
mod write;
mod write_request;
mod write_response;

pub use close_request::{read_close_request, write_close_request};
pub use close_response::{read_close_response, write_close_response};
pub use create::{CreateRequest, CreateResponse};
pub use create_request::{read_create_request, write_create_request};
pub use create_response::{read_create_response, write_create_response};
pub use flush_request::{read_flush_request, write_flush_request};
pub use flush_response::{read_flush_response, write_flush_response};
pub use lock::LockRequest;
pub use lock_request::{lock_element_at, push_lock_element, read_lock_request, write_lock_request};
pub use lock_response::{read_lock_response, write_lock_response};
pub use read::ReadResponse;
pub use read_request::{read_read_request, write_read_request};
pub use read_response::{read_read_response, write_read_response};
pub use spec_wire::{
    CloseRequest, CloseResponse, FlushRequest, FlushResponse, LockElement, LockResponse,
    ReadRequest, WriteResponse,
};
pub use write::WriteRequest;
pub use write_request::{read_write_request, write_write_request};
pub use write_response::{read_write_response, write_write_response};
