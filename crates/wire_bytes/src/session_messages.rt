//! The messages of the dialog, of trees and the error response, both ways. A reader takes a whole message
//! with its header; a writer gives the body behind it. Offsets count from the header.

mod bare;
mod error;
mod gap;
mod negotiate;
mod negotiate_request;
mod negotiate_response;
mod refusal;
mod session_setup;
mod session_setup_request;
mod session_setup_response;
mod tree_connect;
mod tree_connect_request;
mod tree_connect_response;

pub use bare::{
    read_echo_request, read_echo_response, read_logoff_request, read_logoff_response,
    read_tree_disconnect_request, read_tree_disconnect_response, write_echo_request,
    write_echo_response, write_logoff_request, write_logoff_response,
    write_tree_disconnect_request, write_tree_disconnect_response,
};
pub use error::{read_error_response, write_error_response};
pub use negotiate::{NegotiateRequest, NegotiateResponse};
pub use negotiate_request::{read_negotiate_request, write_negotiate_request};
pub use negotiate_response::{read_negotiate_response, write_negotiate_response};
pub use refusal::{Choice, Refusal};
pub use session_setup::{SessionSetupRequest, SessionSetupResponse};
pub use session_setup_request::{read_session_setup_request, write_session_setup_request};
pub use session_setup_response::{read_session_setup_response, write_session_setup_response};
pub use spec_wire::{
    EchoRequest, EchoResponse, ErrorResponse, LogoffRequest, LogoffResponse, TreeConnectResponse,
    TreeDisconnectRequest, TreeDisconnectResponse,
};
pub use tree_connect::TreeConnectRequest;
pub use tree_connect_request::{read_tree_connect_request, write_tree_connect_request};
pub use tree_connect_response::{read_tree_connect_response, write_tree_connect_response};
