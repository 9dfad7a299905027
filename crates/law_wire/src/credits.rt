//! Laws of message ids and credits (MS-SMB2 3.2.1.2, 3.3.1.1), over their definitions alone. Each law is the contract
//! of a function that does nothing.

mod laws;

pub use laws::{each_id_once_law, nothing_is_refused_law};
