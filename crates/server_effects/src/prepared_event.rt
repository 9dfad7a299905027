//! What an event comes to, with all the memory that its effect wants (MS-SMB2 3.3.5, 3.3.7.1): what prepares it and what carries
//! it out agree on this type and these definitions.

mod prepared;

pub use prepared::Prepared;
