//! A verdict made ready (MS-SMB2 3.3.5): all memory that its effect wants is taken before anything changes.

mod acts;
mod alter;
mod logons;
mod make;
mod memory;
mod request;
mod rows;

pub use memory::ready;
