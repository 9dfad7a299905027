//! Laws of the modes that seal, over their definitions alone: what is sealed opens to its text, and nothing else
//! opens (SP 800-38C, SP 800-38D). Each law is the contract of a function that does nothing.

mod laws;

pub use laws::{ccm_law, gcm_law};
