//! A client's events (MS-SMB2 3.2.4, 3.2.5, 3.2.7), each as the model's step: the client behind it, and what it is to do then.

mod calls;
mod responses;
mod steps;

pub use client_steps::Client;
pub use steps::{Act, Event, step};
