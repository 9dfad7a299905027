//! Opens that leave one behind the other, told from the state before all of them: so that their records can be told
//! before the first one leaves.

mod laws;

pub use laws::{alone_law, begun_law, empty_law, ended_law, left_law, next_law, out_law};
