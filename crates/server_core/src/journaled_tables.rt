//! A server's tables with the journal behind them, and what they hold of the model's state.

mod state;

pub use state::ServerState;
