//! What a script of `drill` sets up and drives, in the world over bytes: its settings and its lines. The crate has definitions alone.
