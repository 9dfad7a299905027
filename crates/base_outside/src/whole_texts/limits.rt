/// The most bytes of a script. A source is read until its script is longer than that.
pub const SCRIPT_BYTES: usize = 268_435_456;
