/// The most bytes of a script.
pub const SCRIPT_BYTES: usize = 268_435_456;

/// The most lines of a script.
pub const SCRIPT_LINES: u64 = 4_194_304;

/// The most operations of a script.
pub const SCRIPT_OPERATIONS: u32 = 1_048_576;
