// What is known of an open.

/// What is known of an open beside its session and its lock slots.
#[derive(Clone, Copy, Debug, PartialEq, Eq, Drop)]
pub struct Opened {
    /// Its create asks for a persistent handle.
    pub persist: bool,
    /// A close of it settled Ok.
    pub shut: bool,
    /// Its FileId, which the success of its create tells; 0 before.
    pub file: u128,
}
