//! What becomes of a file where an open of it leaves (MS-FSA 2.1.5.5).
ghost use Rattle.std.specs.Prelude.{◌≡◌};
ghost use Rattle.server_effects.specs.Fates.{removed_by, unmarked_by};

/// What becomes of a file whose open left.
#[derive(Copy, Clone)]
pub enum Fate {
    /// It stays as it is: it isn't delete pending, or another open has it.
    Stays,
    /// It can't go, since something stands in it, and is delete pending no longer.
    Unmarked,
    /// It goes.
    Goes,
}

impl Fate {
    /// Whether the file goes.
    pub fn goes(self) -> bool
        ensures { result ≡ removed_by self }
    {
        match self {
            Fate::Goes => true,
            Fate::Stays => false,
            Fate::Unmarked => false,
        }
    }

    /// Whether it stays without its mark.
    pub fn is_unmarked(self) -> bool
        ensures { result ≡ unmarked_by self }
    {
        match self {
            Fate::Unmarked => true,
            Fate::Stays => false,
            Fate::Goes => false,
        }
    }
}
