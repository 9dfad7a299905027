// The parts of bytes between separators.
ghost use Rattle.std.specs.Prelude.{◌≡◌, ◌==◌, position};

use std::marker::Model;

/// What is left of a text that is cut at each separator: a contract sees the list of the pieces. An
/// empty text is one empty piece.
#[derive(Drop)]
pub struct Pieces<'a> {
    separator: u8,
    rest: Option<&'a [u8]>,
}

impl<'a> Model for Pieces<'a> {
    ghost use Rattle.std.specs.Prelude.{List, ℕ};
    ghost use Rattle.script_words.specs.Pieces.{pieces_left};

    ghost Value = { List (List ℕ) };

    ghost view = { λ p. pieces_left p.separator p.rest };
}

impl<'a> Pieces<'a> {
    ghost use Rattle.std.specs.Prelude.{◌∷◌, [], length, MatchOption};
    ghost use Rattle.script_words.specs.Pieces.{pieces};

    /// All pieces of a text.
    pub fn new(text: &'a [u8], separator: u8) -> Pieces<'a>
        ensures { result ≡ pieces separator text.now }
    {
        Pieces {
            separator,
            rest: Some(text),
        }
    }

    /// Whether no piece is left.
    pub fn is_empty(&self) -> bool
        ensures { result ≡ (length self.now == 0) }
    {
        self.rest.is_none()
    }

    /// The next piece.
    pub fn next(&mut self) -> Option<&'a [u8]>
        ensures { MatchOption result ((self.old ≡ []) × (self.new ≡ [])) (λ piece. self.old ≡ piece.now ∷ self.new) }
    {
        let rest = self.rest?;
        match place_of(rest, self.separator) {
            Some(at) => {
                self.rest = Some(&rest[at + 1..]);
                Some(&rest[..at])
            }
            None => {
                self.rest = None;
                Some(rest)
            }
        }
    }
}

fn place_of(bytes: &[u8], separator: u8) -> Option<usize>
    ensures { result ≡ position (λ byte. byte == separator) bytes.now }
{
    bytes.iter().position(|byte| *byte == separator)
}
