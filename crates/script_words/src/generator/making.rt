// The lines, one after the other.
ghost use Rattle.std.specs.Prelude.{◌≡◌, ◌<◌, ◌≤◌, ◌++◌, length, drop};
ghost use Rattle.std.specs.Int.{w64, to_le_bytes};
ghost use Rattle.script_words.specs.generator.Making as making;

use crate::generator::events::{MadeEvent, events_of};
use crate::generator::lines::MadeLine;
use rand_chacha::ChaCha20Rng;
use rand_core::SeedableRng;
use rand_core::utils::NextWord;

/// So many operations are of one open.
const OPERATIONS: u32 = 8;

/// So many files there are.
const FILES: u32 = 8;

/// Makes a script's lines, one at each call. What it keeps has one size, however long the script.
#[derive(Drop)]
pub struct Maker {
    words: ChaCha20Rng,
    /// How many operations there are, and how many were made.
    operations: u32,
    made: u32,
    /// What happens before the next operation.
    events: &'static [MadeEvent],
}

/// A script begins with its first channel.
const FRONT: &[MadeEvent] = &[MadeEvent::Link(0)];

/// The next word.
fn draw(words: &mut ChaCha20Rng) -> u32
    ensures value { result ≡ making.word_of words.old }
    ensures left { words.new ≡ making.behind_word words.old }
{
    words.next_word()
}

/// A number's 8 bytes, least first, in front of the others.
fn put_first(key: &mut [u8], seed: u64)
    requires { 8 ≤ length key.old }
    ensures { key.new ≡ to_le_bytes w64 seed ++ drop 8 key.old }
{
    let bytes = seed.to_le_bytes();
    key[..8].copy_from_slice(&bytes);
}

fn key_of(seed: u64) -> [u8; 32]
    ensures { result ≡ making.key_bytes seed }
{
    let mut key = [0; 32];
    put_first(&mut key, seed);
    key
}

impl Maker {
    ghost use Rattle.std.specs.Prelude.{[], ◌∷◌, MatchOption};

    /// Of a seed, and so many operations. The words that it draws are those of ChaCha20 under the seed's 8 bytes and 24 zeros.
    pub fn new(seed: u64, operations: u32) -> Maker
        ensures { making.lines_left result ≡ making.made_lines seed operations }
    {
        Maker {
            words: ChaCha20Rng::from_seed(key_of(seed)),
            operations,
            made: 0,
            events: FRONT,
        }
    }

    /// The next line; none behind the last.
    pub fn next_line(&mut self) -> Option<MadeLine>
        ensures { MatchOption result (making.lines_left self.old ≡ []) (λ line. making.lines_left self.old
            ≡ line ∷ making.lines_left self.new) }
    {
        if let Some((event, rest)) = self.events.split_first() {
            self.events = rest;
            return Some(MadeLine::Event(*event));
        }
        self.next_made()
    }

    /// The next operation, where there is one more; nothing happens any more before it.
    fn next_made(&mut self) -> Option<MadeLine>
        requires none { self.old.events.now ≡ [] }
        ensures { MatchOption result (making.lines_left self.old ≡ []) (λ line. making.lines_left self.old
            ≡ line ∷ making.lines_left self.new) }
    {
        if self.made >= self.operations {
            return None;
        }
        Some(self.next_operation())
    }

    /// The next operation, before which nothing happens any more.
    #[tactic(auto, unfolding(crate::specs::generator::Making::operations_from))]
    fn next_operation(&mut self) -> MadeLine
        requires none { self.old.events.now ≡ [] }
        requires left { self.old.made < self.old.operations }
        ensures { making.lines_left self.old ≡ result ∷ making.lines_left self.new }
    {
        let line = operation(&mut self.words, self.made);
        let number = draw(&mut self.words);
        self.events = events_of(number % 64);
        self.made += 1;
        line
    }
}

/// The operation behind so many.
#[tactic(auto, unfolding(crate::specs::generator::Making::operation_at, crate::specs::generator::Making::behind_operation))]
fn operation(words: &mut ChaCha20Rng, before: u32) -> MadeLine
    ensures line { result ≡ making.operation_at before words.old }
    ensures left { words.new ≡ making.behind_operation before words.old }
{
    let open = before / OPERATIONS;
    let create = open * OPERATIONS + 1;
    match before % OPERATIONS {
        0 => MadeLine::Create { file: open % FILES },
        1 => MadeLine::Write {
            create,
            at: draw(words) % 64,
            word: draw(words),
        },
        2 => MadeLine::Lock { create },
        3 => MadeLine::Fill {
            create,
            at: draw(words) % 100,
        },
        4 => MadeLine::Read { create },
        5 => MadeLine::End { create },
        6 => MadeLine::Unlock { create },
        _ => MadeLine::Close { create },
    }
}
