// The words behind the program's name.
ghost use Rattle.std.specs.Prelude.{◌≡◌, ◌-◌, ◌^◌, ◌∷◌, map, codes, Some, None, if◌then◌else◌};
ghost use Rattle.std.specs.Str.{bytes_eq};
ghost use Rattle.std.specs.String.{string_bytes};
ghost use Rattle.script_words.specs.Numbers as numbers;
ghost use Rattle.drill_command.specs.Asking.{asked_behind, asked_in, drill_in, gen_in};

use script_words::number_to;

/// The most operations that are made.
const MOST_OPERATIONS: u64 = 1_048_576;

/// A command.
#[derive(Clone, Copy, Debug, PartialEq, Eq)]
pub(crate) enum Asked {
    Drill,
    Gen { seed: u64, operations: u64 },
}

fn drill_of(word: &str) -> Option<Asked>
    ensures { result ≡ drill_in word.now }
{
    if word == "drill" {
        Some(Asked::Drill)
    } else {
        None
    }
}

fn gen_with(seed: u64, operations: Option<u64>) -> Option<Asked>
    ensures { result ≡ gen_in (Some seed) operations }
{
    match operations {
        Some(operations) => Some(Asked::Gen { seed, operations }),
        None => None,
    }
}

/// `gen SEED OPS`: decimal numbers without sign or leading zero.
fn gen_of(seed: &str, operations: &str) -> Option<Asked>
    ensures { result ≡ gen_in (numbers.number_to (2 ^ 64 - 1) seed.now) (numbers.number_to 1048576 operations.now) }
{
    let operations = number_to(MOST_OPERATIONS, operations.as_bytes());
    match number_to(u64::MAX, seed.as_bytes()) {
        Some(seed) => gen_with(seed, operations),
        None => None,
    }
}

fn gen_named(word: &str, seed: &str, operations: &str) -> Option<Asked>
    ensures { result ≡ (if bytes_eq word.now (codes "gen")
        then gen_in (numbers.number_to (2 ^ 64 - 1) seed.now) (numbers.number_to 1048576 operations.now) else None) }
{
    if word == "gen" {
        gen_of(seed, operations)
    } else {
        None
    }
}

/// Behind three words.
fn asked_by_three(word: &str, seed: &str, operations: &str, more: &[String]) -> Option<Asked>
    ensures { result ≡ asked_behind word.now (seed.now ∷ operations.now ∷ map string_bytes more.now) }
{
    match more.split_first() {
        Some(_) => None,
        None => gen_named(word, seed, operations),
    }
}

fn asked_by_two(word: &str, seed: &str, more: &[String]) -> Option<Asked>
    ensures { result ≡ asked_behind word.now (seed.now ∷ map string_bytes more.now) }
{
    match more.split_first() {
        Some((operations, more)) => asked_by_three(word, seed, operations.as_str(), more),
        None => None,
    }
}

fn asked_by(word: &str, more: &[String]) -> Option<Asked>
    ensures { result ≡ asked_behind word.now (map string_bytes more.now) }
{
    match more.split_first() {
        Some((seed, more)) => asked_by_two(word, seed.as_str(), more),
        None => drill_of(word),
    }
}

/// The command that the words name.
pub(crate) fn command_of(words: &[String]) -> Option<Asked>
    ensures { result ≡ asked_in (map string_bytes words.now) }
{
    match words.split_first() {
        Some((word, more)) => asked_by(word.as_str(), more),
        None => None,
    }
}
