// Decimal numbers of a script.
ghost use Rattle.std.specs.Prelude.{◌≡◌, IsTrue};
ghost use Rattle.std.specs.Char.{is_ascii_digit};
ghost use Rattle.std.specs.List.{list_all};
ghost use Rattle.script_words.specs.Numbers as numbers;

/// The number that a word spells in decimal, without sign or leading zero, where it is at most the
/// limit.
pub fn number_to(limit: u64, word: &[u8]) -> Option<u64>
    ensures { result ≡ numbers.number_to limit word.now }
{
    if !is_numeral(word) {
        return None;
    }
    match std::str::from_utf8(word) {
        Ok(text) => parsed_to(limit, text),
        Err(_) => None,
    }
}

fn parsed_to(limit: u64, numeral: &str) -> Option<u64>
    requires { IsTrue (numbers.is_numeral numeral.now) }
    ensures { result ≡ numbers.number_to limit numeral.now }
{
    match numeral.parse::<u64>() {
        Ok(number) if number <= limit => Some(number),
        _ => None,
    }
}

fn is_numeral(word: &[u8]) -> bool
    ensures { result ≡ numbers.is_numeral word.now }
{
    !word.is_empty() && are_digits(word) && (word.len() == 1 || word[0] != b'0')
}

fn are_digits(word: &[u8]) -> bool
    ensures { result ≡ list_all is_ascii_digit word.now }
{
    word.iter().all(|byte| byte.is_ascii_digit())
}
