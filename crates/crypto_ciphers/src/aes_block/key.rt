//! The key expansion (FIPS 197, 5.2).
ghost use Rattle.std.specs.Prelude.{◌≡◌, ◌+◌, ◌*◌, ◌≤◌, ◌<◌, length, take, slice_set};
ghost use Rattle.spec_crypto.specs.ciphers.Aes.{constant, sub_word, rot_word, word_sum, word_change, next_word, expanded};

use crate::aes_block::state::{doubled_of, substituted};

/// x to the power n.
fn constant_of(n: usize) -> u8
    ensures { result ≡ constant n }
{
    let mut power = 1;
    for i in 0..n {
        power = doubled_of(power);
    }
    power
}

fn sub_word_of(w: [u8; 4]) -> [u8; 4]
    ensures { result ≡ sub_word w }
{
    [
        substituted(w[0]),
        substituted(w[1]),
        substituted(w[2]),
        substituted(w[3]),
    ]
}

fn word_sum_of(v: [u8; 4], w: [u8; 4]) -> [u8; 4]
    ensures { result ≡ word_sum v w }
{
    [v[0] ^ w[0], v[1] ^ w[1], v[2] ^ w[2], v[3] ^ w[3]]
}

/// What is added to the word a key's length before word i.
#[inline(always)]
#[tactic(auto, unfolding(spec_crypto::specs::ciphers::Aes::word_change))]
fn word_change_of(key_words: usize, before: [u8; 4], i: usize) -> [u8; 4]
    requires { 0 < key_words }
    ensures { result ≡ word_change key_words before i }
{
    if i % key_words == 0 {
        let turned = [before[1], before[2], before[3], before[0]];
        let constant = constant_of((i / key_words).saturating_sub(1));
        word_sum_of(sub_word_of(turned), [constant, 0, 0, 0])
    } else if key_words > 6 && i % key_words == 4 {
        sub_word_of(before)
    } else {
        before
    }
}

/// The word behind those that there are.
#[inline(always)]
#[tactic(auto, unfolding(spec_crypto::specs::ciphers::Aes::next_word))]
fn next_word_of(key: &[u8], key_words: usize, words: &[[u8; 4]]) -> [u8; 4]
    requires some { 0 < key_words }
    requires whole { 4 * key_words ≤ length key.now }
    ensures { result ≡ next_word key_words key.now words.now (length words.now) }
{
    let i = words.len();
    if i < key_words {
        [key[4 * i], key[4 * i + 1], key[4 * i + 2], key[4 * i + 3]]
    } else {
        let change = word_change_of(key_words, words[i - 1], i);
        word_sum_of(words[i - key_words], change)
    }
}

/// Expands a key into the first words of the array. Inlined, it divides by a constant.
#[inline(always)]
pub(crate) fn expanded_of(key: &[u8], key_words: usize, count: usize) -> [[u8; 4]; 60]
    requires some { 0 < key_words }
    requires whole { 4 * key_words ≤ length key.now }
    requires room { count ≤ 60 }
    ensures { take count result ≡ expanded key_words key.now count }
{
    let mut words = [[0; 4]; 60];
    for i in 0..count {
        words[i] = next_word_of(key, key_words, &words[..i]);
    }
    words
}
