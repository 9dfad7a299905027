//! Rounds over the state as four columns, by tables of 256 words (FIPS 197, 5.1).
ghost use Rattle.std.specs.Prelude.{◌≡◌, ◌+◌, ◌*◌, ◌≤◌, ◌<◌, length, slice_index};
ghost use Rattle.spec_crypto.specs.ciphers.Aes.{four, sixteen, word, replaced, mixed_columns, block_sum, round_key};
ghost use Rattle.crypto_ciphers.specs.aes_block.Columns.{column_rows, state, IsMixedColumn, IsLastColumn};

use crate::aes_block::tables::TABLES;

// As words, because a table of words substitutes and mixes a byte in one look: a trial byte by byte took nearly three
// times as long.
/// A state by its columns, each a word whose lowest byte stands in row 0.
#[derive(Clone, Copy)]
pub(crate) struct Columns {
    pub(crate) a: u32,
    pub(crate) b: u32,
    pub(crate) c: u32,
    pub(crate) d: u32,
}

/// The columns of a block. It is read in halves of 64 bits, as `block_of` writes it.
#[inline(always)]
pub(crate) fn columns_of(block: &[u8; 16]) -> Columns
    ensures { state result.a result.b result.c result.d ≡ sixteen (λ k. slice_index block.now k) }
{
    let s = block;
    let left = u64::from_le_bytes([s[0], s[1], s[2], s[3], s[4], s[5], s[6], s[7]]);
    let right = u64::from_le_bytes([s[8], s[9], s[10], s[11], s[12], s[13], s[14], s[15]]);
    Columns {
        a: (left % 0x1_0000_0000) as u32,
        b: (left >> 32) as u32,
        c: (right % 0x1_0000_0000) as u32,
        d: (right >> 32) as u32,
    }
}

/// The block of a state.
#[inline(always)]
pub(crate) fn block_of(s: Columns) -> [u8; 16]
    ensures { result ≡ state s.a s.b s.c s.d }
{
    let left = (s.a as u64 + s.b as u64 * 0x1_0000_0000).to_le_bytes();
    let right = (s.c as u64 + s.d as u64 * 0x1_0000_0000).to_le_bytes();
    [
        left[0], left[1], left[2], left[3], left[4], left[5], left[6], left[7], right[0], right[1],
        right[2], right[3], right[4], right[5], right[6], right[7],
    ]
}

/// The sum of two states.
#[inline(always)]
pub(crate) fn sum_of(s: Columns, t: Columns) -> Columns
    ensures { state result.a result.b result.c result.d ≡ block_sum (state s.a s.b s.c s.d) (state t.a t.b t.c t.d) }
{
    Columns {
        a: s.a ^ t.a,
        b: s.b ^ t.b,
        c: s.c ^ t.c,
        d: s.d ^ t.d,
    }
}

/// Four bytes as a column.
#[inline(always)]
fn column_of(w: &[u8; 4]) -> u32
    ensures { column_rows result ≡ four (λ k. slice_index w.now k) }
{
    u32::from_le_bytes([w[0], w[1], w[2], w[3]])
}

/// A word of the expanded key as a column.
#[inline(always)]
fn key_column_of(words: &[[u8; 4]], i: usize) -> u32
    requires { i < length words.now }
    ensures { column_rows result ≡ four (λ k. slice_index (word words.now i) k) }
{
    column_of(&words[i])
}

/// The key of a round.
#[inline(always)]
pub(crate) fn key_of(words: &[[u8; 4]], round: usize) -> Columns
    requires { 4 * round + 4 ≤ length words.now }
    ensures { state result.a result.b result.c result.d ≡ round_key words.now round }
{
    Columns {
        a: key_column_of(words, 4 * round),
        b: key_column_of(words, 4 * round + 1),
        c: key_column_of(words, 4 * round + 2),
        d: key_column_of(words, 4 * round + 3),
    }
}

/// A column of a round: of each column the byte that ShiftRows brings here, substituted and mixed.
#[inline(always)]
pub(crate) fn mixed_column_of(a: u32, b: u32, c: u32, d: u32, key: u32) -> u32
    ensures { IsMixedColumn a b c d key result }
{
    TABLES[0][(a % 256) as usize]
        ^ TABLES[1][(b / 256 % 256) as usize]
        ^ TABLES[2][(c / 65536 % 256) as usize]
        ^ TABLES[3][(d / 16777216 % 256) as usize]
        ^ key
}

/// A column of the last round, which mixes none.
#[inline(always)]
fn last_column_of(a: u32, b: u32, c: u32, d: u32, key: u32) -> u32
    ensures { IsLastColumn a b c d key result }
{
    TABLES[4][(a % 256) as usize]
        ^ TABLES[5][(b / 256 % 256) as usize]
        ^ TABLES[6][(c / 65536 % 256) as usize]
        ^ TABLES[7][(d / 16777216 % 256) as usize]
        ^ key
}

/// The state behind a whole round.
#[inline(always)]
pub(crate) fn round_of(s: Columns, key: Columns) -> Columns
    ensures { state result.a result.b result.c result.d ≡ block_sum (mixed_columns (replaced (state s.a s.b s.c s.d)))
        (state key.a key.b key.c key.d) }
{
    Columns {
        a: mixed_column_of(s.a, s.b, s.c, s.d, key.a),
        b: mixed_column_of(s.b, s.c, s.d, s.a, key.b),
        c: mixed_column_of(s.c, s.d, s.a, s.b, key.c),
        d: mixed_column_of(s.d, s.a, s.b, s.c, key.d),
    }
}

/// The state behind the last round.
#[inline(always)]
pub(crate) fn last_round_of(s: Columns, key: Columns) -> Columns
    ensures { state result.a result.b result.c result.d ≡ block_sum (replaced (state s.a s.b s.c s.d)) (state key.a
        key.b key.c key.d) }
{
    Columns {
        a: last_column_of(s.a, s.b, s.c, s.d, key.a),
        b: last_column_of(s.b, s.c, s.d, s.a, key.b),
        c: last_column_of(s.c, s.d, s.a, s.b, key.c),
        d: last_column_of(s.d, s.a, s.b, s.c, key.d),
    }
}
