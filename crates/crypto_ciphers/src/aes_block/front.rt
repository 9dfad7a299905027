//! Two rounds in common for the blocks that differ in their last byte alone, as counter blocks do.
//!
//! That byte comes into one column of the first round, and this column brings one byte to each column of the second. So of
//! these blocks each takes five words out of the tables for its first two rounds, in place of 32.
ghost use Rattle.std.specs.Prelude.{◌≡◌, ◌≤◌, ◌<◌, ◌⊎◌, ◌*◌, ◌+◌, length};
ghost use Rattle.spec_crypto.specs.ciphers.Aes.{after, cipher};
ghost use Rattle.crypto_ciphers.specs.aes_block.Columns.{state};
ghost use Rattle.crypto_ciphers.specs.aes_block.Fronts.{WithRow0, WithRow1, WithRow2, WithRow3, IsBlockFront, AreBehind};

use crate::aes_block::cipher::{ended_of, next_of};
use crate::aes_block::columns::{Columns, columns_of, key_of, mixed_column_of, sum_of};
use crate::aes_block::tables::TABLES;
use std::marker::Model;

/// A column whose bytes the S-box replaces by zeros, so that it brings nothing to a mixed one.
const NOTHING: u32 = 0x5252_5252;

/// What the first two rounds make of a block but for its last byte: a column of the first round, and the columns of the
/// second, each without the byte that comes later. A contract sees their five words.
#[derive(Drop)]
pub struct Front {
    column: u32,
    rest: Columns,
}

impl Model for Front {
    ghost use Rattle.std.specs.Prelude.{List, ℕ, [], ◌∷◌};

    ghost Value = { List ℕ };

    ghost view = { λ f. f.column ∷ f.rest.a ∷ f.rest.b ∷ f.rest.c ∷ f.rest.d ∷ [] };
}

/// A mixed column with its byte in row 0, where it had none.
#[inline(always)]
fn with_row0(column: u32, byte: u32) -> u32
    requires { byte < 256 }
    ensures { WithRow0 column byte result }
{
    column ^ TABLES[0][byte as usize]
}

#[inline(always)]
fn with_row1(column: u32, byte: u32) -> u32
    requires { byte < 256 }
    ensures { WithRow1 column byte result }
{
    column ^ TABLES[1][byte as usize]
}

#[inline(always)]
fn with_row2(column: u32, byte: u32) -> u32
    requires { byte < 256 }
    ensures { WithRow2 column byte result }
{
    column ^ TABLES[2][byte as usize]
}

#[inline(always)]
fn with_row3(column: u32, byte: u32) -> u32
    requires { byte < 256 }
    ensures { WithRow3 column byte result }
{
    column ^ TABLES[3][byte as usize]
}

pub(crate) fn front_of(words: &[[u8; 4]], block: &[u8; 16]) -> Front
    requires { 12 ≤ length words.now }
    ensures { IsBlockFront words.now block.now result }
{
    let key = key_of(words, 0);
    let s = sum_of(columns_of(block), key);
    let first = key_of(words, 1);
    let b = mixed_column_of(s.b, s.c, s.d, s.a, first.b);
    let c = mixed_column_of(s.c, s.d, s.a, s.b, first.c);
    let d = mixed_column_of(s.d, s.a, s.b, s.c, first.d);
    let second = key_of(words, 2);
    Front {
        column: mixed_column_of(s.a, s.b, s.c, NOTHING, first.a),
        rest: Columns {
            a: mixed_column_of(NOTHING, b, c, d, second.a),
            b: mixed_column_of(b, c, d, NOTHING, second.b),
            c: mixed_column_of(c, d, NOTHING, b, second.c),
            d: mixed_column_of(d, NOTHING, b, c, second.d),
        },
    }
}

/// The state behind two rounds, from the sum of a block's last byte and the key's.
#[inline(always)]
fn second_of(front: &Front, byte: u8) -> Columns
    ensures { AreBehind front.now byte result.a result.b result.c result.d }
{
    let a = with_row3(front.column, byte as u32);
    Columns {
        a: with_row0(front.rest.a, a % 256),
        b: with_row3(front.rest.b, a / 16777216 % 256),
        c: with_row2(front.rest.c, a / 65536 % 256),
        d: with_row1(front.rest.d, a / 256 % 256),
    }
}

/// The state behind pairs of whole rounds, of which the first is the front's.
#[inline(always)]
fn after_front(words: &[[u8; 4]], front: &Front, block: &[u8; 16], pairs: usize) -> Columns
    requires words { 8 * pairs + 4 ≤ length words.now }
    requires pairs { 1 ≤ pairs }
    requires front { IsBlockFront words.now block.now front.now }
    ensures { state result.a result.b result.c result.d ≡ after words.now block.now (2 * pairs) }
{
    let mut s = second_of(front, block[15] ^ words[3][3]);
    for i in 1..pairs {
        let between = next_of(words, s, 2 * i + 1);
        s = next_of(words, between, 2 * i + 2);
    }
    s
}

#[inline(always)]
pub(crate) fn cipher_behind(words: &[[u8; 4]], front: &Front, block: &[u8; 16]) -> [u8; 16]
    requires words { (length words.now ≡ 44) ⊎ (length words.now ≡ 60) }
    requires front { IsBlockFront words.now block.now front.now }
    ensures { result ≡ cipher words.now block.now }
{
    let rounds = words.len() / 4 - 1;
    let even = after_front(words, front, block, rounds / 2 - 1);
    ended_of(words, even)
}
