//! Eight vectors turned into planes of their bits, and back.
ghost use Rattle.std.specs.Prelude.{ℕ, List};
ghost use Rattle.crypto_ciphers.specs.aes_block.Planes.{ArePlanes, IsTurnedLow, IsTurnedHigh};

use std::simd::prelude::*;

/// Two vectors, each with half of the bits of the other.
#[derive(Clone, Copy)]
struct Pair {
    low: u8x16,
    high: u8x16,
}

#[inline(always)]
fn turned_by_one(a: u8x16, b: u8x16) -> Pair
    ensures first { IsTurnedLow 1 a b result.low }
    ensures second { IsTurnedHigh 1 a b result.high }
{
    let one = u8x16::splat(1);
    let even = u8x16::splat(0x55);
    Pair {
        low: (a & even) ^ ((b & even) << one),
        high: ((a >> one) & even) ^ (b & u8x16::splat(0xaa)),
    }
}

#[inline(always)]
fn turned_by_two(a: u8x16, b: u8x16) -> Pair
    ensures first { IsTurnedLow 2 a b result.low }
    ensures second { IsTurnedHigh 2 a b result.high }
{
    let two = u8x16::splat(2);
    let even = u8x16::splat(0x33);
    Pair {
        low: (a & even) ^ ((b & even) << two),
        high: ((a >> two) & even) ^ (b & u8x16::splat(0xcc)),
    }
}

#[inline(always)]
fn turned_by_four(a: u8x16, b: u8x16) -> Pair
    ensures first { IsTurnedLow 4 a b result.low }
    ensures second { IsTurnedHigh 4 a b result.high }
{
    let four = u8x16::splat(4);
    let even = u8x16::splat(0x0f);
    Pair {
        low: (a & even) ^ ((b & even) << four),
        high: ((a >> four) & even) ^ (b & u8x16::splat(0xf0)),
    }
}

/// The planes of eight vectors, or the vectors of eight planes.
#[inline(always)]
pub(crate) fn turned(q: &[u8x16; 8]) -> [u8x16; 8]
    ensures { ArePlanes result q.now }
{
    let a = turned_by_one(q[0], q[1]);
    let b = turned_by_one(q[2], q[3]);
    let c = turned_by_one(q[4], q[5]);
    let d = turned_by_one(q[6], q[7]);
    let e = turned_by_two(a.low, b.low);
    let f = turned_by_two(a.high, b.high);
    let g = turned_by_two(c.low, d.low);
    let h = turned_by_two(c.high, d.high);
    let k = turned_by_four(e.low, g.low);
    let l = turned_by_four(f.low, h.low);
    let m = turned_by_four(e.high, g.high);
    let n = turned_by_four(f.high, h.high);
    [k.low, l.low, m.low, n.low, k.high, l.high, m.high, n.high]
}
