//! The S-box over planes of bits, by a circuit of gates (FIPS 197, 5.1.1): Boyar and Peralta, "A depth-16 circuit for the AES
//! S-box". It has no table and no branch.
ghost use Rattle.std.specs.Prelude.{ℕ, List, map};
ghost use Rattle.spec_crypto.specs.ciphers.Field.{sbox};
ghost use Rattle.crypto_ciphers.specs.aes_block.Planes.{AreVectors, ArePlanes, WiresTell};
ghost use Rattle.crypto_ciphers.specs.aes_block.Circuit.{in_tables, before_tables, inverse_tables, product_tables, out_tables};

use crate::aes_block::gates::{both, even, odd};
use std::simd::prelude::*;

/// The sums of the bits of a byte that the circuit multiplies, behind its lowest plane.
#[inline(always)]
fn sums_in(q: &[u8x16; 8]) -> [u8x16; 22]
    ensures { (s : List (List ℕ)) → AreVectors s → ArePlanes q.now s → WiresTell s result in_tables }
{
    let x7 = q[0];
    let x6 = q[1];
    let x5 = q[2];
    let x4 = q[3];
    let x3 = q[4];
    let x2 = q[5];
    let x1 = q[6];
    let x0 = q[7];
    let y14 = odd(x3, x5);
    let y13 = odd(x0, x6);
    let y9 = odd(x0, x3);
    let y8 = odd(x0, x5);
    let t0 = odd(x1, x2);
    let y1 = odd(t0, x7);
    let y4 = odd(y1, x3);
    let y12 = odd(y13, y14);
    let y2 = odd(y1, x0);
    let y5 = odd(y1, x6);
    let y3 = odd(y5, y8);
    let t1 = odd(x4, y12);
    let y15 = odd(t1, x5);
    let y20 = odd(t1, x1);
    let y6 = odd(y15, x7);
    let y10 = odd(y15, t0);
    let y11 = odd(y20, y9);
    let y7 = odd(x7, y11);
    let y17 = odd(y10, y11);
    let y19 = odd(y10, y8);
    let y16 = odd(t0, y11);
    let y21 = odd(y13, y16);
    let y18 = odd(x0, y16);
    [
        x7, y1, y2, y3, y4, y5, y6, y7, y8, y9, y10, y11, y12, y13, y14, y15, y16, y17, y18, y19,
        y20, y21,
    ]
}

/// What is inverted in the field of 16.
#[inline(always)]
fn before_inverse(ys: &[u8x16; 22]) -> [u8x16; 4]
    ensures { (s : List (List ℕ)) → WiresTell s ys.now in_tables → WiresTell s result before_tables }
{
    let t2 = both(ys[12], ys[15]);
    let t3 = both(ys[3], ys[6]);
    let t4 = odd(t3, t2);
    let t5 = both(ys[4], ys[0]);
    let t6 = odd(t5, t2);
    let t7 = both(ys[13], ys[16]);
    let t8 = both(ys[5], ys[1]);
    let t9 = odd(t8, t7);
    let t10 = both(ys[2], ys[7]);
    let t11 = odd(t10, t7);
    let t12 = both(ys[9], ys[11]);
    let t13 = both(ys[14], ys[17]);
    let t14 = odd(t13, t12);
    let t15 = both(ys[8], ys[10]);
    let t16 = odd(t15, t12);
    let t17 = odd(t4, t14);
    let t18 = odd(t6, t16);
    let t19 = odd(t9, t14);
    let t20 = odd(t11, t16);
    let t21 = odd(t17, ys[20]);
    let t22 = odd(t18, ys[19]);
    let t23 = odd(t19, ys[21]);
    let t24 = odd(t20, ys[18]);
    [t21, t22, t23, t24]
}

/// The inverse there, and its sums.
#[inline(always)]
fn inverse(ts: &[u8x16; 4]) -> [u8x16; 9]
    ensures { (s : List (List ℕ)) → WiresTell s ts.now before_tables → WiresTell s result inverse_tables }
{
    let t25 = odd(ts[0], ts[1]);
    let t26 = both(ts[0], ts[2]);
    let t27 = odd(ts[3], t26);
    let t28 = both(t25, t27);
    let t29 = odd(t28, ts[1]);
    let t30 = odd(ts[2], ts[3]);
    let t31 = odd(ts[1], t26);
    let t32 = both(t31, t30);
    let t33 = odd(t32, ts[3]);
    let t34 = odd(ts[2], t33);
    let t35 = odd(t27, t33);
    let t36 = both(ts[3], t35);
    let t37 = odd(t36, t34);
    let t38 = odd(t27, t36);
    let t39 = both(t29, t38);
    let t40 = odd(t25, t39);
    let t41 = odd(t40, t37);
    let t42 = odd(t29, t33);
    let t43 = odd(t29, t40);
    let t44 = odd(t33, t37);
    let t45 = odd(t42, t41);
    [t29, t33, t37, t40, t41, t42, t43, t44, t45]
}

/// Its products with the sums of the byte.
#[inline(always)]
fn products(ys: &[u8x16; 22], us: &[u8x16; 9]) -> [u8x16; 18]
    ensures { (s : List (List ℕ)) → WiresTell s ys.now in_tables → WiresTell s us.now inverse_tables
        → WiresTell s result product_tables }
{
    let z0 = both(us[7], ys[15]);
    let z1 = both(us[2], ys[6]);
    let z2 = both(us[1], ys[0]);
    let z3 = both(us[6], ys[16]);
    let z4 = both(us[3], ys[1]);
    let z5 = both(us[0], ys[7]);
    let z6 = both(us[5], ys[11]);
    let z7 = both(us[8], ys[17]);
    let z8 = both(us[4], ys[10]);
    let z9 = both(us[7], ys[12]);
    let z10 = both(us[2], ys[3]);
    let z11 = both(us[1], ys[4]);
    let z12 = both(us[6], ys[13]);
    let z13 = both(us[3], ys[5]);
    let z14 = both(us[0], ys[2]);
    let z15 = both(us[5], ys[9]);
    let z16 = both(us[8], ys[14]);
    let z17 = both(us[4], ys[8]);
    [
        z0, z1, z2, z3, z4, z5, z6, z7, z8, z9, z10, z11, z12, z13, z14, z15, z16, z17,
    ]
}

/// The planes of the S-box's bytes.
#[inline(always)]
fn sums_out(zs: &[u8x16; 18]) -> [u8x16; 8]
    ensures { (s : List (List ℕ)) → AreVectors s → WiresTell s zs.now product_tables → WiresTell s result out_tables }
{
    let t46 = odd(zs[15], zs[16]);
    let t47 = odd(zs[10], zs[11]);
    let t48 = odd(zs[5], zs[13]);
    let t49 = odd(zs[9], zs[10]);
    let t50 = odd(zs[2], zs[12]);
    let t51 = odd(zs[2], zs[5]);
    let t52 = odd(zs[7], zs[8]);
    let t53 = odd(zs[0], zs[3]);
    let t54 = odd(zs[6], zs[7]);
    let t55 = odd(zs[16], zs[17]);
    let t56 = odd(zs[12], t48);
    let t57 = odd(t50, t53);
    let t58 = odd(zs[4], t46);
    let t59 = odd(zs[3], t54);
    let t60 = odd(t46, t57);
    let t61 = odd(zs[14], t57);
    let t62 = odd(t52, t58);
    let t63 = odd(t49, t58);
    let t64 = odd(zs[4], t59);
    let t65 = odd(t61, t62);
    let t66 = odd(zs[1], t63);
    let s0 = odd(t59, t63);
    let s6 = even(t56, t62);
    let s7 = even(t48, t60);
    let t67 = odd(t64, t65);
    let s3 = odd(t53, t66);
    let s4 = odd(t51, t66);
    let s5 = odd(t47, t65);
    let s1 = even(t64, s3);
    let s2 = even(t55, t67);
    [s7, s6, s5, s4, s3, s2, s1, s0]
}

/// The S-box of each byte.
#[inline(always)]
pub(crate) fn substituted(q: &[u8x16; 8]) -> [u8x16; 8]
    ensures { (s : List (List ℕ)) → AreVectors s → ArePlanes q.now s → ArePlanes result (map (map sbox) s) }
{
    let ys = sums_in(q);
    let us = inverse(&before_inverse(&ys));
    sums_out(&products(&ys, &us))
}
