// The float leaves over every value of the type: NaN, infinities, both zeros and subnormals included. Each contract is one definition of specs/.
// Floor, round and root are written here because docs/RULES.md asks it, though std has `floor`, `round` and `sqrt`.
#![tactic(auto)]

ghost use Rattle.std.specs.Prelude.{◌≡◌, ◌+◌, ◌*◌, ◌/◌, ◌^◌, ◌<◌, ◌≤◌, true, false, T, pos};
ghost use Rattle.std.specs.Float.Ieee as Ieee;
ghost use Rattle.std.specs.Float.{fin, binary32, binary64};
ghost use Rattle.std.specs.Float.Ieee.Scale.{finite};
ghost use Rattle.floats.specs.Magnitude.{magnitude};
ghost use Rattle.floats.specs.Whole.{floor, round_away};
ghost use Rattle.floats.specs.Convert.{convert};
ghost use Rattle.std.specs.Float.Ieee.Nearest.{closest};
ghost use Rattle.floats.specs.Root.{sqrt, root};
ghost use Rattle.floats.specs.Steps.{Narrowed, Rooted, nearest_root};
ghost use Rattle.floats.specs.TotalOrder.{total_cmp};

use std::cmp::Ordering;

// |x|. The difference makes +0.0 of -0.0, which -x would not make of +0.0. One comparison, where std's `abs` makes two.
// Both widths by name here and below, as in std: a generic one would be a trait of ours with these two bodies again.
pub fn magnitude_f32(x: f32) -> f32
    ensures { result ≡ magnitude x }
{
    if x <= 0.0 { 0.0 - x } else { x }
}

pub fn magnitude_f64(x: f64) -> f64
    ensures { result ≡ magnitude x }
{
    if x <= 0.0 { 0.0 - x } else { x }
}

// Neither a NaN nor an infinity. Says of std's test what all definitions ask, `finite`.
#[tactic(auto, using(crate::proofs::LeafLaws::finite_is))]
pub fn is_finite_f32(x: f32) -> bool
    ensures { result ≡ finite x }
{
    x.is_finite()
}

#[tactic(auto, using(crate::proofs::LeafLaws::finite_is))]
pub fn is_finite_f64(x: f64) -> bool
    ensures { result ≡ finite x }
{
    x.is_finite()
}

// The greatest whole number that is not above x. From 2^23 on every value is whole.
pub fn floor_f32(x: f32) -> f32
    ensures { result ≡ floor binary32 x }
{
    if (0.0 < x) & (x < 8388608.0) {
        whole_below(x)
    } else if (x < 0.0) & (-8388608.0 < x) {
        -whole_above(-x)
    } else {
        x
    }
}

// The nearest whole number, a tie away from zero.
pub fn round_f32(x: f32) -> f32
    ensures { result ≡ round_away binary32 x }
{
    if (0.0 < x) & (x < 8388608.0) {
        whole_nearest(x)
    } else if (x < 0.0) & (-8388608.0 < x) {
        -whole_nearest(-x)
    } else {
        x
    }
}

// The same `as i32`: in one step where x is above zero and not all values are whole.
pub fn round_to_i32(x: f32) -> i32
    ensures { result ≡ Ieee.to_signed 31 (round_away binary32 x) }
{
    if (0.0 < x) & (x < 8388608.0) {
        return number_nearest(x) as i32;
    }
    f32_to_i32(round_f32(x))
}

// x `as i32`, as Rust has it: toward zero, out of range to the nearest end, a NaN to 0. One conversion, where std's `saturating_f32_to_i32` goes by way of an f64.
pub fn f32_to_i32(x: f32) -> i32
    ensures { result ≡ Ieee.to_signed 31 x }
{
    if x < 2147483648.0 {
        if -2147483648.0 < x {
            return std::num::truncating_f32_to_i64(x) as i32;
        }
        return -2147483648;
    }
    if x == x {
        return 2147483647;
    }
    0
}

// x `as usize`, as Rust has it, in one conversion as well.
pub fn f32_to_usize(x: f32) -> usize
    ensures { result ≡ Ieee.to_unsigned 64 x }
{
    if 0.0 < x {
        if x < 18446744073709551616.0 {
            return std::num::truncating_f32_to_u64(x) as usize;
        }
        return 18446744073709551615;
    }
    0
}

// The f32 nearest to n, by std's function under the name that README has.
pub fn i32_to_f32(n: i32) -> f32
    ensures { result ≡ Ieee.of_int binary32 n }
{
    std::num::nearest_i32_to_f32(n)
}

// The f32 nearest to x, a tie to the even one, from x's bit pattern.
pub fn f64_to_f32(x: f64) -> f32
    ensures { result ≡ convert binary32 x }
{
    if x != x {
        return 0.0 / 0.0;
    }
    let bits = f64::to_bits(x);
    if bits < 0x8000_0000_0000_0000 {
        return f32::from_bits(narrowed(bits));
    }
    -f32::from_bits(narrowed(bits - 0x8000_0000_0000_0000))
}

// The f32 nearest to the root of x, from x's bit pattern. That `sqrt` is the nearest is `sqrt-nearest` of proofs/NearestRoots.antt.
pub fn sqrt_f32(x: f32) -> f32
    ensures { result ≡ sqrt binary32 x }
{
    if 0.0 < x {
        if x < 1.0 / 0.0 {
            return f32::from_bits(root_bits(f32::to_bits(x)));
        }
        return x;
    }
    if x == 0.0 {
        return x;
    }
    0.0 / 0.0
}

// The bit pattern of x. A NaN has none of its own: it is written as the quiet one with no sign and no payload. The four are std's, by the names that README has.
pub fn f32_to_bits(x: f32) -> u32
    ensures { result ≡ Ieee.to_bits binary32 x }
{
    std::num::f32_to_bits_with_nan(x)
}

pub fn f64_to_bits(x: f64) -> u64
    ensures { result ≡ Ieee.to_bits binary64 x }
{
    std::num::f64_to_bits_with_nan(x)
}

// The value of a bit pattern, every NaN's too.
pub fn f32_from_bits(bits: u32) -> f32
    ensures { result ≡ Ieee.of_bits binary32 bits }
{
    std::num::f32_from_bits_with_nan(bits)
}

pub fn f64_from_bits(bits: u64) -> f64
    ensures { result ≡ Ieee.of_bits binary64 bits }
{
    std::num::f64_from_bits_with_nan(bits)
}

// How |a| and |b| compare, as `a.abs().total_cmp(&b.abs())` has it.
pub fn total_cmp_magnitudes(a: f64, b: f64) -> Ordering
    ensures { result ≡ total_cmp a b }
{
    let m = magnitude_f64(a);
    let n = magnitude_f64(b);
    match m.partial_cmp(&n) {
        Some(order) => order,
        None => m.is_nan().cmp(&n.is_nan()),
    }
}

// x without its fraction, where that is a float exactly.
fn whole_below(x: f32) -> f32
    requires above_zero { T (Ieee.lt (fin false 0 (pos 0)) x) }
    requires with_fractions { T (Ieee.lt x (fin false 1 (pos 23))) }
    ensures { result ≡ floor binary32 x }
{
    std::num::truncating_f32_to_u64(x) as f32
}

// The least whole number that is not below x: floor of -x, negated.
fn whole_above(x: f32) -> f32
    requires above_zero { T (Ieee.lt (fin false 0 (pos 0)) x) }
    requires with_fractions { T (Ieee.lt x (fin false 1 (pos 23))) }
    ensures { Ieee.neg result ≡ floor binary32 (Ieee.neg x) }
{
    let below = std::num::truncating_f32_to_u64(x);
    if (below as f32) < x {
        return (below + 1) as f32;
    }
    below as f32
}

// The nearest whole number as a float, which holds it exactly.
fn whole_nearest(x: f32) -> f32
    requires above_zero { T (Ieee.lt (fin false 0 (pos 0)) x) }
    requires with_fractions { T (Ieee.lt x (fin false 1 (pos 23))) }
    ensures { result ≡ round_away binary32 x }
{
    number_nearest(x) as f32
}

// Half of the whole part of twice x, rounded up: all of it in whole numbers, since x + x is exact.
fn number_nearest(x: f32) -> u64
    requires above_zero { T (Ieee.lt (fin false 0 (pos 0)) x) }
    requires with_fractions { T (Ieee.lt x (fin false 1 (pos 23))) }
    ensures nearest { Ieee.of_int binary32 (pos result) ≡ round_away binary32 x }
    ensures exact { result ≤ 8388608 }
{
    (std::num::truncating_f32_to_u64(x + x) + 1) / 2
}

// The binary32 pattern nearest to a binary64 pattern with no sign: of a normal value 29 digits are dropped,
// below that more, and the rest counts the smallest units.
fn narrowed(bits: u64) -> u32
    requires { bits ≤ 0x7ff0_0000_0000_0000 }
    ensures { Narrowed bits result }
{
    let field = bits / 0x10_0000_0000_0000;
    let digits = bits % 0x10_0000_0000_0000 + 0x10_0000_0000_0000;
    if 1151 <= field {
        return 0x7f80_0000;
    }
    if 897 <= field {
        return ((field - 897) * 0x80_0000 + nearest_even(digits, 0x1000_0000)) as u32;
    }
    if 872 <= field {
        return nearest_even(digits, 1 << (925 - field)) as u32;
    }
    0
}

// n / (2 * half) to the nearest whole number, a tie to the even one.
fn nearest_even(n: u64, half: u64) -> u64
    requires digits { n < 2 ^ 53 }
    requires some { 0 < half }
    requires halves { half ≤ 2 ^ 53 }
    ensures { result ≡ closest n (half + half) }
{
    (n + (half - 1) + n / (half + half) % 2) / (half + half)
}

// The binary32 pattern nearest to the root of a pattern above zero and below infinity.
// A normal value is m * 2 ^ (field - 150). With 23 or 24 zeros behind m, by the parity of the field, an even power of two is left, and its root is 2 ^ k units.
fn root_bits(bits: u32) -> u32
    requires above_zero { 0 < bits }
    requires is_finite { bits < 0x7f80_0000 }
    ensures { Rooted bits result }
{
    let field = bits / 0x80_0000;
    if field == 0 {
        return small_root(bits);
    }
    let m = (bits % 0x80_0000 + 0x80_0000) as u64;
    let k = (field + 125) / 2;
    if field % 2 == 1 {
        return rounded_root(m * 0x80_0000, k);
    }
    rounded_root(m * 0x100_0000, k)
}

// The same of a subnormal pattern: its few digits are moved up, two places at a time.
fn small_root(bits: u32) -> u32
    requires above_zero { 0 < bits }
    requires subnormal { bits < 0x80_0000 }
    ensures { Rooted bits result }
{
    let mut n = bits as u64 * 0x80_0000;
    let mut k = 63;
    while n < 0x4000_0000_0000 {
        n *= 4;
        k -= 1;
    }
    rounded_root(n, k)
}

// The pattern with k dropped digits whose digits are the whole number nearest to the root of n.
fn rounded_root(n: u64, k: u32) -> u32
    requires enough { 0x4000_0000_0000 ≤ n }
    requires few { n < 0x1_0000_0000_0000 }
    requires dropped { k < 192 }
    ensures { result ≡ k * 0x80_0000 + nearest_root n }
{
    let q = whole_root(n);
    let down = k * 0x80_0000 + q as u32;
    if q < n - q * q {
        return down + 1;
    }
    down
}

// The whole root of n, by Newton's steps, which come down to it from above.
// The first step is from 2 ^ 23.5, the middle of the roots that are asked here: two or three more reach nearly all of them, and four the others.
fn whole_root(n: u64) -> u64
    requires { 0 < n }
    ensures { result ≡ root n }
{
    let mut r = (11_863_283 + n / 11_863_283) / 2;
    while n / r < r {
        r = (r + n / r) / 2;
    }
    r
}
