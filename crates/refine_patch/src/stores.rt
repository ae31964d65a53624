// Where the sums go: coefficient by coefficient, the four patches side by side.
ghost use Rattle.std.specs.Prelude.{◌≡◌, ◌+◌, ◌≤◌, length};
ghost use Rattle.refine_patch.specs.StepsFour.{four_set, lane_in, sum_in, blocks, FourLanes};

use super::Sums;
use std::simd::prelude::*;

pub fn store_quad(out: &mut [f32], at: usize, v: f32x4)
    requires { (length out.old ≡ 40) × (at + 4 ≤ 40) × (length v ≡ 4) }
    ensures { (out.new ≡ four_set out.old at (lane_in v)) × (length out.new ≡ 40) }
{
    v.copy_to_slice(&mut out[at..at + 4]);
}

// The twenty sums, coefficient by coefficient.
pub fn store(out: &mut [f32], to: usize, s: Sums)
    requires { (length out.old ≡ 40) × (to ≤ 20) × FourLanes s }
    ensures { out.new ≡ blocks 5 (sum_in s) to out.old }
{
    store_quad(out, to + 0, s.a);
    store_quad(out, to + 4, s.b);
    store_quad(out, to + 8, s.c);
    store_quad(out, to + 12, s.d);
    store_quad(out, to + 16, s.e);
}
