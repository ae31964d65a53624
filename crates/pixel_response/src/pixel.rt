// The arithmetic of one pixel, of samples of at most sixteen bits. A quarter of the ring is its samples k, k + 4, k + 8 and k + 12.
// Each says what it answers for every bound of its samples whose sums fit 16 bits: a byte's is 255, that of twelve bits 4095. Sums wrap beyond that.
ghost use Rattle.std.specs.Prelude.{◌≡◌, ℕ, ◌+◌, ◌*◌, ◌≤◌, ◌<◌};
ghost use Rattle.pixel_response.specs.Samples.{value_of};
ghost use Rattle.pixel_response.specs.Steps.{Bounded, AtMost, square_of, edges_of, sum_of, cross_of};

#[tactic(auto, unfolding(crate::specs::Steps::square_of, crate::specs::Samples::apart))]
pub fn square_of(a: u16, b: u16, c: u16, d: u16) -> u16
    ensures { (most : ℕ) → 2 * most < 65536 → AtMost most a b c d → Bounded (square_of a b c d) (2 * most) result }
{
    a.wrapping_add(c).abs_diff(b.wrapping_add(d))
}

#[tactic(auto, unfolding(crate::specs::Steps::edges_of, crate::specs::Samples::apart))]
pub fn edges_of(a: u16, b: u16, c: u16, d: u16) -> u16
    ensures { (most : ℕ) → 2 * most < 65536 → AtMost most a b c d → Bounded (edges_of a b c d) (2 * most) result }
{
    a.abs_diff(c).wrapping_add(b.abs_diff(d))
}

pub fn sum_of(a: u16, b: u16, c: u16, d: u16) -> u16
    ensures { (most : ℕ) → 4 * most < 65536 → AtMost most a b c d → Bounded (sum_of a b c d) (4 * most) result }
{
    a.wrapping_add(b).wrapping_add(c).wrapping_add(d)
}

pub fn cross_of(a: u16, b: u16, c: u16, d: u16, e: u16) -> u16
    ensures { (most : ℕ) → 5 * most < 65536 → AtMost most a b c d → e ≤ most → Bounded (cross_of a b c d e) (5 * most) result }
{
    a.wrapping_add(b)
        .wrapping_add(c)
        .wrapping_add(d)
        .wrapping_add(e)
}

// One rounding an operation, in this order.
pub fn value_of(square: u16, edge: u16, ring: u16, cross: u16) -> f32
    ensures { result ≡ value_of square edge ring cross }
{
    let means = floats::magnitude_f32(ring as f32 / 16.0 - cross as f32 / 5.0);
    (square as f32 - edge as f32) - 16.0 * means
}
