// The overlaps, a shift at a time: 25 sums, to which a sample adds all products of its entries here with those at the shifted sample.
ghost use Rattle.std.specs.Prelude.{◌≡◌, ◌+◌, ◌-◌, ◌*◌, ◌/◌, ◌%◌, ◌<◌, ◌≤◌, true, length};
ghost use Rattle.refine_operator.specs.Basis.{side};
ghost use Rattle.refine_operator.specs.Rows.{stays, overlap_of};
ghost use Rattle.refine_operator.specs.Steps.{five_at, FiveAdded, block_added, sample_added, sums_at, BlockPut, overlap_at, Mirrored, Continued};

use crate::rows;

// Whether the column or row i, shifted by s - 1, is one of the square's.
fn stays_inside(radius: usize, i: usize, s: usize) -> bool
    requires { (radius ≤ 7) × (i < side radius) × (s < 3) }
    ensures { result ≡ stays radius i s }
{
    1 <= i + s && i + s - 1 < 2 * radius + 1
}

// The products of row r here.
fn add_five(sums: &mut [f64], r: usize, here: &[f64; 5], there: &[f64; 5])
    requires { (r < 5) × (length sums.old ≡ 25) }
    ensures { FiveAdded r 5 here.now there.now sums.old sums.new }
{
    let h = here[r];
    for s in 0..5 {
        sums[5 * r + s] = sums[5 * r + s] + h * there[s];
    }
}

// All products of the entries here with those there.
fn add_block(sums: &mut [f64], here: &[f64; 5], there: &[f64; 5])
    requires { length sums.old ≡ 25 }
    ensures { sums.new ≡ block_added sums.old here.now there.now }
{
    for r in 0..5 {
        add_five(sums, r, here, there);
    }
}

// The entries at the shifted sample; those here where nothing is shifted, since entries take most of the time.
fn shifted(radius: usize, m: &[f64; 72], d: usize, x: usize, y: usize, here: [f64; 5]) -> [f64; 5]
    requires in_square { (radius ≤ 7) × (d < 9) × (x < side radius) × (y < side radius) }
    requires stays_in_square { (stays radius x (d % 3) ≡ true) × (stays radius y (d / 3) ≡ true) }
    requires entries_here { here ≡ five_at radius m.now x y }
    ensures { result ≡ five_at radius m.now (x + d % 3 - 1) (y + d / 3 - 1) }
{
    if d == 4 {
        return here;
    }
    rows::five_of(radius, m, x + d % 3 - 1, y + d / 3 - 1)
}

// The sample at x and y, where its shift stays in the square.
fn add_sample(radius: usize, m: &[f64; 72], d: usize, x: usize, y: usize, sums: &mut [f64])
    requires { (radius ≤ 7) × (d < 9) × (x < side radius) × (y < side radius) × (length sums.old ≡ 25) }
    ensures { sums.new ≡ sample_added radius m.now d x y sums.old }
{
    if stays_inside(radius, x, d % 3) & stays_inside(radius, y, d / 3) {
        let here = rows::five_of(radius, m, x, y);
        let there = shifted(radius, m, d, x, y, here);
        add_block(sums, &here, &there);
    }
}

// The samples of the row y.
fn add_line(radius: usize, m: &[f64; 72], d: usize, y: usize, sums: &mut [f64])
    requires { (radius ≤ 7) × (d < 9) × (y < side radius) × (sums.old ≡ sums_at radius m.now d (y * side radius)) }
    ensures { sums.new ≡ sums_at radius m.now d ((y + 1) * side radius) }
{
    for x in 0..2 * radius + 1 {
        add_sample(radius, m, d, x, y, sums);
    }
}

// The sums of the shift d, narrowed.
fn put(d: usize, sums: &[f64; 25], overlap: &mut [f32])
    requires { (d < 9) × (length overlap.old ≡ 225) }
    ensures { BlockPut d 25 sums.now overlap.old overlap.new }
{
    for i in 0..25 {
        overlap[25 * d + i] = floats::f64_to_f32(sums[i]);
    }
}

fn fill_shift(radius: usize, m: &[f64; 72], d: usize, overlap: &mut [f32])
    requires { (radius ≤ 7) × (d < 9) × (length overlap.old ≡ 225) }
    ensures { Continued (25 * d) (25 * d + 25) (overlap_at radius m.now) overlap.old overlap.new }
{
    let mut sums = [0.0f64; 25];
    for y in 0..2 * radius + 1 {
        add_line(radius, m, d, y, &mut sums);
    }
    put(d, &sums, overlap);
}

// The overlaps past the fifth shift: those of the opposite shift with the rows exchanged, the same products in the same order.
fn mirror(overlap: &mut [f32])
    requires { length overlap.old ≡ 225 }
    ensures { Mirrored 225 overlap.old overlap.new }
{
    for i in 125..225 {
        overlap[i] = overlap[25 * (8 - i / 25) + 5 * (i % 5) + i % 25 / 5];
    }
}

pub fn fill_overlap(radius: usize, m: &[f64; 72], overlap: &mut [f32])
    requires { (radius ≤ 7) × (length overlap.old ≡ 225) }
    ensures { overlap.new ≡ overlap_of radius m.now }
{
    for d in 0..5 {
        fill_shift(radius, m, d, overlap);
    }
    mirror(overlap);
}
