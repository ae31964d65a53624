// The rows of the operator in binary64, from the reduced matrix, a sample at a time, and the columns that are kept of them, narrowed once.
ghost use Rattle.std.specs.Prelude.{◌≡◌, ◌+◌, ◌*◌, ◌<◌, ◌≤◌, length};
ghost use Rattle.shapes.specs.Lists.{overwritten};
ghost use Rattle.refine_operator.specs.Basis.{side, samples};
ghost use Rattle.refine_operator.specs.Steps.{row_sum, five_at, column_at, Continued};

use crate::{Phi, basis};

// The inverse's row times the basis. The sum starts from -0.0, as Rust's does.
fn row_sum(m: &[f64; 72], c: usize, p: Phi) -> f64
    requires { c < 5 }
    ensures { result ≡ row_sum m.now c p }
{
    let i = 12 * c;
    -0.0 + m[i + 6] * p.a
        + m[i + 7] * p.b
        + m[i + 8] * p.c
        + m[i + 9] * p.d
        + m[i + 10] * p.e
        + m[i + 11] * p.f
}

// The five entries at the column x and the row y.
pub fn five_of(radius: usize, m: &[f64; 72], x: usize, y: usize) -> [f64; 5]
    requires { (radius ≤ 7) × (x ≤ 14) × (y ≤ 14) }
    ensures { result ≡ five_at radius m.now x y }
{
    let p = basis::phi_of(radius, x, y);
    [
        row_sum(m, 0, p),
        row_sum(m, 1, p),
        row_sum(m, 2, p),
        row_sum(m, 3, p),
        row_sum(m, 4, p),
    ]
}

// The column of the sample at x and y, which is the sample k.
fn put(radius: usize, m: &[f64; 72], x: usize, y: usize, k: usize, columns: &mut [f32])
    requires { (radius ≤ 7) × (x < side radius) × (y < side radius) × (k ≡ y * side radius + x) × (k < 225) × (length columns.old ≡ 1125) }
    ensures { Continued (5 * k) (5 * k + 5) (column_at radius m.now) columns.old columns.new }
{
    let five = five_of(radius, m, x, y);
    for c in 0..5 {
        columns[5 * k + c] = floats::f64_to_f32(five[c]);
    }
}

// The columns of the row y, whose first sample is `from`.
fn fill_line(radius: usize, m: &[f64; 72], y: usize, from: usize, columns: &mut [f32])
    requires { (radius ≤ 7) × (y < side radius) × (from ≡ y * side radius) × (from + side radius ≤ 225) × (length columns.old ≡ 1125) }
    ensures { Continued (5 * from) (5 * (from + side radius)) (column_at radius m.now) columns.old columns.new }
{
    for x in 0..2 * radius + 1 {
        put(radius, m, x, y, from + x, columns);
    }
}

pub fn fill_columns(radius: usize, m: &[f64; 72], columns: &mut [f32])
    requires { (radius ≤ 7) × (length columns.old ≡ 1125) }
    ensures { columns.new ≡ overwritten (5 * samples radius) (column_at radius m.now) columns.old }
{
    for y in 0..2 * radius + 1 {
        fill_line(radius, m, y, y * (2 * radius + 1), columns);
    }
}
