// The inverse of the normal matrix, by Gauss-Jordan with partial pivoting: six rows of twelve, flat, the identity beside the matrix.
// A column makes the matrix anew, row by row: exchanged, scaled and cleared at once.
ghost use Rattle.std.specs.Prelude.{◌≡◌, ◌+◌, ◌*◌, ◌<◌, ◌≤◌, length, ◌≢◌};
ghost use Rattle.std.specs.Float.Ieee.{lt};
ghost use Rattle.floats.specs.Magnitude.{magnitude};
ghost use Rattle.shapes.specs.Numbers.{entry};
ghost use Rattle.refine_operator.specs.Inverse.{exchanged, swapped, scaled, cleared, least_pivot, reduce_from, inverse_normal_matrix};
ghost use Rattle.refine_operator.specs.Steps.{Better, Pivot, reduced_by, reduced_at, Continued};

use crate::{NoInverse, basis, normal};
use std::cmp::Ordering;

// The inverse of a radius' normal matrix, right of what is then the identity.
pub fn inverse_of(radius: usize, m: &mut [f64; 72]) -> Result<(), NoInverse>
    requires { radius ≤ 7 }
    ensures { inverse_normal_matrix radius ≡ reduced_by result m.new }
{
    *m = normal::normal_matrix(radius);
    reduce(m)
}

fn entry(m: &[f64; 72], i: usize) -> f64
    requires { i < 72 }
    ensures { result ≡ entry m.now i }
{
    basis::element(m, i)
}

// Of the row best so far and the row p, p unless the best is greater in magnitude.
fn better_of(m: &[f64; 72], col: usize, best: usize, p: usize) -> usize
    requires { (col < 6) × (best < 6) × (p < 6) }
    ensures { Better m.now col best p result }
{
    let a = entry(m, 12 * best + col);
    let b = entry(m, 12 * p + col);
    match floats::total_cmp_magnitudes(a, b) {
        Ordering::Less => p,
        Ordering::Equal => p,
        Ordering::Greater => best,
    }
}

fn pivot_of(m: &[f64; 72], col: usize) -> usize
    requires { col < 6 }
    ensures { Pivot m.now col result }
{
    let mut best = col;
    for p in col + 1..6 {
        best = better_of(m, col, best, p);
    }
    best
}

// The other of two rows, or any other row as it is.
fn exchanged_row(a: usize, b: usize, row: usize) -> usize
    requires { (a < 6) × (b < 6) × (row < 6) }
    ensures { (result ≡ exchanged a b row) × (result < 6) }
{
    if row == a {
        return b;
    }
    if row == b {
        return a;
    }
    row
}

fn is_below_least(x: f64) -> bool
    ensures { result ≡ lt (magnitude x) least_pivot }
{
    floats::magnitude_f64(x) < 0.000000001
}

// The pivot's row made to have one at the pivot.
fn pivot_row(m: &[f64; 72], col: usize, pivot: usize, out: &mut [f64])
    requires { (col < 6) × (pivot < 6) × (length out.old ≡ 72) }
    ensures { Continued (12 * col) (12 * col + 12) (reduced_at col pivot m.now) out.old out.new }
{
    let scale = 1.0 / m[12 * pivot + col];
    for j in 0..12 {
        out[12 * col + j] = m[12 * pivot + j] * scale;
    }
}

// Another row, which stands at `from` before the exchange, less so much of the pivot's that it has zero there.
fn cleared_row(m: &[f64; 72], col: usize, pivot: usize, from: usize, row: usize, out: &mut [f64])
    requires rows_in_bounds { (col < 6) × (pivot < 6) × (from < 6) × (row < 6) × (length out.old ≡ 72) }
    requires exchanged { (from ≡ exchanged col pivot row) × (row ≢ col) }
    ensures { Continued (12 * row) (12 * row + 12) (reduced_at col pivot m.now) out.old out.new }
{
    let scale = 1.0 / m[12 * pivot + col];
    let factor = m[12 * from + col];
    for j in 0..12 {
        out[12 * row + j] = m[12 * from + j] - factor * (m[12 * pivot + j] * scale);
    }
}

fn reduced_row(m: &[f64; 72], col: usize, pivot: usize, row: usize, out: &mut [f64])
    requires { (col < 6) × (pivot < 6) × (row < 6) × (length out.old ≡ 72) }
    ensures { Continued (12 * row) (12 * row + 12) (reduced_at col pivot m.now) out.old out.new }
{
    if row == col {
        pivot_row(m, col, pivot, out);
        return;
    }
    cleared_row(m, col, pivot, exchanged_row(col, pivot, row), row, out);
}

fn reduced_column(m: &[f64; 72], col: usize, pivot: usize, out: &mut [f64])
    requires { (col < 6) × (pivot < 6) × (length out.old ≡ 72) }
    ensures { out.new ≡ cleared col (scaled col (swapped col pivot m.now)) }
{
    for row in 0..6 {
        reduced_row(m, col, pivot, row, out);
    }
}

// Reduces the matrix, column after column.
fn reduce(m: &mut [f64; 72]) -> Result<(), NoInverse>
    ensures { reduce_from 6 0 m.old ≡ reduced_by result m.new }
{
    let mut next = [0.0f64; 72];
    for col in 0..6 {
        let p = pivot_of(m, col);
        if is_below_least(entry(m, 12 * p + col)) {
            return Err(NoInverse);
        }
        reduced_column(m, col, p, &mut next);
        *m = next;
    }
    Ok(())
}
