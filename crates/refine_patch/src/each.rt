// The four fits number by number, for patches that reach so near the end of the image that no sample lies behind them.
ghost use Rattle.std.specs.Prelude.{◌≡◌, ◌+◌, ◌*◌, ◌≤◌, ◌<◌, length};
ghost use Rattle.refine_patch.specs.StepsFrom.{coefficient_from, four_written};
ghost use Rattle.refine_patch.specs.StepsFour.{lane_of, quad_by, PatchesInside};

use super::{Columns, Firsts, stores};
use imageview::{ImageView, Sample};
use std::simd::prelude::*;

// The coefficient c of the patch that begins at `first`.
fn coefficient<S: Sample>(view: ImageView<S>, columns: &Columns, first: usize, c: usize) -> f32
    requires { (columns.now.radius ≤ 7) × (c < 5) × (first + 2 * columns.now.radius * view.pitch + 2 * columns.now.radius < length view.data.now) }
    ensures { result ≡ coefficient_from (S.levels view.entry.data.now) view.entry.pitch columns.now.numbers.now columns.now.radius first c }
{
    let radius = columns.radius;
    let side = 2 * radius + 1;
    let pitch = view.pitch;
    let centre = S::level_at(view.data, first + (radius * pitch + radius)) as f32;
    let mut sum: f32 = 0.0;
    for k in 0..side * side {
        let z = S::level_at(view.data, first + k / side * pitch + k % side) as f32 - centre;
        sum = sum + columns.numbers[5 * k + c] * z;
    }
    sum
}

// The coefficient c of each patch.
fn coefficients<S: Sample>(view: ImageView<S>, columns: &Columns, at: Firsts, c: usize) -> f32x4
    requires patches_inside { PatchesInside (length view.data.now) view.pitch columns.now.radius at }
    requires of_five { c < 5 }
    ensures { result ≡ quad_by (λ l. coefficient_from (S.levels view.entry.data.now) view.entry.pitch columns.now.numbers.now columns.now.radius (lane_of at l) c) }
{
    f32x4::from_array([
        coefficient(view, columns, at.a, c),
        coefficient(view, columns, at.b, c),
        coefficient(view, columns, at.c, c),
        coefficient(view, columns, at.d, c),
    ])
}

pub fn fit_each<S: Sample>(
    view: ImageView<S>,
    columns: &Columns,
    at: Firsts,
    out: &mut [f32],
    to: usize,
)
    requires out_len { (length out.old ≡ 40) × (to ≤ 20) }
    requires patches_inside { PatchesInside (length view.data.now) view.pitch columns.now.radius at }
    ensures { out.new ≡ four_written (λ c l. coefficient_from (S.levels view.entry.data.now) view.entry.pitch columns.now.numbers.now columns.now.radius (lane_of at l) c) to out.old }
{
    for c in 0..5 {
        let v = coefficients(view, columns, at, c);
        stores::store_quad(out, to + 4 * c, v);
    }
}
