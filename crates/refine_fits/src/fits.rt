// The fit on the patch about a pixel: rows one after the other, each a part of the image; and the four fits about a base at once.
ghost use Rattle.std.specs.Prelude.{◌≡◌, ◌+◌, ◌*◌, ◌<◌, ◌≤◌, length};
ghost use Rattle.refine_fits.specs.Fit.{coefficients};
ghost use Rattle.refine_fits.specs.StepsAdding.{added, row_added, PatchWithin, FourWithin};
ghost use Rattle.refine_fits.specs.StepsBases.{first_place, Laid};

use super::{Base, Sums};
use imageview::{Image, ImageView, Sample};
use refine_patch::{Columns, Firsts};

// The sums with the sample k, which is z above the centre's.
fn add_sample(s: Sums, numbers: &[f32; 1125], k: usize, z: f32) -> Sums
    requires { k < 225 }
    ensures { result ≡ added numbers.now k z s }
{
    let i = 5 * k;
    Sums {
        a: s.a + numbers[i] * z,
        b: s.b + numbers[i + 1] * z,
        c: s.c + numbers[i + 2] * z,
        d: s.d + numbers[i + 3] * z,
        e: s.e + numbers[i + 4] * z,
    }
}

// The sums with a row of samples, the first of which is the sample `from`.
#[tactic(auto, using(crate::proofs::FitLaws::row_none, crate::proofs::FitLaws::row_more))]
fn add_row<S: Sample>(s: Sums, numbers: &[f32; 1125], row: &[S], centre: f32, from: usize) -> Sums
    requires { from + length row.now ≤ 225 }
    ensures { result ≡ row_added numbers.now (S.levels row.now) centre from (length row.now) s }
{
    let mut sums = s;
    for i in 0..row.len() {
        sums = add_sample(sums, numbers, from + i, S::level_at(row, i) as f32 - centre);
    }
    sums
}

// The coefficients a to e of the fit about the pixel (x, y). A call of its own: put into a caller the five sums are no longer added four at once, which costs a third.
#[inline(never)]
pub fn fit_patch<S: Sample>(image: &Image<S>, x: usize, y: usize, columns: &Columns) -> [f32; 5]
    requires { PatchWithin image.now columns.now.radius x y }
    ensures { result ≡ coefficients image.now columns.now.numbers.now columns.now.radius x y }
{
    let radius = columns.radius;
    let side = 2 * radius + 1;
    let centre = image.sample(x, y) as f32;
    let mut sums = Sums {
        a: 0.0,
        b: 0.0,
        c: 0.0,
        d: 0.0,
        e: 0.0,
    };
    for row in 0..side {
        let samples = image.patch_row(x - radius, y - radius + row, side);
        sums = add_row(sums, columns.numbers, samples, centre, row * side);
    }
    [sums.a, sums.b, sums.c, sums.d, sums.e]
}

// Where the patch about (x, y) begins in a view's samples; the pitch alone decides it.
pub fn first_place<S: Sample>(view: ImageView<S>, x: u16, y: u16, radius: usize) -> usize
    requires left { radius ≤ x }
    requires above { radius ≤ y }
    requires pitch { view.pitch ≤ 8192 }
    ensures { result ≡ first_place view.entry.pitch radius x y }
{
    (usize::from(y) - radius) * view.pitch + (usize::from(x) - radius)
}

// The four fits about a base, to `flat` from `to` on.
pub fn fit_about<S: Sample>(
    image: &Image<S>,
    base: Base,
    columns: &Columns,
    flat: &mut [f32; 40],
    to: usize,
)
    requires within { FourWithin image.now columns.now.radius base.x base.y }
    requires long { length flat.old ≡ 40 }
    requires low { to ≤ 20 }
    ensures { Laid image.now columns.now.numbers.now columns.now.radius base.x base.y to flat.old flat.new }
{
    let view = image.view();
    let pitch = view.pitch;
    let at = first_place(view, base.x, base.y, columns.radius);
    let firsts = Firsts {
        a: at,
        b: at + 1,
        c: at + pitch,
        d: at + pitch + 1,
    };
    refine_patch::fit_four(view, columns, firsts, flat, to);
}
