// The fits about two bases in one flat array, where they are used: those of the first base at 0, those of the last one at 20. From the third base on they come by
// way of the kept fits.
ghost use Rattle.std.specs.Prelude.{◌≡◌, ◌+◌, ◌<◌, ◌≤◌, pos, Some, None, length};
ghost use Rattle.imageview.specs.Steps.{IsMeasured};
ghost use Rattle.refine_fits.specs.Windows.{four, corners_at};
ghost use Rattle.refine_fits.specs.StepsAdding.{FourWithin, has_room};
ghost use Rattle.refine_fits.specs.StepsCache.{Kept};
ghost use Rattle.refine_fits.specs.StepsBases.{coefs_in, corners_in, NoBases, Held, Laid, Stands};

use super::{Base, Bases, IntegerFits};
use crate::fits;
use imageview::{Image, Sample};
use refine_formulas::Corners;
use refine_patch::Columns;

impl Bases {
    // No base.
    pub fn new() -> Bases
        ensures { NoBases result }
    {
        Bases {
            first: None,
            last: None,
        }
    }

    // Sees to it that the four fits about a base stand in `flat`, and says where: nowhere, if there is no base or one of the four patches leaves the image. Those of a further
    // base are worked out anew; with `ready_with` the kept ones among them are not.
    pub fn ready<S: Sample>(
        &mut self,
        image: &Image<S>,
        base: Option<Base>,
        columns: &Columns,
        flat: &mut [f32; 40],
    ) -> Option<usize>
        requires small { columns.now.radius ≤ 7 }
        requires held { Held image.now columns.now.numbers.now columns.now.radius self.old flat.old }
        ensures stands { Stands image.now columns.now.numbers.now columns.now.radius base result self.new flat.new }
    {
        let mut fits = IntegerFits {
            centres: [0; 18],
            coefs: [0.0; 45],
            len: 0,
        };
        self.ready_with(&mut fits, image, base, columns, flat)
    }

    // The same with the fits that are kept: from the third base on they are asked first.
    pub fn ready_with<S: Sample>(
        &mut self,
        fits: &mut IntegerFits,
        image: &Image<S>,
        base: Option<Base>,
        columns: &Columns,
        flat: &mut [f32; 40],
    ) -> Option<usize>
        requires small { columns.now.radius ≤ 7 }
        requires held { Held image.now columns.now.numbers.now columns.now.radius self.old flat.old }
        requires kept { Kept image.now columns.now.numbers.now columns.now.radius fits.old }
        ensures stands { Stands image.now columns.now.numbers.now columns.now.radius base result self.new flat.new }
        ensures kept { Kept image.now columns.now.numbers.now columns.now.radius fits.new }
    {
        let base = base?;
        if !has_room(image, base, columns.radius) {
            return None;
        }
        if self.first == Some(base) {
            return Some(0);
        }
        if self.last == Some(base) {
            return Some(20);
        }
        Some(self.add(fits, image, base, columns, flat))
    }

    // A base that is neither, and where its fits stand: those of the first two bases are worked out at once.
    fn add<S: Sample>(
        &mut self,
        fits: &mut IntegerFits,
        image: &Image<S>,
        base: Base,
        columns: &Columns,
        flat: &mut [f32; 40],
    ) -> usize
        requires within { FourWithin image.now columns.now.radius base.x base.y }
        requires held { Held image.now columns.now.numbers.now columns.now.radius self.old flat.old }
        requires kept { Kept image.now columns.now.numbers.now columns.now.radius fits.old }
        ensures stands { Stands image.now columns.now.numbers.now columns.now.radius (Some base) (Some result) self.new flat.new }
        ensures kept { Kept image.now columns.now.numbers.now columns.now.radius fits.new }
    {
        if self.last.is_some() {
            fits.lay(image, base, columns, flat);
            self.last = Some(base);
            return 20;
        }
        if self.first.is_some() {
            fits::fit_about(image, base, columns, flat, 20);
            self.last = Some(base);
            return 20;
        }
        fits::fit_about(image, base, columns, flat, 0);
        self.first = Some(base);
        0
    }
}

impl IntegerFits {
    // Lays the four fits about a further base last, each kept or worked out.
    pub fn lay<S: Sample>(
        &mut self,
        image: &Image<S>,
        base: Base,
        columns: &Columns,
        flat: &mut [f32; 40],
    )
        requires within { FourWithin image.now columns.now.radius base.x base.y }
        requires kept { Kept image.now columns.now.numbers.now columns.now.radius self.old }
        requires long { length flat.old ≡ 40 }
        ensures laid { Laid image.now columns.now.numbers.now columns.now.radius base.x base.y 20 flat.old flat.new }
        ensures kept { Kept image.now columns.now.numbers.now columns.now.radius self.new }
    {
        let corners = self.look(image, usize::from(base.x), usize::from(base.y), columns);
        refine_patch::lay_four(flat, 20, corners);
    }
}

// Whether all four patches about a base lie in the image.
fn has_room<S: Sample>(image: &Image<S>, base: Base, radius: usize) -> bool
    requires { radius ≤ 7 }
    ensures room { result ≡ has_room radius base.x base.y image.now.width image.now.height }
    ensures measured { IsMeasured image.now }
{
    let x = usize::from(base.x);
    let y = usize::from(base.y);
    (radius <= x)
        & (x + 1 + radius < image.width())
        & (radius <= y)
        & (y + 1 + radius < image.height())
}

// The four fits that stand at `to`.
pub fn corners_at(flat: &[f32; 40], to: usize) -> Corners
    requires { to ≤ 20 }
    ensures { result ≡ corners_in flat.now to }
{
    let c00 = coefs_at(flat, to);
    let c10 = coefs_at(flat, to + 1);
    let c01 = coefs_at(flat, to + 2);
    let c11 = coefs_at(flat, to + 3);
    Corners { c00, c10, c01, c11 }
}

// The coefficients of the patch whose first stands at i.
pub fn coefs_at(flat: &[f32; 40], i: usize) -> [f32; 5]
    requires { i ≤ 23 }
    ensures { result ≡ coefs_in flat.now i }
{
    [
        flat[i],
        flat[i + 4],
        flat[i + 8],
        flat[i + 12],
        flat[i + 16],
    ]
}
