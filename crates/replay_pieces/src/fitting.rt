// What asks for the operator of a radius: the covariance of a place, and the fit on a patch.
ghost use Rattle.std.specs.Prelude.{◌≡◌, ◌+◌, ◌*◌, ◌≤◌};

use crate::{moving, numbers};
use imageview::{Image, ImageView};
use refine_fits::fits;
use refine_formulas::{Jacobian, noise};
use refine_patch::Columns;
use replay::{Aim, Part, Spoilt, Trial};

// The radius, the fractions, J and M; whether the covariance is finite, and its entries.
#[derive(Clone, Copy)]
pub struct Spread;

impl Trial for Spread {
    fn spoil(&self, case: &mut [u8], turn: u32) -> Spoilt {
        crate::spoil_from(case, turn, 68, 4)
    }

    fn holds(&mut self, case: &[u8], _aim: Option<Aim>) -> bool {
        let stored = Part::of(case);
        let mut columns = [0.0f32; 1125];
        let mut overlap = [0.0f32; 225];
        // Where there is no operator for the radius the overlaps are zeros.
        let _ = refine_operator::fit_operator(stored.number(0), &mut columns, &mut overlap);
        let jacobian = Jacobian {
            first: numbers::five(stored.behind(3)),
            second: numbers::five(stored.behind(8)),
        };
        let tx = stored.float(1);
        let ty = stored.float(2);
        let matrix = moving::matrix(stored.behind(13));
        match noise::covariance(&overlap, tx, ty, jacobian, matrix) {
            Some(spread) => {
                stored.word(17) == 1
                    && stored.is_float(18, spread.xx)
                    && stored.is_float(19, spread.xy)
                    && stored.is_float(20, spread.yy)
            }
            None => stored.is_zero(17, 21),
        }
    }
}

// The radius, the pitch and the patch, which is an image with padding behind its rows; the five coefficients, from a whole word on.
#[derive(Clone, Copy)]
pub struct Fit;

impl Trial for Fit {
    fn spoil(&self, case: &mut [u8], turn: u32) -> Spoilt {
        let place = coefficients(case).at;
        crate::spoil_from(case, turn, place, 5)
    }

    fn holds(&mut self, case: &[u8], _aim: Option<Aim>) -> bool {
        let radius = Part::of(case).number(0);
        let pitch = Part::of(case).number(1);
        if (7 < radius) | (8192 < pitch) | (pitch <= 2 * radius) {
            return false;
        }
        let patch = Part::of(case).behind(2).bytes(bytes_of(radius, pitch));
        match fit_middle(patch, radius, pitch) {
            Some(found) => numbers::are(coefficients(case), &found),
            None => false,
        }
    }
}

// Where the coefficients of a fit stand: behind the patch, at a whole word.
fn coefficients(case: &[u8]) -> Part {
    let radius = Part::of(case).number(0);
    let pitch = Part::of(case).number(1);
    if (7 < radius) | (8192 < pitch) {
        return Part::of(case);
    }
    Part::of(case).behind(2 + (bytes_of(radius, pitch) + 3) / 4)
}

fn bytes_of(radius: usize, pitch: usize) -> usize
    requires { (radius ≤ 7) × (pitch ≤ 8192) }
    ensures few { result ≤ 122880 }
    ensures rows { result ≡ pitch * (2 * radius + 1) }
{
    let side = 2 * radius + 1;
    pitch * side
}

// The fit about the middle of a patch; none where its bytes are no image of that pitch.
fn fit_middle(patch: &[u8], radius: usize, pitch: usize) -> Option<[f32; 5]>
    requires { radius ≤ 7 }
{
    let mut numbers = [0.0f32; 1125];
    let mut overlap = [0.0f32; 225];
    // There is an operator for each radius from 1 to 7; where there is none the columns are zeros.
    let _ = refine_operator::fit_operator(radius, &mut numbers, &mut overlap);
    let side = 2 * radius + 1;
    let view = ImageView {
        data: patch,
        width: side,
        height: side,
        pitch,
    };
    let Ok(image) = Image::new(view) else {
        return None;
    };
    let columns = Columns {
        numbers: &numbers,
        fourfold: false,
        radius,
    };
    Some(fits::fit_patch(&image, radius, radius, &columns))
}
