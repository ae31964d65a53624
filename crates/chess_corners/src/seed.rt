// The refiner of one seed, of samples in bytes and in words, and the operator that serves many seeds.
ghost use Rattle.std.specs.Prelude.{◌≡◌};
ghost use Rattle.imageview.specs.Image.{byte_image, word_image};
ghost use Rattle.imageview.specs.View.{shown};
ghost use Rattle.refine_seed.specs.Refine.{refine_lent, refine_of, old_number};
ghost use Rattle.chess_corners.specs.Seed.{settings, asked, state_of, entries_after, Told, Operating};

use imageview::{ImageView, Sample};
use refine_formulas::SaddlePointConfig;
use refine_operator::OperatorError;
use refine_seed::{Estimate, Unrefined};

/// Refines one seed; 0 to 7, 10, 11 or 12. `place` takes x, y and score, `state` whether it converged, the tries and whether there is a covariance.
pub fn chess_corners_refine(
    img: &[u8],
    width: usize,
    height: usize,
    pitch: usize,
    radius: usize,
    det_margin: f32,
    max_offset: f32,
    min_abs_det: f32,
    x: f32,
    y: f32,
    wanted: u32,
    place: &mut [f32; 3],
    state: &mut [u32; 3],
    covariance: &mut [f32; 3],
) -> u32
    ensures { Told (refine_of (byte_image img.now width height pitch) (settings radius det_margin max_offset min_abs_det) x y (asked wanted)) x y place.old state.old covariance.old result place.new state.new covariance.new }
{
    let view = ImageView {
        data: img,
        width,
        height,
        pitch,
    };
    let cfg = SaddlePointConfig {
        radius,
        det_margin,
        max_offset,
        min_abs_det,
    };
    refine_one(view, cfg, x, y, wanted, place, state, covariance)
}

/// The same of twelve-bit samples; 0 to 7, 10, 26, 11 or 12.
pub fn chess_corners_refine_u16(
    img: &[u16],
    width: usize,
    height: usize,
    pitch: usize,
    radius: usize,
    det_margin: f32,
    max_offset: f32,
    min_abs_det: f32,
    x: f32,
    y: f32,
    wanted: u32,
    place: &mut [f32; 3],
    state: &mut [u32; 3],
    covariance: &mut [f32; 3],
) -> u32
    ensures { Told (refine_of (word_image img.now width height pitch) (settings radius det_margin max_offset min_abs_det) x y (asked wanted)) x y place.old state.old covariance.old result place.new state.new covariance.new }
{
    let view = ImageView {
        data: img,
        width,
        height,
        pitch,
    };
    let cfg = SaddlePointConfig {
        radius,
        det_margin,
        max_offset,
        min_abs_det,
    };
    refine_one(view, cfg, x, y, wanted, place, state, covariance)
}

fn refine_one<S: Sample>(
    view: ImageView<S>,
    cfg: SaddlePointConfig,
    x: f32,
    y: f32,
    wanted: u32,
    place: &mut [f32; 3],
    state: &mut [u32; 3],
    covariance: &mut [f32; 3],
) -> u32
    ensures { Told (refine_of (shown S.levels S.deep view.entry) cfg x y (asked wanted)) x y place.old state.old covariance.old result place.new state.new covariance.new }
{
    let answer = refine_seed::refine(view, cfg, x, y, wanted != 0);
    tell(answer, x, y, place, state, covariance)
}

/// The same with an operator that is lent; with the one of the radius, built by `chess_corners_fit_operator`, the answer is that of `chess_corners_refine`.
pub fn chess_corners_refine_with(
    img: &[u8],
    width: usize,
    height: usize,
    pitch: usize,
    radius: usize,
    det_margin: f32,
    max_offset: f32,
    min_abs_det: f32,
    x: f32,
    y: f32,
    wanted: u32,
    columns: &[f32; 1125],
    overlap: &[f32; 225],
    place: &mut [f32; 3],
    state: &mut [u32; 3],
    covariance: &mut [f32; 3],
) -> u32
    ensures { Told (refine_lent (byte_image img.now width height pitch) (settings radius det_margin max_offset min_abs_det) x y (asked wanted) columns.now overlap.now) x y place.old state.old covariance.old result place.new state.new covariance.new }
{
    let view = ImageView {
        data: img,
        width,
        height,
        pitch,
    };
    let cfg = SaddlePointConfig {
        radius,
        det_margin,
        max_offset,
        min_abs_det,
    };
    refine_lent_one(
        view, cfg, x, y, wanted, columns, overlap, place, state, covariance,
    )
}

/// The same of twelve-bit samples with an operator that is lent; 0 to 7, 10, 26, 11 or 12.
pub fn chess_corners_refine_with_u16(
    img: &[u16],
    width: usize,
    height: usize,
    pitch: usize,
    radius: usize,
    det_margin: f32,
    max_offset: f32,
    min_abs_det: f32,
    x: f32,
    y: f32,
    wanted: u32,
    columns: &[f32; 1125],
    overlap: &[f32; 225],
    place: &mut [f32; 3],
    state: &mut [u32; 3],
    covariance: &mut [f32; 3],
) -> u32
    ensures { Told (refine_lent (word_image img.now width height pitch) (settings radius det_margin max_offset min_abs_det) x y (asked wanted) columns.now overlap.now) x y place.old state.old covariance.old result place.new state.new covariance.new }
{
    let view = ImageView {
        data: img,
        width,
        height,
        pitch,
    };
    let cfg = SaddlePointConfig {
        radius,
        det_margin,
        max_offset,
        min_abs_det,
    };
    refine_lent_one(
        view, cfg, x, y, wanted, columns, overlap, place, state, covariance,
    )
}

fn refine_lent_one<S: Sample>(
    view: ImageView<S>,
    cfg: SaddlePointConfig,
    x: f32,
    y: f32,
    wanted: u32,
    columns: &[f32; 1125],
    overlap: &[f32; 225],
    place: &mut [f32; 3],
    state: &mut [u32; 3],
    covariance: &mut [f32; 3],
) -> u32
    ensures { Told (refine_lent (shown S.levels S.deep view.entry) cfg x y (asked wanted) columns.now overlap.now) x y place.old state.old covariance.old result place.new state.new covariance.new }
{
    let asked = wanted != 0;
    let answer = refine_seed::refine_with(view, cfg, x, y, asked, columns, overlap);
    tell(answer, x, y, place, state, covariance)
}

// The values of a seed's answer: where it stays in place, its own coordinates with the score.
fn tell(
    answer: Result<Estimate, Unrefined>,
    x: f32,
    y: f32,
    place: &mut [f32; 3],
    state: &mut [u32; 3],
    covariance: &mut [f32; 3],
) -> u32
    ensures { Told answer x y place.old state.old covariance.old result place.new state.new covariance.new }
{
    match answer {
        Ok(found) => {
            *place = [found.x, found.y, found.score];
            tell_covariance(found, state, covariance);
            0
        }
        Err(Unrefined::Unmoved(why, score)) => {
            *place = [x, y, score];
            why.into()
        }
        Err(Unrefined::Refused(refusal)) => refusal.into(),
    }
}

// Whether the run converged, its tries, and the covariance where there is one.
fn tell_covariance(found: Estimate, state: &mut [u32; 3], covariance: &mut [f32; 3])
    ensures state_of { state.new ≡ state_of found }
    ensures entries { covariance.new ≡ entries_after covariance.old found.covariance }
{
    let converged = u32::from(found.converged);
    match found.covariance {
        Some(spread) => {
            *covariance = [spread.xx, spread.xy, spread.yy];
            *state = [converged, found.tries, 1];
        }
        None => *state = [converged, found.tries, 0],
    }
}

/// The number that stood for a seed's number while a refused fit had one: 3 for 5, 6 and 7, every other for itself.
pub fn chess_corners_old_number(number: u32) -> u32
    ensures { result ≡ old_number number }
{
    refine_seed::old_number(number)
}

/// Builds the operator of a radius; 0, 3 where there is none (radius 0), or 11.
pub fn chess_corners_fit_operator(
    radius: usize,
    columns: &mut [f32; 1125],
    overlap: &mut [f32; 225],
) -> u32
    ensures { Operating radius columns.old overlap.old result columns.new overlap.new }
{
    match refine_operator::fit_operator(radius, columns, overlap) {
        Ok(()) => 0,
        Err(OperatorError::Singular) => 3,
        Err(OperatorError::Refused(refusal)) => refusal.into(),
    }
}
