// One seed: its tests in their order, the first fit, and what follows from it.
ghost use Rattle.std.specs.Prelude.{◌≡◌, ◌≤◌};
ghost use Rattle.imageview.specs.View.{shown};
ghost use Rattle.imageview.specs.Steps.{IsTested};
ghost use Rattle.refine_fits.specs.Fit.{coefficients};
ghost use Rattle.refine_formulas.specs.Solve.{good_limit};
ghost use Rattle.refine_seed.specs.Refine.{good_limits, is_place, old_number, admit_of, refine_lent, refine_of};
ghost use Rattle.refine_fits.specs.StepsAdding.{PatchWithin};
ghost use Rattle.refine_seed.specs.StepsEnding.{open_of, open_with, ClosesFresh};
ghost use Rattle.refine_seed.specs.StepsSpot.{seed_alone};
ghost use Rattle.refine_operator.specs.Call.{way_of};

use super::{Estimate, Opened, Task, Unrefined, Why};
use crate::closing;
use imageview::{Image, ImageView, Sample};
use refine_fits::{Seed, fits, tries};
use refine_formulas::{SaddlePointConfig, solve};
use refine_patch::Columns;
use refusals::Refusal;

/// `refine` with an operator that is lent, whatever it holds: five columns a sample of the radius' patch, and the nine overlaps of 25. At radius 0 there is none.
pub fn refine_with<S: Sample>(
    view: ImageView<S>,
    cfg: SaddlePointConfig,
    x: f32,
    y: f32,
    wanted: bool,
    columns: &[f32; 1125],
    overlap: &[f32; 225],
) -> Result<Estimate, Unrefined>
    ensures { result ≡ refine_lent (shown S.levels S.deep view.entry) cfg x y wanted columns.now overlap.now }
{
    let image = Image::new(view)?;
    let seed = admit(&image, cfg, x, y)?;
    // at radius 0 there is no operator, whatever is lent
    if cfg.radius == 0 {
        return Err(Unrefined::Unmoved(Why::IllConditioned, 0.0));
    }
    let opened = open_seed(&image, columns, cfg, seed)?;
    Ok(closing::closed(opened, overlap, wanted))
}

/// The refiner of the seed at (x, y), in pixels, after `saddle_point.rs`, with the operator of the settings' radius; the covariance, for unit noise, only where it is wanted.
/// Err by the first test that fails: refused with 10 (no image), 26 (a sample too great), 11 (a radius above 7) or 12 (a setting); or the seed stays where it is,
/// 4, 2 or 3 with the score 0.0, and 5, 6, 7 or 1 with the first fit's determinant.
pub fn refine<S: Sample>(
    view: ImageView<S>,
    cfg: SaddlePointConfig,
    x: f32,
    y: f32,
    wanted: bool,
) -> Result<Estimate, Unrefined>
    ensures { result ≡ refine_of (shown S.levels S.deep view.entry) cfg x y wanted }
{
    let image = Image::new(view)?;
    let seed = admit(&image, cfg, x, y)?;
    let opened = open_fresh(&image, cfg, seed)?;
    close_fresh(opened, cfg, wanted)
}

// A seed that passed the tests, as far as the columns of the settings' radius go; at radius 0 there is no operator. Not inlined, nor is the next one: so columns
// and overlaps never stand in one stack.
#[inline(never)]
fn open_fresh<S: Sample>(
    image: &Image<S>,
    cfg: SaddlePointConfig,
    seed: Seed,
) -> Result<Opened, Unrefined>
    requires { PatchWithin image.now cfg.radius seed.centre_x seed.centre_y }
    ensures { result ≡ open_with image.now cfg seed (way_of cfg.radius) }
{
    let mut columns = [0.0f32; 1125];
    refine_operator::fit_columns(cfg.radius, &mut columns)?;
    open_seed(image, &columns, cfg, seed)
}

// The estimate, with the overlaps of the settings' radius where a covariance is wanted and there is one.
#[inline(never)]
fn close_fresh(opened: Opened, cfg: SaddlePointConfig, wanted: bool) -> Result<Estimate, Unrefined>
    ensures { ClosesFresh cfg wanted opened result }
{
    let mut overlap = [0.0f32; 225];
    // a run that did not converge has no covariance, so no overlap is read
    if wanted & opened.noise.is_some() {
        refine_operator::fit_overlap(cfg.radius, &mut overlap)?;
    }
    Ok(closing::closed(opened, &overlap, wanted))
}

/// The number that stood for this one while a refused fit had one number: 3 for 5, 6 and 7.
pub fn old_number(number: u32) -> u32
    ensures { result ≡ old_number number }
{
    match number {
        5..=7 => 3,
        _ => number,
    }
}

// A setting that is finite and not below zero.
fn good_limit(v: f32) -> bool
    ensures { result ≡ good_limit v }
{
    floats::is_finite_f32(v) & !(v < 0.0)
}

/// The test of the settings: each limit is finite and not below zero.
pub fn good_limits(cfg: SaddlePointConfig) -> bool
    ensures { result ≡ good_limits cfg }
{
    good_limit(cfg.det_margin) & good_limit(cfg.max_offset) & good_limit(cfg.min_abs_det)
}

// Whether both coordinates are finite.
fn is_place(x: f32, y: f32) -> bool
    ensures { result ≡ is_place x y }
{
    floats::is_finite_f32(x) & floats::is_finite_f32(y)
}

// The tests that are left of a tested image: its settings', and then the seed's own.
fn admit<S: Sample>(
    image: &Image<S>,
    cfg: SaddlePointConfig,
    x: f32,
    y: f32,
) -> Result<Seed, Unrefined>
    requires tested { IsTested image.now }
    ensures { result ≡ admit_of image.now cfg x y }
{
    if 7 < cfg.radius {
        return Err(Unrefined::Refused(Refusal::BadRadius));
    }
    if !good_limits(cfg) {
        return Err(Unrefined::Refused(Refusal::BadLimit));
    }
    place_seed(image.view(), cfg.radius, x, y)
}

// The tests of a seed alone, where the image and the settings passed theirs: a list asks those once. They look at the sizes and at no sample.
#[tactic(auto, unfolding(imageview::specs::Patch::supports_patch))]
pub fn place_seed<S: Sample>(
    view: ImageView<S>,
    radius: usize,
    x: f32,
    y: f32,
) -> Result<Seed, Unrefined>
    requires { (view.width ≤ 4096) × (view.height ≤ 4096) }
    ensures { result ≡ seed_alone view.entry.width view.entry.height radius x y }
{
    if !is_place(x, y) {
        return Err(Unrefined::Unmoved(Why::BadSeed, 0.0));
    }
    let cx = floats::round_to_i32(x);
    let cy = floats::round_to_i32(y);
    if !view.supports_patch(cx, cy, radius) {
        return Err(Unrefined::Unmoved(Why::OutOfBounds, 0.0));
    }
    Ok(Seed {
        x,
        y,
        centre_x: cx as u16,
        centre_y: cy as u16,
    })
}

// A seed that passed the tests, with these columns: the first fit decides acceptance.
#[tactic(auto, unfolding(refine_fits::specs::Candidate::near_seed))]
fn open_seed<S: Sample>(
    image: &Image<S>,
    numbers: &[f32; 1125],
    cfg: SaddlePointConfig,
    seed: Seed,
) -> Result<Opened, Unrefined>
    requires { PatchWithin image.now cfg.radius seed.centre_x seed.centre_y }
    ensures { result ≡ open_of image.now cfg seed numbers.now }
{
    // only for a list it pays to have them fourfold
    let columns = Columns {
        numbers,
        fourfold: false,
        radius: cfg.radius,
    };
    let task = Task {
        image: &*image,
        columns: &columns,
        cfg,
        seed,
    };
    let here = task.first_fit();
    let first = solve::solve(cfg, here)?;
    if !tries::near_seed(cfg, seed, first.ux, first.uy) {
        return Err(Unrefined::Unmoved(Why::Rejected, first.det_h));
    }
    if solve::settled(first) {
        return Ok(task.at_centre(here, first));
    }
    Ok(task.stepped(first))
}

impl<'a, S: Sample> Task<'a, S> {
    // The fit about a seed's centre pixel. By itself, so that the stack holds what is handed to it only while it lasts.
    fn first_fit(&self) -> [f32; 5]
        ensures { result ≡ coefficients self.now.image.now self.now.columns.now.numbers.now self.now.columns.now.radius self.now.seed.centre_x self.now.seed.centre_y }
    {
        let x = usize::from(self.seed.centre_x);
        let y = usize::from(self.seed.centre_y);
        fits::fit_patch(self.image, x, y, self.columns)
    }
}
