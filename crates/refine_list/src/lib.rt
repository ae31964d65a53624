// Refining a list of corners on an image, after `detect.rs`. Peaks are in the crate `peaks`.
#![tactic(auto)]

pub mod list;
pub mod seeds;

ghost use Rattle.std.specs.Prelude.{◌≡◌};
ghost use Rattle.imageview.specs.View.{shown};
ghost use Rattle.refine_list.specs.Refining.{Done};

use imageview::{Image, ImageView, Sample};
use refine_formulas::SaddlePointConfig;
use refusals::Refusal;

// Refines the corners, x, y and strength of each, and writes those that are accepted, in input order with their own strength.
#[tactic(auto, unfolding(crate::specs::Refining::way_of))]
pub fn refine_corners_on_image<S: Sample>(
    view: ImageView<S>,
    cfg: SaddlePointConfig,
    corners: &[f32],
    out: &mut [f32],
) -> Result<usize, Refusal>
    ensures { Done (shown S.levels S.deep view.entry) cfg corners.now out.old result out.new }
{
    let image = Image::new(view)?;
    if 7 < cfg.radius {
        return Err(Refusal::BadRadius);
    }
    if !refine_seed::good_limits(cfg) {
        return Err(Refusal::BadLimit);
    }
    let len = corners.len();
    if !corners::is_whole(len) {
        return Err(Refusal::BadLength);
    }
    if corners::too_many(len) {
        return Err(Refusal::TooMany);
    }
    if out.len() < len {
        return Err(Refusal::BadOut);
    }
    Ok(list::refine_list(&image, cfg, corners, out) / 3)
}
