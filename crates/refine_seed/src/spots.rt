// Where a seed is refined to and nothing else: no root, no slope and no covariance is worked out, which a list does not ask for.
ghost use Rattle.std.specs.Prelude.{◌≡◌, ◌≤◌};
ghost use Rattle.refine_fits.specs.Fit.{coefficients};
ghost use Rattle.refine_fits.specs.StepsAdding.{PatchWithin};
ghost use Rattle.refine_fits.specs.StepsBases.{coefs_in};
ghost use Rattle.refine_fits.specs.Candidate.{task_at};
ghost use Rattle.refine_seed.specs.Refine.{refine_lent};
ghost use Rattle.refine_seed.specs.Spot.{spot_at};
ghost use Rattle.refine_seed.specs.StepsEnding.{middle_of, moved, open_of, opened_from};
ghost use Rattle.refine_seed.specs.StepsSpot.{Ready, seed_alone, first_for, Fitted, spot_in, Lands};

use super::{Spot, Task};
use crate::entry;
use imageview::{Image, ImageView, Sample};
use refine_fits::{Seed, fits, laid, tries};
use refine_formulas::{PatchSaddle, SaddlePointConfig, solve};
use refine_patch::Columns;

impl Spot {
    // The middle of a seed's centre pixel.
    pub fn middle_of(seed: Seed) -> Spot
        ensures { result ≡ middle_of seed }
    {
        Spot {
            x: f32::from(seed.centre_x),
            y: f32::from(seed.centre_y),
        }
    }

    // So far on.
    pub fn moved(self, x: f32, y: f32) -> Spot
        ensures { result ≡ moved self x y }
    {
        Spot {
            x: self.x + x,
            y: self.y + y,
        }
    }
}

/// Where the patch about a seed begins in the view's samples; 0 for a seed that does not pass its own tests, whose fit is worked out beside others' and not used.
pub fn first_place<S: Sample>(view: ImageView<S>, radius: usize, x: f32, y: f32) -> usize
    requires { (view.width ≤ 4096) × (view.height ≤ 4096) × (view.pitch ≤ 8192) }
    ensures { result ≡ first_for view.entry.pitch radius (seed_alone view.entry.width view.entry.height radius x y) }
{
    let placed = entry::place_seed(view, radius, x, y);
    match placed {
        Ok(seed) => fits::first_place(view, seed.centre_x, seed.centre_y, radius),
        Err(_) => 0,
    }
}

/// The spot of one seed with an operator that is lent and the seed's first fit, which a list works out for four seeds at once: it is read where it stands, since a copy costs 3 to 5 % of a list.
pub fn spot_with<S: Sample>(
    image: &Image<S>,
    columns: &Columns,
    cfg: SaddlePointConfig,
    x: f32,
    y: f32,
    flat: &[f32; 40],
    at: usize,
) -> Option<Spot>
    requires ready { Ready image.now cfg }
    requires radius { columns.now.radius ≡ cfg.radius }
    requires fitted { Fitted image.now columns.now.numbers.now cfg x y (coefs_in flat.now at) }
    requires stands { at ≤ 23 }
    ensures { Lands (λ overlap wanted. refine_lent image.now cfg x y wanted columns.now.numbers.now overlap) result }
{
    let seed = entry::place_seed(image.view(), cfg.radius, x, y).ok()?;
    // at radius 0 there is no operator, whatever is lent
    if cfg.radius == 0 {
        return None;
    }
    spot_of_seed(image, columns, cfg, seed, flat, at)
}

// A seed that passed the tests: the first fit decides acceptance.
#[tactic(auto, unfolding(refine_fits::specs::Candidate::near_seed))]
fn spot_of_seed<S: Sample>(
    image: &Image<S>,
    columns: &Columns,
    cfg: SaddlePointConfig,
    seed: Seed,
    flat: &[f32; 40],
    at: usize,
) -> Option<Spot>
    requires within { PatchWithin image.now columns.now.radius seed.centre_x seed.centre_y }
    requires radius { columns.now.radius ≡ cfg.radius }
    requires fitted { coefs_in flat.now at ≡ coefficients image.now columns.now.numbers.now cfg.radius seed.centre_x seed.centre_y }
    requires stands { at ≤ 23 }
    ensures { result ≡ spot_in (open_of image.now cfg seed columns.now.numbers.now) }
{
    let first = solve::solve(cfg, laid::coefs_at(flat, at)).ok()?;
    if !tries::near_seed(cfg, seed, first.ux, first.uy) {
        return None;
    }
    let task = Task {
        image: &*image,
        columns: &*columns,
        cfg,
        seed,
    };
    Some(task.spot(first))
}

impl<'a, S: Sample> Task<'a, S> {
    // From the first fit's saddle.
    #[tactic(auto, using(crate::proofs::ClosingLaws::spot_there))]
    fn spot(&self, first: PatchSaddle) -> Spot
        ensures { result ≡ spot_at (opened_from (task_at self.now.image.now self.now.columns.now.numbers.now self.now.cfg self.now.seed) self.now.seed first).estimate }
    {
        let middle = Spot::middle_of(self.seed);
        if solve::settled(first) {
            // a window that is moved by nothing
            return middle.moved(0.0, 0.0).moved(first.ux, first.uy);
        }
        let ended = self.run(first);
        match ended.settled {
            Some(w) => middle.moved(w.ox, w.oy).moved(w.fit.ux, w.fit.uy),
            None => middle.moved(first.ux, first.uy),
        }
    }
}
