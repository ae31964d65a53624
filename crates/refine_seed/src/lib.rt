// The saddle-point refiner of one seed, after `saddle_point.rs`.
#![tactic(auto)]

ghost use Rattle.std.specs.Prelude.{◌≡◌};
ghost use Rattle.refine_fits.specs.StepsAdding.{PatchWithin};
ghost use Rattle.refine_seed.specs.Refine.{why_number, unbuilt};
ghost use Rattle.refine_seed.specs.declared.Why.TheVariants.{Flawed};
ghost use Rattle.refine_seed.specs.declared.Unrefined.TheVariants.{Unmoved, Refused};

use imageview::{Image, Sample};
use refine_fits::{Bases, IntegerFits, Seed};
use refine_formulas::{
    Corners, Covariance, Flaw, Matrix, PatchSaddle, SaddlePointConfig, Unsolved,
};
use refine_operator::OperatorError;
use refine_patch::Columns;
use refusals::Refusal;

mod closing;
mod entry;
mod spots;
mod steps;

pub use entry::{good_limits, old_number, refine, refine_with};
pub use spots::{first_place, spot_with};

// A seed whose patch lies in its image, with the settings and an operator's columns for their radius: all that stays the same over its run.
#[derive(Drop)]
struct Task<'a, S: Sample> {
    image: &'a Image<'a, S>,
    columns: &'a Columns<'a>,
    cfg: SaddlePointConfig,
    seed: Seed,
    ghost radius: { columns.now.radius ≡ cfg.radius },
    ghost within: { PatchWithin image.now columns.now.radius seed.centre_x seed.centre_y },
}

// Where the steps ended: after how many tries, and in which window they settled, if they did.
#[derive(Clone, Copy, Debug, PartialEq)]
struct Ended {
    tries: u32,
    settled: Option<Taken>,
}

// A candidate window that was taken: its offset from the centre pixel and how far on it lies between pixels, the saddle there and the four fits about it.
#[derive(Clone, Copy, Debug, PartialEq)]
struct Taken {
    ox: f32,
    oy: f32,
    tx: f32,
    ty: f32,
    fit: PatchSaddle,
    corners: Corners,
}

// The fits that a run has worked out: the nine that it keeps, and those about two bases in a flat array.
#[derive(Drop)]
struct Nearby {
    kept: IntegerFits,
    bases: Bases,
    flat: [f32; 40],
}

// How far a seed comes without the operator's overlaps: its estimate with no covariance yet, and what one asks where the run converged.
#[derive(Clone, Copy, Debug, PartialEq)]
struct Opened {
    estimate: Estimate,
    noise: Option<Noise>,
}

// What a covariance asks beside the overlaps: how far on the window lies, the saddle there, and how it moves with the window.
#[derive(Clone, Copy, Debug, PartialEq)]
struct Noise {
    tx: f32,
    ty: f32,
    fit: PatchSaddle,
    moves: Matrix,
}

/// An accepted seed: where it was refined to, in pixels, the root of minus the determinant, whether the run converged, its tries, and the covariance if it was wanted.
#[derive(Clone, Copy, Debug, PartialEq)]
pub struct Estimate {
    pub x: f32,
    pub y: f32,
    pub score: f32,
    pub converged: bool,
    pub tries: u32,
    pub covariance: Option<Covariance>,
}

/// A place in pixels.
#[derive(Clone, Copy, Debug, PartialEq)]
pub struct Spot {
    pub x: f32,
    pub y: f32,
}

/// Why a seed stays where it is, by the Rust's names; that a coordinate is no finite number, and why a fit is refused, are ours. IllConditioned: there is no operator.
#[derive(Clone, Copy, Debug, PartialEq, Eq)]
pub enum Why {
    Rejected,
    OutOfBounds,
    IllConditioned,
    BadSeed,
    Flawed(Flaw),
}

/// The numbers of the reasons.
impl From<Why> for u32 {
    ghost from_gives = { λ why n. n ≡ why_number why };

    fn from(why: Why) -> u32 {
        match why {
            Why::Rejected => 1,
            Why::OutOfBounds => 2,
            Why::IllConditioned => 3,
            Why::BadSeed => 4,
            Why::Flawed(Flaw::AboveMargin) => 5,
            Why::Flawed(Flaw::TooSmall) => 6,
            Why::Flawed(Flaw::NotFinite) => 7,
        }
    }
}

/// Why there is no estimate: the seed stays where it is, with a score beside the reason, which is the determinant of the first fit where there was one; or the call is refused.
#[derive(Clone, Copy, Debug, PartialEq)]
pub enum Unrefined {
    Unmoved(Why, f32),
    Refused(Refusal),
}

impl From<Refusal> for Unrefined {
    ghost from_gives = { λ refusal e. e ≡ Refused refusal };

    fn from(refusal: Refusal) -> Unrefined {
        Unrefined::Refused(refusal)
    }
}

// A fit that is refused leaves the seed where it is, with the determinant for a score.
impl From<Unsolved> for Unrefined {
    ghost from_gives = { λ u e. e ≡ Unmoved (Flawed u.flaw) u.det_h };

    fn from(unsolved: Unsolved) -> Unrefined {
        Unrefined::Unmoved(Why::Flawed(unsolved.flaw), unsolved.det_h)
    }
}

// Where there is no operator the seed stays where it is, with the score 0.0.
impl From<OperatorError> for Unrefined {
    ghost from_gives = { λ error e. e ≡ unbuilt error };

    fn from(error: OperatorError) -> Unrefined {
        match error {
            OperatorError::Singular => Unrefined::Unmoved(Why::IllConditioned, 0.0),
            OperatorError::Refused(refusal) => refusal.into(),
        }
    }
}
