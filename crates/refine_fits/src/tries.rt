// One candidate window: its fit, and whether it is taken.
ghost use Rattle.std.specs.Prelude.{◌≡◌, ◌&&◌, ◌≤◌, pos, None, IfSome};
ghost use Rattle.refine_fits.specs.Candidate.{half_side, near_along};
ghost use Rattle.refine_fits.specs.StepsTries.{Weighs, Passes};

use super::Seed;
use refine_formulas::{Corners, PatchSaddle, SaddlePointConfig, between, solve};

// Half the side of the box about the seed. Stays an `if`: of two equal numbers `f32::min` answers either, and the definition the second.
fn half_side(cfg: SaddlePointConfig) -> f32
    requires { cfg.radius ≤ 7 }
    ensures { result ≡ half_side cfg }
{
    let edge = cfg.radius as u16 as f32 + 0.5;
    if cfg.max_offset < edge {
        cfg.max_offset
    } else {
        edge
    }
}

// Whether a place, from the centre pixel, lies in the box about the seed along one axis.
fn near_along(cfg: SaddlePointConfig, centre: u16, est: f32, seed: f32) -> bool
    requires { cfg.radius ≤ 7 }
    ensures { result ≡ near_along cfg (pos centre) est seed }
{
    let away = floats::magnitude_f32(centre as f32 + est - seed);
    away <= half_side(cfg)
}

pub fn near_seed(cfg: SaddlePointConfig, seed: Seed, x: f32, y: f32) -> bool
    requires { cfg.radius ≤ 7 }
    ensures { result ≡ (near_along cfg (pos seed.centre_x) x seed.x && near_along cfg (pos seed.centre_y) y seed.y) }
{
    near_along(cfg, seed.centre_x, x, seed.x) & near_along(cfg, seed.centre_y, y, seed.y)
}

// A candidate window at an offset from the centre, with the four fits about it where there is room for them: its saddle, where it is taken in place of the saddle f. Without
// room it is passed. Put into its caller, which is made for each width of samples: a call copies the fits.
#[inline(always)]
pub fn candidate(
    cfg: SaddlePointConfig,
    seed: Seed,
    f: PatchSaddle,
    ox: f32,
    oy: f32,
    corners: Option<Corners>,
    tx: f32,
    ty: f32,
) -> Option<PatchSaddle>
    requires { cfg.radius ≤ 7 }
    ensures weighs { IfSome corners (λ c. Weighs cfg seed f ox oy c tx ty result) }
    ensures passes { corners ≡ None → Passes cfg seed f ox oy tx ty result }
{
    let corners = corners?;
    let g = solve::solve(cfg, between::blend(corners, tx, ty)).ok()?;
    if solve::norm2(g) < solve::norm2(f) {
        if near_seed(cfg, seed, ox + g.ux, oy + g.uy) {
            return Some(g);
        }
    }
    None
}
