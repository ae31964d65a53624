// Solving a fit: five coefficients, the margin and the least determinant; the outcome, u, the determinant and the score.
use crate::numbers;
use refine_formulas::{Flaw, PatchSaddle, SaddlePointConfig, Unsolved, solve};
use replay::{Aim, Part, Spoilt, Trial};

#[derive(Clone, Copy)]
pub struct Solve;

impl Trial for Solve {
    fn spoil(&self, case: &mut [u8], turn: u32) -> Spoilt {
        crate::spoil_from(case, turn, 28, 5)
    }

    fn holds(&mut self, case: &[u8], _aim: Option<Aim>) -> bool {
        let stored = Part::of(case);
        let limits = SaddlePointConfig {
            radius: 0,
            det_margin: stored.float(5),
            max_offset: 0.0,
            min_abs_det: stored.float(6),
        };
        match solve::solve(limits, numbers::five(stored)) {
            Ok(saddle) => is_solved(stored, saddle),
            Err(unsolved) => is_unsolved(stored, unsolved),
        }
    }
}

fn is_solved(stored: Part, saddle: PatchSaddle) -> bool {
    stored.word(7) == 0
        && stored.is_float(8, saddle.ux)
        && stored.is_float(9, saddle.uy)
        && stored.is_float(10, saddle.det_h)
        && stored.is_float(11, floats::sqrt_f32(-saddle.det_h))
        && stored.is_float(0, saddle.a)
        && stored.is_float(1, saddle.b)
        && stored.is_float(2, saddle.c)
}

// The outcome names the test that refused it.
fn is_unsolved(stored: Part, unsolved: Unsolved) -> bool {
    let outcome = match unsolved.flaw {
        Flaw::AboveMargin => 5,
        Flaw::TooSmall => 6,
        Flaw::NotFinite => 7,
    };
    stored.word(7) == outcome
        && stored.is_float(10, unsolved.det_h)
        && stored.is_zero(8, 10)
        && stored.word(11) == 0
}
