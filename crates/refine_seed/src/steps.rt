// The steps toward the window at whose middle the saddle lies.
ghost use Rattle.std.specs.Prelude.{◌≡◌, false};
ghost use Rattle.refine_formulas.specs.Sensitivity as Sensitivity;
ghost use Rattle.refine_formulas.specs.Solve as Solve;
ghost use Rattle.refine_fits.specs.StepsCache.{Fresh};
ghost use Rattle.refine_fits.specs.Candidate.{task_at, candidate};
ghost use Rattle.refine_seed.specs.Run.{run_of};
ghost use Rattle.refine_seed.specs.StepsEnding.{Holds, HoldsNone, ended_of, taken_of, moves_of, next_move};

use super::{Ended, Nearby, Taken, Task};
use imageview::Sample;
use refine_fits::{Bases, IntegerFits, laid, place, tries};
use refine_formulas::{Matrix, Move, PatchSaddle, Slope, between, sensitivity, solve};

impl<'a, S: Sample> Task<'a, S> {
    // From the first fit's saddle, which is not settled: at most 16 steps, each of at most four candidates, one half as far on as the one before it.
    pub fn run(&self, first: PatchSaddle) -> Ended
        requires unsettled { Solve.settled first ≡ false }
        ensures { result ≡ ended_of (run_of (task_at self.now.image.now self.now.columns.now.numbers.now self.now.cfg self.now.seed) first) }
    {
        let mut nearby = Nearby::new();
        let mut fit = first;
        let mut ox = 0.0f32;
        let mut oy = 0.0f32;
        let mut by = Move {
            x: first.ux,
            y: first.uy,
        };
        let mut tries = 0u32;
        'steps: for step in 0..16usize {
            let mut scale = 1.0f32;
            for half in 0..4usize {
                tries += 1;
                let nx = ox + scale * by.x;
                let ny = oy + scale * by.y;
                let Some(taken) = nearby.candidate(self, fit, nx, ny) else {
                    scale *= 0.5;
                    continue;
                };
                if solve::settled(taken.fit) {
                    return Ended {
                        tries,
                        settled: Some(taken),
                    };
                }
                fit = taken.fit;
                ox = taken.ox;
                oy = taken.oy;
                by = taken.next_move();
                continue 'steps;
            }
            break;
        }
        Ended {
            tries,
            settled: None,
        }
    }
}

impl Nearby {
    // With no fit in it.
    fn new() -> Nearby
        ensures { HoldsNone result }
    {
        Nearby {
            kept: no_fits(),
            bases: Bases::new(),
            flat: [0.0; 40],
        }
    }

    // The candidate window at (ox, oy), where it is taken in place of that of the saddle `fit`.
    fn candidate<'a, S: Sample>(
        &mut self,
        task: &Task<'a, S>,
        fit: PatchSaddle,
        ox: f32,
        oy: f32,
    ) -> Option<Taken>
        requires holds { Holds task.now.image.now task.now.columns.now.numbers.now task.now.columns.now.radius self.old }
        ensures holds { Holds task.now.image.now task.now.columns.now.numbers.now task.now.columns.now.radius self.new }
        ensures taken { result ≡ taken_of (candidate (task_at task.now.image.now task.now.columns.now.numbers.now task.now.cfg task.now.seed) fit ox oy) }
    {
        let seed = task.seed;
        let w = place::window_at(seed.centre_x, seed.centre_y, ox, oy);
        let to = self.bases.ready_with(
            &mut self.kept,
            task.image,
            w.base,
            task.columns,
            &mut self.flat,
        )?;
        let corners = laid::corners_at(&self.flat, to);
        let fit = tries::candidate(task.cfg, seed, fit, ox, oy, Some(corners), w.tx, w.ty)?;
        Some(Taken {
            ox,
            oy,
            tx: w.tx,
            ty: w.ty,
            fit,
            corners,
        })
    }
}

impl Taken {
    // How the saddle moves with the window.
    pub fn moves(&self) -> Matrix
        ensures { result ≡ moves_of self.now.fit (Sensitivity.slope_within self.now.corners self.now.tx self.now.ty) }
    {
        moves_of(
            self.fit,
            between::slope_within(self.corners, self.tx, self.ty),
        )
    }

    // The step from this window, which that decides.
    fn next_move(&self) -> Move
        ensures { result ≡ next_move self.now }
    {
        sensitivity::newton_step(self.moves(), self.fit)
    }
}

// How a saddle moves with a window whose fits have this slope.
pub fn moves_of(fit: PatchSaddle, slope: Slope) -> Matrix
    ensures { result ≡ moves_of fit slope }
{
    sensitivity::sensitivity(sensitivity::saddle_jacobian(fit), slope)
}

// A cache with no fit in it.
fn no_fits() -> IntegerFits
    ensures { Fresh result }
{
    IntegerFits {
        centres: [0; 18],
        coefs: [0.0; 45],
        len: 0,
    }
}
