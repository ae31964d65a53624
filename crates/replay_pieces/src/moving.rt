// How a window's fit changes with it: the blend of four fits and its slope, the saddle's sensitivity, the step.
use crate::numbers;
use refine_formulas::{Corners, Jacobian, Matrix, Move, PatchSaddle, Slope, between, sensitivity};
use replay::{Aim, Part, Spoilt, Trial};

// Four fits and the fractions; the blend and the two slopes.
#[derive(Clone, Copy)]
pub struct Blend;

impl Trial for Blend {
    fn spoil(&self, case: &mut [u8], turn: u32) -> Spoilt {
        crate::spoil_from(case, turn, 88, 15)
    }

    fn holds(&mut self, case: &[u8], _aim: Option<Aim>) -> bool {
        let stored = Part::of(case);
        let corners = Corners {
            c00: numbers::five(stored),
            c10: numbers::five(stored.behind(5)),
            c01: numbers::five(stored.behind(10)),
            c11: numbers::five(stored.behind(15)),
        };
        let tx = stored.float(20);
        let ty = stored.float(21);
        let slope = between::slope_within(corners, tx, ty);
        numbers::are(stored.behind(22), &between::blend(corners, tx, ty))
            && numbers::are(stored.behind(27), &slope.x)
            && numbers::are(stored.behind(32), &slope.y)
    }
}

// M and u; whether there is a Newton step, and the step. Without one ours is the plain step.
#[derive(Clone, Copy)]
pub struct Newton;

impl Trial for Newton {
    // The flag and the step.
    fn spoil(&self, case: &mut [u8], turn: u32) -> Spoilt {
        crate::spoil_from(case, turn, 24, 3)
    }

    fn holds(&mut self, case: &[u8], _aim: Option<Aim>) -> bool {
        let stored = Part::of(case);
        let saddle = PatchSaddle {
            ux: stored.float(4),
            uy: stored.float(5),
            a: 0.0,
            b: 0.0,
            c: 0.0,
            det_h: 0.0,
        };
        let step = sensitivity::newton_step(matrix(stored), saddle);
        if stored.word(6) == 1 {
            return is_move(stored.behind(7), step);
        }
        is_move(stored.behind(4), step) && stored.is_zero(6, 9)
    }
}

fn is_move(stored: Part, step: Move) -> bool {
    stored.is_float(0, step.x) && stored.is_float(1, step.y)
}

pub fn matrix(stored: Part) -> Matrix {
    Matrix {
        m00: stored.float(0),
        m01: stored.float(1),
        m10: stored.float(2),
        m11: stored.float(3),
    }
}

// A saddle and the slopes; J and M.
#[derive(Clone, Copy)]
pub struct Sensitivity;

impl Trial for Sensitivity {
    fn spoil(&self, case: &mut [u8], turn: u32) -> Spoilt {
        crate::spoil_from(case, turn, 64, 14)
    }

    fn holds(&mut self, case: &[u8], _aim: Option<Aim>) -> bool {
        let stored = Part::of(case);
        let x = numbers::five(stored.behind(6));
        let y = numbers::five(stored.behind(11));
        let jacobian = sensitivity::saddle_jacobian(saddle(stored));
        is_jacobian(stored.behind(16), jacobian)
            && is_matrix(
                stored.behind(26),
                sensitivity::sensitivity(jacobian, Slope { x, y }),
            )
    }
}

fn saddle(stored: Part) -> PatchSaddle {
    PatchSaddle {
        ux: stored.float(0),
        uy: stored.float(1),
        a: stored.float(2),
        b: stored.float(3),
        c: stored.float(4),
        det_h: stored.float(5),
    }
}

fn is_jacobian(stored: Part, jacobian: Jacobian) -> bool {
    numbers::are(stored, &jacobian.first) && numbers::are(stored.behind(5), &jacobian.second)
}

fn is_matrix(stored: Part, m: Matrix) -> bool {
    stored.is_float(0, m.m00)
        && stored.is_float(1, m.m01)
        && stored.is_float(2, m.m10)
        && stored.is_float(3, m.m11)
}
