// Replays the oracle's lists of the refiner's pieces (data/) on the functions that they are of. A line a list.
#![tactic(auto)]

ghost use Rattle.std.specs.Prelude.{◌≡◌};
ghost use Rattle.replay.specs.Spoil.{flipped};

use replay::{Part, Spoilt};
use std::io;

mod fitting;
mod moving;
mod numbers;
mod solving;

// More cases than any list has, so that the loop ends.
const MOST: u32 = 20000;

fn main(rt: HostRuntime) -> io::Result<()> {
    let mut case = [0u8; 25000];
    replay::try_list(&rt, "solve.bin", &mut case, MOST, &mut solving::Solve)?;
    replay::try_list(&rt, "blend.bin", &mut case, MOST, &mut moving::Blend)?;
    replay::try_list(&rt, "newton.bin", &mut case, MOST, &mut moving::Newton)?;
    replay::try_list(
        &rt,
        "sensitivity.bin",
        &mut case,
        MOST,
        &mut moving::Sensitivity,
    )?;
    replay::try_list(&rt, "covariance.bin", &mut case, MOST, &mut fitting::Spread)?;
    replay::try_list(&rt, "fit.bin", &mut case, MOST, &mut fitting::Fit)
}

// Flips a bit of the n judged words of a case, which begin behind what is put in.
fn spoil_from(case: &mut [u8], turn: u32, first: usize, n: usize) -> Spoilt
    ensures { case.new ≡ flipped case.old result.place result.bit }
{
    let place = replay::place(first, replay::pick(turn, n));
    replay::spoil_at(case, turn, n, place, 0)
}
