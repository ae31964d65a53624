// The list itself: the columns of one operator for all seeds.
ghost use Rattle.std.specs.Prelude.{◌≡◌, ◌++◌, ◌+◌, ◌≤◌, length, take, drop};
ghost use Rattle.refine_seed.specs.StepsSpot.{Ready};
ghost use Rattle.refine_list.specs.Refining.{record_of};
ghost use Rattle.refine_list.specs.Steps.{AllWritten, Usable, Building, repeated};

use crate::seeds::Seeds;
use corners::Corner;
use imageview::{Image, Sample};
use refine_formulas::SaddlePointConfig;
use refine_operator::OperatorError;
use refine_patch::Columns;
use refine_seed::Spot;

// How many numbers were written. Without an operator no seed is accepted.
pub fn refine_list<S: Sample>(
    image: &Image<S>,
    cfg: SaddlePointConfig,
    corners: &[f32],
    out: &mut [f32],
) -> usize
    requires room { length corners.now ≤ length out.old }
    requires ready { Ready image.now cfg }
    ensures { AllWritten image.now cfg corners.now out.old result out.new }
{
    let mut numbers = [0.0f32; 1125];
    match build(cfg.radius, &mut numbers) {
        Ok(()) => {
            let columns = Columns {
                numbers: &numbers,
                fourfold: cfg.radius < 3,
                radius: cfg.radius,
            };
            let seeds = Seeds {
                cfg,
                columns,
                corners,
            };
            refine_all(image, &seeds, out)
        }
        Err(_) => 0,
    }
}

// Builds the columns of a radius, below 3 with their numbers repeated.
pub fn build(radius: usize, columns: &mut [f32; 1125]) -> Result<(), OperatorError>
    requires { length columns.old ≡ 1125 }
    ensures { Building radius result columns.new }
{
    let built = refine_operator::fit_columns(radius, columns);
    if radius < 3 {
        repeat(columns);
    }
    built
}

// Each of the first 125 numbers four times more, side by side: such a number needs no copies in a register. Only for lists: one seed would not earn it back.
fn repeat(columns: &mut [f32; 1125])
    requires { length columns.old ≡ 1125 }
    ensures { columns.new ≡ repeated columns.old }
{
    for k in 0..125usize {
        let number = columns[k];
        let i = 624 + 4 * k;
        columns[i..i + 4].fill(number);
    }
}

// All seeds in order.
fn refine_all<S: Sample>(image: &Image<S>, seeds: &Seeds, out: &mut [f32]) -> usize
    requires ready { Ready image.now seeds.now.cfg }
    requires usable { Usable seeds.now.cfg seeds.now.columns.numbers.now }
    requires room { length seeds.now.corners.now ≤ length out.old }
    ensures { AllWritten image.now seeds.now.cfg seeds.now.corners.now out.old result out.new }
{
    let mut held = seeds.no_fits();
    let mut written = 0;
    for i in 0..seeds.corners.len() / 3 {
        let spot = seeds.spot(image, i, &mut held);
        written = put(out, written, spot, seeds.corners[3 * i + 2]);
    }
    written
}

// The record of a seed, after so many numbers.
pub fn put(out: &mut [f32], written: usize, spot: Option<Spot>, strength: f32) -> usize
    requires { written + 3 ≤ length out.old }
    ensures value { result ≡ written + length (record_of spot strength) }
    ensures out_after { out.new ≡ take written out.old ++ (record_of spot strength ++ drop (written + length (record_of spot strength)) out.old) }
{
    match spot {
        Some(at) => {
            let corner = Corner {
                x: at.x,
                y: at.y,
                strength,
            };
            corners::put(&mut out[written..], 0, corner);
            written + 3
        }
        None => written,
    }
}
