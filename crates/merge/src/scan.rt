// The plain scan: every kept corner is looked at, from the first on.
ghost use Rattle.std.specs.Prelude.{◌≡◌, ◌+◌, ◌*◌, ◌<◌, ◌≤◌, length};
ghost use Rattle.corners.specs.Corners.{corners_of};
ghost use Rattle.merge.specs.Meets.{plain_meets};
ghost use Rattle.merge.specs.Fold.{merged};
ghost use Rattle.merge.specs.Steps.{lowest_below, within, Stepped, Passed, Packed};

use crate::{Disc, list};

pub fn merge(corners: &mut [f32], r2: f32) -> usize
    ensures { Packed corners.old (merged (plain_meets r2) (corners_of corners.old)) result corners.new }
{
    let count = pass(corners, r2);
    list::zero_from(corners, 3 * count);
    count
}

fn pass(corners: &mut [f32], r2: f32) -> usize
    ensures { Passed (plain_meets r2) corners.old result corners.new }
{
    let mut count = 0;
    for i in 0..corners.len() / 3 {
        count = step(corners, i, count, r2);
    }
    count
}

// Corner i, after those before it came down to `count`.
fn step(corners: &mut [f32], i: usize, count: usize, r2: f32) -> usize
    requires ordered { count ≤ i }
    requires in_list { 3 * i + 2 < length corners.old }
    ensures { Stepped (plain_meets r2) i count (corners_of corners.old) (corners_of corners.new) result }
{
    let new = list::corner(corners, i);
    let met = first_near(
        corners,
        count,
        Disc {
            x: new.x,
            y: new.y,
            r2,
        },
    );
    if met < count {
        if corners[3 * met + 2] < new.strength {
            corners::put(corners, met, new);
        }
        return count;
    }
    corners::put(corners, count, new);
    count + 1
}

// The first of the kept corners in the disc, or their count.
#[tactic(auto, using(crate::proofs::LowestLaws::none_found))]
fn first_near(corners: &[f32], count: usize, disc: Disc) -> usize
    requires { 3 * count ≤ length corners.now }
    ensures { result ≡ lowest_below (within disc corners.now) count count }
{
    for j in 0..count {
        if list::near(corners, j, disc) {
            return j;
        }
    }
    count
}
