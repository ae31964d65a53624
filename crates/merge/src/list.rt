// The flat list: a corner of it, whether one lies in a disc, and its freed tail.
ghost use Rattle.std.specs.Prelude.{◌≡◌, ◌++◌, ◌+◌, ◌-◌, ◌*◌, ◌<◌, ◌≤◌, length, take, replicate};
ghost use Rattle.shapes.specs.Numbers.{plus_zero};
ghost use Rattle.corners.specs.Corners.{corners_of, corner_at};
ghost use Rattle.merge.specs.Steps.{within};

use crate::Disc;
use corners::Corner;

// Corner j.
pub fn corner(corners: &[f32], j: usize) -> Corner
    requires { 3 * j + 2 < length corners.now }
    ensures { result ≡ corner_at (corners_of corners.now) j }
{
    Corner {
        x: corners[3 * j],
        y: corners[3 * j + 1],
        strength: corners[3 * j + 2],
    }
}

// Whether corner j lies in the disc.
pub fn near(corners: &[f32], j: usize, disc: Disc) -> bool
    requires { 3 * j + 2 < length corners.now }
    ensures { result ≡ within disc corners.now j }
{
    corners::squared_distance(disc.x, disc.y, corners[3 * j], corners[3 * j + 1]) <= disc.r2
}

// Fills the list with +0.0 from an index on.
pub fn zero_from(corners: &mut [f32], from: usize)
    requires { from ≤ length corners.old }
    ensures { corners.new ≡ take from corners.old ++ replicate (length corners.old - from) plus_zero }
{
    corners[from..].fill(0.0);
}
