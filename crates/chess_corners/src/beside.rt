// What stands beside the corners: damaged files, coverage, and how samples move the response.
ghost use Rattle.coverage.specs.Call.{fresh_way, add_way, replace_way, drop_way};
ghost use Rattle.gradient.specs.Call.{asked_of};
ghost use Rattle.chess_corners.specs.Face.{Salvaging, Covering, Grading};

use crate::told;
use corners::Corner;
use gradient::Scale;

/// The records of a corner file that can be used, as they are, and the fault of each other one; 0, 10, 16 or 15.
pub fn chess_corners_salvage(
    file: &[u8],
    width: usize,
    height: usize,
    out: &mut [u8],
    faults: &mut [u16],
    kept: &mut usize,
    dropped: &mut usize,
) -> u32
    ensures { Salvaging width height file.now out.old faults.old kept.old dropped.old result out.new faults.new kept.new dropped.new }
{
    match salvage::salvage_corners(file, width, height, out, faults) {
        Ok(saved) => {
            *kept = saved.kept;
            *dropped = saved.dropped;
            0
        }
        Err(refusal) => refusal.into(),
    }
}

/// How many of the first `count` corners lie in each tile, afresh; 0, 10 or 16.
pub fn chess_corners_coverage(
    width: usize,
    height: usize,
    list: &[f32; 12288],
    count: usize,
    counts: &mut [u16; 65],
) -> u32
    ensures { Covering (fresh_way width height list.now count) list.now counts.old count result list.now counts.new count }
{
    told::tell(coverage::coverage_afresh(width, height, list, count, counts).map(|_| ()))
}

/// One corner more, at the end of the list; 0, 10 or 16.
pub fn chess_corners_coverage_add(
    width: usize,
    height: usize,
    list: &mut [f32; 12288],
    count: &mut usize,
    counts: &mut [u16; 65],
    x: f32,
    y: f32,
    strength: f32,
) -> u32
    ensures { Covering (add_way width height list.old count.old counts.old x y strength) list.old counts.old count.old result list.new counts.new count.new }
{
    let corner = Corner { x, y, strength };
    let answer = coverage::add_corner(width, height, list, *count, counts, corner);
    told::tell_count(answer, count)
}

/// The corner of this number is another one from now on; 0, 10, 16 or 35.
pub fn chess_corners_coverage_replace(
    width: usize,
    height: usize,
    list: &mut [f32; 12288],
    count: usize,
    counts: &mut [u16; 65],
    number: usize,
    x: f32,
    y: f32,
    strength: f32,
) -> u32
    ensures { Covering (replace_way width height list.old count counts.old number x y strength) list.old counts.old count result list.new counts.new count }
{
    let other = Corner { x, y, strength };
    let answer = coverage::replace_corner(width, height, list, count, counts, number, other);
    told::tell(answer.map(|_| ()))
}

/// The corner of this number is left out; the later ones move down by one; 0, 10, 16 or 35.
pub fn chess_corners_coverage_drop(
    width: usize,
    height: usize,
    list: &mut [f32; 12288],
    count: &mut usize,
    counts: &mut [u16; 65],
    number: usize,
) -> u32
    ensures { Covering (drop_way width height list.old count.old counts.old number) list.old counts.old count.old result list.new counts.new count.new }
{
    let answer = coverage::drop_corner(width, height, list, *count, counts, number);
    told::tell_count(answer, count)
}

/// Adds two scales times the gradient of the response at the cell (x, y) of the tile to the grid; 0, 10, 13 or 15.
pub fn chess_corners_gradient(
    tile: &[u8],
    side: usize,
    ring: &[i32; 32],
    x: usize,
    y: usize,
    scale_x: f32,
    scale_y: f32,
    grid: &mut [f32],
) -> u32
    ensures { Grading (asked_of tile.now side ring.now x y (record { x = scale_x; y = scale_y })) grid.old result grid.new }
{
    let scale = Scale {
        x: scale_x,
        y: scale_y,
    };
    let answer = gradient::add_gradient(tile, side, ring, x, y, scale, grid);
    told::tell(answer)
}
