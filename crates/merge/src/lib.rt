// Merging of corners that lie within a radius of each other, after `merge.rs`: on a grid of cells, or by a plain scan where the box is not finite.
// Corners are x, y, strength triples in one list, which is flat, and heads and links are two slices, since C lends them so (chess_corners_merge).
// Kept corners move to the front of the list: there are never more of them than corners read.
#![tactic(auto)]

mod bounds;
mod chain;
mod grid;
mod list;
mod scan;
mod seek;

ghost use Rattle.std.specs.Prelude.{◌≡◌, length};
ghost use Rattle.corners.specs.Corners.{corners_of};
ghost use Rattle.merge.specs.Call.{Done, idle, merging_way, grid_heads, heads_of};
ghost use Rattle.merge.specs.Steps.{Few, Left};

use refusals::Refusal;

// The least and the greatest coordinates.
#[derive(Clone, Copy)]
struct Extent {
    left: f32,
    top: f32,
    right: f32,
    bottom: f32,
}

// The cells of the grid: where they begin, one over their side, and how many there are.
#[derive(Clone, Copy)]
struct Cells {
    left: f32,
    top: f32,
    inv: f32,
    across: usize,
    down: usize,
}

// The chains of the kept corners, one a cell, each from the highest number down, in what is lent for them.
#[derive(Drop)]
struct Chains<'a> {
    heads: &'a mut [u16],
    links: &'a mut [u16],
}

// All points within the root of r2 of (x, y).
#[derive(Clone, Copy)]
struct Disc {
    x: f32,
    y: f32,
    r2: f32,
}

// Merges the corners in place, and answers how many are kept. At most 4,096 of them, so that each number fits a link. heads and links hold the grid's chains meanwhile.
#[tactic(auto, unfolding(crate::specs::Call::way_of))]
pub fn merge_corners_simple(
    corners: &mut [f32],
    radius: f32,
    heads: &mut [u16],
    links: &mut [u16],
) -> Result<usize, Refusal>
    ensures { Done corners.old radius heads.old links.old result corners.new heads.new links.new }
{
    let len = corners.len();
    if !corners::is_whole(len) {
        return Err(Refusal::BadLength);
    }
    if corners::too_many(len) {
        return Err(Refusal::TooMany);
    }
    let n = len / 3;
    if links.len() < n {
        return Err(Refusal::BadScratch);
    }
    if (len == 0) | is_idle(radius) {
        return Ok(n);
    }
    merge_within(corners, radius, heads, links)
}

// How many heads a merge of these corners at this radius wants: with fewer it is refused with 17, with as many or more it is not.
#[tactic(auto, unfolding(crate::specs::Call::heads_of))]
pub fn heads_wanted(corners: &[f32], radius: f32) -> Result<usize, Refusal>
    ensures { result ≡ heads_of corners.now radius }
{
    let len = corners.len();
    if !corners::is_whole(len) {
        return Err(Refusal::BadLength);
    }
    if corners::too_many(len) {
        return Err(Refusal::TooMany);
    }
    if (len == 0) | is_idle(radius) {
        return Ok(0);
    }
    grid_heads(corners, radius)
}

// Whether the radius merges nothing.
fn is_idle(radius: f32) -> bool
    ensures { result ≡ idle radius }
{
    !floats::is_finite_f32(radius) | (radius <= 0.0)
}

// The cells of the grid, counted.
#[tactic(auto, using(crate::proofs::CallLaws::heads_plain, crate::proofs::CallLaws::heads_big, crate::proofs::CallLaws::heads_grid))]
fn grid_heads(corners: &[f32], radius: f32) -> Result<usize, Refusal>
    ensures { result ≡ grid_heads (corners_of corners.now) radius }
{
    let extent = Extent::of(corners);
    if !extent.is_finite() {
        return Ok(0);
    }
    let cells = Cells::over(extent, radius, usize::MAX)?;
    Ok(cells.across * cells.down)
}

// The merge itself: few enough corners, and a radius that merges.
#[tactic(auto, using(crate::proofs::CallLaws::way_plain, crate::proofs::CallLaws::way_big, crate::proofs::CallLaws::way_grid, crate::proofs::CallLaws::left_by, crate::proofs::CallLaws::left_plain, crate::proofs::CallLaws::left_grid))]
fn merge_within(
    corners: &mut [f32],
    radius: f32,
    heads: &mut [u16],
    links: &mut [u16],
) -> Result<usize, Refusal>
    requires { Few corners.old links.old }
    ensures { Left (merging_way (corners_of corners.old) radius (length heads.old)) corners.old heads.old links.old result corners.new heads.new links.new }
{
    let extent = Extent::of(corners);
    let r2 = radius * radius;
    if !extent.is_finite() {
        return Ok(scan::merge(corners, r2));
    }
    let cells = Cells::over(extent, radius, heads.len())?;
    Ok(grid::merge(corners, r2, cells, heads, links))
}
