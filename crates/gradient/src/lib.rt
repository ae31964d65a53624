// How each sample of a tile moves the ChESS response at one of its cells, after `ResponseStencil::add_gradient` of `response.rs`.
#![tactic(auto)]

mod additions;
mod signs;
mod stencil;
mod tests;

ghost use Rattle.gradient.specs.Call.{asked_of, Done};

use refusals::Refusal;

// The two numbers by which a gradient is scaled.
#[derive(Clone, Copy, Debug, PartialEq)]
pub struct Scale {
    pub x: f32,
    pub y: f32,
}

// Adds `scale` times the gradient of the response at the cell (x, y) of the tile, side times side bytes, to the lent grid, which has two numbers a cell.
// The ring is sixteen pairs (dx, dy).
pub fn add_gradient(
    tile: &[u8],
    side: usize,
    ring: &[i32; 32],
    x: usize,
    y: usize,
    scale: Scale,
    grid: &mut [f32],
) -> Result<(), Refusal>
    ensures { Done (asked_of tile.now side ring.now x y scale) grid.old result grid.new }
{
    if !tests::is_square(tile.len(), side) {
        return Err(Refusal::BadImage);
    }
    let Some(cells) = stencil::cells_of(ring, side, x, y) else {
        return Err(Refusal::BadRing);
    };
    if !tests::is_double(grid.len(), tile.len()) {
        return Err(Refusal::BadOut);
    }
    additions::add_all(tile, &cells, scale, grid);
    Ok(())
}
