// What is added to the grid, one place after another: two of them may be the same cell.
ghost use Rattle.std.specs.Prelude.{◌≡◌, ◌+◌, ◌*◌, ◌<◌, pos, negsuc, ◌≤ℤ◌, length};
ghost use Rattle.shapes.specs.Turns.{turns};
ghost use Rattle.pixel_response.specs.Steps.{listed};
ghost use Rattle.gradient.specs.Call.{added_at};
ghost use Rattle.gradient.specs.Steps.{Sampled, Within, Grid, ring_step, cross_step, all_added};

use crate::{Scale, signs};

// The ring's places in their order, and where the means are not equal the cross's.
pub fn add_all(tile: &[u8], cells: &[usize; 21], scale: Scale, grid: &mut [f32])
    requires on_tile { Within cells.now (length tile.now) }
    requires in_grid { Grid cells.now (length grid.old) }
    ensures { grid.new ≡ all_added tile.now (listed cells.now) scale grid.old }
{
    let samples = samples_of(tile, cells);
    let mean = signs::mean_sign(&samples);
    add_ring(&samples, mean, cells, scale, grid);
    if mean != 0 {
        add_cross(mean, cells, scale, grid);
    }
}

fn samples_of(tile: &[u8], cells: &[usize; 21]) -> [u8; 21]
    requires { Within cells.now (length tile.now) }
    ensures { Sampled tile.now cells.now result }
{
    let mut samples = [0u8; 21];
    for k in 0..21 {
        samples[k] = tile[cells[k]];
    }
    samples
}

#[tactic(auto, unfolding(shapes::specs::Turns::turns))]
fn add_ring(samples: &[u8; 21], mean: i32, cells: &[usize; 21], scale: Scale, grid: &mut [f32])
    requires from_minus_one { negsuc 0 ≤ℤ mean }
    requires to_one { mean ≤ℤ pos 1 }
    requires in_grid { Grid cells.now (length grid.old) }
    ensures { grid.new ≡ turns 16 (ring_step (listed samples.now) mean (listed cells.now) scale) grid.old }
{
    for k in 0..16 {
        let c = signs::ring_coefficient(samples, mean, k);
        add_at(grid, cells[k], scale, c as f32);
    }
}

#[tactic(auto, unfolding(shapes::specs::Turns::turns))]
fn add_cross(mean: i32, cells: &[usize; 21], scale: Scale, grid: &mut [f32])
    requires from_minus_one { negsuc 0 ≤ℤ mean }
    requires to_one { mean ≤ℤ pos 1 }
    requires in_grid { Grid cells.now (length grid.old) }
    ensures { grid.new ≡ turns 5 (cross_step mean (listed cells.now) scale) grid.old }
{
    let c = 3.2 * mean as f32;
    for k in 0..5 {
        add_at(grid, cells[16 + k], scale, c);
    }
}

fn add_at(grid: &mut [f32], cell: usize, scale: Scale, c: f32)
    requires { 2 * cell + 1 < length grid.old }
    ensures { grid.new ≡ added_at scale c cell grid.old }
{
    let at = 2 * cell;
    grid[at] = grid[at] + scale.x * c;
    grid[at + 1] = grid[at + 1] + scale.y * c;
}
