// The merge on the grid: heads and links hold the chains of the kept corners.
ghost use Rattle.std.specs.Prelude.{◌≡◌, ℕ, ◌+◌, ◌*◌, ◌<◌, ◌≤◌, length, set, replicate};
ghost use Rattle.corners.specs.Corners.{corners_of};
ghost use Rattle.merge.specs.Fold.{merged};
ghost use Rattle.merge.specs.Steps as Steps;
ghost use Rattle.merge.specs.Steps.{Few, Roomy, Chained, Among, Joinable, Linked, total, cells_of, cell_in, meets_in, StillLent, Stepped, Passed, Packed};

use crate::{Cells, Chains, Disc, list, seek};
use corners::Corner;

// Only the heads of the grid's cells are cleared before, since a link is written before it is read; all of both after.
pub fn merge(
    corners: &mut [f32],
    r2: f32,
    cells: Cells,
    heads: &mut [u16],
    links: &mut [u16],
) -> usize
    requires few { Few corners.old links.old }
    requires roomy { Roomy cells heads.old }
    ensures packed { Packed corners.old (merged (meets_in cells r2) (corners_of corners.old)) result corners.new }
    ensures heads_after { heads.new ≡ replicate (length heads.old) 0 }
    ensures links_after { links.new ≡ replicate (length links.old) 0 }
{
    heads[..cells.across * cells.down].fill(0);
    let mut chains = Chains { heads, links };
    let count = pass(corners, r2, cells, &mut chains);
    list::zero_from(corners, 3 * count);
    chains.heads.fill(0);
    chains.links.fill(0);
    count
}

// All corners in order. The chains are those of the first `count`, at every turn.
fn pass(corners: &mut [f32], r2: f32, cells: Cells, chains: &mut Chains) -> usize
    requires few { Few corners.old chains.old.links.now }
    requires none_kept { Chained cells corners.old 0 chains.old.heads.now chains.old.links.now }
    ensures passed { Passed (meets_in cells r2) corners.old result corners.new }
    ensures lent { StillLent chains.old chains.new }
{
    let mut count = 0;
    for i in 0..corners.len() / 3 {
        count = step(corners, i, count, r2, cells, chains);
    }
    count
}

// Corner i, after those before it came down to `count`.
#[tactic(auto, using(crate::proofs::GridLaws::column_lt, crate::proofs::GridLaws::row_lt))]
fn step(
    corners: &mut [f32],
    i: usize,
    count: usize,
    r2: f32,
    cells: Cells,
    chains: &mut Chains,
) -> usize
    requires chained { Chained cells corners.old count chains.old.heads.now chains.old.links.now }
    requires ordered { count ≤ i }
    requires in_list { 3 * i + 2 < length corners.old }
    requires small { i < 4096 }
    requires linked { i < length chains.old.links.now }
    ensures stepped { Stepped (meets_in cells r2) i count (corners_of corners.old) (corners_of corners.new) result }
    ensures chained { Chained cells corners.new result chains.new.heads.now chains.new.links.now }
    ensures lent { StillLent chains.old chains.new }
{
    let new = list::corner(corners, i);
    let column = cells.column(new.x);
    let row = cells.row(new.y);
    let disc = Disc {
        x: new.x,
        y: new.y,
        r2,
    };
    let met = seek::lowest(chains, corners, cells, column, row, disc, count);
    let cell = cells.cell(column, row);
    if met < count {
        if corners[3 * met + 2] < new.strength {
            replace(corners, met, new, cell, cells, chains);
        }
        return count;
    }
    join(corners, count, new, cell, chains);
    count + 1
}

// Writes a kept corner anew, at its number: it leaves one chain and joins another.
fn replace(
    corners: &mut [f32],
    j: usize,
    new: Corner,
    cell: usize,
    cells: Cells,
    chains: &mut Chains,
)
    requires kept { Among cells corners.old j chains.old.heads.now chains.old.links.now }
    requires small { j < 4096 }
    requires in_cell { cell ≡ cell_in cells new }
    ensures corners_after { corners_of corners.new ≡ set (corners_of corners.old) j new }
    ensures chained { (n : ℕ) → Chained cells corners.old n chains.old.heads.now chains.old.links.now → j < n → Chained cells corners.new n chains.new.heads.now chains.new.links.now }
    ensures lent { StillLent chains.old chains.new }
{
    leave(corners, j, cells, chains);
    join(corners, j, new, cell, chains);
}

// Takes corner j out of its cell's chain.
#[tactic(auto, using(crate::proofs::GridLaws::column_lt, crate::proofs::GridLaws::row_lt))]
fn leave(corners: &[f32], j: usize, cells: Cells, chains: &mut Chains)
    requires { Among cells corners.now j chains.old.heads.now chains.old.links.now }
    ensures left { (n : ℕ) → Chained cells corners.now n chains.old.heads.now chains.old.links.now → j < n → Steps.Chains (total cells) (set (cells_of cells corners.now n) j (total cells)) chains.new.heads.now chains.new.links.now }
    ensures lent { StillLent chains.old chains.new }
{
    let old = list::corner(corners, j);
    let cell = cells.cell(cells.column(old.x), cells.row(old.y));
    chains.unlink(cell, j);
}

// Writes corner j, which is in no chain, and puts it into the chain of its cell.
fn join(corners: &mut [f32], j: usize, new: Corner, cell: usize, chains: &mut Chains)
    requires in_list { 3 * j + 2 < length corners.old }
    requires joinable { Joinable chains.old.heads.now chains.old.links.now cell j }
    ensures corners_after { corners_of corners.new ≡ set (corners_of corners.old) j new }
    ensures linked { Linked chains.old.heads.now chains.old.links.now cell j chains.new.heads.now chains.new.links.now }
    ensures lent { StillLent chains.old chains.new }
{
    corners::put(corners, j, new);
    chains.link(cell, j);
}
