// The kept corners in the 3 by 3 cells round a corner's own. Whatever the order of the cells, the lowest number is found.
// Cells that hold a corner are noted first and walked then: the processor cannot foretell which are empty, and a note needs no branch.
ghost use Rattle.std.specs.Prelude.{◌≡◌, ◌+◌, ◌<◌, ◌≤◌, length};
ghost use Rattle.merge.specs.Steps.{lowest_below, Roomy, Chained, in_one_cell, in_three_cells, in_nine_cells, Noted, SomeNoted, NotedMore, Sought};

use crate::{Cells, Chains, Disc};

// Notes and their count stay apart: as a struct with methods they cost a tenth more, even with no branch (clustered corners at radius 2: 0.39 of the Rust's time, so 0.34).
// The lowest number in the disc, or `count`.
pub fn lowest(
    chains: &Chains,
    corners: &[f32],
    cells: Cells,
    column: usize,
    row: usize,
    disc: Disc,
    count: usize,
) -> usize
    requires chained { Chained cells corners.now count chains.now.heads.now chains.now.links.now }
    requires column_in_grid { column < cells.across }
    requires row_in_grid { row < cells.down }
    ensures { result ≡ lowest_below (in_nine_cells cells corners.now disc column row) count count }
{
    let mut notes = [0usize; 9];
    let a = note_three(chains.heads, cells, column, row, &mut notes, 0);
    let b = note_three(chains.heads, cells, column, row + 1, &mut notes, a);
    let n = note_three(chains.heads, cells, column, row + 2, &mut notes, b);
    walk_noted(chains, corners, &notes, n, disc, count)
}

// Three cells of a row that is given as one more, so that 0 stands for the one before the first.
fn note_three(
    heads: &[u16],
    cells: Cells,
    column: usize,
    row: usize,
    notes: &mut [usize],
    k: usize,
) -> usize
    requires roomy { Roomy cells heads.now }
    requires column_in_grid { column < cells.across }
    requires noted { Noted cells notes.old k }
    requires room_for_three { k + 3 ≤ length notes.old }
    ensures { NotedMore 3 cells heads.now (λ list d. in_three_cells cells list d column row) notes.old k notes.new result }
{
    if row == 0 {
        return k;
    }
    if cells.down < row {
        return k;
    }
    let a = note_one(heads, cells, column, row - 1, notes, k);
    let b = note_one(heads, cells, column + 1, row - 1, notes, a);
    note_one(heads, cells, column + 2, row - 1, notes, b)
}

// One cell of a row that is there, in a column that is given as one more. A note of an empty cell is written over by the next.
fn note_one(
    heads: &[u16],
    cells: Cells,
    column: usize,
    row: usize,
    notes: &mut [usize],
    k: usize,
) -> usize
    requires roomy { Roomy cells heads.now }
    requires row_in_grid { row < cells.down }
    requires noted { Noted cells notes.old k }
    requires room_for_one { k < length notes.old }
    ensures { NotedMore 1 cells heads.now (λ list d. in_one_cell cells list d column row) notes.old k notes.new result }
{
    if column == 0 {
        return k;
    }
    if cells.across < column {
        return k;
    }
    let c = cells.cell(column - 1, row);
    notes[k] = c;
    if heads[c] == 0 {
        return k;
    }
    k + 1
}

// The lowest number in the disc of the first n noted cells, or the best number yet where that is lower.
fn walk_noted(
    chains: &Chains,
    corners: &[f32],
    notes: &[usize],
    n: usize,
    disc: Disc,
    best: usize,
) -> usize
    requires { SomeNoted corners.now chains.now.heads.now chains.now.links.now notes.now n }
    ensures { Sought corners.now chains.now.heads.now chains.now.links.now notes.now n disc best result }
{
    let mut found = best;
    for i in 0..n {
        found = chains.walk(corners, chains.heads[notes[i]] as usize, disc, found);
    }
    found
}
