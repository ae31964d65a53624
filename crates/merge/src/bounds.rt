// The box of the corners, and the cells of the grid over it.
ghost use Rattle.std.specs.Prelude.{◌≡◌, ltb, ◌+◌, ◌*◌, ◌^◌, ◌<◌, ◌≤◌, IfErr, OnErr, IfOk};
ghost use Rattle.shapes.specs.Numbers.{lesser, greater};
ghost use Rattle.refusals.specs.declared.Refusal.TheVariants.{GridTooBig};
ghost use Rattle.corners.specs.Corners.{corners_of};
ghost use Rattle.merge.specs.Meets.{box_of, finite_box, stretched, along};
ghost use Rattle.merge.specs.Steps.{as_box, cells_over, total, column_in, row_in};

use crate::{Cells, Extent, list};
use corners::Corner;
use refusals::Refusal;

impl Extent {
    pub fn of(corners: &[f32]) -> Extent
        ensures { as_box result ≡ box_of (corners_of corners.now) }
    {
        let mut extent = Extent {
            left: f32::INFINITY,
            top: f32::INFINITY,
            right: f32::NEG_INFINITY,
            bottom: f32::NEG_INFINITY,
        };
        for i in 0..corners.len() / 3 {
            extent = extent.stretched(list::corner(corners, i));
        }
        extent
    }

    fn stretched(self, c: Corner) -> Extent
        ensures { as_box result ≡ stretched c (as_box self) }
    {
        Extent {
            left: lesser(c.x, self.left),
            top: lesser(c.y, self.top),
            right: greater(c.x, self.right),
            bottom: greater(c.y, self.bottom),
        }
    }

    pub fn is_finite(self) -> bool
        ensures { result ≡ finite_box (as_box self) }
    {
        floats::is_finite_f32(self.left)
            & floats::is_finite_f32(self.top)
            & floats::is_finite_f32(self.right)
            & floats::is_finite_f32(self.bottom)
    }
}

// Not f32::min: of 0.0 and -0.0 the definition takes the second, and f32::min either.
fn lesser(a: f32, b: f32) -> f32
    ensures { result ≡ lesser a b }
{
    if a < b { a } else { b }
}

// Not f32::max: of 0.0 and -0.0 the definition takes the second, and f32::max either.
fn greater(a: f32, b: f32) -> f32
    ensures { result ≡ greater a b }
{
    if a > b { a } else { b }
}

impl Cells {
    // With the radius for a side; refused where they are more than the most.
    pub fn over(extent: Extent, radius: f32, most: usize) -> Result<Cells, Refusal>
        ensures refusal { IfErr result (λ refusal. refusal ≡ GridTooBig) }
        ensures many { OnErr result (most < total (cells_over extent radius)) }
        ensures cells { IfOk result (λ cells. cells ≡ cells_over extent radius) }
        ensures some_columns { IfOk result (λ cells. 0 < cells.across) }
        ensures some_rows { IfOk result (λ cells. 0 < cells.down) }
        ensures few { IfOk result (λ cells. total cells ≤ most) }
    {
        let inv = 1.0 / radius;
        let across = last_cell(inv, extent.left, extent.right);
        let down = last_cell(inv, extent.top, extent.bottom);
        if too_many(across, down, most) {
            return Err(Refusal::GridTooBig);
        }
        Ok(Cells {
            left: extent.left,
            top: extent.top,
            inv,
            across: across + 1,
            down: down + 1,
        })
    }

    #[tactic(auto, unfolding(crate::specs::Steps::column_in))]
    pub fn column(self, x: f32) -> usize
        requires { 0 < self.across }
        ensures { result ≡ column_in self x }
    {
        floats::f32_to_usize((x - self.left) * self.inv).min(self.across - 1)
    }

    #[tactic(auto, unfolding(crate::specs::Steps::row_in))]
    pub fn row(self, y: f32) -> usize
        requires { 0 < self.down }
        ensures { result ≡ row_in self y }
    {
        floats::f32_to_usize((y - self.top) * self.inv).min(self.down - 1)
    }

    // Cells are numbered by rows.
    #[tactic(auto, using(crate::proofs::GridLaws::cell_lt))]
    pub fn cell(self, column: usize, row: usize) -> usize
        requires column_in_grid { column < self.across }
        requires row_in_grid { row < self.down }
        requires countable { total self < 2 ^ 64 }
        ensures { result ≡ row * self.across + column }
    {
        row * self.across + column
    }
}

// The number of the last cell along a side.
#[tactic(auto, unfolding(crate::specs::Meets::along))]
fn last_cell(inv: f32, low: f32, high: f32) -> usize
    ensures { result + 1 ≡ along inv low high }
{
    floats::f32_to_usize(floats::floor_f32((high - low) * inv))
}

// Whether (across + 1) * (down + 1) is above the most, without that product, which may not fit.
#[tactic(auto, using(crate::proofs::BoxLaws::many_across, crate::proofs::BoxLaws::many_down, crate::proofs::BoxLaws::many_product))]
fn too_many(across: usize, down: usize, most: usize) -> bool
    ensures { result ≡ ltb most ((across + 1) * (down + 1)) }
{
    most <= across || most <= down || most / (across + 1) < down + 1
}
