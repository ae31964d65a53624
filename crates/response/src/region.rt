// The region, row by row: +0.0 where the ring does not fit, and the row kernel on the part where it does.
ghost use Rattle.std.specs.Prelude.{◌≡◌, ◌+◌, ◌-◌, ◌*◌, ◌/◌, ◌%◌, ◌≤◌, ◌<◌, length};
ghost use Rattle.shapes.specs.Numbers.{plus_zero};
ghost use Rattle.imageview.specs.Steps.{LowPixels};
ghost use Rattle.response.specs.Call.{region_of};
ghost use Rattle.pixel_response.specs.Steps.{Wrote};
ghost use Rattle.response.specs.StepsStarts.{Below, start_of, Started, Startable};
ghost use Rattle.response.specs.StepsFrame.{From, To, inside_at, shifted_at, Clamped};

use crate::ring::Ring;
use crate::{Extent, Roi, row};
use imageview::{Image, Sample};
use refusals::Refusal;

// The columns of a region in which the ring fits, from `from` up to `to`.
#[derive(Clone, Copy)]
struct Columns {
    from: usize,
    to: usize,
}

// +0.0 throughout.
fn write_zeros(out: &mut [f32])
    ensures { Wrote plus_zero (length out.old) 0 (λ i. plus_zero) out.old out.new }
{
    out.fill(0.0);
}

// Those of the w columns from x0 on that have the radius of pixels on both sides.
fn columns_of(x0: usize, w: usize, width: usize, radius: usize) -> Columns
    requires columns { x0 + w ≤ 4096 }
    requires radius { radius ≤ 10 }
    ensures from { From x0 w radius result.from }
    ensures to { To x0 w width radius result.from result.to }
{
    let from = radius.saturating_sub(x0).min(w);
    let to = width.saturating_sub(radius + x0).clamp(from, w);
    Columns { from, to }
}

// A row in which the ring fits in the columns.
fn row_inside<S: Sample>(
    image: &Image<S>,
    ring: &Ring,
    x0: usize,
    y: usize,
    columns: Columns,
    out: &mut [f32],
)
    requires some { columns.from < columns.to }
    requires room { columns.to ≤ length out.old }
    requires startable { Startable ring.now.offsets (x0 + columns.from) y }
    requires started { Started image.now.samples ring.now.offsets image.now.pitch (x0 + columns.from) y (columns.to - columns.from) }
    requires below { Below image.now.samples (start_of ring.now.offsets image.now.pitch (x0 + columns.from) y) (columns.to - columns.from) }
    ensures { Wrote plus_zero (length out.old) 0 (inside_at image.now.samples ring.now.offsets image.now.pitch x0 y columns.from columns.to) out.old out.new }
{
    let n = out.len();
    let starts = ring.starts(image, x0 + columns.from, y);
    write_zeros(&mut out[0..columns.from]);
    row::write_row(image.samples(), &starts, &mut out[columns.from..columns.to]);
    write_zeros(&mut out[columns.to..n]);
}

// A row of the region, of which the ring fits in the columns alone.
fn region_row<S: Sample>(
    image: &Image<S>,
    ring: &Ring,
    x0: usize,
    y: usize,
    columns: Columns,
    out: &mut [f32],
)
    requires low { LowPixels image.now }
    requires right { x0 + length out.old ≤ image.now.width }
    requires from { From x0 (length out.old) ring.now.radius columns.from }
    requires to { To x0 (length out.old) image.now.width ring.now.radius columns.from columns.to }
    requires row { y < image.now.height }
    ensures { Wrote plus_zero (length out.old) 0 (λ i. shifted_at image.now ring.now.offsets ring.now.radius (x0 + i) y) out.old out.new }
{
    if (y < ring.radius) | (image.height() <= y + ring.radius) | (columns.to <= columns.from) {
        write_zeros(out);
        return;
    }
    row_inside(image, ring, x0, y, columns, out);
}

// The region of that extent from (x0, y0) on.
fn write_region<S: Sample>(
    image: &Image<S>,
    ring: &Ring,
    x0: usize,
    y0: usize,
    extent: Extent,
    out: &mut [f32],
)
    requires low { LowPixels image.now }
    requires right { x0 + extent.width ≤ image.now.width }
    requires bottom { y0 + extent.height ≤ image.now.height }
    requires room { length out.old ≡ extent.width * extent.height }
    ensures { Wrote plus_zero (length out.old) 0 (λ i. shifted_at image.now ring.now.offsets ring.now.radius (x0 + i % extent.width) (y0 + i / extent.width)) out.old out.new }
{
    let w = extent.width;
    let columns = columns_of(x0, w, image.width(), ring.radius);
    for r in 0..extent.height {
        let at = r * w;
        let end = at + w;
        region_row(image, ring, x0, y0 + r, columns, &mut out[at..end]);
    }
}

// The region that is left of the roi within the image, if the lent response has its size.
pub fn write_clamped<S: Sample>(
    image: &Image<S>,
    ring: &Ring,
    roi: Roi,
    out: &mut [f32],
) -> Result<Extent, Refusal>
    requires { LowPixels image.now }
    ensures { Clamped image.now ring.now.offsets ring.now.radius (region_of roi) out.old result out.new }
{
    let left = roi.clamped(image);
    let extent = left.extent();
    if out.len() != extent.width * extent.height {
        return Err(Refusal::BadOut);
    }
    write_region(image, ring, left.x0, left.y0, extent, out);
    Ok(extent)
}
