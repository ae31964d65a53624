// The fits of four patches at once, given by the places of their first samples. The four stand side by side in each sum, so that one product serves all.
// An index with `+ 0` is the definition's `+ c` or `+ l` at 0.
#![tactic(auto)]

ghost use Rattle.std.specs.Prelude.{◌≡◌, true, ◌+◌, ◌-◌, ◌*◌, ◌≤◌, ◌<◌, leb, length, get_or};
ghost use Rattle.shapes.specs.Numbers.{plus_zero, entry};
ghost use Rattle.refine_operator.specs.Basis.{side, samples};
ghost use Rattle.refine_formulas.specs.Numbers.{◌⊕◌, ◌⊗◌};
ghost use Rattle.refine_patch.specs.StepsFrom.{coefficient_from, four_written, Repeats};
ghost use Rattle.refine_patch.specs.StepsFour.{lane_of, lane_in, sample_in, sum_in, four_at, four_set, quad_by, sums_by, side_by_side, moved_by, level_of, added, row_added, wide_of, rows_of, FourLanes, FourReach, PatchesInside, Reaches, RowsReach, Gathered, Rows};
ghost use Rattle.refine_patch.specs.StepsRows.{centres_of, sums_after};

mod each;
mod stores;

use imageview::{ImageView, Sample};
use refine_formulas::Corners;
use std::simd::prelude::*;

/// An operator's columns for the patches of a radius: five numbers a sample. Where they are fourfold, each number stands four times more behind them, side by side.
#[derive(Clone, Copy)]
pub struct Columns<'a> {
    pub numbers: &'a [f32; 1125],
    pub fourfold: bool,
    pub radius: usize,
    ghost repeats: { Repeats fourfold radius numbers.now },
}

/// The four first places of patches, as indices of the image's samples.
#[derive(Clone, Copy, Debug, PartialEq, Eq)]
pub struct Firsts {
    pub a: usize,
    pub b: usize,
    pub c: usize,
    pub d: usize,
}

// The sums of the coefficients a to e while samples are added, the four patches side by side in each.
#[derive(Clone, Copy)]
struct Sums {
    a: f32x4,
    b: f32x4,
    c: f32x4,
    d: f32x4,
    e: f32x4,
}

/// Writes the fits of four patches of the image to `out`: coefficient c of patch l at `to + 4 · c + l`, where `to` is 20 at most.
pub fn fit_four<S: Sample>(
    view: ImageView<S>,
    columns: &Columns,
    at: Firsts,
    out: &mut [f32],
    to: usize,
)
    requires out_len { (length out.old ≡ 40) × (to ≤ 20) }
    requires patches_inside { PatchesInside (length view.data.now) view.pitch columns.now.radius at }
    ensures { out.new ≡ four_written (λ c l. coefficient_from (S.levels view.entry.data.now) view.entry.pitch columns.now.numbers.now columns.now.radius (lane_of at l) c) to out.old }
{
    if reach(view.data.len(), view.pitch, columns.radius, at) {
        fit_rows(view, columns, at, out, to);
    } else {
        each::fit_each(view, columns, at, out, to);
    }
}

// The same where some more samples than its own lie behind each row.
fn fit_rows<S: Sample>(
    view: ImageView<S>,
    columns: &Columns,
    at: Firsts,
    out: &mut [f32],
    to: usize,
)
    requires out_len { (length out.old ≡ 40) × (to ≤ 20) }
    requires patches_inside { PatchesInside (length view.data.now) view.pitch columns.now.radius at }
    requires reaches { Reaches (length view.data.now) view.pitch columns.now.radius at }
    ensures { out.new ≡ four_written (λ c l. coefficient_from (S.levels view.entry.data.now) view.entry.pitch columns.now.numbers.now columns.now.radius (lane_of at l) c) to out.old }
{
    let middle = columns.radius * view.pitch + columns.radius;
    let centre = centres(view.data, at, middle);
    let sums = sum_rows(view, columns, at, centre);
    stores::store(out, to, sums);
}

/// Writes the four fits about a base that are known to `out`, at the same places.
pub fn lay_four(out: &mut [f32], to: usize, fits: Corners)
    requires { (length out.old ≡ 40) × (to ≤ 20) }
    ensures { out.new ≡ four_written (sum_in (side_by_side fits)) to out.old }
{
    stores::store(out, to, side_by_side(fits));
}

// Coefficient by coefficient.
fn side_by_side(fits: Corners) -> Sums
    ensures { result ≡ side_by_side fits }
{
    let Corners { c00, c10, c01, c11 } = fits;
    Sums {
        a: f32x4::from_array([c00[0], c10[0], c01[0], c11[0]]),
        b: f32x4::from_array([c00[1], c10[1], c01[1], c11[1]]),
        c: f32x4::from_array([c00[2], c10[2], c01[2], c11[2]]),
        d: f32x4::from_array([c00[3], c10[3], c01[3], c11[3]]),
        e: f32x4::from_array([c00[4], c10[4], c01[4], c11[4]]),
    }
}

// The places that lie `by` further on.
fn moved(at: Firsts, by: usize) -> Firsts
    requires { FourReach 18446744073709551615 by at }
    ensures { result ≡ moved_by at by }
{
    Firsts {
        a: at.a + by,
        b: at.b + by,
        c: at.c + by,
        d: at.d + by,
    }
}

// The levels of the centres, which lie `by` past the first samples.
fn centres<S: Sample>(samples: &[S], at: Firsts, by: usize) -> f32x4
    requires { FourReach (length samples.now) by at }
    ensures { result ≡ centres_of (S.levels samples.now) at by }
{
    u16x4::from_array(read_four(samples, at, by)).cast::<f32>()
}

// The samples that lie `by` past the first ones.
fn read_four<S: Sample>(samples: &[S], at: Firsts, by: usize) -> [u16; 4]
    requires { FourReach (length samples.now) by at }
    ensures { result ≡ four_at (S.levels samples.now) at by }
{
    [
        S::level_at(samples, at.a + by),
        S::level_at(samples, at.b + by),
        S::level_at(samples, at.c + by),
        S::level_at(samples, at.d + by),
    ]
}

// Four samples side by side.
fn put_four(row: &mut [u16; 112], at: usize, v: [u16; 4])
    requires { (length row.old ≡ 112) × (at + 4 ≤ 112) }
    ensures { row.new ≡ four_set row.old at (sample_in v) }
{
    row[at + 0] = v[0];
    row[at + 1] = v[1];
    row[at + 2] = v[2];
    row[at + 3] = v[3];
}

// So many samples of one row of the four patches: sample i of patch l goes to `to + 4 · i + l`. The place is counted beside i: as a product the compiler does not read eight at once.
fn gather<S: Sample>(samples: &[S], at: Firsts, count: usize, row: &mut [u16; 112], to: usize)
    requires row_len { (length row.old ≡ 112) × (to + 4 * count ≤ 112) }
    requires four_reach { FourReach (length samples.now + 1) count at }
    ensures { Gathered (S.levels samples.now) at count to row.old row.new }
{
    let mut n = to;
    for i in 0..count {
        put_four(row, n, read_four(samples, at, i));
        n += 4;
    }
}

// So many rows, sample after sample: what is read of a row past its own samples is written over by the next row.
fn gather_rows<S: Sample>(
    view: ImageView<S>,
    at: Firsts,
    radius: usize,
    rows: usize,
    row: &mut [u16; 112],
)
    requires row_len { (length row.old ≡ 112) × (radius ≤ 7) × (rows ≤ rows_of radius) }
    requires rows_reach { RowsReach (length view.data.now) view.pitch radius at rows }
    ensures { Rows (S.levels view.entry.data.now) view.entry.pitch (side radius) at rows row.new }
{
    let pitch = view.pitch;
    let samples = view.data;
    for j in 0..rows {
        let to = 4 * (j * (2 * radius + 1));
        gather(samples, moved(at, j * pitch), wide_of(radius), row, to);
    }
}

// A row's samples and some more, so many that they are read eight at once.
fn wide_of(radius: usize) -> usize
    ensures { result ≡ wide_of radius }
{
    if radius < 4 { 8 } else { 16 }
}

// How many rows are gathered before they are added: all of them up to radius 2, and one above it, since the stack has no room for more.
fn rows_of(radius: usize) -> usize
    ensures { result ≡ rows_of radius }
{
    if radius < 3 { 5 } else { 1 }
}

// Whether so many samples lie from the first of a patch's last row on.
fn has_more(count: usize, first: usize, last: usize, wide: usize) -> bool
    requires { first + last < count }
    ensures { result ≡ leb wide (count - (first + last)) }
{
    wide <= count - (first + last)
}

// Whether the image has some more samples than its own behind every row, that is behind the last.
fn reach(count: usize, pitch: usize, radius: usize, at: Firsts) -> bool
    requires { PatchesInside count pitch radius at }
    ensures { result ≡ true → Reaches count pitch radius at }
{
    let n = wide_of(radius);
    let last = 2 * radius * pitch;
    has_more(count, at.a, last, n)
        & has_more(count, at.b, last, n)
        & has_more(count, at.c, last, n)
        & has_more(count, at.d, last, n)
}

// The four samples that stand at n, from the levels of their centres.
fn levelled(row: &[u16; 112], n: usize, centre: f32x4) -> f32x4
    requires { (n + 4 ≤ 112) × (length centre ≡ 4) }
    ensures { result ≡ level_of (λ l. get_or row.now (n + l) 0) centre }
{
    u16x4::from_slice(&row[n..n + 4]).cast::<f32>() - centre
}

// The sum with a number times the four levels.
fn plus(s: f32x4, number: f32x4, z: f32x4) -> f32x4
    requires { (length s ≡ 4) × (length number ≡ 4) × (length z ≡ 4) }
    ensures { result ≡ quad_by (λ l. lane_in s l ⊕ lane_in number l ⊗ lane_in z l) }
{
    s + number * z
}

// The number i of the columns for each of the four patches: read as it stands four times, or once and spread.
fn number(columns: &Columns, i: usize) -> f32x4
    requires { (i < 1125) × (columns.now.fourfold ≡ true → i < 125) }
    ensures { result ≡ quad_by (λ l. entry columns.now.numbers.now i) }
{
    if columns.fourfold {
        four_from(columns.numbers, 624 + 4 * i)
    } else {
        f32x4::splat(columns.numbers[i])
    }
}

fn four_from(numbers: &[f32; 1125], at: usize) -> f32x4
    requires { at + 4 ≤ 1125 }
    ensures { result ≡ quad_by (λ l. entry numbers.now (at + l)) }
{
    f32x4::from_slice(&numbers[at..at + 4])
}

// The sums with the sample k, which is z above the centres.
fn add_sample(s: Sums, columns: &Columns, k: usize, z: f32x4) -> Sums
    requires in_columns { (k < 225) × (columns.now.fourfold ≡ true → k < 25) }
    requires four_lanes { FourLanes s × (length z ≡ 4) }
    ensures { result ≡ added columns.now.numbers.now k z s }
{
    let i = 5 * k;
    Sums {
        a: plus(s.a, number(columns, i + 0), z),
        b: plus(s.b, number(columns, i + 1), z),
        c: plus(s.c, number(columns, i + 2), z),
        d: plus(s.d, number(columns, i + 3), z),
        e: plus(s.e, number(columns, i + 4), z),
    }
}

// The sums with so many samples, the first of which is the sample `from`.
#[tactic(auto, using(crate::proofs::RowLaws::row_none, crate::proofs::RowLaws::row_more))]
fn add_rows(
    s: Sums,
    columns: &Columns,
    row: &[u16; 112],
    count: usize,
    centre: f32x4,
    from: usize,
) -> Sums
    requires in_columns { (count ≤ 25) × (from + count ≤ 225) × (columns.now.fourfold ≡ true → from + count ≤ 25) }
    requires four_lanes { FourLanes s × (length centre ≡ 4) }
    ensures { result ≡ row_added columns.now.numbers.now row.now centre from count s }
{
    let mut sums = s;
    for i in 0..count {
        sums = add_sample(sums, columns, from + i, levelled(row, 4 * i, centre));
    }
    sums
}

fn no_sums() -> Sums
    ensures { result ≡ sums_by (λ c l. plus_zero) }
{
    let zero = f32x4::splat(0.0);
    Sums {
        a: zero,
        b: zero,
        c: zero,
        d: zero,
        e: zero,
    }
}

// The sums of all samples, some rows at a time.
fn sum_rows<S: Sample>(view: ImageView<S>, columns: &Columns, at: Firsts, centre: f32x4) -> Sums
    requires patches_inside { PatchesInside (length view.data.now) view.pitch columns.now.radius at }
    requires reaches { Reaches (length view.data.now) view.pitch columns.now.radius at }
    requires of_centres { centre ≡ centres_of (S.levels view.data.now) at (columns.now.radius * view.pitch + columns.now.radius) }
    ensures { result ≡ sums_after (S.levels view.entry.data.now) view.entry.pitch columns.now.numbers.now columns.now.radius at (samples columns.now.radius) }
{
    let radius = columns.radius;
    let side = 2 * radius + 1;
    let most = rows_of(radius);
    let pitch = view.pitch;
    let mut row = [0u16; 112];
    let mut sums = no_sums();
    let mut j: usize = 0;
    // Kept: a `for` by `step_by` was tried and did not close, since it also ends where j + most would not fit, and the proof is told nothing of that end.
    while j < side {
        let rows = std::cmp::min(most, side - j);
        gather_rows(view, moved(at, j * pitch), radius, rows, &mut row);
        sums = add_rows(sums, columns, &row, rows * side, centre, j * side);
        j += rows;
    }
    sums
}
