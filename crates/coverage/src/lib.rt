// How many corners lie in each tile of an image, kept beside the list. Not in the Rust.
#![tactic(auto)]

mod counts;
mod moves;
mod tests;
mod tiles;

ghost use Rattle.coverage.specs.Call.{fresh_way, add_way, replace_way, drop_way, Done};

use corners::Corner;
use refusals::Refusal;
use tiles::Tiles;

// The summary of the first `count` corners, worked out afresh.
#[tactic(auto, using(crate::proofs::SummaryLaws::summary_none))]
pub fn coverage_afresh(
    width: usize,
    height: usize,
    list: &[f32; 12288],
    count: usize,
    counts: &mut [u16; 65],
) -> Result<usize, Refusal>
    ensures { Done (fresh_way width height list.now count) list.now counts.old result list.now counts.new }
{
    if !imageview::is_size(width, height) {
        return Err(Refusal::BadImage);
    }
    if 4096 < count {
        return Err(Refusal::TooMany);
    }
    *counts = [0; 65];
    counts::count_corners(Tiles { width, height }, list, count, counts);
    Ok(count)
}

// One corner more, at the end of the list.
pub fn add_corner(
    width: usize,
    height: usize,
    list: &mut [f32; 12288],
    count: usize,
    counts: &mut [u16; 65],
    corner: Corner,
) -> Result<usize, Refusal>
    ensures { Done (add_way width height list.old count counts.old corner.x corner.y corner.strength) list.old counts.old result list.new counts.new }
{
    if !imageview::is_size(width, height) {
        return Err(Refusal::BadImage);
    }
    if 4096 <= count {
        return Err(Refusal::TooMany);
    }
    let tiles = Tiles { width, height };
    counts::count_more(counts, tiles.tile_of(corner.x, corner.y));
    corners::put(list, count, corner);
    Ok(count + 1)
}

// The corner of this number is another one from now on.
pub fn replace_corner(
    width: usize,
    height: usize,
    list: &mut [f32; 12288],
    count: usize,
    counts: &mut [u16; 65],
    number: usize,
    corner: Corner,
) -> Result<usize, Refusal>
    ensures { Done (replace_way width height list.old count counts.old number corner.x corner.y corner.strength) list.old counts.old result list.new counts.new }
{
    tests::of_number(width, height, count, number)?;
    let tiles = Tiles { width, height };
    let old = tiles.tile_at(list, number);
    let new = tiles.tile_of(corner.x, corner.y);
    counts::count_less(counts, old);
    counts::count_more(counts, new);
    corners::put(list, number, corner);
    Ok(count)
}

// The corner of this number is left out; the later ones move down by one.
pub fn drop_corner(
    width: usize,
    height: usize,
    list: &mut [f32; 12288],
    count: usize,
    counts: &mut [u16; 65],
    number: usize,
) -> Result<usize, Refusal>
    ensures { Done (drop_way width height list.old count counts.old number) list.old counts.old result list.new counts.new }
{
    tests::of_number(width, height, count, number)?;
    let tile = Tiles { width, height }.tile_at(list, number);
    counts::count_less(counts, tile);
    moves::drop_record(list, count, number);
    Ok(count - 1)
}
