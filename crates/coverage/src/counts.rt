// The counts: one more, one less, and those of a whole list.
ghost use Rattle.std.specs.Prelude.{◌≡◌, ◌≤◌, ◌<◌, length};
ghost use Rattle.coverage.specs.Summary.{summary};
ghost use Rattle.coverage.specs.Call.{more, less};

use crate::tiles::Tiles;

// The counts are those of no corner; those of the first `count` of the list.
#[tactic(auto, using(crate::proofs::SummaryLaws::length_summary, crate::proofs::SummaryLaws::summary_next))]
pub fn count_corners(tiles: Tiles, list: &[f32; 12288], count: usize, counts: &mut [u16])
    requires few { count ≤ 4096 }
    requires none { counts.old ≡ summary tiles.width tiles.height list.now 0 }
    ensures { counts.new ≡ summary tiles.width tiles.height list.now count }
{
    for i in 0..count {
        let tile = tiles.tile_at(list, i);
        count_more(counts, tile);
    }
}

#[tactic(auto, using(crate::proofs::SummaryLaws::more_is))]
pub fn count_more(counts: &mut [u16], tile: usize)
    requires { tile < length counts.old }
    ensures { counts.new ≡ more counts.old tile }
{
    counts[tile] = counts[tile].saturating_add(1);
}

pub fn count_less(counts: &mut [u16], tile: usize)
    requires { tile < length counts.old }
    ensures { counts.new ≡ less counts.old tile }
{
    counts[tile] = counts[tile].saturating_sub(1);
}
