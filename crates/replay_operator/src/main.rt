// Replays the stored operators of the Rust (data/operator.bin), one for each radius from 0 to 7, through the exported call: the number, the columns,
// the overlaps, and the paint that stays where nothing is written.
#![tactic(auto)]

ghost use Rattle.std.specs.Prelude.{◌≤◌};

use replay::{Aim, Fill, Part, Spoilt, Tally, Trial};
use std::io;

// More cases than the list has, so that the loop ends.
const MOST: u32 = 100;

// How often each case is spoilt: it has many words, and there are few cases.
const TURNS: u32 = 100;

// Building an operator lends nothing that is kept.
#[derive(Clone, Copy)]
struct Building;

fn main(rt: HostRuntime) -> io::Result<()> {
    let mut case = [0u8; 5700];
    replay::replay(&rt, "operator.bin", &mut case, MOST, tried_often)
}

// One case as it is stored, and spoilt at many turns: every flipped bit of the answer and every changed element of what was written is noticed.
fn tried_often(tally: Tally, case: &mut [u8]) -> Tally {
    let mut building = Building;
    let right = building.holds(case, None);
    let mut noticed = true;
    for k in 0..TURNS {
        noticed &= replay::notices(&mut building, case, 37 * k);
    }
    tally.counted(right, noticed)
}

impl Trial for Building {
    // The words that are judged: whether there is an operator, and where there is one, its side, the columns and the overlaps.
    fn spoil(&self, case: &mut [u8], turn: u32) -> Spoilt {
        let stored = Part::of(case);
        let judged = if stored.word(1) == 0 {
            1
        } else {
            227 + numbers_of(stored.number(2))
        };
        let word = replay::pick(turn, judged);
        let place = if word < 2 {
            stored.behind(1 + word).at
        } else {
            stored.behind(73 + word).at
        };
        replay::spoil_at(case, turn, judged, place, 0)
    }

    // Part 1 is the columns, part 2 the overlaps.
    fn aim(&self, _case: &[u8], turn: u32) -> Option<Aim> {
        Some(match turn % 2 {
            0 => Aim::of(turn / 2, 1, 1125),
            _ => Aim::of(turn / 2, 2, 225),
        })
    }

    fn holds(&mut self, case: &[u8], aim: Option<Aim>) -> bool {
        let mut columns = [0.0f32; 1125];
        let mut overlap = [0.0f32; 225];
        replay::paint(&mut columns);
        replay::paint(&mut overlap);
        let radius = Part::of(case).number(0);
        let number = chess_corners::chess_corners_fit_operator(radius, &mut columns, &mut overlap);
        replay::hit(&mut columns, replay::within(aim, 1));
        replay::hit(&mut overlap, replay::within(aim, 2));
        is_right(Part::of(case), number, &columns, &overlap)
    }
}

// The radius, whether there is an operator, its side, its inverse, the columns and the overlaps. The inverse is not ours to answer.
fn is_right(stored: Part, number: u32, columns: &[f32], overlap: &[f32]) -> bool {
    let (built, n) = match number {
        0 => (1, numbers_of(stored.number(2))),
        3 => (0, 0),
        _ => (2, 0),
    };
    if stored.word(1) != built {
        return false;
    }
    if number != 0 {
        return replay::stands(stored, 0, Fill::Paint, columns)
            && replay::stands(stored, 0, Fill::Paint, overlap);
    }
    let numbers = stored.behind(75);
    stored.number(2) == 2 * stored.number(0) + 1
        && replay::stands(numbers, n, Fill::Paint, columns)
        && replay::stands(numbers.behind(n), 225, Fill::Paint, overlap)
}

// Five numbers a sample, where the side is that of an operator.
fn numbers_of(side: usize) -> usize
    ensures { result ≤ 1125 }
{
    if 15 < side {
        return 0;
    }
    5 * (side * side)
}
