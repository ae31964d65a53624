// Replays the oracle's list of coverage calls (data/coverage.bin) through the exported ones: rows of calls on one list. The number of each call, and after
// the last one the count, the whole list and the 65 counts.
#![tactic(auto)]

mod layout;

use layout::Layout;
use replay::{Aim, Part, Spoilt, Trial};
use std::io;

// More cases than the list has, so that the loop ends.
const MOST: u32 = 20000;

// A list with its count and the counts of its tiles, as they are lent to the calls.
#[derive(Drop)]
struct Corners {
    list: [f32; 12288],
    count: usize,
    tiles: [u16; 65],
}

// What the calls write, and what is stored of it.
#[derive(Drop)]
struct Covering {
    found: Corners,
    wanted: Corners,
}

fn main(rt: HostRuntime) -> io::Result<()> {
    let mut case = [0u8; 20000];
    let mut covering = Covering {
        found: none(),
        wanted: none(),
    };
    replay::try_list(&rt, "coverage.bin", &mut case, MOST, &mut covering)
}

fn none() -> Corners {
    Corners {
        list: [0.0; 12288],
        count: 0,
        tiles: [0; 65],
    }
}

impl Trial for Covering {
    // The words that are judged: all from the numbers on.
    fn spoil(&self, case: &mut [u8], turn: u32) -> Spoilt {
        let numbers = Layout::of(case).numbers;
        let judged = numbers.judged(layout::words_from(numbers), 0, 1);
        replay::spoil(case, turn, judged)
    }

    // Part 1 is the count, part 2 the list, part 3 the counts.
    fn aim(&self, _case: &[u8], turn: u32) -> Option<Aim> {
        Some(match turn % 3 {
            0 => Aim::of(turn, 1, 1),
            1 => Aim::of(turn / 3, 2, 12288),
            _ => Aim::of(turn / 3, 3, 65),
        })
    }

    fn holds(&mut self, case: &[u8], aim: Option<Aim>) -> bool {
        let layout = Layout::of(case);
        if layout.end.at != case.len() {
            return false;
        }
        let Covering { found, wanted } = self;
        found.lend(
            Part::of(case).long(4),
            layout.list,
            Part::of(case).behind(8),
        );
        let right = found.run(layout);
        replay::hit(&mut found.list, replay::within(aim, 2));
        replay::hit(&mut found.tiles, replay::within(aim, 3));
        found.count = replay::hit_number(found.count, replay::within(aim, 1));
        wanted.lend(
            layout.count_after.long(0),
            layout.list_after,
            layout.counts_after,
        );
        right && found.are(wanted)
    }
}

impl Corners {
    // A stored list with its count and the counts of its tiles.
    fn lend(&mut self, count: usize, list: Part, tiles: Part) {
        self.count = count;
        layout::lend_list(list, &mut self.list);
        layout::lend_counts(tiles, &mut self.tiles);
    }

    // The calls one after the other; whether each gave its number.
    fn run(&mut self, layout: Layout) -> bool {
        let mut right = true;
        for i in 0..Part::of(layout.calls.case).number(7) {
            right &= self.ask(layout.call(i)) == layout.numbers.word(i);
        }
        right
    }

    // One call, which begins with its kind and its number.
    fn ask(&mut self, call: Part) -> u32 {
        let image = Part::of(call.case);
        let width = image.long(0);
        let height = image.long(2);
        let Corners { list, count, tiles } = self;
        let number = call.long(1);
        let x = call.float(3);
        let y = call.float(4);
        let strength = call.float(5);
        match call.word(0) {
            0 => chess_corners::chess_corners_coverage(width, height, list, *count, tiles),
            1 => chess_corners::chess_corners_coverage_add(
                width, height, list, count, tiles, x, y, strength,
            ),
            2 => chess_corners::chess_corners_coverage_replace(
                width, height, list, *count, tiles, number, x, y, strength,
            ),
            _ => chess_corners::chess_corners_coverage_drop(
                width, height, list, count, tiles, number,
            ),
        }
    }

    // Whether both are the same, the floats by their bits.
    fn are(&self, wanted: &Corners) -> bool {
        self.count == wanted.count
            && self.list.iter().zip(&wanted.list).all(|(x, y)| floats::f32_to_bits(*x)
                == floats::f32_to_bits(*y))
            && self.tiles == wanted.tiles
    }
}
