// Replays the oracle's list of graymaps (data/graymap.bin) through the exported call: the number, the sizes, the maximum, where the pixels begin and the pixel
// above the maximum. What a call does not write stays painted.
#![tactic(auto)]

use replay::{Aim, Part, Spoilt, Trial};
use std::io;

// More cases than the list has, so that the loop ends.
const MOST: u32 = 20000;

// Reading a file lends nothing that is kept.
#[derive(Clone, Copy)]
struct Reading;

fn main(rt: HostRuntime) -> io::Result<()> {
    let mut case = [0u8; 8192];
    replay::try_list(&rt, "graymap.bin", &mut case, MOST, &mut Reading)
}

impl Trial for Reading {
    // The words that are judged: the number, and behind who decided and why the five that are written.
    fn spoil(&self, case: &mut [u8], turn: u32) -> Spoilt {
        let judged = answer(case).judged(6, 0, 3);
        replay::spoil(case, turn, judged)
    }

    // Each of the five is a part of one element.
    fn aim(&self, _case: &[u8], turn: u32) -> Option<Aim> {
        Some(Aim::of(turn, turn % 5 + 1, 1))
    }

    fn holds(&mut self, case: &[u8], aim: Option<Aim>) -> bool {
        let mut width = replay::mark(0) as usize;
        let mut height = replay::mark(0) as usize;
        let mut maximum = replay::mark(0) as usize;
        let mut start = replay::mark(0) as usize;
        let mut pixel = replay::mark(0) as usize;
        let number = chess_corners::chess_corners_graymap(
            file(case),
            &mut width,
            &mut height,
            &mut maximum,
            &mut start,
            &mut pixel,
        );
        let told = answer(case);
        // The pixel is handed out with 24 only, and so judged as a count is that comes with 0.
        let named = u32::from(number != 24);
        let stands = |i: u32, number: u32, n: usize| {
            let written = replay::hit_number(n, replay::within(aim, i));
            replay::counts(number, told.word(i as usize + 2), written)
        };
        number == told.word(0)
            && stands(1, number, width)
            && stands(2, number, height)
            && stands(3, number, maximum)
            && stands(4, number, start)
            && stands(5, named, pixel)
    }
}

// The bytes of the file, behind their number; none where they are not whole.
fn file(case: &[u8]) -> &[u8] {
    Part::of(case).behind(1).bytes(Part::of(case).number(0))
}

// Where the answer stands: behind the file, at a whole word.
fn answer(case: &[u8]) -> Part {
    Part::of(case)
        .behind(1)
        .behind_bytes(Part::of(case).word(0))
}
