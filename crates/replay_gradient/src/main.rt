// Replays the oracle's list of gradients (data/gradient.bin) through the exported call: the number, and the whole grid, which a refusal leaves as it was.
#![tactic(auto)]

use replay::{Aim, Fill, Part, Spoilt, Trial};
use std::io;

// More cases than the list has, so that the loop ends.
const MOST: u32 = 20000;

// What is lent to the call.
#[derive(Drop)]
struct Adding {
    grid: [f32; 2000],
}

fn main(rt: HostRuntime) -> io::Result<()> {
    let mut case = [0u8; 20000];
    let mut adding = Adding { grid: [0.0; 2000] };
    replay::try_list(&rt, "gradient.bin", &mut case, MOST, &mut adding)
}

impl Trial for Adding {
    // The words that are judged: the number, and behind who decided and why the grid afterwards.
    fn spoil(&self, case: &mut [u8], turn: u32) -> Spoilt {
        let told = decision(case);
        let judged = told.judged(3 + told.number(4), 0, 3);
        replay::spoil(case, turn, judged)
    }

    // Part 1 is the number, part 2 the grid.
    fn aim(&self, case: &[u8], turn: u32) -> Option<Aim> {
        let room = settings(case).number(36);
        let aim = if (turn % 2 == 0) | (room == 0) {
            Aim::of(turn, 1, 1)
        } else {
            Aim::of(turn / 2, 2, room)
        };
        Some(aim)
    }

    fn holds(&mut self, case: &[u8], aim: Option<Aim>) -> bool {
        let settings = settings(case);
        let Some(grid) = self.grid.get_mut(..settings.number(36)) else {
            return false;
        };
        replay::lend(settings.behind(38), settings.number(37), Fill::Zeros, grid);
        let number = ask(case, grid);
        replay::hit(grid, replay::within(aim, 2));
        let told = replay::hit_number(number as usize, replay::within(aim, 1));
        is_right(case, told, grid)
    }
}

// The tile's bytes, behind its side and how many they are; none where they are not whole.
fn tile(case: &[u8]) -> &[u8] {
    Part::of(case).behind(2).bytes(Part::of(case).number(1))
}

// The ring, the place, the scales and the grid, behind the tile.
fn settings(case: &[u8]) -> Part {
    Part::of(case)
        .behind(2)
        .behind_bytes(Part::of(case).word(1))
}

// Where the decision stands, behind the numbers of the grid.
fn decision(case: &[u8]) -> Part {
    let settings = settings(case);
    settings.behind(38).behind(settings.number(37))
}

// The call, with the ring, the place and the scales of the case.
fn ask(case: &[u8], grid: &mut [f32]) -> u32 {
    let settings = settings(case);
    let mut ring = [0i32; 32];
    load_ring(settings, &mut ring);
    chess_corners::chess_corners_gradient(
        tile(case),
        Part::of(case).number(0),
        &ring,
        settings.number(32),
        settings.number(33),
        settings.float(34),
        settings.float(35),
        grid,
    )
}

// The sixteen pairs.
fn load_ring(settings: Part, ring: &mut [i32; 32]) {
    for (i, x) in ring.iter_mut().enumerate() {
        *x = settings.int(i);
    }
}

// The number, and the grid as it is stored: afterwards, or of a refusal before. The case ends behind it.
fn is_right(case: &[u8], number: usize, grid: &[f32]) -> bool {
    let told = decision(case);
    let held = told.number(3);
    let given = told.number(4);
    let after = told.behind(5);
    if (after.behind(given).at != case.len()) | (number != told.number(0)) {
        return false;
    }
    if number == 0 {
        return held == grid.len() && replay::stands(after, given, Fill::Zeros, grid);
    }
    let settings = settings(case);
    held == 0 && replay::stands(settings.behind(38), settings.number(37), Fill::Zeros, grid)
}
