// Replays the oracle's list of lists with a second try (data/fallback.bin) through the exported call: the number, the count, every record and every pass byte
// written, and the paint behind the last ones, or everywhere where the call is refused.
#![tactic(auto)]

use replay::{Aim, Fill, Image, Part, Spoilt, Trial};
use std::io;

// More cases than the list has, so that the loop ends.
const MOST: u32 = 2000;

// What is lent to the call.
#[derive(Drop)]
struct Refining {
    corners: [f32; 16384],
    out: [f32; 16384],
    passes: [u8; 8192],
}

fn main(rt: HostRuntime) -> io::Result<()> {
    let mut case = [0u8; 30000];
    let mut refining = Refining {
        corners: [0.0; 16384],
        out: [0.0; 16384],
        passes: [0; 8192],
    };
    replay::try_list(&rt, "fallback.bin", &mut case, MOST, &mut refining)
}

impl Trial for Refining {
    // The words that are judged: the number, and behind who decided and why the count, the records and the bytes.
    fn spoil(&self, case: &mut [u8], turn: u32) -> Spoilt {
        let rooms = rooms(case);
        let k = rooms.number(5);
        let judged = rooms.judged(2 + 3 * k + (k + 3) / 4, 2, 5);
        replay::spoil(case, turn, judged)
    }

    // Part 1 is the count, part 2 the output, part 3 the pass bytes.
    fn aim(&self, case: &[u8], turn: u32) -> Option<Aim> {
        let rooms = rooms(case);
        Some(match turn % 3 {
            0 => Aim::of(turn, 1, 1),
            1 => Aim::of(turn / 3, 2, rooms.number(0)),
            _ => Aim::of(turn / 3, 3, rooms.number(1)),
        })
    }

    fn holds(&mut self, case: &[u8], aim: Option<Aim>) -> bool {
        let settings = replay::behind_image(case);
        let rooms = rooms(case);
        let Some(corners) = self.corners.get_mut(..settings.number(8)) else {
            return false;
        };
        let Some(out) = self.out.get_mut(..rooms.number(0)) else {
            return false;
        };
        let Some(passes) = self.passes.get_mut(..rooms.number(1)) else {
            return false;
        };
        replay::lend(
            settings.behind(10),
            settings.number(9),
            Fill::Zeros,
            corners,
        );
        replay::paint(out);
        replay::paint(passes);
        let mut count = replay::mark(0) as usize;
        let number = ask(case, corners, out, passes, &mut count);
        replay::hit(out, replay::within(aim, 2));
        replay::hit(passes, replay::within(aim, 3));
        let counted = replay::hit_number(count, replay::within(aim, 1));
        replay::corners_stand(rooms.behind(2), number, counted, out) && passes_stand(rooms, passes)
    }
}

// Where the lengths of the outputs stand: behind the lent corners, which follow the image and both settings.
fn rooms(case: &[u8]) -> Part {
    let settings = replay::behind_image(case);
    settings.behind(10).behind(settings.number(9))
}

// The call, with the image and both settings of the case. A radius below zero becomes one above every limit.
fn ask(case: &[u8], corners: &[f32], out: &mut [f32], passes: &mut [u8], count: &mut usize) -> u32 {
    let image = Image::of(case);
    let settings = replay::behind_image(case);
    chess_corners::chess_corners_refine_list_fallback(
        image.samples,
        image.width,
        image.height,
        image.pitch,
        settings.number(0),
        settings.float(1),
        settings.float(2),
        settings.float(3),
        settings.number(4),
        settings.float(5),
        settings.float(6),
        settings.float(7),
        corners,
        out,
        passes,
        count,
    )
}

// Whether the pass bytes are the stored ones, which follow the records: as many as these, and what is left of the last word is 0.
fn passes_stand(rooms: Part, passes: &[u8]) -> bool {
    let k = rooms.number(5);
    let stored = rooms.behind(6).behind(3 * k);
    replay::bytes_stand(stored, k, k, passes) && is_blank(stored, k)
}

// Whether the last word has nothing behind the k bytes.
fn is_blank(stored: Part, k: usize) -> bool {
    let last = stored.word(k / 4);
    match k % 4 {
        0 => true,
        1 => last < 0x100,
        2 => last < 0x1_0000,
        _ => last < 0x100_0000,
    }
}
