// Replays the oracle's list of refined lists (data/refine_list.bin) through the exported call: the number, the count, every record written, and the
// paint behind the last record, or everywhere where the call is refused.
#![tactic(auto)]

use replay::{Aim, Fill, Image, Part, Spoilt, Trial};
use std::io;

// More cases than the list has, so that the loop ends.
const MOST: u32 = 2000;

// What is lent to the call.
#[derive(Drop)]
struct Refining {
    corners: [f32; 16384],
    out: [f32; 16384],
}

fn main(rt: HostRuntime) -> io::Result<()> {
    let mut case = [0u8; 30000];
    let mut refining = Refining {
        corners: [0.0; 16384],
        out: [0.0; 16384],
    };
    replay::try_list(&rt, "refine_list.bin", &mut case, MOST, &mut refining)
}

impl Trial for Refining {
    // The words that are judged: the number, and behind who decided and why the count and the records.
    fn spoil(&self, case: &mut [u8], turn: u32) -> Spoilt {
        let room = room(case);
        let judged = room.judged(2 + 3 * room.number(4), 1, 4);
        replay::spoil(case, turn, judged)
    }

    // The parts are the count and the output.
    fn aim(&self, case: &[u8], turn: u32) -> Option<Aim> {
        Some(Aim::in_two(turn, room(case).number(0)))
    }

    fn holds(&mut self, case: &[u8], aim: Option<Aim>) -> bool {
        let settings = replay::behind_image(case);
        let room = room(case);
        let Some(corners) = self.corners.get_mut(..settings.number(4)) else {
            return false;
        };
        let Some(out) = self.out.get_mut(..room.number(0)) else {
            return false;
        };
        replay::lend(settings.behind(6), settings.number(5), Fill::Zeros, corners);
        replay::paint(out);
        let mut count = replay::mark(0) as usize;
        let number = ask(case, corners, out, &mut count);
        replay::hit(out, replay::within(aim, 2));
        let counted = replay::hit_number(count, replay::within(aim, 1));
        replay::corners_stand(room.behind(1), number, counted, out)
    }
}

// Where the length of the output stands: behind the lent corners, which follow the image and the settings.
fn room(case: &[u8]) -> Part {
    let settings = replay::behind_image(case);
    settings.behind(6).behind(settings.number(5))
}

// The call, with the image and the settings of the case. A radius below zero becomes one above every limit.
fn ask(case: &[u8], corners: &[f32], out: &mut [f32], count: &mut usize) -> u32 {
    let image = Image::of(case);
    let settings = replay::behind_image(case);
    chess_corners::chess_corners_refine_list(
        image.samples,
        image.width,
        image.height,
        image.pitch,
        settings.number(0),
        settings.float(1),
        settings.float(2),
        settings.float(3),
        corners,
        out,
        count,
    )
}
