// Replays the oracle's list of response patches (data/response.bin) through the exported call: the number, the size, every value written, and the
// paint that a refusal leaves.
#![tactic(auto)]

ghost use Rattle.std.specs.Prelude.{◌≤◌};

use replay::{Aim, Fill, Image, Part, Spoilt, Trial};
use std::io;

// More cases than the list has, so that the loop ends.
const MOST: u32 = 20000;

// What is lent to the call.
#[derive(Drop)]
struct Patch {
    out: [f32; 20000],
}

fn main(rt: HostRuntime) -> io::Result<()> {
    let mut case = [0u8; 70000];
    let mut patch = Patch { out: [0.0; 20000] };
    replay::try_list(&rt, "response.bin", &mut case, MOST, &mut patch)
}

impl Trial for Patch {
    // The words that are judged: the number, and behind who decided and why the size and the values.
    fn spoil(&self, case: &mut [u8], turn: u32) -> Spoilt {
        let settings = replay::behind_image(case);
        let n = values(settings.word(42), settings.number(41));
        let judged = settings.judged(3 + n, 42, 45);
        replay::spoil(case, turn, judged)
    }

    // Part 1 is the width, part 2 the height, part 3 the buffer.
    fn aim(&self, case: &[u8], turn: u32) -> Option<Aim> {
        Some(match turn % 3 {
            0 => Aim::of(turn, 1, 1),
            1 => Aim::of(turn, 2, 1),
            _ => Aim::of(turn / 3, 3, replay::behind_image(case).number(41)),
        })
    }

    fn holds(&mut self, case: &[u8], aim: Option<Aim>) -> bool {
        let settings = replay::behind_image(case);
        let Some(out) = self.out.get_mut(..settings.number(41)) else {
            return false;
        };
        replay::paint(out);
        let mut width = replay::mark(0) as usize;
        let mut height = replay::mark(0) as usize;
        let number = ask(case, out, &mut width, &mut height);
        replay::hit(out, replay::within(aim, 3));
        let width = replay::hit_number(width, replay::within(aim, 1));
        let height = replay::hit_number(height, replay::within(aim, 2));
        number == settings.word(42)
            && replay::counts(number, settings.word(45), width)
            && replay::counts(number, settings.word(46), height)
            && replay::stands(
                settings.behind(47),
                values(number, out.len()),
                Fill::Paint,
                out,
            )
    }
}

// How many values an answer with a number has: as many as the buffer takes, or none.
fn values(number: u32, room: usize) -> usize
    ensures { result ≤ room }
{
    if number == 0 { room } else { 0 }
}

// The call, with the ring, the region and the rest of the case.
fn ask(case: &[u8], out: &mut [f32], width: &mut usize, height: &mut usize) -> u32 {
    let image = Image::of(case);
    let settings = replay::behind_image(case);
    let mut ring = [0i32; 32];
    load_ring(settings, &mut ring);
    chess_corners::chess_corners_response(
        image.samples,
        image.width,
        image.height,
        image.pitch,
        &ring,
        settings.number(0),
        settings.long(33),
        settings.long(35),
        settings.long(37),
        settings.long(39),
        out,
        width,
        height,
    )
}

// The sixteen pairs, which follow the radius.
fn load_ring(settings: Part, ring: &mut [i32; 32]) {
    for (i, x) in ring.iter_mut().enumerate() {
        *x = settings.int(i + 1);
    }
}
