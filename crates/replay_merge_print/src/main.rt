// Replays the oracle's list of files for merge-print (data/merge_print.bin): each is merged as the program does, and what it would print is
// held to the stored text, byte for byte.
#![tactic(auto)]

ghost use Rattle.std.specs.Prelude.{◌≡◌};
ghost use Rattle.replay.specs.Spoil.{flipped};

use replay::{Aim, Part, Spoilt, Trial};
use std::io;

mod text;

// More cases than the list has, so that the loop ends.
const MOST: u32 = 20000;

// What the file is read to, and what is lent to the merge.
#[derive(Drop)]
struct Merging {
    bytes: [u8; 49152],
    list: [f32; 12288],
    heads: [u16; 16384],
    links: [u16; 4096],
}

fn main(rt: HostRuntime) -> io::Result<()> {
    let mut case = [0u8; 170000];
    let mut merging = Merging {
        bytes: [0; 49152],
        list: [0.0; 12288],
        heads: [0; 16384],
        links: [0; 4096],
    };
    replay::try_list(&rt, "merge_print.bin", &mut case, MOST, &mut merging)
}

impl Trial for Merging {
    // What is judged: the length of the text, and its bytes.
    fn spoil(&self, case: &mut [u8], turn: u32) -> Spoilt {
        let length = text_length(case);
        let place = length.at;
        let n = length.number(0) + 1;
        match replay::pick(turn, n) {
            0 => replay::spoil_at(case, turn, n, place, 0),
            i => spoil_byte(case, turn, n, place.saturating_add(3 + i)),
        }
    }

    // The file's length and its bytes up to the zeros at its end, then the text's length and the text.
    fn holds(&mut self, case: &[u8], _aim: Option<Aim>) -> bool {
        let length = text_length(case);
        let text = length.behind(1).bytes(length.number(0));
        let n = match merge_text::numbers_in(Part::of(case).number(0)) {
            Ok(n) => n,
            Err(refusal) => return text::is_refused(text, refusal),
        };
        let Some(list) = self.list.get_mut(..n) else {
            return false;
        };
        replay::load(
            Part::of(case).behind(2),
            Part::of(case).number(1),
            &mut self.bytes,
        );
        merge_text::read_numbers(&self.bytes, list);
        match merge::merge_corners_simple(list, 2.0, &mut self.heads, &mut self.links) {
            Ok(count) => text::are_corners(text, list, count),
            Err(refusal) => text::is_refused(text, refusal),
        }
    }
}

// The text's length, behind the file's two lengths and its bytes.
fn text_length(case: &[u8]) -> Part {
    Part::of(case)
        .behind(2)
        .behind_bytes(Part::of(case).word(1))
}

// Flips a bit of the byte at a place, where n things are judged.
fn spoil_byte(case: &mut [u8], turn: u32, n: usize, place: usize) -> Spoilt
    ensures { case.new ≡ flipped case.old result.place result.bit }
{
    let bit = replay::bit_for(case, place, turn, n) % 8;
    replay::flip(case, place, bit);
    Spoilt { place, bit }
}
