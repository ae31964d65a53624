// Replays the stored answers of Rust's own float library (data/, written by the oracle) on the crate floats. A line a list.
#![tactic(auto)]

use replay::{Aim, Part, Spoilt, Trial};
use std::cmp::Ordering;
use std::io;

// More cases than any list has, so that the loop ends.
const MOST: u32 = 20000;

// What a list's cases are about.
#[derive(Clone, Copy)]
struct Floats32;

#[derive(Clone, Copy)]
struct Ints32;

#[derive(Clone, Copy)]
struct Floats64;

#[derive(Clone, Copy)]
struct Order64;

fn main(rt: HostRuntime) -> io::Result<()> {
    let mut case = [0u8; 64];
    replay::try_list(&rt, "floats32.bin", &mut case, MOST, &mut Floats32)?;
    replay::try_list(&rt, "ints32.bin", &mut case, MOST, &mut Ints32)?;
    replay::try_list(&rt, "floats64.bin", &mut case, MOST, &mut Floats64)?;
    replay::try_list(&rt, "order64.bin", &mut case, MOST, &mut Order64)
}

// A number; its floor, root and the rest, of which each word is judged.
impl Trial for Floats32 {
    fn spoil(&self, case: &mut [u8], turn: u32) -> Spoilt {
        let place = Part::of(case).behind(1 + replay::pick(turn, 8)).at;
        replay::spoil_at(case, turn, 8, place, 0)
    }

    fn holds(&mut self, case: &[u8], _aim: Option<Aim>) -> bool {
        let stored = Part::of(case);
        let x = stored.float(0);
        stored.is_float(1, floats::floor_f32(x))
            && stored.is_float(2, floats::round_f32(x))
            && stored.is_float(3, floats::sqrt_f32(x))
            && floats::f32_to_i32(x) == stored.int(4)
            && floats::f32_to_usize(x) == stored.long(5)
            && stored.is_float(7, floats::magnitude_f32(x))
            && u32::from(floats::is_finite_f32(x)) == stored.word(8)
    }
}

impl Trial for Ints32 {
    fn spoil(&self, case: &mut [u8], turn: u32) -> Spoilt {
        replay::spoil_at(case, turn, 1, 4, 0)
    }

    fn holds(&mut self, case: &[u8], _aim: Option<Aim>) -> bool {
        let stored = Part::of(case);
        stored.is_float(1, floats::i32_to_f32(stored.int(0)))
    }
}

impl Trial for Floats64 {
    // The low word of a NaN stands for nothing: its high word is taken.
    fn spoil(&self, case: &mut [u8], turn: u32) -> Spoilt {
        let stored = Part::of(case);
        let word = match replay::pick(turn, 4) {
            1 if stored.word(4) == 0x7ff8_0000 => 2,
            word => word,
        };
        let place = stored.behind(2 + word).at;
        replay::spoil_at(case, turn, 4, place, 0)
    }

    fn holds(&mut self, case: &[u8], _aim: Option<Aim>) -> bool {
        let stored = Part::of(case);
        let x = floats::f64_from_bits(words::long(case, 0));
        stored.is_float(2, floats::f64_to_f32(x))
            && floats::f64_to_bits(floats::magnitude_f64(x)) == words::long(case, 12)
            && u32::from(floats::is_finite_f64(x)) == stored.word(5)
    }
}

impl Trial for Order64 {
    fn spoil(&self, case: &mut [u8], turn: u32) -> Spoilt {
        replay::spoil_at(case, turn, 1, 16, 0)
    }

    fn holds(&mut self, case: &[u8], _aim: Option<Aim>) -> bool {
        let a = floats::f64_from_bits(words::long(case, 0));
        let b = floats::f64_from_bits(words::long(case, 8));
        let rank = match floats::total_cmp_magnitudes(a, b) {
            Ordering::Less => 0,
            Ordering::Equal => 1,
            Ordering::Greater => 2,
        };
        rank == Part::of(case).word(4)
    }
}
