// Replays the oracle's list of peak scans (data/peaks.bin) through the exported call: the number, the count, every record written, and the
// paint behind the last record, or everywhere where the scan is refused.
#![tactic(auto)]

use replay::{Aim, Fill, Part, Spoilt, Trial};
use std::io;

// More cases than the list has, so that the loop ends.
const MOST: u32 = 20000;

// What is lent to the call.
#[derive(Drop)]
struct Scan {
    values: [f32; 5000],
    out: [f32; 1000],
}

fn main(rt: HostRuntime) -> io::Result<()> {
    let mut case = [0u8; 20000];
    let mut scan = Scan {
        values: [0.0; 5000],
        out: [0.0; 1000],
    };
    replay::try_list(&rt, "peaks.bin", &mut case, MOST, &mut scan)
}

impl Trial for Scan {
    // The words that are judged: the number, and behind who decided and why the count and the records.
    fn spoil(&self, case: &mut [u8], turn: u32) -> Spoilt {
        let settings = settings(case);
        let judged = settings.judged(2 + 3 * settings.number(9), 6, 9);
        replay::spoil(case, turn, judged)
    }

    // The parts are the count and the output.
    fn aim(&self, case: &[u8], turn: u32) -> Option<Aim> {
        Some(Aim::in_two(turn, settings(case).number(5)))
    }

    fn holds(&mut self, case: &[u8], aim: Option<Aim>) -> bool {
        let settings = settings(case);
        let Some(values) = self.values.get_mut(..Part::of(case).number(4)) else {
            return false;
        };
        let Some(out) = self.out.get_mut(..settings.number(5)) else {
            return false;
        };
        replay::lend(Part::of(case).behind(5), values.len(), Fill::Zeros, values);
        replay::paint(out);
        let mut count = replay::mark(0) as usize;
        let number = ask(case, values, out, &mut count);
        replay::hit(out, replay::within(aim, 2));
        let counted = replay::hit_number(count, replay::within(aim, 1));
        replay::corners_stand(settings.behind(6), number, counted, out)
    }
}

// Where the settings stand: behind the values, which begin with the sixth word.
fn settings(case: &[u8]) -> Part {
    Part::of(case).behind(5).behind(Part::of(case).number(4))
}

// The call, with the settings of the case.
fn ask(case: &[u8], values: &[f32], out: &mut [f32], count: &mut usize) -> u32 {
    let settings = settings(case);
    chess_corners::chess_corners_peaks(
        values,
        Part::of(case).long(0),
        Part::of(case).long(2),
        settings.number(1),
        settings.number(2),
        settings.number(3),
        settings.float(0),
        settings.word(4),
        out,
        count,
    )
}
