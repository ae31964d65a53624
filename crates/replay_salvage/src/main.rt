// Replays the oracle's list of damaged files (data/salvage.bin) through the exported call: the number, the two counts, and both outputs to their ends, where
// what lies past what is written stays painted.
#![tactic(auto)]

ghost use Rattle.std.specs.Prelude.{◌≤◌};

use replay::{Aim, Fill, Part, Spoilt, Trial};
use std::io;

// More cases than the list has, so that the loop ends.
const MOST: u32 = 20000;

// What is lent to the call.
#[derive(Drop)]
struct Salvaging {
    file: [u8; 50000],
    out: [u8; 50000],
    faults: [u16; 10000],
}

fn main(rt: HostRuntime) -> io::Result<()> {
    let mut case = [0u8; 100000];
    let mut salvaging = Salvaging {
        file: [0; 50000],
        out: [0; 50000],
        faults: [0; 10000],
    };
    replay::try_list(&rt, "salvage.bin", &mut case, MOST, &mut salvaging)
}

impl Trial for Salvaging {
    // The words that are judged: the number, and behind who decided and why the two counts, two lengths, the kept records and the pairs.
    fn spoil(&self, case: &mut [u8], turn: u32) -> Spoilt {
        let rooms = rooms(case);
        let judged = rooms.judged(5 + words_of(rooms), 2, 5);
        replay::spoil(case, turn, judged)
    }

    // Parts 1 and 2 are the counts, part 3 the output, part 4 the list of faults.
    fn aim(&self, case: &[u8], turn: u32) -> Option<Aim> {
        let rooms = rooms(case);
        Some(match turn % 4 {
            0 => Aim::of(turn, 1, 1),
            1 => Aim::of(turn, 2, 1),
            2 => Aim::of(turn / 4, 3, rooms.number(0)),
            _ => Aim::of(turn / 4, 4, rooms.number(1)),
        })
    }

    fn holds(&mut self, case: &[u8], aim: Option<Aim>) -> bool {
        let rooms = rooms(case);
        let Some(file) = self.file.get_mut(..Part::of(case).number(4)) else {
            return false;
        };
        let Some(out) = self.out.get_mut(..rooms.number(0)) else {
            return false;
        };
        let Some(faults) = self.faults.get_mut(..rooms.number(1)) else {
            return false;
        };
        replay::load(given(case), Part::of(case).number(5), file);
        replay::paint(out);
        replay::paint(faults);
        let mut kept = replay::mark(0) as usize;
        let mut dropped = replay::mark(0) as usize;
        let number = chess_corners::chess_corners_salvage(
            file,
            Part::of(case).long(0),
            Part::of(case).long(2),
            out,
            faults,
            &mut kept,
            &mut dropped,
        );
        replay::hit(out, replay::within(aim, 3));
        replay::hit(faults, replay::within(aim, 4));
        let kept = replay::hit_number(kept, replay::within(aim, 1));
        let dropped = replay::hit_number(dropped, replay::within(aim, 2));
        number == rooms.word(2)
            && replay::counts(number, rooms.word(5), kept)
            && replay::counts(number, rooms.word(6), dropped)
            && outputs_stand(rooms, out, faults)
    }
}

// The bytes of the file that are given; behind them are zeros.
fn given(case: &[u8]) -> Part {
    Part::of(case).behind(6)
}

// Where the lengths of the outputs stand: behind the bytes of the file.
fn rooms(case: &[u8]) -> Part {
    given(case).behind_bytes(Part::of(case).word(5))
}

// The words of the stored records and pairs.
fn words_of(rooms: Part) -> usize
    ensures { result ≤ 0x4_0000_0000 }
{
    record_words(rooms) + 2 * rooms.number(6)
}

fn record_words(rooms: Part) -> usize
    ensures { result ≤ 0x8000_0000 }
{
    (rooms.number(8) + 3) / 4
}

// Whether both outputs are the stored ones, with which the case ends.
fn outputs_stand(rooms: Part, out: &[u8], faults: &[u16]) -> bool {
    let records = rooms.behind(9);
    let pairs = records.behind(record_words(rooms));
    let n = rooms.number(7);
    records.behind(words_of(rooms)).at == rooms.case.len()
        && n == 12 * rooms.number(5)
        && replay::bytes_stand(records, rooms.number(8), n, out)
        && replay::stands(pairs, 2 * rooms.number(6), Fill::Paint, faults)
}
