// Replays the oracle's list of ties (data/board.bin) through the exported call: the number, the place at fault, and every lent answer, which a refusal leaves
// painted.
#![tactic(auto)]

use replay::{Aim, Fill, Part, Spoilt, Trial};
use std::io;

// More cases than the list has, so that the loop ends.
const MOST: u32 = 20000;

// What is lent to the call.
#[derive(Drop)]
struct Tying {
    places: [f32; 2000],
    corners: [f32; 16384],
    answers: [u16; 1000],
}

fn main(rt: HostRuntime) -> io::Result<()> {
    let mut case = [0u8; 70000];
    let mut tying = Tying {
        places: [0.0; 2000],
        corners: [0.0; 16384],
        answers: [0; 1000],
    };
    replay::try_list(&rt, "board.bin", &mut case, MOST, &mut tying)
}

impl Trial for Tying {
    // The words that are judged: the number, the place, how many answers there are, and those.
    fn spoil(&self, case: &mut [u8], turn: u32) -> Spoilt {
        let room = room(case);
        let judged = room.judged(3 + room.number(5), 1, 4);
        replay::spoil(case, turn, judged)
    }

    // The parts are the place at fault and the answers.
    fn aim(&self, case: &[u8], turn: u32) -> Option<Aim> {
        Some(Aim::in_two(turn, room(case).number(0)))
    }

    fn holds(&mut self, case: &[u8], aim: Option<Aim>) -> bool {
        let limit = limit(case);
        let room = room(case);
        let Some(places) = self.places.get_mut(..Part::of(case).number(4)) else {
            return false;
        };
        let Some(corners) = self.corners.get_mut(..limit.number(1)) else {
            return false;
        };
        let Some(answers) = self.answers.get_mut(..room.number(0)) else {
            return false;
        };
        replay::lend(given(case), Part::of(case).number(5), Fill::Zeros, places);
        replay::lend(limit.behind(3), limit.number(2), Fill::Zeros, corners);
        replay::paint(answers);
        let mut place = replay::mark(0) as usize;
        let number = chess_corners::chess_corners_tie(
            Part::of(case).long(0),
            Part::of(case).long(2),
            places,
            limit.float(0),
            corners,
            answers,
            &mut place,
        );
        replay::hit(answers, replay::within(aim, 2));
        let named = replay::hit_number(place, replay::within(aim, 1));
        is_right(room, number, named, answers)
    }
}

// The predicted places that are given.
fn given(case: &[u8]) -> Part {
    Part::of(case).behind(6)
}

// Where the limit stands: behind the predicted places.
fn limit(case: &[u8]) -> Part {
    given(case).behind(Part::of(case).number(5))
}

// Where the number of lent answers stands: behind the lent corners.
fn room(case: &[u8]) -> Part {
    let limit = limit(case);
    limit.behind(3).behind(limit.number(2))
}

fn is_right(room: Part, number: u32, place: usize, answers: &[u16]) -> bool {
    // The place is handed out with 33 and 34 only, and so judged as a count is that comes with 0.
    let named = matches!(number, 33 | 34);
    number == room.word(1)
        && replay::counts(u32::from(!named), room.word(4), place)
        && answers_stand(room, number, answers)
}

// The stored answers, as many as are lent; where the call is refused, none, and all that is lent is paint.
fn answers_stand(room: Part, number: u32, answers: &[u16]) -> bool {
    let stored = room.number(5);
    let wanted = if number == 0 { answers.len() } else { 0 };
    stored == wanted && replay::stands(room.behind(6), wanted, Fill::Paint, answers)
}
