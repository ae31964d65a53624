// What the replays of single seeds share. Behind the image stand the settings, whether a covariance is wanted, the number of seeds, in one list the
// lent operator, and fourteen words for each seed.
#![tactic(auto)]

mod answer;

ghost use Rattle.std.specs.Prelude.{◌≡◌, ◌≤◌};

use answer::Answer;
use replay::{Aim, Image, Part, Spoilt, Tally, Trial};

// The operator that is lent to a call.
#[derive(Drop)]
pub struct Operator {
    pub columns: [f32; 1125],
    pub overlap: [f32; 225],
}

// A seed whose record begins at a byte of its case, refined by the operator where one is lent, and else by the call that builds its own.
#[derive(Clone, Copy)]
struct Seed<'a> {
    at: usize,
    operator: Option<&'a Operator>,
}

// Every seed of a case whose records begin some words behind its image, each counted as a case; the case is as it was.
pub fn every(start: Tally, case: &mut [u8], before: usize, operator: Option<&Operator>) -> Tally
    ensures { case.new ≡ case.old }
{
    let records = replay::behind_image(case).behind(before).at;
    let mut tally = start;
    for i in 0..count(case) {
        let mut seed = Seed {
            at: replay::place(records, 14 * i),
            operator,
        };
        tally = replay::tried(&mut seed, tally, case);
    }
    tally
}

// How many seeds there are; no case has more than a hundred.
fn count(case: &[u8]) -> usize
    ensures { result ≤ 100 }
{
    replay::behind_image(case).number(5).min(100)
}

impl<'a> Trial for Seed<'a> {
    // The words that are judged: the number, and behind who decided and why all that an answer gives.
    fn spoil(&self, case: &mut [u8], turn: u32) -> Spoilt {
        let judged = self.record(case).judged(10, 2, 5);
        replay::spoil(case, turn, judged)
    }

    // Part 1 is the place, part 2 the state, part 3 the covariance.
    fn aim(&self, _case: &[u8], turn: u32) -> Option<Aim> {
        Some(Aim::of(turn / 3, 1 + turn % 3, 3))
    }

    fn holds(&mut self, case: &[u8], aim: Option<Aim>) -> bool {
        let record = self.record(case);
        let mut answer = match self.operator {
            Some(operator) => ask_with(case, record, operator),
            None => ask(case, record),
        };
        answer.change(aim);
        answer.stands(record)
    }
}

impl<'a> Seed<'a> {
    // The words of a seed.
    fn record<'b>(&self, case: &'b [u8]) -> Part<'b> {
        Part { case, at: self.at }
    }
}

// The calls, with the image, the settings and the seed of the case. A radius below zero becomes one above every limit.
fn ask(case: &[u8], record: Part) -> Answer {
    let image = Image::of(case);
    let settings = replay::behind_image(case);
    let mut answer = Answer::painted();
    answer.number = chess_corners::chess_corners_refine(
        image.samples,
        image.width,
        image.height,
        image.pitch,
        settings.number(0),
        settings.float(1),
        settings.float(2),
        settings.float(3),
        record.float(0),
        record.float(1),
        settings.word(4),
        &mut answer.place,
        &mut answer.state,
        &mut answer.covariance,
    );
    answer
}

fn ask_with(case: &[u8], record: Part, operator: &Operator) -> Answer {
    let image = Image::of(case);
    let settings = replay::behind_image(case);
    let mut answer = Answer::painted();
    answer.number = chess_corners::chess_corners_refine_with(
        image.samples,
        image.width,
        image.height,
        image.pitch,
        settings.number(0),
        settings.float(1),
        settings.float(2),
        settings.float(3),
        record.float(0),
        record.float(1),
        settings.word(4),
        &operator.columns,
        &operator.overlap,
        &mut answer.place,
        &mut answer.state,
        &mut answer.covariance,
    );
    answer
}
