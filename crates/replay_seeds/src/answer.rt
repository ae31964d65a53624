// An answer against the stored one, in the words of a seed's record: 2 the number, 5 to 7 the place and the score, 8 converged, 9 the tries,
// 10 whether there is a covariance, 11 to 13 its entries. Who decided and why is not ours to answer.

ghost use Rattle.std.specs.Prelude.{◌≤◌};

use replay::{Aim, Fill, Part};

// What a call answers and writes.
#[derive(Clone, Copy, Debug, PartialEq)]
pub struct Answer {
    pub number: u32,
    pub place: [f32; 3],
    pub state: [u32; 3],
    pub covariance: [f32; 3],
}

impl Answer {
    // What is lent to a call.
    pub fn painted() -> Self {
        let mut place = [0.0; 3];
        let mut state = [0; 3];
        let mut covariance = [0.0; 3];
        replay::paint(&mut place);
        replay::paint(&mut state);
        replay::paint(&mut covariance);
        Answer {
            number: 0,
            place,
            state,
            covariance,
        }
    }

    // Part 1 is the place, part 2 the state, part 3 the covariance.
    pub fn change(&mut self, aim: Option<Aim>) {
        replay::hit(&mut self.place, replay::within(aim, 1));
        replay::hit(&mut self.state, replay::within(aim, 2));
        replay::hit(&mut self.covariance, replay::within(aim, 3));
    }

    // The number, what the answer gives, paint on what it does not give, and zeros stored there.
    pub fn stands(&self, record: Part) -> bool {
        let given = self.given(record);
        // How many words of the three that begin at a number are given: all or none.
        let three = |from: usize| if from < given { 3 } else { 0 };
        self.number == record.word(2)
            && replay::stands(record.behind(5), three(0), Fill::Paint, &self.place)
            && replay::stands(record.behind(8), three(3), Fill::Paint, &self.state)
            && replay::stands(record.behind(11), three(6), Fill::Paint, &self.covariance)
            && record.is_zero(5 + given, 14)
    }

    // How many of the nine words an answer gives: none where it is refused, the place where the seed is not accepted, else all but an unknown covariance.
    fn given(&self, record: Part) -> usize
        ensures { result ≤ 9 }
    {
        match self.number {
            0 if record.word(10) == 1 => 9,
            0 => 6,
            1..=7 => 3,
            _ => 0,
        }
    }
}
