// Replays the oracle's list of single seeds (data/refine.bin) through both exported calls of the refiner: the one that builds its own operator, and
// the one that is lent the operator built once for the case. A line a call; each seed counts as a case.
#![tactic(auto)]

use replay::{Tally, Walked};
use replay_seeds::Operator;
use std::io;

// More cases than the list has, so that the loop ends.
const MOST: u32 = 2000;

// The words before the records: the settings, whether a covariance is wanted, and the number of seeds.
const BEFORE: usize = 6;

// What is counted by each call.
#[derive(Clone, Copy, Debug, PartialEq)]
pub struct Both {
    pub own: Tally,
    pub lent: Tally,
}

fn main(rt: HostRuntime) -> io::Result<()> {
    let mut case = [0u8; 30000];
    let none = Both {
        own: Tally::new(),
        lent: Tally::new(),
    };
    let Walked { found, whole } = replay::walk(&rt, "refine.bin", &mut case, MOST, none, trial)?;
    let own = Walked {
        found: found.own,
        whole,
    };
    let lent = Walked {
        found: found.lent,
        whole,
    };
    replay::report(&rt, "refine.bin refine", own.tally())?;
    replay::report(&rt, "refine.bin refine_with", lent.tally())
}

// The seeds of a case by each call.
fn trial(tally: Both, case: &mut [u8]) -> Both {
    Both {
        own: replay_seeds::every(tally.own, case, BEFORE, None),
        lent: with_lent(tally.lent, case),
    }
}

// Every seed by the call that is lent the operator; where there is none for the radius, the case is passed over.
fn with_lent(tally: Tally, case: &mut [u8]) -> Tally {
    let mut operator = Operator {
        columns: [0.0; 1125],
        overlap: [0.0; 225],
    };
    let radius = replay::behind_image(case).number(0);
    let number = chess_corners::chess_corners_fit_operator(
        radius,
        &mut operator.columns,
        &mut operator.overlap,
    );
    if number != 0 {
        return tally;
    }
    replay_seeds::every(tally, case, BEFORE, Some(&operator))
}
