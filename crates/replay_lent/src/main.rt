// Replays the oracle's list of single seeds with lent operators of any content (data/lent.bin) through the exported call that is lent one; each seed
// counts as a case.
#![tactic(auto)]

use replay::{Fill, Tally};
use replay_seeds::Operator;
use std::io;

// More cases than the list has, so that the loop ends.
const MOST: u32 = 1000;

// The words before the operator, which are those of the list of seeds, and before the records: 1,125 columns and 225 overlaps more.
const OPERATOR: usize = 6;

const RECORDS: usize = 1356;

fn main(rt: HostRuntime) -> io::Result<()> {
    let mut case = [0u8; 7500];
    replay::replay(&rt, "lent.bin", &mut case, MOST, trial)
}

// The seeds of a case, each by the operator that stands before them all.
fn trial(tally: Tally, case: &mut [u8]) -> Tally {
    let mut operator = Operator {
        columns: [0.0; 1125],
        overlap: [0.0; 225],
    };
    let stored = replay::behind_image(case).behind(OPERATOR);
    replay::lend(stored, 1125, Fill::Paint, &mut operator.columns);
    replay::lend(stored.behind(1125), 225, Fill::Paint, &mut operator.overlap);
    replay_seeds::every(tally, case, RECORDS, Some(&operator))
}
