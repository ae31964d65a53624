// Which element of what a call wrote is changed, to see that the change is noticed.
ghost use Rattle.std.specs.Prelude.{◌≡◌};
ghost use Rattle.replay.specs.Aim.{aim_of, aim_in_two, aimed_at};

use crate::spoiling;

// An element of one of the parts that a call wrote; parts are numbered from 1.
#[derive(Clone, Copy, Debug, PartialEq)]
pub struct Aim {
    pub part: u32,
    pub at: usize,
}

impl Aim {
    // The one of a turn in a part of n elements; where it has none, the first of part 1.
    pub fn of(turn: u32, part: u32, n: usize) -> Self
        ensures { result ≡ aim_of turn part n }
    {
        if n == 0 {
            return Aim { part: 1, at: 0 };
        }
        Aim {
            part,
            at: spoiling::pick(turn, n),
        }
    }

    // Part 1 is one number, part 2 has n elements: in turns.
    pub fn in_two(turn: u32, n: usize) -> Self
        ensures { result ≡ aim_in_two turn n }
    {
        if turn % 2 == 0 {
            return Aim::of(turn, 1, 1);
        }
        Aim::of(turn / 2, 2, n)
    }
}

// The element of a part that is changed, if one is.
pub fn within(aim: Option<Aim>, part: u32) -> Option<usize>
    ensures { result ≡ aimed_at aim part }
{
    match aim {
        Some(aim) if aim.part == part => Some(aim.at),
        _ => None,
    }
}
