// Each predicted place of a board is tied to the nearest corner of a list: accepted only if every place has a corner within the limit and no corner serves two
// places. So a list that lacks a corner is refused with the place that lacks it. Places and corners are flat lists, since C lends them so (chess_corners_tie).
#![tactic(auto)]

mod near;
mod places;

ghost use Rattle.board.specs.Call.{Done};
ghost use Rattle.std.specs.Prelude.{◌≡◌};
ghost use Rattle.board.specs.declared.Untied.TheVariants as Untied;

use refusals::Refusal;

// Why the places were not tied. NoCorner and UsedTwice carry the number of the first place at fault, by row.
#[derive(Clone, Copy, Debug, PartialEq, Eq)]
pub enum Untied {
    NoCorner(usize),
    UsedTwice(usize),
    Refused(Refusal),
}

impl From<Refusal> for Untied {
    ghost from_gives = { λ refusal untied. untied ≡ Untied.Refused refusal };

    fn from(refusal: Refusal) -> Untied {
        Untied::Refused(refusal)
    }
}

// A corner of the list by its number, and its squared distance from a place.
#[derive(Clone, Copy)]
struct Nearest {
    corner: usize,
    distance: f32,
}

// Writes the number of its corner for each of the (rows - 1) * (columns - 1) places. Lent are x and y of each place, by row, and a limit on the squared distance.
pub fn tie_corners(
    rows: usize,
    columns: usize,
    places: &[f32],
    limit: f32,
    corners: &[f32],
    answers: &mut [u16],
) -> Result<(), Untied>
    ensures { Done rows columns places.now limit corners.now answers.old result answers.new }
{
    places::test(rows, columns, places, limit, corners, answers.len())?;
    places::tie(places, limit, corners, answers)
}
