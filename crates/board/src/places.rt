// The places of a board: what can be used, and each tied to its corner.
ghost use Rattle.std.specs.Prelude.{◌≡◌, [], length, take, IfErr, OnOk};
ghost use Rattle.board.specs.Call.{is_board, is_limit, all_finite, is_among, way_of, refused, tied, tie_from, answer_of, answers_after};
ghost use Rattle.board.specs.Steps.{Fitting};

use crate::{Untied, near};
use refusals::Refusal;

// Whether the call can be made; `room` is how many answers are lent.
#[tactic(auto, unfolding(crate::specs::Call::way_of))]
pub fn test(
    rows: usize,
    columns: usize,
    places: &[f32],
    limit: f32,
    list: &[f32],
    room: usize,
) -> Result<(), Refusal>
    ensures refused { IfErr result (λ refusal. way_of rows columns places.now limit list.now room ≡ refused refusal) }
    ensures tested { OnOk result (way_of rows columns places.now limit list.now room ≡ tie_from places.now limit list.now room []) }
    ensures fitting { OnOk result (Fitting places.now list.now room) }
{
    if !is_board(rows, columns) {
        return Err(Refusal::BadBoard);
    }
    let inner = (rows - 1) * (columns - 1);
    if places.len() != 2 * inner {
        return Err(Refusal::BadBoard);
    }
    if room != inner {
        return Err(Refusal::BadBoard);
    }
    if !is_limit(limit) {
        return Err(Refusal::BadPlaces);
    }
    if !all_finite(places) {
        return Err(Refusal::BadPlaces);
    }
    if !corners::is_whole(list.len()) {
        return Err(Refusal::BadList);
    }
    if corners::too_many(list.len()) {
        return Err(Refusal::BadList);
    }
    Ok(())
}

fn is_board(rows: usize, columns: usize) -> bool
    ensures { result ≡ is_board rows columns }
{
    (2 <= rows) & (rows <= 32) & (2 <= columns) & (columns <= 32)
}

fn is_limit(limit: f32) -> bool
    ensures { result ≡ is_limit limit }
{
    floats::is_finite_f32(limit) & (0.0 <= limit)
}

fn all_finite(places: &[f32]) -> bool
    ensures { result ≡ all_finite places.now }
{
    places.iter().all(|number| floats::is_finite_f32(*number))
}

// The answers are written once all of them are known, since a refusal may not write.
pub fn tie(places: &[f32], limit: f32, list: &[f32], answers: &mut [u16]) -> Result<(), Untied>
    requires { Fitting places.now list.now (length answers.old) }
    ensures says { result ≡ answer_of (tie_from places.now limit list.now (length answers.old) []) }
    ensures leaves { answers.new ≡ answers_after answers.old (tie_from places.now limit list.now (length answers.old) []) }
{
    let mut known = [0u16; 961];
    let n = answers.len();
    tie_first(places, limit, list, n, &mut known)?;
    answers.copy_from_slice(&known[..n]);
    Ok(())
}

// The first n places one after the other, their corners to the front of `known`.
fn tie_first(
    places: &[f32],
    limit: f32,
    list: &[f32],
    n: usize,
    known: &mut [u16; 961],
) -> Result<(), Untied>
    requires { Fitting places.now list.now n }
    ensures says { result ≡ answer_of (tie_from places.now limit list.now n []) }
    ensures front { OnOk result (tie_from places.now limit list.now n [] ≡ tied (take n known.new)) }
{
    for k in 0..n {
        let near = near::nearest(list, places[2 * k], places[2 * k + 1]);
        let corner = near.corner as u16;
        let met = near.distance <= limit;
        let twice = is_among(corner, &known[..k]);
        if !met {
            return Err(Untied::NoCorner(k));
        }
        if twice {
            return Err(Untied::UsedTwice(k));
        }
        known[k] = corner;
    }
    Ok(())
}

// Whether the corner is a known one. Without a branch the compiler makes vectors of it.
#[tactic(auto, using(shapes::proofs::TestLaws::some_more), unfolding(shapes::specs::Tests::some))]
fn is_among(corner: u16, known: &[u16]) -> bool
    ensures { result ≡ is_among corner known.now }
{
    let mut hit = false;
    for one in known {
        hit |= *one == corner;
    }
    hit
}
