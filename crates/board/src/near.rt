// The nearest corner of a list to a place.
ghost use Rattle.std.specs.Prelude.{◌≡◌, ◌+◌, ◌/◌, ◌≤◌, ◌<◌, length};
ghost use Rattle.std.specs.Float.Ieee.{lt};
ghost use Rattle.shapes.specs.Tests.{some};
ghost use Rattle.board.specs.Nearest.{distance_to, nearer_of, nearest_of};

use crate::Nearest;

pub fn nearest(list: &[f32], x: f32, y: f32) -> Nearest
    ensures { result ≡ nearest_of list.now x y (length list.now / 3) }
{
    let n = list.len() / 3;
    let blocks = n / 32;
    let mut best = Nearest {
        corner: 0,
        distance: f32::INFINITY,
    };
    for block in 0..blocks {
        best = past_block(list, 32 * block, x, y, best);
    }
    nearest_from(list, 32 * blocks, n, x, y, best)
}

// The nearest of those before `at` is `best`; the nearest with the 32 from `at` on. They are passed together where none is nearer: that test has no branch in it, and
// the compiler makes vectors of it.
fn past_block(list: &[f32], at: usize, x: f32, y: f32, best: Nearest) -> Nearest
    requires in_list { at + 32 ≤ length list.now / 3 }
    requires nearest_before { best ≡ nearest_of list.now x y at }
    ensures { result ≡ nearest_of list.now x y (at + 32) }
{
    if some_nearer(list, at, x, y, best.distance) {
        return nearest_from(list, at, at + 32, x, y, best);
    }
    best
}

// Whether one of the 32 corners from number `at` on is nearer than the bound.
#[tactic(auto, using(shapes::proofs::TestLaws::some_more), unfolding(shapes::specs::Tests::some))]
fn some_nearer(list: &[f32], at: usize, x: f32, y: f32, bound: f32) -> bool
    requires { at + 32 ≤ length list.now / 3 }
    ensures { result ≡ some 32 (λ i. lt (distance_to list.now x y (at + i)) bound) }
{
    let mut hit = false;
    for i in 0..32 {
        hit |= distance_to(list, at + i, x, y) < bound;
    }
    hit
}

// The nearest of those before `from` is `best`; the nearest of those before `to`.
#[tactic(auto, using(crate::proofs::NearestLaws::nearest_more))]
fn nearest_from(list: &[f32], from: usize, to: usize, x: f32, y: f32, best: Nearest) -> Nearest
    requires ordered { from ≤ to }
    requires in_list { to ≤ length list.now / 3 }
    requires nearest_before { best ≡ nearest_of list.now x y from }
    ensures { result ≡ nearest_of list.now x y to }
{
    let mut near = best;
    for j in from..to {
        near = nearer(j, distance_to(list, j, x, y), near);
    }
    near
}

// Corner j comes, at the distance d.
fn nearer(j: usize, d: f32, best: Nearest) -> Nearest
    ensures { result ≡ nearer_of j d best }
{
    if d < best.distance {
        return Nearest {
            corner: j,
            distance: d,
        };
    }
    best
}

// From the place (x, y) to corner j.
#[tactic(auto, unfolding(crate::specs::Nearest::distance_to))]
fn distance_to(list: &[f32], j: usize, x: f32, y: f32) -> f32
    requires { j < length list.now / 3 }
    ensures { result ≡ distance_to list.now x y j }
{
    corners::squared_distance(x, y, list[3 * j], list[3 * j + 1])
}
