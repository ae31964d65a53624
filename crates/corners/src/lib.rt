// Corners in one flat list: x, y and strength of each, one after the other. What every call over such a list asks of it, and how a corner is written.
#![tactic(auto)]

ghost use Rattle.std.specs.Prelude.{◌≡◌, ◌+◌, ◌*◌, ◌<◌, length};
ghost use Rattle.corners.specs.Corners.{whole, too_many, squared_distance, recorded};

#[derive(Clone, Copy, Debug, PartialEq)]
pub struct Corner {
    pub x: f32,
    pub y: f32,
    pub strength: f32,
}

// Whether so many numbers are whole records.
pub fn is_whole(len: usize) -> bool
    ensures { result ≡ whole len }
{
    len % 3 == 0
}

// Whether they are more corners than a call takes.
pub fn too_many(len: usize) -> bool
    ensures { result ≡ too_many len }
{
    4096 < len / 3
}

// Writes corner j.
pub fn put(list: &mut [f32], j: usize, c: Corner)
    requires { 3 * j + 2 < length list.old }
    ensures { list.new ≡ recorded list.old j c }
{
    list[3 * j] = c.x;
    list[3 * j + 1] = c.y;
    list[3 * j + 2] = c.strength;
}

// Of the places (ax, ay) and (bx, by), in four numbers: a loop over a list has them at hand, and no struct is copied.
#[tactic(auto, unfolding(crate::specs::Corners::squared_distance))]
pub fn squared_distance(ax: f32, ay: f32, bx: f32, by: f32) -> f32
    ensures { result ≡ squared_distance ax ay bx by }
{
    let dx = ax - bx;
    let dy = ay - by;
    dx * dx + dy * dy
}
