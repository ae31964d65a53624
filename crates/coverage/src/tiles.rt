// The tile of a corner.
ghost use Rattle.std.specs.Prelude.{◌≡◌, true, ◌&&◌, ◌*◌, ◌/◌, ◌≤◌, ◌<◌, pos};
ghost use Rattle.std.specs.Float.{binary32};
ghost use Rattle.std.specs.Float.Ieee.{of_int, to_unsigned, lt, le};
ghost use Rattle.shapes.specs.Numbers.{plus_zero};
ghost use Rattle.imageview.specs.Steps.{Sized};

// An image cut into eight by eight tiles. Its size has passed its test.
#[derive(Clone, Copy)]
pub struct Tiles {
    pub width: usize,
    pub height: usize,
    ghost sized: { Sized width height },
}

impl Tiles {
    ghost use Rattle.coverage.specs.Tiles.{tile_of, tile_at};

    // The tile of corner k.
    pub fn tile_at(self, list: &[f32; 12288], k: usize) -> usize
        requires { k < 4096 }
        ensures tile { result ≡ tile_at self.width self.height list.now k }
        ensures counted { result < 65 }
    {
        self.tile_of(list[3 * k], list[3 * k + 1])
    }

    #[tactic(auto, unfolding(crate::specs::Tiles::tile_of))]
    pub fn tile_of(self, x: f32, y: f32) -> usize
        ensures tile { result ≡ tile_of self.width self.height x y }
        ensures counted { result < 65 }
    {
        let across = floats::floor_f32(x);
        let down = floats::floor_f32(y);
        if is_pixel(self.width, across) & is_pixel(self.height, down) {
            8 * eighth(self.height, down) + eighth(self.width, across)
        } else {
            64
        }
    }
}

// Whether a whole number is a pixel's along an axis of n.
fn is_pixel(n: usize, whole: f32) -> bool
    requires { n ≤ 4096 }
    ensures { result ≡ (le plus_zero whole && lt whole (of_int binary32 (pos n))) }
{
    (0.0 <= whole) & (whole < n as u16 as f32)
}

// Which eighth of the axis it lies in, in whole numbers.
#[tactic(auto, using(crate::proofs::TileLaws::whole_under, crate::proofs::TileLaws::eighth_under))]
fn eighth(n: usize, whole: f32) -> usize
    requires some { 1 ≤ n }
    requires few { n ≤ 4096 }
    requires on_axis { lt whole (of_int binary32 (pos n)) ≡ true }
    ensures part { result ≡ to_unsigned 64 whole * 8 / n }
    ensures of_eight { result < 8 }
{
    floats::f32_to_usize(whole) * 8 / n
}
