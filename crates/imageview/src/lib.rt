// What an image is: samples of either width, row after row, with its sizes; a row may have padding behind it.
#![tactic(auto)]

ghost use Rattle.std.specs.Prelude.{◌≡◌};
ghost use Rattle.imageview.specs.Image.{is_size, is_pitch, sizes_fit};
ghost use Rattle.imageview.specs.Patch.{inside};

mod images;
mod samples;

pub use images::{Image, ImageView};
pub use samples::Sample;

// The test of a list of so many entries that has no padding.
#[tactic(auto, unfolding(crate::specs::Image::sizes_fit))]
pub fn fits(count: usize, width: usize, height: usize) -> bool
    ensures { result ≡ sizes_fit count width height }
{
    is_size(width, height) && count == width * height
}

// The test of a width and a height alone.
pub fn is_size(width: usize, height: usize) -> bool
    ensures { result ≡ is_size width height }
{
    (1 <= width) & (width <= 4096) & (1 <= height) & (height <= 4096)
}

// The test of a pitch alone.
fn is_pitch(width: usize, pitch: usize) -> bool
    ensures { result ≡ is_pitch width pitch }
{
    (width <= pitch) & (pitch <= 8192)
}

// Whether `radius` pixels lie on both sides of c along an axis of n; the distance to the end is a difference, so that no sum wraps.
fn within(n: usize, c: i32, radius: usize) -> bool
    ensures { result ≡ inside radius n c }
{
    if c < 0 {
        return false;
    }
    let p = c as usize;
    radius <= p && p < n && radius < n - p
}
