// The view of an image after `imageview.rs`: samples of either width that are borrowed, with width, height and pitch. The functions are thin: each hands the view on to
// what does the work.
#![tactic(auto)]

ghost use Rattle.std.specs.Prelude.{◌≡◌, ◌+◌, ◌*◌, ◌≤◌, length, take, drop};
ghost use Rattle.imageview.specs.Image.{byte_image, is_image};
ghost use Rattle.response.specs.Call.{Done, region_of};
ghost use Rattle.refine_seed.specs.Refine.{refine_of};
ghost use Rattle.view.specs.Seen.{image_in, image_of_slice};

pub use imageview::ImageView;
use imageview::Sample;
use refine_formulas::SaddlePointConfig;
use refine_seed::{Estimate, Unrefined};
use refusals::Refusal;
use response::{Extent, Roi};

// The view as it is given; `is_image` tests it.
pub fn from_slice<'a, S: Sample>(
    data: &'a [S],
    width: usize,
    height: usize,
    pitch: usize,
) -> ImageView<'a, S>
    ensures { result ≡ record { «data» = «data».entry; width = width; height = height; pitch = pitch } }
{
    ImageView {
        data,
        width,
        height,
        pitch,
    }
}

// The same of bytes, under the name that document 01 has.
pub fn from_u8_slice<'a>(
    data: &'a [u8],
    width: usize,
    height: usize,
    pitch: usize,
) -> ImageView<'a, u8>
    ensures { result ≡ record { «data» = «data».entry; width = width; height = height; pitch = pitch } }
{
    from_slice(data, width, height, pitch)
}

// The test of an image: where it fails the calls answer refusal 10.
pub fn is_image<S: Sample>(view: ImageView<S>) -> bool
    ensures { result ≡ is_image (image_in S.levels S.deep view.entry) }
{
    view.is_image()
}

pub fn width<S: Sample>(view: ImageView<S>) -> usize
    ensures { result ≡ view.entry.width }
{
    view.width
}

pub fn height<S: Sample>(view: ImageView<S>) -> usize
    ensures { result ≡ view.entry.height }
{
    view.height
}

// How far a row begins from the one before it.
pub fn pitch<S: Sample>(view: ImageView<S>) -> usize
    ensures { result ≡ view.entry.pitch }
{
    view.pitch
}

// One row of a patch, as a part of the image: side samples from column x0 of row y.
pub fn patch_row<'a, S: Sample>(view: ImageView<'a, S>, x0: usize, y: usize, side: usize) -> &'a [S]
    requires { y * view.pitch + x0 + side ≤ length view.data.now }
    ensures { result.now ≡ take side (drop (y * view.entry.pitch + x0) view.entry.data.now) }
{
    view.patch_row(x0, y, side)
}

// The ChESS response of the view's image over a region.
pub fn response<S: Sample>(
    view: ImageView<S>,
    ring: &[i32; 32],
    radius: usize,
    roi: Roi,
    out: &mut [f32],
) -> Result<Extent, Refusal>
    ensures { Done (image_in S.levels S.deep view.entry) ring.now radius (region_of roi) out.old result out.new }
{
    response::chess_response_patch(view, ring, radius, roi, out)
}

// The refiner of one seed on the view's image.
pub fn refine<S: Sample>(
    view: ImageView<S>,
    cfg: SaddlePointConfig,
    x: f32,
    y: f32,
    wanted: bool,
) -> Result<Estimate, Unrefined>
    ensures { result ≡ refine_of (image_in S.levels S.deep view.entry) cfg x y wanted }
{
    refine_seed::refine(view, cfg, x, y, wanted)
}

// The same from plain samples: the view is a local.
pub fn refine_slice<S: Sample>(
    data: &[S],
    width: usize,
    height: usize,
    pitch: usize,
    cfg: SaddlePointConfig,
    x: f32,
    y: f32,
    wanted: bool,
) -> Result<Estimate, Unrefined>
    ensures { result ≡ refine_of (image_of_slice S.levels S.deep «data».now width height pitch) cfg x y wanted }
{
    refine(from_slice(data, width, height, pitch), cfg, x, y, wanted)
}

// And from plain bytes.
pub fn refine_bytes(
    data: &[u8],
    width: usize,
    height: usize,
    pitch: usize,
    cfg: SaddlePointConfig,
    x: f32,
    y: f32,
    wanted: bool,
) -> Result<Estimate, Unrefined>
    ensures { result ≡ refine_of (byte_image «data».now width height pitch) cfg x y wanted }
{
    refine_slice(data, width, height, pitch, cfg, x, y, wanted)
}
