// The response of an image, of samples in bytes and in words.
ghost use Rattle.imageview.specs.Image.{byte_image, word_image};
ghost use Rattle.imageview.specs.View.{shown};
ghost use Rattle.chess_corners.specs.Face.{Responded};

use imageview::{ImageView, Sample};
use response::Roi;

/// The ChESS response of the region (x0, y0) to (x1, y1), clamped to the image; 0, 10, 11, 13, 14 or 15.
pub fn chess_corners_response(
    img: &[u8],
    width: usize,
    height: usize,
    pitch: usize,
    ring: &[i32; 32],
    radius: usize,
    x0: usize,
    y0: usize,
    x1: usize,
    y1: usize,
    out: &mut [f32],
    out_width: &mut usize,
    out_height: &mut usize,
) -> u32
    ensures { Responded (byte_image img.now width height pitch) ring.now radius (record { x0 = x0; y0 = y0; x1 = x1; y1 = y1 }) out.old out_width.old out_height.old result out.new out_width.new out_height.new }
{
    let view = ImageView {
        data: img,
        width,
        height,
        pitch,
    };
    respond(
        view, ring, radius, x0, y0, x1, y1, out, out_width, out_height,
    )
}

/// The same of twelve-bit samples; 0, 10, 26, 11, 13, 14 or 15.
pub fn chess_corners_response_u16(
    img: &[u16],
    width: usize,
    height: usize,
    pitch: usize,
    ring: &[i32; 32],
    radius: usize,
    x0: usize,
    y0: usize,
    x1: usize,
    y1: usize,
    out: &mut [f32],
    out_width: &mut usize,
    out_height: &mut usize,
) -> u32
    ensures { Responded (word_image img.now width height pitch) ring.now radius (record { x0 = x0; y0 = y0; x1 = x1; y1 = y1 }) out.old out_width.old out_height.old result out.new out_width.new out_height.new }
{
    let view = ImageView {
        data: img,
        width,
        height,
        pitch,
    };
    respond(
        view, ring, radius, x0, y0, x1, y1, out, out_width, out_height,
    )
}

fn respond<S: Sample>(
    view: ImageView<S>,
    ring: &[i32; 32],
    radius: usize,
    x0: usize,
    y0: usize,
    x1: usize,
    y1: usize,
    out: &mut [f32],
    out_width: &mut usize,
    out_height: &mut usize,
) -> u32
    ensures { Responded (shown S.levels S.deep view.entry) ring.now radius (record { x0 = x0; y0 = y0; x1 = x1; y1 = y1 }) out.old out_width.old out_height.old result out.new out_width.new out_height.new }
{
    let region = Roi { x0, y0, x1, y1 };
    match response::chess_response_patch(view, ring, radius, region, out) {
        Ok(extent) => {
            *out_width = extent.width;
            *out_height = extent.height;
            0
        }
        Err(refusal) => refusal.into(),
    }
}
