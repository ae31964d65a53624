// Refining a list, of samples in bytes and in words: once, and with a second try.
ghost use Rattle.std.specs.Prelude.{length};
ghost use Rattle.imageview.specs.Image.{byte_image, word_image};
ghost use Rattle.imageview.specs.View.{shown};
ghost use Rattle.refine_fallback.specs.Call.{way_of, way_lent};
ghost use Rattle.chess_corners.specs.Face.{Refining};
ghost use Rattle.chess_corners.specs.Fallback.{Retrying};
ghost use Rattle.chess_corners.specs.Seed.{settings};

use crate::told;
use imageview::{ImageView, Sample};
use refine_formulas::SaddlePointConfig;

/// The corners that the refiner accepts, in input order with their own strength; 0, 10, 11, 12, 19, 16 or 15.
pub fn chess_corners_refine_list(
    img: &[u8],
    width: usize,
    height: usize,
    pitch: usize,
    radius: usize,
    det_margin: f32,
    max_offset: f32,
    min_abs_det: f32,
    corners: &[f32],
    out: &mut [f32],
    count: &mut usize,
) -> u32
    ensures { Refining (byte_image img.now width height pitch) (settings radius det_margin max_offset min_abs_det) corners.now out.old count.old result out.new count.new }
{
    let view = ImageView {
        data: img,
        width,
        height,
        pitch,
    };
    let cfg = SaddlePointConfig {
        radius,
        det_margin,
        max_offset,
        min_abs_det,
    };
    refine_all(view, cfg, corners, out, count)
}

/// The same of twelve-bit samples; 0, 10, 26, 11, 12, 19, 16 or 15.
pub fn chess_corners_refine_list_u16(
    img: &[u16],
    width: usize,
    height: usize,
    pitch: usize,
    radius: usize,
    det_margin: f32,
    max_offset: f32,
    min_abs_det: f32,
    corners: &[f32],
    out: &mut [f32],
    count: &mut usize,
) -> u32
    ensures { Refining (word_image img.now width height pitch) (settings radius det_margin max_offset min_abs_det) corners.now out.old count.old result out.new count.new }
{
    let view = ImageView {
        data: img,
        width,
        height,
        pitch,
    };
    let cfg = SaddlePointConfig {
        radius,
        det_margin,
        max_offset,
        min_abs_det,
    };
    refine_all(view, cfg, corners, out, count)
}

fn refine_all<S: Sample>(
    view: ImageView<S>,
    cfg: SaddlePointConfig,
    corners: &[f32],
    out: &mut [f32],
    count: &mut usize,
) -> u32
    ensures { Refining (shown S.levels S.deep view.entry) cfg corners.now out.old count.old result out.new count.new }
{
    let answer = refine_list::refine_corners_on_image(view, cfg, corners, out);
    told::tell_count(answer, count)
}

/// The corners that the first settings accept, or else the second ones, in input order with their own strength, and a byte for each: 1 or 2;
/// 0, 10, 11, 12, 19, 16 or 15.
pub fn chess_corners_refine_list_fallback(
    img: &[u8],
    width: usize,
    height: usize,
    pitch: usize,
    radius: usize,
    det_margin: f32,
    max_offset: f32,
    min_abs_det: f32,
    second_radius: usize,
    second_det_margin: f32,
    second_max_offset: f32,
    second_min_abs_det: f32,
    corners: &[f32],
    out: &mut [f32],
    passes: &mut [u8],
    count: &mut usize,
) -> u32
    ensures { Retrying (way_of (byte_image img.now width height pitch) (settings radius det_margin max_offset min_abs_det) (settings second_radius second_det_margin second_max_offset second_min_abs_det) corners.now (length out.old) (length passes.old)) out.old passes.old count.old result out.new passes.new count.new }
{
    let view = ImageView {
        data: img,
        width,
        height,
        pitch,
    };
    let first = SaddlePointConfig {
        radius,
        det_margin,
        max_offset,
        min_abs_det,
    };
    let second = SaddlePointConfig {
        radius: second_radius,
        det_margin: second_det_margin,
        max_offset: second_max_offset,
        min_abs_det: second_min_abs_det,
    };
    retry(view, first, second, corners, out, passes, count)
}

/// The same of twelve-bit samples; 0, 10, 26, 11, 12, 19, 16 or 15.
pub fn chess_corners_refine_list_fallback_u16(
    img: &[u16],
    width: usize,
    height: usize,
    pitch: usize,
    radius: usize,
    det_margin: f32,
    max_offset: f32,
    min_abs_det: f32,
    second_radius: usize,
    second_det_margin: f32,
    second_max_offset: f32,
    second_min_abs_det: f32,
    corners: &[f32],
    out: &mut [f32],
    passes: &mut [u8],
    count: &mut usize,
) -> u32
    ensures { Retrying (way_of (word_image img.now width height pitch) (settings radius det_margin max_offset min_abs_det) (settings second_radius second_det_margin second_max_offset second_min_abs_det) corners.now (length out.old) (length passes.old)) out.old passes.old count.old result out.new passes.new count.new }
{
    let view = ImageView {
        data: img,
        width,
        height,
        pitch,
    };
    let first = SaddlePointConfig {
        radius,
        det_margin,
        max_offset,
        min_abs_det,
    };
    let second = SaddlePointConfig {
        radius: second_radius,
        det_margin: second_det_margin,
        max_offset: second_max_offset,
        min_abs_det: second_min_abs_det,
    };
    retry(view, first, second, corners, out, passes, count)
}

fn retry<S: Sample>(
    view: ImageView<S>,
    first: SaddlePointConfig,
    second: SaddlePointConfig,
    corners: &[f32],
    out: &mut [f32],
    passes: &mut [u8],
    count: &mut usize,
) -> u32
    ensures { Retrying (way_of (shown S.levels S.deep view.entry) first second corners.now (length out.old) (length passes.old)) out.old passes.old count.old result out.new passes.new count.new }
{
    let answer = refine_fallback::refine_corners_on_image_with_fallback(
        view, first, second, corners, out, passes,
    );
    told::tell_count(answer, count)
}

/// The same with the columns of both operators lent, whatever they hold; with those of the radii, built by `chess_corners_fit_operator`, the answer is
/// that of `chess_corners_refine_list_fallback`.
pub fn chess_corners_refine_list_fallback_with(
    img: &[u8],
    width: usize,
    height: usize,
    pitch: usize,
    radius: usize,
    det_margin: f32,
    max_offset: f32,
    min_abs_det: f32,
    second_radius: usize,
    second_det_margin: f32,
    second_max_offset: f32,
    second_min_abs_det: f32,
    columns: &[f32; 1125],
    second_columns: &[f32; 1125],
    corners: &[f32],
    out: &mut [f32],
    passes: &mut [u8],
    count: &mut usize,
) -> u32
    ensures { Retrying (way_lent (byte_image img.now width height pitch) (settings radius det_margin max_offset min_abs_det) (settings second_radius second_det_margin second_max_offset second_min_abs_det) columns.now second_columns.now corners.now (length out.old) (length passes.old)) out.old passes.old count.old result out.new passes.new count.new }
{
    let view = ImageView {
        data: img,
        width,
        height,
        pitch,
    };
    let first = SaddlePointConfig {
        radius,
        det_margin,
        max_offset,
        min_abs_det,
    };
    let second = SaddlePointConfig {
        radius: second_radius,
        det_margin: second_det_margin,
        max_offset: second_max_offset,
        min_abs_det: second_min_abs_det,
    };
    retry_lent(
        view,
        first,
        second,
        columns,
        second_columns,
        corners,
        out,
        passes,
        count,
    )
}

/// The same of twelve-bit samples with the columns of both operators lent; 0, 10, 26, 11, 12, 19, 16 or 15.
pub fn chess_corners_refine_list_fallback_with_u16(
    img: &[u16],
    width: usize,
    height: usize,
    pitch: usize,
    radius: usize,
    det_margin: f32,
    max_offset: f32,
    min_abs_det: f32,
    second_radius: usize,
    second_det_margin: f32,
    second_max_offset: f32,
    second_min_abs_det: f32,
    columns: &[f32; 1125],
    second_columns: &[f32; 1125],
    corners: &[f32],
    out: &mut [f32],
    passes: &mut [u8],
    count: &mut usize,
) -> u32
    ensures { Retrying (way_lent (word_image img.now width height pitch) (settings radius det_margin max_offset min_abs_det) (settings second_radius second_det_margin second_max_offset second_min_abs_det) columns.now second_columns.now corners.now (length out.old) (length passes.old)) out.old passes.old count.old result out.new passes.new count.new }
{
    let view = ImageView {
        data: img,
        width,
        height,
        pitch,
    };
    let first = SaddlePointConfig {
        radius,
        det_margin,
        max_offset,
        min_abs_det,
    };
    let second = SaddlePointConfig {
        radius: second_radius,
        det_margin: second_det_margin,
        max_offset: second_max_offset,
        min_abs_det: second_min_abs_det,
    };
    retry_lent(
        view,
        first,
        second,
        columns,
        second_columns,
        corners,
        out,
        passes,
        count,
    )
}

fn retry_lent<S: Sample>(
    view: ImageView<S>,
    first: SaddlePointConfig,
    second: SaddlePointConfig,
    own: &[f32; 1125],
    other: &[f32; 1125],
    corners: &[f32],
    out: &mut [f32],
    passes: &mut [u8],
    count: &mut usize,
) -> u32
    ensures { Retrying (way_lent (shown S.levels S.deep view.entry) first second own.now other.now corners.now (length out.old) (length passes.old)) out.old passes.old count.old result out.new passes.new count.new }
{
    let answer = refine_fallback::refine_corners_with_columns(
        view, first, second, own, other, corners, out, passes,
    );
    told::tell_count(answer, count)
}
