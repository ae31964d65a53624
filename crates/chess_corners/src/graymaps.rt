// Reading graymaps, of samples in bytes and in words.
ghost use Rattle.std.specs.Prelude.{false};
ghost use Rattle.graymap.specs.Call.{read_of};
ghost use Rattle.chess_corners.specs.Face.{Reading, ReadingDeep};

use graymap::{Graymap, Unread};

/// The sizes of a graymap, its maximum and where its pixels begin in the file; 0, 20, 21, 22, 23, 24 or 25.
pub fn chess_corners_graymap(
    file: &[u8],
    width: &mut usize,
    height: &mut usize,
    maximum: &mut usize,
    start: &mut usize,
    pixel: &mut usize,
) -> u32
    ensures { Reading (read_of false file.now) (record { width = width.old; height = height.old; maximum = maximum.old; start = start.old; pixel = pixel.old }) result (record { width = width.new; height = height.new; maximum = maximum.new; start = start.new; pixel = pixel.new }) }
{
    let answer = graymap::read_graymap(file);
    tell(answer, width, height, maximum, start, pixel)
}

/// A graymap with a maximum of 256 to 4095, its samples written to `out`; 0, 20, 21, 22, 23, 24, 25 or 27.
pub fn chess_corners_graymap_u16(
    file: &[u8],
    out: &mut [u16],
    width: &mut usize,
    height: &mut usize,
    maximum: &mut usize,
    start: &mut usize,
    pixel: &mut usize,
) -> u32
    ensures { ReadingDeep file.now out.old (record { width = width.old; height = height.old; maximum = maximum.old; start = start.old; pixel = pixel.old }) result out.new (record { width = width.new; height = height.new; maximum = maximum.new; start = start.new; pixel = pixel.new }) }
{
    let answer = graymap::read_graymap_u16(file, out);
    tell(answer, width, height, maximum, start, pixel)
}

// What was read, or the pixel above the maximum.
fn tell(
    answer: Result<Graymap, Unread>,
    width: &mut usize,
    height: &mut usize,
    maximum: &mut usize,
    start: &mut usize,
    pixel: &mut usize,
) -> u32
    ensures { Reading answer (record { width = width.old; height = height.old; maximum = maximum.old; start = start.old; pixel = pixel.old }) result (record { width = width.new; height = height.new; maximum = maximum.new; start = start.new; pixel = pixel.new }) }
{
    match answer {
        Ok(read) => {
            *width = read.width;
            *height = read.height;
            *maximum = read.maximum;
            *start = read.start;
            0
        }
        Err(Unread::Above(at)) => {
            *pixel = at;
            24
        }
        Err(Unread::Refused(refusal)) => refusal.into(),
    }
}
